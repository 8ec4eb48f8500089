//! Why a closure ends a walk that it is called by.
ghost use Rattle.std.specs.Prelude.{◌≡◌};

use shared_text::NoMemory;

/// Why a walk ends.
#[derive(Clone, Copy)]
pub(crate) enum Stop {
    /// A call failed.
    Refused,
    /// An allocation failed.
    Memory,
}

impl From<NoMemory> for Stop {
    ghost use Rattle.cases.specs.declared.stop.Stop.TheVariants.{Memory};

    ghost from_gives = { λ _ e. e ≡ Memory };

    fn from(_: NoMemory) -> Stop {
        Stop::Memory
    }
}
