//! Why two trees show no ambiguity.
ghost use Rattle.std.specs.Prelude.{◌++◌, List, map};
ghost use Rattle.lalrpop_norm_explain.specs.TreeFaults.{Found, IsFound};
ghost use Rattle.lalrpop_norm_ambiguity.specs.Findings.{IsFirstFound, PairFinding, in_first, in_second};

use lalrpop_norm_explain::{ExplainError, ExplainFault};
use shared_text::NoMemory;

/// Why two derivation trees show no ambiguity: the first of these errors that holds, in this order; or out of memory.
#[derive(Debug, Drop)]
pub enum AmbiguityError {
    /// The first tree is no derivation tree of an enabled written rule without arguments.
    First {
        /// Its first fault: X1 to X3.
        fault: ExplainFault,
        /// The child indices, from 0, that lead to the fault from the root.
        path: Vec<usize>,
    },
    /// The second tree is none.
    Second {
        /// Its first fault: X1 to X3.
        fault: ExplainFault,
        /// The child indices, from 0, that lead to the fault from the root.
        path: Vec<usize>,
    },
    /// X5: the two trees are of different rules.
    Rules,
    /// X6: the yields differ, first at that index, from 0; or one ends there.
    Yields(usize),
    /// X7: both are the same tree.
    Same,
    /// An allocation failed.
    Memory,
}

impl From<NoMemory> for AmbiguityError {
    ghost use Rattle.std.specs.Prelude.{◌≡◌};
    ghost use Rattle.lalrpop_norm_ambiguity.specs.declared.errors.AmbiguityError.TheVariants.{Memory};

    ghost from_gives = { λ _ e. e ≡ Memory };

    fn from(_: NoMemory) -> AmbiguityError {
        AmbiguityError::Memory
    }
}

/// The error for a fault of the first tree.
pub(crate) fn of_first(error: ExplainError) -> AmbiguityError
    ensures { (fs : List Found) → IsFound fs error → (rest : List PairFinding) → IsFirstFound (map in_first fs ++ rest) result }
{
    match error {
        ExplainError::Refused { fault, path } => AmbiguityError::First { fault, path },
        ExplainError::Memory => AmbiguityError::Memory,
    }
}

/// The error for a fault of the second tree.
pub(crate) fn of_second(error: ExplainError) -> AmbiguityError
    ensures { (fs : List Found) → IsFound fs error → (rest : List PairFinding) → IsFirstFound (map in_second fs ++ rest) result }
{
    match error {
        ExplainError::Refused { fault, path } => AmbiguityError::Second { fault, path },
        ExplainError::Memory => AmbiguityError::Memory,
    }
}
