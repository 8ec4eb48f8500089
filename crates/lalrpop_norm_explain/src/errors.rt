//! Why there is no answer.
ghost use Rattle.std.specs.Prelude.{◌≡◌, List, Some};
ghost use Rattle.lalrpop_norm_explain.specs.FaultCodes.{tree_fault_code};
ghost use Rattle.lalrpop_norm_explain.specs.TreeFaults.{Found, IsFoundUp, raised, Turned};

use shared_text::NoMemory;
use std::alloc::{AllocError, AllocFailed};
use std::fmt;

/// What is wrong with a tree. Each kind has an error code, which `Display` writes.
#[derive(Clone, Copy, Debug, PartialEq, Eq)]
pub enum ExplainFault {
    /// X1: the root is no node, or its name is not that of an enabled written rule without arguments; of `explain_at`, its
    /// nonterminal has no production.
    Root,
    /// X2: the nonterminal has no production of that index.
    Production,
    /// X3: the number of children is not that of the production's symbols; or a child is not of its symbol, where the path leads
    /// to the child.
    Child,
    /// X4: a written tree does not fit its position, seen without its children; a wrong number of children is reported at their
    /// node or list.
    Shape,
}

impl ExplainFault {
    /// Its error code: `X1` to `X4`.
    pub fn code(self) -> &'static str
        ensures { result.now ≡ tree_fault_code self }
    {
        match self {
            ExplainFault::Root => "X1",
            ExplainFault::Production => "X2",
            ExplainFault::Child => "X3",
            ExplainFault::Shape => "X4",
        }
    }
}

impl fmt::Display for ExplainFault {
    ghost output = { λ fault. Some (tree_fault_code fault) };

    fn fmt<W: fmt::Write>(&self, f: &mut fmt::Formatter<W>) -> fmt::Result {
        fmt::Display::fmt(self.code(), f)
    }
}

/// Why a tree is not translated.
#[derive(Debug, Drop)]
pub enum ExplainError {
    /// The first fault, and the indices of children, from 0, that lead to it from the root.
    Refused {
        fault: ExplainFault,
        path: Vec<usize>,
    },
    /// An allocation failed.
    Memory,
}

impl From<NoMemory> for ExplainError {
    ghost use Rattle.lalrpop_norm_explain.specs.declared.errors.ExplainError.TheVariants.{Memory};

    ghost from_gives = { λ _ e. e ≡ Memory };

    fn from(_: NoMemory) -> ExplainError {
        ExplainError::Memory
    }
}

impl From<AllocError> for ExplainError {
    ghost use Rattle.lalrpop_norm_explain.specs.declared.errors.ExplainError.TheVariants.{Memory};

    ghost from_gives = { λ _ e. e ≡ Memory };

    fn from(_: AllocError) -> ExplainError {
        ExplainError::Memory
    }
}

impl<T: Drop> From<AllocFailed<T>> for ExplainError {
    ghost use Rattle.lalrpop_norm_explain.specs.declared.errors.ExplainError.TheVariants.{Memory};

    ghost from_gives = { λ _ e. e ≡ Memory };

    fn from(_: AllocFailed<T>) -> ExplainError {
        ExplainError::Memory
    }
}

impl ExplainError {
    /// The error seen from the node whose child of that index has it, its path read upwards.
    pub(crate) fn raised(self, place: usize) -> ExplainError
        ensures { (fs : List Found) → IsFoundUp fs self → IsFoundUp (raised place fs) result }
    {
        match self {
            ExplainError::Refused { fault, mut path } => match path.push(place) {
                Ok(()) => ExplainError::Refused { fault, path },
                Err(_) => ExplainError::Memory,
            },
            ExplainError::Memory => ExplainError::Memory,
        }
    }

    /// The error with its path turned round.
    pub(crate) fn turned(self) -> ExplainError
        ensures { Turned self result }
    {
        match self {
            ExplainError::Refused { fault, mut path } => {
                path.reverse();
                ExplainError::Refused { fault, path }
            }
            ExplainError::Memory => ExplainError::Memory,
        }
    }
}
