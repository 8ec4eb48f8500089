//! How a pass answers an error: a fault of the grammar, or a failed allocation.
ghost use Rattle.lalrpop_norm_faults.specs.Faults.{IsFirst, IsRefusal, error_view, failure_view};
ghost use Rattle.std.specs.Prelude.{◌≡◌, [], ◌∷◌};

use crate::kind::FaultKind;
use lalrpop_norm_tree_parts::names::Span;
use shared_text::NoMemory;
use std::alloc::{AllocError, AllocFailed};

/// A fault with its span.
#[derive(Debug, Drop)]
pub struct NormError {
    /// What is wrong.
    pub fault: FaultKind,
    /// The message, without error code and span.
    pub message: String,
    /// Its span: byte offsets in the grammar's text, half open.
    pub span: Span,
}

/// Why a pass gave no answer: a fault of the grammar, or a failed allocation.
#[derive(Debug, Drop)]
pub enum NormFailure {
    /// The grammar has this fault.
    Refused(NormError),
    /// Out of memory: an allocation failed, for the answer or for the message of a fault; or a pattern is past the size limit of
    /// `regex`.
    Memory,
}

/// What a pass answers.
pub type NormResult<T> = Result<T, NormFailure>;

impl Clone for NormError {
    ghost is_clone = { λ a b. error_view b ≡ error_view a };

    fn clone(&self) -> Result<NormError, AllocError> {
        Ok(NormError {
            fault: self.fault,
            message: self.message.clone()?,
            span: self.span,
        })
    }
}

impl Clone for NormFailure {
    ghost is_clone = { λ a b. failure_view b ≡ failure_view a };

    fn clone(&self) -> Result<NormFailure, AllocError> {
        match self {
            NormFailure::Refused(error) => Ok(NormFailure::Refused(error.clone()?)),
            NormFailure::Memory => Ok(NormFailure::Memory),
        }
    }
}

impl From<NoMemory> for NormFailure {
    ghost use Rattle.lalrpop_norm_faults.specs.declared.failure.NormFailure.TheVariants.{Memory};

    ghost from_gives = { λ _ r. r ≡ Memory };

    fn from(_: NoMemory) -> NormFailure {
        NormFailure::Memory
    }
}

impl From<AllocError> for NormFailure {
    ghost use Rattle.lalrpop_norm_faults.specs.declared.failure.NormFailure.TheVariants.{Memory};

    ghost from_gives = { λ _ r. r ≡ Memory };

    fn from(_: AllocError) -> NormFailure {
        NormFailure::Memory
    }
}

impl<T: Drop> From<AllocFailed<T>> for NormFailure {
    ghost use Rattle.lalrpop_norm_faults.specs.declared.failure.NormFailure.TheVariants.{Memory};

    ghost from_gives = { λ _ r. r ≡ Memory };

    fn from(_: AllocFailed<T>) -> NormFailure {
        NormFailure::Memory
    }
}

/// The error that reports a fault, once its message is made. If an allocation for the message failed, the error is that failure.
pub fn refusal(fault: FaultKind, span: Span, message: Result<String, AllocError>) -> NormFailure
    ensures first { IsFirst ((fault, span) ∷ []) result }
    ensures answer { IsRefusal fault span message result }
{
    match message {
        Ok(message) => NormFailure::Refused(NormError {
            fault,
            message,
            span,
        }),
        Err(_) => NormFailure::Memory,
    }
}
