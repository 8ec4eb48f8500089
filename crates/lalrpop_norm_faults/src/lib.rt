//! Faults of a grammar: their kinds and error codes, and how a pass answers one. The passes, and the definitions of their faults,
//! use this crate.
#![tactic(auto)]

mod failure;
mod kind;

pub use failure::{NormError, NormFailure, NormResult, refusal};
pub use kind::FaultKind;
