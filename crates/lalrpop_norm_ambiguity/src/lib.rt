//! Whether two derivation trees of a lowered grammar show that the grammar, as it was written, is ambiguous: [`ambiguity`] checks
//! them, and answers the two written trees that they correspond to.
#![tactic(auto)]

mod check;
mod differences;
mod errors;
pub mod laws;

pub use check::{TwoReadings, ambiguity};
pub use errors::AmbiguityError;
