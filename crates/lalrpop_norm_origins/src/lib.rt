//! The origins of the alternatives of the rules of a grammar.
//!
//! The type is defined here for all passes: each pass answers the origins of what it keeps, and adds those of what it generates.
#![tactic(auto)]

mod enabled;
pub mod laws;
mod origin;

pub use enabled::enabled_origins;
pub use origin::Origin;
