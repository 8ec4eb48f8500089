//! Types and lowering, under one name: inference, lowering, and the test of what lowering asks of a table of types. What is for
//! users is re-exported; each pass is in the crate of its name, with what one pass hands to another.
#![tactic(auto)]

pub use lalrpop_norm_is_typed::is_typed;
pub use lalrpop_norm_lower::lower;

/// The types of rules and terminals.
pub mod tyinfer {
    pub use lalrpop_norm_tyinfer::tyinfer::infer_types;
}
