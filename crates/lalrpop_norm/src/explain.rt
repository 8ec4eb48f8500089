//! The way back: what a derivation tree of the lowered grammar is in the grammar as it was written, and the other way round.
//!
//! [`normalize_traced`](crate::normalize::normalize_traced) answers the lowered grammar with where each of its productions comes
//! from.

pub use lalrpop_norm_explain::{
    ExplainError, ExplainFault, LoweredTree, Traced, WrittenTree, explain, explain_at, lower_tree,
};
pub use lalrpop_norm_origins::Origin;
