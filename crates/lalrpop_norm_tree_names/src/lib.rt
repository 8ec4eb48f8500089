//! Spans, names, literals, terminals and type parameters, with their texts; and new lifetimes.
//!
//! `lalrpop_norm_tree_parts` and `lalrpop_norm_tree` give the types again, under the paths that users know.
#![tactic(auto)]

pub mod escape;
pub mod lifetimes;
pub mod names;
