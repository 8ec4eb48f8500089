//! Patterns of conversions, over any type of what they select: copies, texts, maps, and the list of the selected parts.
//!
//! `lalrpop_norm_tree` gives the types again, under the paths that users know.
#![tactic(auto)]

pub mod pattern;
