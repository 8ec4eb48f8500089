//! The types of rules of the expanded grammar: declared, or inferred from the alternatives.
#![tactic(auto)]

pub mod tyinfer;
