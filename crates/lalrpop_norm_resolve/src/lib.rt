//! Names in a grammar: what each one means.
#![tactic(auto)]

pub mod names;
pub mod resolve;
