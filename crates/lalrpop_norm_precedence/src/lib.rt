//! Precedence levels: which levels a rule's alternatives state, and each level as a rule of its own.
#![tactic(auto)]

pub mod precedence;
