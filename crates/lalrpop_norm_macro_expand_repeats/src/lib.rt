//! The rules that repeats are desugared to.
#![tactic(auto)]

pub mod repeats;
