//! Lowered grammars: plain productions, their actions and their types.
//!
//! The types have the paths of the module [`grammar`]. Each type that holds a list, a box, a `String` or a map
//! has a *view* in specs/: plain data without pointers, of which every contract speaks.
#![tactic(auto)]

mod action;
pub mod grammar;
mod production;
mod symbol;
mod types;
mod whole;
