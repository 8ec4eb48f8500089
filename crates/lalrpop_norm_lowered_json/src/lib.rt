//! Whole lowered grammars in JSON: each struct an object with its fields in the order of their keys, each table a list of pairs.
#![tactic(auto)]

mod actions;
mod arguments;
mod attributes;
mod bounds;
pub mod laws;
mod names;
mod patterns;
mod productions;
mod put;
mod shared_actions;
mod shared_types;
mod tables;
mod tokens;
mod types;
pub mod whole;
