//! Written grammars as trees: the values that a grammar's parser makes.
//!
//! The types have the paths of the module [`grammar`]. Each type that holds a list, a box or a `String`
//! has a *view* in specs/: plain data without pointers, of which every contract speaks. Names, paths, attributes, patterns,
//! bounds and lowered types are those of `lalrpop_norm_tree_parts`.
#![tactic(auto)]

pub mod grammar;
mod items;
mod symbol;
mod types;
