//! Lowered types that share their parts, the table of the types of nonterminals, and lowered grammars over such types: what inference
//! and lowering make.
#![tactic(auto)]

pub mod action;
pub mod grammar;
pub mod shared;
pub mod table;
