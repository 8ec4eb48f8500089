//! The engines of the programs for callers of C and of Rust: the arguments, an input and buffers go in as bytes.
#![tactic(auto)]

pub mod ambiguous;
mod ended;
pub mod explain;
pub mod run;
mod trees;
pub mod versions;
pub mod whole;
pub mod words;
pub mod written;
