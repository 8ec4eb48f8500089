//! Trees in lines of JSON, read and written: a leaf or a node in each line, a node behind its children.
#![tactic(auto)]

pub mod laws;
mod line;
pub mod lines;
mod lowered;
mod names;
pub mod read;
mod stack;
mod written;
