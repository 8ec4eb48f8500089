//! A table of interned (hash-consed) nodes, one for each class of symbols that are equal up to spans: the symbols that an
//! expansion reached.
#![tactic(auto)]

pub mod digest;
pub mod given;
pub mod laws;
pub mod node;
pub mod parts;
mod patterns;
pub mod read;
pub mod table;
pub mod texts;
