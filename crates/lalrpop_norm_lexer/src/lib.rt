//! Lexers: what reads the literals of a tokenizer's entries and builds its automaton.
#![tactic(auto)]

pub mod construct;
pub mod lexer;
mod reading;
