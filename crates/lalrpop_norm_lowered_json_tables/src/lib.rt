//! Tables of lowered grammars in JSON, what their rows hold: terminals, symbols, numbers of actions; and origins of the actions.
#![tactic(auto)]

pub mod grammar;
pub mod names;
pub mod origins;
pub mod put;
pub mod symbols;
pub mod terminals;
