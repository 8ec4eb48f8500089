//! The engine of the program `lexplain`: trees in lines of JSON, and the corresponding trees of a grammar.
#![tactic(auto)]

pub mod ambiguous;
pub mod answer;
pub mod laws;
pub mod report;
pub mod run;
pub mod words;
