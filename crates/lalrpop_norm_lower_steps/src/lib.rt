//! Parts of lowering: each looks at one alternative, one public rule or one list of terminals, and at nothing else.
#![tactic(auto)]

pub mod algorithm;
pub mod clauses;
pub mod code;
pub mod placeholders;
pub mod refusals;
pub mod start_symbols;
pub mod terminals;
