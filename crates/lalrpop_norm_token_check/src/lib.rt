//! The pass on tokens: each terminal has a conversion, or an entry of the tokenizer that the grammar gets.
#![tactic(auto)]

pub mod token_check;
