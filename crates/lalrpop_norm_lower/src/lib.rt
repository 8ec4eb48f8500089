//! Lowering: from rules of the expanded grammar to numbered productions, action functions and types.
#![tactic(auto)]

mod action_context;
mod action_lists;
mod actions;
mod alternatives;
mod arguments;
mod bodies;
mod carried;
mod clauses;
mod grammars;
mod head;
mod lowered_rules;
mod nonterminals;
mod numbered;
mod patterns;
mod placeholders;
mod recovery;
mod rules;
mod rules_with_actions;
mod start_types;
mod starts;
mod state;
mod symbols;
mod terminal_types;
mod tokens;

pub use grammars::{lower, lower_rules, lower_shared};
pub use lowered_rules::LoweredRules;
