//! What an expansion makes of a round: its items, read with their symbols reached and rewritten, and the parts of the rules that
//! it generates for the reached symbols.
#![tactic(auto)]

pub mod alternatives;
pub mod conditions;
mod copied;
pub mod generated;
pub mod groups;
pub mod items;
pub mod macros;
pub mod names;
mod reading;
pub mod rules;
pub mod shortened;
mod sources;
pub mod substituted;
