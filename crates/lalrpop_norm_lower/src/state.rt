//! What was made of the rules that were lowered.
use lalrpop_norm_repr::grammar::repr::{NonterminalData, NonterminalString};
use std::alloc::Global;
use std::collections::BTreeMap;

/// The nonterminals that were made of rules, and the number of the next action: how many alternatives they have.
#[derive(Drop)]
pub(crate) struct RuleState {
    pub(crate) alloc: Global,
    pub(crate) number: usize,
    pub(crate) nonterminals: BTreeMap<NonterminalString, NonterminalData>,
}
