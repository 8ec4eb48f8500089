//! The nonterminals of a lowered grammar: start symbols first, then the rules.
ghost use Rattle.std.specs.Prelude.{◌≡◌, ◌<◌, ◌+◌, ◌++◌, ◌||◌, ⊤, [], ◌∷◌, length, reverse, IfOk, OnOk, MatchOption, map, vec_len};
ghost use Rattle.lalrpop_norm_faults.specs.Faults.{Refuses};
ghost use Rattle.lalrpop_norm_tree.specs.Items.{rule_view, item_view};
ghost use Rattle.lalrpop_norm_model.specs.LoweringFaults.{action_number_faults};
ghost use Rattle.lalrpop_norm_repr.specs.Productions.{nonterminal_data_view, production_view};
ghost use Rattle.lalrpop_norm_lower.specs.Carried.{uses_recovery};
ghost use Rattle.lalrpop_norm_lower.specs.Lowering.{entry_with, rule_entry, rule_rows, rules_among, with_entry};
ghost use Rattle.lalrpop_norm_lower.specs.Lowering.{start_alternative, production_of, sorted_onto};
ghost use Rattle.lalrpop_norm_lower.specs.Made.{alternatives_faults, made_rules_faults};
ghost use Rattle.lalrpop_norm_lower.specs.State.{state_nonterminals, rules_in};
ghost use Rattle.lalrpop_norm_lower.specs.Starts.{start_rule, taken_faults, faults_of_starts, entry_of_start, rows_of_starts};

use crate::alternatives::{lower_alternative, lower_alternatives};
use crate::recovery::some_error;
use crate::starts::{Start, insert};
use crate::state::RuleState;
use lalrpop_norm_faults::NormResult;
use lalrpop_norm_lower_steps::refusals::check_start;
use lalrpop_norm_lower_steps::start_symbols::{start_alternative, start_data};
use lalrpop_norm_repr::grammar::repr::{NonterminalData, Production};
use lalrpop_norm_tree::grammar::parse_tree as pt;
use lalrpop_norm_tree::grammar::parse_tree::{GrammarItem, NoMemory, Visibility};
use std::alloc::Global;
use std::mem;

/// The start symbol of a public rule.
fn lower_start(alloc: Global, number: &mut usize, start: &Start) -> NormResult<NonterminalData>
    ensures refuses { Refuses result (taken_faults start.now ++ action_number_faults number.old start.now.rule.now.span) }
    ensures lowered { IfOk result (λ n. nonterminal_data_view n ≡ entry_of_start number.old start.now) }
    ensures count { OnOk result (number.new ≡ number.old + 1) }
{
    check_start(alloc, start.rule, &start.name, start.taken)?;
    let production = start_production(alloc, number, start)?;
    Ok(start_data(alloc, start.rule, production)?)
}

/// The production of a start symbol.
fn start_production(alloc: Global, number: &mut usize, start: &Start) -> NormResult<Production>
    ensures refuses { Refuses result (action_number_faults number.old start.now.rule.now.span) }
    ensures lowered { IfOk result (λ p.
        production_view p ≡ production_of start.now.name number.old (start_alternative (start_rule start.now))) }
    ensures count { OnOk result (number.new ≡ number.old + 1) }
{
    let alternative = start_alternative(alloc, start.rule)?;
    lower_alternative(alloc, number, &start.name, &alternative)
}

/// The nonterminal of a rule, which is consumed.
fn lower_rule(
    alloc: Global,
    number: &mut usize,
    mut rule: pt::NonterminalData,
) -> NormResult<NonterminalData>
    ensures refuses { Refuses result (alternatives_faults number.old (rule_view rule).alternatives) }
    ensures lowered { IfOk result (λ n. nonterminal_data_view n ≡ rule_entry number.old (rule_view rule)) }
    ensures count { OnOk result (number.new ≡ number.old + length (rule_view rule).alternatives) }
{
    let alternatives = mem::replace(&mut rule.alternatives, Vec::new(alloc));
    let productions = lower_alternatives(alloc, number, &rule.name, alternatives)?;
    Ok(rule_data(alloc, rule, productions))
}

/// The nonterminal of a rule with these productions. What it has of the rule is moved out of it.
fn rule_data(
    alloc: Global,
    mut rule: pt::NonterminalData,
    productions: Vec<Production>,
) -> NonterminalData
    ensures { nonterminal_data_view result
        ≡ entry_with (rule_view rule) (map production_view productions.items) }
{
    NonterminalData {
        visibility: mem::replace(&mut rule.visibility, Visibility::Priv),
        span: rule.span,
        attributes: mem::replace(&mut rule.attributes, Vec::new(alloc)),
        productions,
    }
}

/// Adds the start symbols of public rules.
pub(crate) fn add_starts(state: &mut RuleState, starts: &[Start]) -> NormResult<()>
    ensures refuses { Refuses result (faults_of_starts state.old.number starts.now) }
    ensures table { OnOk result (state_nonterminals state.new
        ≡ sorted_onto (state_nonterminals state.old) (rows_of_starts state.old.number starts.now)) }
    ensures count { OnOk result (state.new.number ≡ state.old.number + length starts.now) }
{
    for start in starts {
        let name = start.name.clone()?;
        let data = lower_start(state.alloc, &mut state.number, start)?;
        insert(&mut state.nonterminals, name, data)?;
    }
    Ok(())
}

/// Adds the nonterminal of a rule, which is consumed.
pub(crate) fn add_rule(state: &mut RuleState, rule: pt::NonterminalData) -> NormResult<()>
    ensures refuses { Refuses result (alternatives_faults state.old.number (rule_view rule).alternatives) }
    ensures table { OnOk result (state_nonterminals state.new
        ≡ with_entry (state_nonterminals state.old) (rule.name, rule_entry state.old.number (rule_view rule))) }
    ensures count { OnOk result (state.new.number ≡ state.old.number + length (rule_view rule).alternatives) }
{
    let name = rule.name.clone()?;
    let data = lower_rule(state.alloc, &mut state.number, rule)?;
    Ok(insert(&mut state.nonterminals, name, data)?)
}

/// Adds the nonterminals of the rules among the items, and answers whether `!` occurs in one of them. Each item is dropped once it
/// is lowered, and its room in the list given back in time, so what is made of the later ones finds room there.
#[tactic(auto, using(crate::proofs::LoopLemmas::rule_skipped))]
pub(crate) fn add_rules(state: &mut RuleState, items: Vec<GrammarItem>) -> NormResult<bool>
    ensures refuses { Refuses result (made_rules_faults state.old.number (rules_in items.items)) }
    ensures table { OnOk result (state_nonterminals state.new
        ≡ sorted_onto (state_nonterminals state.old) (rule_rows state.old.number (rules_in items.items))) }
    ensures recovers { IfOk result (λ b. b ≡ uses_recovery (rules_in items.items)) }
{
    let mut left = items;
    left.reverse();
    let mut recovers = false;
    while let Some(item) = next_item(&mut left)? {
        recovers = sees_error(recovers, &left);
        if let Ok(rule) = item.into_nonterminal() {
            recovers = recovers || some_error(&rule.alternatives);
            add_rule(state, rule)?;
        }
    }
    Ok(recovers)
}

/// Whether `!` is known to occur in a rule, where the one that comes next is looked at too, of those that are left in falling
/// order: while the rule before it is lowered, its alternatives are on their way from memory.
pub(crate) fn sees_error(recovers: bool, left: &[GrammarItem]) -> bool
    ensures { (result || uses_recovery (rules_among (map item_view (reverse left.now))))
        ≡ (recovers || uses_recovery (rules_among (map item_view (reverse left.now)))) }
{
    match left.last() {
        Some(GrammarItem::Nonterminal(rule)) => recovers || some_error(&rule.alternatives),
        Some(
            GrammarItem::MatchToken(_)
            | GrammarItem::ExternToken(_)
            | GrammarItem::InternToken(_)
            | GrammarItem::Use(_),
        )
        | None => recovers,
    }
}

/// Takes the item that comes next, of those that are left in falling order.
#[tactic(auto, using(crate::proofs::LoopLemmas::last_first, crate::proofs::LoopLemmas::none_left))]
pub(crate) fn next_item(left: &mut Vec<GrammarItem>) -> Result<Option<GrammarItem>, NoMemory>
    ensures next { IfOk result
        (λ o. MatchOption o (reverse left.old.items ≡ []) (λ i. reverse left.old.items ≡ i ∷ reverse left.new.items)) }
    ensures fewer { IfOk result (λ o. MatchOption o ⊤ (λ _. vec_len left.new < vec_len left.old)) }
{
    let item = left.pop();
    give_back(left)?;
    Ok(item)
}

/// Gives back the room that a list does not need, where that is half of it or more.
fn give_back(list: &mut Vec<GrammarItem>) -> Result<(), NoMemory>
    ensures items { list.new.items ≡ list.old.items }
{
    if list.capacity() / 2 >= list.len() {
        list.shrink_to_fit();
        if list.capacity() > list.len() {
            return Err(NoMemory);
        }
    }
    Ok(())
}
