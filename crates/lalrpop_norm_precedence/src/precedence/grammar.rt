//! The grammar with levels.
ghost use Rattle.std.specs.Prelude.{◌≡◌, ◌++◌, IfOk, OnOk, map, flat_map};
ghost use Rattle.std.specs.List.{list_any};
ghost use Rattle.lalrpop_norm_tree.specs.Items.{rule_item, rule_view, item_view, grammar_view};
ghost use Rattle.lalrpop_norm_faults.specs.Faults.{RefusesOr};
ghost use Rattle.lalrpop_norm_model.specs.LevelRules.{level_items, leveled_grammar};
ghost use Rattle.lalrpop_norm_precedence_steps.specs.LevelFaults.{item_level_faults, grammar_level_faults};
ghost use Rattle.lalrpop_norm_precedence.specs.LeveledItems.{item_has_levels};
ghost use Rattle.lalrpop_norm_precedence.specs.MadeNames.{rule_name, without_last, item_made_names, grammar_made_names};

use super::expand_nonterm;
use lalrpop_norm_faults::NormResult;
use lalrpop_norm_precedence_steps::items::rule_or_push;
use lalrpop_norm_precedence_steps::levels::has_levels;
use lalrpop_norm_tree::grammar::parse_tree::{
    Atom, Grammar, GrammarItem, NoMemory, NonterminalData,
};
use std::alloc::Global;
use std::mem;

/// The grammar with levels: in place of each rule the rules of its levels, macro definitions likewise, all else unchanged. Names
/// are taken as they are: the names of the grammar are to be resolved before. Alternatives that are not enabled are to be taken
/// out before.
///
/// The first fault of the levels of a rule is reported, the rules in item order; the errors are those of
/// [`read_levels`](super::read_levels). The grammar is consumed, also if it is rejected.
/// Names of levels that are taken, and macros with several levels, are not looked for.
pub fn expand_levels(alloc: Global, grammar: Grammar) -> NormResult<Grammar>
    ensures { RefusesOr result (grammar_level_faults (grammar_view grammar))
        (λ g. grammar_view g ≡ leveled_grammar (grammar_view grammar)) }
{
    let leveled = make_levels(alloc, grammar)?;
    Ok(leveled.grammar)
}

/// A grammar with levels, and the names generated for it: of each rule those of its levels but the highest.
#[derive(Drop)]
pub(super) struct Leveled {
    pub(super) grammar: Grammar,
    pub(super) made: Vec<Atom>,
}

/// The grammar with levels, and the names generated for it.
pub(super) fn make_levels(alloc: Global, grammar: Grammar) -> NormResult<Leveled>
    ensures value { RefusesOr result (grammar_level_faults (grammar_view grammar))
        (λ l. grammar_view l.grammar ≡ leveled_grammar (grammar_view grammar)) }
    ensures names { IfOk result (λ l. l.made.items ≡ grammar_made_names (grammar_view grammar)) }
{
    let mut leveled = grammar;
    let mut made = Vec::new(alloc);
    let items = mem::replace(&mut leveled.items, Vec::new(alloc));
    leveled.items = expand_items(alloc, items, &mut made)?;
    Ok(Leveled {
        grammar: leveled,
        made,
    })
}

/// The items with levels. If no rule has levels, their list is kept.
#[tactic(auto, using(crate::proofs::UnleveledItems::all_faults, crate::proofs::UnleveledItems::all_items, crate::proofs::UnleveledItems::all_names))]
fn expand_items(
    alloc: Global,
    items: Vec<GrammarItem>,
    names: &mut Vec<Atom>,
) -> NormResult<Vec<GrammarItem>>
    ensures value { RefusesOr result (flat_map item_level_faults (map item_view items.items))
        (λ made. map item_view made.items ≡ flat_map level_items (map item_view items.items)) }
    ensures names { OnOk result (names.new.items ≡ names.old.items ++ flat_map item_made_names (map item_view items.items)) }
{
    if !some_has_levels(&items) {
        return Ok(items);
    }
    let mut made = Vec::with_capacity(alloc, items.len())?;
    for item in items {
        expand_item(alloc, item, &mut made, names)?;
    }
    Ok(made)
}

fn some_has_levels(items: &[GrammarItem]) -> bool
    ensures { result ≡ list_any item_has_levels (map item_view items.now) }
{
    for item in items {
        if item_has_levels(item) {
            return true;
        }
    }
    false
}

/// Whether an item is a rule with levels.
fn item_has_levels(item: &GrammarItem) -> bool
    ensures { result ≡ item_has_levels (item_view item.now) }
{
    match item {
        GrammarItem::Nonterminal(rule) => has_levels(&rule.alternatives),
        GrammarItem::MatchToken(_)
        | GrammarItem::ExternToken(_)
        | GrammarItem::InternToken(_)
        | GrammarItem::Use(_) => false,
    }
}

/// Adds what an item becomes behind the items so far, and the names generated for it behind those so far.
#[tactic(auto, using(crate::proofs::ItemLemmas::rule_faults, crate::proofs::ItemLemmas::rule_adds_none, crate::proofs::ItemLemmas::rule_items, crate::proofs::ItemLemmas::rule_names, crate::proofs::ItemLemmas::no_faults, crate::proofs::ItemLemmas::as_it_is, crate::proofs::ItemLemmas::names_none))]
fn expand_item(
    alloc: Global,
    item: GrammarItem,
    made: &mut Vec<GrammarItem>,
    names: &mut Vec<Atom>,
) -> NormResult<()>
    ensures value { RefusesOr result (item_level_faults (item_view item))
        (λ u. map item_view made.new.items ≡ map item_view made.old.items ++ level_items (item_view item)) }
    ensures names { OnOk result (names.new.items ≡ names.old.items ++ item_made_names (item_view item)) }
{
    if !item_has_levels(&item) {
        made.push(item)?;
        return Ok(());
    }
    match rule_or_push(item, made)? {
        Some(rule) => {
            let rules = expand_nonterm(alloc, rule)?;
            push_made(&rules, names)?;
            push_rules(rules, made)?;
            Ok(())
        }
        None => Ok(()),
    }
}

/// Adds the names of the rules of levels, but for the highest, behind the names generated so far.
#[tactic(auto, using(crate::proofs::MadeNameLemmas::without_last_view))]
fn push_made(rules: &[NonterminalData], names: &mut Vec<Atom>) -> Result<(), NoMemory>
    ensures { OnOk result (names.new.items ≡ names.old.items ++ map rule_name (without_last (map rule_view rules.now))) }
{
    match rules.split_last() {
        Some((_, lower)) => push_names(lower, names),
        None => Ok(()),
    }
}

fn push_names(rules: &[NonterminalData], names: &mut Vec<Atom>) -> Result<(), NoMemory>
    ensures { OnOk result (names.new.items ≡ names.old.items ++ map rule_name (map rule_view rules.now)) }
{
    for rule in rules {
        names.push(rule.name.0.again())?;
    }
    Ok(())
}

fn push_rules(rules: Vec<NonterminalData>, made: &mut Vec<GrammarItem>) -> Result<(), NoMemory>
    ensures { OnOk result (map item_view made.new.items ≡ map item_view made.old.items ++ map rule_item (map rule_view rules.items)) }
{
    for rule in rules {
        made.push(GrammarItem::Nonterminal(rule))?;
    }
    Ok(())
}
