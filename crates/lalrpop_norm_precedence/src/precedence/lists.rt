//! The origins of the alternatives of the rules of levels.
ghost use Rattle.std.specs.Prelude.{◌≡◌, ◌<◌, ℕ, [], ◌++◌, IfOk, OnOk, false, length, map, vec_len};
ghost use Rattle.lalrpop_norm_theory.specs.Rounds.{In};
ghost use Rattle.lalrpop_norm_tree.specs.Items.{rule_view, item_view, grammar_view};
ghost use Rattle.lalrpop_norm_faults.specs.Faults.{RefusesOr};
ghost use Rattle.lalrpop_norm_model.specs.Levels.{rising};
ghost use Rattle.lalrpop_norm_model.specs.Scopes.{resolved_grammar};
ghost use Rattle.lalrpop_norm_model.specs.LevelRules.{leveled_grammar};
ghost use Rattle.lalrpop_norm_model.specs.Stated.{IsRising};
ghost use Rattle.lalrpop_norm_origins.specs.Origins.{origin_view, origins_view, origin_lists};
ghost use Rattle.lalrpop_norm_precedence.specs.PrecedenceFaults.{precedence_faults};
ghost use Rattle.lalrpop_norm_precedence.specs.LevelLists.{levels_held, picked, pushed_origin, stepped_lists};
ghost use Rattle.lalrpop_norm_precedence.specs.LevelLists.{IsShaped, rule_level_lists, leveled_lists};

use super::expand::expand_precedence;
use super::groups::{listed, rank};
use super::read::hand_on;
use lalrpop_norm_faults::NormResult;
use lalrpop_norm_origins::Origin;
use lalrpop_norm_precedence_steps::levels::{AlternativeLevel, has_levels};
use lalrpop_norm_tree::grammar::parse_tree::{Grammar, GrammarItem, NoMemory, NonterminalData};
use std::alloc::Global;
use std::collections::BTreeSet;

/// The grammar of [`expand_precedence`], with the same errors, and the origins of the alternatives: the lists of a rule's levels
/// are in place of the rule's, each with the origins of the level's own alternatives, and then that of the step. `origins` has
/// one list for each rule in item order, and in it one origin for each alternative.
pub fn expand_precedence_traced(
    alloc: Global,
    grammar: Grammar,
    origins: Vec<Vec<Origin>>,
) -> NormResult<(Grammar, Vec<Vec<Origin>>)>
    requires shape { IsShaped (grammar_view grammar).items (origin_lists origins.items) }
    ensures expands { RefusesOr result (precedence_faults (grammar_view grammar))
        (λ r. grammar_view r.0 ≡ leveled_grammar (resolved_grammar (grammar_view grammar))) }
    ensures resolved { IfOk result (λ r. resolved_grammar (grammar_view r.0) ≡ grammar_view r.0) }
    ensures origins { IfOk result (λ r. origin_lists r.1.items
        ≡ leveled_lists (grammar_view grammar).items (origin_lists origins.items)) }
    ensures shaped { IfOk result (λ r. IsShaped (grammar_view r.0).items (origin_lists r.1.items)) }
{
    let lists = level_lists(alloc, &grammar.items, origins)?;
    let leveled = expand_precedence(alloc, grammar)?;
    Ok((leveled, lists))
}

/// The lists of the levels of each rule.
fn level_lists(
    alloc: Global,
    items: &[GrammarItem],
    origins: Vec<Vec<Origin>>,
) -> Result<Vec<Vec<Origin>>, NoMemory>
    requires { IsShaped (map item_view items.now) (origin_lists origins.items) }
    ensures { IfOk result (λ lists. origin_lists lists.items ≡ leveled_lists (map item_view items.now) (origin_lists origins.items)) }
{
    let mut lists = Vec::with_capacity(alloc, origins.len())?;
    let mut rest = origins.into_iter();
    for item in items {
        if let GrammarItem::Nonterminal(rule) = item {
            if let Some(own) = rest.next() {
                add_lists(alloc, rule, own, &mut lists)?;
            }
        }
    }
    Ok(lists)
}

/// Adds the lists of the levels of a rule: a rule without levels keeps its list.
fn add_lists(
    alloc: Global,
    rule: &NonterminalData,
    own: Vec<Origin>,
    lists: &mut Vec<Vec<Origin>>,
) -> Result<(), NoMemory>
    requires { length (rule_view rule.now).alternatives ≡ length (origins_view own.items) }
    ensures { OnOk result (origin_lists lists.new.items
        ≡ origin_lists lists.old.items ++ rule_level_lists (rule_view rule.now) (origins_view own.items)) }
{
    if !has_levels(&rule.alternatives) {
        lists.push(own)?;
        return Ok(());
    }
    let levels = hand_on(alloc, &rule.alternatives)?;
    let set = levels_set(alloc, &levels)?;
    let rising = listed(alloc, &set)?;
    let groups = grouped(alloc, &rising, &levels, own)?;
    push_stepped(groups, lists)
}

/// The set of the levels.
fn levels_set(alloc: Global, levels: &[AlternativeLevel]) -> Result<BTreeSet<u32>, NoMemory>
    ensures { IfOk result (λ set. set.keys ≡ rising (levels_held levels.now)) }
{
    let mut set = BTreeSet::new(alloc);
    for i in (0..levels.len()).rev() {
        set.insert(levels[i].level)?;
    }
    Ok(set)
}

fn empty_groups(alloc: Global, levels: &[u32]) -> Result<Vec<Vec<Origin>>, NoMemory>
    ensures { IfOk result (λ groups. origin_lists groups.items ≡ map (λ l. []) levels.now) }
{
    let mut groups = Vec::with_capacity(alloc, levels.len())?;
    for _ in levels {
        groups.push(Vec::new(alloc))?;
    }
    Ok(groups)
}

/// The origins in groups, one for each level.
fn grouped(
    alloc: Global,
    rising: &[u32],
    levels: &[AlternativeLevel],
    origins: Vec<Origin>,
) -> Result<Vec<Vec<Origin>>, NoMemory>
    requires rising { IsRising rising.now }
    requires there { (l : ℕ) → In l (levels_held levels.now) → In l rising.now }
    requires counted { length levels.now ≡ vec_len origins }
    ensures { IfOk result (λ groups. origin_lists groups.items
        ≡ map (λ l. picked l (levels_held levels.now) (origins_view origins.items)) rising.now) }
{
    let mut groups = empty_groups(alloc, rising)?;
    let mut i = 0;
    for origin in origins {
        let place = rank(rising, levels[i].level);
        push_to(&mut groups, place, origin)?;
        i += 1;
    }
    Ok(groups)
}

fn push_to(groups: &mut Vec<Vec<Origin>>, i: usize, origin: Origin) -> Result<(), NoMemory>
    requires { i < vec_len groups.old }
    ensures { OnOk result (origin_lists groups.new.items ≡ pushed_origin (origin_lists groups.old.items) i (origin_view origin)) }
{
    groups[i].push(origin)?;
    Ok(())
}

/// Adds the groups, with the origin of a step at the end of each but the first.
fn push_stepped(groups: Vec<Vec<Origin>>, lists: &mut Vec<Vec<Origin>>) -> Result<(), NoMemory>
    ensures { OnOk result (origin_lists lists.new.items
        ≡ origin_lists lists.old.items ++ stepped_lists false (origin_lists groups.items)) }
{
    let mut is_higher = false;
    for group in groups {
        let mut list = group;
        if is_higher {
            list.push(Origin::LevelStep)?;
        }
        lists.push(list)?;
        is_higher = true;
    }
    Ok(())
}
