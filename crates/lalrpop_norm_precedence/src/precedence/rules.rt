//! The rules of the levels of a rule.
ghost use Rattle.std.specs.Prelude.{◌≡◌, None, IfOk, OnOk, map, option_map};
ghost use Rattle.lalrpop_norm_tree_parts.specs.Attributes.{attributes_view};
ghost use Rattle.lalrpop_norm_tree.specs.Items.{alternative_view, rule_view};
ghost use Rattle.lalrpop_norm_tree.specs.Symbols.{nonterminal, kind_view, parts_view};
ghost use Rattle.lalrpop_norm_faults.specs.Faults.{RefusesOr};
ghost use Rattle.lalrpop_norm_model.specs.Levels.{greater, greatest};
ghost use Rattle.lalrpop_norm_model.specs.Grammars.{is_nil};
ghost use Rattle.lalrpop_norm_model.specs.LevelRules.{leveled_parts, is_own, level_rules};
ghost use Rattle.lalrpop_norm_precedence_steps.specs.LevelFaults.{level_faults};
ghost use Rattle.lalrpop_norm_precedence.specs.Occurrences.{is_target};
ghost use Rattle.lalrpop_norm_precedence.specs.Grouped.{LevelGroup, marked_view, group_view};
ghost use Rattle.lalrpop_norm_precedence_steps.specs.Sides.{side_of};
ghost use Rattle.lalrpop_norm_precedence.specs.Made.{kind_by_side, less_first, without_level_attributes, top_of};
ghost use Rattle.lalrpop_norm_precedence.specs.Made.{rewritten, made_alternative, made_rule, made_level_rules};

use super::groups::{Group, Marked, group_by_level, mark};
use super::read::read_levels;
use super::{ASSOC_ATTR, Assoc, PREC_ATTR, replace_nonterm};
use lalrpop_norm_faults::NormResult;
use lalrpop_norm_precedence_steps::levels::has_levels;
use lalrpop_norm_precedence_steps::occurrences::{direction_by_side, substitution_by_side};
use lalrpop_norm_precedence_steps::steps::{level_name, push_step};
use lalrpop_norm_tree::grammar::parse_tree::{
    Alternative, Attribute, NoMemory, NonterminalData, NonterminalString, Symbol, SymbolKind,
};
use std::alloc::Global;
use std::mem;

/// The rules of the levels of a rule, rising; a rule without levels as it is. All its alternatives count; those that
/// are not enabled are to be taken out before.
///
/// The highest level keeps the name; the name of each other one ends in its number. A level has its own alternatives in order,
/// without the `precedence` and the `assoc` that were read, each recursive occurrence as the level that the alternative's
/// associativity gives it; then, but on the lowest level, a step to the level below: only its name, at the span of the rule,
/// without action code. All else of the rule is copied to each level. In a macro no reference is a recursive occurrence.
///
/// The errors are those of [`read_levels`](super::read_levels). The rule is consumed, also if it is rejected.
pub fn expand_nonterm(alloc: Global, rule: NonterminalData) -> NormResult<Vec<NonterminalData>>
    ensures { RefusesOr result (level_faults (rule_view rule)) (λ rules. map rule_view rules.items ≡ level_rules (rule_view rule)) }
{
    if !has_levels(&rule.alternatives) {
        let mut alone = Vec::with_capacity(alloc, 1)?;
        alone.push(rule)?;
        return Ok(alone);
    }
    let levels = read_levels(alloc, &rule)?;
    let mut head = rule;
    let alternatives = mem::replace(&mut head.alternatives, Vec::new(alloc));
    let marked = mark(alloc, alternatives, &levels)?;
    let groups = group_by_level(alloc, marked)?;
    let rules = made_rules(alloc, &head, groups)?;
    Ok(rules)
}

/// The greatest level of some groups.
fn greatest(groups: &[Group]) -> Option<u32>
    ensures { result ≡ greatest (map (λ (g : LevelGroup). g.0) (map group_view groups.now)) }
{
    let mut top = None;
    for i in (0..groups.len()).rev() {
        top = Some(greater(groups[i].level, top));
    }
    top
}

fn greater(level: u32, other: Option<u32>) -> u32
    ensures { result ≡ greater level other }
{
    match other {
        Some(other) => level.max(other),
        None => level,
    }
}

/// The rules of the groups, with the head of a rule whose alternatives are taken out. The name of each level is generated here,
/// once.
#[tactic(auto, using(crate::proofs::BelowLemmas::name_lent))]
fn made_rules(
    alloc: Global,
    head: &NonterminalData,
    groups: Vec<Group>,
) -> Result<Vec<NonterminalData>, NoMemory>
    ensures { IfOk result (λ rules. map rule_view rules.items
        ≡ made_level_rules (rule_view head.now) (top_of (map group_view groups.items)) None (map group_view groups.items)) }
{
    let highest = greatest(&groups).unwrap_or(0);
    let mut rules = Vec::new(alloc);
    let mut below: Option<NonterminalString> = None;
    for group in groups {
        let own = level_name(alloc, &head.name, highest, group.level)?;
        rules.push(made_rule(alloc, head, &own, below.as_ref(), group.alternatives)?)?;
        below = Some(own);
    }
    Ok(rules)
}

#[tactic(auto, unfolding(crate::specs::Made::made_rule))]
fn made_rule(
    alloc: Global,
    head: &NonterminalData,
    own: &NonterminalString,
    below: Option<&NonterminalString>,
    marked: Vec<Marked>,
) -> Result<NonterminalData, NoMemory>
    ensures { IfOk result (λ r. rule_view r
        ≡ made_rule (rule_view head.now) own.now.0 (option_map (λ n. n.now.0) below.entry) (map marked_view marked.items)) }
{
    let mut alternatives = made_alternatives(alloc, head, own, below, marked)?;
    push_step(alloc, head, below, &mut alternatives)?;
    let mut rule = head.clone()?;
    rule.name = own.clone()?;
    rule.alternatives = alternatives;
    Ok(rule)
}

#[tactic(auto, using(lalrpop_norm_tree::proofs::SymbolViews::nonterminal_seen))]
fn kind_named(name: &NonterminalString) -> Result<SymbolKind, NoMemory>
    ensures { IfOk result (λ k. kind_view k ≡ nonterminal name.now.0) }
{
    Ok(SymbolKind::Nonterminal(name.clone()?))
}

#[tactic(auto, unfolding(crate::specs::Made::made_alternative), using(crate::proofs::BelowLemmas::name_or_own))]
fn made_alternatives(
    alloc: Global,
    head: &NonterminalData,
    own: &NonterminalString,
    below: Option<&NonterminalString>,
    marked: Vec<Marked>,
) -> Result<Vec<Alternative>, NoMemory>
    ensures { IfOk result (λ alternatives. map alternative_view alternatives.items
        ≡ map (made_alternative (rule_view head.now) own.now.0 (option_map (λ n. n.now.0) below.entry))
        (map marked_view marked.items)) }
{
    let current = kind_named(own)?;
    let lower = kind_named(below.unwrap_or(own))?;
    let mut alternatives = Vec::with_capacity(alloc, marked.len())?;
    for alternative in marked {
        alternatives.push(made_alternative(head, &current, &lower, alternative)?)?;
    }
    Ok(alternatives)
}

#[tactic(auto, unfolding(crate::specs::Made::rewritten))]
fn made_alternative(
    head: &NonterminalData,
    current: &SymbolKind,
    below: &SymbolKind,
    marked: Marked,
) -> Result<Alternative, NoMemory>
    ensures { IfOk result (λ a. alternative_view a
        ≡ rewritten (rule_view head.now) (kind_view current.now) (kind_view below.now) (marked_view marked)) }
{
    let mut alternative = marked.alternative;
    replace_own(
        head,
        current,
        below,
        marked.side,
        &mut alternative.expr.symbols,
    )?;
    remove_levels(&mut alternative.attributes);
    Ok(alternative)
}

/// Takes away the `precedence` and the `assoc` that are read.
#[tactic(auto, using(crate::proofs::KindLemmas::less_first_view))]
fn remove_levels(attributes: &mut Vec<Attribute>)
    ensures { attributes_view attributes.new.items ≡ without_level_attributes (attributes_view attributes.old.items) }
{
    remove_first(attributes, PREC_ATTR);
    remove_first(attributes, ASSOC_ATTR);
}

/// Takes away the first attribute of a name.
fn remove_first(attributes: &mut Vec<Attribute>, name: &str)
    ensures { attributes.new.items ≡ less_first name.now attributes.old.items }
{
    for i in 0..attributes.len() {
        if attributes[i].id.as_str() == name {
            let _ = attributes.remove(i);
            return;
        }
    }
}

/// Whether a rule is no macro.
fn is_plain(rule: &NonterminalData) -> bool
    ensures { result ≡ is_nil (rule_view rule.now).args }
{
    match rule.args.first() {
        Some(_) => false,
        None => true,
    }
}

#[tactic(auto, using(crate::proofs::KindLemmas::own_of_plain, crate::proofs::KindLemmas::own_of_macro))]
fn replace_own(
    head: &NonterminalData,
    current: &SymbolKind,
    below: &SymbolKind,
    side: Assoc,
    symbols: &mut [Symbol],
) -> Result<(), NoMemory>
    ensures { OnOk result (parts_view symbols.new
        ≡ leveled_parts (is_own (rule_view head.now))
        (kind_by_side (side_of side) (kind_view current.now) (kind_view below.now)) 0 0 (parts_view symbols.old)) }
{
    if is_plain(head) {
        replace_by_side(&head.name, current, below, side, symbols)?;
    }
    Ok(())
}

/// Rewrites the recursive occurrences in an alternative of this associativity.
#[tactic(auto, using(crate::proofs::KindLemmas::by_side))]
fn replace_by_side(
    target: &NonterminalString,
    current: &SymbolKind,
    below: &SymbolKind,
    side: Assoc,
    symbols: &mut [Symbol],
) -> Result<(), NoMemory>
    ensures { OnOk result (parts_view symbols.new
        ≡ leveled_parts (is_target target.now.0)
        (kind_by_side (side_of side) (kind_view current.now) (kind_view below.now)) 0 0 (parts_view symbols.old)) }
{
    replace_nonterm(
        target,
        substitution_by_side(side, current, below),
        direction_by_side(side),
        symbols,
    )
}
