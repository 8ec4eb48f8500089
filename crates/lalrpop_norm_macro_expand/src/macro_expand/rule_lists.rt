//! The lists of origins of a grammar's rules, and those of its macros by name.
ghost use Rattle.std.specs.Prelude.{◌≡◌, ℕ, List, ◌++◌, Some, None, IfOk, OnOk, map, flat_map, bytes_eq, if◌then◌else◌};
ghost use Rattle.std.specs.BTreeMap.{get};
ghost use Rattle.std.specs.Ordering.{nat_cmp};
ghost use Rattle.std.specs.Cmp.Lexicographic.{slice_cmp};
ghost use Rattle.lalrpop_norm_tree.specs.Accessors.{or_else};
ghost use Rattle.lalrpop_norm_tree.specs.Items.{rule_view, grammar_view};
ghost use Rattle.lalrpop_norm_origins.specs.Origins.{origins_view, origin_lists};
ghost use Rattle.lalrpop_norm_origins.specs.MadeOrigins.{traced_rules, plain_list};
ghost use Rattle.lalrpop_norm_macro_expand.specs.TracedRules.{list_view, macro_list, first_list_of, list_under};

use lalrpop_norm_origins::Origin;
use lalrpop_norm_tree::grammar::parse_tree::{
    Atom, Grammar, GrammarItem, NoMemory, NonterminalData,
};
use std::alloc::Global;
use std::collections::BTreeMap;

/// The origins of the alternatives of a macro.
#[derive(Drop)]
pub(super) struct MacroList {
    /// The macro's name.
    pub(super) name: Atom,
    pub(super) origins: Vec<Origin>,
}

/// The lists of the rules of a grammar, each in item order.
#[derive(Drop)]
pub(super) struct RuleLists {
    /// Of the rules without arguments.
    pub(super) plain: Vec<Vec<Origin>>,
    /// Of the macros.
    pub(super) macros: Vec<MacroList>,
}

/// Adds the list of a rule without arguments, or of a macro.
fn add_list(
    rule: &NonterminalData,
    origins: Vec<Origin>,
    lists: &mut RuleLists,
) -> Result<(), NoMemory>
    ensures plain { OnOk result (origin_lists lists.new.plain.items
        ≡ origin_lists lists.old.plain.items ++ plain_list (rule_view rule.now, origins_view origins.items)) }
    ensures macros { OnOk result (map list_view lists.new.macros.items
        ≡ map list_view lists.old.macros.items ++ macro_list (rule_view rule.now, origins_view origins.items)) }
{
    if rule.is_macro_def() {
        let name = rule.name.0.again();
        lists.macros.push(MacroList { name, origins })?;
        return Ok(());
    }
    lists.plain.push(origins)?;
    Ok(())
}

/// The lists of the rules of a grammar, which are passed in item order.
pub(super) fn rule_lists(
    alloc: Global,
    grammar: &Grammar,
    origins: Vec<Vec<Origin>>,
) -> Result<RuleLists, NoMemory>
    ensures plain { IfOk result (λ l. origin_lists l.plain.items
        ≡ flat_map plain_list (traced_rules (grammar_view grammar.now).items (origin_lists origins.items))) }
    ensures macros { IfOk result (λ l. map list_view l.macros.items
        ≡ flat_map macro_list (traced_rules (grammar_view grammar.now).items (origin_lists origins.items))) }
{
    let mut lists = RuleLists {
        plain: Vec::new(alloc),
        macros: Vec::new(alloc),
    };
    let mut rest = origins.into_iter();
    for item in &grammar.items {
        if let GrammarItem::Nonterminal(rule) = item {
            if let Some(own) = rest.next() {
                add_list(rule, own, &mut lists)?;
            }
        }
    }
    Ok(lists)
}

/// Notes the list of a macro under its name, if that has none yet.
fn note(named: &mut BTreeMap<Atom, Vec<Origin>>, list: MacroList) -> Result<(), NoMemory>
    ensures { OnOk result ((n : List ℕ) → get (slice_cmp nat_cmp) named.new n
        ≡ or_else (get (slice_cmp nat_cmp) named.old n) (if bytes_eq list.name n then Some list.origins else None)) }
{
    if named.contains_key(&list.name) {
        return Ok(());
    }
    let MacroList { name, origins } = list;
    named.insert(name, origins)?;
    Ok(())
}

/// The lists of macros by their names; of several of a name the first.
pub(super) fn by_name(
    alloc: Global,
    macros: Vec<MacroList>,
) -> Result<BTreeMap<Atom, Vec<Origin>>, NoMemory>
    ensures { IfOk result (λ m. list_under m ≡ first_list_of (map list_view macros.items)) }
{
    let mut named = BTreeMap::new(alloc);
    for list in macros {
        note(&mut named, list)?;
    }
    Ok(named)
}
