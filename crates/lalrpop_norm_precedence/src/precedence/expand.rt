//! The pass over a grammar: names, levels, and the names of levels.
ghost use Rattle.std.specs.Prelude.{◌≡◌, [], true, IfOk, map, flat_map};
ghost use Rattle.lalrpop_norm_tree.specs.Items.{grammar_view, item_view, rule_view};
ghost use Rattle.lalrpop_norm_faults.specs.Faults.{Refuses, RefusesOr};
ghost use Rattle.lalrpop_norm_model.specs.Scopes.{globals, resolved_grammar};
ghost use Rattle.lalrpop_norm_model.specs.LevelRules.{leveled_grammar};
ghost use Rattle.lalrpop_norm_resolve.specs.NameFaults.{repeated_faults};
ghost use Rattle.lalrpop_norm_resolve.specs.NewNames.{table_rows, are_new};
ghost use Rattle.lalrpop_norm_precedence.specs.MacroLevels.{macro_level_faults, macro_item_faults};
ghost use Rattle.lalrpop_norm_precedence.specs.PrecedenceFaults.{precedence_faults};

use super::grammar::make_levels;
use super::has_several_levels;
use lalrpop_norm_faults::NormResult;
use lalrpop_norm_precedence_steps::levels::check_several;
use lalrpop_norm_resolve::names::{GlobalNames, are_new, resolve_names};
use lalrpop_norm_resolve::resolve::check_globals;
use lalrpop_norm_tree::grammar::parse_tree::{Atom, Grammar, GrammarItem, NonterminalData};
use std::alloc::Global;

/// The grammar with levels: its names resolved, in place of each rule the rules of its levels, macro definitions likewise, all
/// else unchanged. Alternatives that are not enabled are to be taken out before.
///
/// The first error is reported, in this order: the faults of names in the grammar (F25 to F32); the faults of its levels
/// (F12), rule by rule, see [`read_levels`](super::read_levels); and those of names in the grammar with levels, where
/// the name of a level is taken (F25), or a macro has two levels or more (F29, at the macro): a level names the one below
/// it without arguments. The grammar is consumed, also if it is rejected. The other error is a failed allocation.
pub fn expand_precedence(alloc: Global, grammar: Grammar) -> NormResult<Grammar>
    ensures expands { RefusesOr result (precedence_faults (grammar_view grammar))
        (λ g. grammar_view g ≡ leveled_grammar (resolved_grammar (grammar_view grammar))) }
    // nothing is left to resolve
    ensures resolved { IfOk result (λ g. resolved_grammar (grammar_view g) ≡ grammar_view g) }
{
    let resolved = resolve_names(alloc, grammar)?;
    // reported only after the names of levels were checked
    let macros = check_macros(alloc, &resolved.grammar.items);
    let leveled = make_levels(alloc, resolved.grammar)?;
    check_made(alloc, resolved.names, &leveled.made, &leveled.grammar)?;
    macros?;
    Ok(leveled.grammar)
}

/// Looks for the name of a level that is taken. The generated names are looked up among the names of the grammar before its
/// levels were expanded. Only if one of them is there, the names of the grammar with levels are listed.
fn check_made(alloc: Global, names: GlobalNames, made: &[Atom], leveled: &Grammar) -> NormResult<()>
    requires { are_new (table_rows names) made.now ≡ true → repeated_faults [] (globals (grammar_view leveled.now)) ≡ [] }
    ensures { Refuses result (repeated_faults [] (globals (grammar_view leveled.now))) }
{
    if are_new(alloc, names, made)? {
        return Ok(());
    }
    check_globals(alloc, leveled)?;
    Ok(())
}

/// Looks for a macro with two levels or more.
fn check_macros(alloc: Global, items: &[GrammarItem]) -> NormResult<()>
    ensures { Refuses result (flat_map macro_item_faults (map item_view items.now)) }
{
    for item in items {
        check_item(alloc, item)?;
    }
    Ok(())
}

#[tactic(auto, unfolding(crate::specs::MacroLevels::macro_item_faults))]
fn check_item(alloc: Global, item: &GrammarItem) -> NormResult<()>
    ensures { Refuses result (macro_item_faults (item_view item.now)) }
{
    match item {
        GrammarItem::Nonterminal(rule) => check_macro(alloc, rule),
        GrammarItem::MatchToken(_)
        | GrammarItem::ExternToken(_)
        | GrammarItem::InternToken(_)
        | GrammarItem::Use(_) => Ok(()),
    }
}

#[tactic(auto, using(crate::proofs::ItemLemmas::several_in_macro))]
fn check_macro(alloc: Global, rule: &NonterminalData) -> NormResult<()>
    ensures { Refuses result (macro_level_faults (rule_view rule.now)) }
{
    if !rule.is_macro_def() {
        return Ok(());
    }
    let several = has_several_levels(alloc, rule)?;
    check_several(alloc, rule, several)
}
