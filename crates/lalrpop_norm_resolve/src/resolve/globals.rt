//! Global names.
ghost use Rattle.std.specs.Prelude.{◌≡◌, [], ◌∷◌, OnOk, flat_map, map};
ghost use Rattle.lalrpop_norm_tree.specs.Items.{conversion_view, item_view, match_contents_view};
ghost use Rattle.lalrpop_norm_faults.specs.Faults.{IsFirst, Refuses, RefusesOr};
ghost use Rattle.lalrpop_norm_model.specs.Scopes.{rule_definition, bare_global, match_global};
ghost use Rattle.lalrpop_norm_model.specs.Scopes.{rule_globals, conversion_globals, match_globals};
ghost use Rattle.lalrpop_norm_resolve.specs.NameFaults.{repeated_faults};
ghost use Rattle.lalrpop_norm_resolve.specs.NameTables.{rows_of, def_of, with_def, with_all, all_rows, row_faults};
ghost use Rattle.lalrpop_norm_resolve.specs.NameTables.{rows_faults, items_globals, conversion_global};

use super::seed::seeded_by;
use super::{Def, GlobalTable};
use lalrpop_norm_faults::{FaultKind, NormFailure, NormResult, refusal};
use lalrpop_norm_tree::grammar::parse_tree::{
    Atom, Conversion, GrammarItem, MatchContents, MatchItem, MatchMapping, Span, TerminalString,
};
use std::alloc::Global;
use std::collections::HashMap;

/// The global names of a grammar.
pub(crate) fn globals_of(alloc: Global, items: &[GrammarItem]) -> NormResult<GlobalTable>
    ensures { RefusesOr result (repeated_faults [] (items_globals (map item_view items.now)))
        (λ m. rows_of m ≡ all_rows [] (items_globals (map item_view items.now))) }
{
    let mut globals = HashMap::with_capacity_and_hasher(alloc, items.len(), seeded_by(items))?;
    declare_items(alloc, &mut globals, items)?;
    Ok(globals)
}

#[tactic(auto, using(crate::proofs::TableLemmas::faults_more, crate::proofs::TableLemmas::rows_more))]
fn declare_items(alloc: Global, globals: &mut GlobalTable, items: &[GrammarItem]) -> NormResult<()>
    ensures refuses { Refuses result (rows_faults (rows_of globals.old) (items_globals (map item_view items.now))) }
    ensures declares { OnOk result (rows_of globals.new ≡ with_all (rows_of globals.old) (items_globals (map item_view items.now))) }
{
    declare_rules(alloc, globals, items)?;
    declare_externs(alloc, globals, items)?;
    declare_matches(alloc, globals, items)
}

/// Whether a name ends with a digit, as that of a level does.
fn ends_with_digit(name: &Atom) -> bool {
    match name.as_str().as_bytes().last() {
        Some(byte) => byte.is_ascii_digit(),
        None => false,
    }
}

/// Whether a definition of that name may be a level of a rule.
fn may_be_level(name: &Atom, def: Def) -> bool {
    match def {
        Def::Rule | Def::Macro(_) => ends_with_digit(name),
        Def::Terminal | Def::MacroArg => false,
    }
}

fn declared_twice(alloc: Global, span: Span, name: &Atom, earlier: Def, def: Def) -> NormFailure
    ensures { IsFirst ((FaultKind.NameDeclaredTwice, span) ∷ []) result }
{
    let has_level = may_be_level(name, earlier);
    let earlier = earlier.description();
    let what = def.description();
    if has_level {
        return refusal(
            FaultKind::NameDeclaredTwice,
            span,
            format!(in alloc;
                "`{name}` is the name of a {earlier} already, and this {what} has it too: rename one of them (where a rule `E` has levels, `E1` is the name of its level 1)"
            ),
        );
    }
    refusal(
        FaultKind::NameDeclaredTwice,
        span,
        format!(in alloc;
            "`{name}` is the name of a {earlier} already, and this {what} has it too: rename one of them"
        ),
    )
}

#[tactic(auto, unfolding(crate::specs::NameTables::row_faults, crate::specs::NameTables::rows_of))]
fn declare(
    alloc: Global,
    globals: &mut GlobalTable,
    span: Span,
    name: &Atom,
    def: Def,
) -> NormResult<()>
    ensures refuses { Refuses result (row_faults (rows_of globals.old) name.now span) }
    ensures declares { OnOk result (rows_of globals.new ≡ with_def (rows_of globals.old) name.now def) }
{
    match globals.insert(name.again(), def)? {
        Some(earlier) => Err(declared_twice(alloc, span, name, earlier, def)),
        None => Ok(()),
    }
}

/// A rule with that many arguments.
#[tactic(auto, using(crate::proofs::NameLemmas::macro_def))]
fn rule_def(arity: usize) -> Def
    ensures { result ≡ def_of (rule_definition arity) }
{
    if arity == 0 {
        Def::Rule
    } else {
        Def::Macro(arity)
    }
}

fn declare_rule(alloc: Global, globals: &mut GlobalTable, item: &GrammarItem) -> NormResult<()>
    ensures refuses { Refuses result (rows_faults (rows_of globals.old) (rule_globals (item_view item.now))) }
    ensures declares { OnOk result (rows_of globals.new ≡ with_all (rows_of globals.old) (rule_globals (item_view item.now))) }
{
    match item {
        GrammarItem::Nonterminal(rule) => {
            declare(
                alloc,
                globals,
                rule.span,
                &rule.name.0,
                rule_def(rule.args.len()),
            )?;
            Ok(())
        }
        GrammarItem::MatchToken(_)
        | GrammarItem::ExternToken(_)
        | GrammarItem::InternToken(_)
        | GrammarItem::Use(_) => Ok(()),
    }
}

fn declare_rules(alloc: Global, globals: &mut GlobalTable, items: &[GrammarItem]) -> NormResult<()>
    ensures refuses { Refuses result (rows_faults (rows_of globals.old) (flat_map rule_globals (map item_view items.now))) }
    ensures declares { OnOk result (rows_of globals.new
        ≡ with_all (rows_of globals.old) (flat_map rule_globals (map item_view items.now))) }
{
    for item in items {
        declare_rule(alloc, globals, item)?;
    }
    Ok(())
}

/// The name of a bare terminal.
fn declare_terminal(
    alloc: Global,
    globals: &mut GlobalTable,
    terminal: &TerminalString,
    span: Span,
) -> NormResult<()>
    ensures refuses { Refuses result (rows_faults (rows_of globals.old) (bare_global terminal.now span)) }
    ensures declares { OnOk result (rows_of globals.new ≡ with_all (rows_of globals.old) (bare_global terminal.now span)) }
{
    match terminal {
        TerminalString::Bare(name) => {
            declare(alloc, globals, span, name, Def::Terminal)?;
            Ok(())
        }
        TerminalString::Literal(_) | TerminalString::Error => Ok(()),
    }
}

fn declare_conversions(
    alloc: Global,
    globals: &mut GlobalTable,
    conversions: &[Conversion],
) -> NormResult<()>
    ensures refuses { Refuses result
        (rows_faults (rows_of globals.old) (flat_map conversion_global (map conversion_view conversions.now))) }
    ensures declares { OnOk result (rows_of globals.new
        ≡ with_all (rows_of globals.old) (flat_map conversion_global (map conversion_view conversions.now))) }
{
    for conversion in conversions {
        declare_terminal(alloc, globals, &conversion.from, conversion.span)?;
    }
    Ok(())
}

fn declare_extern(alloc: Global, globals: &mut GlobalTable, item: &GrammarItem) -> NormResult<()>
    ensures refuses { Refuses result (rows_faults (rows_of globals.old) (conversion_globals (item_view item.now))) }
    ensures declares { OnOk result (rows_of globals.new ≡ with_all (rows_of globals.old) (conversion_globals (item_view item.now))) }
{
    match item {
        GrammarItem::ExternToken(token) => match &token.enum_token {
            Some(tokens) => declare_conversions(alloc, globals, &tokens.conversions),
            None => Ok(()),
        },
        GrammarItem::MatchToken(_)
        | GrammarItem::Nonterminal(_)
        | GrammarItem::InternToken(_)
        | GrammarItem::Use(_) => Ok(()),
    }
}

fn declare_externs(
    alloc: Global,
    globals: &mut GlobalTable,
    items: &[GrammarItem],
) -> NormResult<()>
    ensures refuses { Refuses result (rows_faults (rows_of globals.old) (flat_map conversion_globals (map item_view items.now))) }
    ensures declares { OnOk result (rows_of globals.new
        ≡ with_all (rows_of globals.old) (flat_map conversion_globals (map item_view items.now))) }
{
    for item in items {
        declare_extern(alloc, globals, item)?;
    }
    Ok(())
}

fn declare_mapping(alloc: Global, globals: &mut GlobalTable, item: &MatchItem) -> NormResult<()>
    ensures refuses { Refuses result (rows_faults (rows_of globals.old) (match_global item.now)) }
    ensures declares { OnOk result (rows_of globals.new ≡ with_all (rows_of globals.old) (match_global item.now)) }
{
    match item {
        MatchItem::Mapped(_, MatchMapping::Terminal(terminal), span) => {
            declare_terminal(alloc, globals, terminal, *span)
        }
        MatchItem::Mapped(_, MatchMapping::Skip, _)
        | MatchItem::Unmapped(_, _)
        | MatchItem::CatchAll(_) => Ok(()),
    }
}

fn declare_mappings(alloc: Global, globals: &mut GlobalTable, items: &[MatchItem]) -> NormResult<()>
    ensures refuses { Refuses result (rows_faults (rows_of globals.old) (flat_map match_global items.now)) }
    ensures declares { OnOk result (rows_of globals.new ≡ with_all (rows_of globals.old) (flat_map match_global items.now)) }
{
    for item in items {
        declare_mapping(alloc, globals, item)?;
    }
    Ok(())
}

fn declare_groups(
    alloc: Global,
    globals: &mut GlobalTable,
    groups: &[MatchContents],
) -> NormResult<()>
    ensures refuses { Refuses result
        (rows_faults (rows_of globals.old) (flat_map (flat_map match_global) (map match_contents_view groups.now))) }
    ensures declares { OnOk result (rows_of globals.new
        ≡ with_all (rows_of globals.old) (flat_map (flat_map match_global) (map match_contents_view groups.now))) }
{
    for group in groups {
        declare_mappings(alloc, globals, &group.items)?;
    }
    Ok(())
}

fn declare_match(alloc: Global, globals: &mut GlobalTable, item: &GrammarItem) -> NormResult<()>
    ensures refuses { Refuses result (rows_faults (rows_of globals.old) (match_globals (item_view item.now))) }
    ensures declares { OnOk result (rows_of globals.new ≡ with_all (rows_of globals.old) (match_globals (item_view item.now))) }
{
    match item {
        GrammarItem::MatchToken(token) => declare_groups(alloc, globals, &token.contents),
        GrammarItem::ExternToken(_)
        | GrammarItem::Nonterminal(_)
        | GrammarItem::InternToken(_)
        | GrammarItem::Use(_) => Ok(()),
    }
}

fn declare_matches(
    alloc: Global,
    globals: &mut GlobalTable,
    items: &[GrammarItem],
) -> NormResult<()>
    ensures refuses { Refuses result (rows_faults (rows_of globals.old) (flat_map match_globals (map item_view items.now))) }
    ensures declares { OnOk result (rows_of globals.new
        ≡ with_all (rows_of globals.old) (flat_map match_globals (map item_view items.now))) }
{
    for item in items {
        declare_match(alloc, globals, item)?;
    }
    Ok(())
}
