//! Names in symbols.
ghost use Rattle.std.specs.Prelude.{◌≡◌, [], ◌∷◌, OnOk};
ghost use Rattle.lalrpop_norm_tree.specs.Symbols.{kind_view, symbol_view, repeat_view, parts_view};
ghost use Rattle.lalrpop_norm_faults.specs.Faults.{IsFirst, Refuses, RefusesOr};
ghost use Rattle.lalrpop_norm_model.specs.Scopes.{by_sense, resolved_kind, resolved_part, resolved_parts};
ghost use Rattle.lalrpop_norm_resolve.specs.NameFaults.{id_faults, nonterminal_faults, macro_name_faults, parts_count};
ghost use Rattle.lalrpop_norm_resolve.specs.NameFaults.{kind_name_faults, part_name_faults, parts_name_faults};
ghost use Rattle.lalrpop_norm_resolve.specs.NameTables.{rows_of, sense_seen, sense_in};

use super::{Def, GlobalTable};
use lalrpop_norm_faults::{FaultKind, NormFailure, NormResult, refusal};
use lalrpop_norm_tree::grammar::parse_tree::{
    Atom, NonterminalString, RepeatSymbol, Span, Symbol, SymbolKind, TerminalString,
};
use std::alloc::Global;
use std::collections::BTreeSet;

#[tactic(auto, unfolding(crate::specs::NameTables::rows_of))]
pub(crate) fn global(globals: &GlobalTable, name: &Atom) -> Option<Def>
    ensures { result ≡ rows_of globals.now name.now }
{
    globals.get(name).copied()
}

/// What the name means in a rule with these arguments.
#[tactic(auto, unfolding(crate::specs::NameTables::sense_in))]
pub(crate) fn def(globals: &GlobalTable, args: &BTreeSet<Atom>, name: &Atom) -> Option<Def>
    ensures { sense_seen result ≡ sense_in globals.now args.now name.now }
{
    if args.contains(name) {
        return Some(Def::MacroArg);
    }
    global(globals, name)
}

/// The error of a name that has no definition.
pub(crate) fn unknown(alloc: Global, span: Span, name: &Atom) -> NormFailure
    ensures { IsFirst ((FaultKind.NoDefinition, span) ∷ []) result }
{
    refusal(
        FaultKind::NoDefinition,
        span,
        format!(in alloc;
            "`{name}` is not declared: add a rule or a terminal of this name, or correct the name"
        ),
    )
}

/// So many arguments of a macro, as a message shows a call.
fn arguments(arity: usize) -> &'static str {
    match arity {
        1 => "T",
        2 => "T1, T2",
        3 => "T1, T2, T3",
        _ => "..",
    }
}

/// The noun for so many arguments, in a message.
fn noun(arity: usize) -> &'static str {
    if arity == 1 { "argument" } else { "arguments" }
}

fn macro_named(alloc: Global, span: Span, name: &Atom, arity: usize) -> NormFailure
    ensures { IsFirst ((FaultKind.MacroNamed, span) ∷ []) result }
{
    let arguments = arguments(arity);
    let noun = noun(arity);
    refusal(
        FaultKind::MacroNamed,
        span,
        format!(in alloc;
            "`{name}` is a macro: call it with its arguments, as `{name}<{arguments}>` (it takes {arity} {noun})"
        ),
    )
}

/// What an identifier stands for.
#[tactic(auto, unfolding(crate::specs::NameFaults::id_faults))]
fn named(alloc: Global, span: Span, name: Atom, def: Option<Def>) -> NormResult<SymbolKind>
    ensures { RefusesOr result (id_faults span (sense_seen def)) (λ k. kind_view k ≡ by_sense (sense_seen def) name) }
{
    match def {
        Some(Def::MacroArg) | Some(Def::Rule) => Ok(SymbolKind::Nonterminal(NonterminalString(
            name,
        ))),
        Some(Def::Terminal) => Ok(SymbolKind::Terminal(TerminalString::Bare(name))),
        Some(Def::Macro(arity)) => Err(macro_named(alloc, span, &name, arity)),
        None => Err(unknown(alloc, span, &name)),
    }
}

fn terminal_named(alloc: Global, span: Span, name: &Atom) -> NormFailure
    ensures { IsFirst ((FaultKind.NotNonterminal, span) ∷ []) result }
{
    refusal(
        FaultKind::NotNonterminal,
        span,
        format!(in alloc; "`{name}` is a terminal, and a nonterminal is wanted here: name a rule"),
    )
}

fn bare_macro(alloc: Global, span: Span, name: &Atom, arity: usize) -> NormFailure
    ensures { IsFirst ((FaultKind.NotNonterminal, span) ∷ []) result }
{
    let arguments = arguments(arity);
    let noun = noun(arity);
    refusal(
        FaultKind::NotNonterminal,
        span,
        format!(in alloc;
            "`{name}` is a macro, and a nonterminal is wanted here: call it with its arguments, as `{name}<{arguments}>` (it takes {arity} {noun})"
        ),
    )
}

#[tactic(auto, unfolding(crate::specs::NameFaults::nonterminal_faults))]
fn check_nonterminal(alloc: Global, span: Span, name: &Atom, def: Option<Def>) -> NormResult<()>
    ensures { Refuses result (nonterminal_faults span (sense_seen def)) }
{
    match def {
        Some(Def::MacroArg) | Some(Def::Rule) => Ok(()),
        Some(Def::Terminal) => Err(terminal_named(alloc, span, name)),
        Some(Def::Macro(arity)) => Err(bare_macro(alloc, span, name, arity)),
        None => Err(unknown(alloc, span, name)),
    }
}

fn wrong_arity(alloc: Global, span: Span, name: &Atom, given: usize, arity: usize) -> NormFailure
    ensures { IsFirst ((FaultKind.Arity, span) ∷ []) result }
{
    refusal(
        FaultKind::Arity,
        span,
        format!(in alloc;
            "wrong number of arguments for the macro `{name}`: {given} given, {arity} wanted"
        ),
    )
}

fn not_macro(alloc: Global, span: Span, name: &Atom, def: Def) -> NormFailure
    ensures { IsFirst ((FaultKind.NotMacro, span) ∷ []) result }
{
    let what = def.description();
    refusal(
        FaultKind::NotMacro,
        span,
        format!(in alloc; "`{name}` is a {what}, not a macro: write it without arguments"),
    )
}

#[tactic(auto, unfolding(crate::specs::NameFaults::macro_name_faults))]
fn check_macro(
    alloc: Global,
    span: Span,
    name: &Atom,
    given: usize,
    def: Option<Def>,
) -> NormResult<()>
    ensures { Refuses result (macro_name_faults span given (sense_seen def)) }
{
    match def {
        Some(Def::Macro(arity)) => {
            if arity != given {
                return Err(wrong_arity(alloc, span, name, given, arity));
            }
            Ok(())
        }
        Some(other) => Err(not_macro(alloc, span, name, other)),
        None => Err(unknown(alloc, span, name)),
    }
}

/// What an identifier stands for in a rule with these arguments.
fn identified(
    alloc: Global,
    globals: &GlobalTable,
    args: &BTreeSet<Atom>,
    span: Span,
    id: &Atom,
) -> NormResult<SymbolKind>
    ensures { RefusesOr result (id_faults span (sense_in globals.now args.now id.now))
        (λ k. kind_view k ≡ by_sense (sense_in globals.now args.now id.now) id.now) }
{
    let name = id.again();
    let meant = def(globals, args, &name);
    named(alloc, span, name, meant)
}

#[tactic(auto, using(crate::proofs::NameLemmas::count_length))]
fn check_call(
    alloc: Global,
    globals: &GlobalTable,
    args: &BTreeSet<Atom>,
    span: Span,
    name: &Atom,
    inner: &[Symbol],
) -> NormResult<()>
    ensures { Refuses result (macro_name_faults span (parts_count (parts_view inner.now)) (sense_in globals.now args.now name.now)) }
{
    check_macro(alloc, span, name, inner.len(), def(globals, args, name))
}

#[cycle(resolve)]
pub(crate) fn resolve_each(
    alloc: Global,
    globals: &GlobalTable,
    args: &BTreeSet<Atom>,
    symbols: &mut [Symbol],
) -> NormResult<()>
    ensures refuses { Refuses result (parts_name_faults (sense_in globals.now args.now) (parts_view symbols.old)) }
    ensures resolves { OnOk result (parts_view symbols.new ≡ resolved_parts (sense_in globals.now args.now) (parts_view symbols.old)) }
{
    for symbol in symbols.iter_mut() {
        resolve_symbol(alloc, globals, args, symbol)?;
    }
    Ok(())
}

#[cycle(resolve)]
fn resolve_symbol(
    alloc: Global,
    globals: &GlobalTable,
    args: &BTreeSet<Atom>,
    symbol: &mut Symbol,
) -> NormResult<()>
    ensures refuses { Refuses result (part_name_faults (sense_in globals.now args.now) (symbol_view symbol.old)) }
    ensures resolves { OnOk result (symbol_view symbol.new ≡ resolved_part (sense_in globals.now args.now) (symbol_view symbol.old)) }
{
    resolve_kind(alloc, globals, args, symbol.span, &mut symbol.kind)
}

#[cycle(resolve)]
fn resolve_kind(
    alloc: Global,
    globals: &GlobalTable,
    args: &BTreeSet<Atom>,
    span: Span,
    kind: &mut SymbolKind,
) -> NormResult<()>
    ensures refuses { Refuses result (kind_name_faults (sense_in globals.now args.now) span (kind_view kind.old)) }
    ensures resolves { OnOk result (kind_view kind.new ≡ resolved_kind (sense_in globals.now args.now) (kind_view kind.old)) }
{
    match kind {
        SymbolKind::Expr(expr) => resolve_each(alloc, globals, args, &mut expr.symbols),
        SymbolKind::AmbiguousId(id) => {
            *kind = identified(alloc, globals, args, span, id)?;
            Ok(())
        }
        SymbolKind::Nonterminal(name) => {
            check_nonterminal(alloc, span, &name.0, def(globals, args, &name.0))
        }
        SymbolKind::Macro(call) => {
            check_call(alloc, globals, args, span, &call.name.0, &call.args)?;
            resolve_each(alloc, globals, args, &mut call.args)
        }
        SymbolKind::Repeat(repeat) => resolve_repeat(alloc, globals, args, repeat),
        SymbolKind::Choose(symbol) => resolve_boxed(alloc, globals, args, symbol),
        SymbolKind::Name(_, symbol) => resolve_boxed(alloc, globals, args, symbol),
        SymbolKind::Tuple(_, symbol) => resolve_boxed(alloc, globals, args, symbol),
        SymbolKind::Terminal(_)
        | SymbolKind::Lookahead
        | SymbolKind::Lookbehind
        | SymbolKind::Error => Ok(()),
    }
}

#[cycle(resolve)]
fn resolve_boxed(
    alloc: Global,
    globals: &GlobalTable,
    args: &BTreeSet<Atom>,
    symbol: &mut Box<Symbol>,
) -> NormResult<()>
    ensures refuses { Refuses result (part_name_faults (sense_in globals.now args.now) (symbol_view symbol.old.value)) }
    ensures resolves { OnOk result (symbol_view symbol.new.value
        ≡ resolved_part (sense_in globals.now args.now) (symbol_view symbol.old.value)) }
{
    resolve_symbol(alloc, globals, args, symbol)
}

#[cycle(resolve)]
fn resolve_repeat(
    alloc: Global,
    globals: &GlobalTable,
    args: &BTreeSet<Atom>,
    repeat: &mut Box<RepeatSymbol>,
) -> NormResult<()>
    ensures refuses { Refuses result (part_name_faults (sense_in globals.now args.now) (repeat_view repeat.old.value).1) }
    ensures resolves { OnOk result (repeat_view repeat.new.value
        ≡ ((repeat_view repeat.old.value).0, resolved_part (sense_in globals.now args.now) (repeat_view repeat.old.value).1)) }
{
    resolve_symbol(alloc, globals, args, &mut repeat.symbol)
}
