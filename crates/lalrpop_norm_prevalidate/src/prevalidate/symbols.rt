//! Symbols.
ghost use Rattle.std.specs.Prelude.{◌≡◌, Some, IfOk, map, option_map};
ghost use Rattle.lalrpop_norm_faults.specs.Faults.{Refuses, fault_if};
ghost use Rattle.lalrpop_norm_prevalidate.specs.SymbolFaults.{call_faults, terminal_faults, kind_faults, part_faults, parts_faults};
ghost use Rattle.lalrpop_norm_prevalidate.specs.SymbolFaults.{list_faults, beside_faults, name_of, is_that_name, first_chosen, has_named};
ghost use Rattle.lalrpop_norm_prevalidate.specs.SymbolFaults.{named_at, placed, again, lesser_name, least_twice};
ghost use Rattle.lalrpop_norm_prevalidate.specs.SymbolFaults.{symbol_names, first_repeated, second_at};
ghost use Rattle.lalrpop_norm_tree.specs.Symbols.{kind_view, symbol_view, parts_view};

use super::Surroundings;
use lalrpop_norm_common::norm_util::is_chosen_kind;
use lalrpop_norm_faults::{FaultKind, NormResult, refusal};
use lalrpop_norm_tree::grammar::parse_tree::{
    Atom, Binding, NoMemory, Span, Symbol, SymbolKind, TerminalString,
};
use std::alloc::Global;

/// How long a list of symbols may be whose names are compared with one another.
const FEW: usize = 8;

#[cycle(symbols)]
pub(super) fn validate_list(
    alloc: Global,
    around: Surroundings,
    symbols: &[Symbol],
) -> NormResult<()>
    ensures { Refuses result (list_faults around (parts_view symbols.now)) }
{
    validate_each(alloc, around, symbols)?;
    validate_beside(alloc, symbols)
}

#[cycle(symbols)]
fn validate_each(alloc: Global, around: Surroundings, symbols: &[Symbol]) -> NormResult<()>
    ensures { Refuses result (parts_faults around (parts_view symbols.now)) }
{
    for symbol in symbols {
        validate_symbol(alloc, around, symbol)?;
    }
    Ok(())
}

#[cycle(symbols)]
fn validate_symbol(alloc: Global, around: Surroundings, symbol: &Symbol) -> NormResult<()>
    ensures { Refuses result (part_faults around (symbol_view symbol.now)) }
{
    validate_kind(alloc, around, symbol.span, &symbol.kind)
}

#[cycle(symbols)]
fn validate_kind(
    alloc: Global,
    around: Surroundings,
    span: Span,
    kind: &SymbolKind,
) -> NormResult<()>
    ensures { Refuses result (kind_faults around span (kind_view kind.now)) }
{
    match kind {
        SymbolKind::Expr(expr) => validate_list(alloc, around, &expr.symbols),
        SymbolKind::AmbiguousId(_) | SymbolKind::Nonterminal(_) => Ok(()),
        SymbolKind::Terminal(terminal) => validate_terminal(alloc, span, terminal),
        SymbolKind::Error => validate_error(alloc, around.has_ascent, span),
        SymbolKind::Macro(call) => {
            validate_call(alloc, span, &call.args)?;
            validate_each(alloc, around, &call.args)
        }
        SymbolKind::Repeat(repeat) => validate_symbol(alloc, around, &repeat.symbol),
        SymbolKind::Choose(symbol) => validate_symbol(alloc, around, symbol),
        SymbolKind::Name(_, symbol) => validate_symbol(alloc, around, symbol),
        SymbolKind::Tuple(_, symbol) => validate_symbol(alloc, around, symbol),
        SymbolKind::Lookahead | SymbolKind::Lookbehind => {
            validate_location(alloc, around.lacks_location, span)
        }
    }
}

/// If a terminal is written, it is not the error terminal.
#[tactic(auto, unfolding(crate::specs::SymbolFaults::terminal_faults))]
pub(super) fn validate_terminal(
    alloc: Global,
    span: Span,
    terminal: &TerminalString,
) -> NormResult<()>
    ensures { Refuses result (terminal_faults span terminal.now) }
{
    match terminal {
        TerminalString::Literal(_) | TerminalString::Bare(_) => Ok(()),
        TerminalString::Error => Err(refusal(
            FaultKind::WrittenErrorTerminal,
            span,
            format!(in alloc;
                "the error terminal can't be written: use `!` where a parser may recover"
            ),
        )),
    }
}

fn validate_error(alloc: Global, has_ascent: bool, span: Span) -> NormResult<()>
    ensures { Refuses result (fault_if has_ascent (FaultKind.ErrorWithAscent, span)) }
{
    if has_ascent {
        return Err(refusal(
            FaultKind::ErrorWithAscent,
            span,
            format!(in alloc;
                "a parser by recursive ascent can't recover from errors: leave out `!`, or the attribute"
            ),
        ));
    }
    Ok(())
}

fn validate_location(alloc: Global, lacks_location: bool, span: Span) -> NormResult<()>
    ensures { Refuses result (fault_if lacks_location (FaultKind.NoLocation, span)) }
{
    if lacks_location {
        return Err(refusal(
            FaultKind::NoLocation,
            span,
            format!(in alloc;
                "`@L` and `@R` need the type of a location: add `type Location = ..` to the extern block"
            ),
        ));
    }
    Ok(())
}

/// The faults of a list of symbols beside those of the symbols.
fn validate_beside(alloc: Global, symbols: &[Symbol]) -> NormResult<()>
    ensures { Refuses result (beside_faults (parts_view symbols.now)) }
{
    if let Some(span) = first_chosen(symbols) {
        if has_named(symbols) {
            return Err(refusal(
                FaultKind::ChosenWithNamed,
                span,
                format!(in alloc;
                    "a selected symbol (`<X>`) without a name can't stand beside named ones: name it too, or take its `<` and `>` away"
                ),
            ));
        }
    }
    if let Some((name, span)) = least_twice(alloc, symbols)? {
        return Err(refusal(
            FaultKind::NameTwice,
            span,
            format!(in alloc;
                "there is a symbol named `{name}` before this one: give this one another name"
            ),
        ));
    }
    Ok(())
}

fn name_of(kind: &SymbolKind) -> Option<&Atom>
    ensures { option_map (λ a. a.now) result ≡ name_of (kind_view kind.now) }
{
    match kind.as_bound() {
        Some((Binding::Name(name), _)) => Some(&name.name),
        Some((Binding::Tuple(_), _)) | None => None,
    }
}

fn first_chosen(symbols: &[Symbol]) -> Option<Span>
    ensures { result ≡ first_chosen (parts_view symbols.now) }
{
    for symbol in symbols {
        if is_chosen_kind(&symbol.kind) {
            return Some(symbol.span);
        }
    }
    None
}

fn has_named(symbols: &[Symbol]) -> bool
    ensures { result ≡ has_named (parts_view symbols.now) }
{
    for symbol in symbols {
        if name_of(&symbol.kind).is_some() {
            return true;
        }
    }
    false
}

fn is_name(name: &Atom, found: Option<&Atom>) -> bool
    ensures { result ≡ is_that_name name.now (option_map (λ a. a.now) found.entry) }
{
    match found {
        Some(other) => name == other,
        None => false,
    }
}

/// The span of the first symbol of that name.
fn named_at(name: &Atom, symbols: &[Symbol]) -> Option<Span>
    ensures { result ≡ named_at name.now (parts_view symbols.now) }
{
    for symbol in symbols {
        if is_name(name, name_of(&symbol.kind)) {
            return Some(symbol.span);
        }
    }
    None
}

/// The name with the span of the second symbol of it, if there is one.
fn again<'a>(name: Option<&'a Atom>, rest: &[Symbol]) -> Option<(&'a Atom, Span)>
    ensures { option_map (λ r. (r.0.now, r.1)) result ≡ again (option_map (λ a. a.now) name.entry) (parts_view rest.now) }
{
    match name {
        Some(name) => match named_at(name, rest) {
            Some(span) => Some((name, span)),
            None => None,
        },
        None => None,
    }
}

fn lesser<'a>(
    earlier: Option<(&'a Atom, Span)>,
    later: Option<(&'a Atom, Span)>,
) -> Option<(&'a Atom, Span)>
    ensures { option_map (λ r. (r.0.now, r.1)) result
        ≡ lesser_name (option_map (λ r. (r.0.now, r.1)) earlier.entry) (option_map (λ r. (r.0.now, r.1)) later.entry) }
{
    match (earlier, later) {
        (None, found) => found,
        (Some(first), None) => Some(first),
        (Some(first), Some(second)) => Some(if second.0 < first.0 { second } else { first }),
    }
}

/// The least name that two symbols of a short list have, with the span of the second of them.
///
/// Each name is compared with those behind it, in quadratic time and without allocation.
fn least_of_few(symbols: &[Symbol]) -> Option<(&Atom, Span)>
    ensures { option_map (λ r. (r.0.now, r.1)) result ≡ least_twice (parts_view symbols.now) }
{
    let mut least = None;
    for i in (0..symbols.len()).rev() {
        let found = again(name_of(&symbols[i].kind), &symbols[i + 1..]);
        least = lesser(found, least);
    }
    least
}

/// The names that symbols have, in the order of the symbols.
fn symbol_names(alloc: Global, symbols: &[Symbol]) -> Result<Vec<&Atom>, NoMemory>
    ensures { IfOk result (λ names. map (λ a. a.now) names.items ≡ symbol_names (parts_view symbols.now)) }
{
    let mut names = Vec::with_capacity(alloc, symbols.len())?;
    for symbol in symbols {
        if let Some(name) = name_of(&symbol.kind) {
            names.push(name)?;
        }
    }
    Ok(names)
}

/// The first name that the next one equals.
fn first_repeated<'a>(names: &[&'a Atom]) -> Option<&'a Atom>
    ensures { option_map (λ a. a.now) result ≡ first_repeated (map (λ a. a.now) names.now) }
{
    for later in 1..names.len() {
        if names[later - 1] == names[later] {
            return Some(names[later]);
        }
    }
    None
}

/// The name with the span of the second symbol of it, if two symbols have it.
fn second_named<'a>(name: &'a Atom, symbols: &[Symbol]) -> Option<(&'a Atom, Span)>
    ensures { option_map (λ r. (r.0.now, r.1)) result ≡ placed (λ n. second_at n (parts_view symbols.now)) (Some name.now) }
{
    for i in 0..symbols.len() {
        if is_name(name, name_of(&symbols[i].kind)) {
            return again(Some(name), &symbols[i + 1..]);
        }
    }
    None
}

/// The least name that two symbols of a long list have, with the span of the second of them.
///
/// Where the names are sorted, those that are equal stand side by side, and the least of them come first.
fn least_of_many(alloc: Global, symbols: &[Symbol]) -> Result<Option<(&Atom, Span)>, NoMemory>
    ensures { IfOk result (λ r. option_map (λ r. (r.0.now, r.1)) r ≡ least_twice (parts_view symbols.now)) }
{
    let mut names = symbol_names(alloc, symbols)?;
    names.sort()?;
    match first_repeated(&names) {
        Some(name) => Ok(second_named(name, symbols)),
        None => Ok(None),
    }
}

/// The least name that two symbols have, with the span of the second of them.
fn least_twice(alloc: Global, symbols: &[Symbol]) -> Result<Option<(&Atom, Span)>, NoMemory>
    ensures { IfOk result (λ r. option_map (λ r. (r.0.now, r.1)) r ≡ least_twice (parts_view symbols.now)) }
{
    if symbols.len() > FEW {
        least_of_many(alloc, symbols)
    } else {
        Ok(least_of_few(symbols))
    }
}

#[tactic(auto, unfolding(crate::specs::SymbolFaults::call_faults), using(crate::proofs::CallLemmas::no_call_faults))]
fn validate_call(alloc: Global, span: Span, args: &[Symbol]) -> NormResult<()>
    ensures { Refuses result (call_faults span (parts_view args.now)) }
{
    if args.is_empty() {
        return Err(refusal(
            FaultKind::MacroWithoutArguments,
            span,
            format!(in alloc;
                "a macro is called with at least one argument: name one, or leave out the brackets"
            ),
        ));
    }
    Ok(())
}
