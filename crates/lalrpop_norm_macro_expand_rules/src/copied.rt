//! Symbols of a macro's alternatives, copied with no argument in them. An identifier is a name from there on.
ghost use Rattle.std.specs.Prelude.{◌≡◌, None, IfOk};
ghost use Rattle.lalrpop_norm_tree.specs.Symbols.{group, call, repeated, named, tupled, kind_view, symbol_view, tuple_view, parts_view};
ghost use Rattle.lalrpop_norm_tree.specs.Symbols.{expr_view, macro_view};
ghost use Rattle.lalrpop_norm_model.specs.MadeRules.{substituted, kind_substituted, all_substituted};

use crate::rules::repeat_of;
use lalrpop_norm_tree::grammar::parse_tree::{
    ExprSymbol, MacroSymbol, Name, NoMemory, NonterminalString, RepeatSymbol, Symbol, SymbolKind,
    Tuple,
};
use std::alloc::Global;

/// `<x:X>`.
#[inline(never)]
fn named(name: &Name, symbol: Box<Symbol>) -> Result<SymbolKind, NoMemory>
    ensures { IfOk result (λ k. kind_view k ≡ named name.now (symbol_view symbol.value)) }
{
    Ok(SymbolKind::Name(name.clone()?, symbol))
}

/// `<(x, y):X>`.
#[inline(never)]
fn tupled(tuple: &Tuple, symbol: Box<Symbol>) -> Result<SymbolKind, NoMemory>
    ensures { IfOk result (λ k. kind_view k ≡ tupled (tuple_view tuple.now) (symbol_view symbol.value)) }
{
    Ok(SymbolKind::Tuple(tuple.clone()?, symbol))
}

// The recursion is as deep as wrapped symbols are nested; what the frames need is kept in functions that are not inlined.

/// The symbol, its identifiers as names.
#[cycle(copied)]
fn copied(alloc: Global, symbol: &Symbol) -> Result<Symbol, NoMemory>
    ensures { IfOk result (λ s. symbol_view s ≡ substituted (λ n. None) (symbol_view symbol.now)) }
{
    let kind = copied_kind(alloc, &symbol.kind)?;
    Ok(Symbol::new(symbol.span, kind))
}

#[cycle(copied)]
fn copied_kind(alloc: Global, kind: &SymbolKind) -> Result<SymbolKind, NoMemory>
    ensures { IfOk result (λ k. kind_view k ≡ kind_substituted (λ n. None) (kind_view kind.now)) }
{
    match kind {
        SymbolKind::Nonterminal(name) => Ok(SymbolKind::Nonterminal(name.clone()?)),
        SymbolKind::AmbiguousId(id) => Ok(SymbolKind::Nonterminal(NonterminalString(id.clone()?))),
        SymbolKind::Expr(expr) => copied_group(alloc, expr),
        SymbolKind::Macro(call) => copied_call(alloc, call),
        SymbolKind::Repeat(repeat) => copied_repeat(alloc, repeat),
        SymbolKind::Choose(inner) => Ok(SymbolKind::Choose(copied_box(alloc, inner)?)),
        SymbolKind::Name(name, inner) => named(name, copied_box(alloc, inner)?),
        SymbolKind::Tuple(tuple, inner) => tupled(tuple, copied_box(alloc, inner)?),
        SymbolKind::Terminal(terminal) => Ok(SymbolKind::Terminal(terminal.clone()?)),
        SymbolKind::Lookahead => Ok(SymbolKind::Lookahead),
        SymbolKind::Lookbehind => Ok(SymbolKind::Lookbehind),
        SymbolKind::Error => Ok(SymbolKind::Error),
    }
}

#[cycle(copied)]
fn copied_box(alloc: Global, symbol: &Symbol) -> Result<Box<Symbol>, NoMemory>
    ensures { IfOk result (λ b. symbol_view b.value ≡ substituted (λ n. None) (symbol_view symbol.now)) }
{
    Ok(Box::new(alloc, copied(alloc, symbol)?)?)
}

#[cycle(copied)]
fn copied_group(alloc: Global, expr: &ExprSymbol) -> Result<SymbolKind, NoMemory>
    ensures { IfOk result (λ k. kind_view k ≡ group (all_substituted (λ n. None) (expr_view expr.now))) }
{
    let symbols = all_copied(alloc, &expr.symbols)?;
    Ok(SymbolKind::Expr(ExprSymbol { symbols }))
}

#[cycle(copied)]
fn copied_call(alloc: Global, instance: &MacroSymbol) -> Result<SymbolKind, NoMemory>
    ensures { IfOk result (λ k. kind_view k
        ≡ call (macro_view instance.now).0 (all_substituted (λ n. None) (macro_view instance.now).1)) }
{
    let name = instance.name.clone()?;
    let args = all_copied(alloc, &instance.args)?;
    Ok(SymbolKind::Macro(MacroSymbol { name, args }))
}

#[cycle(copied)]
fn copied_repeat(alloc: Global, repeat: &RepeatSymbol) -> Result<SymbolKind, NoMemory>
    ensures { IfOk result (λ k. kind_view k ≡ repeated repeat.now.op (substituted (λ n. None) (symbol_view repeat.now.symbol))) }
{
    let symbol = copied(alloc, &repeat.symbol)?;
    repeat_of(alloc, repeat.op, symbol)
}

/// The symbols, one after another.
#[cycle(copied)]
pub(crate) fn all_copied(alloc: Global, symbols: &[Symbol]) -> Result<Vec<Symbol>, NoMemory>
    ensures { IfOk result (λ ss. parts_view ss.items ≡ all_substituted (λ n. None) (parts_view symbols.now)) }
{
    let mut all = Vec::with_capacity(alloc, symbols.len())?;
    for symbol in symbols {
        all.push(copied(alloc, symbol)?)?;
    }
    Ok(all)
}
