//! The symbols of productions.
ghost use Rattle.std.specs.Prelude.{◌≡◌, IfOk};
ghost use Rattle.lalrpop_norm_tree.specs.Symbols.{kind_view, symbol_view, parts_view};
ghost use Rattle.lalrpop_norm_tree.specs.SymbolTexts.{kind_text};
ghost use Rattle.lalrpop_norm_lower.specs.Lowering.{lowered_symbol, lowered_symbols};

use lalrpop_norm_repr::grammar::repr::Symbol;
use lalrpop_norm_tree::grammar::parse_tree as pt;
use lalrpop_norm_tree::grammar::parse_tree::{
    Atom, GrammarSymbol, NoMemory, NonterminalString, SymbolKind, TerminalString,
};
use std::alloc::Global;

/// What the symbols are in a production.
pub(crate) fn lowered_symbols(
    alloc: Global,
    symbols: &[pt::Symbol],
) -> Result<Vec<Symbol>, NoMemory>
    ensures { IfOk result (λ ss. ss.items ≡ lowered_symbols (parts_view symbols.now)) }
{
    let mut lowered = Vec::with_capacity(alloc, symbols.len())?;
    for symbol in symbols {
        lowered.push(lowered_symbol(alloc, symbol)?)?;
    }
    Ok(lowered)
}

/// What a symbol is in a production, by what it is under wrappers.
pub(crate) fn lowered_symbol(alloc: Global, symbol: &pt::Symbol) -> Result<Symbol, NoMemory>
    ensures { IfOk result (λ s. s ≡ lowered_symbol (symbol_view symbol.now)) }
{
    let kind = &symbol.unwrapped().kind;
    match kind.as_grammar_symbol() {
        Some(GrammarSymbol::Terminal(terminal)) => Ok(Symbol::Terminal(terminal.clone()?)),
        Some(GrammarSymbol::Nonterminal(name)) => Ok(Symbol::Nonterminal(name.clone()?)),
        Some(GrammarSymbol::Error) => Ok(Symbol::Terminal(TerminalString::Error)),
        None => named_by_text(alloc, kind),
    }
}

/// The nonterminal that is named by the symbol's text.
fn named_by_text(alloc: Global, kind: &SymbolKind) -> Result<Symbol, NoMemory>
    ensures { IfOk result (λ s. s ≡ Symbol.Nonterminal (record { 0 = kind_text (kind_view kind.now) })) }
{
    let text = kind.to_string(alloc)?;
    let name = Atom::new(alloc, text.as_str())?;
    Ok(Symbol::Nonterminal(NonterminalString(name)))
}
