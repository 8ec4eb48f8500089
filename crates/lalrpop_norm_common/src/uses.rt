//! The terminals that alternatives use, each with its span.
ghost use Rattle.std.specs.Prelude.{◌≡◌, [], ◌∷◌, ◌++◌, IfOk, OnOk, flat_map, map};
ghost use Rattle.lalrpop_norm_tree.specs.Items.{alternative_view, item_view};
ghost use Rattle.lalrpop_norm_tree.specs.Symbols.{symbol_view, parts_view};
ghost use Rattle.lalrpop_norm_model.specs.TokenFaults.{places_in, places_in_parts};
ghost use Rattle.lalrpop_norm_common.specs.Uses.{places_in_alternatives, places_in_item};

use lalrpop_norm_tree::grammar::parse_tree::{
    Alternative, GrammarItem, GrammarSymbol, NoMemory, Span, Symbol, TerminalString,
};
use std::alloc::Global;

/// A terminal, and its span.
pub type Use = (TerminalString, Span);

/// The terminals that the alternatives of the rules use, in reading order. The only error is a failed allocation.
pub fn uses_of(alloc: Global, items: &[GrammarItem]) -> Result<Vec<Use>, NoMemory>
    ensures { IfOk result (λ us. us.items ≡ flat_map places_in_item (map item_view items.now)) }
{
    let mut uses = Vec::new(alloc);
    for item in items {
        add_item(&mut uses, item)?;
    }
    Ok(uses)
}

fn add_item(uses: &mut Vec<Use>, item: &GrammarItem) -> Result<(), NoMemory>
    ensures { OnOk result (uses.new.items ≡ uses.old.items ++ places_in_item (item_view item.now)) }
{
    match item {
        GrammarItem::Nonterminal(rule) => add_alternatives(uses, &rule.alternatives),
        GrammarItem::MatchToken(_)
        | GrammarItem::ExternToken(_)
        | GrammarItem::InternToken(_)
        | GrammarItem::Use(_) => Ok(()),
    }
}

fn add_alternatives(uses: &mut Vec<Use>, alternatives: &[Alternative]) -> Result<(), NoMemory>
    ensures { OnOk result (uses.new.items ≡ uses.old.items ++ places_in_alternatives (map alternative_view alternatives.now)) }
{
    for alternative in alternatives {
        add_symbols(uses, &alternative.expr.symbols)?;
    }
    Ok(())
}

fn add_symbols(uses: &mut Vec<Use>, symbols: &[Symbol]) -> Result<(), NoMemory>
    ensures { OnOk result (uses.new.items ≡ uses.old.items ++ places_in_parts (parts_view symbols.now)) }
{
    for symbol in symbols {
        add_symbol(uses, symbol)?;
    }
    Ok(())
}

fn add_symbol(uses: &mut Vec<Use>, symbol: &Symbol) -> Result<(), NoMemory>
    ensures { OnOk result (uses.new.items ≡ uses.old.items ++ places_in (symbol_view symbol.now)) }
{
    let inner = symbol.unwrapped();
    match inner.kind.as_grammar_symbol() {
        Some(GrammarSymbol::Terminal(terminal)) => add_terminal(uses, inner.span, terminal),
        Some(GrammarSymbol::Nonterminal(_)) | Some(GrammarSymbol::Error) | None => Ok(()),
    }
}

fn add_terminal(uses: &mut Vec<Use>, span: Span, terminal: &TerminalString) -> Result<(), NoMemory>
    ensures { OnOk result (uses.new.items ≡ uses.old.items ++ (terminal.now, span) ∷ []) }
{
    uses.push((terminal.clone()?, span))?;
    Ok(())
}
