//! The terminals that alternatives use.
ghost use Rattle.std.specs.Prelude.{◌≡◌, map};
ghost use Rattle.std.specs.List.{list_all};
ghost use Rattle.lalrpop_norm_tree.specs.Items.{alternative_view, item_view};
ghost use Rattle.lalrpop_norm_tree.specs.Symbols.{parts_view, symbol_view};
ghost use Rattle.lalrpop_norm_common.specs.Sessions.{features_view};
ghost use Rattle.lalrpop_norm_is_typed.specs.Terminals.{source_view};
ghost use Rattle.lalrpop_norm_is_typed.specs.Used.{is_listed, are_listed, is_alternative_listed, is_item_listed};

use crate::terminals::{Source, is_terminal};
use lalrpop_norm_common::Session;
use lalrpop_norm_tree::grammar::parse_tree::{Alternative, GrammarItem, GrammarSymbol, Symbol};

/// Whether each terminal in an alternative is one of the grammar's.
pub(crate) fn are_items_listed<L>(
    session: &Session<L>,
    source: Source,
    items: &[GrammarItem],
) -> bool
    ensures { result ≡ list_all (is_item_listed (features_view session.now.features) (source_view source.entry)) (map item_view items.now) }
{
    for item in items {
        if !is_item_listed(session, source, item) {
            return false;
        }
    }
    true
}

fn is_item_listed<L>(session: &Session<L>, source: Source, item: &GrammarItem) -> bool
    ensures { result ≡ is_item_listed (features_view session.now.features) (source_view source.entry) (item_view item.now) }
{
    match item {
        GrammarItem::Nonterminal(rule) => {
            are_alternatives_listed(session, source, &rule.alternatives)
        }
        GrammarItem::MatchToken(_)
        | GrammarItem::ExternToken(_)
        | GrammarItem::InternToken(_)
        | GrammarItem::Use(_) => true,
    }
}

fn are_alternatives_listed<L>(
    session: &Session<L>,
    source: Source,
    alternatives: &[Alternative],
) -> bool
    ensures { result
        ≡ list_all (is_alternative_listed (features_view session.now.features) (source_view source.entry))
        (map alternative_view alternatives.now) }
{
    for alternative in alternatives {
        if !are_listed(session, source, &alternative.expr.symbols) {
            return false;
        }
    }
    true
}

fn are_listed<L>(session: &Session<L>, source: Source, symbols: &[Symbol]) -> bool
    ensures { result ≡ are_listed (features_view session.now.features) (source_view source.entry) (parts_view symbols.now) }
{
    for symbol in symbols {
        if !is_listed(session, source, symbol) {
            return false;
        }
    }
    true
}

/// A terminal under wrappers is one of the grammar's.
fn is_listed<L>(session: &Session<L>, source: Source, symbol: &Symbol) -> bool
    ensures { result ≡ is_listed (features_view session.now.features) (source_view source.entry) (symbol_view symbol.now) }
{
    match symbol.unwrapped().kind.as_grammar_symbol() {
        Some(GrammarSymbol::Terminal(terminal)) => is_terminal(session, source, terminal),
        Some(GrammarSymbol::Nonterminal(_) | GrammarSymbol::Error) | None => true,
    }
}
