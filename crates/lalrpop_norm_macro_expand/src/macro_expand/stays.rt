//! Items that stay as they are when a grammar is expanded.
ghost use Rattle.std.specs.Prelude.{◌≡◌, map};
ghost use Rattle.std.specs.List.{list_all};
ghost use Rattle.lalrpop_norm_tree.specs.Items.{alternative_view, item_view, rule_view};
ghost use Rattle.lalrpop_norm_tree.specs.Symbols.{kind_view, parts_view, symbol_view};
ghost use Rattle.lalrpop_norm_model.specs.Replaced.{is_desugared};
ghost use Rattle.lalrpop_norm_macro_expand.specs.Stays.{symbol_stays, symbols_stay, alternative_stays, rule_stays, item_stays};

use lalrpop_norm_tree::grammar::parse_tree::{
    Alternative, GrammarItem, NonterminalData, Symbol, SymbolKind,
};

/// Whether a symbol is desugared, to a rule of its own.
fn is_desugared(kind: &SymbolKind) -> bool
    ensures { result ≡ is_desugared (kind_view kind.now) }
{
    match kind {
        SymbolKind::Expr(_)
        | SymbolKind::Macro(_)
        | SymbolKind::Repeat(_)
        | SymbolKind::Lookahead
        | SymbolKind::Lookbehind => true,
        SymbolKind::AmbiguousId(_)
        | SymbolKind::Terminal(_)
        | SymbolKind::Nonterminal(_)
        | SymbolKind::Choose(_)
        | SymbolKind::Name(_, _)
        | SymbolKind::Tuple(_, _)
        | SymbolKind::Error => false,
    }
}

fn symbol_stays(symbol: &Symbol) -> bool
    ensures { result ≡ symbol_stays (symbol_view symbol.now) }
{
    !is_desugared(&symbol.unwrapped().kind)
}

fn symbols_stay(symbols: &[Symbol]) -> bool
    ensures { result ≡ symbols_stay (parts_view symbols.now) }
{
    for symbol in symbols {
        if !symbol_stays(symbol) {
            return false;
        }
    }
    true
}

fn alternative_stays(alternative: &Alternative) -> bool
    ensures { result ≡ alternative_stays (alternative_view alternative.now) }
{
    symbols_stay(&alternative.expr.symbols)
}

fn alternatives_stay(alternatives: &[Alternative]) -> bool
    ensures { result ≡ list_all alternative_stays (map alternative_view alternatives.now) }
{
    for alternative in alternatives {
        if !alternative_stays(alternative) {
            return false;
        }
    }
    true
}

fn rule_stays(rule: &NonterminalData) -> bool
    ensures { result ≡ rule_stays (rule_view rule.now) }
{
    rule.args.is_empty() && alternatives_stay(&rule.alternatives)
}

fn item_stays(item: &GrammarItem) -> bool
    ensures { result ≡ item_stays (item_view item.now) }
{
    match item {
        GrammarItem::Nonterminal(rule) => rule_stays(rule),
        GrammarItem::MatchToken(_)
        | GrammarItem::ExternToken(_)
        | GrammarItem::InternToken(_)
        | GrammarItem::Use(_) => true,
    }
}

/// Whether none of the items is a macro, and none of their symbols is desugared. The first that does not stay ends the walk.
pub(super) fn items_stay(items: &[GrammarItem]) -> bool
    ensures { result ≡ list_all item_stays (map item_view items.now) }
{
    for item in items {
        if !item_stays(item) {
            return false;
        }
    }
    true
}
