//! Whether `!` occurs in an alternative: a grammar recovers from errors if it occurs in one of a rule.
ghost use Rattle.std.specs.Prelude.{◌≡◌, map};
ghost use Rattle.std.specs.List.{list_any};
ghost use Rattle.lalrpop_norm_tree.specs.Items.{alternative_view};
ghost use Rattle.lalrpop_norm_tree.specs.Symbols.{parts_view, symbol_view};
ghost use Rattle.lalrpop_norm_lower.specs.Carried.{is_error, any_error};

use lalrpop_norm_tree::grammar::parse_tree::{Alternative, GrammarSymbol, Symbol};

/// Whether `!` occurs in one of the alternatives.
pub(crate) fn some_error(alternatives: &[Alternative]) -> bool
    ensures { result ≡ list_any (λ a. any_error a.parts) (map alternative_view alternatives.now) }
{
    for alternative in alternatives {
        if any_error(&alternative.expr.symbols) {
            return true;
        }
    }
    false
}

fn any_error(symbols: &[Symbol]) -> bool
    ensures { result ≡ any_error (parts_view symbols.now) }
{
    for symbol in symbols {
        if is_error(symbol) {
            return true;
        }
    }
    false
}

/// `!`, also as a selected, named or tuple symbol.
fn is_error(symbol: &Symbol) -> bool
    ensures { result ≡ is_error (symbol_view symbol.now) }
{
    match symbol.unwrapped().kind.as_grammar_symbol() {
        Some(GrammarSymbol::Error) => true,
        Some(GrammarSymbol::Terminal(_) | GrammarSymbol::Nonterminal(_)) | None => false,
    }
}
