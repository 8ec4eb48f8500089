//! Start symbols: their alternatives, and their nonterminals.
ghost use Rattle.std.specs.Prelude.{◌≡◌, IfOk};
ghost use Rattle.lalrpop_norm_tree.specs.Items.{alternative_view, rule_view};
ghost use Rattle.lalrpop_norm_tree.specs.Symbols.{expr_view, symbol_view, nonterminal, at, part_and, no_parts};
ghost use Rattle.lalrpop_norm_repr.specs.Productions.{nonterminal_data_view, production_view};
ghost use Rattle.lalrpop_norm_lower_steps.specs.StartSymbols.{start_alternative, start_entry_with};

use lalrpop_norm_repr::grammar::repr::{self, Production};
use lalrpop_norm_tree::grammar::parse_tree::{
    Alternative, ExprSymbol, NoMemory, NonterminalData, NonterminalString, Span, Symbol, SymbolKind,
};
use std::alloc::Global;

/// The one alternative of a start symbol: the rule's name.
pub fn start_alternative(alloc: Global, rule: &NonterminalData) -> Result<Alternative, NoMemory>
    ensures { IfOk result (λ a. alternative_view a ≡ start_alternative (rule_view rule.now)) }
{
    let expr = named(alloc, rule.span, &rule.name)?;
    Ok(Alternative {
        span: rule.span,
        expr,
        condition: None,
        action: None,
        attributes: Vec::new(alloc),
    })
}

/// Only the nonterminal, at that span.
fn named(alloc: Global, span: Span, name: &NonterminalString) -> Result<ExprSymbol, NoMemory>
    ensures { IfOk result (λ e. expr_view e ≡ part_and (at span (nonterminal name.now.0)) no_parts) }
{
    let symbol = named_symbol(span, name)?;
    let symbols = vec![in alloc; symbol]?;
    Ok(ExprSymbol { symbols })
}

fn named_symbol(span: Span, name: &NonterminalString) -> Result<Symbol, NoMemory>
    ensures { IfOk result (λ s. symbol_view s ≡ at span (nonterminal name.now.0)) }
{
    let kind = SymbolKind::Nonterminal(name.clone()?);
    Ok(Symbol { span, kind })
}

/// The nonterminal of a start symbol with that one production: it has the visibility and the span of its rule, and has no
/// attributes.
pub fn start_data(
    alloc: Global,
    rule: &NonterminalData,
    production: Production,
) -> Result<repr::NonterminalData, NoMemory>
    ensures { IfOk result (λ n. nonterminal_data_view n
        ≡ start_entry_with (rule_view rule.now) (production_view production)) }
{
    let span = rule.span;
    let attributes = Vec::new(alloc);
    let productions = vec![in alloc; production]?;
    Ok(repr::NonterminalData {
        visibility: rule.visibility.clone()?,
        span,
        attributes,
        productions,
    })
}
