//! The terminals that the rules of a grammar use, read in place.
ghost use Rattle.std.specs.Prelude.{◌≡◌, [], ◌∷◌, MatchOption, flat_map, map};
ghost use Rattle.lalrpop_norm_tree.specs.Items.{alternative_view, rule_view, item_view, grammar_view};
ghost use Rattle.lalrpop_norm_tree.specs.Symbols.{symbol_view, parts_view};
ghost use Rattle.lalrpop_norm_model.specs.PlainRules.{rule_of_item};
ghost use Rattle.lalrpop_norm_model.specs.TokenFaults.{places_in, places_in_parts, places_used};
ghost use Rattle.lalrpop_norm_token_check.specs.Uses.{use_view, use_list, alternatives_left, uses_left};

use lalrpop_norm_tree::grammar::parse_tree::{
    Alternative, Grammar, GrammarItem, GrammarSymbol, NonterminalData, Span, Symbol, TerminalString,
};

/// The uses of terminals that are left, in reading order: each a terminal with its span.
#[derive(Drop)]
pub(super) struct Uses<'g> {
    /// The symbols that are left of an alternative.
    symbols: &'g [Symbol],
    /// The alternatives that are left of its rule.
    alternatives: &'g [Alternative],
    /// The items behind that rule.
    items: &'g [GrammarItem],
}

impl<'g> Uses<'g> {
    /// All uses of a grammar.
    pub(super) fn of(grammar: &'g Grammar) -> Uses<'g>
        ensures { uses_left result ≡ places_used (grammar_view grammar.now) }
    {
        Uses {
            symbols: &[],
            alternatives: &[],
            items: &grammar.items,
        }
    }

    /// The next alternative, of this rule or of one behind it.
    fn next_alternative(&mut self) -> Option<&'g Alternative>
        ensures gives { MatchOption result ((alternatives_left self.old ≡ []) × (alternatives_left self.new ≡ []))
            (λ a. alternatives_left self.old ≡ alternative_view a.now ∷ alternatives_left self.new) }
        ensures stays { self.new.symbols.now ≡ self.old.symbols.now }
    {
        loop {
            if let Some((alternative, others)) = self.alternatives.split_first() {
                self.alternatives = others;
                return Some(alternative);
            }
            let (rule, behind) = first_rule(self.items)?;
            self.alternatives = &rule.alternatives;
            self.items = behind;
        }
    }
}

impl<'g> Iterator for Uses<'g> {
    ghost use Rattle.std.specs.Iterator.{YieldsFirstBy, item_count};
    ghost use Rattle.lalrpop_norm_token_check.specs.Uses.{use_view, uses_left};

    type Item = (&'g TerminalString, Span);

    ghost next_gives = { YieldsFirstBy use_view uses_left };

    ghost remaining = { item_count uses_left };

    fn next(&mut self) -> Option<(&'g TerminalString, Span)> {
        loop {
            if let Some((found, behind)) = first_use(self.symbols) {
                self.symbols = behind;
                return Some(found);
            }
            self.symbols = &self.next_alternative()?.expr.symbols;
        }
    }
}

/// The first rule among the items, and the items behind it.
fn first_rule(items: &[GrammarItem]) -> Option<(&NonterminalData, &[GrammarItem])>
    ensures { MatchOption result (flat_map rule_of_item (map item_view items.now) ≡ [])
        (λ p. flat_map rule_of_item (map item_view items.now)
        ≡ rule_view p.0.now ∷ flat_map rule_of_item (map item_view p.1.now)) }
{
    for (index, item) in items.iter().enumerate() {
        if let GrammarItem::Nonterminal(rule) = item {
            return Some((rule, &items[index + 1..]));
        }
    }
    None
}

/// The first use among the symbols, and the symbols behind it.
fn first_use(symbols: &[Symbol]) -> Option<((&TerminalString, Span), &[Symbol])>
    ensures { MatchOption result (places_in_parts (parts_view symbols.now) ≡ [])
        (λ p. places_in_parts (parts_view symbols.now) ≡ use_view p.0 ∷ places_in_parts (parts_view p.1.now)) }
{
    for (index, symbol) in symbols.iter().enumerate() {
        if let Some(found) = use_in(symbol) {
            return Some((found, &symbols[index + 1..]));
        }
    }
    None
}

/// The terminal of a symbol, under its wrappers, with its span.
fn use_in(symbol: &Symbol) -> Option<(&TerminalString, Span)>
    ensures { places_in (symbol_view symbol.now) ≡ use_list result }
{
    let inner = symbol.unwrapped();
    match inner.kind.as_grammar_symbol() {
        Some(GrammarSymbol::Terminal(terminal)) => Some((terminal, inner.span)),
        Some(GrammarSymbol::Nonterminal(_)) | Some(GrammarSymbol::Error) | None => None,
    }
}
