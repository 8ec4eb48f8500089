//! What is looked up in a traced grammar.
ghost use Rattle.std.specs.Prelude.{◌≡◌, ℕ, List, slice_get, option_map, map, bytes_eq};
ghost use Rattle.std.specs.List.{list_any};
ghost use Rattle.lalrpop_norm_tree_names.specs.declared.names.NonterminalString.{NonterminalString};
ghost use Rattle.lalrpop_norm_repr.specs.Lowered.{lowered_grammar_view};
ghost use Rattle.lalrpop_norm_origins.specs.Origins.{origin_view, origins_view};
ghost use Rattle.lalrpop_norm_explain.specs.TracedGrammars.{grammar_in, origins_in, pair_view, is_root, grammar_of, production_in};
ghost use Rattle.lalrpop_norm_explain.specs.TreeFaults.{has_productions};

use super::Traced;
use lalrpop_norm_origins::Origin;
use lalrpop_norm_repr::grammar::repr::{Grammar, Production, Symbol};
use lalrpop_norm_tree_names::names::NonterminalString;
use std::collections::BTreeSet;

/// A lowered grammar with the origins of its actions, by their numbers, and the names at which trees may begin.
pub fn with_origins(
    grammar: Grammar,
    origins: Vec<Origin>,
    rules: BTreeSet<NonterminalString>,
) -> Traced
    ensures grammar { grammar_in result ≡ lowered_grammar_view grammar }
    ensures origins { origins_in result ≡ origins_view origins.items }
    ensures rules { (n : List ℕ) → is_root result n ≡ list_any (λ (m : NonterminalString). bytes_eq n m.0) rules.keys }
{
    Traced {
        grammar,
        origins,
        rules,
        start: Origin::Start,
    }
}

impl Traced {
    /// The lowered grammar.
    pub fn grammar(&self) -> &Grammar
        ensures { lowered_grammar_view result.now ≡ grammar_in self.now }
    {
        &self.grammar
    }

    /// The origins of the actions, by their numbers.
    pub fn origins(&self) -> &[Origin]
        ensures { map origin_view result.now ≡ origins_in self.now }
    {
        &self.origins
    }

    /// Whether the name is that of an enabled written rule without arguments.
    pub fn is_rule(&self, name: &NonterminalString) -> bool
        ensures { result ≡ is_root self.now name.now.0 }
    {
        self.rules.contains(name)
    }

    /// The origin of the production of that index of the nonterminal, if there is one.
    pub fn origin(&self, name: &NonterminalString, place: usize) -> Option<&Origin>
        ensures { option_map (λ o. origin_view o.now) result
            ≡ option_map (λ q. q.origin) (slice_get (grammar_of self.now name.now.0) place) }
    {
        let (_, origin) = self.production(name, place)?;
        Some(origin)
    }

    /// The productions of a nonterminal.
    pub(crate) fn productions(&self, name: &NonterminalString) -> &[Production]
        ensures { map (production_in self.now) result.now ≡ grammar_of self.now name.now.0 }
    {
        self.grammar.productions_for(name)
    }

    /// Whether the name is that of a nonterminal that has productions.
    pub(crate) fn has_productions(&self, name: &NonterminalString) -> bool
        ensures { result ≡ has_productions (grammar_of self.now) name.now.0 }
    {
        !self.productions(name).is_empty()
    }

    /// The origin of a production of the grammar.
    pub fn origin_of(&self, production: &Production) -> &Origin
        ensures { origin_view result.now ≡ (production_in self.now production.now).origin }
    {
        match self.origins.get(production.action.index()) {
            Some(origin) => origin,
            None => &self.start,
        }
    }

    /// The symbols and the origin of the production of that index.
    pub(crate) fn production(
        &self,
        name: &NonterminalString,
        place: usize,
    ) -> Option<(&[Symbol], &Origin)>
        ensures { option_map pair_view result ≡ slice_get (grammar_of self.now name.now.0) place }
    {
        let production = self.productions(name).get(place)?;
        Some((production.symbols.as_slice(), self.origin_of(production)))
    }
}
