//! What is looked up in a lowered grammar.
ghost use Rattle.std.specs.Prelude.{◌≡◌, ◌<◌, Some, IfOk, IsSome, length, map, filter, option_map, string_bytes};
ghost use Rattle.lalrpop_norm_tree_patterns.specs.Patterns.{pattern_view};
ghost use Rattle.lalrpop_norm_tree_parts.specs.Reprs.{repr_view};
ghost use Rattle.lalrpop_norm_repr.specs.Actions.{action_index};
ghost use Rattle.lalrpop_norm_repr.specs.Lookups.{action_of, is_type_name, parameter_refs, pattern_of, productions_of};
ghost use Rattle.lalrpop_norm_repr.specs.Lowered.{lowered_grammar_view, lowered_parameter_view};
ghost use Rattle.lalrpop_norm_repr.specs.Productions.{production_view};

use super::{Grammar, Parameter};
use crate::action::ActionFn;
use crate::production::Production;
use lalrpop_norm_tree::grammar::parse_tree::{
    NoMemory, NonterminalString, TerminalString, TypeParameter,
};
use lalrpop_norm_tree::grammar::pattern::Pattern;
use lalrpop_norm_tree::grammar::repr::TypeRepr;
use std::alloc::Global;

impl Grammar {
    /// The pattern of the terminal's tokens, for a terminal that has one (see `conversions.contains_key`).
    pub fn pattern(&self, terminal: &TerminalString) -> &Pattern<TypeRepr>
        requires { IsSome (pattern_of terminal.now (lowered_grammar_view self.now)) }
        ensures { Some (pattern_view repr_view result.now) ≡ pattern_of terminal.now (lowered_grammar_view self.now) }
    {
        &self.conversions[terminal]
    }

    /// The productions of the nonterminal, none if the grammar does not have it.
    pub fn productions_for(&self, name: &NonterminalString) -> &[Production]
        ensures { map production_view result.now ≡ productions_of name.now (lowered_grammar_view self.now) }
    {
        match self.nonterminals.get(name) {
            Some(data) => &data.productions,
            None => &[],
        }
    }

    /// The parameters' names, each with `, ` after it. The only error is a failed allocation.
    pub fn user_parameter_refs(&self, alloc: Global) -> Result<String, NoMemory>
        ensures { IfOk result (λ s. string_bytes s ≡ parameter_refs (lowered_grammar_view self.now).parameters) }
    {
        refs(alloc, &self.parameters)
    }

    /// Whether the action answers a result. Its number is below that of the actions.
    pub fn action_is_fallible(&self, action: ActionFn) -> bool
        requires { action_index action < length (lowered_grammar_view self.now).actions }
        ensures { Some result ≡ option_map (λ d. d.fallible) (action_of action (lowered_grammar_view self.now)) }
    {
        self.action_fn_defns[action.index()].fallible
    }

    /// The type parameters that are no lifetimes. The only error is a failed allocation.
    pub fn non_lifetime_type_parameters(
        &self,
        alloc: Global,
    ) -> Result<Vec<&TypeParameter>, NoMemory>
        ensures { IfOk result (λ ps. map (λ p. p.now) ps.items ≡ filter is_type_name (lowered_grammar_view self.now).type_parameters) }
    {
        names(alloc, &self.type_parameters)
    }
}

fn refs(alloc: Global, parameters: &[Parameter]) -> Result<String, NoMemory>
    ensures { IfOk result (λ s. string_bytes s ≡ parameter_refs (map lowered_parameter_view parameters.now)) }
{
    let mut text = String::new(alloc);
    for parameter in parameters {
        text.push_str(parameter.name.as_str())?;
        text.push_str(", ")?;
    }
    Ok(text)
}

fn names(alloc: Global, parameters: &[TypeParameter]) -> Result<Vec<&TypeParameter>, NoMemory>
    ensures { IfOk result (λ ps. map (λ p. p.now) ps.items ≡ filter is_type_name parameters.now) }
{
    let mut names = Vec::new(alloc);
    for parameter in parameters {
        match parameter {
            TypeParameter::Lifetime(_) => {}
            TypeParameter::Id(_) => names.push(parameter)?,
        }
    }
    Ok(names)
}
