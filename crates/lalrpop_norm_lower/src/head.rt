//! The head of a lowered grammar.
ghost use Rattle.std.specs.Prelude.{◌≡◌, IfOk, flat_map, filter_map, map, option_map, string_bytes};
ghost use Rattle.lalrpop_norm_tree.specs.Accessors.{first_of, intern_token_of};
ghost use Rattle.lalrpop_norm_tree.specs.Items.{grammar_view, intern_token_view, item_view};
ghost use Rattle.lalrpop_norm_tree_parts.specs.Reprs.{lowered_where_clause_view};
ghost use Rattle.lalrpop_norm_tree.specs.Types.{parameter_view};
ghost use Rattle.lalrpop_norm_repr.specs.Lowered.{lowered_parameter_view};
ghost use Rattle.lalrpop_norm_lower.specs.Carried.{lowered_clauses, lowered_parameter, use_of};

use crate::clauses::lowered_clauses;
use lalrpop_norm_repr::grammar::repr::{Parameter, WhereClause};
use lalrpop_norm_tree::grammar::parse_tree as pt;
use lalrpop_norm_tree::grammar::parse_tree::{GrammarItem, InternToken, NoMemory, TypeParameter};
use lalrpop_norm_tree_parts::names::copy::{copy_texts, copy_type_parameters};
use std::alloc::Global;

/// What a lowered grammar takes over as it is.
#[derive(Drop)]
pub(crate) struct Head {
    pub(crate) prefix: String,
    pub(crate) uses: Vec<String>,
    pub(crate) module_attributes: Vec<String>,
    pub(crate) intern_token: Option<InternToken>,
}

/// The head of a grammar.
pub(crate) fn head_of(alloc: Global, grammar: &pt::Grammar) -> Result<Head, NoMemory>
    ensures prefix { IfOk result (λ h. string_bytes h.prefix ≡ (grammar_view grammar.now).prefix) }
    ensures uses { IfOk result (λ h. map string_bytes h.uses.items ≡ filter_map use_of (grammar_view grammar.now).items) }
    ensures intern_token { IfOk result
        (λ h. option_map intern_token_view h.intern_token ≡ first_of intern_token_of (grammar_view grammar.now).items) }
    ensures module_attributes { IfOk result
        (λ h. map string_bytes h.module_attributes.items ≡ (grammar_view grammar.now).module_attributes) }
{
    Ok(Head {
        prefix: String::from_str(alloc, grammar.prefix.as_str())?,
        uses: uses_of(alloc, &grammar.items)?,
        module_attributes: copy_texts(&grammar.module_attributes)?,
        intern_token: intern_token_of(grammar)?,
    })
}

/// What the functions of a parser are over.
#[derive(Drop)]
pub(crate) struct Signature {
    pub(crate) type_parameters: Vec<TypeParameter>,
    pub(crate) parameters: Vec<Parameter>,
    pub(crate) where_clauses: Vec<WhereClause>,
}

/// The parameters and `where` clauses of a grammar, their types lowered.
pub(crate) fn signature_of(alloc: Global, grammar: &pt::Grammar) -> Result<Signature, NoMemory>
    ensures type_parameters { IfOk result (λ s. s.type_parameters.items ≡ (grammar_view grammar.now).type_parameters) }
    ensures parameters { IfOk result
        (λ s. map lowered_parameter_view s.parameters.items ≡ map lowered_parameter (grammar_view grammar.now).parameters) }
    ensures where_clauses { IfOk result
        (λ s. map lowered_where_clause_view s.where_clauses.items ≡ flat_map lowered_clauses (grammar_view grammar.now).where_clauses) }
{
    Ok(Signature {
        type_parameters: copy_type_parameters(&grammar.type_parameters)?,
        parameters: lowered_parameters(alloc, &grammar.parameters)?,
        where_clauses: lowered_clauses(alloc, &grammar.where_clauses)?,
    })
}

/// The texts of `use` items.
fn uses_of(alloc: Global, items: &[GrammarItem]) -> Result<Vec<String>, NoMemory>
    ensures { IfOk result (λ us. map string_bytes us.items ≡ filter_map use_of (map item_view items.now)) }
{
    let mut uses = Vec::new(alloc);
    for item in items {
        match item {
            GrammarItem::Use(text) => uses.push(text.clone()?)?,
            GrammarItem::MatchToken(_)
            | GrammarItem::ExternToken(_)
            | GrammarItem::InternToken(_)
            | GrammarItem::Nonterminal(_) => {}
        }
    }
    Ok(uses)
}

/// A copy of the first tokenizer of a grammar.
fn intern_token_of(grammar: &pt::Grammar) -> Result<Option<InternToken>, NoMemory>
    ensures { IfOk result (λ t. option_map intern_token_view t ≡ first_of intern_token_of (grammar_view grammar.now).items) }
{
    match grammar.intern_token() {
        Some(token) => Ok(Some(token.clone()?)),
        None => Ok(None),
    }
}

/// The parameters with their types lowered.
fn lowered_parameters(
    alloc: Global,
    parameters: &[pt::Parameter],
) -> Result<Vec<Parameter>, NoMemory>
    ensures { IfOk result (λ ps. map lowered_parameter_view ps.items ≡ map lowered_parameter (map parameter_view parameters.now)) }
{
    let mut lowered = Vec::with_capacity(alloc, parameters.len())?;
    for parameter in parameters {
        lowered.push(lowered_parameter(alloc, parameter)?)?;
    }
    Ok(lowered)
}

fn lowered_parameter(alloc: Global, parameter: &pt::Parameter) -> Result<Parameter, NoMemory>
    ensures { IfOk result (λ p. lowered_parameter_view p ≡ lowered_parameter (parameter_view parameter.now)) }
{
    let name = parameter.name.clone()?;
    let ty = parameter.ty.lowered(alloc)?;
    Ok(Parameter { name, ty })
}
