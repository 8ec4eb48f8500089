//! Copies of conversions, extern blocks, items and grammars.
ghost use Rattle.std.specs.Prelude.{◌≡◌, IfOk, map, option_map};
ghost use Rattle.lalrpop_norm_tree_parts.specs.Bounds.{where_clause_view};
ghost use Rattle.lalrpop_norm_tree.specs.Items.{conversion_view, enum_token_view, extern_token_view, grammar_view, item_view};
ghost use Rattle.lalrpop_norm_tree_patterns.specs.Patterns.{pattern_view};
ghost use Rattle.lalrpop_norm_tree.specs.Types.{parameter_view, type_view};

use super::copy::copy_associated_types;
use super::{Conversion, EnumToken, ExternToken, Grammar, GrammarItem};
use crate::types::{Parameter, TypeRef};
use lalrpop_norm_tree_parts::attribute::copy::copy_attributes;
use lalrpop_norm_tree_parts::bound::WhereClause;
use lalrpop_norm_tree_parts::names::copy::{copy_texts, copy_type_parameters};
use lalrpop_norm_tree_patterns::pattern::Pattern;
use shared_text::NoMemory;
use std::alloc::Global;

impl Conversion {
    /// A copy. The only error is a failed allocation.
    pub fn clone(&self) -> Result<Conversion, NoMemory>
        ensures { IfOk result (λ c. conversion_view c ≡ conversion_view self.now) }
    {
        let attributes = copy_attributes(&self.attributes)?;
        let from = self.from.clone()?;
        let to = copy_pattern(&self.to)?;
        Ok(Conversion {
            span: self.span,
            attributes,
            from,
            to,
        })
    }
}

impl EnumToken {
    /// A copy. The only error is a failed allocation.
    pub fn clone(&self) -> Result<EnumToken, NoMemory>
        ensures { IfOk result (λ e. enum_token_view e ≡ enum_token_view self.now) }
    {
        let type_name = self.type_name.clone()?;
        let conversions = copy_conversions(*self.conversions.allocator(), &self.conversions)?;
        Ok(EnumToken {
            type_name,
            type_span: self.type_span,
            conversions,
        })
    }
}

impl ExternToken {
    /// A copy. The only error is a failed allocation.
    pub fn clone(&self) -> Result<ExternToken, NoMemory>
        ensures { IfOk result (λ t. extern_token_view t ≡ extern_token_view self.now) }
    {
        let types = copy_associated_types(&self.associated_types)?;
        let enum_token = copy_enum(&self.enum_token)?;
        Ok(ExternToken {
            span: self.span,
            associated_types: types,
            enum_token,
        })
    }
}

impl GrammarItem {
    /// A copy. The only error is a failed allocation.
    pub fn clone(&self) -> Result<GrammarItem, NoMemory>
        ensures { IfOk result (λ i. item_view i ≡ item_view self.now) }
    {
        match self {
            GrammarItem::MatchToken(token) => Ok(GrammarItem::MatchToken(token.clone()?)),
            GrammarItem::ExternToken(token) => Ok(GrammarItem::ExternToken(token.clone()?)),
            GrammarItem::InternToken(token) => Ok(GrammarItem::InternToken(token.clone()?)),
            GrammarItem::Nonterminal(rule) => Ok(GrammarItem::Nonterminal(rule.clone()?)),
            GrammarItem::Use(text) => Ok(GrammarItem::Use(text.clone()?)),
        }
    }
}

impl Grammar {
    /// A copy. The only error is a failed allocation.
    pub fn clone(&self) -> Result<Grammar, NoMemory>
        ensures { IfOk result (λ g. grammar_view g ≡ grammar_view self.now) }
    {
        let prefix = self.prefix.clone()?;
        let type_parameters = copy_type_parameters(&self.type_parameters)?;
        let parameters = copy_parameters(&self.parameters)?;
        let where_clauses = copy_clauses(*self.where_clauses.allocator(), &self.where_clauses)?;
        let items = copy_items(*self.items.allocator(), &self.items)?;
        let attributes = copy_attributes(&self.attributes)?;
        let module_attributes = copy_texts(&self.module_attributes)?;
        Ok(Grammar {
            prefix,
            span: self.span,
            type_parameters,
            parameters,
            where_clauses,
            items,
            attributes,
            module_attributes,
        })
    }
}

fn copy_pattern(pattern: &Pattern<TypeRef>) -> Result<Pattern<TypeRef>, NoMemory>
    ensures { IfOk result (λ p. pattern_view type_view p ≡ pattern_view type_view pattern.now) }
{
    Ok(pattern.clone()?)
}

fn copy_clause(clause: &WhereClause<TypeRef>) -> Result<WhereClause<TypeRef>, NoMemory>
    ensures { IfOk result (λ c. where_clause_view type_view c ≡ where_clause_view type_view clause.now) }
{
    Ok(clause.clone()?)
}

fn copy_enum(token: &Option<EnumToken>) -> Result<Option<EnumToken>, NoMemory>
    ensures { IfOk result (λ e. option_map enum_token_view e ≡ option_map enum_token_view token.now) }
{
    match token {
        None => Ok(None),
        Some(token) => Ok(Some(token.clone()?)),
    }
}

fn copy_conversions(alloc: Global, conversions: &[Conversion]) -> Result<Vec<Conversion>, NoMemory>
    ensures { IfOk result (λ copies. map conversion_view copies.items ≡ map conversion_view conversions.now) }
{
    let mut copies = Vec::new(alloc);
    for conversion in conversions {
        copies.push(conversion.clone()?)?;
    }
    Ok(copies)
}

#[tactic(auto, using(lalrpop_norm_tree_parts::proofs::CopyLemmas::same_views))]
fn copy_parameters(parameters: &Vec<Parameter>) -> Result<Vec<Parameter>, NoMemory>
    ensures { IfOk result (λ copies. map parameter_view copies.items ≡ map parameter_view parameters.now.items) }
{
    Ok(parameters.clone()?)
}

fn copy_clauses(
    alloc: Global,
    clauses: &[WhereClause<TypeRef>],
) -> Result<Vec<WhereClause<TypeRef>>, NoMemory>
    ensures { IfOk result (λ copies. map (where_clause_view type_view) copies.items ≡ map (where_clause_view type_view) clauses.now) }
{
    let mut copies = Vec::new(alloc);
    for clause in clauses {
        copies.push(copy_clause(clause)?)?;
    }
    Ok(copies)
}

fn copy_items(alloc: Global, items: &[GrammarItem]) -> Result<Vec<GrammarItem>, NoMemory>
    ensures { IfOk result (λ copies. map item_view copies.items ≡ map item_view items.now) }
{
    let mut copies = Vec::new(alloc);
    for item in items {
        copies.push(item.clone()?)?;
    }
    Ok(copies)
}
