//! Copies of rules, match blocks, tokenizers and associated types.
ghost use Rattle.std.specs.Prelude.{◌≡◌, IfOk, map, option_map};
ghost use Rattle.lalrpop_norm_tree.specs.Items.{action_view, alternative_view, associated_type_view, intern_token_view};
ghost use Rattle.lalrpop_norm_tree.specs.Items.{match_contents_view, match_token_view, rule_view, visibility_view};
ghost use Rattle.lalrpop_norm_tree.specs.Types.{type_view};

use super::{
    ActionKind, Alternative, AssociatedType, Dfa, InternToken, MatchContents, MatchEntry,
    MatchToken, NonterminalData, Visibility,
};
use crate::types::TypeRef;
use lalrpop_norm_tree_parts::attribute::copy::copy_attributes;
use lalrpop_norm_tree_parts::names::NonterminalString;
use std::alloc::AllocError;

impl Clone for ActionKind {
    ghost is_clone = { λ a b. action_view b ≡ action_view a };

    fn clone(&self) -> Result<ActionKind, AllocError> {
        match self {
            ActionKind::User(code) => Ok(ActionKind::User(code.clone()?)),
            ActionKind::Fallible(code) => Ok(ActionKind::Fallible(code.clone()?)),
            ActionKind::Lookahead => Ok(ActionKind::Lookahead),
            ActionKind::Lookbehind => Ok(ActionKind::Lookbehind),
        }
    }
}

impl Clone for Visibility {
    ghost is_clone = { λ v w. visibility_view w ≡ visibility_view v };

    fn clone(&self) -> Result<Visibility, AllocError> {
        match self {
            Visibility::Pub(None) => Ok(Visibility::Pub(None)),
            Visibility::Pub(Some(path)) => Ok(Visibility::Pub(Some(path.clone()?))),
            Visibility::PubIn(path) => Ok(Visibility::PubIn(path.clone()?)),
            Visibility::Priv => Ok(Visibility::Priv),
        }
    }
}

impl Clone for Alternative {
    ghost is_clone = { λ a b. alternative_view b ≡ alternative_view a };

    fn clone(&self) -> Result<Alternative, AllocError> {
        let expr = self.expr.clone()?;
        let condition = self.condition.clone()?;
        let action = copy_action(&self.action)?;
        let attributes = copy_attributes(&self.attributes)?;
        Ok(Alternative {
            span: self.span,
            expr,
            condition,
            action,
            attributes,
        })
    }
}

/// A copy of the action code of an alternative. The only error is a failed allocation.
pub fn copy_action(action: &Option<ActionKind>) -> Result<Option<ActionKind>, AllocError>
    ensures { IfOk result (λ a. option_map action_view a ≡ option_map action_view action.now) }
{
    match action {
        None => Ok(None),
        Some(action) => Ok(Some(action.clone()?)),
    }
}

#[tactic(auto, using(lalrpop_norm_tree_parts::proofs::CopyLemmas::same_views))]
fn copy_alternatives(alternatives: &Vec<Alternative>) -> Result<Vec<Alternative>, AllocError>
    ensures { IfOk result (λ copies. map alternative_view copies.items ≡ map alternative_view alternatives.now.items) }
{
    Ok(alternatives.clone()?)
}

fn copy_type(ty: &Option<TypeRef>) -> Result<Option<TypeRef>, AllocError>
    ensures { IfOk result (λ t. option_map type_view t ≡ option_map type_view ty.now) }
{
    match ty {
        None => Ok(None),
        Some(ty) => Ok(Some(ty.clone()?)),
    }
}

#[tactic(auto, using(std::proofs::lemmas::List::Elements::same_from_all_zip))]
fn copy_names(names: &Vec<NonterminalString>) -> Result<Vec<NonterminalString>, AllocError>
    ensures { IfOk result (λ copies. copies.items ≡ names.now.items) }
{
    Ok(names.clone()?)
}

impl Clone for NonterminalData {
    ghost is_clone = { λ n m. rule_view m ≡ rule_view n };

    fn clone(&self) -> Result<NonterminalData, AllocError> {
        let visibility = self.visibility.clone()?;
        let name = self.name.clone()?;
        let attributes = copy_attributes(&self.attributes)?;
        let args = copy_names(&self.args)?;
        let type_decl = copy_type(&self.type_decl)?;
        let alternatives = copy_alternatives(&self.alternatives)?;
        Ok(NonterminalData {
            visibility,
            name,
            attributes,
            span: self.span,
            args,
            type_decl,
            alternatives,
        })
    }
}

impl Clone for MatchContents {
    ghost is_clone = { λ c d. match_contents_view d ≡ match_contents_view c };

    #[tactic(auto, using(std::proofs::lemmas::List::Elements::same_from_all_zip))]
    fn clone(&self) -> Result<MatchContents, AllocError> {
        let items = self.items.clone()?;
        Ok(MatchContents { items })
    }
}

#[tactic(auto, using(lalrpop_norm_tree_parts::proofs::CopyLemmas::same_views))]
fn copy_contents(contents: &Vec<MatchContents>) -> Result<Vec<MatchContents>, AllocError>
    ensures { IfOk result (λ copies. map match_contents_view copies.items ≡ map match_contents_view contents.now.items) }
{
    Ok(contents.clone()?)
}

impl Clone for MatchToken {
    ghost is_clone = { λ m n. match_token_view n ≡ match_token_view m };

    fn clone(&self) -> Result<MatchToken, AllocError> {
        let contents = copy_contents(&self.contents)?;
        Ok(MatchToken {
            contents,
            span: self.span,
        })
    }
}

impl Clone for Dfa {
    ghost is_clone = { λ d e. e.code.items ≡ d.code.items };

    fn clone(&self) -> Result<Dfa, AllocError> {
        let code = self.code.clone()?;
        Ok(Dfa { code })
    }
}

#[tactic(auto, using(std::proofs::lemmas::List::Elements::same_from_all_zip))]
fn copy_entries(entries: &Vec<MatchEntry>) -> Result<Vec<MatchEntry>, AllocError>
    ensures { IfOk result (λ copies. copies.items ≡ entries.now.items) }
{
    Ok(entries.clone()?)
}

impl Clone for InternToken {
    ghost is_clone = { λ t u. intern_token_view u ≡ intern_token_view t };

    fn clone(&self) -> Result<InternToken, AllocError> {
        let match_entries = copy_entries(&self.match_entries)?;
        let dfa = self.dfa.clone()?;
        Ok(InternToken { match_entries, dfa })
    }
}

impl Clone for AssociatedType {
    ghost is_clone = { λ a b. associated_type_view b ≡ associated_type_view a };

    fn clone(&self) -> Result<AssociatedType, AllocError> {
        let type_name = self.type_name.clone()?;
        let type_ref = self.type_ref.clone()?;
        Ok(AssociatedType {
            type_span: self.type_span,
            type_name,
            type_ref,
        })
    }
}

#[tactic(auto, using(lalrpop_norm_tree_parts::proofs::CopyLemmas::same_views))]
pub(super) fn copy_associated_types(
    types: &Vec<AssociatedType>,
) -> Result<Vec<AssociatedType>, AllocError>
    ensures { IfOk result (λ copies. map associated_type_view copies.items ≡ map associated_type_view types.now.items) }
{
    Ok(types.clone()?)
}
