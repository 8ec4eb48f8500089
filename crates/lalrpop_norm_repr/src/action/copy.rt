//! Copies of actions.
ghost use Rattle.std.specs.Prelude.{◌≡◌, IfOk, map};
ghost use Rattle.lalrpop_norm_repr.specs.Actions.{action_defn_view, action_kind_view, inline_action_view, inlined_symbol_view};
ghost use Rattle.lalrpop_norm_repr.specs.Actions.{user_action_view};

use super::{ActionFnDefn, ActionFnDefnKind, InlineActionFnDefn, InlinedSymbol, UserActionFnDefn};
use crate::production::copy_symbols;
use std::alloc::AllocError;

impl Clone for ActionFnDefn {
    ghost is_clone = { λ a b. action_defn_view b ≡ action_defn_view a };

    fn clone(&self) -> Result<ActionFnDefn, AllocError> {
        let ret_type = self.ret_type.clone()?;
        let kind = self.kind.clone()?;
        Ok(ActionFnDefn {
            fallible: self.fallible,
            ret_type,
            kind,
        })
    }
}

impl Clone for ActionFnDefnKind {
    ghost is_clone = { λ a b. action_kind_view b ≡ action_kind_view a };

    fn clone(&self) -> Result<ActionFnDefnKind, AllocError> {
        match self {
            ActionFnDefnKind::User(action) => Ok(ActionFnDefnKind::User(action.clone()?)),
            ActionFnDefnKind::Inline(action) => Ok(ActionFnDefnKind::Inline(action.clone()?)),
            ActionFnDefnKind::Lookaround(action) => {
                Ok(ActionFnDefnKind::Lookaround(action.clone()?))
            }
        }
    }
}

impl Clone for UserActionFnDefn {
    ghost is_clone = { λ a b. user_action_view b ≡ user_action_view a };

    #[tactic(auto, using(lalrpop_norm_tree_parts::proofs::CopyLemmas::same_views))]
    fn clone(&self) -> Result<UserActionFnDefn, AllocError> {
        Ok(UserActionFnDefn {
            arg_patterns: self.arg_patterns.clone()?,
            arg_types: self.arg_types.clone()?,
            code: self.code.clone()?,
        })
    }
}

impl Clone for InlineActionFnDefn {
    ghost is_clone = { λ a b. inline_action_view b ≡ inline_action_view a };

    fn clone(&self) -> Result<InlineActionFnDefn, AllocError> {
        let symbols = copy_arguments(&self.symbols)?;
        Ok(InlineActionFnDefn {
            action: self.action,
            symbols,
        })
    }
}

impl Clone for InlinedSymbol {
    ghost is_clone = { λ a b. inlined_symbol_view b ≡ inlined_symbol_view a };

    fn clone(&self) -> Result<InlinedSymbol, AllocError> {
        match self {
            InlinedSymbol::Original(symbol) => Ok(InlinedSymbol::Original(symbol.clone()?)),
            InlinedSymbol::Inlined(action, symbols) => {
                Ok(InlinedSymbol::Inlined(*action, copy_symbols(symbols)?))
            }
        }
    }
}

#[tactic(auto, using(lalrpop_norm_tree_parts::proofs::CopyLemmas::same_views))]
fn copy_arguments(symbols: &Vec<InlinedSymbol>) -> Result<Vec<InlinedSymbol>, AllocError>
    ensures { IfOk result (λ copies. map inlined_symbol_view copies.items ≡ map inlined_symbol_view symbols.now.items) }
{
    Ok(symbols.clone()?)
}

#[tactic(auto, using(lalrpop_norm_tree_parts::proofs::CopyLemmas::same_views))]
pub(crate) fn copy_actions(actions: &Vec<ActionFnDefn>) -> Result<Vec<ActionFnDefn>, AllocError>
    ensures { IfOk result (λ copies. map action_defn_view copies.items ≡ map action_defn_view actions.now.items) }
{
    Ok(actions.clone()?)
}
