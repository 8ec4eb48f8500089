//! Actions whose types share their parts.
ghost use Rattle.std.specs.Prelude.{◌≡◌, IfOk, map};
ghost use Rattle.lalrpop_norm_tree_parts.specs.Reprs.{repr_view};
ghost use Rattle.lalrpop_norm_repr.specs.Actions.{action_defn_view, action_kind_view, user_action_view};
ghost use Rattle.lalrpop_norm_shared_types.specs.Actions.{shared_action_view, shared_kind_view, shared_user_view};
ghost use Rattle.lalrpop_norm_shared_types.specs.Shared.{shared_view};

use crate::shared::SharedType;
use lalrpop_norm_repr::grammar::repr::{
    ActionFnDefn, ActionFnDefnKind, LookaroundActionFnDefn, TypeRepr, UserActionFnDefn,
};
use lalrpop_norm_tree::grammar::parse_tree::{ArgPattern, NoMemory};
use std::alloc::Global;

/// An action that lowering makes. The fields are those of `ActionFnDefn`.
pub struct SharedActionFnDefn {
    /// Whether it answers a result.
    pub fallible: bool,
    /// The type of its value; of the value inside, where it answers a result.
    pub ret_type: SharedType,
    /// What it does.
    pub kind: SharedActionFnDefnKind,
}

/// What an action does: as `ActionFnDefnKind`, without the calls of other actions, which lowering does not make.
pub enum SharedActionFnDefnKind {
    /// Code of the grammar, or of a pass.
    User(SharedUserActionFnDefn),
    /// The location at a location symbol, `@L` or `@R`.
    Lookaround(LookaroundActionFnDefn),
}

/// An action with code, and for each symbol of its production a pattern and a type.
pub struct SharedUserActionFnDefn {
    /// One for each symbol of the production, in order.
    pub arg_patterns: Vec<ArgPattern>,
    /// One for each symbol of the production, in order.
    pub arg_types: Vec<SharedType>,
    /// With each `<>` substituted.
    pub code: String,
}

// As those of `ActionFnDefn`: a derived `Drop` would be proved anew wherever a value ends.
impl Drop for SharedActionFnDefn {
    fn drop(self) {
        let SharedActionFnDefn {
            fallible: _fallible,
            ret_type: _ret_type,
            kind: _kind,
        } = self;
    }
}

impl Drop for SharedActionFnDefnKind {
    fn drop(self) {
        match self {
            SharedActionFnDefnKind::User(_action) => {}
            SharedActionFnDefnKind::Lookaround(_action) => {}
        }
    }
}

impl Drop for SharedUserActionFnDefn {
    fn drop(self) {
        let SharedUserActionFnDefn {
            arg_patterns: _arg_patterns,
            arg_types: _arg_types,
            code: _code,
        } = self;
    }
}

impl SharedActionFnDefn {
    /// The action with whole copies of its types. The only error is a failed allocation.
    pub fn into_repr(self, alloc: Global) -> Result<ActionFnDefn, NoMemory>
        ensures { IfOk result (λ d. action_defn_view d ≡ shared_action_view self) }
    {
        let SharedActionFnDefn {
            fallible,
            ret_type,
            kind,
        } = self;
        let ret_type = ret_type.to_repr(alloc)?;
        let kind = kind.into_repr(alloc)?;
        Ok(ActionFnDefn {
            fallible,
            ret_type,
            kind,
        })
    }
}

impl SharedActionFnDefnKind {
    fn into_repr(self, alloc: Global) -> Result<ActionFnDefnKind, NoMemory>
        ensures { IfOk result (λ k. action_kind_view k ≡ shared_kind_view self) }
    {
        match self {
            SharedActionFnDefnKind::User(action) => {
                Ok(ActionFnDefnKind::User(action.into_repr(alloc)?))
            }
            SharedActionFnDefnKind::Lookaround(action) => Ok(ActionFnDefnKind::Lookaround(action)),
        }
    }
}

impl SharedUserActionFnDefn {
    fn into_repr(self, alloc: Global) -> Result<UserActionFnDefn, NoMemory>
        ensures { IfOk result (λ d. user_action_view d ≡ shared_user_view self) }
    {
        let SharedUserActionFnDefn {
            arg_patterns,
            arg_types,
            code,
        } = self;
        let arg_types = copies_of(alloc, &arg_types)?;
        Ok(UserActionFnDefn {
            arg_patterns,
            arg_types,
            code,
        })
    }
}

/// A whole copy of each of the types.
fn copies_of(alloc: Global, types: &[SharedType]) -> Result<Vec<TypeRepr>, NoMemory>
    ensures { IfOk result (λ ts. map repr_view ts.items ≡ map shared_view types.now) }
{
    let mut copies = Vec::with_capacity(alloc, types.len())?;
    for ty in types {
        copies.push(ty.to_repr(alloc)?)?;
    }
    Ok(copies)
}
