//! How types that share their parts go: by a list of what is left, so that the stack does not grow with the depth of a type.
ghost use Rattle.std.specs.Prelude.{◌≡◌, ◌+◌, ◌<◌, ◌≤◌, IfSome};
ghost use denote.Param.Weighed.{most};
ghost use Rattle.lalrpop_norm_shared_types.specs.declared.shared.TypeNode.TheViews.{size-AppliedPath, size-SharedType, size-TypeNode};
ghost use Rattle.lalrpop_norm_shared_types.specs.Depths.{deepest, inside_depth};
ghost use Rattle.lalrpop_norm_shared_types.specs.Shared.{shared_view, node_view, applied_path_view};
ghost use Rattle.lalrpop_norm_shared_types.specs.Weights.{weight, weights, all_weights, inside_weight};

use super::{AppliedPath, SharedType, TypeNode};
use std::rc::Rc;

/// Lets the types go, and all in them that nothing else has. Where no memory is left for the list, what is missing in it goes level
/// by level.
#[cycle(release)]
#[tactic(auto, using(crate::proofs::WeightSums::joined, crate::proofs::WeightSums::pushed))]
pub(super) fn release_all(types: Vec<SharedType>, ret: Option<SharedType>) {
    let mut pending = types;
    let mut next = ret;
    loop {
        let ty = match next {
            Some(ty) => ty,
            None => match pending.pop() {
                Some(ty) => ty,
                None => return,
            },
        };
        match ty.into_inside() {
            Inside::Nothing => next = None,
            Inside::One(inner) => next = Some(inner),
            Inside::Listed(mut types, ret) => {
                let _added = pending.append(&mut types);
                next = ret;
            }
        }
    }
}

/// The types in a level that nothing else has.
pub(super) enum Inside {
    Nothing,
    One(SharedType),
    /// A list of types, and the result of a function.
    Listed(Vec<SharedType>, Option<SharedType>),
}

impl SharedType {
    /// The list of types in the first of its levels that has one, if nothing else has that level.
    pub(super) fn into_listed(mut self) -> Option<(Vec<SharedType>, Option<SharedType>)>
        ensures { IfSome result (λ l. deepest l.0.items l.1 + 1 < size-SharedType self) }
    {
        loop {
            match self.into_inside() {
                Inside::Nothing => return None,
                Inside::One(inner) => self = inner,
                Inside::Listed(types, ret) => return Some((types, ret)),
            }
        }
    }

    /// The types in its outermost level, if nothing else has that.
    pub(super) fn into_inside(self) -> Inside
        ensures lighter { inside_weight result < weight (shared_view self) }
        ensures shallower { inside_depth result + 1 < size-SharedType self }
    {
        let SharedType { node } = self;
        match Rc::into_inner(node) {
            Some(node) => node.into_inside(),
            None => Inside::Nothing,
        }
    }
}

impl TypeNode {
    /// The types in it.
    pub(super) fn into_inside(self) -> Inside
        ensures lighter { inside_weight result < weight (node_view self) }
        ensures shallower { inside_depth result < size-TypeNode self }
    {
        match self {
            TypeNode::Tuple(types) => Inside::Listed(types, None),
            TypeNode::Slice(inner) => Inside::One(inner),
            TypeNode::Nominal(nominal) => Inside::Listed(nominal.into_types(), None),
            TypeNode::Associated {
                type_parameter: _type_parameter,
                id: _id,
            } => Inside::Nothing,
            TypeNode::Lifetime(_lifetime) => Inside::Nothing,
            TypeNode::Ref {
                lifetime: _lifetime,
                mutable: _mutable,
                referent,
            } => Inside::One(referent),
            TypeNode::TraitObject(nominal) => Inside::Listed(nominal.into_types(), None),
            TypeNode::Fn {
                forall: _forall,
                path: _path,
                parameters,
                ret,
            } => Inside::Listed(parameters, ret),
        }
    }
}

impl AppliedPath {
    /// Its arguments.
    pub(super) fn into_types(self) -> Vec<SharedType>
        ensures weight { all_weights result.items ≡ weights (applied_path_view self).1 }
        ensures shallower { most size-SharedType result.items < size-AppliedPath self }
    {
        let AppliedPath { path: _path, types } = self;
        types
    }
}
