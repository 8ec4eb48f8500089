//! Lowered types that share their parts: a copy of one is one more owner of it.
ghost use Rattle.std.specs.Prelude.{◌≡◌, ◌↔◌, IfOk, IsTrue};
ghost use Rattle.lalrpop_norm_tree_parts.specs.Reprs.{tuple, no_reprs};
ghost use Rattle.lalrpop_norm_shared_types.specs.Shared.{shared_view, node_view};

mod copy;
mod release;
mod share;
mod show;

use lalrpop_norm_tree::grammar::parse_tree::{Atom, Lifetime, NoMemory, Path, TypeParameter};
use release::release_all;
use std::alloc::{AllocError, Global};
use std::rc::Rc;

/// A lowered type. A copy shares its parts with it.
#[cycle(shared)]
pub struct SharedType {
    /// Its outermost level.
    pub node: Rc<TypeNode>,
}

/// One level of a lowered type. The variants are those of `TypeRepr`.
#[cycle(shared)]
pub enum TypeNode {
    /// `(A, B)`; `()` where the list is empty.
    Tuple(Vec<SharedType>),
    /// `[A]`.
    Slice(SharedType),
    /// `P<A, B>`.
    Nominal(AppliedPath),
    /// `T::Id`.
    Associated {
        type_parameter: Atom,
        id: Atom,
    },
    /// `'a`, as an argument of a path.
    Lifetime(Lifetime),
    /// `&'a mut T`.
    Ref {
        lifetime: Option<Lifetime>,
        mutable: bool,
        referent: SharedType,
    },
    /// `dyn P<A>`.
    TraitObject(AppliedPath),
    /// `dyn for<'a> P(A, B) -> R`.
    Fn {
        forall: Vec<TypeParameter>,
        path: Path,
        parameters: Vec<SharedType>,
        ret: Option<SharedType>,
    },
}

/// A path with its arguments, as `a::B<'a, T>`.
#[cycle(shared)]
pub struct AppliedPath {
    /// The path.
    pub path: Path,
    /// Its arguments, in order.
    pub types: Vec<SharedType>,
}

// The drop of a derived type is proved anew in each crate in which a value of it is dropped; these are proved here.
impl Drop for SharedType {
    #[cycle(release)]
    fn drop(self) {
        if let Some(listed) = self.into_listed() {
            let (types, ret) = listed;
            release_all(types, ret);
        }
    }
}

impl Drop for TypeNode {
    fn drop(self) {
        match self {
            TypeNode::Tuple(_types) => {}
            TypeNode::Slice(_inner) => {}
            TypeNode::Nominal(_nominal) => {}
            TypeNode::Associated {
                type_parameter: _type_parameter,
                id: _id,
            } => {}
            TypeNode::Lifetime(_lifetime) => {}
            TypeNode::Ref {
                lifetime: _lifetime,
                mutable: _mutable,
                referent: _referent,
            } => {}
            TypeNode::TraitObject(_nominal) => {}
            TypeNode::Fn {
                forall: _forall,
                path: _path,
                parameters: _parameters,
                ret: _ret,
            } => {}
        }
    }
}

impl Drop for AppliedPath {
    fn drop(self) {
        let AppliedPath {
            path: _path,
            types: _types,
        } = self;
    }
}

impl SharedType {
    /// The type of that one level. The only error is a failed allocation.
    pub fn new(alloc: Global, node: TypeNode) -> Result<SharedType, NoMemory>
        ensures { IfOk result (λ t. shared_view t ≡ node_view node) }
    {
        Ok(SharedType {
            node: Rc::new(alloc, node)?,
        })
    }

    /// Its outermost level.
    pub fn node(&self) -> &TypeNode
        ensures { node_view result.now ≡ shared_view self.now }
    {
        &self.node
    }

    /// Whether it is the tuple of no types.
    pub fn is_unit(&self) -> bool
        ensures { IsTrue result ↔ (shared_view self.now ≡ tuple no_reprs) }
    {
        match &*self.node {
            TypeNode::Tuple(types) => types.is_empty(),
            TypeNode::Slice(_)
            | TypeNode::Nominal(_)
            | TypeNode::Associated { .. }
            | TypeNode::Lifetime(_)
            | TypeNode::Ref { .. }
            | TypeNode::TraitObject(_)
            | TypeNode::Fn { .. } => false,
        }
    }
}

/// The copy is one more owner. The only error is a count of owners that is full.
impl Clone for SharedType {
    ghost is_clone = { λ a b. shared_view b ≡ shared_view a };

    fn clone(&self) -> Result<SharedType, AllocError> {
        Ok(SharedType {
            node: self.node.clone()?,
        })
    }
}
