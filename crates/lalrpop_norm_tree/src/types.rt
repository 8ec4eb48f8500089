//! Written types.
pub(crate) mod copy;
pub(crate) mod repr;
mod show;

use crate::symbol::SymbolKind;
use lalrpop_norm_tree_parts::names::{Lifetime, TypeParameter};
use lalrpop_norm_tree_parts::path::Path;
use shared_text::Atom;

/// A Rust type as a grammar writes it.
#[derive(Debug, PartialEq, Eq)]
pub enum TypeRef {
    /// `(A, B)`; `()` where the list is empty.
    Tuple(Vec<TypeRef>),
    /// `[A]`.
    Slice(Box<TypeRef>),
    /// `a::B<'a, T>`.
    Nominal {
        path: Path,
        types: Vec<TypeRef>,
    },
    /// `&'a mut T`.
    Ref {
        lifetime: Option<Lifetime>,
        mutable: bool,
        referent: Box<TypeRef>,
    },
    /// `dyn B<T>`.
    TraitObject {
        path: Path,
        types: Vec<TypeRef>,
    },
    /// `'a`, as an argument of a path.
    Lifetime(Lifetime),
    /// A single name; in a macro it may name an argument.
    Id(Atom),
    /// The type of a symbol. Macro expansion makes it; an error where it is written (F23).
    OfSymbol(SymbolKind),
    /// `dyn for<'a> P(A, B) -> R`.
    Fn {
        forall: Vec<TypeParameter>,
        path: Path,
        parameters: Vec<TypeRef>,
        ret: Option<Box<TypeRef>>,
    },
}

/// A parameter of a grammar, as `input: &'input str`.
#[derive(Debug, PartialEq, Eq)]
pub struct Parameter {
    /// Its name.
    pub name: Atom,
    /// Its type.
    pub ty: TypeRef,
}

// ---- releases

// The drop of a derived type is proved anew in each crate in which a value of it is dropped; these are proved here.
impl Drop for TypeRef {
    fn drop(self) {
        match self {
            TypeRef::Tuple(_types) => {}
            TypeRef::Slice(_element) => {}
            TypeRef::Nominal {
                path: _path,
                types: _types,
            } => {}
            TypeRef::Ref {
                lifetime: _lifetime,
                mutable: _mutable,
                referent: _referent,
            } => {}
            TypeRef::TraitObject {
                path: _path,
                types: _types,
            } => {}
            TypeRef::Lifetime(_lifetime) => {}
            TypeRef::Id(_name) => {}
            TypeRef::OfSymbol(_kind) => {}
            TypeRef::Fn {
                forall: _forall,
                path: _path,
                parameters: _parameters,
                ret: _ret,
            } => {}
        }
    }
}

impl Drop for Parameter {
    fn drop(self) {
        let Parameter {
            name: _name,
            ty: _ty,
        } = self;
    }
}
