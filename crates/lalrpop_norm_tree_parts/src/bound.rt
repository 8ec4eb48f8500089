//! Where clauses and their bounds, over written or lowered types.
mod copy;
mod map;
mod show;

use crate::names::{Lifetime, TypeParameter};
use crate::path::Path;
use shared_text::Atom;

/// A written where clause.
#[derive(Debug, PartialEq, Eq, PartialOrd, Ord, Drop)]
pub enum WhereClause<T> {
    /// `'a: 'b + 'c`.
    Lifetime {
        lifetime: Lifetime,
        bounds: Vec<Lifetime>,
    },
    /// `for<'a> T: B + C`.
    OfType {
        forall: Vec<TypeParameter>,
        ty: T,
        bounds: Vec<TypeBound<T>>,
    },
}

/// What a where clause asks of a type.
#[derive(Debug, PartialEq, Eq, PartialOrd, Ord, Drop)]
pub enum TypeBound<T> {
    /// The `'a` of `T: 'a`.
    Lifetime(Lifetime),
    /// `for<'a> P(A, B) -> R`.
    Fn {
        forall: Vec<TypeParameter>,
        path: Path,
        parameters: Vec<T>,
        ret: Option<T>,
    },
    /// `for<'a> P<'a, A, Item = B>`.
    Trait {
        forall: Vec<TypeParameter>,
        path: Path,
        parameters: Vec<TypeBoundParameter<T>>,
    },
}

/// An argument of a trait in a bound.
#[derive(Debug, PartialEq, Eq, PartialOrd, Ord, Drop)]
pub enum TypeBoundParameter<T> {
    /// `'a`.
    Lifetime(Lifetime),
    /// `T`.
    TypeParameter(T),
    /// `Item = T`.
    Associated(Atom, T),
}
