//! Lowered types and where clauses, and how a parser is to be made.
ghost use Rattle.std.specs.Prelude.{◌≡◌, false};
ghost use Rattle.lalrpop_norm_tree_parts.specs.declared.lowered.LrCodeGeneration.TheVariants.{TableDriven};

mod bottom_up;
pub mod copy;
mod free;
mod make;
mod naming;
mod outlives;
mod show;

use crate::bound::TypeBound;
use crate::names::{Lifetime, TypeParameter};
use crate::path::Path;
use shared_text::Atom;

/// A Rust type of a lowered grammar: no name of it is left to be resolved.
#[cycle(repr)]
#[derive(PartialEq, Eq, PartialOrd, Ord, Drop)]
pub enum TypeRepr {
    /// `(A, B)`; `()` where the list is empty.
    Tuple(Vec<TypeRepr>),
    /// `[A]`.
    Slice(Box<TypeRepr>),
    /// `P<A, B>`.
    Nominal(NominalTypeRepr),
    /// `T::Id`.
    Associated {
        type_parameter: Atom,
        id: Atom,
    },
    /// `'a`, as an argument of a path.
    Lifetime(Lifetime),
    /// `&'a mut T`.
    Ref {
        lifetime: Option<Lifetime>,
        mutable: bool,
        referent: Box<TypeRepr>,
    },
    /// `dyn P<A>`.
    TraitObject(NominalTypeRepr),
    /// `dyn for<'a> P(A, B) -> R`.
    Fn {
        forall: Vec<TypeParameter>,
        path: Path,
        parameters: Vec<TypeRepr>,
        ret: Option<Box<TypeRepr>>,
    },
}

/// A path with its arguments, as `a::B<'a, T>`.
#[cycle(repr)]
#[derive(PartialEq, Eq, PartialOrd, Ord, Drop)]
pub struct NominalTypeRepr {
    /// The path.
    pub path: Path,
    /// Its arguments, in order.
    pub types: Vec<TypeRepr>,
}

/// A lowered where clause: one bound of one subject.
#[derive(Debug, PartialEq, Eq, PartialOrd, Ord, Drop)]
pub enum WhereClause {
    /// `for<'a> C`.
    Forall {
        binder: Vec<TypeParameter>,
        clause: Box<WhereClause>,
    },
    /// `S: B`.
    Bound {
        subject: TypeRepr,
        bound: TypeBound<TypeRepr>,
    },
}

/// How the parser of a lowered grammar is to be made.
#[derive(Clone, Debug, PartialEq, Eq, Drop)]
pub struct Algorithm {
    /// Whether `LALR` is asked for.
    pub lalr: bool,
    /// What code is asked for.
    pub codegen: LrCodeGeneration,
}

impl Default for Algorithm {
    /// Not LALR, by tables.
    fn default() -> Algorithm
        ensures lalr { result.lalr ≡ false }
        ensures codegen { result.codegen ≡ TableDriven }
    {
        Algorithm {
            lalr: false,
            codegen: LrCodeGeneration::TableDriven,
        }
    }
}

/// What code the parser becomes.
#[derive(Clone, Debug, PartialEq, Eq, Drop)]
pub enum LrCodeGeneration {
    /// `table_driven`: tables, and one loop over them.
    TableDriven,
    /// `recursive_ascent`: a function for each state.
    RecursiveAscent,
    /// `test_all`: both, to compare them.
    TestAll,
}
