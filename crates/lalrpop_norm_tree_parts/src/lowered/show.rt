//! The texts of lowered types and where clauses.
ghost use Rattle.std.specs.Prelude.{Some, codes, ◌++◌};
ghost use Rattle.std.specs.Fmt.{WritesOnOk};
ghost use Rattle.lalrpop_norm_tree_parts.specs.Bounds.{bound_view};
ghost use Rattle.lalrpop_norm_tree_parts.specs.LoweredTexts.{binder_text, lowered_bound_text, lowered_clause_text};
ghost use Rattle.lalrpop_norm_tree_parts.specs.Reprs.{repr_view, applied_view, lowered_where_clause_view};
ghost use Rattle.lalrpop_norm_tree_parts.specs.TypeTexts.{repr_text, applied_text, reference_text};

use super::{NominalTypeRepr, TypeRepr, WhereClause};
use crate::bound::TypeBound;
use crate::names::show::{show_binder, show_reference};
use crate::names::{Lifetime, TypeParameter};
use crate::path::show::show_signature;
use crate::show::{show_angled, show_between, show_return};
use shared_text::Atom;
use std::fmt;

impl fmt::Display for TypeRepr {
    ghost output = { λ t. Some (repr_text (repr_view t)) };

    #[cycle(show)]
    fn fmt<W: fmt::Write>(&self, f: &mut fmt::Formatter<W>) -> fmt::Result {
        match self {
            TypeRepr::Tuple(types) => show_between(types, f),
            TypeRepr::Slice(inner) => show_slice(&**inner, f),
            TypeRepr::Nominal(nominal) => fmt::Display::fmt(nominal, f),
            TypeRepr::Associated { type_parameter, id } => {
                show_associated(type_parameter, id, f)
            }
            TypeRepr::Lifetime(lifetime) => fmt::Display::fmt(lifetime, f),
            TypeRepr::Ref {
                lifetime,
                mutable,
                referent,
            } => show_referent(lifetime, *mutable, &**referent, f),
            TypeRepr::TraitObject(nominal) => show_trait_object(nominal, f),
            TypeRepr::Fn {
                forall,
                path,
                parameters,
                ret,
            } => {
                show_signature(forall, path, parameters, f)?;
                show_return(ret, f)
            }
        }
    }
}

impl fmt::Display for NominalTypeRepr {
    ghost output = { λ n. Some (applied_text (applied_view n)) };

    #[cycle(show)]
    fn fmt<W: fmt::Write>(&self, f: &mut fmt::Formatter<W>) -> fmt::Result {
        fmt::Display::fmt(&self.path, f)?;
        show_angled(&self.types, f)
    }
}

/// `[T]`.
#[cycle(show)]
fn show_slice<W: fmt::Write>(inner: &TypeRepr, f: &mut fmt::Formatter<W>) -> fmt::Result
    ensures { WritesOnOk W.write_str_gives f.old result
        (codes "[" ++ repr_text (repr_view inner.now) ++ codes "]") f.new }
{
    f.write_str("[")?;
    fmt::Display::fmt(inner, f)?;
    f.write_str("]")
}

/// `&'a mut T`.
#[cycle(show)]
fn show_referent<W: fmt::Write>(
    lifetime: &Option<Lifetime>,
    mutable: bool,
    referent: &TypeRepr,
    f: &mut fmt::Formatter<W>,
) -> fmt::Result
    ensures { WritesOnOk W.write_str_gives f.old result
        (reference_text lifetime.now mutable ++ repr_text (repr_view referent.now)) f.new }
{
    show_reference(lifetime, mutable, f)?;
    fmt::Display::fmt(referent, f)
}

/// `dyn P<A, B>`.
#[cycle(show)]
fn show_trait_object<W: fmt::Write>(
    nominal: &NominalTypeRepr,
    f: &mut fmt::Formatter<W>,
) -> fmt::Result
    ensures { WritesOnOk W.write_str_gives f.old result
        (codes "dyn " ++ applied_text (applied_view nominal.now)) f.new }
{
    f.write_str("dyn ")?;
    fmt::Display::fmt(nominal, f)
}

/// `T::Id`.
fn show_associated<W: fmt::Write>(
    type_parameter: &Atom,
    id: &Atom,
    f: &mut fmt::Formatter<W>,
) -> fmt::Result
    ensures { WritesOnOk W.write_str_gives f.old result
        (type_parameter.now ++ codes "::" ++ id.now) f.new }
{
    fmt::Display::fmt(type_parameter, f)?;
    f.write_str("::")?;
    fmt::Display::fmt(id, f)
}

impl fmt::Debug for TypeRepr {
    ghost debug_output = { λ t. Some (repr_text (repr_view t)) };

    fn fmt<W: fmt::Write>(&self, f: &mut fmt::Formatter<W>) -> fmt::Result {
        fmt::Display::fmt(self, f)
    }
}

impl fmt::Debug for NominalTypeRepr {
    ghost debug_output = { λ n. Some (applied_text (applied_view n)) };

    fn fmt<W: fmt::Write>(&self, f: &mut fmt::Formatter<W>) -> fmt::Result {
        fmt::Display::fmt(self, f)
    }
}

impl fmt::Display for WhereClause {
    ghost output = { λ w. Some (lowered_clause_text (lowered_where_clause_view w)) };

    #[cycle(show_clause)]
    fn fmt<W: fmt::Write>(&self, f: &mut fmt::Formatter<W>) -> fmt::Result {
        match self {
            WhereClause::Forall { binder, clause } => show_quantified(binder, &**clause, f),
            WhereClause::Bound { subject, bound } => show_claim(subject, bound, f),
        }
    }
}

/// `for<'a> C`.
#[cycle(show_clause)]
fn show_quantified<W: fmt::Write>(
    binder: &Vec<TypeParameter>,
    clause: &WhereClause,
    f: &mut fmt::Formatter<W>,
) -> fmt::Result
    ensures { WritesOnOk W.write_str_gives f.old result
        (binder_text binder.now.items ++ lowered_clause_text (lowered_where_clause_view clause.now)) f.new }
{
    show_binder(binder, f)?;
    fmt::Display::fmt(clause, f)
}

/// `S: B`.
fn show_claim<W: fmt::Write>(
    subject: &TypeRepr,
    bound: &TypeBound<TypeRepr>,
    f: &mut fmt::Formatter<W>,
) -> fmt::Result
    ensures { WritesOnOk W.write_str_gives f.old result
        (repr_text (repr_view subject.now) ++ codes ": " ++ lowered_bound_text (bound_view repr_view bound.now)) f.new }
{
    fmt::Display::fmt(subject, f)?;
    f.write_str(": ")?;
    show_bound(bound, f)
}

/// The text of a bound, which is known since those of its types are.
fn show_bound<W: fmt::Write>(bound: &TypeBound<TypeRepr>, f: &mut fmt::Formatter<W>) -> fmt::Result
    ensures { WritesOnOk W.write_str_gives f.old result
        (lowered_bound_text (bound_view repr_view bound.now)) f.new }
{
    fmt::Display::fmt(bound, f)
}
