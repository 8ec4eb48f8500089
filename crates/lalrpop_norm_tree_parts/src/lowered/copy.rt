//! Copies of lowered types and where clauses.
ghost use Rattle.std.specs.Prelude.{◌≡◌, IfOk, option_map};
ghost use Rattle.lalrpop_norm_tree_parts.specs.Bounds.{bound_view};
ghost use Rattle.lalrpop_norm_tree_parts.specs.Reprs.{repr_view, applied_view, reprs_view, lowered_where_clause_view};

use super::{NominalTypeRepr, TypeRepr, WhereClause};
use crate::bound::TypeBound;
use crate::names::copy::copy_type_parameters;
use shared_text::NoMemory;
use std::alloc::AllocError;

impl Clone for TypeRepr {
    ghost is_clone = { λ a b. repr_view b ≡ repr_view a };

    fn clone(&self) -> Result<TypeRepr, AllocError> {
        copy_repr(self)
    }
}

impl Clone for NominalTypeRepr {
    ghost is_clone = { λ a b. applied_view b ≡ applied_view a };

    fn clone(&self) -> Result<NominalTypeRepr, AllocError> {
        copy_nominal(self)
    }
}

/// A copy of the type that is there. The only error is a failed allocation.
pub fn copy_of(ty: Option<&TypeRepr>) -> Result<Option<TypeRepr>, AllocError>
    ensures { IfOk result (λ o. option_map repr_view o ≡ option_map (λ t. repr_view t.now) ty.entry) }
{
    match ty {
        Some(ty) => Ok(Some(ty.clone()?)),
        None => Ok(None),
    }
}

#[cycle(copy)]
fn copy_repr(ty: &TypeRepr) -> Result<TypeRepr, AllocError>
    ensures { IfOk result (λ t. repr_view t ≡ repr_view ty.now) }
{
    match ty {
        TypeRepr::Tuple(types) => Ok(TypeRepr::Tuple(copy_reprs(types)?)),
        TypeRepr::Slice(inner) => Ok(TypeRepr::Slice(copy_boxed(inner)?)),
        TypeRepr::Nominal(nominal) => Ok(TypeRepr::Nominal(copy_nominal(nominal)?)),
        TypeRepr::Associated { type_parameter, id } => Ok(TypeRepr::Associated {
            type_parameter: type_parameter.clone()?,
            id: id.clone()?,
        }),
        TypeRepr::Lifetime(lifetime) => Ok(TypeRepr::Lifetime(lifetime.clone()?)),
        TypeRepr::Ref {
            lifetime,
            mutable,
            referent,
        } => Ok(TypeRepr::Ref {
            lifetime: lifetime.clone()?,
            mutable: *mutable,
            referent: copy_boxed(referent)?,
        }),
        TypeRepr::TraitObject(nominal) => Ok(TypeRepr::TraitObject(copy_nominal(nominal)?)),
        TypeRepr::Fn {
            forall,
            path,
            parameters,
            ret,
        } => Ok(TypeRepr::Fn {
            forall: copy_type_parameters(forall)?,
            path: path.clone()?,
            parameters: copy_reprs(parameters)?,
            ret: copy_return(ret)?,
        }),
    }
}

#[cycle(copy)]
fn copy_nominal(nominal: &NominalTypeRepr) -> Result<NominalTypeRepr, AllocError>
    ensures { IfOk result (λ n. applied_view n ≡ applied_view nominal.now) }
{
    let path = nominal.path.clone()?;
    let types = copy_reprs(&nominal.types)?;
    Ok(NominalTypeRepr { path, types })
}

#[cycle(copy)]
fn copy_boxed(ty: &Box<TypeRepr>) -> Result<Box<TypeRepr>, AllocError>
    ensures { IfOk result (λ b. repr_view b.value ≡ repr_view ty.now.value) }
{
    let copy = copy_repr(&**ty)?;
    Ok(Box::new(*Box::allocator(ty), copy)?)
}

#[cycle(copy)]
fn copy_return(ret: &Option<Box<TypeRepr>>) -> Result<Option<Box<TypeRepr>>, AllocError>
    ensures { IfOk result (λ r. option_map (λ b. repr_view b.value) r ≡ option_map (λ b. repr_view b.value) ret.now) }
{
    match ret {
        None => Ok(None),
        Some(inner) => Ok(Some(Box::new(*Box::allocator(inner), copy_repr(&**inner)?)?)),
    }
}

#[cycle(copy)]
fn copy_reprs(types: &Vec<TypeRepr>) -> Result<Vec<TypeRepr>, AllocError>
    ensures { IfOk result (λ ts. reprs_view ts.items ≡ reprs_view types.now.items) }
{
    let mut copies = Vec::with_capacity(*types.allocator(), types.len())?;
    for inner in types {
        copies.push(copy_repr(inner)?)?;
    }
    Ok(copies)
}

impl WhereClause {
    /// A copy. The only error is a failed allocation.
    pub fn clone(&self) -> Result<WhereClause, NoMemory>
        ensures { IfOk result (λ c. lowered_where_clause_view c ≡ lowered_where_clause_view self.now) }
    {
        copy_clause(self)
    }
}

#[cycle(copy_clause)]
fn copy_clause(clause: &WhereClause) -> Result<WhereClause, NoMemory>
    ensures { IfOk result (λ c. lowered_where_clause_view c ≡ lowered_where_clause_view clause.now) }
{
    match clause {
        WhereClause::Forall { binder, clause } => {
            let binder = copy_type_parameters(binder)?;
            let copy = copy_clause(&**clause)?;
            let clause = Box::new(*Box::allocator(clause), copy)?;
            Ok(WhereClause::Forall { binder, clause })
        }
        WhereClause::Bound { subject, bound } => {
            let subject = copy_repr(subject)?;
            let bound = copy_bound(bound)?;
            Ok(WhereClause::Bound { subject, bound })
        }
    }
}

fn copy_bound(bound: &TypeBound<TypeRepr>) -> Result<TypeBound<TypeRepr>, NoMemory>
    ensures { IfOk result (λ b. bound_view repr_view b ≡ bound_view repr_view bound.now) }
{
    Ok(bound.clone()?)
}
