//! Copies of where clauses and bounds.
ghost use Rattle.std.specs.Prelude.{◌≡◌, IfOk, map};
ghost use Rattle.std.specs.List.{AllZip};
ghost use Rattle.lalrpop_norm_tree_parts.specs.Bounds.{bound_parameter_view, bound_view, where_clause_view, SameOption, SameBoundParameter};
ghost use Rattle.lalrpop_norm_tree_parts.specs.Bounds.{SameBound, SameWhereClause};

use super::{TypeBound, TypeBoundParameter, WhereClause};
use crate::names::Lifetime;
use crate::names::copy::copy_type_parameters;
use shared_text::NoMemory;
use std::alloc::{AllocError, Global};

impl<T: Clone> WhereClause<T> {
    /// A copy, with a clone of each T. The only error is a failed allocation.
    pub fn clone(&self) -> Result<WhereClause<T>, NoMemory>
        ensures { IfOk result (λ c. SameWhereClause T.is_clone (where_clause_view (λ t. t) self.now) (where_clause_view (λ t. t) c)) }
    {
        Ok(copy_clause(self)?)
    }
}

impl<T: Clone> TypeBound<T> {
    /// A copy, with a clone of each T. The only error is a failed allocation.
    pub fn clone(&self) -> Result<TypeBound<T>, NoMemory>
        ensures { IfOk result (λ b. SameBound T.is_clone (bound_view (λ t. t) self.now) (bound_view (λ t. t) b)) }
    {
        Ok(copy_bound(self)?)
    }
}

impl<T: Clone> TypeBoundParameter<T> {
    /// A copy, with a clone of each T. The only error is a failed allocation.
    pub fn clone(&self) -> Result<TypeBoundParameter<T>, NoMemory>
        ensures { IfOk result
            (λ p. SameBoundParameter T.is_clone (bound_parameter_view (λ t. t) self.now) (bound_parameter_view (λ t. t) p)) }
    {
        Ok(copy_parameter(self)?)
    }
}

fn copy_clause<T: Clone>(clause: &WhereClause<T>) -> Result<WhereClause<T>, AllocError>
    ensures { IfOk result (λ c. SameWhereClause T.is_clone (where_clause_view (λ t. t) clause.now) (where_clause_view (λ t. t) c)) }
{
    match clause {
        WhereClause::Lifetime { lifetime, bounds } => {
            let lifetime = lifetime.clone()?;
            let bounds = copy_lifetimes(bounds)?;
            Ok(WhereClause::Lifetime { lifetime, bounds })
        }
        WhereClause::OfType { forall, ty, bounds } => {
            let forall = copy_type_parameters(forall)?;
            let ty = ty.clone()?;
            let bounds = copy_bounds(*bounds.allocator(), bounds)?;
            Ok(WhereClause::OfType { forall, ty, bounds })
        }
    }
}

fn copy_bound<T: Clone>(bound: &TypeBound<T>) -> Result<TypeBound<T>, AllocError>
    ensures { IfOk result (λ b. SameBound T.is_clone (bound_view (λ t. t) bound.now) (bound_view (λ t. t) b)) }
{
    match bound {
        TypeBound::Lifetime(lifetime) => Ok(TypeBound::Lifetime(lifetime.clone()?)),
        TypeBound::Fn {
            forall,
            path,
            parameters,
            ret,
        } => {
            let forall = copy_type_parameters(forall)?;
            let path = path.clone()?;
            let parameters = copy_types(parameters)?;
            let ret = copy_result(ret)?;
            Ok(TypeBound::Fn {
                forall,
                path,
                parameters,
                ret,
            })
        }
        TypeBound::Trait {
            forall,
            path,
            parameters,
        } => {
            let forall = copy_type_parameters(forall)?;
            let path = path.clone()?;
            let parameters = copy_parameters(*parameters.allocator(), parameters)?;
            Ok(TypeBound::Trait {
                forall,
                path,
                parameters,
            })
        }
    }
}

fn copy_parameter<T: Clone>(
    parameter: &TypeBoundParameter<T>,
) -> Result<TypeBoundParameter<T>, AllocError>
    ensures { IfOk result
        (λ p. SameBoundParameter T.is_clone (bound_parameter_view (λ t. t) parameter.now) (bound_parameter_view (λ t. t) p)) }
{
    match parameter {
        TypeBoundParameter::Lifetime(lifetime) => Ok(TypeBoundParameter::Lifetime(
            lifetime.clone()?,
        )),
        TypeBoundParameter::TypeParameter(ty) => Ok(TypeBoundParameter::TypeParameter(ty.clone()?)),
        TypeBoundParameter::Associated(id, ty) => {
            let id = id.clone()?;
            Ok(TypeBoundParameter::Associated(id, ty.clone()?))
        }
    }
}

#[tactic(auto, using(std::proofs::lemmas::List::Elements::same_from_all_zip))]
fn copy_lifetimes(lifetimes: &Vec<Lifetime>) -> Result<Vec<Lifetime>, AllocError>
    ensures { IfOk result (λ ls. ls.items ≡ lifetimes.now.items) }
{
    Ok(lifetimes.clone()?)
}

fn copy_result<T: Clone>(ret: &Option<T>) -> Result<Option<T>, AllocError>
    ensures { IfOk result (λ r. SameOption T.is_clone ret.now r) }
{
    match ret {
        None => Ok(None),
        Some(ty) => Ok(Some(ty.clone()?)),
    }
}

#[tactic(auto, using(lalrpop_norm_tree_names::proofs::ListLemmas::map_same))]
fn copy_types<T: Clone>(types: &Vec<T>) -> Result<Vec<T>, AllocError>
    ensures { IfOk result (λ ts. AllZip T.is_clone (map (λ t. t) types.now.items) (map (λ t. t) ts.items)) }
{
    Ok(types.clone()?)
}

fn copy_bounds<T: Clone>(
    alloc: Global,
    bounds: &[TypeBound<T>],
) -> Result<Vec<TypeBound<T>>, AllocError>
    ensures { IfOk result
        (λ bs. AllZip (SameBound T.is_clone) (map (bound_view (λ t. t)) bounds.now) (map (bound_view (λ t. t)) bs.items)) }
{
    let mut copies = Vec::new(alloc);
    for bound in bounds {
        copies.push(copy_bound(bound)?)?;
    }
    Ok(copies)
}

fn copy_parameters<T: Clone>(
    alloc: Global,
    parameters: &[TypeBoundParameter<T>],
) -> Result<Vec<TypeBoundParameter<T>>, AllocError>
    ensures { IfOk result (λ ps. AllZip (SameBoundParameter T.is_clone) (map (bound_parameter_view (λ t. t)) parameters.now)
        (map (bound_parameter_view (λ t. t)) ps.items)) }
{
    let mut copies = Vec::new(alloc);
    for parameter in parameters {
        copies.push(copy_parameter(parameter)?)?;
    }
    Ok(copies)
}
