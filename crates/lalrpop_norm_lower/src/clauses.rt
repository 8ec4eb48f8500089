//! `where` clauses, one for each bound.
ghost use Rattle.std.specs.Prelude.{◌≡◌, ◌++◌, IfOk, OnOk, flat_map, map};
ghost use Rattle.lalrpop_norm_tree_parts.specs.Bounds.{bound_view, lifetime_bound, where_clause_view};
ghost use Rattle.lalrpop_norm_tree_parts.specs.Reprs.{repr_view, lowered_where_clause_view, of_lifetime, has_bound};
ghost use Rattle.lalrpop_norm_tree.specs.LoweredTypes.{repr_of};
ghost use Rattle.lalrpop_norm_tree.specs.Types.{type_view};
ghost use Rattle.lalrpop_norm_lower.specs.Carried.{under, lowered_bound, lowered_clauses};

use lalrpop_norm_lower_steps::clauses::under;
use lalrpop_norm_repr::grammar::repr::{TypeRepr, WhereClause};
use lalrpop_norm_tree::grammar::parse_tree as pt;
use lalrpop_norm_tree::grammar::parse_tree::{
    Lifetime, NoMemory, TypeBound, TypeParameter, TypeRef,
};
use std::alloc::Global;

/// A clause for each bound of each `where` clause, its types lowered.
pub(crate) fn lowered_clauses(
    alloc: Global,
    clauses: &[pt::WhereClause<TypeRef>],
) -> Result<Vec<WhereClause>, NoMemory>
    ensures { IfOk result
        (λ cs. map lowered_where_clause_view cs.items ≡ flat_map lowered_clauses (map (where_clause_view type_view) clauses.now)) }
{
    let mut lowered = Vec::new(alloc);
    for clause in clauses {
        add_clauses(alloc, clause, &mut lowered)?;
    }
    Ok(lowered)
}

fn add_clauses(
    alloc: Global,
    clause: &pt::WhereClause<TypeRef>,
    lowered: &mut Vec<WhereClause>,
) -> Result<(), NoMemory>
    ensures { OnOk result (map lowered_where_clause_view lowered.new.items
        ≡ map lowered_where_clause_view lowered.old.items ++ lowered_clauses (where_clause_view type_view clause.now)) }
{
    match clause {
        pt::WhereClause::Lifetime { lifetime, bounds } => add_lifetimes(lifetime, bounds, lowered),
        pt::WhereClause::OfType { forall, ty, bounds } => {
            add_bounds(alloc, forall, ty, bounds, lowered)
        }
    }
}

fn add_lifetimes(
    lifetime: &Lifetime,
    bounds: &[Lifetime],
    lowered: &mut Vec<WhereClause>,
) -> Result<(), NoMemory>
    ensures { OnOk result (map lowered_where_clause_view lowered.new.items
        ≡ map lowered_where_clause_view lowered.old.items
        ++ map (λ m. has_bound (of_lifetime lifetime.now) (lifetime_bound m)) bounds.now) }
{
    for bound in bounds {
        lowered.push(outlives(lifetime, bound)?)?;
    }
    Ok(())
}

/// That a lifetime outlives another one.
fn outlives(lifetime: &Lifetime, bound: &Lifetime) -> Result<WhereClause, NoMemory>
    ensures { IfOk result (λ c. lowered_where_clause_view c ≡ has_bound (of_lifetime lifetime.now) (lifetime_bound bound.now)) }
{
    let lifetime = lifetime.clone()?;
    let bound = bound.clone()?;
    Ok(clause_of(TypeRepr::Lifetime(lifetime), TypeBound::Lifetime(bound)))
}

fn clause_of(subject: TypeRepr, bound: TypeBound<TypeRepr>) -> WhereClause
    ensures { lowered_where_clause_view result ≡ has_bound (repr_view subject) (bound_view repr_view bound) }
{
    WhereClause::Bound { subject, bound }
}

fn add_bounds(
    alloc: Global,
    forall: &Vec<TypeParameter>,
    ty: &TypeRef,
    bounds: &[TypeBound<TypeRef>],
    lowered: &mut Vec<WhereClause>,
) -> Result<(), NoMemory>
    ensures { OnOk result (map lowered_where_clause_view lowered.new.items
        ≡ map lowered_where_clause_view lowered.old.items
        ++ map (λ b. under forall.now.items (has_bound (repr_of (type_view ty.now)) (lowered_bound b)))
        (map (bound_view type_view) bounds.now)) }
{
    for bound in bounds {
        lowered.push(clause_under(alloc, forall, ty, bound)?)?;
    }
    Ok(())
}

/// The clause of one bound, under its `for<..>` if there is one.
fn clause_under(
    alloc: Global,
    forall: &Vec<TypeParameter>,
    ty: &TypeRef,
    bound: &TypeBound<TypeRef>,
) -> Result<WhereClause, NoMemory>
    ensures { IfOk result (λ c. lowered_where_clause_view c
        ≡ under forall.now.items (has_bound (repr_of (type_view ty.now)) (lowered_bound (bound_view type_view bound.now)))) }
{
    under(alloc, forall, plain_clause(alloc, ty, bound)?)
}

/// The clause of one bound, without a `for<..>`.
fn plain_clause(
    alloc: Global,
    ty: &TypeRef,
    bound: &TypeBound<TypeRef>,
) -> Result<WhereClause, NoMemory>
    ensures { IfOk result
        (λ c. lowered_where_clause_view c ≡ has_bound (repr_of (type_view ty.now)) (lowered_bound (bound_view type_view bound.now))) }
{
    let subject = ty.lowered(alloc)?;
    Ok(clause_of(subject, lowered_bound(alloc, bound)?))
}

fn lowered_bound(alloc: Global, bound: &TypeBound<TypeRef>) -> Result<TypeBound<TypeRepr>, NoMemory>
    ensures { IfOk result (λ b. bound_view repr_view b ≡ lowered_bound (bound_view type_view bound.now)) }
{
    bound.map(&mut |ty: &TypeRef| ty.lowered(alloc))
}
