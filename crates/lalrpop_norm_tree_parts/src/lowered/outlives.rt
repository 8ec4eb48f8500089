//! Where clauses by which type parameters outlive a lifetime.
ghost use Rattle.std.specs.Prelude.{◌≡◌, ◌↔◌, ◌∷◌, ◌++◌, [], map, IfOk, OnOk, OnErr, IsTrue};
ghost use Rattle.std.specs.List.{list_any};
ghost use Rattle.lalrpop_norm_tree_parts.specs.Accessors.{single_name};
ghost use Rattle.lalrpop_norm_tree_parts.specs.FreeVariables.{free_in};
ghost use Rattle.lalrpop_norm_tree_names.specs.NewLifetimes.{BeginsWith};
ghost use Rattle.lalrpop_norm_tree_parts.specs.LifetimeNames.{is_name, is_outlives, is_parameter, outlives, with_outlives};
ghost use Rattle.lalrpop_norm_tree_parts.specs.Paths.{path_view};
ghost use Rattle.lalrpop_norm_tree_parts.specs.Reprs.{repr_view, applied_view, nominal, of_lifetime, lowered_where_clause_view};

use super::{NominalTypeRepr, TypeRepr, WhereClause};
use crate::bound::TypeBound;
use crate::names::{Lifetime, TypeParameter};
use crate::path::Path;
use shared_text::{Atom, NoMemory};
use std::alloc::Global;

/// Adds that each listed parameter that is free in the referent outlives the lifetime, where that is not said yet. The only error is
/// a failed allocation.
pub(super) fn add_outlives(
    alloc: Global,
    referent: &TypeRepr,
    lifetime: &Lifetime,
    listed: &[TypeParameter],
    clauses: &mut Vec<WhereClause>,
) -> Result<(), NoMemory>
    ensures added { OnOk result (map lowered_where_clause_view clauses.new.items
        ≡ with_outlives lifetime.now (map lowered_where_clause_view clauses.old.items) (free_in listed.now (repr_view referent.now))) }
    ensures begins { BeginsWith clauses.new.items clauses.old.items }
{
    let free = referent.free_variables(alloc, listed)?;
    add_each(alloc, &free, lifetime, clauses)
}

/// Adds that each of the parameters outlives the lifetime.
fn add_each(
    alloc: Global,
    parameters: &[TypeParameter],
    lifetime: &Lifetime,
    clauses: &mut Vec<WhereClause>,
) -> Result<(), NoMemory>
    ensures added { OnOk result (map lowered_where_clause_view clauses.new.items
        ≡ with_outlives lifetime.now (map lowered_where_clause_view clauses.old.items) parameters.now) }
    ensures begins { BeginsWith clauses.new.items clauses.old.items }
{
    for parameter in parameters {
        add_clause(alloc, parameter, lifetime, clauses)?;
    }
    Ok(())
}

/// Adds that the parameter outlives the lifetime, where that is not said yet.
fn add_clause(
    alloc: Global,
    parameter: &TypeParameter,
    lifetime: &Lifetime,
    clauses: &mut Vec<WhereClause>,
) -> Result<(), NoMemory>
    ensures added { OnOk result (map lowered_where_clause_view clauses.new.items
        ≡ with_outlives lifetime.now (map lowered_where_clause_view clauses.old.items) (parameter.now ∷ [])) }
    ensures begins { BeginsWith clauses.new.items clauses.old.items }
{
    if is_said(parameter, lifetime, clauses) {
        return Ok(());
    }
    let clause = new_clause(alloc, parameter, lifetime)?;
    append(clauses, clause)
}

/// One more at the end, or none where the allocation fails.
fn append<X: Drop>(all: &mut Vec<X>, one: X) -> Result<(), NoMemory>
    ensures added { OnOk result (all.new.items ≡ all.old.items ++ one ∷ []) }
    ensures kept { OnErr result (all.new.items ≡ all.old.items) }
{
    Ok(all.push(one)?)
}

/// `P: 'l`. The only error is a failed allocation.
fn new_clause(
    alloc: Global,
    parameter: &TypeParameter,
    lifetime: &Lifetime,
) -> Result<WhereClause, NoMemory>
    ensures { IfOk result (λ c. lowered_where_clause_view c ≡ outlives lifetime.now parameter.now) }
{
    let subject = TypeRepr::from_parameter(alloc, parameter)?;
    let bound = TypeBound::Lifetime(Lifetime(lifetime.0.again()));
    Ok(WhereClause::Bound { subject, bound })
}

/// Whether one of the clauses is `P: 'l`.
fn is_said(parameter: &TypeParameter, lifetime: &Lifetime, clauses: &[WhereClause]) -> bool
    ensures { result ≡ list_any (is_outlives lifetime.now parameter.now) (map lowered_where_clause_view clauses.now) }
{
    for clause in clauses {
        if says(clause, parameter, lifetime) {
            return true;
        }
    }
    false
}

/// Whether the clause is `P: 'l`.
fn says(clause: &WhereClause, parameter: &TypeParameter, lifetime: &Lifetime) -> bool
    ensures tested { result ≡ is_outlives lifetime.now parameter.now (lowered_where_clause_view clause.now) }
    ensures exact { IsTrue result ↔ (lowered_where_clause_view clause.now ≡ outlives lifetime.now parameter.now) }
{
    match clause {
        WhereClause::Forall { .. } => false,
        WhereClause::Bound { subject, bound } => match bound {
            TypeBound::Lifetime(other) => other.0 == lifetime.0 && stands_for(parameter, subject),
            TypeBound::Fn { .. } => false,
            TypeBound::Trait { .. } => false,
        },
    }
}

/// Whether the type is what the parameter stands for.
fn stands_for(parameter: &TypeParameter, ty: &TypeRepr) -> bool
    ensures { result ≡ is_parameter parameter.now (repr_view ty.now) }
{
    match ty {
        TypeRepr::Lifetime(lifetime) => is_lifetime(parameter, lifetime),
        TypeRepr::Nominal(applied) => is_id(parameter, applied),
        TypeRepr::Tuple(_)
        | TypeRepr::Slice(_)
        | TypeRepr::Associated { .. }
        | TypeRepr::Ref { .. }
        | TypeRepr::TraitObject(_)
        | TypeRepr::Fn { .. } => false,
    }
}

/// Whether the parameter is that lifetime.
fn is_lifetime(parameter: &TypeParameter, lifetime: &Lifetime) -> bool
    ensures { result ≡ is_parameter parameter.now (of_lifetime lifetime.now) }
{
    match parameter {
        TypeParameter::Lifetime(other) => lifetime.0 == other.0,
        TypeParameter::Id(_) => false,
    }
}

/// Whether the parameter is the name that the path is, without arguments.
fn is_id(parameter: &TypeParameter, applied: &NominalTypeRepr) -> bool
    ensures { result ≡ is_parameter parameter.now (nominal (applied_view applied.now).0 (applied_view applied.now).1) }
{
    match parameter {
        TypeParameter::Lifetime(_) => false,
        TypeParameter::Id(name) => applied.types.is_empty() && is_named(&applied.path, name),
    }
}

/// Whether the path is that one name.
fn is_named(path: &Path, name: &Atom) -> bool
    ensures { result ≡ is_name (single_name (path_view path.now)) name.now }
{
    match path.as_id() {
        None => false,
        Some(id) => id == name,
    }
}
