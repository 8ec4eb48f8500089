//! Names for the anonymous lifetimes of lowered types.
ghost use Rattle.std.specs.Prelude.{◌≡◌, List, IfOk, Some};
ghost use Rattle.lalrpop_norm_tree_names.specs.NewLifetimes.{BeginsWith};
ghost use Rattle.lalrpop_norm_tree_parts.specs.LifetimeNames.{scope_of, lifetime_named, named, named_here};
ghost use Rattle.lalrpop_norm_tree_parts.specs.Reprs.{repr_view};

use super::outlives::add_outlives;
use super::{TypeRepr, WhereClause};
use crate::names::{Lifetime, TypeParameter};
use lalrpop_norm_tree_names::lifetimes::{lifetime_or_new, new_lifetime};
use shared_text::NoMemory;
use std::alloc::Global;

impl TypeRepr {
    /// The type with a name for each anonymous lifetime: a reference without a lifetime, and a type that is the lifetime `'_`, get `'`,
    /// the prefix and the number of parameters there are, which is one more parameter. Each parameter that is free in the referent of
    /// a reference is then said to outlive its lifetime, at most once. All this at each type after its parts, from left to right.
    /// The only error is a failed allocation; both lists then begin with what they held.
    pub fn name_anonymous_lifetimes_and_compute_implied_outlives(
        &self,
        alloc: Global,
        prefix: &str,
        type_parameters: &mut Vec<TypeParameter>,
        where_clauses: &mut Vec<WhereClause>,
    ) -> Result<TypeRepr, NoMemory>
        ensures named { IfOk result (λ t. (repr_view t, scope_of type_parameters.new.items where_clauses.new.items)
            ≡ named prefix.now (repr_view self.now) (scope_of type_parameters.old.items where_clauses.old.items)) }
        ensures parameters { BeginsWith type_parameters.new.items type_parameters.old.items }
        ensures clauses { BeginsWith where_clauses.new.items where_clauses.old.items }
    {
        let mut name = |ty: TypeRepr|
            ensures named { IfOk result (λ t. (repr_view t, scope_of type_parameters.exit.now.items where_clauses.exit.now.items)
                ≡ named_here prefix.entry.now (repr_view ty) (scope_of type_parameters.entry.now.items where_clauses.entry.now.items)) }
            ensures parameters { BeginsWith type_parameters.exit.now.items type_parameters.entry.now.items }
            ensures clauses { BeginsWith where_clauses.exit.now.items where_clauses.entry.now.items }
            ensures prefix { prefix.exit.now ≡ prefix.entry.now }
        { name_here(ty, alloc, prefix, type_parameters, where_clauses) };
        self.bottom_up(alloc, &mut name)
    }
}

/// The type, where its parts have their names: a reference and a lifetime get one where they have none.
fn name_here(
    ty: TypeRepr,
    alloc: Global,
    prefix: &str,
    parameters: &mut Vec<TypeParameter>,
    clauses: &mut Vec<WhereClause>,
) -> Result<TypeRepr, NoMemory>
    ensures named { IfOk result (λ t. (repr_view t, scope_of parameters.new.items clauses.new.items)
        ≡ named_here prefix.now (repr_view ty) (scope_of parameters.old.items clauses.old.items)) }
    ensures parameters { BeginsWith parameters.new.items parameters.old.items }
    ensures clauses { BeginsWith clauses.new.items clauses.old.items }
{
    match ty {
        TypeRepr::Lifetime(lifetime) => name_lifetime(lifetime, alloc, prefix, parameters),
        TypeRepr::Ref {
            lifetime,
            mutable,
            referent,
        } => {
            let lifetime = lifetime_or_new(lifetime, alloc, prefix, parameters)?;
            add_outlives(alloc, &referent, &lifetime, parameters, clauses)?;
            Ok(TypeRepr::Ref {
                lifetime: Some(lifetime),
                mutable,
                referent,
            })
        }
        TypeRepr::Tuple(_)
        | TypeRepr::Slice(_)
        | TypeRepr::Nominal(_)
        | TypeRepr::Associated { .. }
        | TypeRepr::TraitObject(_)
        | TypeRepr::Fn { .. } => Ok(ty),
    }
}

/// A lifetime as a type: `'_` gets a name.
fn name_lifetime(
    lifetime: Lifetime,
    alloc: Global,
    prefix: &str,
    parameters: &mut Vec<TypeParameter>,
) -> Result<TypeRepr, NoMemory>
    ensures named { IfOk result (λ t. (cs : List WhereClause) → (repr_view t, scope_of parameters.new.items cs)
        ≡ lifetime_named prefix.now lifetime (scope_of parameters.old.items cs)) }
    ensures begins { BeginsWith parameters.new.items parameters.old.items }
{
    if lifetime.is_anonymous() {
        Ok(TypeRepr::Lifetime(new_lifetime(alloc, prefix, parameters)?))
    } else {
        Ok(TypeRepr::Lifetime(lifetime))
    }
}
