//! The parameters that lowered types speak of.
ghost use Rattle.std.specs.Prelude.{◌≡◌, ◌∷◌, ◌++◌, [], map, filter, not, IfOk, OnOk, option_map, option_to_list};
ghost use Rattle.lalrpop_norm_tree_parts.specs.FreeVariables.{is_parameter_among, met_in_type, met_in_path, met_in_all, met_in_return};
ghost use Rattle.lalrpop_norm_tree_parts.specs.FreeVariables.{with_parameters, free_in};
ghost use Rattle.lalrpop_norm_tree_parts.specs.Paths.{path_view};
ghost use Rattle.lalrpop_norm_tree_parts.specs.Reprs.{repr_view, reprs_view, applied_view, maybe_repr_of};

use super::{NominalTypeRepr, TypeRepr};
use crate::names::{Lifetime, TypeParameter};
use crate::path::Path;
use crate::walk::add;
use shared_text::NoMemory;
use std::alloc::Global;

impl TypeRepr {
    /// The listed parameters that occur free in the type, in reading order and each once, less those that a function type binds by its
    /// `for<..>`. A path counts by its name, if it is one part and not absolute, and then its arguments; an associated type by its
    /// type parameter; a reference by its lifetime, and then its referent. The only error is a failed allocation.
    pub fn free_variables(
        &self,
        alloc: Global,
        parameters: &[TypeParameter],
    ) -> Result<Vec<TypeParameter>, NoMemory>
        ensures { IfOk result (λ free. free.items ≡ free_in parameters.now (repr_view self.now)) }
    {
        let mut all = Vec::new(alloc);
        add_free(self, parameters, &mut all)?;
        Ok(all)
    }
}

/// Adds the listed parameters that occur free in the type and are not there yet, in reading order. The only error is a failed allocation.
#[cycle(free)]
fn add_free(
    ty: &TypeRepr,
    listed: &[TypeParameter],
    all: &mut Vec<TypeParameter>,
) -> Result<(), NoMemory>
    ensures { OnOk result (all.new.items
        ≡ with_parameters all.old.items (filter (is_parameter_among listed.now) (met_in_type (repr_view ty.now)))) }
{
    match ty {
        TypeRepr::Tuple(types) => add_free_of_all(types, listed, all),
        TypeRepr::Slice(inner) => add_free(&**inner, listed, all),
        TypeRepr::Nominal(nominal) => add_free_of_nominal(nominal, listed, all),
        TypeRepr::Associated { type_parameter, .. } => {
            add_listed(TypeParameter::Id(type_parameter.again()), listed, all)
        }
        TypeRepr::Lifetime(lifetime) => add_lifetime(lifetime, listed, all),
        TypeRepr::Ref {
            lifetime,
            referent,
            ..
        } => {
            add_maybe_lifetime(lifetime, listed, all)?;
            add_free(&**referent, listed, all)
        }
        TypeRepr::TraitObject(nominal) => add_free_of_nominal(nominal, listed, all),
        TypeRepr::Fn {
            forall,
            path,
            parameters,
            ret,
        } => {
            let unbound = less(listed, forall, *all.allocator())?;
            add_path(path, &unbound, all)?;
            add_free_of_all(parameters, &unbound, all)?;
            add_free_of_return(ret, &unbound, all)
        }
    }
}

/// Adds those that occur free in the types, from left to right.
#[cycle(free)]
fn add_free_of_all(
    types: &Vec<TypeRepr>,
    listed: &[TypeParameter],
    all: &mut Vec<TypeParameter>,
) -> Result<(), NoMemory>
    ensures { OnOk result (all.new.items
        ≡ with_parameters all.old.items (filter (is_parameter_among listed.now) (met_in_all (reprs_view types.now.items)))) }
{
    for ty in types {
        add_free(ty, listed, all)?;
    }
    Ok(())
}

/// Adds the one that the path means, and then those that occur free in its arguments.
#[cycle(free)]
fn add_free_of_nominal(
    nominal: &NominalTypeRepr,
    listed: &[TypeParameter],
    all: &mut Vec<TypeParameter>,
) -> Result<(), NoMemory>
    ensures { OnOk result (all.new.items ≡ with_parameters all.old.items
        (filter (is_parameter_among listed.now) (met_in_path (applied_view nominal.now).0 ++ met_in_all (applied_view nominal.now).1))) }
{
    add_path(&nominal.path, listed, all)?;
    add_free_of_all(&nominal.types, listed, all)
}

/// Adds those that occur free in the return type, where there is one.
#[cycle(free)]
fn add_free_of_return(
    ret: &Option<Box<TypeRepr>>,
    listed: &[TypeParameter],
    all: &mut Vec<TypeParameter>,
) -> Result<(), NoMemory>
    ensures { OnOk result (all.new.items ≡ with_parameters all.old.items
        (filter (is_parameter_among listed.now) (met_in_return (maybe_repr_of (option_map (λ b. repr_view b.value) ret.now))))) }
{
    match ret {
        None => Ok(()),
        Some(inner) => add_free(&**inner, listed, all),
    }
}

/// Adds the parameter that the path means by its name.
fn add_path(
    path: &Path,
    listed: &[TypeParameter],
    all: &mut Vec<TypeParameter>,
) -> Result<(), NoMemory>
    ensures { OnOk result (all.new.items
        ≡ with_parameters all.old.items (filter (is_parameter_among listed.now) (met_in_path (path_view path.now)))) }
{
    match path.as_id() {
        None => Ok(()),
        Some(name) => add_listed(TypeParameter::Id(name.again()), listed, all),
    }
}

/// Adds the lifetime of a reference, where it has one.
fn add_maybe_lifetime(
    lifetime: &Option<Lifetime>,
    listed: &[TypeParameter],
    all: &mut Vec<TypeParameter>,
) -> Result<(), NoMemory>
    ensures { OnOk result (all.new.items ≡ with_parameters all.old.items
        (filter (is_parameter_among listed.now) (map (λ l. TypeParameter.Lifetime l) (option_to_list lifetime.now)))) }
{
    match lifetime {
        None => Ok(()),
        Some(lifetime) => add_lifetime(lifetime, listed, all),
    }
}

/// Adds the lifetime.
fn add_lifetime(
    lifetime: &Lifetime,
    listed: &[TypeParameter],
    all: &mut Vec<TypeParameter>,
) -> Result<(), NoMemory>
    ensures { OnOk result (all.new.items
        ≡ with_parameters all.old.items (filter (is_parameter_among listed.now) (TypeParameter.Lifetime lifetime.now ∷ []))) }
{
    let lifetime = Lifetime(lifetime.0.again());
    add_listed(TypeParameter::Lifetime(lifetime), listed, all)
}

/// Adds the parameter, where it is listed and not there yet.
fn add_listed(
    parameter: TypeParameter,
    listed: &[TypeParameter],
    all: &mut Vec<TypeParameter>,
) -> Result<(), NoMemory>
    ensures { OnOk result (all.new.items ≡ with_parameters all.old.items (filter (is_parameter_among listed.now) (parameter ∷ []))) }
{
    if is_parameter_among(&parameter, listed) && !is_parameter_among(&parameter, all) {
        add(all, parameter)
    } else {
        Ok(())
    }
}

/// Whether the parameter is one of those.
fn is_parameter_among(parameter: &TypeParameter, listed: &[TypeParameter]) -> bool
    ensures { result ≡ is_parameter_among listed.now parameter.now }
{
    listed.contains(parameter)
}

/// The listed parameters that are not bound. The only error is a failed allocation.
fn less(
    listed: &[TypeParameter],
    bound: &Vec<TypeParameter>,
    alloc: Global,
) -> Result<Vec<TypeParameter>, NoMemory>
    ensures { IfOk result (λ ps. ps.items ≡ filter (λ p. not (is_parameter_among bound.now.items p)) listed.now) }
{
    let mut unbound = Vec::new(alloc);
    for parameter in listed {
        add_unbound(parameter, bound, &mut unbound)?;
    }
    Ok(unbound)
}

/// Adds the parameter, where it is not bound.
fn add_unbound(
    parameter: &TypeParameter,
    bound: &Vec<TypeParameter>,
    unbound: &mut Vec<TypeParameter>,
) -> Result<(), NoMemory>
    ensures { OnOk result (unbound.new.items ≡ unbound.old.items
        ++ filter (λ p. not (is_parameter_among bound.now.items p)) (parameter.now ∷ [])) }
{
    if is_parameter_among(parameter, bound) {
        Ok(())
    } else {
        add(unbound, parameter.clone()?)
    }
}
