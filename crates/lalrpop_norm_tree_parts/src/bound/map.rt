//! Bounds with each type put through a function.
ghost use Rattle.std.specs.Prelude.{◌≡◌, ◌++◌, IfOk, map, flat_map, option_map, option_to_list};
ghost use Rattle.std.specs.Fn.{CalledAt};
ghost use Rattle.std.specs.Result.{IfErr};
ghost use Rattle.lalrpop_norm_tree_parts.specs.Bounds.{bound_parameter_view, bound_view, function_bound, trait_bound};
ghost use Rattle.lalrpop_norm_tree_parts.specs.MappedBounds.{bound_parameter_shape, bound_shape, types_in_parameter, types_in_bound};
ghost use Rattle.lalrpop_norm_tree_parts.specs.Paths.{path_view};
ghost use Rattle.lalrpop_norm_tree_parts.specs.Walks.{Answered, Ended};

use super::{TypeBound, TypeBoundParameter};
use crate::names::{Lifetime, TypeParameter};
use crate::path::Path;
use crate::walk::{add, map_one, same_head, same_name};
use shared_text::NoMemory;
use std::alloc::Global;

impl<T> TypeBound<T> {
    /// The bound with each type put through f, from left to right, a return type last. The first error ends the walk and is the answer;
    /// where an allocation fails between two calls, the error is made of `NoMemory`.
    pub fn map<U: Drop, E: From<NoMemory>, F: FnMut(&T) -> Result<U, E>>(
        &self,
        f: &mut F,
    ) -> Result<TypeBound<U>, E>
        requires { F.IsAlwaysCallable f.old }
        ensures again { F.IsAlwaysCallable f.new }
        ensures kept { IfOk result (λ b. bound_shape (bound_view (λ u. u) b) ≡ bound_shape (bound_view (λ t. t) self.now)) }
        ensures answered { IfOk result (λ b. Answered (CalledAt F.FnMut) f.old (types_in_bound (bound_view (λ t. t) self.now))
            (types_in_bound (bound_view (λ u. u) b)) f.new) }
        ensures ended { IfErr result
            (λ e. Ended (CalledAt F.FnMut) (E.from_gives record {}) f.old (types_in_bound (bound_view (λ t. t) self.now)) e f.new) }
    {
        match self {
            TypeBound::Lifetime(lifetime) => Ok(TypeBound::Lifetime(same_lifetime(lifetime)?)),
            TypeBound::Fn {
                forall,
                path,
                parameters,
                ret,
            } => map_function(same_head(forall, path)?, parameters, ret, f),
            TypeBound::Trait {
                forall,
                path,
                parameters,
            } => map_trait(same_head(forall, path)?, parameters, f),
        }
    }
}

impl<T> TypeBoundParameter<T> {
    /// The argument with its type put through f. An error of f is the answer; where an allocation fails, it is made of `NoMemory`.
    pub fn map<U: Drop, E: From<NoMemory>, F: FnMut(&T) -> Result<U, E>>(
        &self,
        f: &mut F,
    ) -> Result<TypeBoundParameter<U>, E>
        requires { F.IsAlwaysCallable f.old }
        ensures again { F.IsAlwaysCallable f.new }
        ensures kept { IfOk result (λ p. bound_parameter_shape (bound_parameter_view (λ u. u) p)
            ≡ bound_parameter_shape (bound_parameter_view (λ t. t) self.now)) }
        ensures answered { IfOk result (λ p. Answered (CalledAt F.FnMut) f.old (types_in_parameter (bound_parameter_view (λ t. t) self.now))
            (types_in_parameter (bound_parameter_view (λ u. u) p)) f.new) }
        ensures ended { IfErr result (λ e. Ended (CalledAt F.FnMut) (E.from_gives record {}) f.old
            (types_in_parameter (bound_parameter_view (λ t. t) self.now)) e f.new) }
    {
        map_parameter(self, f)
    }
}

fn map_types<T, U: Drop, E: From<NoMemory>, F: FnMut(&T) -> Result<U, E>>(
    alloc: Global,
    types: &[T],
    f: &mut F,
) -> Result<Vec<U>, E>
    requires { F.IsAlwaysCallable f.old }
    ensures again { F.IsAlwaysCallable f.new }
    ensures answered { IfOk result (λ us. Answered (CalledAt F.FnMut) f.old types.now us.items f.new) }
    ensures ended { IfErr result (λ e. Ended (CalledAt F.FnMut) (E.from_gives record {}) f.old types.now e f.new) }
{
    let mut mapped = Vec::new(alloc);
    for ty in types {
        add(&mut mapped, f(ty)?)?;
    }
    Ok(mapped)
}

fn map_return<T, U: Drop, E: From<NoMemory>, F: FnMut(&T) -> Result<U, E>>(
    ret: &Option<T>,
    f: &mut F,
) -> Result<Option<U>, E>
    requires { F.IsAlwaysCallable f.old }
    ensures again { F.IsAlwaysCallable f.new }
    ensures answered { IfOk result (λ r. Answered (CalledAt F.FnMut) f.old (option_to_list ret.now) (option_to_list r) f.new) }
    ensures ended { IfErr result (λ e. Ended (CalledAt F.FnMut) (E.from_gives record {}) f.old (option_to_list ret.now) e f.new) }
{
    match ret {
        None => Ok(None),
        Some(ty) => Ok(Some(map_one(ty, f)?)),
    }
}

/// The bound by a function, its return type last.
fn map_function<T, U: Drop, E: From<NoMemory>, F: FnMut(&T) -> Result<U, E>>(
    head: (Vec<TypeParameter>, Path),
    parameters: &Vec<T>,
    ret: &Option<T>,
    f: &mut F,
) -> Result<TypeBound<U>, E>
    requires { F.IsAlwaysCallable f.old }
    ensures again { F.IsAlwaysCallable f.new }
    ensures kept { IfOk result (λ b. bound_shape (bound_view (λ u. u) b)
        ≡ function_bound head.0.items (path_view head.1) (map (λ _. tt) (map (λ t. t) parameters.now.items))
        (option_map (λ _. tt) (option_map (λ t. t) ret.now))) }
    ensures answered { IfOk result (λ b. Answered (CalledAt F.FnMut) f.old (map (λ t. t) parameters.now.items
        ++ option_to_list (option_map (λ t. t) ret.now)) (types_in_bound (bound_view (λ u. u) b)) f.new) }
    ensures ended { IfErr result (λ e. Ended (CalledAt F.FnMut) (E.from_gives record {}) f.old (map (λ t. t) parameters.now.items
        ++ option_to_list (option_map (λ t. t) ret.now)) e f.new) }
{
    let parameters = map_types(*parameters.allocator(), parameters, f)?;
    let ret = map_return(ret, f)?;
    let (forall, path) = head;
    Ok(TypeBound::Fn {
        forall,
        path,
        parameters,
        ret,
    })
}

fn map_parameter<T, U: Drop, E: From<NoMemory>, F: FnMut(&T) -> Result<U, E>>(
    parameter: &TypeBoundParameter<T>,
    f: &mut F,
) -> Result<TypeBoundParameter<U>, E>
    requires { F.IsAlwaysCallable f.old }
    ensures again { F.IsAlwaysCallable f.new }
    ensures kept { IfOk result (λ p. bound_parameter_shape (bound_parameter_view (λ u. u) p)
        ≡ bound_parameter_shape (bound_parameter_view (λ t. t) parameter.now)) }
    ensures answered { IfOk result (λ p. Answered (CalledAt F.FnMut) f.old
        (types_in_parameter (bound_parameter_view (λ t. t) parameter.now)) (types_in_parameter (bound_parameter_view (λ u. u) p)) f.new) }
    ensures ended { IfErr result (λ e. Ended (CalledAt F.FnMut) (E.from_gives record {}) f.old
        (types_in_parameter (bound_parameter_view (λ t. t) parameter.now)) e f.new) }
{
    match parameter {
        TypeBoundParameter::Lifetime(lifetime) => {
            Ok(TypeBoundParameter::Lifetime(same_lifetime(lifetime)?))
        }
        TypeBoundParameter::TypeParameter(ty) => Ok(TypeBoundParameter::TypeParameter(map_one(
            ty, f,
        )?)),
        TypeBoundParameter::Associated(name, ty) => {
            let name = same_name(name)?;
            Ok(TypeBoundParameter::Associated(name, map_one(ty, f)?))
        }
    }
}

fn same_lifetime(lifetime: &Lifetime) -> Result<Lifetime, NoMemory>
    ensures { IfOk result (λ l. l ≡ lifetime.now) }
{
    Ok(lifetime.clone()?)
}

fn map_parameters<T, U: Drop, E: From<NoMemory>, F: FnMut(&T) -> Result<U, E>>(
    alloc: Global,
    parameters: &[TypeBoundParameter<T>],
    f: &mut F,
) -> Result<Vec<TypeBoundParameter<U>>, E>
    requires { F.IsAlwaysCallable f.old }
    ensures again { F.IsAlwaysCallable f.new }
    ensures kept { IfOk result (λ ps. map bound_parameter_shape (map (bound_parameter_view (λ u. u)) ps.items)
        ≡ map bound_parameter_shape (map (bound_parameter_view (λ t. t)) parameters.now)) }
    ensures answered { IfOk result (λ ps. Answered (CalledAt F.FnMut) f.old
        (flat_map types_in_parameter (map (bound_parameter_view (λ t. t)) parameters.now))
        (flat_map types_in_parameter (map (bound_parameter_view (λ u. u)) ps.items)) f.new) }
    ensures ended { IfErr result (λ e. Ended (CalledAt F.FnMut) (E.from_gives record {}) f.old
        (flat_map types_in_parameter (map (bound_parameter_view (λ t. t)) parameters.now)) e f.new) }
{
    let mut mapped = Vec::new(alloc);
    for parameter in parameters {
        add(&mut mapped, map_parameter(parameter, f)?)?;
    }
    Ok(mapped)
}

/// The bound by a trait.
fn map_trait<T, U: Drop, E: From<NoMemory>, F: FnMut(&T) -> Result<U, E>>(
    head: (Vec<TypeParameter>, Path),
    parameters: &Vec<TypeBoundParameter<T>>,
    f: &mut F,
) -> Result<TypeBound<U>, E>
    requires { F.IsAlwaysCallable f.old }
    ensures again { F.IsAlwaysCallable f.new }
    ensures kept { IfOk result (λ b. bound_shape (bound_view (λ u. u) b)
        ≡ trait_bound head.0.items (path_view head.1)
        (map bound_parameter_shape (map (bound_parameter_view (λ t. t)) parameters.now.items))) }
    ensures answered { IfOk result (λ b. Answered (CalledAt F.FnMut) f.old
        (flat_map types_in_parameter (map (bound_parameter_view (λ t. t)) parameters.now.items))
        (types_in_bound (bound_view (λ u. u) b)) f.new) }
    ensures ended { IfErr result (λ e. Ended (CalledAt F.FnMut) (E.from_gives record {}) f.old
        (flat_map types_in_parameter (map (bound_parameter_view (λ t. t)) parameters.now.items)) e f.new) }
{
    let parameters = map_parameters(*parameters.allocator(), parameters, f)?;
    let (forall, path) = head;
    Ok(TypeBound::Trait {
        forall,
        path,
        parameters,
    })
}
