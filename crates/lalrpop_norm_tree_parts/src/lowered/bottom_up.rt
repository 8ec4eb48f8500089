//! Lowered types with a closure called at each type after its parts.
ghost use Rattle.std.specs.Prelude.{◌≡◌, IfOk, option_map};
ghost use Rattle.lalrpop_norm_tree_parts.specs.BottomUp.{bottom_up, inside_type, all_inside, return_inside, made, ◌▸◌, answered_as};
ghost use Rattle.lalrpop_norm_tree_parts.specs.BottomUp.{CalledAtRepr};
ghost use Rattle.lalrpop_norm_tree_parts.specs.Paths.{path_view};
ghost use Rattle.lalrpop_norm_tree_parts.specs.Reprs.{repr_view, reprs_view, applied_view, maybe_repr_of, reference};

use super::{NominalTypeRepr, TypeRepr};
use crate::names::Lifetime;
use crate::path::Path;
use crate::walk::{add, same_head};
use shared_text::NoMemory;
use std::alloc::Global;

impl TypeRepr {
    /// The type with f called at each type after its parts, in reading order, and at the type itself last: the answer of f takes
    /// the place of the type. The first error ends the walk and is the answer; where an allocation fails between two calls, the error
    /// is made of `NoMemory`.
    pub fn bottom_up<E: From<NoMemory>, F: FnMut(TypeRepr) -> Result<TypeRepr, E>>(
        &self,
        alloc: Global,
        f: &mut F,
    ) -> Result<TypeRepr, E>
        requires { F.IsAlwaysCallable f.old }
        ensures again { F.IsAlwaysCallable f.new }
        ensures walked { bottom_up (CalledAtRepr F.FnMut) (E.from_gives record {})
            (repr_view self.now) f.old (answered_as repr_view result) f.new }
    {
        walk(self, alloc, f)
    }
}

/// The type with its parts walked, and then f called at it.
#[cycle(bottom_up)]
fn walk<E: From<NoMemory>, F: FnMut(TypeRepr) -> Result<TypeRepr, E>>(
    ty: &TypeRepr,
    alloc: Global,
    f: &mut F,
) -> Result<TypeRepr, E>
    requires { F.IsAlwaysCallable f.old }
    ensures again { F.IsAlwaysCallable f.new }
    ensures walked { bottom_up (CalledAtRepr F.FnMut) (E.from_gives record {})
        (repr_view ty.now) f.old (answered_as repr_view result) f.new }
{
    let walked = walk_parts(ty, alloc, f)?;
    f(walked)
}

/// The type with its parts walked.
#[cycle(bottom_up)]
fn walk_parts<E: From<NoMemory>, F: FnMut(TypeRepr) -> Result<TypeRepr, E>>(
    ty: &TypeRepr,
    alloc: Global,
    f: &mut F,
) -> Result<TypeRepr, E>
    requires { F.IsAlwaysCallable f.old }
    ensures again { F.IsAlwaysCallable f.new }
    ensures walked { inside_type (CalledAtRepr F.FnMut) (E.from_gives record {})
        (repr_view ty.now) f.old (answered_as repr_view result) f.new }
{
    match ty {
        TypeRepr::Tuple(types) => Ok(TypeRepr::Tuple(walk_all(types, alloc, f)?)),
        TypeRepr::Slice(inner) => Ok(TypeRepr::Slice(walk_boxed(&**inner, alloc, f)?)),
        TypeRepr::Nominal(nominal) => Ok(TypeRepr::Nominal(walk_nominal(nominal, alloc, f)?)),
        TypeRepr::Associated { type_parameter, id } => Ok(TypeRepr::Associated {
            type_parameter: type_parameter.again(),
            id: id.again(),
        }),
        TypeRepr::Lifetime(lifetime) => Ok(TypeRepr::Lifetime(again(lifetime))),
        TypeRepr::Ref {
            lifetime,
            mutable,
            referent,
        } => walk_reference(lifetime, *mutable, &**referent, alloc, f),
        TypeRepr::TraitObject(nominal) => {
            Ok(TypeRepr::TraitObject(walk_nominal(nominal, alloc, f)?))
        }
        TypeRepr::Fn {
            forall,
            path,
            parameters,
            ret,
        } => {
            let (forall, path) = same_head(forall, path)?;
            let parameters = walk_all(parameters, alloc, f)?;
            let ret = walk_return(ret, alloc, f)?;
            Ok(TypeRepr::Fn {
                forall,
                path,
                parameters,
                ret,
            })
        }
    }
}

/// The reference with its referent walked.
#[cycle(bottom_up)]
fn walk_reference<E: From<NoMemory>, F: FnMut(TypeRepr) -> Result<TypeRepr, E>>(
    lifetime: &Option<Lifetime>,
    mutable: bool,
    referent: &TypeRepr,
    alloc: Global,
    f: &mut F,
) -> Result<TypeRepr, E>
    requires { F.IsAlwaysCallable f.old }
    ensures again { F.IsAlwaysCallable f.new }
    ensures walked { inside_type (CalledAtRepr F.FnMut) (E.from_gives record {}) (reference lifetime.now mutable (repr_view referent.now))
        f.old (answered_as repr_view result) f.new }
{
    let referent = walk_boxed(referent, alloc, f)?;
    Ok(TypeRepr::Ref {
        lifetime: maybe_again(lifetime),
        mutable,
        referent,
    })
}

/// Each of the types walked, from left to right.
#[cycle(bottom_up)]
fn walk_all<E: From<NoMemory>, F: FnMut(TypeRepr) -> Result<TypeRepr, E>>(
    types: &Vec<TypeRepr>,
    alloc: Global,
    f: &mut F,
) -> Result<Vec<TypeRepr>, E>
    requires { F.IsAlwaysCallable f.old }
    ensures again { F.IsAlwaysCallable f.new }
    ensures walked { all_inside (CalledAtRepr F.FnMut) (E.from_gives record {}) (reprs_view types.now.items)
        f.old (answered_as (λ ts. reprs_view ts.items) result) f.new }
{
    let mut walked = Vec::new(alloc);
    for ty in types {
        add(&mut walked, walk(ty, alloc, f)?)?;
    }
    Ok(walked)
}

/// The type walked, in a new box.
#[cycle(bottom_up)]
fn walk_boxed<E: From<NoMemory>, F: FnMut(TypeRepr) -> Result<TypeRepr, E>>(
    ty: &TypeRepr,
    alloc: Global,
    f: &mut F,
) -> Result<Box<TypeRepr>, E>
    requires { F.IsAlwaysCallable f.old }
    ensures again { F.IsAlwaysCallable f.new }
    ensures walked { (bottom_up (CalledAtRepr F.FnMut) (E.from_gives record {}) (repr_view ty.now) ▸ made (E.from_gives record {}))
        f.old (answered_as (λ b. repr_view b.value) result) f.new }
{
    let walked = walk(ty, alloc, f)?;
    Ok(boxed(alloc, walked)?)
}

/// The path with its arguments walked.
#[cycle(bottom_up)]
fn walk_nominal<E: From<NoMemory>, F: FnMut(TypeRepr) -> Result<TypeRepr, E>>(
    nominal: &NominalTypeRepr,
    alloc: Global,
    f: &mut F,
) -> Result<NominalTypeRepr, E>
    requires { F.IsAlwaysCallable f.old }
    ensures again { F.IsAlwaysCallable f.new }
    ensures walked { let seen = applied_view nominal.now in
        (all_inside (CalledAtRepr F.FnMut) (E.from_gives record {}) seen.1 ▸ λ us. made (E.from_gives record {}) (seen.0, us))
        f.old (answered_as applied_view result) f.new }
{
    let path = same_path(&nominal.path)?;
    let types = walk_all(&nominal.types, alloc, f)?;
    Ok(NominalTypeRepr { path, types })
}

/// The return type walked, where there is one.
#[cycle(bottom_up)]
fn walk_return<E: From<NoMemory>, F: FnMut(TypeRepr) -> Result<TypeRepr, E>>(
    ret: &Option<Box<TypeRepr>>,
    alloc: Global,
    f: &mut F,
) -> Result<Option<Box<TypeRepr>>, E>
    requires { F.IsAlwaysCallable f.old }
    ensures again { F.IsAlwaysCallable f.new }
    ensures walked { return_inside (CalledAtRepr F.FnMut) (E.from_gives record {}) (maybe_repr_of (option_map (λ b. repr_view b.value)
        ret.now)) f.old (answered_as (λ r. maybe_repr_of (option_map (λ b. repr_view b.value) r)) result) f.new }
{
    match ret {
        None => Ok(None),
        Some(inner) => Ok(Some(walk_boxed(&**inner, alloc, f)?)),
    }
}

/// The type in a new box. The only error is a failed allocation.
fn boxed(alloc: Global, ty: TypeRepr) -> Result<Box<TypeRepr>, NoMemory>
    ensures { IfOk result (λ b. b.value ≡ ty) }
{
    Ok(Box::new(alloc, ty)?)
}

/// A copy of the path. The only error is a failed allocation.
fn same_path(path: &Path) -> Result<Path, NoMemory>
    ensures { IfOk result (λ p. path_view p ≡ path_view path.now) }
{
    Ok(path.clone()?)
}

/// A copy of the lifetime, which allocates nothing.
fn again(lifetime: &Lifetime) -> Lifetime
    ensures { result ≡ lifetime.now }
{
    Lifetime(lifetime.0.again())
}

/// A copy of the lifetime, if there is one.
fn maybe_again(lifetime: &Option<Lifetime>) -> Option<Lifetime>
    ensures { result ≡ lifetime.now }
{
    match lifetime {
        None => None,
        Some(lifetime) => Some(again(lifetime)),
    }
}
