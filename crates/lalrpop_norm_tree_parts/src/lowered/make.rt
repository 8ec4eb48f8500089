//! Lowered types of one name, references to `str`, and the unit type.
ghost use Rattle.std.specs.Prelude.{◌≡◌, ◌↔◌, IfOk, IsTrue, codes};
ghost use Rattle.lalrpop_norm_tree_parts.specs.Reprs.{repr_view, tuple, no_reprs, named_repr, parameter_repr, str_at, static_str};
ghost use Rattle.lalrpop_norm_tree_parts.specs.Reprs.{input_str};

use super::{NominalTypeRepr, TypeRepr};
use crate::names::{Lifetime, TypeParameter};
use crate::path::Path;
use shared_text::{Atom, NoMemory};
use std::alloc::Global;

impl TypeRepr {
    /// The type `usize`. The only error is a failed allocation.
    pub fn usize(alloc: Global) -> Result<TypeRepr, NoMemory>
        ensures { IfOk result (λ t. repr_view t ≡ named_repr (codes "usize")) }
    {
        named(alloc, Atom::new(alloc, "usize")?)
    }

    /// The type `str`. The only error is a failed allocation.
    pub fn str(alloc: Global) -> Result<TypeRepr, NoMemory>
        ensures { IfOk result (λ t. repr_view t ≡ named_repr (codes "str")) }
    {
        named(alloc, Atom::new(alloc, "str")?)
    }

    /// `&'static str`. The only error is a failed allocation.
    pub fn static_str(alloc: Global) -> Result<TypeRepr, NoMemory>
        ensures { IfOk result (λ t. repr_view t ≡ static_str) }
    {
        str_at(alloc, Lifetime::statik(alloc)?)
    }

    /// `&'input str`. The only error is a failed allocation.
    pub fn input_str(alloc: Global) -> Result<TypeRepr, NoMemory>
        ensures { IfOk result (λ t. repr_view t ≡ input_str) }
    {
        str_at(alloc, Lifetime::input(alloc)?)
    }

    /// The type that a parameter stands for: a lifetime itself, or the type of that name. The only error is a failed allocation.
    pub fn from_parameter(alloc: Global, parameter: &TypeParameter) -> Result<TypeRepr, NoMemory>
        ensures { IfOk result (λ t. repr_view t ≡ parameter_repr parameter.now) }
    {
        match parameter {
            TypeParameter::Lifetime(lifetime) => Ok(TypeRepr::Lifetime(lifetime.clone()?)),
            TypeParameter::Id(name) => named(alloc, name.clone()?),
        }
    }

    /// Whether it is the tuple of no types.
    pub fn is_unit(&self) -> bool
        ensures { IsTrue result ↔ (repr_view self.now ≡ tuple no_reprs) }
    {
        match self {
            TypeRepr::Tuple(types) => types.is_empty(),
            TypeRepr::Slice(_)
            | TypeRepr::Nominal(_)
            | TypeRepr::Associated { .. }
            | TypeRepr::Lifetime(_)
            | TypeRepr::Ref { .. }
            | TypeRepr::TraitObject(_)
            | TypeRepr::Fn { .. } => false,
        }
    }
}

/// A reference to `str` that lives so long.
fn str_at(alloc: Global, lifetime: Lifetime) -> Result<TypeRepr, NoMemory>
    ensures { IfOk result (λ t. repr_view t ≡ str_at lifetime) }
{
    let text = TypeRepr::str(alloc)?;
    let referent = Box::new(alloc, text)?;
    Ok(TypeRepr::Ref {
        lifetime: Some(lifetime),
        mutable: false,
        referent,
    })
}

/// The type of that one name.
fn named(alloc: Global, name: Atom) -> Result<TypeRepr, NoMemory>
    ensures { IfOk result (λ t. repr_view t ≡ named_repr name) }
{
    let path = Path::from_id(alloc, name)?;
    let types = Vec::new(alloc);
    Ok(TypeRepr::Nominal(NominalTypeRepr { path, types }))
}
