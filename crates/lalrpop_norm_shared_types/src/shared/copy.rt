//! Whole copies of types that share their parts: lowered types that share none.
ghost use Rattle.std.specs.Prelude.{◌≡◌, IfOk, option_map};
ghost use Rattle.lalrpop_norm_tree_parts.specs.Reprs.{repr_view, reprs_view, applied_view};
ghost use Rattle.lalrpop_norm_shared_types.specs.Shared.{shared_view, applied_path_view, shared_all};

use super::{AppliedPath, SharedType, TypeNode};
use lalrpop_norm_tree::grammar::parse_tree::NoMemory;
use lalrpop_norm_tree::grammar::repr::{NominalTypeRepr, TypeRepr};
use lalrpop_norm_tree_parts::names::copy::copy_type_parameters;
use std::alloc::Global;

impl SharedType {
    /// A whole copy. The only error is a failed allocation.
    #[cycle(copy)]
    pub fn to_repr(&self, alloc: Global) -> Result<TypeRepr, NoMemory>
        ensures { IfOk result (λ t. repr_view t ≡ shared_view self.now) }
    {
        match &*self.node {
            TypeNode::Tuple(types) => Ok(TypeRepr::Tuple(copy_all(alloc, types)?)),
            TypeNode::Slice(inner) => Ok(TypeRepr::Slice(copy_boxed(alloc, inner)?)),
            TypeNode::Nominal(nominal) => Ok(TypeRepr::Nominal(copy_applied(alloc, nominal)?)),
            TypeNode::Associated { type_parameter, id } => Ok(TypeRepr::Associated {
                type_parameter: type_parameter.clone()?,
                id: id.clone()?,
            }),
            TypeNode::Lifetime(lifetime) => Ok(TypeRepr::Lifetime(lifetime.clone()?)),
            TypeNode::Ref {
                lifetime,
                mutable,
                referent,
            } => Ok(TypeRepr::Ref {
                lifetime: lifetime.clone()?,
                mutable: *mutable,
                referent: copy_boxed(alloc, referent)?,
            }),
            TypeNode::TraitObject(nominal) => {
                Ok(TypeRepr::TraitObject(copy_applied(alloc, nominal)?))
            }
            TypeNode::Fn {
                forall,
                path,
                parameters,
                ret,
            } => Ok(TypeRepr::Fn {
                forall: copy_type_parameters(forall)?,
                path: path.clone()?,
                parameters: copy_all(alloc, parameters)?,
                ret: copy_return(alloc, ret)?,
            }),
        }
    }
}

#[cycle(copy)]
fn copy_applied(alloc: Global, nominal: &AppliedPath) -> Result<NominalTypeRepr, NoMemory>
    ensures { IfOk result (λ n. applied_view n ≡ applied_path_view nominal.now) }
{
    let path = nominal.path.clone()?;
    let types = copy_all(alloc, &nominal.types)?;
    Ok(NominalTypeRepr { path, types })
}

#[cycle(copy)]
fn copy_boxed(alloc: Global, ty: &SharedType) -> Result<Box<TypeRepr>, NoMemory>
    ensures { IfOk result (λ b. repr_view b.value ≡ shared_view ty.now) }
{
    let copy = ty.to_repr(alloc)?;
    Ok(Box::new(alloc, copy)?)
}

#[cycle(copy)]
fn copy_return(alloc: Global, ret: &Option<SharedType>) -> Result<Option<Box<TypeRepr>>, NoMemory>
    ensures { IfOk result (λ r. option_map (λ b. repr_view b.value) r ≡ option_map shared_view ret.now) }
{
    match ret {
        None => Ok(None),
        Some(inner) => Ok(Some(copy_boxed(alloc, inner)?)),
    }
}

#[cycle(copy)]
fn copy_all(alloc: Global, types: &Vec<SharedType>) -> Result<Vec<TypeRepr>, NoMemory>
    ensures { IfOk result (λ ts. reprs_view ts.items ≡ shared_all types.now.items) }
{
    let mut copies = Vec::with_capacity(alloc, types.len())?;
    for inner in types {
        copies.push(inner.to_repr(alloc)?)?;
    }
    Ok(copies)
}
