//! Lowered types, as types that share their parts.
ghost use Rattle.std.specs.Prelude.{◌≡◌, IfOk, option_map};
ghost use Rattle.lalrpop_norm_tree_parts.specs.Reprs.{repr_view, reprs_view, applied_view};
ghost use Rattle.lalrpop_norm_shared_types.specs.Shared.{shared_view, node_view, applied_path_view, shared_all};

use super::{AppliedPath, SharedType, TypeNode};
use lalrpop_norm_tree::grammar::parse_tree::NoMemory;
use lalrpop_norm_tree::grammar::repr::{NominalTypeRepr, TypeRepr};
use lalrpop_norm_tree_parts::names::copy::copy_type_parameters;
use std::alloc::Global;

impl SharedType {
    /// A lowered type made anew as one whose copies share it. The only error is a failed allocation.
    #[cycle(share)]
    pub fn of(alloc: Global, ty: &TypeRepr) -> Result<SharedType, NoMemory>
        ensures { IfOk result (λ t. shared_view t ≡ repr_view ty.now) }
    {
        SharedType::new(alloc, level_of(alloc, ty)?)
    }
}

/// The outermost level.
#[cycle(share)]
fn level_of(alloc: Global, ty: &TypeRepr) -> Result<TypeNode, NoMemory>
    ensures { IfOk result (λ n. node_view n ≡ repr_view ty.now) }
{
    match ty {
        TypeRepr::Tuple(types) => Ok(TypeNode::Tuple(all_of(alloc, types)?)),
        TypeRepr::Slice(inner) => Ok(TypeNode::Slice(SharedType::of(alloc, &**inner)?)),
        TypeRepr::Nominal(nominal) => Ok(TypeNode::Nominal(applied_of(alloc, nominal)?)),
        TypeRepr::Associated { type_parameter, id } => Ok(TypeNode::Associated {
            type_parameter: type_parameter.clone()?,
            id: id.clone()?,
        }),
        TypeRepr::Lifetime(lifetime) => Ok(TypeNode::Lifetime(lifetime.clone()?)),
        TypeRepr::Ref {
            lifetime,
            mutable,
            referent,
        } => Ok(TypeNode::Ref {
            lifetime: lifetime.clone()?,
            mutable: *mutable,
            referent: SharedType::of(alloc, &**referent)?,
        }),
        TypeRepr::TraitObject(nominal) => Ok(TypeNode::TraitObject(applied_of(alloc, nominal)?)),
        TypeRepr::Fn {
            forall,
            path,
            parameters,
            ret,
        } => Ok(TypeNode::Fn {
            forall: copy_type_parameters(forall)?,
            path: path.clone()?,
            parameters: all_of(alloc, parameters)?,
            ret: return_of(alloc, ret)?,
        }),
    }
}

#[cycle(share)]
fn applied_of(alloc: Global, nominal: &NominalTypeRepr) -> Result<AppliedPath, NoMemory>
    ensures { IfOk result (λ n. applied_path_view n ≡ applied_view nominal.now) }
{
    let path = nominal.path.clone()?;
    let types = all_of(alloc, &nominal.types)?;
    Ok(AppliedPath { path, types })
}

#[cycle(share)]
fn return_of(alloc: Global, ret: &Option<Box<TypeRepr>>) -> Result<Option<SharedType>, NoMemory>
    ensures { IfOk result (λ r. option_map shared_view r ≡ option_map (λ b. repr_view b.value) ret.now) }
{
    match ret {
        None => Ok(None),
        Some(inner) => Ok(Some(SharedType::of(alloc, &**inner)?)),
    }
}

#[cycle(share)]
fn all_of(alloc: Global, types: &Vec<TypeRepr>) -> Result<Vec<SharedType>, NoMemory>
    ensures { IfOk result (λ ts. shared_all ts.items ≡ reprs_view types.now.items) }
{
    let mut all = Vec::with_capacity(alloc, types.len())?;
    for inner in types {
        all.push(SharedType::of(alloc, inner)?)?;
    }
    Ok(all)
}
