//! Copies of written types.
ghost use Rattle.std.specs.Prelude.{◌≡◌, IfOk, map, option_map};
ghost use Rattle.lalrpop_norm_tree.specs.Types.{type_view, parameter_view};

use super::{Parameter, TypeRef};
use lalrpop_norm_tree_parts::names::copy::copy_type_parameters;
use std::alloc::{AllocError, Global};

impl Clone for TypeRef {
    ghost is_clone = { λ t u. type_view u ≡ type_view t };

    fn clone(&self) -> Result<TypeRef, AllocError> {
        copy(self)
    }
}

impl Clone for Parameter {
    ghost is_clone = { λ p q. parameter_view q ≡ parameter_view p };

    fn clone(&self) -> Result<Parameter, AllocError> {
        let name = self.name.clone()?;
        let ty = copy(&self.ty)?;
        Ok(Parameter { name, ty })
    }
}

#[cycle(copy)]
fn copy(written: &TypeRef) -> Result<TypeRef, AllocError>
    ensures { IfOk result (λ t. type_view t ≡ type_view written.now) }
{
    match written {
        TypeRef::Tuple(types) => Ok(TypeRef::Tuple(copy_all(*types.allocator(), types)?)),
        TypeRef::Slice(inner) => Ok(TypeRef::Slice(Box::new(
            *Box::allocator(inner),
            copy(inner)?,
        )?)),
        TypeRef::Nominal { path, types } => Ok(TypeRef::Nominal {
            path: path.clone()?,
            types: copy_all(*types.allocator(), types)?,
        }),
        TypeRef::Ref {
            lifetime,
            mutable,
            referent,
        } => Ok(TypeRef::Ref {
            lifetime: lifetime.clone()?,
            mutable: *mutable,
            referent: Box::new(*Box::allocator(referent), copy(referent)?)?,
        }),
        TypeRef::TraitObject { path, types } => Ok(TypeRef::TraitObject {
            path: path.clone()?,
            types: copy_all(*types.allocator(), types)?,
        }),
        TypeRef::Lifetime(lifetime) => Ok(TypeRef::Lifetime(lifetime.clone()?)),
        TypeRef::Id(id) => Ok(TypeRef::Id(id.clone()?)),
        TypeRef::OfSymbol(kind) => Ok(TypeRef::OfSymbol(kind.clone()?)),
        TypeRef::Fn {
            forall,
            path,
            parameters,
            ret,
        } => Ok(TypeRef::Fn {
            forall: copy_type_parameters(forall)?,
            path: path.clone()?,
            parameters: copy_all(*parameters.allocator(), parameters)?,
            ret: copy_return(ret)?,
        }),
    }
}

#[cycle(copy)]
fn copy_return(ret: &Option<Box<TypeRef>>) -> Result<Option<Box<TypeRef>>, AllocError>
    ensures { IfOk result (λ r. option_map (λ b. type_view b.value) r ≡ option_map (λ b. type_view b.value) ret.now) }
{
    match ret {
        None => Ok(None),
        Some(inner) => Ok(Some(Box::new(*Box::allocator(inner), copy(inner)?)?)),
    }
}

#[cycle(copy)]
fn copy_all(alloc: Global, types: &[TypeRef]) -> Result<Vec<TypeRef>, AllocError>
    ensures { IfOk result (λ ts. map type_view ts.items ≡ map type_view types.now) }
{
    let mut copies = Vec::with_capacity(alloc, types.len())?;
    for inner in types {
        copies.push(copy(inner)?)?;
    }
    Ok(copies)
}
