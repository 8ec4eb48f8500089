//! What written types become.
ghost use Rattle.std.specs.Prelude.{◌≡◌, ◌↔◌, true, false, option_map, IfOk, IsTrue, IsErrOf};
ghost use Rattle.lalrpop_norm_tree.specs.LoweredTypes.{holds_symbol, any_holds_symbol, result_holds_symbol, named_path, repr_of};
ghost use Rattle.lalrpop_norm_tree.specs.LoweredTypes.{all_reprs_of, result_repr_of};
ghost use Rattle.lalrpop_norm_tree_parts.specs.Paths.{path_view};
ghost use Rattle.lalrpop_norm_tree_parts.specs.Reprs.{repr_view, reprs_view, applied_view, maybe_repr_of, no_reprs};
ghost use Rattle.lalrpop_norm_tree.specs.Types.{type_view, types_view, maybe_of};

use super::TypeRef;
use lalrpop_norm_tree_parts::lowered::{NominalTypeRepr, TypeRepr};
use lalrpop_norm_tree_parts::names::copy::copy_type_parameters;
use lalrpop_norm_tree_parts::path::Path;
use shared_text::{Atom, NoMemory};
use std::alloc::{AllocError, Global};

/// Why a written type has no lowered one.
#[derive(Clone, Copy, Debug, PartialEq, Eq)]
pub enum TypeReprError {
    /// It contains the type of a symbol.
    OfSymbol,
    /// There was no memory.
    Memory,
}

impl From<AllocError> for TypeReprError {
    ghost use Rattle.lalrpop_norm_tree.specs.declared.types.repr.TypeReprError.TheVariants.{Memory};

    ghost from_gives = { λ _ e. e ≡ Memory };

    fn from(_: AllocError) -> TypeReprError {
        TypeReprError::Memory
    }
}

impl TypeRef {
    /// Whether the type contains the type of a symbol.
    pub fn holds_symbol(&self) -> bool
        ensures { result ≡ holds_symbol (type_view self.now) }
    {
        is_of_symbol(self)
    }

    /// The lowered type: a single name becomes the path of that name, all else stays as written.
    /// The type of a symbol, which only an expansion makes, counts as unit there.
    ///
    /// The only error is a failed allocation.
    pub fn lowered(&self, alloc: Global) -> Result<TypeRepr, NoMemory>
        ensures { IfOk result (λ r. repr_view r ≡ repr_of (type_view self.now)) }
    {
        Ok(lower(alloc, self)?)
    }

    /// The lowered type of one that contains no symbol, as `lowered` gives it.
    ///
    /// Errors: `OfSymbol` if and only if it contains the type of a symbol; `Memory`.
    pub fn type_repr(&self, alloc: Global) -> Result<TypeRepr, TypeReprError>
        ensures lowered { IfOk result (λ r. repr_view r ≡ repr_of (type_view self.now)) }
        ensures whole { IfOk result (λ _. holds_symbol (type_view self.now) ≡ false) }
        ensures symbol { IsErrOf result TypeReprError.OfSymbol ↔ IsTrue (holds_symbol (type_view self.now)) }
    {
        if is_of_symbol(self) {
            return Err(TypeReprError::OfSymbol);
        }
        Ok(lower(alloc, self)?)
    }
}

#[cycle(is_of_symbol)]
fn is_of_symbol(written: &TypeRef) -> bool
    ensures { result ≡ holds_symbol (type_view written.now) }
{
    match written {
        TypeRef::Tuple(types) => is_any_of_symbol(types),
        TypeRef::Slice(inner) => is_of_symbol(inner),
        TypeRef::Nominal { path: _, types } => is_any_of_symbol(types),
        TypeRef::Ref {
            lifetime: _,
            mutable: _,
            referent,
        } => is_of_symbol(referent),
        TypeRef::TraitObject { path: _, types } => is_any_of_symbol(types),
        TypeRef::Lifetime(_) => false,
        TypeRef::Id(_) => false,
        TypeRef::OfSymbol(_) => true,
        TypeRef::Fn {
            forall: _,
            path: _,
            parameters,
            ret,
        } => is_any_of_symbol(parameters) || is_result_of_symbol(ret),
    }
}

#[cycle(is_of_symbol)]
fn is_any_of_symbol(types: &[TypeRef]) -> bool
    ensures { result ≡ any_holds_symbol (types_view types.now) }
{
    for inner in types {
        if is_of_symbol(inner) {
            return true;
        }
    }
    false
}

#[cycle(is_of_symbol)]
fn is_result_of_symbol(ret: &Option<Box<TypeRef>>) -> bool
    ensures { result ≡ result_holds_symbol (maybe_of (option_map (λ b. type_view b.value) ret.now)) }
{
    match ret {
        None => false,
        Some(inner) => is_of_symbol(inner),
    }
}

/// The lowered type; a symbol counts as unit.
#[cycle(lower)]
fn lower(alloc: Global, written: &TypeRef) -> Result<TypeRepr, AllocError>
    ensures { IfOk result (λ r. repr_view r ≡ repr_of (type_view written.now)) }
{
    match written {
        TypeRef::Tuple(types) => Ok(TypeRepr::Tuple(lower_all(alloc, types)?)),
        TypeRef::Slice(inner) => Ok(TypeRepr::Slice(Box::new(alloc, lower(alloc, inner)?)?)),
        TypeRef::Nominal { path, types } => {
            Ok(TypeRepr::Nominal(lower_applied(alloc, path, types)?))
        }
        TypeRef::Ref {
            lifetime,
            mutable,
            referent,
        } => Ok(TypeRepr::Ref {
            lifetime: lifetime.clone()?,
            mutable: *mutable,
            referent: Box::new(alloc, lower(alloc, referent)?)?,
        }),
        TypeRef::TraitObject { path, types } => {
            Ok(TypeRepr::TraitObject(lower_applied(alloc, path, types)?))
        }
        TypeRef::Lifetime(lifetime) => Ok(TypeRepr::Lifetime(lifetime.clone()?)),
        TypeRef::Id(id) => Ok(TypeRepr::Nominal(lower_name(alloc, id)?)),
        TypeRef::OfSymbol(_) => Ok(TypeRepr::Tuple(Vec::new(alloc))),
        TypeRef::Fn {
            forall,
            path,
            parameters,
            ret,
        } => Ok(TypeRepr::Fn {
            forall: copy_type_parameters(forall)?,
            path: path.clone()?,
            parameters: lower_all(alloc, parameters)?,
            ret: lower_result(alloc, ret)?,
        }),
    }
}

/// The path that is one name, without arguments.
fn lower_name(alloc: Global, id: &Atom) -> Result<NominalTypeRepr, AllocError>
    ensures { IfOk result (λ n. applied_view n ≡ (named_path id.now, no_reprs)) }
{
    let id = id.clone()?;
    let ids = vec![in alloc; id]?;
    Ok(NominalTypeRepr {
        path: Path {
            absolute: false,
            ids,
        },
        types: Vec::new(alloc),
    })
}

#[cycle(lower)]
fn lower_applied(
    alloc: Global,
    path: &Path,
    types: &[TypeRef],
) -> Result<NominalTypeRepr, AllocError>
    ensures { IfOk result (λ n. applied_view n ≡ (path_view path.now, all_reprs_of (types_view types.now))) }
{
    let path = path.clone()?;
    let types = lower_all(alloc, types)?;
    Ok(NominalTypeRepr { path, types })
}

#[cycle(lower)]
fn lower_result(
    alloc: Global,
    ret: &Option<Box<TypeRef>>,
) -> Result<Option<Box<TypeRepr>>, AllocError>
    ensures { IfOk result (λ r. maybe_repr_of (option_map (λ b. repr_view b.value) r)
        ≡ result_repr_of (maybe_of (option_map (λ b. type_view b.value) ret.now))) }
{
    match ret {
        None => Ok(None),
        Some(inner) => Ok(Some(Box::new(alloc, lower(alloc, inner)?)?)),
    }
}

#[cycle(lower)]
fn lower_all(alloc: Global, types: &[TypeRef]) -> Result<Vec<TypeRepr>, AllocError>
    ensures { IfOk result (λ rs. reprs_view rs.items ≡ all_reprs_of (types_view types.now)) }
{
    let mut lowered = Vec::with_capacity(alloc, types.len())?;
    for inner in types {
        lowered.push(lower(alloc, inner)?)?;
    }
    Ok(lowered)
}
