//! Lowered types, each made of its outermost level and the types below it.
ghost use Rattle.std.specs.Prelude.{◌≡◌, Some, IfOk, option_map};
ghost use Rattle.lalrpop_norm_tree_parts.specs.Paths.{path_view};
ghost use Rattle.lalrpop_norm_tree_parts.specs.Reprs as lowered;
ghost use Rattle.lalrpop_norm_tree_parts.specs.Reprs.{maybe_repr_of};
ghost use Rattle.lalrpop_norm_shared_types.specs.Shared.{shared_view, node_view, applied_path_view, shared_all};
ghost use Rattle.lalrpop_norm_tree.specs.LoweredTypes.{named_path};
ghost use Rattle.lalrpop_norm_model.specs.TypeTables.{both};

use lalrpop_norm_shared_types::shared::{AppliedPath, SharedType, TypeNode};
use lalrpop_norm_tree::grammar::parse_tree::{Atom, Lifetime, NoMemory, Path, TypeParameter};
use lalrpop_norm_tree_parts::names::copy::copy_type_parameters;
use std::alloc::Global;

/// The type of that one level.
pub(crate) fn made(alloc: Global, node: TypeNode) -> Result<Option<SharedType>, NoMemory>
    ensures { IfOk result (λ o. option_map shared_view o ≡ Some (node_view node)) }
{
    Ok(Some(SharedType::new(alloc, node)?))
}

/// `T::Id`.
pub(crate) fn associated_type(
    alloc: Global,
    parameter: &Atom,
    id: &Atom,
) -> Result<Option<SharedType>, NoMemory>
    ensures { IfOk result (λ o. option_map shared_view o ≡ Some (lowered.associated parameter.now id.now)) }
{
    let type_parameter = parameter.clone()?;
    let id = id.clone()?;
    made(alloc, TypeNode::Associated { type_parameter, id })
}

/// `'a`, as an argument of a path.
pub(crate) fn lifetime_type(
    alloc: Global,
    lifetime: &Lifetime,
) -> Result<Option<SharedType>, NoMemory>
    ensures { IfOk result (λ o. option_map shared_view o ≡ Some (lowered.of_lifetime lifetime.now)) }
{
    made(alloc, TypeNode::Lifetime(lifetime.clone()?))
}

/// The type of that one name.
pub(crate) fn named_type(alloc: Global, id: &Atom) -> Result<Option<SharedType>, NoMemory>
    ensures { IfOk result (λ o. option_map shared_view o ≡ Some (lowered.nominal (named_path id.now) lowered.no_reprs)) }
{
    made(alloc, TypeNode::Nominal(named(alloc, id)?))
}

/// The path that is one name, without arguments.
fn named(alloc: Global, id: &Atom) -> Result<AppliedPath, NoMemory>
    ensures { IfOk result (λ n. applied_path_view n ≡ (named_path id.now, lowered.no_reprs)) }
{
    let path = Path::from_id(alloc, id.clone()?)?;
    let types = Vec::new(alloc);
    Ok(AppliedPath { path, types })
}

/// The reference type to that lowered one.
pub(crate) fn reference_type(
    alloc: Global,
    lifetime: &Option<Lifetime>,
    mutable: bool,
    referent: SharedType,
) -> Result<Option<SharedType>, NoMemory>
    ensures { IfOk result (λ o. option_map shared_view o ≡ Some (lowered.reference lifetime.now mutable (shared_view referent))) }
{
    let lifetime = lifetime.clone()?;
    made(
        alloc,
        TypeNode::Ref {
            lifetime,
            mutable,
            referent,
        },
    )
}

/// The path over these lowered arguments.
pub(crate) fn applied_to(path: &Path, types: Vec<SharedType>) -> Result<AppliedPath, NoMemory>
    ensures { IfOk result (λ n. applied_path_view n ≡ (path_view path.now, shared_all types.items)) }
{
    Ok(AppliedPath {
        path: path.clone()?,
        types,
    })
}

/// The function type over these lowered parts.
fn function_type(
    alloc: Global,
    forall: &Vec<TypeParameter>,
    path: &Path,
    parameters: Vec<SharedType>,
    ret: Option<SharedType>,
) -> Result<Option<SharedType>, NoMemory>
    ensures { IfOk result (λ o. option_map shared_view o
        ≡ Some (lowered.function forall.now.items (path_view path.now) (shared_all parameters.items)
        (maybe_repr_of (option_map shared_view ret)))) }
{
    let forall = copy_type_parameters(forall)?;
    let path = path.clone()?;
    made(
        alloc,
        TypeNode::Fn {
            forall,
            path,
            parameters,
            ret,
        },
    )
}

/// The type of a function over these types, if all are there.
pub(crate) fn function_of(
    alloc: Global,
    forall: &Vec<TypeParameter>,
    path: &Path,
    parameters: Option<Vec<SharedType>>,
    ret: Option<Option<SharedType>>,
) -> Result<Option<SharedType>, NoMemory>
    ensures { IfOk result (λ o. option_map shared_view o
        ≡ both (lowered.function forall.now.items (path_view path.now)) (option_map (λ ts. shared_all ts.items) parameters)
        (option_map (λ r. maybe_repr_of (option_map shared_view r)) ret)) }
{
    match (parameters, ret) {
        (Some(parameters), Some(ret)) => function_type(alloc, forall, path, parameters, ret),
        (Some(_), None) => Ok(None),
        (None, _) => Ok(None),
    }
}
