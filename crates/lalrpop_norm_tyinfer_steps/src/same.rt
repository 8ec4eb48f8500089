//! Whether two lowered types are equal.
ghost use Rattle.std.specs.Prelude.{◌≡◌, ◌&&◌, ◌+◌, ◌<◌, ◌≤◌, bytes_eq, option_map, IfOk, OnOk};
ghost use Rattle.lalrpop_norm_tree_parts.specs.Paths.{path_view};
ghost use Rattle.lalrpop_norm_tree_parts.specs.Reprs.{maybe_repr_of, reference, function};
ghost use Rattle.lalrpop_norm_theory.specs.Same.{same_flag};
ghost use Rattle.lalrpop_norm_model.specs.SameTypes.{same_lifetime, same_parameter, all_same, same_path};
ghost use Rattle.lalrpop_norm_model.specs.SameTypes.{same_type, same_types, same_return};
ghost use Rattle.lalrpop_norm_shared_types.specs.Shared.{shared_view, node_view, applied_path_view, shared_all};
ghost use Rattle.lalrpop_norm_shared_types.specs.Weights.{weight, weights, all_weights, maybe_weight};
ghost use Rattle.lalrpop_norm_tyinfer_steps.specs.Pairs.{same_pairs, pair_weights, same_applied};

use lalrpop_norm_shared_types::shared::{AppliedPath, SharedType, TypeNode};
use lalrpop_norm_tree::grammar::parse_tree::{Atom, Lifetime, NoMemory, Path, TypeParameter};
use std::alloc::Global;

pub(crate) fn is_same_name(a: &Atom, b: &Atom) -> bool
    ensures { result ≡ bytes_eq a.now b.now }
{
    a == b
}

fn is_same_flag(a: bool, b: bool) -> bool
    ensures { result ≡ same_flag a b }
{
    if a { b } else { !b }
}

fn is_same_lifetime(a: &Option<Lifetime>, b: &Option<Lifetime>) -> bool
    ensures { result ≡ same_lifetime a.now b.now }
{
    match (a, b) {
        (None, None) => true,
        (Some(a), Some(b)) => a.0 == b.0,
        (None, Some(_)) => false,
        (Some(_), None) => false,
    }
}

fn is_same_parameter(a: &TypeParameter, b: &TypeParameter) -> bool
    ensures { result ≡ same_parameter a.now b.now }
{
    match (a, b) {
        (TypeParameter::Lifetime(a), TypeParameter::Lifetime(b)) => is_same_name(&a.0, &b.0),
        (TypeParameter::Id(a), TypeParameter::Id(b)) => is_same_name(a, b),
        (TypeParameter::Lifetime(_), TypeParameter::Id(_)) => false,
        (TypeParameter::Id(_), TypeParameter::Lifetime(_)) => false,
    }
}

fn are_same_parameters(a: &[TypeParameter], b: &[TypeParameter]) -> bool
    ensures { result ≡ all_same same_parameter a.now b.now }
{
    if a.len() != b.len() {
        return false;
    }
    for i in 0..a.len() {
        if !is_same_parameter(&a[i], &b[i]) {
            return false;
        }
    }
    true
}

fn are_same_names(a: &[Atom], b: &[Atom]) -> bool
    ensures { result ≡ all_same bytes_eq a.now b.now }
{
    if a.len() != b.len() {
        return false;
    }
    for i in 0..a.len() {
        if a[i] != b[i] {
            return false;
        }
    }
    true
}

fn is_same_path(a: &Path, b: &Path) -> bool
    ensures { result ≡ same_path (path_view a.now) (path_view b.now) }
{
    is_same_flag(a.absolute, b.absolute) && are_same_names(&a.ids, &b.ids)
}

/// Whether the two are equal. The only error is a failed allocation.
pub fn is_same_type(alloc: Global, a: &SharedType, b: &SharedType) -> Result<bool, NoMemory>
    ensures { IfOk result (λ s. s ≡ same_type (shared_view a.now) (shared_view b.now)) }
{
    let mut pending = Vec::new(alloc);
    pending.push((a, b))?;
    while let Some((a, b)) = pending.pop() {
        if !is_same_level(a.node(), b.node(), &mut pending)? {
            return Ok(false);
        }
    }
    Ok(true)
}

/// Whether two levels are equal but for the types in them, which are put on the list. The only error is a failed allocation.
fn is_same_level<'a>(
    a: &'a TypeNode,
    b: &'a TypeNode,
    pending: &mut Vec<(&'a SharedType, &'a SharedType)>,
) -> Result<bool, NoMemory>
    ensures same { IfOk result (λ s. (s && same_pairs pending.new.items)
        ≡ (same_type (node_view a.now) (node_view b.now) && same_pairs pending.old.items)) }
    ensures weight { OnOk result (pair_weights pending.new.items < weight (node_view a.now) + pair_weights pending.old.items) }
{
    match (a, b) {
        (TypeNode::Tuple(a), TypeNode::Tuple(b)) => push_pairs(a, b, pending),
        (TypeNode::Slice(a), TypeNode::Slice(b)) => push_pair(a, b, pending),
        (TypeNode::Nominal(a), TypeNode::Nominal(b)) => is_same_applied(a, b, pending),
        (TypeNode::TraitObject(a), TypeNode::TraitObject(b)) => is_same_applied(a, b, pending),
        (
            TypeNode::Associated { type_parameter, id },
            TypeNode::Associated {
                type_parameter: other_parameter,
                id: other_id,
            },
        ) => Ok(type_parameter == other_parameter && id == other_id),
        (TypeNode::Lifetime(a), TypeNode::Lifetime(b)) => Ok(a.0 == b.0),
        (
            TypeNode::Ref {
                lifetime,
                mutable,
                referent,
            },
            _,
        ) => is_same_reference(lifetime, *mutable, referent, b, pending),
        (
            TypeNode::Fn {
                forall,
                path,
                parameters,
                ret,
            },
            _,
        ) => is_same_function(forall, path, parameters, ret, b, pending),
        _ => Ok(false),
    }
}

/// Whether the other level is such a reference but for the type in it, which is put on the list with this one.
fn is_same_reference<'a>(
    lifetime: &Option<Lifetime>,
    mutable: bool,
    referent: &'a SharedType,
    other: &'a TypeNode,
    pending: &mut Vec<(&'a SharedType, &'a SharedType)>,
) -> Result<bool, NoMemory>
    ensures same { IfOk result (λ s. (s && same_pairs pending.new.items)
        ≡ (same_type (reference lifetime.now mutable (shared_view referent.now)) (node_view other.now) && same_pairs pending.old.items)) }
    ensures weight { OnOk result (pair_weights pending.new.items ≤ weight (shared_view referent.now) + pair_weights pending.old.items) }
{
    match other {
        TypeNode::Ref {
            lifetime: other_lifetime,
            mutable: other_mutable,
            referent: other_referent,
        } => {
            if is_same_lifetime(lifetime, other_lifetime) && is_same_flag(mutable, *other_mutable) {
                push_pair(referent, other_referent, pending)
            } else {
                Ok(false)
            }
        }
        _ => Ok(false),
    }
}

/// Whether the other level is such a function but for the types in it, which are put on the list with these.
fn is_same_function<'a>(
    forall: &[TypeParameter],
    path: &Path,
    parameters: &'a Vec<SharedType>,
    ret: &'a Option<SharedType>,
    other: &'a TypeNode,
    pending: &mut Vec<(&'a SharedType, &'a SharedType)>,
) -> Result<bool, NoMemory>
    ensures same { IfOk result (λ s. (s && same_pairs pending.new.items)
        ≡ (same_type (function forall.now (path_view path.now) (shared_all parameters.now.items) (maybe_repr_of (option_map shared_view ret.now))) (node_view other.now) && same_pairs pending.old.items)) }
    ensures weight { OnOk result (pair_weights pending.new.items ≤ (all_weights parameters.now.items + maybe_weight ret.now) + pair_weights pending.old.items) }
{
    match other {
        TypeNode::Fn {
            forall: other_forall,
            path: other_path,
            parameters: other_parameters,
            ret: other_ret,
        } => {
            if are_same_parameters(forall, other_forall) && is_same_path(path, other_path) {
                push_parts(parameters, ret, other_parameters, other_ret, pending)
            } else {
                Ok(false)
            }
        }
        _ => Ok(false),
    }
}

/// Whether two functions have as many parameters, and both a result or none; the types of these are put on the list.
fn push_parts<'a>(
    parameters: &'a Vec<SharedType>,
    ret: &'a Option<SharedType>,
    other_parameters: &'a Vec<SharedType>,
    other_ret: &'a Option<SharedType>,
    pending: &mut Vec<(&'a SharedType, &'a SharedType)>,
) -> Result<bool, NoMemory>
    ensures same { IfOk result (λ s. (s && same_pairs pending.new.items)
        ≡ ((same_types (shared_all parameters.now.items) (shared_all other_parameters.now.items)
        && same_return (maybe_repr_of (option_map shared_view ret.now)) (maybe_repr_of (option_map shared_view other_ret.now)))
        && same_pairs pending.old.items)) }
    ensures weight { OnOk result (pair_weights pending.new.items
        ≤ (all_weights parameters.now.items + maybe_weight ret.now) + pair_weights pending.old.items) }
{
    if push_pairs(parameters, other_parameters, pending)? {
        push_results(ret, other_ret, pending)
    } else {
        Ok(false)
    }
}

/// Whether two paths are equal but for the types in them, which are put on the list.
fn is_same_applied<'a>(
    a: &'a AppliedPath,
    b: &'a AppliedPath,
    pending: &mut Vec<(&'a SharedType, &'a SharedType)>,
) -> Result<bool, NoMemory>
    ensures same { IfOk result (λ s. (s && same_pairs pending.new.items)
        ≡ (same_applied (applied_path_view a.now) (applied_path_view b.now) && same_pairs pending.old.items)) }
    ensures weight { OnOk result (pair_weights pending.new.items ≤ weights (applied_path_view a.now).1 + pair_weights pending.old.items) }
{
    if is_same_path(&a.path, &b.path) {
        push_pairs(&a.types, &b.types, pending)
    } else {
        Ok(false)
    }
}

/// Whether both are there or both are not; if they are there, they are put on the list.
fn push_results<'a>(
    a: &'a Option<SharedType>,
    b: &'a Option<SharedType>,
    pending: &mut Vec<(&'a SharedType, &'a SharedType)>,
) -> Result<bool, NoMemory>
    ensures same { IfOk result (λ s. (s && same_pairs pending.new.items)
        ≡ (same_return (maybe_repr_of (option_map shared_view a.now)) (maybe_repr_of (option_map shared_view b.now)) && same_pairs pending.old.items)) }
    ensures weight { OnOk result (pair_weights pending.new.items ≤ maybe_weight a.now + pair_weights pending.old.items) }
{
    match (a, b) {
        (None, None) => Ok(true),
        (Some(a), Some(b)) => push_pair(a, b, pending),
        _ => Ok(false),
    }
}

/// Whether the two lists have one length; then their types are put on the list in pairs.
fn push_pairs<'a>(
    a: &'a Vec<SharedType>,
    b: &'a Vec<SharedType>,
    pending: &mut Vec<(&'a SharedType, &'a SharedType)>,
) -> Result<bool, NoMemory>
    ensures same { IfOk result (λ s. (s && same_pairs pending.new.items)
        ≡ (same_types (shared_all a.now.items) (shared_all b.now.items) && same_pairs pending.old.items)) }
    ensures weight { OnOk result (pair_weights pending.new.items ≤ all_weights a.now.items + pair_weights pending.old.items) }
{
    if a.len() != b.len() {
        return Ok(false);
    }
    for i in 0..a.len() {
        pending.push((&a[i], &b[i]))?;
    }
    Ok(true)
}

/// Puts the two on the list. The answer is true.
fn push_pair<'a>(
    a: &'a SharedType,
    b: &'a SharedType,
    pending: &mut Vec<(&'a SharedType, &'a SharedType)>,
) -> Result<bool, NoMemory>
    ensures same { IfOk result (λ s. (s && same_pairs pending.new.items)
        ≡ (same_type (shared_view a.now) (shared_view b.now) && same_pairs pending.old.items)) }
    ensures weight { OnOk result (pair_weights pending.new.items ≤ weight (shared_view a.now) + pair_weights pending.old.items) }
{
    pending.push((a, b))?;
    Ok(true)
}
