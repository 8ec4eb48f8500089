//! What the clauses of a rule make of a table of types.
ghost use Rattle.std.specs.Prelude.{◌≡◌, List, Some, IfOk, map, option_map};
ghost use Rattle.lalrpop_norm_tree_names.specs.declared.names.TypeParameter.{TypeParameter};
ghost use Rattle.lalrpop_norm_tree_parts.specs.Reprs.{tuple};
ghost use Rattle.lalrpop_norm_tree.specs.Symbols.{kind_view};
ghost use Rattle.lalrpop_norm_shared_types.specs.Shared.{shared_view, shared_all};
ghost use Rattle.lalrpop_norm_tyinfer_steps.specs.Clauses.{kinds_in, sources_in, clause_view, clauses_view, clause_in, first_in};
ghost use Rattle.lalrpop_norm_tyinfer_steps.specs.Numbered.{numbered_table};

use lalrpop_norm_shared_types::shared::{SharedType, TypeNode};
use lalrpop_norm_tree::grammar::parse_tree::{NoMemory, Symbol, TypeParameter};
use lalrpop_norm_tyinfer_steps::numbered::Numbered;
use lalrpop_norm_tyinfer_steps::type_sources::{RuleClauses, TypeSource};
use lalrpop_norm_tyinfer_steps::values::{kind_value, type_value};
use std::alloc::Global;

/// The type that a clause of an alternative makes of the table, if it makes one, whatever the type parameters.
pub(crate) fn clause_value(
    alloc: Global,
    types: &Numbered,
    clause: &TypeSource,
) -> Result<Option<SharedType>, NoMemory>
    ensures { IfOk result (λ o. (ps : List TypeParameter) →
        option_map shared_view o ≡ clause_in ps (numbered_table types.now) (clause_view clause.now)) }
{
    match clause {
        TypeSource::Sources(sources) => sources_value(alloc, types, sources),
        TypeSource::Location => location_value(alloc, types),
    }
}

fn location_value(alloc: Global, types: &Numbered) -> Result<Option<SharedType>, NoMemory>
    ensures { IfOk result (λ o. option_map shared_view o ≡ (numbered_table types.now).location) }
{
    match types.opt_terminal_loc_type() {
        Some(ty) => Ok(Some(SharedType::of(alloc, ty)?)),
        None => Ok(None),
    }
}

/// The type of the values of these symbols, each with its index: one bare, any other number of them as a tuple.
fn sources_value(
    alloc: Global,
    types: &Numbered,
    sources: &[(usize, &Symbol)],
) -> Result<Option<SharedType>, NoMemory>
    ensures { IfOk result (λ o. option_map shared_view o
        ≡ sources_in (numbered_table types.now) (map (λ t. kind_view t.1.now.kind) sources.now)) }
{
    match sources {
        [source] => kind_value(alloc, types, &source.1.kind),
        _ => match all_values(alloc, types, sources)? {
            Some(values) => tuple_type(alloc, values),
            None => Ok(None),
        },
    }
}

/// The tuple of these types.
fn tuple_type(alloc: Global, types: Vec<SharedType>) -> Result<Option<SharedType>, NoMemory>
    ensures { IfOk result (λ o. option_map shared_view o ≡ Some (tuple (shared_all types.items))) }
{
    let ty = SharedType::new(alloc, TypeNode::Tuple(types))?;
    Ok(Some(ty))
}

fn all_values(
    alloc: Global,
    types: &Numbered,
    sources: &[(usize, &Symbol)],
) -> Result<Option<Vec<SharedType>>, NoMemory>
    ensures { IfOk result (λ o. option_map (λ ts. shared_all ts.items) o
        ≡ kinds_in (numbered_table types.now) (map (λ t. kind_view t.1.now.kind) sources.now)) }
{
    let mut values = Vec::with_capacity(alloc, sources.len())?;
    for source in sources {
        match kind_value(alloc, types, &source.1.kind)? {
            Some(ty) => values.push(ty)?,
            None => return Ok(None),
        }
    }
    Ok(Some(values))
}

/// The type that the first clause of a rule makes of the table that makes one.
pub(crate) fn first_value(
    alloc: Global,
    parameters: &[TypeParameter],
    types: &Numbered,
    clauses: &RuleClauses,
) -> Result<Option<SharedType>, NoMemory>
    ensures { IfOk result (λ o. option_map shared_view o ≡ first_in parameters.now (numbered_table types.now) (clauses_view clauses.now)) }
{
    match clauses {
        RuleClauses::Declared(written) => type_value(alloc, parameters, types, written),
        RuleClauses::Alternatives(clauses) => first_given(alloc, types, clauses),
    }
}

/// The type that the first of these alternatives' clauses makes that makes one, whatever the type parameters.
fn first_given(
    alloc: Global,
    types: &Numbered,
    clauses: &[TypeSource],
) -> Result<Option<SharedType>, NoMemory>
    ensures { IfOk result (λ o. (ps : List TypeParameter) →
        option_map shared_view o ≡ first_in ps (numbered_table types.now) (map clause_view clauses.now)) }
{
    for clause in clauses {
        if let Some(ty) = clause_value(alloc, types, clause)? {
            return Ok(Some(ty));
        }
    }
    Ok(None)
}
