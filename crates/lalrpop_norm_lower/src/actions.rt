//! The types of what the action code gets.
ghost use Rattle.std.specs.Prelude.{◌≡◌, IfOk, map, option_map, unwrap_or};
ghost use Rattle.lalrpop_norm_tree_parts.specs.Reprs.{unit_type};
ghost use Rattle.lalrpop_norm_tree.specs.Symbols.{parts_view, symbol_view};
ghost use Rattle.lalrpop_norm_shared_types.specs.Shared.{shared_view};
ghost use Rattle.lalrpop_norm_lower.specs.Lowering.{lowered_symbol, lowered_symbols, type_or_unit};
ghost use Rattle.lalrpop_norm_lower.specs.State.{table_by_number};

use crate::numbered::{NumberedTypes, unit_type};
use crate::symbols::lowered_symbol;
use lalrpop_norm_repr::grammar::repr::Symbol;
use lalrpop_norm_shared_types::shared::SharedType;
use lalrpop_norm_tree::grammar::parse_tree as pt;
use lalrpop_norm_tree::grammar::parse_tree::NoMemory;
use std::alloc::Global;

/// The type of each symbol.
pub(crate) fn symbol_types(
    alloc: Global,
    types: &NumberedTypes,
    symbols: &[pt::Symbol],
) -> Result<Vec<SharedType>, NoMemory>
    ensures { IfOk result (λ ts. map shared_view ts.items
        ≡ map (type_or_unit (table_by_number types.now)) (lowered_symbols (parts_view symbols.now))) }
{
    let mut found = Vec::with_capacity(alloc, symbols.len())?;
    for symbol in symbols {
        found.push(type_of_symbol(alloc, types, symbol)?)?;
    }
    Ok(found)
}

/// The type of a symbol, by what it is in a production.
fn type_of_symbol(
    alloc: Global,
    types: &NumberedTypes,
    symbol: &pt::Symbol,
) -> Result<SharedType, NoMemory>
    ensures { IfOk result (λ t. shared_view t ≡ type_or_unit (table_by_number types.now) (lowered_symbol (symbol_view symbol.now))) }
{
    let lowered = lowered_symbol(alloc, symbol)?;
    type_or_unit(alloc, types, &lowered)
}

/// The type of a symbol of a production. Each symbol of an expanded grammar has one.
fn type_or_unit(
    alloc: Global,
    types: &NumberedTypes,
    symbol: &Symbol,
) -> Result<SharedType, NoMemory>
    ensures { IfOk result (λ t. shared_view t ≡ type_or_unit (table_by_number types.now) symbol.now) }
{
    match symbol {
        Symbol::Terminal(terminal) => types.terminal(terminal),
        Symbol::Nonterminal(name) => owned_or_unit(alloc, types.nonterminal(name)),
    }
}

/// The type of a rule: one more owner of the one that it has, or the unit type.
pub(crate) fn owned_or_unit(alloc: Global, ty: Option<&SharedType>) -> Result<SharedType, NoMemory>
    ensures { IfOk result (λ t. shared_view t ≡ unwrap_or (option_map (λ t. shared_view t.now) ty.entry) unit_type) }
{
    match ty {
        Some(ty) => Ok(ty.clone()?),
        None => unit_type(alloc),
    }
}
