//! The types that need no inference, in a table: those that conversions select, and the rows of terminals.
ghost use Rattle.std.specs.Prelude.{◌≡◌, ◌++◌, None, IfOk, OnOk, map, flat_map};
ghost use Rattle.lalrpop_norm_tree.specs.Items.{conversion_view, grammar_view};
ghost use Rattle.lalrpop_norm_tree.specs.LoweredTypes.{repr_of};
ghost use Rattle.lalrpop_norm_tree_patterns.specs.Patterns.{pattern_view};
ghost use Rattle.lalrpop_norm_tree_parts.specs.Reprs.{repr_view};
ghost use Rattle.lalrpop_norm_tree.specs.Types.{type_view};
ghost use Rattle.lalrpop_norm_repr.specs.Tables.{type_table};
ghost use Rattle.lalrpop_norm_model.specs.TerminalTypes.{chosen_in_pattern, type_of_chosen, conversion_row, extern_enum, rows_with};
ghost use Rattle.lalrpop_norm_tyinfer_steps.specs.TokenTypes.{AddsTerminals, rows_seen, base_table};

use lalrpop_norm_repr::grammar::repr::{TypeRepr, Types};
use lalrpop_norm_tree::grammar::parse_tree::{Conversion, Grammar, NoMemory, TypeRef};
use lalrpop_norm_tree::grammar::pattern::Pattern;
use lalrpop_norm_tyinfer_steps::tokens::{
    Row, add_rows, base_types, entry_rows, rows_to_come, type_of_chosen,
};
use std::alloc::Global;

/// The table of the types that need no inference. It lists no nonterminal yet.
pub(crate) fn token_types(alloc: Global, grammar: &Grammar) -> Result<Types, NoMemory>
    ensures { IfOk result (λ t. AddsTerminals (base_table (grammar_view grammar.now)) (type_table t)
        (rows_with (extern_enum (grammar_view grammar.now)) (grammar_view grammar.now))) }
{
    let mut types = base_types(alloc, grammar)?;
    let rows = token_rows(alloc, grammar)?;
    add_rows(&mut types, rows)?;
    Ok(types)
}

/// The terminals with a type of their own, beside the error terminal.
fn token_rows(alloc: Global, grammar: &Grammar) -> Result<Vec<Row>, NoMemory>
    ensures { IfOk result (λ rs. rows_seen rs.items ≡ rows_with (extern_enum (grammar_view grammar.now)) (grammar_view grammar.now)) }
{
    match grammar.enum_token() {
        Some(tokens) => conversion_rows(alloc, &tokens.conversions),
        None => match grammar.intern_token() {
            Some(tokens) => entry_rows(alloc, &tokens.match_entries),
            None => rows_to_come(alloc, grammar),
        },
    }
}

fn conversion_rows(alloc: Global, conversions: &[Conversion]) -> Result<Vec<Row>, NoMemory>
    ensures { IfOk result (λ rs. rows_seen rs.items ≡ flat_map conversion_row (map conversion_view conversions.now)) }
{
    let mut rows = Vec::new(alloc);
    for conversion in conversions {
        add_conversion(alloc, &mut rows, conversion)?;
    }
    Ok(rows)
}

/// A conversion that selects types gives these to its terminal.
fn add_conversion(
    alloc: Global,
    rows: &mut Vec<Row>,
    conversion: &Conversion,
) -> Result<(), NoMemory>
    ensures { OnOk result (rows_seen rows.new.items ≡ rows_seen rows.old.items ++ conversion_row (conversion_view conversion.now)) }
{
    let chosen = chosen_types(alloc, &conversion.to)?;
    let terminal = conversion.from.clone()?;
    match type_of_chosen(chosen) {
        Some(ty) => {
            rows.push((terminal, ty))?;
            Ok(())
        }
        None => {
            // By a call: where a value of this type ends in place, its drop is proved there, variant by variant.
            drop(terminal);
            Ok(())
        }
    }
}

/// The types that a pattern selects, in reading order.
fn chosen_types(alloc: Global, pattern: &Pattern<TypeRef>) -> Result<Vec<TypeRepr>, NoMemory>
    ensures { IfOk result (λ ts. map repr_view ts.items ≡ map repr_of (chosen_in_pattern (pattern_view type_view pattern.now))) }
{
    let chosen = pattern.bindings(alloc)?;
    lowered_types(alloc, &chosen)
}

fn lowered_types(alloc: Global, written: &[&TypeRef]) -> Result<Vec<TypeRepr>, NoMemory>
    ensures { IfOk result (λ ts. map repr_view ts.items ≡ map (λ t. repr_of (type_view t.now)) written.now) }
{
    let mut types = Vec::with_capacity(alloc, written.len())?;
    for ty in written {
        types.push(ty.lowered(alloc)?)?;
    }
    Ok(types)
}
