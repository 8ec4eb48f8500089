//! Global names passed on: a grammar whose names are resolved, beside the table by which they were.
ghost use Rattle.std.specs.Prelude.{◌≡◌, [], IfOk, OnOk, map};
ghost use Rattle.lalrpop_norm_tree.specs.Items.{grammar_view, item_view};
ghost use Rattle.lalrpop_norm_faults.specs.Faults.{Refuses, RefusesOr};
ghost use Rattle.lalrpop_norm_model.specs.Scopes.{globals, resolved_item, resolved_grammar};
ghost use Rattle.lalrpop_norm_resolve.specs.NameFaults.{resolve_faults};
ghost use Rattle.lalrpop_norm_resolve.specs.NameTables.{rows_of, all_rows, items_globals, names_faults};
ghost use Rattle.lalrpop_norm_resolve.specs.NewNames.{table_rows, with_made, are_new};

use crate::resolve::GlobalTable;
use crate::resolve::globals::globals_of;
use crate::resolve::items::resolve_items;
use crate::resolve::symbols::global;
use lalrpop_norm_faults::NormResult;
use lalrpop_norm_names::Seeded;
use lalrpop_norm_tree::grammar::parse_tree::{Atom, Grammar, GrammarItem, NoMemory};
use std::alloc::Global;
use std::collections::HashSet;

/// The global names of a grammar.
#[derive(Drop)]
pub struct GlobalNames {
    pub(crate) table: GlobalTable,
}

/// A grammar whose names are resolved, and its global names.
#[derive(Drop)]
pub struct Resolved {
    /// The grammar, with each name as what it means.
    pub grammar: Grammar,
    /// The global names of the grammar, and what each is declared as.
    pub names: GlobalNames,
}

/// The answer of [`resolve`](crate::resolve::resolve), with the global names, for a pass that generates more of them.
///
/// Errors: those of `resolve`, F25 to F32; `Memory`.
pub fn resolve_names(alloc: Global, mut grammar: Grammar) -> NormResult<Resolved>
    ensures resolves { RefusesOr result (resolve_faults (grammar_view grammar))
        (λ r. grammar_view r.grammar ≡ resolved_grammar (grammar_view grammar)) }
    ensures names { IfOk result (λ r. table_rows r.names ≡ all_rows [] (globals (grammar_view grammar))) }
{
    let names = resolve_in_place(alloc, &mut grammar.items)?;
    Ok(Resolved { grammar, names })
}

fn resolve_in_place(alloc: Global, items: &mut [GrammarItem]) -> NormResult<GlobalNames>
    ensures refuses { Refuses result (names_faults (map item_view items.old)) }
    ensures resolves { OnOk result (map item_view items.new
        ≡ map (resolved_item (items_globals (map item_view items.old))) (map item_view items.old)) }
    ensures names { IfOk result (λ n. table_rows n ≡ all_rows [] (items_globals (map item_view items.old))) }
{
    let globals = globals_of(alloc, items)?;
    resolve_items(alloc, &globals, items)?;
    Ok(GlobalNames { table: globals })
}

/// Whether none of some names is among the global ones, and none is there twice.
pub fn are_new(alloc: Global, names: GlobalNames, made: &[Atom]) -> Result<bool, NoMemory>
    ensures { IfOk result (λ new. new ≡ are_new (table_rows names) made.now) }
{
    let mut read = HashSet::with_hasher(alloc, Seeded::by_names(made));
    let new = read_each(&names.table, &mut read, made)?;
    Ok(new)
}

/// Reads names up to one that the table has, or that was read.
fn read_each(
    table: &GlobalTable,
    read: &mut HashSet<Atom, Seeded>,
    made: &[Atom],
) -> Result<bool, NoMemory>
    ensures { IfOk result (λ new. new ≡ are_new (with_made (rows_of table.now) read.old) made.now) }
{
    for name in made {
        if global(table, name).is_some() || !read.insert(name.again())? {
            return Ok(false);
        }
    }
    Ok(true)
}
