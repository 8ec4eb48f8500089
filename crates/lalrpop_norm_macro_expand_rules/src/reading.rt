//! Alternatives that are read in an environment.
ghost use Rattle.std.specs.Prelude.{◌≡◌, OnOk, map, flat_map};
ghost use Rattle.lalrpop_norm_tree.specs.Items.{alternative_view};
ghost use Rattle.lalrpop_norm_tree.specs.Symbols.{parts_view, symbol_view};
ghost use Rattle.lalrpop_norm_faults.specs.Faults.{Refuses};
ghost use Rattle.lalrpop_norm_model.specs.PlainRules.{all_met, met};
ghost use Rattle.lalrpop_norm_nodes.specs.Given.{all_whole, all_shown, read_whole, read_shown};
ghost use Rattle.lalrpop_norm_nodes.specs.Reads.{CanRead};
ghost use Rattle.lalrpop_norm_nodes.specs.Tables.{wholes_in, IsCounted, TableMeets, refused_in};
ghost use Rattle.lalrpop_norm_nodes.specs.Waits.{all_shown_met, shown_met, LeavesWaiting};
ghost use Rattle.lalrpop_norm_macro_expand_rules.specs.Generated.{met_there, shown_there, read_there};
ghost use Rattle.lalrpop_norm_macro_expand_rules.specs.Unchanged.{is_unchanged};

use lalrpop_norm_faults::NormResult;
use lalrpop_norm_nodes::given::{Environment, given_in};
use lalrpop_norm_nodes::read::read_symbol;
use lalrpop_norm_nodes::table::Table;
use lalrpop_norm_tree::grammar::parse_tree::{Alternative, GrammarSymbol, Symbol};
use std::alloc::Global;

/// Reads symbols one after another, and rewrites them in place. Unlike those of a group or a call they are no node together.
fn read_symbols(
    alloc: Global,
    environment: &Environment,
    symbols: &mut [Symbol],
    table: &mut Table,
) -> NormResult<()>
    requires { CanRead table.old environment.now }
    ensures refuses { Refuses result (refused_in table.old
        (all_met (all_whole (wholes_in table.old) environment.now (parts_view symbols.old)))) }
    ensures meets { OnOk result (TableMeets table.old table.new
        (all_met (all_whole (wholes_in table.old) environment.now (parts_view symbols.old)))) }
    ensures counted { OnOk result (IsCounted table.new) }
    ensures waits { OnOk result (LeavesWaiting table.old table.new (all_shown_met environment.now (parts_view symbols.old))) }
    ensures value { OnOk result (parts_view symbols.new ≡ all_shown environment.now (parts_view symbols.old)) }
{
    for i in 0..symbols.len() {
        read_in_place(alloc, environment, &mut symbols[i], table)?;
    }
    Ok(())
}

/// Reads a symbol whose id nobody asks for. One that stays as it is needs none: most symbols of a grammar are such.
fn read_in_place(
    alloc: Global,
    environment: &Environment,
    symbol: &mut Symbol,
    table: &mut Table,
) -> NormResult<()>
    requires { CanRead table.old environment.now }
    ensures refuses { Refuses result
        (refused_in table.old (met (read_whole (wholes_in table.old) environment.now (symbol_view symbol.old)))) }
    ensures meets { OnOk result (TableMeets table.old table.new
        (met (read_whole (wholes_in table.old) environment.now (symbol_view symbol.old)))) }
    ensures counted { OnOk result (IsCounted table.new) }
    ensures waits { OnOk result (LeavesWaiting table.old table.new (shown_met environment.now (symbol_view symbol.old))) }
    ensures value { OnOk result (symbol_view symbol.new ≡ read_shown environment.now (symbol_view symbol.old)) }
{
    if is_unchanged(environment, symbol) {
        return Ok(());
    }
    read_symbol(alloc, environment, symbol, table)?;
    Ok(())
}

/// Whether a symbol is read without a change: a terminal, `!`, or a nonterminal that is no argument's name, under wrappers too.
fn is_unchanged(environment: &Environment, symbol: &Symbol) -> bool
    ensures { result ≡ is_unchanged environment.now (symbol_view symbol.now) }
{
    match symbol.unwrapped().kind.as_grammar_symbol() {
        Some(GrammarSymbol::Terminal(_)) | Some(GrammarSymbol::Error) => true,
        Some(GrammarSymbol::Nonterminal(name)) => given_in(environment, name).is_none(),
        None => false,
    }
}

fn read_alternative(
    alloc: Global,
    environment: &Environment,
    alternative: &mut Alternative,
    table: &mut Table,
) -> NormResult<()>
    requires { CanRead table.old environment.now }
    ensures refuses { Refuses result (refused_in table.old (met_there table.old environment.now (alternative_view alternative.old))) }
    ensures meets { OnOk result (TableMeets table.old table.new (met_there table.old environment.now (alternative_view alternative.old))) }
    ensures counted { OnOk result (IsCounted table.new) }
    ensures waits { OnOk result (LeavesWaiting table.old table.new (shown_there environment.now (alternative_view alternative.old))) }
    ensures value { OnOk result (alternative_view alternative.new ≡ read_there environment.now (alternative_view alternative.old)) }
{
    read_symbols(alloc, environment, &mut alternative.expr.symbols, table)
}

/// Reads alternatives in order, and rewrites their symbols in place.
pub(crate) fn read_alternatives(
    alloc: Global,
    environment: &Environment,
    alternatives: &mut [Alternative],
    table: &mut Table,
) -> NormResult<()>
    requires { CanRead table.old environment.now }
    ensures refuses { Refuses result (refused_in table.old
        (flat_map (met_there table.old environment.now) (map alternative_view alternatives.old))) }
    ensures meets { OnOk result (TableMeets table.old table.new
        (flat_map (met_there table.old environment.now) (map alternative_view alternatives.old))) }
    ensures counted { OnOk result (IsCounted table.new) }
    ensures waits { OnOk result (LeavesWaiting table.old table.new
        (flat_map (shown_there environment.now) (map alternative_view alternatives.old))) }
    ensures value { OnOk result (map alternative_view alternatives.new
        ≡ map (read_there environment.now) (map alternative_view alternatives.old)) }
{
    for i in 0..alternatives.len() {
        read_alternative(alloc, environment, &mut alternatives[i], table)?;
    }
    Ok(())
}
