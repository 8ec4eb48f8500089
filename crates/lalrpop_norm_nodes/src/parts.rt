//! The ids of the parts of a symbol.
ghost use Rattle.std.specs.Prelude.{◌≡◌, true, IfOk, Some, map, length, slice_get};
ghost use Rattle.lalrpop_norm_model.specs.MadeRules.{kind_of, all_kinds};
ghost use Rattle.lalrpop_norm_nodes.specs.Wholes.{one_symbol, kind_at, symbols_at, IsKind, AreSymbols, StandsFor};
ghost use Rattle.lalrpop_norm_nodes.specs.Tables.{wholes_in, IsNodeTable};
ghost use Rattle.lalrpop_norm_nodes.specs.NodeParts.{is_call, call_parts, is_repeat, repeated_kind, row_of_call, part_of_repeat};
ghost use Rattle.lalrpop_norm_nodes.specs.NodeParts.{last_in_row, EndsRow};

use crate::given::Given;
use crate::node::{Binary, NamedUnary, Node, Unary};
use crate::table::Table;
use lalrpop_norm_tree::grammar::parse_tree::{NoMemory, Symbol};
use std::alloc::Global;

/// The row of the arguments of a call.
fn row_of_call(node: &Node) -> usize
    ensures { result ≡ row_of_call node.now }
{
    match node {
        Node::NamedUnary(NamedUnary::Call, _, row) => *row,
        Node::NamedUnary(NamedUnary::Named | NamedUnary::NamedMut, _, _)
        | Node::Leaf(_)
        | Node::NamedLeaf(_, _)
        | Node::Terminal(_)
        | Node::Unary(_, _)
        | Node::Binary(_, _, _) => 0,
    }
}

/// What a repeat repeats.
fn part_of_repeat(node: &Node) -> usize
    ensures { result ≡ part_of_repeat node.now }
{
    match node {
        Node::Unary(Unary::Star | Unary::Plus | Unary::Question | Unary::Times(_), number) =>
            *number,
        Node::Unary(Unary::Group | Unary::Chosen | Unary::Several, _)
        | Node::Leaf(_)
        | Node::NamedLeaf(_, _)
        | Node::Terminal(_)
        | Node::NamedUnary(_, _, _)
        | Node::Binary(_, _, _) => 0,
    }
}

/// What is before the last of a row, and the last.
fn last_in_row(node: &Node) -> Option<(usize, usize)>
    ensures { result ≡ last_in_row node.now }
{
    match node {
        Node::Binary(Binary::Symbols, row, number) => Some((*row, *number)),
        Node::Binary(Binary::Patterns | Binary::Tuple, _, _)
        | Node::Leaf(_)
        | Node::NamedLeaf(_, _)
        | Node::Terminal(_)
        | Node::Unary(_, _)
        | Node::NamedUnary(_, _, _) => None,
    }
}

/// The id of what a repeat repeats.
pub fn repeated_number(table: &Table, number: usize) -> usize
    requires table { IsNodeTable table.now }
    requires stands { IsKind (wholes_in table.now) number }
    requires repeat { is_repeat (kind_at (wholes_in table.now) number) ≡ true }
    ensures { StandsFor (wholes_in table.now) result (one_symbol (repeated_kind (kind_at (wholes_in table.now) number))) }
{
    match table.node(number) {
        Some(node) => part_of_repeat(node),
        None => number,
    }
}

/// The id of the row of a call's arguments.
fn arguments_row(table: &Table, number: usize) -> usize
    requires table { IsNodeTable table.now }
    requires stands { IsKind (wholes_in table.now) number }
    requires call { is_call (kind_at (wholes_in table.now) number) ≡ true }
    ensures row { AreSymbols (wholes_in table.now) result }
    ensures kinds { map kind_of (symbols_at (wholes_in table.now) result)
        ≡ all_kinds (call_parts (kind_at (wholes_in table.now) number)) }
{
    match table.node(number) {
        Some(node) => row_of_call(node),
        None => number,
    }
}

/// How a row ends, if it is not empty.
fn row_end(table: &Table, row: usize) -> Option<(usize, usize)>
    requires table { IsNodeTable table.now }
    requires row { AreSymbols (wholes_in table.now) row }
    ensures { EndsRow (wholes_in table.now) (symbols_at (wholes_in table.now) row) result }
{
    match table.node(row) {
        Some(node) => last_in_row(node),
        None => None,
    }
}

/// Symbols with the ids of a row, from the last one on.
fn given_in_row(
    alloc: Global,
    table: &Table,
    row: usize,
    symbols: Vec<Symbol>,
) -> Result<Vec<Given>, NoMemory>
    requires table { IsNodeTable table.now }
    requires row { AreSymbols (wholes_in table.now) row }
    requires long { length (symbols_at (wholes_in table.now) row) ≡ length symbols.items }
    ensures numbers { IfOk result (λ gs. map (λ g. slice_get (wholes_in table.now) g.number) gs.items
        ≡ map (λ p. Some (one_symbol (kind_of p))) (symbols_at (wholes_in table.now) row)) }
    ensures symbols { IfOk result (λ gs. map (λ g. g.symbol) gs.items ≡ symbols.items) }
{
    let mut given = Vec::with_capacity(alloc, symbols.len())?;
    let mut symbols = symbols;
    let mut row = row;
    while let Some(symbol) = symbols.pop() {
        if let Some((before, number)) = row_end(table, row) {
            given.push(Given { number, symbol })?;
            row = before;
        }
    }
    given.reverse();
    Ok(given)
}

/// The arguments of a call, with their ids.
pub fn given_by_call(
    alloc: Global,
    table: &Table,
    number: usize,
    symbols: Vec<Symbol>,
) -> Result<Vec<Given>, NoMemory>
    requires table { IsNodeTable table.now }
    requires stands { IsKind (wholes_in table.now) number }
    requires call { is_call (kind_at (wholes_in table.now) number) ≡ true }
    requires long { length (all_kinds (call_parts (kind_at (wholes_in table.now) number))) ≡ length symbols.items }
    ensures numbers { IfOk result (λ gs. map (λ g. slice_get (wholes_in table.now) g.number) gs.items
        ≡ map (λ k. Some (one_symbol k)) (all_kinds (call_parts (kind_at (wholes_in table.now) number)))) }
    ensures symbols { IfOk result (λ gs. map (λ g. g.symbol) gs.items ≡ symbols.items) }
{
    let row = arguments_row(table, number);
    given_in_row(alloc, table, row, symbols)
}
