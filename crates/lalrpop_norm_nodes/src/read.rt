//! Symbols read in an environment of ids, and rewritten in place.
ghost use Rattle.std.specs.Prelude.{◌≡◌, IfOk, OnOk};
ghost use Rattle.lalrpop_norm_tree.specs.Symbols.{at, kind_view, symbol_view, parts_view, expr_view, macro_view};
ghost use Rattle.lalrpop_norm_faults.specs.Faults.{Refuses};
ghost use Rattle.lalrpop_norm_nodes.specs.Meeting.{met_itself, own_text};
ghost use Rattle.lalrpop_norm_nodes.specs.Reads.{CanRead, CanReadInside, SymbolRead, RepeatRead, RowRead, KindRead, GroupRead, CallRead};
ghost use Rattle.lalrpop_norm_nodes.specs.Readings.{repeat_node, named_node, topped};
ghost use Rattle.lalrpop_norm_nodes.specs.Waits.{LeavesWaiting};
ghost use Rattle.lalrpop_norm_nodes.specs.Wholes.{Fits, built, StandsFor};
ghost use Rattle.lalrpop_norm_nodes.specs.Tables.{wholes_in, own_at, own_text_in, IsMadeNode, IsNodeTable, IsCounted, TableMeets, refused_in};

use crate::given::{Environment, Given, given_to};
use crate::node::{Binary, Leaf, NamedLeaf, NamedUnary, Node, Unary};
use crate::patterns::enter_patterns;
use crate::table::Table;
use lalrpop_norm_faults::NormResult;
use lalrpop_norm_tree::grammar::parse_tree::{
    Atom, ExprSymbol, MacroSymbol, Name, NoMemory, NonterminalString, RepeatOp, RepeatSymbol,
    Symbol, SymbolKind,
};
use std::alloc::Global;

/// Whether a node is that of a symbol that is desugared.
fn is_made(node: &Node) -> bool
    ensures { IsMadeNode node.now result }
{
    match node {
        Node::Leaf(Leaf::Lookahead | Leaf::Lookbehind)
        | Node::NamedUnary(NamedUnary::Call, _, _)
        | Node::Unary(
            Unary::Group | Unary::Star | Unary::Plus | Unary::Question | Unary::Times(_),
            _,
        ) => true,
        Node::Leaf(Leaf::NoSymbols | Leaf::NoPatterns | Leaf::Error)
        | Node::NamedUnary(NamedUnary::Named | NamedUnary::NamedMut, _, _)
        | Node::Unary(Unary::Chosen | Unary::Several, _)
        | Node::NamedLeaf(_, _)
        | Node::Terminal(_)
        | Node::Binary(_, _, _) => false,
    }
}

/// Substitutes what an argument is bound to for its name.
fn put_given(given: &Given, symbol: &mut Symbol) -> Result<usize, NoMemory>
    ensures value { OnOk result (symbol_view symbol.new ≡ at symbol.old.span (kind_view given.now.symbol.kind)) }
    ensures number { IfOk result (λ i. i ≡ given.now.number) }
{
    symbol.kind = given.symbol.kind.clone()?;
    Ok(given.number)
}

/// Interns a symbol, its parts rewritten, and rewrites it.
fn enter_symbol(
    alloc: Global,
    node: Node,
    symbol: &mut Symbol,
    table: &mut Table,
) -> NormResult<usize>
    requires table { IsNodeTable table.old }
    requires counted { IsCounted table.old }
    requires fits { Fits (wholes_in table.old) node }
    requires text { own_text_in (built (wholes_in table.old) node) ≡ own_text (symbol_view symbol.old) }
    ensures refuses { Refuses result (refused_in table.old (own_at symbol.old.span (built (wholes_in table.old) node))) }
    ensures meets { OnOk result (TableMeets table.old table.new (own_at symbol.old.span (built (wholes_in table.old) node))) }
    ensures counted { OnOk result (IsCounted table.new) }
    ensures waits { OnOk result (LeavesWaiting table.old table.new (met_itself (symbol_view symbol.old))) }
    ensures value { OnOk result (symbol_view symbol.new ≡ topped (symbol_view symbol.old)) }
    ensures number { IfOk result (λ i. StandsFor (wholes_in table.new) i (built (wholes_in table.old) node)) }
{
    if is_made(&node) {
        return table.enter_made(alloc, node, symbol);
    }
    let number = table.enter(node)?;
    Ok(number)
}

fn repeat_node(op: RepeatOp, number: usize) -> Node
    ensures { result ≡ repeat_node op number }
{
    match op {
        RepeatOp::Star => Node::Unary(Unary::Star, number),
        RepeatOp::Plus => Node::Unary(Unary::Plus, number),
        RepeatOp::Question => Node::Unary(Unary::Question, number),
        RepeatOp::Times(count) => Node::Unary(Unary::Times(count), number),
    }
}

fn named_node(name: &Name, number: usize) -> Result<Node, NoMemory>
    ensures { IfOk result (λ n. n ≡ named_node name.now number) }
{
    if name.mutable {
        return Ok(Node::NamedUnary(NamedUnary::NamedMut, name.name.clone()?, number));
    }
    Ok(Node::NamedUnary(NamedUnary::Named, name.name.clone()?, number))
}

/// Reads a symbol in an environment, and answers its id. Each symbol in it that is desugared is reached and rewritten to the
/// nonterminal of its text; a name that is an argument's is substituted. A text that is taken is an error at the symbol that has
/// it (F37).
#[cycle(read)]
pub fn read_symbol(
    alloc: Global,
    environment: &Environment,
    symbol: &mut Symbol,
    table: &mut Table,
) -> NormResult<usize>
    requires { CanRead table.old environment.now }
    ensures { SymbolRead result table.old table.new environment.now symbol.old (symbol_view symbol.new) }
{
    if let Some(given) = given_to(environment, &symbol.kind) {
        let number = put_given(given, symbol)?;
        return Ok(number);
    }
    let node = node_of(alloc, environment, &mut symbol.kind, table)?;
    enter_symbol(alloc, node, symbol, table)
}

#[cycle(read)]
fn read_boxed(
    alloc: Global,
    environment: &Environment,
    symbol: &mut Box<Symbol>,
    table: &mut Table,
) -> NormResult<usize>
    requires { CanRead table.old environment.now }
    ensures { SymbolRead result table.old table.new environment.now symbol.old.value (symbol_view symbol.new.value) }
{
    let number = read_symbol(alloc, environment, symbol, table)?;
    Ok(number)
}

/// Reads what is inside a symbol that is no argument's name, and answers its node.
#[cycle(read)]
fn node_of(
    alloc: Global,
    environment: &Environment,
    kind: &mut SymbolKind,
    table: &mut Table,
) -> NormResult<Node>
    requires { CanReadInside table.old environment.now (kind_view kind.old) }
    ensures { KindRead result table.old table.new environment.now (kind_view kind.old) (kind_view kind.new) }
{
    match kind {
        SymbolKind::Nonterminal(name) => Ok(Node::NamedLeaf(NamedLeaf::Rule, name.0.clone()?)),
        SymbolKind::AmbiguousId(id) => Ok(Node::NamedLeaf(NamedLeaf::Rule, id.clone()?)),
        SymbolKind::Terminal(terminal) => Ok(Node::Terminal(terminal.clone()?)),
        SymbolKind::Lookahead => Ok(Node::Leaf(Leaf::Lookahead)),
        SymbolKind::Lookbehind => Ok(Node::Leaf(Leaf::Lookbehind)),
        SymbolKind::Error => Ok(Node::Leaf(Leaf::Error)),
        SymbolKind::Choose(inner) => {
            let number = read_boxed(alloc, environment, inner, table)?;
            Ok(Node::Unary(Unary::Chosen, number))
        }
        SymbolKind::Name(name, inner) => {
            let number = read_boxed(alloc, environment, inner, table)?;
            Ok(named_node(name, number)?)
        }
        SymbolKind::Tuple(tuple, inner) => {
            let number = read_boxed(alloc, environment, inner, table)?;
            let row = enter_patterns(&tuple.tuples, table)?;
            Ok(Node::Binary(Binary::Tuple, row, number))
        }
        SymbolKind::Repeat(repeat) => {
            let number = read_repeated(alloc, environment, repeat, table)?;
            Ok(repeat_node(repeat.op, number))
        }
        SymbolKind::Expr(expr) => read_group(alloc, environment, expr, table),
        SymbolKind::Macro(instance) => read_call(alloc, environment, instance, table),
    }
}

/// Reads what is repeated.
#[cycle(read)]
fn read_repeated(
    alloc: Global,
    environment: &Environment,
    repeat: &mut Box<RepeatSymbol>,
    table: &mut Table,
) -> NormResult<usize>
    requires { CanRead table.old environment.now }
    ensures { RepeatRead result table.old table.new environment.now repeat.old.value repeat.new.value.op
        (symbol_view repeat.new.value.symbol) }
{
    let number = read_symbol(alloc, environment, &mut repeat.symbol, table)?;
    Ok(number)
}

/// Reads a group, and answers its node.
#[cycle(read)]
fn read_group(
    alloc: Global,
    environment: &Environment,
    expr: &mut ExprSymbol,
    table: &mut Table,
) -> NormResult<Node>
    requires { CanRead table.old environment.now }
    ensures { GroupRead result table.old table.new environment.now (expr_view expr.old) (expr_view expr.new) }
{
    let row = read_row(alloc, environment, &mut expr.symbols, table)?;
    Ok(Node::Unary(Unary::Group, row))
}

/// Reads a macro call, and answers its node.
#[cycle(read)]
fn read_call(
    alloc: Global,
    environment: &Environment,
    instance: &mut MacroSymbol,
    table: &mut Table,
) -> NormResult<Node>
    requires { CanRead table.old environment.now }
    ensures { CallRead result table.old table.new environment.now (macro_view instance.old) (macro_view instance.new) }
{
    let name = instance.name.0.clone()?;
    let row = read_row(alloc, environment, &mut instance.args, table)?;
    Ok(Node::NamedUnary(NamedUnary::Call, name, row))
}

/// Reads symbols in a row, one after another, and answers the id of the row.
///
/// Errors: F37 (`SharedName`) at the first symbol in them whose text is a declared name or the text of another node; `Memory`.
#[cycle(read)]
pub fn read_row(
    alloc: Global,
    environment: &Environment,
    several: &mut [Symbol],
    table: &mut Table,
) -> NormResult<usize>
    requires { CanRead table.old environment.now }
    ensures { RowRead result table.old table.new environment.now several.old (parts_view several.new) }
{
    let mut row = table.enter_no_symbols()?;
    for i in 0..several.len() {
        let number = read_symbol(alloc, environment, &mut several[i], table)?;
        row = table.enter(Node::Binary(Binary::Symbols, row, number))?;
    }
    Ok(row)
}
