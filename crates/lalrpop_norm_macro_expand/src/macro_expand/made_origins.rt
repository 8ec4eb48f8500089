//! The origins of the alternatives of generated rules.
ghost use Rattle.std.specs.Prelude.{◌≡◌, ◌++◌, IfOk, OnOk, flat_map, option_map, option_to_list, slice_get};
ghost use Rattle.lalrpop_norm_origins.specs.Origins.{origin_view, origins_view, origin_lists};
ghost use Rattle.lalrpop_norm_nodes.specs.Tables.{wholes_in, IsNodeTable};
ghost use Rattle.lalrpop_norm_macro_expand.specs.TracedRules.{list_under, origin_at, at_places, shown_list, called_lists, unary_lists};
ghost use Rattle.lalrpop_norm_macro_expand.specs.TracedRules.{leaf_lists, node_lists, made_list};

use super::Expanded;
use super::make::MadeSymbol;
use lalrpop_norm_nodes::node::{Leaf, NamedUnary, Node, Unary};
use lalrpop_norm_nodes::table::Table;
use lalrpop_norm_origins::Origin;
use lalrpop_norm_tree::grammar::parse_tree::{Atom, NoMemory};
use std::alloc::Global;
use std::collections::BTreeMap;

/// The origin at an index.
fn origin_in(own: &[Origin], place: usize) -> Option<&Origin>
    ensures { option_map (λ o. o.now) result ≡ slice_get own.now place }
{
    own.get(place)
}

/// A copy of the origin.
fn copied_origin(own: &[Origin], place: usize) -> Option<Origin>
    ensures { option_to_list (option_map origin_view result) ≡ origin_at (origins_view own.now) place }
{
    match origin_in(own, place) {
        Some(origin) => Some(origin.again()),
        None => None,
    }
}

/// Adds the origin at an index.
fn add_origin(own: &[Origin], place: usize, origins: &mut Vec<Origin>) -> Result<(), NoMemory>
    ensures { OnOk result (origins_view origins.new.items ≡ origins_view origins.old.items ++ origin_at (origins_view own.now) place) }
{
    match copied_origin(own, place) {
        Some(origin) => {
            origins.push(origin)?;
            Ok(())
        }
        None => Ok(()),
    }
}

/// The origins of the alternatives that a call keeps of a macro.
fn kept_origins(alloc: Global, own: &[Origin], kept: &[usize]) -> Result<Vec<Origin>, NoMemory>
    ensures { IfOk result (λ os. origins_view os.items ≡ at_places (origins_view own.now) kept.now) }
{
    let mut origins = Vec::with_capacity(alloc, kept.len())?;
    for place in kept {
        add_origin(own, *place, &mut origins)?;
    }
    Ok(origins)
}

/// Of a macro call, if there is a macro of that name.
fn called_origins(
    alloc: Global,
    macros: &BTreeMap<Atom, Vec<Origin>>,
    name: &Atom,
    kept: &[usize],
) -> Result<Option<Vec<Origin>>, NoMemory>
    ensures { IfOk result (λ o. shown_list o ≡ called_lists (list_under macros.now name.now) kept.now) }
{
    match macros.get(name) {
        Some(own) => Ok(Some(kept_origins(alloc, own, kept)?)),
        None => Ok(None),
    }
}

/// Of a group or a repeat.
fn unary_origins(alloc: Global, unary: Unary) -> Result<Option<Vec<Origin>>, NoMemory>
    ensures { IfOk result (λ o. shown_list o ≡ unary_lists unary) }
{
    match unary {
        Unary::Group => Ok(Some(vec![in alloc; Origin::Group]?)),
        Unary::Star => Ok(Some(vec![in alloc; Origin::StarEmpty, Origin::StarSome]?)),
        Unary::Plus => Ok(Some(vec![in alloc; Origin::PlusOne, Origin::PlusMore]?)),
        Unary::Question => Ok(Some(vec![in alloc; Origin::QuestionSome, Origin::QuestionEmpty]?)),
        Unary::Times(_) => Ok(Some(vec![in alloc; Origin::Times]?)),
        Unary::Chosen | Unary::Several => Ok(None),
    }
}

/// Of a location symbol.
fn leaf_origins(alloc: Global, leaf: Leaf) -> Result<Option<Vec<Origin>>, NoMemory>
    ensures { IfOk result (λ o. shown_list o ≡ leaf_lists leaf) }
{
    match leaf {
        Leaf::Lookahead => Ok(Some(vec![in alloc; Origin::Lookahead]?)),
        Leaf::Lookbehind => Ok(Some(vec![in alloc; Origin::Lookbehind]?)),
        Leaf::NoSymbols | Leaf::NoPatterns | Leaf::Error => Ok(None),
    }
}

/// Of a node that is desugared, where a call of a macro keeps these of its alternatives.
fn node_origins(
    alloc: Global,
    macros: &BTreeMap<Atom, Vec<Origin>>,
    kept: &[usize],
    node: &Node,
) -> Result<Option<Vec<Origin>>, NoMemory>
    ensures { IfOk result (λ o. shown_list o ≡ node_lists (list_under macros.now) kept.now node.now) }
{
    match node {
        Node::NamedUnary(NamedUnary::Call, name, _) => called_origins(alloc, macros, name, kept),
        Node::Unary(unary, _) => unary_origins(alloc, *unary),
        Node::Leaf(leaf) => leaf_origins(alloc, *leaf),
        Node::NamedUnary(NamedUnary::Named | NamedUnary::NamedMut, _, _)
        | Node::NamedLeaf(_, _)
        | Node::Terminal(_)
        | Node::Binary(_, _, _) => Ok(None),
    }
}

/// Of a symbol that is desugared.
fn symbol_origins(
    alloc: Global,
    table: &Table,
    macros: &BTreeMap<Atom, Vec<Origin>>,
    made: &MadeSymbol,
) -> Result<Option<Vec<Origin>>, NoMemory>
    requires { IsNodeTable table.now }
    ensures { IfOk result (λ o. shown_list o ≡ made_list (list_under macros.now) (wholes_in table.now) made.now) }
{
    match table.node(made.number) {
        Some(node) => node_origins(alloc, macros, &made.kept, node),
        None => Ok(None),
    }
}

/// Adds the list of the rule that a symbol is desugared to, if it is desugared.
fn add_made(
    alloc: Global,
    table: &Table,
    macros: &BTreeMap<Atom, Vec<Origin>>,
    made: &MadeSymbol,
    lists: &mut Vec<Vec<Origin>>,
) -> Result<(), NoMemory>
    requires { IsNodeTable table.now }
    ensures { OnOk result (origin_lists lists.new.items
        ≡ origin_lists lists.old.items ++ made_list (list_under macros.now) (wholes_in table.now) made.now) }
{
    match symbol_origins(alloc, table, macros, made)? {
        Some(origins) => {
            lists.push(origins)?;
            Ok(())
        }
        None => Ok(()),
    }
}

/// Adds the lists of the rules that an expansion generated, in the order of the rules.
pub(super) fn add_all_made(
    alloc: Global,
    expanded: &Expanded,
    macros: &BTreeMap<Atom, Vec<Origin>>,
    lists: &mut Vec<Vec<Origin>>,
) -> Result<(), NoMemory>
    requires { IsNodeTable expanded.now.table }
    ensures { OnOk result (origin_lists lists.new.items
        ≡ origin_lists lists.old.items
        ++ flat_map (made_list (list_under macros.now) (wholes_in expanded.now.table)) expanded.now.made.items) }
{
    for symbol in &expanded.made {
        add_made(alloc, &expanded.table, macros, symbol, lists)?;
    }
    Ok(())
}
