//! Written trees lowered by the origins of productions.
ghost use Rattle.std.specs.Prelude.{◌≡◌, IfOk, length, option_map};
ghost use Rattle.lalrpop_norm_theory.specs.Symbols.{lookahead};
ghost use Rattle.lalrpop_norm_theory.specs.LoweredTrees.{nonterminal_symbol, lowered_node, no_lowered, lowered_and};
ghost use Rattle.lalrpop_norm_theory.specs.WrittenTrees.{nothing, list, node};
ghost use Rattle.lalrpop_norm_theory.specs.Translations.{left_leaning};
ghost use Rattle.lalrpop_norm_explain.specs.TreeFaults.{Finds, FindsUp, raised};
ghost use Rattle.lalrpop_norm_model.specs.Reading.{terminal_of};
ghost use Rattle.lalrpop_norm_explain.specs.Derivations.{tree_symbol, symbols_view};
ghost use Rattle.lalrpop_norm_explain.specs.TracedGrammars.{grammar_of, is_root};
ghost use Rattle.lalrpop_norm_explain.specs.Plans.{each, planned_tree, way_view, most_steps};
ghost use Rattle.lalrpop_norm_explain.specs.TreeLowering.{begun_by, leaf_of, one_more, plus_faults, plus_lowered, fitting_faults};
ghost use Rattle.lalrpop_norm_explain.specs.TreeLowering.{lower_faults, lowered_root, lowered_by, each_lowered};
ghost use Rattle.lalrpop_norm_explain.specs.TreeLowering.{shape_faults, shapes_faults};
ghost use Rattle.lalrpop_norm_explain.specs.Trees.{lowered_view, lowered_views, written_view, written_views};

use crate::errors::{ExplainError, ExplainFault};
use crate::forms::{Form, form_named};
use crate::levels::{Way, way_to};
use crate::reading::{is_same, refused};
use crate::traced::Traced;
use crate::trees::{LoweredTree, WrittenTree, name_again, terminal_again};
use lalrpop_norm_repr::grammar::repr::Symbol;
use lalrpop_norm_tree_names::names::{NonterminalString, TerminalString};
use shared_text::NoMemory;
use std::alloc::Global;

/// The lowered tree of a written tree, which the origins make that tree again.
///
/// The first fault is reported, a node before its children, these from left to right: the root (X1), then what does not fit its
/// position (X4): another kind of tree, a list of a wrong number, a node of another rule or macro, or of an alternative that is
/// not there, is above the bound or has a false condition. The other error is a failed allocation.
pub fn lower_tree(
    alloc: Global,
    traced: &Traced,
    tree: &WrittenTree,
) -> Result<LoweredTree, ExplainError>
    ensures { Finds result (lower_faults (is_root traced.now) (grammar_of traced.now) most_steps (written_view tree.now))
        (λ u. lowered_view u ≡ lowered_root (grammar_of traced.now) most_steps (written_view tree.now)) }
{
    match root_of(traced, tree) {
        None => Err(refused(alloc, ExplainFault::Root)),
        Some(rule) => match lower_under(alloc, traced, rule, tree) {
            Ok(lowered) => Ok(lowered),
            Err(error) => Err(error.turned()),
        },
    }
}

/// The rule at the root, if trees may begin at it.
fn root_of<'a>(traced: &Traced, tree: &'a WrittenTree) -> Option<&'a NonterminalString>
    ensures { option_map (λ n. n.now.0) result ≡ begun_by (is_root traced.now) (written_view tree.now) }
{
    match tree {
        WrittenTree::Node { rule, .. } => {
            if traced.is_rule(rule) {
                Some(rule)
            } else {
                None
            }
        }
        WrittenTree::Leaf(_) | WrittenTree::Nothing | WrittenTree::List(_) => None,
    }
}

/// A tree of a symbol.
#[cycle(shapes)]
fn lower_at(
    alloc: Global,
    traced: &Traced,
    symbol: &Symbol,
    tree: &WrittenTree,
) -> Result<LoweredTree, ExplainError>
    ensures { FindsUp result (shape_faults (grammar_of traced.now) most_steps (written_view tree.now) (tree_symbol symbol.now))
        (λ u. lowered_view u ≡ lowered_by (grammar_of traced.now) most_steps (written_view tree.now) (tree_symbol symbol.now)) }
{
    match symbol {
        Symbol::Nonterminal(name) => lower_under(alloc, traced, name, tree),
        Symbol::Terminal(wanted) => match lowered_leaf(wanted, tree) {
            Some(leaf) => Ok(leaf),
            None => Err(refused(alloc, ExplainFault::Shape)),
        },
    }
}

/// A leaf of a terminal.
fn lowered_leaf(wanted: &TerminalString, tree: &WrittenTree) -> Option<LoweredTree>
    ensures { option_map lowered_view result ≡ leaf_of (terminal_of wanted.now) (written_view tree.now) }
{
    match tree {
        WrittenTree::Leaf(text) => {
            if is_same(wanted, text) {
                Some(LoweredTree::Leaf(terminal_again(text)))
            } else {
                None
            }
        }
        WrittenTree::Nothing | WrittenTree::List(_) | WrittenTree::Node { .. } => None,
    }
}

/// A tree of a nonterminal.
#[cycle(shapes)]
fn lower_under(
    alloc: Global,
    traced: &Traced,
    name: &NonterminalString,
    tree: &WrittenTree,
) -> Result<LoweredTree, ExplainError>
    ensures { FindsUp result (shape_faults (grammar_of traced.now) most_steps (written_view tree.now) (nonterminal_symbol name.now.0))
        (λ u. lowered_view u ≡ lowered_by (grammar_of traced.now) most_steps (written_view tree.now) (nonterminal_symbol name.now.0)) }
{
    match tree {
        WrittenTree::Leaf(_) => Err(refused(alloc, ExplainFault::Shape)),
        WrittenTree::Nothing => lower_nothing(alloc, traced, name),
        WrittenTree::List(trees) => lower_list(alloc, traced, name, trees),
        WrittenTree::Node {
            rule,
            alternative,
            children,
        } => lower_node(alloc, traced, name, rule, *alternative, children),
    }
}

/// Nothing, of a location symbol.
fn lower_nothing(
    alloc: Global,
    traced: &Traced,
    name: &NonterminalString,
) -> Result<LoweredTree, ExplainError>
    ensures { FindsUp result (shape_faults (grammar_of traced.now) most_steps nothing (nonterminal_symbol name.now.0))
        (λ u. lowered_view u ≡ lowered_by (grammar_of traced.now) most_steps nothing (nonterminal_symbol name.now.0)) }
{
    match form_named(traced, name) {
        Some(Form::Ahead | Form::Behind) => Ok(node(name, 0, Vec::new(alloc))),
        _ => Err(refused(alloc, ExplainFault::Shape)),
    }
}

/// A list of a group or a repeat.
#[cycle(shapes)]
fn lower_list(
    alloc: Global,
    traced: &Traced,
    name: &NonterminalString,
    trees: &[WrittenTree],
) -> Result<LoweredTree, ExplainError>
    ensures { FindsUp result
        (shape_faults (grammar_of traced.now) most_steps (list (written_views trees.now)) (nonterminal_symbol name.now.0))
        (λ u. lowered_view u
        ≡ lowered_by (grammar_of traced.now) most_steps (list (written_views trees.now)) (nonterminal_symbol name.now.0)) }
{
    match form_named(traced, name) {
        Some(Form::Group(symbols)) => {
            let lowered = lower_fitting(alloc, traced, symbols, trees)?;
            Ok(node(name, 0, lowered))
        }
        Some(Form::Times(symbols)) => {
            let lowered = lower_fitting(alloc, traced, symbols, trees)?;
            Ok(node(name, 0, lowered))
        }
        Some(Form::Star(more)) => {
            if trees.is_empty() {
                return Ok(node(name, 0, Vec::new(alloc)));
            }
            let filled = lower_plus(alloc, traced, more, trees)?;
            Ok(over(alloc, name, 1, filled)?)
        }
        Some(Form::Plus(_)) => lower_plus(alloc, traced, name, trees),
        Some(Form::Question(symbol)) => {
            if trees.is_empty() {
                return Ok(node(name, 1, Vec::new(alloc)));
            }
            if trees.len() != 1 {
                return Err(refused(alloc, ExplainFault::Shape));
            }
            let lowered = lower_each(alloc, traced, symbol, trees)?;
            Ok(node(name, 0, lowered))
        }
        Some(Form::Ahead | Form::Behind) | None => Err(refused(alloc, ExplainFault::Shape)),
    }
}

/// A list of `X+`.
#[cycle(shapes)]
fn lower_plus(
    alloc: Global,
    traced: &Traced,
    name: &NonterminalString,
    trees: &[WrittenTree],
) -> Result<LoweredTree, ExplainError>
    ensures { FindsUp result (plus_faults (grammar_of traced.now) name.now.0 (written_views trees.now))
        (λ u. lowered_view u ≡ plus_lowered (grammar_of traced.now) name.now.0 (written_views trees.now)) }
{
    if trees.is_empty() {
        return Err(refused(alloc, ExplainFault::Shape));
    }
    match form_named(traced, name) {
        Some(Form::Plus(symbol)) => {
            let lowered = lower_each(alloc, traced, symbol, trees)?;
            Ok(left_leaning(alloc, name, lowered)?)
        }
        _ => Err(refused(alloc, ExplainFault::Shape)),
    }
}

/// A node of a rule or macro.
#[cycle(shapes)]
fn lower_node(
    alloc: Global,
    traced: &Traced,
    name: &NonterminalString,
    rule: &NonterminalString,
    alternative: usize,
    children: &[WrittenTree],
) -> Result<LoweredTree, ExplainError>
    ensures { FindsUp result
        (shape_faults (grammar_of traced.now) most_steps
        (node rule.now.0 alternative (written_views children.now)) (nonterminal_symbol name.now.0))
        (λ u. lowered_view u
        ≡ lowered_by (grammar_of traced.now) most_steps
        (node rule.now.0 alternative (written_views children.now)) (nonterminal_symbol name.now.0)) }
{
    match way_to(alloc, traced, name, rule, alternative)? {
        None => Err(refused(alloc, ExplainFault::Shape)),
        Some(way) => {
            let lowered = lower_fitting(alloc, traced, way.symbols, children)?;
            Ok(built(alloc, way, lowered)?)
        }
    }
}

/// One tree for each symbol.
#[cycle(shapes)]
fn lower_fitting(
    alloc: Global,
    traced: &Traced,
    symbols: &[Symbol],
    trees: &[WrittenTree],
) -> Result<Vec<LoweredTree>, ExplainError>
    ensures { FindsUp result (fitting_faults (grammar_of traced.now) (written_views trees.now) (symbols_view symbols.now))
        (λ us. lowered_views us.items
        ≡ each_lowered (grammar_of traced.now) most_steps (written_views trees.now) (symbols_view symbols.now)) }
{
    if trees.len() != symbols.len() {
        return Err(refused(alloc, ExplainFault::Shape));
    }
    lower_all(alloc, traced, symbols, trees)
}

/// One tree for each of as many symbols.
#[cycle(shapes)]
fn lower_all(
    alloc: Global,
    traced: &Traced,
    symbols: &[Symbol],
    trees: &[WrittenTree],
) -> Result<Vec<LoweredTree>, ExplainError>
    requires { length trees.now ≡ length symbols.now }
    ensures { FindsUp result (shapes_faults (grammar_of traced.now) most_steps (written_views trees.now) (symbols_view symbols.now) 0)
        (λ us. lowered_views us.items
        ≡ each_lowered (grammar_of traced.now) most_steps (written_views trees.now) (symbols_view symbols.now)) }
{
    let mut lowered = Vec::new(alloc);
    for (place, tree) in trees.iter().enumerate() {
        let child = lower_child(alloc, traced, &symbols[place], tree, place)?;
        lowered.push(child)?;
    }
    Ok(lowered)
}

/// Each of them a tree of the symbol.
#[cycle(shapes)]
fn lower_each(
    alloc: Global,
    traced: &Traced,
    symbol: &Symbol,
    trees: &[WrittenTree],
) -> Result<Vec<LoweredTree>, ExplainError>
    ensures { FindsUp result (shapes_faults (grammar_of traced.now) most_steps
        (written_views trees.now) (each (tree_symbol symbol.now) (written_views trees.now)) 0)
        (λ us. lowered_views us.items ≡ each_lowered (grammar_of traced.now) most_steps
        (written_views trees.now) (each (tree_symbol symbol.now) (written_views trees.now))) }
{
    let mut lowered = Vec::new(alloc);
    for (place, tree) in trees.iter().enumerate() {
        let child = lower_child(alloc, traced, symbol, tree, place)?;
        lowered.push(child)?;
    }
    Ok(lowered)
}

/// The tree at an index of a node or list.
#[cycle(shapes)]
fn lower_child(
    alloc: Global,
    traced: &Traced,
    symbol: &Symbol,
    tree: &WrittenTree,
    place: usize,
) -> Result<LoweredTree, ExplainError>
    ensures { FindsUp result
        (raised place (shape_faults (grammar_of traced.now) most_steps (written_view tree.now) (tree_symbol symbol.now)))
        (λ u. lowered_view u ≡ lowered_by (grammar_of traced.now) most_steps (written_view tree.now) (tree_symbol symbol.now)) }
{
    match lower_at(alloc, traced, symbol, tree) {
        Ok(lowered) => Ok(lowered),
        Err(error) => Err(error.raised(place)),
    }
}

// ---- nodes

fn node(name: &NonterminalString, production: usize, children: Vec<LoweredTree>) -> LoweredTree
    ensures { lowered_view result ≡ lowered_node name.now.0 production (lowered_views children.items) }
{
    LoweredTree::Node {
        nonterminal: name_again(name),
        production,
        children,
    }
}

/// A node over one tree.
fn over(
    alloc: Global,
    name: &NonterminalString,
    production: usize,
    child: LoweredTree,
) -> Result<LoweredTree, NoMemory>
    ensures { IfOk result (λ u. lowered_view u ≡ lowered_node name.now.0 production (lowered_and (lowered_view child) no_lowered)) }
{
    let children = vec![in alloc; child]?;
    Ok(node(name, production, children))
}

/// A list of `X+` with one more at its end.
fn one_more(
    alloc: Global,
    name: &NonterminalString,
    before: Option<LoweredTree>,
    last: LoweredTree,
) -> Result<LoweredTree, NoMemory>
    ensures { IfOk result (λ u. lowered_view u ≡ one_more name.now.0 (option_map lowered_view before) (lowered_view last)) }
{
    match before {
        None => over(alloc, name, 0, last),
        Some(before) => {
            let children = vec![in alloc; before, last]?;
            Ok(node(name, 1, children))
        }
    }
}

/// The tree of `X+` over these, which leans to the left.
fn left_leaning(
    alloc: Global,
    name: &NonterminalString,
    trees: Vec<LoweredTree>,
) -> Result<LoweredTree, NoMemory>
    ensures { IfOk result (λ u. lowered_view u ≡ left_leaning (λ _. name.now.0) lookahead (lowered_views trees.items)) }
{
    let mut whole = None;
    for tree in trees {
        whole = Some(one_more(alloc, name, whole, tree)?);
    }
    match whole {
        Some(whole) => Ok(whole),
        None => Ok(LoweredTree::Leaf(TerminalString::Error)),
    }
}

/// The node of a way over these, below the steps of the way.
fn built(alloc: Global, way: Way<'_>, children: Vec<LoweredTree>) -> Result<LoweredTree, NoMemory>
    ensures { IfOk result (λ u. lowered_view u ≡ planned_tree (way_view way.entry) (lowered_views children.items)) }
{
    let mut whole = node(&way.name, way.place, children);
    for (name, place) in way.steps {
        whole = over(alloc, &name, place, whole)?;
    }
    Ok(whole)
}
