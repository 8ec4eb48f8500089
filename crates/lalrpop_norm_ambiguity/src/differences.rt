//! Yields of trees, and where two yields or two trees differ.
ghost use Rattle.std.specs.Prelude.{◌≡◌, ◌++◌, map, reverse, option_map, IfOk, OnOk};
ghost use Rattle.lalrpop_norm_theory.specs.Same.{same_closed_terminal};
ghost use Rattle.lalrpop_norm_theory.specs.WrittenTrees.{leaf, nothing, yield, yields};
ghost use Rattle.lalrpop_norm_model.specs.Reading.{terminal_of};
ghost use Rattle.lalrpop_norm_explain.specs.Trees.{written_view, written_views};
ghost use Rattle.lalrpop_norm_ambiguity.specs.Differences.{yield_difference, tree_difference, children_difference};
ghost use Rattle.lalrpop_norm_ambiguity.specs.Differences.{merged, at_child, upwards};

use lalrpop_norm_explain::WrittenTree;
use lalrpop_norm_tree_names::names::{TerminalLiteral, TerminalString};
use shared_text::NoMemory;
use std::alloc::Global;

/// A copy of a terminal, without an allocation.
fn terminal_again(terminal: &TerminalString) -> TerminalString
    ensures { result ≡ terminal.now }
{
    match terminal {
        TerminalString::Literal(TerminalLiteral::Quoted(text)) => {
            TerminalString::Literal(TerminalLiteral::Quoted(text.again()))
        }
        TerminalString::Literal(TerminalLiteral::Regex(text)) => {
            TerminalString::Literal(TerminalLiteral::Regex(text.again()))
        }
        TerminalString::Bare(text) => TerminalString::Bare(text.again()),
        TerminalString::Error => TerminalString::Error,
    }
}

/// The yield of a tree: its leaves from left to right.
pub(crate) fn yield_of(alloc: Global, tree: &WrittenTree) -> Result<Vec<TerminalString>, NoMemory>
    ensures { IfOk result (λ w. map terminal_of w.items ≡ yield (written_view tree.now)) }
{
    let mut leaves = Vec::new(alloc);
    add_yield(&mut leaves, tree)?;
    Ok(leaves)
}

/// Appends the yield of a tree.
#[cycle(yields)]
fn add_yield(leaves: &mut Vec<TerminalString>, tree: &WrittenTree) -> Result<(), NoMemory>
    ensures { OnOk result (map terminal_of leaves.new.items ≡ map terminal_of leaves.old.items ++ yield (written_view tree.now)) }
{
    match tree {
        WrittenTree::Leaf(text) => {
            leaves.push(terminal_again(text))?;
            Ok(())
        }
        WrittenTree::Nothing => Ok(()),
        WrittenTree::List(trees) => add_yields(leaves, trees),
        WrittenTree::Node { children, .. } => add_yields(leaves, children),
    }
}

/// Appends the yields of several trees.
#[cycle(yields)]
fn add_yields(leaves: &mut Vec<TerminalString>, trees: &[WrittenTree]) -> Result<(), NoMemory>
    ensures { OnOk result (map terminal_of leaves.new.items ≡ map terminal_of leaves.old.items ++ yields (written_views trees.now)) }
{
    for (index, tree) in trees.iter().enumerate() {
        add_yield(leaves, tree)?;
    }
    Ok(())
}

/// Whether two terminals are the same.
fn is_same(a: &TerminalString, b: &TerminalString) -> bool
    ensures { result ≡ same_closed_terminal (terminal_of a.now) (terminal_of b.now) }
{
    *a == *b
}

/// The first index at which two yields differ, or at which one of them ends.
pub(crate) fn first_difference(one: &[TerminalString], other: &[TerminalString]) -> Option<usize>
    ensures { result ≡ yield_difference 0 (map terminal_of one.now) (map terminal_of other.now) }
{
    for (index, text) in one.iter().enumerate() {
        if index >= other.len() {
            return Some(index);
        }
        if !is_same(text, &other[index]) {
            return Some(index);
        }
    }
    if one.len() < other.len() {
        Some(one.len())
    } else {
        None
    }
}

/// The path to the smallest trees that hold all that differs between two trees: child indices, from 0. None if they are the same.
pub(crate) fn path_of(
    alloc: Global,
    first: &WrittenTree,
    second: &WrittenTree,
) -> Result<Option<Vec<usize>>, NoMemory>
    ensures { IfOk result (λ p. option_map (λ path. path.items) p ≡ tree_difference (written_view first.now) (written_view second.now)) }
{
    match difference(alloc, first, second)? {
        None => Ok(None),
        Some(mut path) => {
            path.reverse();
            Ok(Some(path))
        }
    }
}

/// That path from its end to its start.
#[cycle(differences)]
fn difference(
    alloc: Global,
    first: &WrittenTree,
    second: &WrittenTree,
) -> Result<Option<Vec<usize>>, NoMemory>
    ensures { IfOk result (λ p. option_map upwards p ≡ tree_difference (written_view first.now) (written_view second.now)) }
{
    match first {
        WrittenTree::Leaf(text) => Ok(leaf_difference(alloc, text, second)),
        WrittenTree::Nothing => Ok(nothing_difference(alloc, second)),
        WrittenTree::List(trees) => match second {
            WrittenTree::List(others) => differences(alloc, trees, others),
            _ => Ok(Some(Vec::new(alloc))),
        },
        WrittenTree::Node {
            rule,
            alternative,
            children,
        } => match second {
            WrittenTree::Node {
                rule: other,
                alternative: number,
                children: others,
            } => {
                if rule.0 == other.0 && *alternative == *number {
                    differences(alloc, children, others)
                } else {
                    Ok(Some(Vec::new(alloc)))
                }
            }
            _ => Ok(Some(Vec::new(alloc))),
        },
    }
}

/// That path between a leaf and a tree, from its end to its start.
fn leaf_difference(alloc: Global, text: &TerminalString, second: &WrittenTree) -> Option<Vec<usize>>
    ensures { option_map upwards result ≡ tree_difference (leaf (terminal_of text.now)) (written_view second.now) }
{
    match second {
        WrittenTree::Leaf(other) => {
            if is_same(text, other) {
                None
            } else {
                Some(Vec::new(alloc))
            }
        }
        WrittenTree::Nothing | WrittenTree::List(_) | WrittenTree::Node { .. } => {
            Some(Vec::new(alloc))
        }
    }
}

/// That path between the tree of nothing and a tree, from its end to its start.
fn nothing_difference(alloc: Global, second: &WrittenTree) -> Option<Vec<usize>>
    ensures { option_map upwards result ≡ tree_difference nothing (written_view second.now) }
{
    match second {
        WrittenTree::Nothing => None,
        WrittenTree::Leaf(_) | WrittenTree::List(_) | WrittenTree::Node { .. } => {
            Some(Vec::new(alloc))
        }
    }
}

/// That path between the parents of two lists of trees, from its end to its start.
#[cycle(differences)]
fn differences(
    alloc: Global,
    firsts: &[WrittenTree],
    seconds: &[WrittenTree],
) -> Result<Option<Vec<usize>>, NoMemory>
    ensures { IfOk result (λ p. option_map upwards p ≡ children_difference (written_views firsts.now) (written_views seconds.now) 0) }
{
    if firsts.len() != seconds.len() {
        return Ok(Some(Vec::new(alloc)));
    }
    let mut found = None;
    for (index, first) in firsts.iter().enumerate() {
        let here = difference(alloc, first, &seconds[index])?;
        found = joined(alloc, found, here, index)?;
    }
    Ok(found)
}

/// The difference of the children before that index, and of the child at that index, taken together.
fn joined(
    alloc: Global,
    before: Option<Vec<usize>>,
    here: Option<Vec<usize>>,
    index: usize,
) -> Result<Option<Vec<usize>>, NoMemory>
    ensures { IfOk result (λ p. option_map upwards p ≡ merged (option_map upwards before) (at_child index (option_map upwards here))) }
{
    match here {
        None => Ok(before),
        Some(mut path) => match before {
            Some(_) => Ok(Some(Vec::new(alloc))),
            None => {
                path.push(index)?;
                Ok(Some(path))
            }
        },
    }
}
