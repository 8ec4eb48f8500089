//! Copies of trees.
ghost use Rattle.std.specs.Prelude.{◌≡◌, IfOk};
ghost use Rattle.lalrpop_norm_explain.specs.Trees.{lowered_view, lowered_views, written_view, written_views};

use super::{LoweredTree, WrittenTree, name_again, terminal_again};
use std::alloc::AllocError;

impl Clone for LoweredTree {
    ghost is_clone = { λ t u. lowered_view u ≡ lowered_view t };

    fn clone(&self) -> Result<LoweredTree, AllocError> {
        copy_lowered(self)
    }
}

impl Clone for WrittenTree {
    ghost is_clone = { λ t u. written_view u ≡ written_view t };

    fn clone(&self) -> Result<WrittenTree, AllocError> {
        copy_written(self)
    }
}

#[cycle(copy_lowered)]
fn copy_lowered(tree: &LoweredTree) -> Result<LoweredTree, AllocError>
    ensures { IfOk result (λ u. lowered_view u ≡ lowered_view tree.now) }
{
    match tree {
        LoweredTree::Leaf(terminal) => Ok(LoweredTree::Leaf(terminal_again(terminal))),
        LoweredTree::Node {
            nonterminal,
            production,
            children,
        } => Ok(LoweredTree::Node {
            nonterminal: name_again(nonterminal),
            production: *production,
            children: copy_lowered_trees(children)?,
        }),
    }
}

#[cycle(copy_lowered)]
fn copy_lowered_trees(trees: &Vec<LoweredTree>) -> Result<Vec<LoweredTree>, AllocError>
    ensures { IfOk result (λ us. lowered_views us.items ≡ lowered_views trees.now.items) }
{
    let mut copies = Vec::with_capacity(*trees.allocator(), trees.len())?;
    for tree in trees {
        copies.push(copy_lowered(tree)?)?;
    }
    Ok(copies)
}

#[cycle(copy_written)]
fn copy_written(tree: &WrittenTree) -> Result<WrittenTree, AllocError>
    ensures { IfOk result (λ u. written_view u ≡ written_view tree.now) }
{
    match tree {
        WrittenTree::Leaf(terminal) => Ok(WrittenTree::Leaf(terminal_again(terminal))),
        WrittenTree::Nothing => Ok(WrittenTree::Nothing),
        WrittenTree::List(trees) => Ok(WrittenTree::List(copy_written_trees(trees)?)),
        WrittenTree::Node {
            rule,
            alternative,
            children,
        } => Ok(WrittenTree::Node {
            rule: name_again(rule),
            alternative: *alternative,
            children: copy_written_trees(children)?,
        }),
    }
}

#[cycle(copy_written)]
fn copy_written_trees(trees: &Vec<WrittenTree>) -> Result<Vec<WrittenTree>, AllocError>
    ensures { IfOk result (λ us. written_views us.items ≡ written_views trees.now.items) }
{
    let mut copies = Vec::with_capacity(*trees.allocator(), trees.len())?;
    for tree in trees {
        copies.push(copy_written(tree)?)?;
    }
    Ok(copies)
}
