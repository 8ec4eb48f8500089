//! Trees read from lines of JSON: a leaf or a node in each, a node behind its children, as a parser makes them.
ghost use Rattle.std.specs.Prelude.{◌≡◌, ◌++◌, IfOk, IsErrOf};
ghost use Rattle.lalrpop_norm_theory.specs.LoweredTrees as lowered;
ghost use Rattle.lalrpop_norm_theory.specs.WrittenTrees as written;
ghost use Rattle.lalrpop_norm_explain.specs.Trees.{lowered_view, lowered_views, written_view};
ghost use Rattle.lexplain_lines.specs.LineForms.{AreLines, all_lowered_forms, lowered_forms, written_forms};

use crate::line::{Line, read_line};
use crate::lowered::{LoweredLine, take_lowered};
use crate::stack::{only_one, only_two};
use crate::written::{WrittenLine, take_written};
use json_records::ReadError;
use lalrpop_norm_explain::{LoweredTree, WrittenTree};
use std::alloc::{AllocFailed, Global};

/// Why lines give no tree.
#[derive(Clone, Copy, Debug, PartialEq, Eq)]
pub enum LinesError {
    /// A line is none of a tree, or the lines make no tree, or others than are asked for.
    NotATree,
    /// An allocation failed for a line or the tree.
    Memory,
}

impl<T: Drop> From<AllocFailed<T>> for LinesError {
    ghost use Rattle.std.specs.Prelude.{◌≡◌};
    ghost use Rattle.lexplain_lines.specs.declared.read.LinesError.TheVariants.{Memory};

    ghost from_gives = { λ _ e. e ≡ Memory };

    fn from(_: AllocFailed<T>) -> LinesError {
        LinesError::Memory
    }
}

impl From<ReadError> for LinesError {
    ghost use Rattle.std.specs.Prelude.{◌≡◌, ◌↔◌};
    ghost use Rattle.json_records.specs.declared.error.ReadError.TheVariants.{NotJson};
    ghost use Rattle.lexplain_lines.specs.declared.read.LinesError.TheVariants.{NotATree};

    ghost from_gives = { λ e t. (t ≡ NotATree) ↔ (e ≡ NotJson) };

    fn from(error: ReadError) -> LinesError {
        match error {
            ReadError::NotJson => LinesError::NotATree,
            ReadError::Memory => LinesError::Memory,
        }
    }
}

/// The derivation tree of a lowered grammar whose lines these are.
///
/// Each line is one value of JSON, blanks and the order of keys as JSON has them; if an object repeats a key, the last value
/// counts. The numbers are indices, from 0, and counts of trees; they are written by digits, without point and exponent, and are
/// below 2 ^ 64.
///
/// # Errors
///
/// `NotATree`: these are the lines of no tree. `Memory`: an allocation failed for a line or the tree; nothing else is said of it.
pub fn lowered_tree_of_lines(alloc: Global, lines: &str) -> Result<LoweredTree, LinesError>
    ensures ok { IfOk result (λ t. AreLines lines.now (lowered_forms (lowered_view t))) }
    ensures not { IsErrOf result LinesError.NotATree → (u : lowered.LoweredTree) → AreLines lines.now (lowered_forms u) → ⊥ }
{
    let trees = lowered_trees(alloc, lines)?;
    only_one(trees)
}

/// Two derivation trees, one behind the other, whose lines these are, read as those of `lowered_tree_of_lines`.
///
/// # Errors
///
/// `NotATree`: these are the lines of no two trees. `Memory`: an allocation failed for a line or a tree; nothing else is said of it.
pub fn two_lowered_trees_of_lines(
    alloc: Global,
    lines: &str,
) -> Result<(LoweredTree, LoweredTree), LinesError>
    ensures ok { IfOk result (λ two. AreLines lines.now (lowered_forms (lowered_view two.0) ++ lowered_forms (lowered_view two.1))) }
    ensures not { IsErrOf result LinesError.NotATree →
        (u v : lowered.LoweredTree) → AreLines lines.now (lowered_forms u ++ lowered_forms v) → ⊥ }
{
    let trees = lowered_trees(alloc, lines)?;
    only_two(trees)
}

/// All derivation trees that the lines make, one behind the other.
fn lowered_trees(alloc: Global, lines: &str) -> Result<Vec<LoweredTree>, LinesError>
    ensures ok { IfOk result (λ trees. AreLines lines.now (all_lowered_forms (lowered_views trees.items))) }
    ensures not { IsErrOf result LinesError.NotATree → (us : lowered.LoweredTrees) → AreLines lines.now (all_lowered_forms us) → ⊥ }
{
    let mut trees = Vec::new(alloc);
    for line in lines.lines() {
        let line = read_line::<LoweredLine, Line>(alloc, line)?;
        take_lowered(alloc, &mut trees, line)?;
    }
    Ok(trees)
}

/// The written tree whose lines these are, read as those of `lowered_tree_of_lines`.
///
/// # Errors
///
/// `NotATree`: these are the lines of no tree. `Memory`: an allocation failed for a line or the tree; nothing else is said of it.
pub fn written_tree_of_lines(alloc: Global, lines: &str) -> Result<WrittenTree, LinesError>
    ensures ok { IfOk result (λ t. AreLines lines.now (written_forms (written_view t))) }
    ensures not { IsErrOf result LinesError.NotATree → (t : written.WrittenTree) → AreLines lines.now (written_forms t) → ⊥ }
{
    let mut trees = Vec::new(alloc);
    for line in lines.lines() {
        let line = read_line::<WrittenLine, Line>(alloc, line)?;
        take_written(alloc, &mut trees, line)?;
    }
    only_one(trees)
}
