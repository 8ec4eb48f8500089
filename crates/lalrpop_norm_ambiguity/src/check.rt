//! Whether two derivation trees show that a grammar is ambiguous.
ghost use Rattle.std.specs.Prelude.{◌≡◌, map};
ghost use Rattle.lalrpop_norm_explain.specs.TreeFaults.{Reads, explain_faults};
ghost use Rattle.lalrpop_norm_explain.specs.TracedGrammars.{grammar_of, is_root};
ghost use Rattle.lalrpop_norm_explain.specs.Trees.{lowered_view, written_view};
ghost use Rattle.lalrpop_norm_ambiguity.specs.Findings.{Answers, AnswersBefore, AnswersBehind, Compares, begin_alike, in_first, in_second};

use crate::differences::{first_difference, path_of, yield_of};
use crate::errors::{AmbiguityError, of_first, of_second};
use lalrpop_norm_explain::{LoweredTree, Traced, WrittenTree, explain};
use std::alloc::Global;

/// Two different written trees of one rule with one yield.
#[derive(Drop)]
pub struct TwoReadings {
    /// What the first derivation tree corresponds to.
    pub first: WrittenTree,
    /// What the second one corresponds to.
    pub second: WrittenTree,
    /// The child indices, from 0, that lead from both roots to the smallest trees that hold all that differs.
    pub path: Vec<usize>,
}

/// The two written trees that two derivation trees correspond to. It succeeds if and only if these are different trees of one
/// rule with one yield: then the grammar, as it was written, is ambiguous at that rule.
///
/// Errors: the first of: a fault of the first tree (X1 to X3, as of [`explain`]); a fault of the second tree; the trees are of two
/// rules (X5); their yields differ (X6); they are the same (X7). Or out of memory.
pub fn ambiguity(
    alloc: Global,
    traced: &Traced,
    first: &LoweredTree,
    second: &LoweredTree,
) -> Result<TwoReadings, AmbiguityError>
    ensures { Answers result (is_root traced.now) (grammar_of traced.now) (lowered_view first.now) (lowered_view second.now) }
{
    match first_reading(alloc, traced, first) {
        Err(error) => Err(error),
        Ok(one) => match second_reading(alloc, traced, second) {
            Err(error) => Err(error),
            Ok(other) => compared(alloc, one, other),
        },
    }
}

/// The written tree that the first tree corresponds to.
fn first_reading(
    alloc: Global,
    traced: &Traced,
    tree: &LoweredTree,
) -> Result<WrittenTree, AmbiguityError>
    ensures { AnswersBefore result (map in_first (explain_faults (is_root traced.now) (grammar_of traced.now) (lowered_view tree.now)))
        (λ t. Reads (grammar_of traced.now) (lowered_view tree.now) (written_view t)) }
{
    match explain(alloc, traced, tree) {
        Ok(reading) => Ok(reading),
        Err(error) => Err(of_first(error)),
    }
}

/// The written tree that the second tree corresponds to.
fn second_reading(
    alloc: Global,
    traced: &Traced,
    tree: &LoweredTree,
) -> Result<WrittenTree, AmbiguityError>
    ensures { AnswersBehind result (map in_second (explain_faults (is_root traced.now) (grammar_of traced.now) (lowered_view tree.now)))
        (λ t. Reads (grammar_of traced.now) (lowered_view tree.now) (written_view t)) }
{
    match explain(alloc, traced, tree) {
        Ok(reading) => Ok(reading),
        Err(error) => Err(of_second(error)),
    }
}

/// The check of two written trees.
fn compared(
    alloc: Global,
    first: WrittenTree,
    second: WrittenTree,
) -> Result<TwoReadings, AmbiguityError>
    ensures { Compares result (written_view first) (written_view second) }
{
    if !begin_alike(&first, &second) {
        return Err(AmbiguityError::Rules);
    }
    let one = yield_of(alloc, &first)?;
    let other = yield_of(alloc, &second)?;
    if let Some(index) = first_difference(&one, &other) {
        return Err(AmbiguityError::Yields(index));
    }
    match path_of(alloc, &first, &second)? {
        None => Err(AmbiguityError::Same),
        Some(path) => Ok(TwoReadings {
            first,
            second,
            path,
        }),
    }
}

/// Whether both are nodes of one rule.
fn begin_alike(first: &WrittenTree, second: &WrittenTree) -> bool
    ensures { result ≡ begin_alike (written_view first.now) (written_view second.now) }
{
    match (first, second) {
        (WrittenTree::Node { rule, .. }, WrittenTree::Node { rule: other, .. }) => {
            rule.0 == other.0
        }
        _ => false,
    }
}
