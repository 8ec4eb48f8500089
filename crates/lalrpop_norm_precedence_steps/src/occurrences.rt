//! What recursive occurrences become: by the associativity of their alternative, and one after another as they are reached.
ghost use Rattle.std.specs.Prelude.{◌≡◌, IfOk};
ghost use Rattle.lalrpop_norm_tree.specs.Symbols.{kind_view};
ghost use Rattle.lalrpop_norm_precedence_steps.specs.Sides.{side_of};
ghost use Rattle.lalrpop_norm_precedence_steps.specs.Substitutions.{substitution_view, occurrence, plan_by_side, direction_by_side};

use crate::assoc::Assoc;
use lalrpop_norm_tree::grammar::parse_tree::SymbolKind;
use std::alloc::AllocError;

/// What recursive occurrences become, one after another as they are reached.
#[derive(Clone, Copy, PartialEq, Eq)]
pub enum Substitution<'a> {
    /// The one reached first becomes the first kind, all others become the second one.
    OneThen(&'a SymbolKind, &'a SymbolKind),
    /// Each becomes this kind.
    Every(&'a SymbolKind),
}

/// In which order recursive occurrences are reached.
#[derive(Clone, Copy, PartialEq, Eq)]
pub enum Direction {
    /// In reading order.
    Forward,
    /// The last one first.
    Backward,
}

/// What recursive occurrences become in an alternative of this associativity: the current level, or the one below.
pub fn substitution_by_side<'a>(
    side: Assoc,
    current: &'a SymbolKind,
    below: &'a SymbolKind,
) -> Substitution<'a>
    ensures { substitution_view result ≡ plan_by_side (side_of side) (kind_view current.now) (kind_view below.now) }
{
    match side {
        Assoc::Left | Assoc::Right => Substitution::OneThen(current, below),
        Assoc::NonAssoc => Substitution::Every(below),
        Assoc::FullyAssoc => Substitution::Every(current),
    }
}

/// In which order they are reached there.
pub fn direction_by_side(side: Assoc) -> Direction
    ensures { result ≡ direction_by_side (side_of side) }
{
    match side {
        Assoc::Right => Direction::Backward,
        Assoc::Left | Assoc::NonAssoc | Assoc::FullyAssoc => Direction::Forward,
    }
}

/// A copy of the kind that the next occurrence becomes.
pub fn occurrence(
    first: &SymbolKind,
    others: &SymbolKind,
    is_met: bool,
) -> Result<SymbolKind, AllocError>
    ensures { IfOk result (λ k. kind_view k ≡ occurrence (kind_view first.now, kind_view others.now) is_met 0) }
{
    if is_met {
        others.clone()
    } else {
        first.clone()
    }
}
