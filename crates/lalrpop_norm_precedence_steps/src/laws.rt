//! What is proved of the faults of levels. The function here is a law: it does nothing, and its contract is a theorem, whose
//! statement is in `specs/Laws.antt`.
ghost use Rattle.lalrpop_norm_precedence_steps.specs.Laws.{LowestLevelsBoundThemselves};

/// If the pass on levels finds no fault of levels, an alternative of the lowest level of its rule has the associativity `all`. If
/// also the rule has levels and the alternative's names have a meaning, all its recursive occurrences have its own level for
/// their bound. No associativity asks there for a level below, since there is none.
pub fn lowest_levels_bound_themselves()
    ensures { LowestLevelsBoundThemselves }
{}
