//! What two trees show of a grammar. Each function is a law: it does nothing, and its contract is a theorem.
ghost use Rattle.lalrpop_norm_ambiguity.specs.Laws.{FoundIsAmbiguous, AnswersShow, AmbiguousIsFound, AnsweredExactly};
ghost use Rattle.lalrpop_norm_ambiguity.specs.Laws.{DifferencesAreAmbiguous, AmbiguousExactly};

/// If both translations fit a meaning and nothing is found in two derivation trees, then they are read as two different written
/// trees with one yield, both of one rule at whose name trees may begin.
pub fn found_is_ambiguous()
    ensures { FoundIsAmbiguous }
{}

/// There, an answer of [`ambiguity`](crate::ambiguity) has two different written trees with one yield, both of one such rule.
pub fn answers_show()
    ensures { AnswersShow }
{}

/// There, if two different written trees of such a rule have one yield, then nothing is found in the trees that they are lowered
/// to. So each ambiguity can be shown.
pub fn ambiguous_is_found()
    ensures { AmbiguousIsFound }
{}

/// There, nothing is found in two trees if and only if they are two different derivation trees of one such name, with one yield.
pub fn answered_exactly()
    ensures { AnsweredExactly }
{}

/// If two written trees of a ground symbol are different and have one yield, then the path to their difference leads to two trees
/// that are different again, of one ground symbol, with one yield. So that symbol is ambiguous.
pub fn differences_are_ambiguous()
    ensures { DifferencesAreAmbiguous }
{}

/// If the written and the lowered trees of a ground symbol correspond one to one, then it is ambiguous in the written grammar if and
/// only if its name is in the lowered one.
pub fn ambiguous_exactly()
    ensures { AmbiguousExactly }
{}
