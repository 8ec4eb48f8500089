//! Laws of reached symbols, and of environments. Each call does nothing; its contract clause is the law.
ghost use Rattle.lalrpop_norm_nodes.specs.NodeLaws.{MeetsInTwo, StandingMeetsNothing, GivenStay, ReadsInTwo, NumbersOfWaiting};

/// Symbols that are reached in two parts are reached, and the errors of the second part are errors of both.
pub fn meets_in_two()
    ensures { MeetsInTwo }
{}

/// A symbol that is in a table reaches nothing new, at any span of a grammar.
pub fn standing_meets_nothing()
    ensures { StandingMeetsNothing }
{}

/// A symbol that is read reaches what is inside it, and then itself.
pub fn reads_in_two()
    ensures { ReadsInTwo }
{}

/// An environment stays valid when the table grows, and what is read has the same text as its rewritten symbol.
pub fn given_stay()
    ensures { GivenStay }
{}

/// The id of a symbol on the worklist is that of the symbol that was reached there, up to spans.
pub fn numbers_of_waiting()
    ensures { NumbersOfWaiting }
{}
