//! What is proved of the definitions. Each function here is a law: it does nothing, and its contract is a theorem, whose
//! statement is in `specs/Laws.antt`.
ghost use Rattle.lalrpop_norm_origins.specs.Laws.{LevelOriginsAreRuleOrigins, CallsKeepOrigins, ListsArePlainOrigins};

/// The lists that the pass on levels answers are the origins of the rules of the declared references, one list for each, in their
/// order.
pub fn level_origins_are_rule_origins()
    ensures { LevelOriginsAreRuleOrigins }
{}

/// The origins of the rule of a macro call are those of the written indices whose condition is true or absent.
pub fn calls_keep_origins()
    ensures { CallsKeepOrigins }
{}

/// The lists that the passes answer for the rules of the expanded grammar, concatenated, are the origins of its alternatives: by
/// the written rules and macros and the indices of their alternatives, disabled ones counted.
pub fn lists_are_plain_origins()
    ensures { ListsArePlainOrigins }
{}
