//! What is proved of the definitions. Each function here is a law: it does nothing, and its contract is a theorem, whose
//! statement is in `specs/PlainLaws.antt`.
ghost use Rattle.lalrpop_norm.specs.PlainLaws.{PlainGrammarsAreExpanded, EnteredGrammarsAreExpanded, PlainGrammarsAreTyped};
ghost use Rattle.lalrpop_norm.specs.PlainLaws.{PlainConversionsAreActive, InferredTypesAreTotal, StartNamesAreFree};
ghost use Rattle.lalrpop_norm.specs.PlainLaws.{LoweredTypesAreGrounded, LoweredGrammarsAreFaithful};

use lalrpop_norm_lexer::lexer::Lexer;

/// The expanded grammar satisfies `IsExpanded` and has no internal tokens, if the passes up to the expansion find nothing wrong.
pub fn plain_grammars_are_expanded()
    ensures { PlainGrammarsAreExpanded }
{}

/// With its entries the expanded grammar satisfies `IsExpanded`, if the passes up to that on tokens find nothing wrong.
pub fn entered_grammars_are_expanded()
    ensures { EnteredGrammarsAreExpanded }
{}

/// With its entries the expanded grammar is typed by each table in which each of its rules has a type, where the passes up to
/// that on tokens find nothing wrong.
pub fn plain_grammars_are_typed()
    ensures { PlainGrammarsAreTyped }
{}

/// Each conversion in the expanded grammar is active.
pub fn plain_conversions_are_active()
    ensures { PlainConversionsAreActive }
{}

/// The table inferred for the expanded grammar with its entries has a type for each of them, where the passes up to inference
/// find nothing wrong.
pub fn inferred_types_are_total()
    ensures { InferredTypesAreTotal }
{}

/// No rule has the start name of a public rule of the expanded grammar, if no pass finds a fault.
pub fn start_names_are_free()
    ensures { StartNamesAreFree }
{}

/// Once start symbols have their rules' types, each nonterminal of the expanded rules has its only derivable type, if no pass
/// finds a fault.
pub fn lowered_types_are_grounded()
    ensures { LoweredTypesAreGrounded }
{}

/// What is lowered from the expanded grammar with its tokens, with nothing left open, is faithful to the written grammar, where
/// no pass finds a fault.
pub fn lowered_grammars_are_faithful<L: Lexer>(lexer: &L)
    ensures { LoweredGrammarsAreFaithful (L.relations lexer.now) }
{}
