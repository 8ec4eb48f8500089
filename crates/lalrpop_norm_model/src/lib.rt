//! Definitions over written grammars that several passes share, and what is proved of them.
//!
//! The definitions are in `specs/`. Each function here is a law: it does nothing, and its contract is a theorem on the
//! definitions, whose statement is in `specs/Laws.antt`.
#![tactic(auto)]

ghost use Rattle.lalrpop_norm_model.specs.Laws.{TextsAreDisplayed, MeaningsHaveLevels, MeaningsAreResolved};
ghost use Rattle.lalrpop_norm_model.specs.Laws.{LevelsAreListed, PreviousIsBelow, HighestIsGreatest};
ghost use Rattle.lalrpop_norm_model.specs.Laws.{PlacesAreLeveled, LevelsAreStated, SidesAreStated, LevelsAreHandedOn, DisabledAreNoMatter};
ghost use Rattle.lalrpop_norm_model.specs.Laws.{ScopedAsWritten, EnabledAreActive, ResolvedOnce};
ghost use Rattle.lalrpop_norm_model.specs.Laws.{LevelRulesAreRead, BoundsAreBySide, ConditionsDecide};
ghost use Rattle.lalrpop_norm_model.specs.Laws.{DisabledAreLeftOut, RanksCountEnabled, DisabledOnlyRenumber};
ghost use Rattle.lalrpop_norm_model.specs.Laws.{ClausesOnlyRenumber, TreesOnlyRenumber};
ghost use Rattle.lalrpop_norm_model.specs.Laws.{GrammarsAreLeveled, WrittenGrammarsAreLeveled, LevelsAreSteps, WrittenTreesAreLowered};
ghost use Rattle.lalrpop_norm_model.specs.Laws.{ArgumentsAreSubstituted, MadeRulesAreRead, RulesAreRead, MetIsRead};
ghost use Rattle.lalrpop_norm_model.specs.Laws.{MadeSymbolsAreScoped, RoundsAreRead};
ghost use Rattle.lalrpop_norm_model.specs.Laws.{TextsInGrammars, PlainRulesAreRead};
ghost use Rattle.lalrpop_norm_model.specs.Laws.{PlainGrammarsHoldPlainRules, DistinctNamesMeanOneRule, PlainRulesAreFaithful};
ghost use Rattle.lalrpop_norm_model.specs.Laws.{TypableExactly, AutomatonIsUnseen};
ghost use Rattle.lalrpop_norm_model.specs.Laws.{TypeRoundsEnd, UntypedRulesHaveNoType, DisagreementsAreTwoTypes};
ghost use Rattle.lalrpop_norm_model.specs.Laws.{EntriesAreOneList, EnteredAreExpanded, EnteredAreTyped, EntriesDecideTypes};

/// The text of a ground symbol without bounds is the text that its written symbol is displayed with.
pub fn texts_are_displayed()
    ensures { TextsAreDisplayed }
{}

/// The meaning of each grammar has what the theory of trees asks of one: an alternative with parts is one of those counted,
/// and the alternatives within a bound are those of the bound's own level and those within the bound one level down.
pub fn meanings_have_levels()
    ensures { MeaningsHaveLevels }
{}

/// If each name in the rules has a meaning, the references that they declare lead only to declared ones: from alternative
/// to alternative, from level to level, and out of macros called by resolved arguments.
pub fn meanings_are_resolved()
    ensures { MeaningsAreResolved }
{}

/// The levels of a rule are the levels that its alternatives have, each once, rising.
pub fn levels_are_listed()
    ensures { LevelsAreListed }
{}

/// The previous level of a level is the greatest lower one of the rule, where there is one.
pub fn previous_is_below()
    ensures { PreviousIsBelow }
{}

/// The highest level of a rule that has a level is one that it has, and none is higher.
pub fn highest_is_greatest()
    ensures { HighestIsGreatest }
{}

/// Each enabled alternative has the level and the associativity of its index.
pub fn places_are_leveled()
    ensures { PlacesAreLeveled }
{}

/// The level of an index is the one stated last at or before it; 0 if there is none.
pub fn levels_are_stated()
    ensures { LevelsAreStated }
{}

/// The associativity of an index is the one stated last at or before it and not before its level; `all` if there is none.
pub fn sides_are_stated()
    ensures { SidesAreStated }
{}

/// The rules that a grammar is read as are scoped where their names are, and one without levels has no two.
pub fn scoped_as_written()
    ensures { ScopedAsWritten }
{}

/// The alternatives of an enabled rule are those whose attributes are active, in order, and its indices stay.
pub fn enabled_are_active()
    ensures { EnabledAreActive }
{}

/// Resolving the names of a resolved grammar changes nothing.
pub fn resolved_once()
    ensures { ResolvedOnce }
{}

/// The rule of a level in the grammar with levels, read without bounds, holds the clauses of the level in the written grammar:
/// its own alternatives in order, then the step to the level below, with each bounded reference by the name of its level.
pub fn level_rules_are_read()
    ensures { LevelRulesAreRead }
{}

/// Levels and associativities are inherited from index to index: each index needs only what the one before it had.
pub fn levels_are_handed_on()
    ensures { LevelsAreHandedOn }
{}

/// If the alternatives that are not enabled are taken out, the others have the same levels and associativities.
pub fn disabled_are_no_matter()
    ensures { DisabledAreNoMatter }
{}

/// The rules that the pass on levels gets are the enabled ones of the written grammar, in order: each with its name, its
/// arguments and its levels, and of its alternatives those that are enabled, in order.
pub fn disabled_are_left_out()
    ensures { DisabledAreLeftOut }
{}

/// The rank of an alternative is the number of enabled alternatives that are written before it in its rule.
pub fn ranks_count_enabled()
    ensures { RanksCountEnabled }
{}

/// The grammar that the pass on levels gets is the written one but for the numbers of alternatives: the number of each is its
/// rank among the enabled ones. Its parts, the levels, the declared references and the roots are the same.
pub fn disabled_only_renumber()
    ensures { DisabledOnlyRenumber }
{}

/// In the grammar that the pass on levels gets each symbol has the clauses that it has in the written grammar, in the same order,
/// and each that is an alternative has its rank for its number.
pub fn clauses_only_renumber()
    ensures { ClausesOnlyRenumber }
{}

/// The written trees of a grammar correspond one to one with those of the grammar that the pass on levels gets: the same trees,
/// each node with the rank of its alternative for its number.
pub fn trees_only_renumber()
    ensures { TreesOnlyRenumber }
{}

/// The references of an alternative to its own rule have the bounds of its associativity, in reading order, however deep.
pub fn bounds_are_by_side()
    ensures { BoundsAreBySide }
{}

/// An alternative of a macro is there, for arguments that fit, if and only if its condition is true or absent.
pub fn conditions_decide()
    ensures { ConditionsDecide }
{}

/// The grammar with levels, read without levels, has the relation to the written one that the theory of trees defines: index by
/// index its rules hold the clauses of the levels, macros keep their alternatives and their numbers, and each alternative has its
/// origin. It asks that names be resolved and have a meaning, that no two rules share a name, also with the levels as rules, and
/// that no macro has two levels.
pub fn grammars_are_leveled()
    ensures { GrammarsAreLeveled }
{}

/// The same relation to the written grammar, with its disabled alternatives as holes: each alternative has its origin there, by
/// its written index.
pub fn written_grammars_are_leveled()
    ensures { WrittenGrammarsAreLeveled }
{}

/// With levels as rules in between, the trees of a grammar within bounds correspond to those of a grammar lowered from its
/// levels: each step is one to one, and the composition of the two is the pairing.
pub fn levels_are_steps()
    ensures { LevelsAreSteps }
{
    lalrpop_norm_theory::levels_are_two_steps();
}

/// From the written grammar, with the features read and the numbers as written, to a grammar lowered from its levels: the written
/// trees correspond one to one with the derivation trees, with the same words, and with the alternatives by their ranks.
pub fn written_trees_are_lowered()
    ensures { WrittenTreesAreLowered }
{
    lalrpop_norm_theory::levels_are_two_steps();
}

/// In a grammar read without levels, a symbol in which the arguments of a macro are substituted reads as the symbol in the
/// environment of these arguments.
pub fn arguments_are_substituted()
    ensures { ArgumentsAreSubstituted }
{}

/// Each call, group, repeat and location symbol whose names have a meaning is desugared to exactly one rule: it has the symbol's
/// text as its name and holds the symbol's clauses, in order.
pub fn made_rules_are_read()
    ensures { MadeRulesAreRead }
{}

/// The rules without arguments are those of the declared references, in order, and hold the clauses of these.
pub fn rules_are_read()
    ensures { RulesAreRead }
{}

/// What is reached in written symbols and in rules is, read, what the ground symbols and their clauses reach.
pub fn met_is_read()
    ensures { MetIsRead }
{}

/// Each symbol that is desugared in the rounds is one of a kind that is desugared, and the names in it have a meaning without
/// arguments.
pub fn made_symbols_are_scoped()
    ensures { MadeSymbolsAreScoped }
{}

/// The rounds of written symbols, which are compared up to spans, are, read, the rounds of the ground symbols.
pub fn rounds_are_read()
    ensures { RoundsAreRead }
{}

/// The text of a ground symbol without bounds is, in every grammar, the text that its written symbol is displayed with.
pub fn texts_in_grammars()
    ensures { TextsInGrammars }
{}

/// The rules of the expanded grammar, in order, are the rules of the declared references and of the symbols desugared in the
/// rounds, each under its text: as many alternatives as clauses, each with the clause's symbols.
pub fn plain_rules_are_read()
    ensures { PlainRulesAreRead }
{}

/// The expanded grammar has the plain rules (`plain_rules`) for its rules, in order.
pub fn plain_grammars_hold_plain_rules()
    ensures { PlainGrammarsHoldPlainRules }
{}

/// If the names of the rules of the expanded grammar are distinct, no two symbols that have rules share a name.
pub fn distinct_names_mean_one_rule()
    ensures { DistinctNamesMeanOneRule }
{}

/// If a round has nothing new and each name means one rule, the written trees of a grammar whose names are resolved correspond
/// one to one with the derivation trees of the rules of its expanded grammar, with the same words and alternatives, from every
/// declared reference.
pub fn plain_rules_are_faithful()
    ensures { PlainRulesAreFaithful }
{}

/// A grammar whose rules have distinct names is typable if and only if its list of faults of inference is empty: each rule has
/// exactly one type, and the tuple patterns fit.
pub fn typable_exactly()
    ensures { TypableExactly }
{}

/// The rounds of inference end: once there were as many as rules, a further one adds nothing.
pub fn type_rounds_end()
    ensures { TypeRoundsEnd }
{}

/// F49 holds at the rules for which no type is derivable, and at no others; it holds nowhere if and only if each rule has a type.
/// If no two rules share a name, F47 and F48 also hold only for rules for which no type is derivable: F48 holds at the first
/// alternative of one.
pub fn untyped_rules_have_no_type()
    ensures { UntypedRulesHaveNoType }
{}

/// F50 holds at an alternative only if its rule has two types: the one that the rounds give the rule, and the one that the
/// alternative makes. If no two rules share a name, it holds nowhere if and only if no name has two types; then the types that
/// the rounds give are those that the rules have, each one and no other.
pub fn disagreements_are_two_types()
    ensures { DisagreementsAreTwoTypes }
{}

/// What inference finds wrong with a grammar that has internal tokens depends on their entries and not on their automaton. It is
/// the same whether or not a lexer can build one.
pub fn automaton_is_unseen()
    ensures { AutomatonIsUnseen }
{}

/// The entries of a grammar are one list: those of the match block and those that the literals used add, each once, in their
/// order.
pub fn entries_are_one_list()
    ensures { EntriesAreOneList }
{}

/// An expanded grammar stays expanded once it has its entries.
pub fn entered_are_expanded()
    ensures { EnteredAreExpanded }
{}

/// If the pass on tokens finds nothing wrong with an expanded grammar, its terminals are distinct once it has its entries, and
/// each one used is one of them: it is typed by each table in which each of its rules has a type.
pub fn entered_are_typed()
    ensures { EnteredAreTyped }
{}

/// Types and the faults of inference and lowering depend on the entries of a grammar, and on no automaton.
pub fn entries_decide_types()
    ensures { EntriesDecideTypes }
{}
