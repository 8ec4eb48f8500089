//! The theory of the normalization, without code: ground symbols and their rules, written and lowered
//! derivation trees, how they pair, levels, and the rounds of an expansion.
//!
//! The definitions are in `specs/`, generic in what trees see of a grammar (`specs/Meaning.antt`). Each function here is a
//! law: it does nothing, and its contract is a theorem on the definitions, whose statement is in `specs/Laws.antt`. A
//! crate that proves code cites the definitions and these theorems.
#![tactic(auto)]

ghost use Rattle.lalrpop_norm_theory.specs.Laws.{TreesAreOneToOne, WordsAreTheSame, TranslationsAreInverse};
ghost use Rattle.lalrpop_norm_theory.specs.Laws.{RulesRealize, LevelsAreTwoSteps};
ghost use Rattle.lalrpop_norm_theory.specs.Laws.{RoundsAreShortestChains, RoundsAreInOrder, NothingNewIsWhole};
ghost use Rattle.lalrpop_norm_theory.specs.Laws.{ExpansionsStand, ExpansionsAreOneToOne};
ghost use Rattle.lalrpop_norm_theory.specs.Laws.{RulesAreMadeOnce, PartsAreMetNoLater, SameIsEqual};

/// In a lowered grammar that has, under the names of the known symbols, the productions of their rules, each written tree of a
/// known symbol has exactly one corresponding derivation tree of its nonterminal, and each derivation tree has exactly one
/// corresponding written tree. Corresponding trees have one word and the same list of written alternatives.
pub fn trees_are_one_to_one()
    ensures { TreesAreOneToOne }
{}

/// A word has a written tree of a known symbol if and only if it has a derivation tree of the symbol's nonterminal.
pub fn words_are_the_same()
    ensures { WordsAreTheSame }
{}

/// The translation of written trees forward and that of lowered trees back, which reads the origins and nothing else, answer the
/// trees that correspond to their arguments. Each undoes the other.
pub fn translations_are_inverse()
    ensures { TranslationsAreInverse }
{}

/// If an expansion is complete and each name in it means one rule, the list of its rules, read by name, is a lowered grammar
/// of the kind that the laws on trees ask for. Roots may share the rule of a declared symbol.
pub fn rules_realize()
    ensures { RulesRealize }
{}

/// For resolved symbols the pairing is made of two steps that meet at the grammar with levels: bounded written trees against its
/// trees, then its trees, read without bounds, against the lowered ones. Each step is one to one, and the composition of the two
/// is the pairing.
pub fn levels_are_two_steps()
    ensures { LevelsAreTwoSteps }
{}

/// A symbol is new in a round of the expansion if and only if the round's number is the length of the shortest chain of rules
/// that leads to it.
pub fn rounds_are_shortest_chains()
    ensures { RoundsAreShortestChains }
{}

/// The new symbols of a round are in the order in which they are first reached. The next round reads their rules in the reverse
/// of that order.
pub fn rounds_are_in_order()
    ensures { RoundsAreInOrder }
{}

/// The rules that an expansion generates are one for each symbol that is new in some round, and no others.
pub fn rules_are_made_once()
    ensures { RulesAreMadeOnce }
{}

/// What a symbol reaches has a chain of rules no longer than the symbol's own: an argument substituted into a macro's body
/// reaches nothing there that the call did not reach.
pub fn parts_are_met_no_later()
    ensures { PartsAreMetNoLater }
{}

/// If a round adds nothing, the symbols so far contain all that their rules reach.
pub fn nothing_new_is_whole()
    ensures { NothingNewIsWhole }
{}

/// If a resolved expansion has nothing new and each name means one rule, its declared rules and the generated rules, in their
/// order, are those that `rules_realize` speaks of.
pub fn expansions_stand()
    ensures { ExpansionsStand }
{}

/// End to end: of a resolved grammar whose expansion ends, each name meaning one rule, the written trees of each known
/// symbol and of each root correspond one to one with the derivation trees of the declared rules and the generated rules.
pub fn expansions_are_one_to_one()
    ensures { ExpansionsAreOneToOne }
{}

/// The test of sameness, by cases on the shape of two ground symbols, says whether they are equal.
pub fn same_is_equal()
    ensures { SameIsEqual }
{}
