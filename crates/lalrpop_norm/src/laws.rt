//! What is proved of the definitions alone. Each function here is a law: it does nothing, and its contract is a theorem, whose
//! statement is in `specs/Laws.antt`, of maps in `specs/Maps.antt`, of the way back in `specs/WayBack.antt`.
ghost use Rattle.lalrpop_norm.specs.Laws.{CapIsExact, ConditionsHaveOneValue, FaultsAreByRound, LevelsSettleMacros};
ghost use Rattle.lalrpop_norm.specs.Laws.{LoweredTreesAreFaithful, NamesAreOwn, WordsAreEqual};
ghost use Rattle.lalrpop_norm.specs.Laws.{EachClassHasOneRule, ListsAreActionOrigins, ResolvedGrammarsAreSettled, SharedNamesStandExactly};
ghost use Rattle.lalrpop_norm.specs.Maps.{PatternsCompose, PatternKindsCompose, FieldPatternsCompose};
ghost use Rattle.lalrpop_norm.specs.Maps.{BoundsCompose, BoundParametersCompose};
ghost use Rattle.lalrpop_norm.specs.WayBack.{LevelsAreNarrow, RulesAreAmbiguousExactly, TracedCallsFit, TracedCallFitsAnywhere};

/// The trees of what an expanded grammar is lowered to, once it has its tokens, correspond one to one to the written trees,
/// with the same words and the same written alternatives, for each rule by itself and within each of its levels. Each enabled
/// public rule that is no macro, by itself and within each of its levels, has a start symbol: it is listed, its one production is
/// the rule or the level, and it has the words that the rule has there.
///
/// It asks what the passes find out: that no fault of names holds in the enabled grammar and in its grammar with levels, that the
/// expansion has ended, that the names of the expanded rules are distinct, and that none is that of a start symbol. No macro may
/// have two levels.
pub fn lowered_trees_are_faithful()
    ensures { LoweredTreesAreFaithful }
{}

/// The lists of origins that the traced passes return, one after another, are the origins of the actions of a lowered grammar:
/// with that of each start symbol in front, those of the expanded rules in a row, rule by rule and alternative by alternative. It
/// asks that no fault of names holds in the enabled grammar and in its grammar with levels, and that no macro has two levels.
pub fn lists_are_action_origins()
    ensures { ListsAreActionOrigins }
{}

/// If the pass over levels finds no fault in a resolved grammar, then no macro has two levels, since the step from a level to the
/// one below would name a macro as if it were a rule, and no fault of names holds in the grammar with levels.
pub fn levels_settle_macros()
    ensures { LevelsSettleMacros }
{}

/// The names of rules that occur once are a grammar's own where lowering has no fault and each rule has a type: no start symbol
/// has the name of a rule.
pub fn names_are_own()
    ensures { NamesAreOwn }
{}

/// The cap. If no fault of names holds, then F36 holds exactly where some symbol is first reached past the limit: its shortest
/// chain of rules is longer than the number of rounds that may make rules, and it is new in the round after them. And
/// `expand_macros` is rejected for F36, at a span, exactly where in these rounds nothing shares a name and each new symbol gets
/// its rule, nothing shares a name in the round after them, and of what is new there the symbol reached last is at that span.
pub fn cap_is_exact()
    ensures { CapIsExact }
{
    lalrpop_norm_model::rounds_are_read();
    lalrpop_norm_theory::rounds_are_shortest_chains();
}

/// The faults of an expansion, round by round: of each round that may make rules, first what shares a name (F37), then what no
/// rule is made of; of the round after them what shares a name, then that something is new there (F36).
pub fn faults_are_by_round()
    ensures { FaultsAreByRound }
{}

/// If no fault of names holds in a grammar, then the grammar with its names resolved is settled: they are resolved, occur once
/// and have a meaning. The laws that read an expansion ask for this.
pub fn resolved_grammars_are_settled()
    ensures { ResolvedGrammarsAreSettled }
{}

/// If no fault of names holds and no round after the limit has a new symbol, then exactly one rule is generated for each class of
/// symbols that are equal up to spans: of the symbols that get rules no two are equal, they are those that some chain of rules
/// leads to, and one rule is generated for each, the rule of that symbol.
pub fn each_class_has_one_rule()
    ensures { EachClassHasOneRule }
{}

/// F37 holds exactly where two symbols that are reached and are not equal have one text, or a symbol that is reached has the name
/// of a rule or macro for its text; reached, that is, in the rounds that may make rules or the one after them. It holds at the
/// span of a symbol whose text is declared, or the text of another one that was reached before it. And `expand_macros` is
/// rejected for F37, at a span, exactly where in some such round the first symbol to share its name is at that span, in the
/// rounds before it nothing shares a name, and each new symbol there gets its rule.
pub fn shared_names_stand_exactly()
    ensures { SharedNamesStandExactly }
{}

/// If the trees of a written rule, by itself or within a level, correspond one to one to derivation trees of a lowered grammar,
/// as faithful trees do, then it has there the words that it has as written, whatever the origins of alternatives.
pub fn words_are_equal()
    ensures { WordsAreEqual }
{}

/// The level of each reference to an enabled rule that is no macro is a number of 32 bits: up to there `lower_tree` follows the
/// steps of levels.
pub fn levels_are_narrow()
    ensures { LevelsAreNarrow }
{}

/// The way back. Over a lowered grammar with faithful trees, each action with its origin, `explain` and `lower_tree` reject
/// exactly what is no tree of an enabled written rule that is no macro, answer the corresponding tree,
/// and each undoes the other.
pub fn traced_calls_fit()
    ensures { TracedCallsFit }
{}

/// Over a lowered grammar with faithful trees, each action with its origin, `explain_at` reads a derivation tree of a known
/// symbol's nonterminal as the corresponding tree of that symbol, and one of a start symbol as a tree of its rule; and each
/// nonterminal that has productions is one of these.
pub fn traced_call_fits_anywhere()
    ensures { TracedCallFitsAnywhere }
{}

/// Ambiguity. In a lowered grammar with faithful trees, as `normalize.faithful` says of its answer, the name of each enabled written
/// rule that is no macro is ambiguous if and only if the rule is ambiguous as written; likewise the rule within each of its levels.
/// So if a lowered grammar has no ambiguity, then no such rule has one.
pub fn rules_are_ambiguous_exactly()
    ensures { RulesAreAmbiguousExactly }
{}

/// A condition has one value: if what its left operand is bound to gives it one, as `holds` of `lalrpop_norm_conditions` answers
/// it, that is its value in the meaning of a grammar.
pub fn conditions_have_one_value()
    ensures { ConditionsHaveOneValue }
{
    lalrpop_norm_conditions::conditions_say();
}

/// A pattern that is mapped twice, by closures that answer Ok with a function of the type that they are given, is what it is
/// mapped to by one that answers with the composition of the two.
pub fn patterns_map_by_composition<
    T,
    U,
    V,
    E,
    F: FnMut(&T) -> Result<U, E>,
    G: FnMut(&U) -> Result<V, E>,
    H: FnMut(&T) -> Result<V, E>,
>()
    ensures { PatternsCompose F.FnMut G.FnMut H.FnMut }
{}

/// A pattern kind that is mapped twice is what it is mapped to by a closure that answers with the composition of the two.
pub fn pattern_kinds_map_by_composition<
    T,
    U,
    V,
    E,
    F: FnMut(&T) -> Result<U, E>,
    G: FnMut(&U) -> Result<V, E>,
    H: FnMut(&T) -> Result<V, E>,
>()
    ensures { PatternKindsCompose F.FnMut G.FnMut H.FnMut }
{}

/// A field pattern that is mapped twice is what it is mapped to by a closure that answers with the composition of the two.
pub fn field_patterns_map_by_composition<
    T,
    U,
    V,
    E,
    F: FnMut(&T) -> Result<U, E>,
    G: FnMut(&U) -> Result<V, E>,
    H: FnMut(&T) -> Result<V, E>,
>()
    ensures { FieldPatternsCompose F.FnMut G.FnMut H.FnMut }
{}

/// A type bound that is mapped twice is what it is mapped to by a closure that answers with the composition of the two.
pub fn bounds_map_by_composition<
    T,
    U,
    V,
    E,
    F: FnMut(&T) -> Result<U, E>,
    G: FnMut(&U) -> Result<V, E>,
    H: FnMut(&T) -> Result<V, E>,
>()
    ensures { BoundsCompose F.FnMut G.FnMut H.FnMut }
{}

/// A parameter of a type bound that is mapped twice is what it is mapped to by a closure that answers with the composition of the two.
pub fn bound_parameters_map_by_composition<
    T,
    U,
    V,
    E,
    F: FnMut(&T) -> Result<U, E>,
    G: FnMut(&U) -> Result<V, E>,
    H: FnMut(&T) -> Result<V, E>,
>()
    ensures { BoundParametersCompose F.FnMut G.FnMut H.FnMut }
{}
