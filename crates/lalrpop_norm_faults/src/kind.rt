//! The kinds of faults of a grammar, and their error codes.
ghost use Rattle.std.specs.Prelude.{◌≡◌};
ghost use Rattle.lalrpop_norm_faults.specs.Faults.{code_of};

/// The kind of a fault. Each kind has an error code, by which users know it.
#[derive(Clone, Copy, Debug, PartialEq, Eq)]
pub enum FaultKind {
    /// F1: a grammar attribute is not known.
    GrammarAttribute,
    /// F2: a match block is not the first.
    SecondMatch,
    /// F3: a match block and an extern enum.
    MatchWithExtern,
    /// F4: an extern block is not the first.
    SecondExtern,
    /// F5: neither `Location` nor `Error`.
    UnknownAssociatedType,
    /// F6: an associated type that the block named before.
    RepeatedAssociatedType,
    /// F7: a public rule with arguments.
    PublicMacro,
    /// F8: a rule attribute is neither `inline` nor `cfg`.
    UnknownRuleAttribute,
    /// F9: a rule attribute that the rule has already.
    RepeatedRuleAttribute,
    /// F10: `inline` on a public rule.
    InlineOnPublic,
    /// F11: a `cfg` of no known form.
    MalformedCfg,
    /// F12a: levels or associativities, and the first alternative has no level.
    MissingLevel,
    /// F12b: a `precedence` whose first argument is not `level = ".."`.
    LevelArgument,
    /// F12c: a level that is no number of 32 bits.
    LevelNumber,
    /// F12d: an `assoc` whose first argument is not `side = ".."`.
    SideArgument,
    /// F12e: an associativity that is none of the four.
    Side,
    /// F12f: an associativity on the lowest level.
    SideOnLowest,
    /// F13: an alternative's attribute is not known.
    AlternativeAttribute,
    /// F14: named or tuple symbols without action code.
    NamedWithoutAction,
    /// F15: `<>` just between braces, and no named or tuple symbol.
    AnonymousInBraces,
    /// F16: a selected and a named symbol in one alternative or group.
    ChosenWithNamed,
    /// F17: two named symbols of one name in one alternative or group.
    NameTwice,
    /// F18: `!`, where `recursive_ascent` or `test_all` is in force.
    ErrorWithAscent,
    /// F19: a macro call without arguments.
    MacroWithoutArguments,
    /// F20: a location symbol (`@L`, `@R`), and the extern enum has no location.
    NoLocation,
    /// F21: a tokenizer that was written.
    WrittenIntern,
    /// F22: the error terminal was written.
    WrittenErrorTerminal,
    /// F23: the type of a symbol was written.
    WrittenOfSymbol,
    /// F24: the action of a location symbol was written.
    WrittenLookaround,
    /// F25: a name is declared twice.
    NameDeclaredTwice,
    /// F26: a macro argument is repeated.
    ArgumentTwice,
    /// F27: a name is not in scope.
    NoDefinition,
    /// F28: a condition on what is no macro argument.
    ConditionOnOther,
    /// F29: a nonterminal names a terminal or a macro.
    NotNonterminal,
    /// F30: a call names no macro.
    NotMacro,
    /// F31: a wrong number of arguments.
    Arity,
    /// F32: a name that is a macro's.
    MacroNamed,
    /// F33: a condition over what is no quoted literal.
    ConditionArgument,
    /// F34: the pattern of a condition is no regular expression, or nests too deep to be read.
    ConditionPattern,
    /// F35: a named or tuple symbol in a group.
    NamedInGroup,
    /// F36: a symbol is to be desugared in a round past the limit.
    RecursionCap,
    /// F37: two different symbols have one text, or a symbol has the text of a declared name.
    SharedName,
    /// F38: a literal twice in a match block.
    LiteralTwice,
    /// F39: two entries or conversions for one terminal.
    TerminalTwice,
    /// F40: a terminal that the tokenizer does not know.
    NoMapping,
    /// F41: a terminal that has no conversion.
    NoPattern,
    /// F42: a literal is no regular expression.
    BadRegex,
    /// F43: a regular expression with a feature that the lexer lacks.
    RegexFeature,
    /// F44: the lexer calls two entries ambiguous.
    Ambiguity,
    /// F45: the lifetime `'input` is declared, and the tokenizer is made here.
    InputLifetime,
    /// F46: the parameter `input` is declared, and the tokenizer is made here.
    InputParameter,
    /// F47: no declared type and no alternatives.
    NoAlternatives,
    /// F48: no declared type, and no alternative is a default one or a location symbol.
    OnlyCoded,
    /// F49: no type follows for a rule.
    NotGrounded,
    /// F50: an alternative of a rule without a declared type gives another type than the rule has.
    Disagreement,
    /// F51: a tuple pattern over no nonterminal.
    TupleOverSymbol,
    /// F52: a tuple pattern over no tuple type.
    TupleOverType,
    /// F53: a tuple pattern of another length than its type.
    TupleLength,
    /// F54: several `<>`, not as many as sources, and no named or tuple symbol.
    Placeholders,
    /// F55: the name of a start symbol is taken.
    StartTaken,
    /// F56: more than 4294967296 actions.
    TooManyActions,
    /// F57: a named or tuple symbol that is repeated by `X{n}`.
    NamedInTimes,
}

impl FaultKind {
    /// Its error code: `F1` to `F57`; the codes of levels and associativities have a letter.
    pub fn code(self) -> &'static str
        ensures { result.now ≡ code_of self }
    {
        match self {
            FaultKind::GrammarAttribute => "F1",
            FaultKind::SecondMatch => "F2",
            FaultKind::MatchWithExtern => "F3",
            FaultKind::SecondExtern => "F4",
            FaultKind::UnknownAssociatedType => "F5",
            FaultKind::RepeatedAssociatedType => "F6",
            FaultKind::PublicMacro => "F7",
            FaultKind::UnknownRuleAttribute => "F8",
            FaultKind::RepeatedRuleAttribute => "F9",
            FaultKind::InlineOnPublic => "F10",
            FaultKind::MalformedCfg => "F11",
            FaultKind::MissingLevel => "F12a",
            FaultKind::LevelArgument => "F12b",
            FaultKind::LevelNumber => "F12c",
            FaultKind::SideArgument => "F12d",
            FaultKind::Side => "F12e",
            FaultKind::SideOnLowest => "F12f",
            FaultKind::AlternativeAttribute => "F13",
            FaultKind::NamedWithoutAction => "F14",
            FaultKind::AnonymousInBraces => "F15",
            FaultKind::ChosenWithNamed => "F16",
            FaultKind::NameTwice => "F17",
            FaultKind::ErrorWithAscent => "F18",
            FaultKind::MacroWithoutArguments => "F19",
            FaultKind::NoLocation => "F20",
            FaultKind::WrittenIntern => "F21",
            FaultKind::WrittenErrorTerminal => "F22",
            FaultKind::WrittenOfSymbol => "F23",
            FaultKind::WrittenLookaround => "F24",
            FaultKind::NameDeclaredTwice => "F25",
            FaultKind::ArgumentTwice => "F26",
            FaultKind::NoDefinition => "F27",
            FaultKind::ConditionOnOther => "F28",
            FaultKind::NotNonterminal => "F29",
            FaultKind::NotMacro => "F30",
            FaultKind::Arity => "F31",
            FaultKind::MacroNamed => "F32",
            FaultKind::ConditionArgument => "F33",
            FaultKind::ConditionPattern => "F34",
            FaultKind::NamedInGroup => "F35",
            FaultKind::RecursionCap => "F36",
            FaultKind::SharedName => "F37",
            FaultKind::LiteralTwice => "F38",
            FaultKind::TerminalTwice => "F39",
            FaultKind::NoMapping => "F40",
            FaultKind::NoPattern => "F41",
            FaultKind::BadRegex => "F42",
            FaultKind::RegexFeature => "F43",
            FaultKind::Ambiguity => "F44",
            FaultKind::InputLifetime => "F45",
            FaultKind::InputParameter => "F46",
            FaultKind::NoAlternatives => "F47",
            FaultKind::OnlyCoded => "F48",
            FaultKind::NotGrounded => "F49",
            FaultKind::Disagreement => "F50",
            FaultKind::TupleOverSymbol => "F51",
            FaultKind::TupleOverType => "F52",
            FaultKind::TupleLength => "F53",
            FaultKind::Placeholders => "F54",
            FaultKind::StartTaken => "F55",
            FaultKind::TooManyActions => "F56",
            FaultKind::NamedInTimes => "F57",
        }
    }
}
