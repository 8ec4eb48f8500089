//! What a lexer answers.
use std::alloc::{AllocError, AllocFailed};

/// Why a pattern was not read.
#[derive(Clone, Debug, PartialEq, Eq, Drop)]
pub enum RegexError {
    /// The text is no pattern.
    Refused {
        /// As the lexer words it.
        message: String,
    },
    /// An allocation failed, or a pattern is past the size limit of `regex`.
    Memory,
}

impl From<AllocError> for RegexError {
    ghost use Rattle.std.specs.Prelude.{◌≡◌};
    ghost use Rattle.lalrpop_norm_lexer.specs.declared.lexer.answers.RegexError.TheVariants.{Memory};

    ghost from_gives = { λ _ e. e ≡ Memory };

    fn from(_: AllocError) -> RegexError {
        RegexError::Memory
    }
}

impl From<shared_text::NoMemory> for RegexError {
    ghost use Rattle.std.specs.Prelude.{◌≡◌};
    ghost use Rattle.lalrpop_norm_lexer.specs.declared.lexer.answers.RegexError.TheVariants.{Memory};

    ghost from_gives = { λ _ e. e ≡ Memory };

    fn from(_: shared_text::NoMemory) -> RegexError {
        RegexError::Memory
    }
}

/// A precedence: a greater one wins over a smaller one.
#[derive(Clone, Copy, Debug, PartialEq, Eq, PartialOrd, Ord)]
pub struct Precedence(pub usize);

/// Why no automaton was built.
#[derive(Clone, Copy, Debug, PartialEq, Eq)]
pub enum DfaConstructionError {
    /// The regex at that index has a feature that is not supported.
    NfaConstructionError {
        /// Of the regex.
        index: usize,
        /// The feature.
        error: NfaConstructionError,
    },
    /// With these precedences two regexes are ambiguous.
    Ambiguity {
        /// The index of one.
        match0: usize,
        /// The index of the other.
        match1: usize,
    },
    /// An allocation failed, or a pattern is past the size limit of `regex`.
    Memory,
}

impl From<AllocError> for DfaConstructionError {
    ghost use Rattle.std.specs.Prelude.{◌≡◌};
    ghost use Rattle.lalrpop_norm_lexer.specs.declared.lexer.answers.DfaConstructionError.TheVariants.{Memory};

    ghost from_gives = { λ _ e. e ≡ Memory };

    fn from(_: AllocError) -> DfaConstructionError {
        DfaConstructionError::Memory
    }
}

impl<T: Drop> From<AllocFailed<T>> for DfaConstructionError {
    ghost use Rattle.std.specs.Prelude.{◌≡◌};
    ghost use Rattle.lalrpop_norm_lexer.specs.declared.lexer.answers.DfaConstructionError.TheVariants.{Memory};

    ghost from_gives = { λ _ e. e ≡ Memory };

    fn from(_: AllocFailed<T>) -> DfaConstructionError {
        DfaConstructionError::Memory
    }
}

/// A feature that an automaton is not made for.
#[derive(Clone, Copy, Debug, PartialEq, Eq)]
pub enum NfaConstructionError {
    /// `(?P<name>..)`.
    NamedCaptures,
    /// `a*?`.
    NonGreedy,
    /// `^`, `\b`.
    LookAround,
    /// `(?-u:\xFF)`.
    ByteRegex,
}
