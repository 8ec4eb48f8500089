//! The automaton of entries, by any lexer.
ghost use Rattle.std.specs.Prelude.{◌≡◌, IfOk, IfErr};
ghost use Rattle.lalrpop_norm_model.specs.CheckedTokens.{HasAutomaton, precedences};
ghost use Rattle.lalrpop_norm_lexer.specs.Answers.{numbers};
ghost use Rattle.lalrpop_norm_lexer.specs.Constructing.{IsReason};

use crate::lexer::{DfaConstructionError, Lexer, NfaConstructionError, Precedence};
use crate::reading::{ReadError, read_all};
use lalrpop_norm_tree::grammar::parse_tree::{Dfa, MatchEntry, NoMemory};
use std::alloc::Global;

/// Why no automaton was built from the entries.
#[derive(Debug, Drop)]
pub enum ConstructError {
    /// The literal of the entry at that index is no pattern.
    Bad {
        /// Of the entry.
        index: usize,
        /// As the lexer words it.
        message: String,
    },
    /// The regex of the entry at that index has a feature that is not supported.
    Unsupported {
        /// Of the entry.
        index: usize,
        /// The feature.
        error: NfaConstructionError,
    },
    /// Two entries are ambiguous.
    Ambiguous {
        /// The index of one.
        match0: usize,
        /// The index of the other.
        match1: usize,
    },
    /// An allocation failed.
    Memory,
}

/// The automaton of the entries, from a regex of each literal, or why there is none.
pub fn construct<L: Lexer>(
    alloc: Global,
    lexer: &L,
    entries: &[MatchEntry],
) -> Result<Dfa, ConstructError>
    ensures built { IfOk result (λ d.
        HasAutomaton (L.relations lexer.now) (record { match_entries = entries.now; code = d.code.items })) }
    ensures reason { IfErr result (IsReason (L.relations lexer.now) entries.now) }
{
    let regexes = match read_all(alloc, lexer, entries) {
        Ok(regexes) => regexes,
        Err(ReadError::Bad { index, message }) => {
            return Err(ConstructError::Bad { index, message });
        }
        Err(ReadError::Memory) => return Err(ConstructError::Memory),
    };
    let precedences = match precedences_of(alloc, entries) {
        Ok(precedences) => precedences,
        Err(_) => return Err(ConstructError::Memory),
    };
    match lexer.build_dfa(alloc, &regexes, &precedences) {
        Ok(dfa) => Ok(dfa),
        Err(DfaConstructionError::NfaConstructionError { index, error }) => {
            Err(ConstructError::Unsupported { index, error })
        }
        Err(DfaConstructionError::Ambiguity { match0, match1 }) => {
            Err(ConstructError::Ambiguous { match0, match1 })
        }
        Err(DfaConstructionError::Memory) => Err(ConstructError::Memory),
    }
}

/// The precedence of each entry.
fn precedences_of(alloc: Global, entries: &[MatchEntry]) -> Result<Vec<Precedence>, NoMemory>
    ensures { IfOk result (λ ps. numbers ps.items ≡ precedences entries.now) }
{
    let mut precedences = Vec::new(alloc);
    for entry in entries {
        precedences.push(Precedence(entry.precedence))?;
    }
    Ok(precedences)
}
