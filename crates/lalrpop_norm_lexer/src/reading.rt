//! Reading the literals of entries, in order, by any lexer.
ghost use Rattle.std.specs.Prelude.{IfSome, IfOk};
ghost use Rattle.lalrpop_norm_lexer.specs.Answers.{pattern_answer};
ghost use Rattle.lalrpop_norm_model.specs.CheckedTokens.{AreRegexes};
ghost use Rattle.lalrpop_norm_lexer.specs.Entries.{KeepsReading, refused_at};
ghost use Rattle.lalrpop_norm_model.specs.LexerFaults.{IsFirstBad};

use crate::lexer::{Lexer, RegexError};
use lalrpop_norm_tree::grammar::parse_tree::MatchEntry;
use lalrpop_norm_tree_parts::names::TerminalLiteral;
use std::alloc::{AllocFailed, Global};

/// Why the literals of entries were not all read.
#[derive(Debug, Drop)]
pub(crate) enum ReadError {
    /// The literal of the entry at that index is no pattern.
    Bad {
        /// Of the entry.
        index: usize,
        /// As the lexer words it.
        message: String,
    },
    /// An allocation failed.
    Memory,
}

impl<T: Drop> From<AllocFailed<T>> for ReadError {
    ghost use Rattle.std.specs.Prelude.{◌≡◌};
    ghost use Rattle.lalrpop_norm_lexer.specs.declared.reading.ReadError.TheVariants.{Memory};

    ghost from_gives = { λ _ e. e ≡ Memory };

    fn from(_: AllocFailed<T>) -> ReadError {
        ReadError::Memory
    }
}

/// A regex of the literal.
pub(crate) fn read<L: Lexer>(
    alloc: Global,
    lexer: &L,
    literal: &TerminalLiteral,
) -> Result<L::Regex, RegexError>
    ensures { IfSome (pattern_answer result) (KeepsReading (L.relations lexer.now) literal.now) }
{
    match literal {
        TerminalLiteral::Quoted(text) => match lexer.parse_literal(alloc, text.as_str()) {
            Ok(regex) => Ok(regex),
            Err(_) => Err(RegexError::Memory),
        },
        TerminalLiteral::Regex(text) => lexer.parse_regex(alloc, text.as_str()),
    }
}

/// A regex of each entry's literal, in the order of the entries, or the first entry whose literal is refused.
pub(crate) fn read_all<L: Lexer>(
    alloc: Global,
    lexer: &L,
    entries: &[MatchEntry],
) -> Result<Vec<L::Regex>, ReadError>
    ensures regexes { IfOk result (λ rs. AreRegexes (L.relations lexer.now) entries.now rs.items) }
    ensures bad { IfSome (refused_at result) (IsFirstBad (L.relations lexer.now) entries.now) }
{
    let mut regexes = Vec::new(alloc);
    'entries: for index in 0..entries.len() {
        match read(alloc, lexer, &entries[index].match_literal) {
            Ok(regex) => regexes.push(regex)?,
            Err(RegexError::Refused { message }) => return Err(ReadError::Bad { index, message }),
            Err(RegexError::Memory) => return Err(ReadError::Memory),
        }
    }
    Ok(regexes)
}
