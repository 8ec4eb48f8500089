//! A lexer that reads patterns and builds nothing.
ghost use Rattle.std.specs.Prelude.{IfSome};
ghost use Rattle.lalrpop_norm_model.specs.Lexers.{KeepsPattern};
ghost use Rattle.lalrpop_norm_lexer.specs.Answers.{pattern_answer};
ghost use Rattle.lalrpop_norm_lexer.specs.CheckOnly.{of_regex, RefusesNoneChecked};
ghost use Rattle.lalrpop_norm_lexer.specs.Entries.{TellsApart};

use super::Lexer;
use super::answers::{DfaConstructionError, Precedence, RegexError};
use lalrpop_norm_tree::grammar::parse_tree::{Dfa, NoMemory};
use regex_hir::Hir;
use regex_syntax::{Config, ErrorKind, Parsed};
use std::alloc::Global;

/// How many bytes the tables of a compiled pattern take at most: the limit that `regex` has where none is set.
const SIZE_LIMIT: usize = 10 << 20;

/// Reads patterns as `regex` does, and builds an automaton with no code. It finds no unsupported feature and no ambiguity.
#[derive(Clone, Copy, Debug, PartialEq, Eq)]
pub struct CheckOnly;

impl Lexer for CheckOnly {
    type Regex = Hir;

    ghost relations = { λ _. of_regex };

    fn parse_literal(&self, alloc: Global, text: &str) -> Result<Hir, NoMemory> {
        let bytes = String::from_str(alloc, text)?.into_bytes();
        Ok(Hir::Literal(bytes))
    }

    fn parse_regex(&self, alloc: Global, text: &str) -> Result<Hir, RegexError> {
        hir_of(alloc, text)
    }

    fn build_dfa(
        &self,
        alloc: Global,
        _: &[Hir],
        _: &[Precedence],
    ) -> Result<Dfa, DfaConstructionError> {
        Ok(Dfa {
            code: Vec::new(alloc),
        })
    }
}

/// What `regex` reads in a pattern, with its default options. A pattern is compiled to learn whether it passes the size limit of
/// `regex`, which counts as a failed allocation; nothing is searched with it, so what it was compiled to is not kept.
fn hir_of(alloc: Global, pattern: &str) -> Result<Hir, RegexError>
    ensures { IfSome (pattern_answer result) (KeepsPattern of_regex pattern.now) }
{
    let Parsed { hir, names } = match regex_syntax::parse(alloc, pattern, &Config::default()) {
        Ok(parsed) => parsed,
        Err(error) => match error.kind {
            ErrorKind::OutOfMemory => return Err(RegexError::Memory),
            _ => return Err(RegexError::Refused {
                message: format!(in alloc;
                    "{}, at bytes {}..{} of the pattern",
                    error.kind.message(),
                    error.span.start,
                    error.span.end
                )?,
            }),
        },
    };
    let Ok(groups) = u32::try_from(names.len()) else {
        return Err(RegexError::Memory);
    };
    match regex_compile::compile(alloc, &hir, groups, SIZE_LIMIT) {
        Ok(_) => Ok(hir),
        Err(_) => Err(RegexError::Memory),
    }
}

/// By the relations of `CheckOnly` no text is both bad and read: where it gives a regex of a text, that text is a pattern.
pub fn no_bad_text_is_read()
    ensures { TellsApart of_regex }
{}

/// By the relations of `CheckOnly` no grammar is rejected that gets its tokens by them: none of F42 to F44 holds.
pub fn nothing_checked_is_refused()
    ensures { RefusesNoneChecked }
{}
