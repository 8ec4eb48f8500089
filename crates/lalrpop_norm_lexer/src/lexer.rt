//! The trait of lexers, what they answer, and a lexer that reads patterns and builds nothing.
mod answers;
mod check_only;

pub use answers::{DfaConstructionError, NfaConstructionError, Precedence, RegexError};
pub use check_only::{CheckOnly, no_bad_text_is_read, nothing_checked_is_refused};
use lalrpop_norm_tree::grammar::parse_tree::{Dfa, NoMemory};
use std::alloc::Global;

/// What reads the texts of literals and builds the automaton of a tokenizer.
///
/// It names five relations of its own, and keeps to them: it answers only regexes of the text handed in, rejects a text
/// only where it is bad, and refuses to build only where its reason holds. An allocation may fail at any call.
pub trait Lexer {
    ghost use Rattle.std.specs.Prelude.{◌≡◌, IfSome, length};
    ghost use Rattle.lalrpop_norm_model.specs.Lexers.{Lexer as Relations, KeepsLiteral, KeepsPattern, KeepsBuilding};
    ghost use Rattle.lalrpop_norm_lexer.specs.Answers.{literal_answer, pattern_answer, building_answer, numbers};

    /// A regex, as the lexer reads it.
    type Regex: Drop;

    ghost relations: { Self → Relations Self.Regex };

    /// A regex of the text as it is.
    fn parse_literal(&self, alloc: Global, text: &str) -> Result<Self::Regex, NoMemory>
        ensures { IfSome (literal_answer result) (KeepsLiteral (relations self.now) text.now) };

    /// A regex of the pattern in the text.
    fn parse_regex(&self, alloc: Global, text: &str) -> Result<Self::Regex, RegexError>
        ensures { IfSome (pattern_answer result) (KeepsPattern (relations self.now) text.now) };

    /// The automaton of the regexes with these precedences, both in one order.
    fn build_dfa(
        &self,
        alloc: Global,
        regexes: &[Self::Regex],
        precedences: &[Precedence],
    ) -> Result<Dfa, DfaConstructionError>
        requires { length regexes.now ≡ length precedences.now }
        ensures { IfSome (building_answer result)
            (KeepsBuilding (relations self.now) regexes.now (numbers precedences.now)) };
}
