//! The value of a condition on an alternative of a macro, such as `if E ~~ "^A"`: a comparison of two texts, or a search
//! for a pattern, as `regex` reads it, in a literal.
#![tactic(auto)]

ghost use Rattle.std.specs.Prelude.{◌≡◌, true, false, Some, IfOk, OnOk, OnErr, IsErrOf};
ghost use Rattle.lalrpop_norm_theory.specs.Symbols.{terminal, quoted};
ghost use Rattle.lalrpop_norm_conditions.specs.Patterns.{has_reading, is_found};
ghost use Rattle.lalrpop_norm_conditions.specs.Conditions.{condition_value, lacks_reading, asks_for_match};
ghost use Rattle.lalrpop_norm_conditions.specs.Laws.{OperatorsSay, ValuesAreOfLiterals, PatternsAreThoseOfRegex};

use lalrpop_norm_tree::grammar::parse_tree::ConditionOp;
use regex::Regex;
use regex_syntax::{Config, ErrorKind};
use std::alloc::{AllocError, Global};

/// Why a condition got no value.
#[derive(Clone, Copy, Debug, PartialEq, Eq)]
pub enum ConditionError {
    /// The pattern on the right is not well formed, may match a part of a character, or nests too deep.
    NoReading,
    /// An allocation failed, or the compiled pattern would pass the size limit of `regex`.
    Memory,
}

impl From<AllocError> for ConditionError {
    ghost use Rattle.lalrpop_norm_conditions.specs.declared.ConditionError.TheVariants.{Memory};

    ghost from_gives = { λ _ e. e ≡ Memory };

    fn from(_: AllocError) -> ConditionError {
        ConditionError::Memory
    }
}

/// The value of a condition with this operator, the quoted literal that its left operand is bound to, and the text on its right.
///
/// A comparison of texts does not fail. A search in which the pattern has no reading gives no value: it fails with
/// `NoReading`, which comes nowhere else, or with `Memory`. Any other search fails with `Memory` only.
pub fn holds(
    alloc: Global,
    op: &ConditionOp,
    literal: &str,
    right: &str,
) -> Result<bool, ConditionError>
    ensures value { IfOk result (λ v. condition_value op.now (terminal (quoted literal.now)) right.now ≡ Some v) }
    ensures read { OnOk result (lacks_reading op.now right.now ≡ false) }
    ensures no_reading { IsErrOf result ConditionError.NoReading → lacks_reading op.now right.now ≡ true }
    ensures compared { OnErr result (asks_for_match op.now ≡ true) }
{
    match op {
        ConditionOp::Equals => Ok(literal == right),
        ConditionOp::NotEquals => Ok(literal != right),
        ConditionOp::Match => finds(alloc, right, literal),
        ConditionOp::NotMatch => Ok(!finds(alloc, right, literal)?),
    }
}

/// Whether the pattern is found anywhere in the text.
fn finds(alloc: Global, pattern: &str, text: &str) -> Result<bool, ConditionError>
    ensures value { IfOk result (λ found. found ≡ is_found pattern.now text.now) }
    ensures read { OnOk result (has_reading pattern.now ≡ true) }
    ensures no_reading { IsErrOf result ConditionError.NoReading → has_reading pattern.now ≡ false }
{
    let regex = match Regex::new(alloc, pattern) {
        Ok(regex) => regex,
        Err(regex::Error::Syntax(_)) => return Err(ConditionError::NoReading),
        Err(_) => return Err(ConditionError::Memory),
    };
    let mut matcher = regex.matcher(alloc)?;
    Ok(matcher.is_match(text))
}

/// Why a pattern has no reading, in the words of `regex`, for messages.
pub fn reason(alloc: Global, pattern: &str) -> Result<String, AllocError> {
    match regex_syntax::parse(alloc, pattern, &Config::default()) {
        Ok(_) => format!(in alloc; "it has a reading"),
        Err(error) => match error.kind {
            ErrorKind::OutOfMemory => Err(AllocError),
            _ => format!(in alloc;
                "{}, at bytes {}..{} of the pattern",
                error.kind.message(),
                error.span.start,
                error.span.end
            ),
        },
    }
}

/// Operators compare texts, or say whether a pattern matches somewhere in a literal. A condition has a value if and only if its
/// left operand is bound to a quoted literal.
pub fn conditions_say()
    ensures operators { OperatorsSay }
    ensures values { ValuesAreOfLiterals }
{}

/// Patterns have the readings that `regex` gives them, and are found where a search by what it read finds something.
pub fn patterns_are_those_of_regex()
    ensures { PatternsAreThoseOfRegex }
{}
