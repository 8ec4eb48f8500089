//! Whether an alternative of a macro belongs to the rule of a call.
ghost use Rattle.std.specs.Prelude.{◌≡◌, Some, option_map};
ghost use Rattle.lalrpop_norm_tree.specs.Symbols.{terminal, parts_view};
ghost use Rattle.lalrpop_norm_faults.specs.Faults.{RefusesOr, fault_if};
ghost use Rattle.lalrpop_norm_faults.specs.declared.kind.FaultKind.TheVariants.{ConditionPattern};
ghost use Rattle.lalrpop_norm_conditions.specs.Conditions.{comparison, lacks_reading};
ghost use Rattle.lalrpop_norm_model.specs.Grammars.{is_true};
ghost use Rattle.lalrpop_norm_model.specs.Reading.{read_all};
ghost use Rattle.lalrpop_norm_model.specs.MadeRules.{flat_reader};
ghost use Rattle.lalrpop_norm_macro_expand_rules.specs.Bound.{argument_in, AreByNumber};
ghost use Rattle.lalrpop_norm_macro_expand_rules.specs.Conditions.{quoted_text, value_faults};

use crate::shortened::{shortened, shortened_symbol};
use crate::substituted::{Bindings, bound_to, symbol_bound};
use lalrpop_norm_conditions::{ConditionError, holds, reason};
use lalrpop_norm_faults::{FaultKind, NormFailure, NormResult, refusal};
use lalrpop_norm_tree::grammar::parse_tree::{
    Atom, Condition, GrammarSymbol, NonterminalString, TerminalLiteral, TerminalString,
};
use std::alloc::{AllocError, Global};

fn quoted(token: &TerminalString) -> Option<&Atom>
    ensures { option_map (λ t. t.now) result ≡ quoted_text (Some (terminal token.now)) }
{
    match token {
        TerminalString::Literal(TerminalLiteral::Quoted(text)) => Some(text),
        TerminalString::Literal(TerminalLiteral::Regex(_))
        | TerminalString::Bare(_)
        | TerminalString::Error => None,
    }
}

/// The text of the quoted literal that a name is bound to.
#[tactic(auto, using(crate::proofs::ConditionLemmas::no_text))]
fn literal_bound<'a>(bindings: &Bindings<'a>, name: &NonterminalString) -> Option<&'a Atom>
    requires numbers { AreByNumber bindings.now }
    ensures { option_map (λ t. t.now) result ≡ quoted_text (argument_in bindings.now name.now.0) }
{
    match bound_to(bindings, name)?.as_grammar_symbol() {
        Some(GrammarSymbol::Terminal(token)) => quoted(token),
        Some(GrammarSymbol::Nonterminal(_)) => None,
        Some(GrammarSymbol::Error) => None,
        None => None,
    }
}

fn pattern_message(alloc: Global, pattern: &str) -> Result<String, AllocError> {
    let reason = reason(alloc, pattern)?;
    format!(in alloc;
        "`{pattern}` can't be read as a regular expression ({reason}): correct the pattern of this condition"
    )
}

/// What a condition says of a literal.
///
/// Errors: F34 (`ConditionPattern`) if a pattern is asked for and has no reading; `Memory`.
fn says(alloc: Global, condition: &Condition, literal: &Atom) -> NormResult<bool>
    ensures { RefusesOr result (fault_if (lacks_reading condition.now.op condition.now.rhs) (ConditionPattern, condition.now.span))
        (λ b. b ≡ comparison condition.now.op literal.now condition.now.rhs) }
{
    let pattern = condition.rhs.as_str();
    match holds(alloc, &condition.op, literal.as_str(), pattern) {
        Ok(value) => Ok(value),
        Err(ConditionError::NoReading) => Err(refusal(
            FaultKind::ConditionPattern,
            condition.span,
            pattern_message(alloc, pattern),
        )),
        Err(ConditionError::Memory) => Err(NormFailure::Memory),
    }
}

fn argument_message(
    alloc: Global,
    bindings: &Bindings,
    call: &Atom,
    name: &NonterminalString,
) -> Result<String, AllocError> {
    let call = shortened(alloc, call.as_str())?;
    let Some(symbol) = symbol_bound(bindings, name) else {
        return format!(in alloc;
            "in `{call}` this condition tests `{name}`, which is no argument: name an argument of the macro"
        );
    };
    let symbol = shortened_symbol(alloc, symbol)?;
    format!(in alloc;
        "in `{call}` this condition tests `{symbol}`, which is no quoted literal: call the macro with a quoted literal for `{name}`"
    )
}

/// Whether an alternative's condition is true or absent, in the macro call of that text.
///
/// Errors: F33 (`ConditionArgument`) if its left operand is bound to no quoted literal; F34 (`ConditionPattern`); `Memory`.
pub fn is_kept(
    alloc: Global,
    bindings: &Bindings,
    call: &Atom,
    condition: &Option<Condition>,
) -> NormResult<bool>
    requires numbers { AreByNumber bindings.now }
    ensures { RefusesOr result (value_faults (argument_in bindings.now) condition.now)
        (λ b. b ≡ is_true comparison bindings.now.names.now (read_all flat_reader (parts_view bindings.now.symbols.now)) condition.now) }
{
    let Some(condition) = condition else {
        return Ok(true);
    };
    match literal_bound(bindings, &condition.lhs) {
        Some(literal) => says(alloc, condition, literal),
        None => Err(refusal(
            FaultKind::ConditionArgument,
            condition.span,
            argument_message(alloc, bindings, call, &condition.lhs),
        )),
    }
}
