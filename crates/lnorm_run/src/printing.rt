//! What is printed of a lowered grammar.
ghost use Rattle.std.specs.Prelude.{◌≡◌, ◌++◌, Some, None, IfOk, IfErr, codes};
ghost use Rattle.lalrpop_norm_faults.specs.declared.failure.NormFailure.TheVariants.{Memory};
ghost use Rattle.lalrpop_norm_origins.specs.Origins.{origins_view};
ghost use Rattle.lalrpop_norm_repr.specs.Lowered.{LoweredGrammar};
ghost use Rattle.lalrpop_norm_shared_types.specs.Grammars.{shared_grammar_view};
ghost use Rattle.lalrpop_norm_lower.specs.RulesOf.{AreRulesOf};
ghost use Rattle.lnorm_streams.specs.declared.halt.Halt.TheVariants.{Failed};
ghost use Rattle.lnorm_run.specs.Answers.{printed_as};
ghost use Rattle.lnorm_run.specs.declared.printing.Form.TheVariants.{Lines, Json};

use crate::lines::{lines, traced_lines};
use lalrpop_norm::grammar::shared::SharedGrammar;
use lalrpop_norm::normalize::{LoweredRules, NormFailure, SharedTraced};
use lalrpop_norm_lowered_json::whole::shared_json;
use lnorm_streams::halt::{Halt, Program};
use std::alloc::{AllocError, Global};

/// Which text of a lowered grammar is printed.
#[derive(Clone, Copy, Debug, PartialEq, Eq)]
pub enum Form {
    /// Its productions, types and start symbols, as lines.
    Lines,
    /// The whole of it as JSON, in one line.
    Json,
}

/// What becomes of a lowered grammar once its text is made.
#[derive(Clone, Copy, Debug, PartialEq, Eq)]
pub enum Afterwards {
    /// It is dropped.
    LetGo,
    /// It stays in memory: the program ends, and to drop it would cost a walk over its parts.
    Left,
}

/// How a run prints.
#[derive(Clone, Copy, Debug, PartialEq, Eq)]
pub struct Printing {
    /// The program in the lines of errors.
    pub program: Program,
    /// The text of the lowered grammar.
    pub form: Form,
    /// What becomes of the lowered grammar.
    pub afterwards: Afterwards,
}

/// The lines of a lowered grammar, from its nonterminals, types and start symbols. The only error is a failed allocation.
pub(crate) fn lines_of(alloc: Global, rules: &LoweredRules) -> Result<Vec<u8>, Halt>
    ensures ok { (l : LoweredGrammar) → AreRulesOf l rules.now → IfOk result (λ text. text.items ≡ printed_as Lines None l) }
    ensures err { IfErr result (λ h. h ≡ Failed Memory) }
{
    made(lines_made(alloc, rules))
}

/// The JSON of a lowered grammar. The only error is a failed allocation.
pub(crate) fn json_of(alloc: Global, lowered: &SharedGrammar) -> Result<Vec<u8>, Halt>
    ensures ok { IfOk result (λ text. text.items ≡ printed_as Json None (shared_grammar_view lowered.now)) }
    ensures err { IfErr result (λ h. h ≡ Failed Memory) }
{
    made(json_made(alloc, lowered))
}

/// The text of a lowered grammar with its origins. The only error is a failed allocation.
pub(crate) fn traced_text_of(
    alloc: Global,
    form: Form,
    traced: &SharedTraced,
) -> Result<Vec<u8>, Halt>
    ensures ok { IfOk result (λ text. text.items
        ≡ printed_as form (Some (origins_view traced.now.origins.items)) (shared_grammar_view traced.now.grammar)) }
    ensures err { IfErr result (λ h. h ≡ Failed Memory) }
{
    made(traced_text_made(alloc, form, traced))
}

/// The text that was made.
fn made(text: Result<Vec<u8>, AllocError>) -> Result<Vec<u8>, Halt>
    ensures ok { IfOk result (λ made. text ≡ Ok made) }
    ensures err { IfErr result (λ h. h ≡ Failed Memory) }
{
    match text {
        Ok(text) => Ok(text),
        Err(_) => Err(Halt::Failed(NormFailure::Memory)),
    }
}

fn lines_made(alloc: Global, rules: &LoweredRules) -> Result<Vec<u8>, AllocError>
    ensures { (l : LoweredGrammar) → AreRulesOf l rules.now → IfOk result (λ text. text.items ≡ printed_as Lines None l) }
{
    Ok(lines(alloc, rules)?.into_bytes())
}

fn json_made(alloc: Global, lowered: &SharedGrammar) -> Result<Vec<u8>, AllocError>
    ensures { IfOk result (λ text. text.items ≡ printed_as Json None (shared_grammar_view lowered.now)) }
{
    as_line(shared_json(alloc, lowered, None)?)
}

fn traced_text_made(alloc: Global, form: Form, traced: &SharedTraced) -> Result<Vec<u8>, AllocError>
    ensures { IfOk result (λ text. text.items
        ≡ printed_as form (Some (origins_view traced.now.origins.items)) (shared_grammar_view traced.now.grammar)) }
{
    match form {
        Form::Lines => Ok(traced_lines(alloc, traced)?.into_bytes()),
        Form::Json => as_line(shared_json(
            alloc,
            &traced.grammar,
            Some(traced.origins.as_slice()),
        )?),
    }
}

/// A text with a line feed behind it.
fn as_line(text: Vec<u8>) -> Result<Vec<u8>, AllocError>
    ensures { IfOk result (λ line. line.items ≡ text.items ++ codes "\n") }
{
    let mut line = text;
    line.push(b'\n')?;
    Ok(line)
}
