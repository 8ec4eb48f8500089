//! Two derivation trees that show a grammar ambiguous, as it was written.
ghost use Rattle.std.specs.Prelude.{◌≡◌, ◌++◌, IfOk, IfErr, OnOk, string_bytes};
ghost use Rattle.lalrpop_norm_tree.specs.Items.{grammar_view};
ghost use Rattle.lalrpop_norm_common.specs.Sessions.{features_view};
ghost use Rattle.lalrpop_norm_explain.specs.Trees.{lowered_view, written_view};
ghost use Rattle.lexplain_run.specs.Answers.{ShowsAmbiguity};
ghost use Rattle.lexplain_run.specs.Refusals.{StopsShowing};
ghost use Rattle.lexplain_run.specs.Witnesses.{difference_line, more_text, numbers_text, readings_text};
ghost use Rattle.lexplain_run.specs.Words.{settings_in};

use crate::answer::Stop;
use lalrpop_norm::explain::LoweredTree;
use lalrpop_norm::lexer::CheckOnly;
use lalrpop_norm::normalize::{Session, normalize_traced};
use lalrpop_norm_ambiguity::{TwoReadings, ambiguity};
use lalrpop_norm_tree::grammar::parse_tree::Grammar;
use lexplain_lines::lines::written_lines;
use std::alloc::{AllocError, Global};

/// The lines of the two written trees that correspond to these derivation trees of the lowered grammar, and a line with the path
/// to where they differ: they are two different trees of one rule with one yield, so the grammar is ambiguous, as it was written.
///
/// Errors: `Failed` with the first fault of the grammar, or F42 at a pattern without a reading by `regex`; `Trees` with the first of
/// what is wrong with the trees, if they show no ambiguity; a failed allocation.
pub fn ambiguous(
    alloc: Global,
    session: &Session<CheckOnly>,
    grammar: Grammar,
    first: &LoweredTree,
    second: &LoweredTree,
) -> Result<String, Stop>
    ensures ok { IfOk result (λ text. ShowsAmbiguity (features_view session.now.features) (grammar_view grammar)
        (lowered_view first.now) (lowered_view second.now) (string_bytes text)) }
    ensures err { IfErr result (StopsShowing (settings_in session.now) (grammar_view grammar)
        (lowered_view first.now) (lowered_view second.now)) }
{
    let traced = normalize_traced(alloc, session, grammar)?;
    let readings = ambiguity(alloc, &traced, first, second)?;
    Ok(readings_lines(alloc, &readings)?)
}

/// The lines of both trees, and that of the path.
fn readings_lines(alloc: Global, readings: &TwoReadings) -> Result<String, AllocError>
    ensures { IfOk result (λ text. string_bytes text
        ≡ readings_text (written_view readings.now.first) (written_view readings.now.second) readings.now.path.items) }
{
    let mut text = written_lines(alloc, &readings.first)?;
    let second = written_lines(alloc, &readings.second)?;
    text.push_str(second.as_str())?;
    push_difference(&mut text, &readings.path)?;
    Ok(text)
}

/// The line of a path.
fn push_difference(text: &mut String, path: &[usize]) -> Result<(), AllocError>
    ensures { OnOk result (string_bytes text.new ≡ string_bytes text.old ++ difference_line path.now) }
{
    text.push_str("{\"Differ\":[")?;
    push_numbers(text, path)?;
    text.push_str("]}\n")
}

/// Numbers, a comma between each two.
fn push_numbers(text: &mut String, numbers: &[usize]) -> Result<(), AllocError>
    ensures { OnOk result (string_bytes text.new ≡ string_bytes text.old ++ numbers_text numbers.now) }
{
    match numbers {
        [] => Ok(()),
        [number, more @ ..] => {
            write!(text, "{number}")?;
            push_more(text, more)
        }
    }
}

/// Numbers, each behind a comma.
#[tactic(auto, using(crate::proofs::StopLemmas::step_more))]
fn push_more(text: &mut String, numbers: &[usize]) -> Result<(), AllocError>
    ensures { OnOk result (string_bytes text.new ≡ string_bytes text.old ++ more_text numbers.now) }
{
    for number in numbers {
        write!(text, ",{number}")?;
    }
    Ok(())
}
