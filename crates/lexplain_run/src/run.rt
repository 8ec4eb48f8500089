//! The engine of the program, over streams.
ghost use Rattle.std.specs.Prelude.{◌≡◌, ◌≤◌, ◌<◌, ◌⊎◌, ℕ, List, IfOk, IfErr, IsErrOf, IsUtf8, string_bytes};
ghost use Rattle.std.specs.Io.KnownBytes.{Keeps};
ghost use Rattle.lalrpop_norm_faults.specs.declared.failure.NormFailure.TheVariants.{Memory};
ghost use Rattle.lalrpop_norm_common.specs.Sessions.{features_view};
ghost use Rattle.lnorm_run.specs.Settings.{Settings};
ghost use Rattle.lnorm_streams.specs.Sources.{FailedSince};
ghost use Rattle.lnorm_streams.specs.Ends.{EndsAtStream, EndsWell};
ghost use Rattle.lnorm_streams.specs.Streams.{WritesFront, lexplain_memory_line, lexplain_stream_line};
ghost use Rattle.lexplain_run.specs.Answers.{IsTranslationOver};
ghost use Rattle.lexplain_run.specs.Runs.{EndsAtStop, EndsWithoutTrees, FailsAt, IsTranslated, StopsOverBytes};
ghost use Rattle.lexplain_run.specs.Stops.{stop_status};
ghost use Rattle.lexplain_run.specs.Words.{settings_asked};
ghost use Rattle.lexplain_run.specs.declared.words.Way.{Way};
ghost use Rattle.lexplain_run.specs.declared.answer.Stop.{Stop};
ghost use Rattle.lexplain_run.specs.declared.answer.Stop.TheVariants.{Failed};
ghost use Rattle.lexplain_run.specs.declared.run.Failure.TheVariants.{Input, Stopped};

use crate::answer::{Stop, answer, grammar_in};
use crate::report::report_stop;
use crate::words::Asked;
use lalrpop_norm::normalize::NormFailure;
use lnorm_streams::halt::{Halt, Program, report};
use lnorm_streams::source::Source;
use lnorm_streams::streams::{ReadFailure, read_whole, write_whole};
use std::alloc::Global;
use std::io::Write;

/// Why a run ends without a text.
#[derive(Drop)]
pub enum Failure {
    /// A read failed.
    Input,
    /// There is no text for what was read, or an allocation failed.
    Stopped(Stop),
}

/// Reads a tree of a grammar from `grammar` and the lines of a derivation or written tree, or of two, from `lines`, which are any
/// readers, and writes the lines that are asked for to `output`.
///
/// The answer is the exit status: 0 all lines were written; 1 the grammar or a tree has a fault, or two trees show no ambiguity;
/// 2 one of the two inputs is no tree; 3 an allocation failed, or a pattern is past the size limit of `regex`; 4 a read or a write
/// failed. With each but 0 the line of that status, or a beginning of it, goes to `faults`.
pub fn translate<G: Source, L: Source, W: Write, E: Write>(
    alloc: Global,
    asked: &Asked,
    grammar: &mut G,
    lines: &mut L,
    output: &mut W,
    faults: &mut E,
) -> u8
    // Well ended: both inputs were read whole, and the whole right text was written.
    ensures done { result ≡ 0 → EndsWell
        (IsTranslated asked.now (G.remaining grammar.old) (G.remaining grammar.new) (L.remaining lines.old) (L.remaining lines.new))
        (W.contents output.old) (W.contents output.new) (E.contents faults.old) (E.contents faults.new) }
    // Rejected: the stop says a fault of the grammar that may be reported, the first fault of the tree, or what is wrong with the two.
    ensures fault { result ≡ 1 → (stop : Stop) × (stop_status stop ≡ 1) × EndsAtStop asked.now (G.remaining grammar.old)
        (G.remaining grammar.new) (L.remaining lines.old) (L.remaining lines.new) (E.contents faults.old) (E.contents faults.new) stop }
    // The bytes of the grammar are the form of none, or those of the lines are no tree's.
    ensures refused { result ≡ 2 → EndsWithoutTrees asked.now (G.remaining grammar.old) (G.remaining grammar.new)
        (L.remaining lines.old) (L.remaining lines.new) (E.contents faults.old) (E.contents faults.new) }
    ensures memory { result ≡ 3 → WritesFront (E.contents faults.old) (E.contents faults.new) lexplain_memory_line }
    // A stream failed: nothing was written, or a beginning of the right text.
    ensures stream { result ≡ 4 → EndsAtStream
        (IsTranslated asked.now (G.remaining grammar.old) (G.remaining grammar.new) (L.remaining lines.old) (L.remaining lines.new))
        lexplain_stream_line (W.contents output.old) (W.contents output.new) (E.contents faults.old) (E.contents faults.new) }
    // A read of either input failed: that is reported, and nothing was written.
    ensures failed_read { FailedSince (G.has_failed grammar.old) (G.has_failed grammar.new)
        ⊎ FailedSince (L.has_failed lines.old) (L.has_failed lines.new) →
        (result ≡ 4) × Keeps (W.contents output.old) (W.contents output.new) }
    ensures quiet { 0 < result → result < 4 → Keeps (W.contents output.old) (W.contents output.new) }
    ensures status { result ≤ 4 }
{
    match translation(alloc, asked, grammar, lines) {
        Ok(text) => {
            if write_whole(output, text.as_bytes()) {
                0
            } else {
                report(Program::Lexplain, Halt::Output, faults)
            }
        }
        Err(Failure::Input) => report(Program::Lexplain, Halt::Input, faults),
        Err(Failure::Stopped(stop)) => report_stop(stop, faults),
    }
}

/// Reads both inputs, and makes the whole text.
fn translation<G: Source, L: Source>(
    alloc: Global,
    asked: &Asked,
    grammar: &mut G,
    lines: &mut L,
) -> Result<String, Failure>
    ensures ok { IfOk result (λ text. IsTranslated asked.now (G.remaining grammar.old) (G.remaining grammar.new)
        (L.remaining lines.old) (L.remaining lines.new) (string_bytes text)) }
    ensures err { IfErr result (FailsAt asked.now (G.remaining grammar.old) (G.remaining grammar.new)
        (L.remaining lines.old) (L.remaining lines.new)) }
    ensures failed_read { FailedSince (G.has_failed grammar.old) (G.has_failed grammar.new)
        ⊎ FailedSince (L.has_failed lines.old) (L.has_failed lines.new) → IsErrOf result Input }
{
    let bytes = match read_whole(alloc, grammar) {
        Ok(bytes) => bytes,
        Err(ReadFailure::Input) => return Err(Failure::Input),
        Err(ReadFailure::Memory) => return Err(without_memory()),
    };
    let lines = match read_whole(alloc, lines) {
        Ok(lines) => lines,
        Err(ReadFailure::Input) => return Err(Failure::Input),
        Err(ReadFailure::Memory) => return Err(without_memory()),
    };
    match answer_bytes(alloc, asked, &bytes, &lines) {
        Ok(text) => Ok(text),
        Err(stop) => Err(Failure::Stopped(stop)),
    }
}

/// That an allocation failed.
fn without_memory() -> Failure
    ensures { result ≡ Stopped (Failed Memory) }
{
    Failure::Stopped(Stop::Failed(NormFailure::Memory))
}

/// The text for the bytes of a grammar and those of lines. Errors: those of [`answer`]; bytes that are not UTF-8 are the form of no
/// grammar, and the lines of no tree.
pub fn answer_bytes(
    alloc: Global,
    asked: &Asked,
    grammar: &[u8],
    lines: &[u8],
) -> Result<String, Stop>
    ensures ok { IfOk result (λ text. IsUtf8 lines.now
        × IsTranslationOver asked.now.way (features_view asked.now.session.features) grammar.now lines.now (string_bytes text)) }
    ensures err { IfErr result (StopsOverBytes asked.now.way (settings_asked asked.now) grammar.now lines.now) }
{
    let Ok(grammar) = str::from_utf8(grammar) else {
        return Err(Stop::NotAGrammar);
    };
    match str::from_utf8(lines) {
        Ok(lines) => answer(alloc, asked, grammar, lines),
        Err(_) => Err(without_lines(alloc, grammar)),
    }
}

/// Why there is no answer if the lines are not UTF-8: the grammar is read first, as if they were.
#[tactic(auto, using(crate::proofs::RunLemmas::none_of_bytes))]
fn without_lines(alloc: Global, grammar: &str) -> Stop
    ensures { (way : Way) (s : Settings) (lines : List ℕ) → (IsUtf8 lines → ⊥) → StopsOverBytes way s grammar.now lines result }
{
    match grammar_in(alloc, grammar) {
        Ok(_) => Stop::NotATree,
        Err(stop) => stop,
    }
}
