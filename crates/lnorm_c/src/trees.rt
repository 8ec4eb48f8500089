//! What the calls over derivation trees share: what they come to, by either way.
ghost use Rattle.std.specs.Prelude.{◌≡◌, ◌<◌, ◌⊎◌, ◌-◌, [], Some, false, length, map, slice_get, string_bytes, IfOk, IsErrOf, IsTrue};
ghost use Rattle.lnorm_run.specs.Settings.{Settings, settings_of};
ghost use Rattle.lnorm_run.specs.declared.words.WordsError.TheVariants.{Usage};
ghost use Rattle.lexplain_run.specs.Stops.{stop_status, stop_line};
ghost use Rattle.lexplain_run.specs.Words.{settings_asked};
ghost use Rattle.lexplain_run.specs.declared.words.Way.{Way};
ghost use Rattle.lnorm_c.specs.Calls.{AsksForNoTrees, AsksForTrees, IsStoppedFor, IsTranslatedFor, words_line};

use crate::words::words_in;
use lexplain_run::answer::Stop;
use lexplain_run::report::report_stop;
use lexplain_run::run::answer_bytes;
use lexplain_run::words::{Asked, Way};
use lnorm_buffers::answer::{Ended, without_memory};
use lnorm_run::words::{WordsError, asked_by};
use std::alloc::Global;

/// What the call comes to that takes trees this way.
pub(crate) fn translated(
    alloc: Global,
    way: Way,
    words: &[u8],
    grammar: &[u8],
    lines: &[u8],
) -> Ended
    ensures done { result.status ≡ 0 → IsTranslatedFor way words.now grammar.now lines.now result.output.items
        × (result.faults.items ≡ []) }
    ensures fault { result.status ≡ 1 → IsStoppedFor way words.now grammar.now lines.now 1 result.faults.items }
    ensures refused { result.status ≡ 2 → AsksForNoTrees words.now × (result.faults.items ≡ words_line)
        ⊎ IsStoppedFor way words.now grammar.now lines.now 2 result.faults.items }
    ensures quiet { 0 < result.status → result.output.items ≡ [] }
{
    match asked_in(alloc, way, words) {
        Ok(asked) => match answer_bytes(alloc, &asked, grammar, lines) {
            Ok(text) => Ended {
                status: 0,
                output: text.into_bytes(),
                faults: Vec::new(alloc),
            },
            Err(stop) => stopped(alloc, stop),
        },
        Err(WordsError::Usage) => refused_words(alloc),
        Err(WordsError::Memory) => without_memory(alloc),
    }
}

/// What the arguments in a text ask for. Errors: `Usage` where they ask for nothing, or for origins, and only there; `Memory`.
fn asked_in(alloc: Global, way: Way, words: &[u8]) -> Result<Asked, WordsError>
    ensures ok { IfOk result (λ asked. (asked.way ≡ way) × AsksForTrees words.now (settings_asked asked)) }
    ensures usage { IsErrOf result Usage → AsksForNoTrees words.now }
{
    match words_in(alloc, words) {
        Ok(words) => asked_with(alloc, way, &words),
        Err(error) => Err(error),
    }
}

/// What arguments ask for. Errors: those of [`asked_in`].
fn asked_with(alloc: Global, way: Way, words: &[String]) -> Result<Asked, WordsError>
    ensures ok { IfOk result (λ asked. (asked.way ≡ way) × (settings_of (map string_bytes words.now) ≡ Some (settings_asked asked))) }
    ensures usage { IsErrOf result Usage → (s : Settings) → settings_of (map string_bytes words.now) ≡ Some s → s.origins ≡ false → ⊥ }
{
    match asked_by(alloc, words) {
        Ok(asked) => {
            if asked.origins {
                return Err(WordsError::Usage);
            }
            let session = asked.session;
            Ok(Asked { way, session })
        }
        Err(error) => Err(error),
    }
}

/// What a stop comes to: its exit status and its line. If an allocation fails for the line, out of memory.
#[tactic(auto, using(lexplain_run::proofs::LineEnds::whole_line, lexplain_run::proofs::RunLemmas::between))]
fn stopped(alloc: Global, stop: Stop) -> Ended
    ensures told { result.status < 3 → (result.status ≡ stop_status stop) × (result.faults.items ≡ stop_line stop) }
    ensures status { 0 < result.status }
    ensures quiet { result.output.items ≡ [] }
{
    let mut faults = Vec::new(alloc);
    let status = report_stop(stop, &mut faults);
    if is_ended(&faults) {
        Ended {
            status,
            output: Vec::new(alloc),
            faults,
        }
    } else {
        without_memory(alloc)
    }
}

/// Whether a line has its end: it has none if it was cut.
fn is_ended(line: &[u8]) -> bool
    ensures { IsTrue result → slice_get line.now (length line.now - 1) ≡ Some 10 }
{
    match line.last() {
        Some(b'\n') => true,
        _ => false,
    }
}

/// What a call comes to whose arguments ask for nothing. If an allocation fails for the line, out of memory.
fn refused_words(alloc: Global) -> Ended
    ensures told { result.status < 3 → (result.status ≡ 2) × (result.faults.items ≡ words_line) }
    ensures status { 0 < result.status }
    ensures quiet { result.output.items ≡ [] }
{
    let mut faults = Vec::new(alloc);
    match faults.extend_from_slice(usage().as_bytes()) {
        Ok(()) => Ended {
            status: 2,
            output: Vec::new(alloc),
            faults,
        },
        Err(_) => without_memory(alloc),
    }
}

#[tactic(auto, unfolding(crate::specs::Calls::words_line))]
fn usage() -> &'static str
    ensures { result.now ≡ words_line }
{
    "lexplain: words: [--limit N] [--feature F]...\n"
}
