//! Whole lowered grammars as JSON, over bytes.
ghost use Rattle.std.specs.Prelude.{◌≡◌, ◌≤◌, ◌<◌, ◌⊎◌, ℕ, List, []};
ghost use Rattle.lalrpop_norm_tree_names.specs.declared.names.Span.{Span};
ghost use Rattle.lalrpop_norm_faults.specs.declared.kind.FaultKind.{FaultKind};
ghost use Rattle.lnorm_streams.specs.Streams.{fault_line, usage_line, no_tree_line, memory_line};
ghost use Rattle.lnorm_buffers.specs.Buffers.{Takes};
ghost use Rattle.lnorm_c.specs.Calls.{AsksForNothing, IsWholeFor, IsRefusedFor, IsNoTreeFor, IsFront};

use crate::ended::ended;
use lnorm_buffers::answer::{LnormAnswer, told};
use lnorm_run::printing::Form;
use std::alloc::Global;

/// What `lexplain grammar` does, over bytes: from a tree in JSON to the whole lowered grammar as JSON, in `output`, one line with a
/// line feed behind it. `words` and `input` are those of `lnorm_run`; with `--origins` the origins of the actions are listed.
///
/// The exit status, the line of faults and the buffers are those of `lnorm_run`.
#[unsafe(no_mangle)]
pub extern "C" fn lnorm_whole(
    alloc: Global,
    words: &[u8],
    input: &[u8],
    output: &mut [u8],
    faults: &mut [u8],
) -> LnormAnswer
    // The output is the JSON of the whole lowered grammar, cut where the buffer ends.
    ensures done { result.status ≡ 0 → (text : List ℕ)
        × IsWholeFor words.now input.now text
        × Takes output.old output.new text result.output_size
        × Takes faults.old faults.new [] result.faults_size }
    // Rejected: that is the first fault of the tree that the input is.
    ensures fault { result.status ≡ 1 → (fault : FaultKind) × (span : Span) × (message : List ℕ) × (line : List ℕ)
        × IsRefusedFor words.now input.now fault span
        × IsFront line (fault_line fault span message)
        × Takes faults.old faults.new line result.faults_size }
    // The arguments are rejected, or the input is no tree.
    ensures refused { result.status ≡ 2 → (line : List ℕ)
        × ((AsksForNothing words.now × IsFront line usage_line)
        ⊎ (IsNoTreeFor words.now input.now × IsFront line no_tree_line))
        × Takes faults.old faults.new line result.faults_size }
    ensures memory { result.status ≡ 3 → Takes faults.old faults.new memory_line result.faults_size }
    ensures quiet { 0 < result.status → Takes output.old output.new [] result.output_size }
    ensures status { result.status ≤ 3 }
{
    let ended = ended(alloc, Form::Json, words, input);
    told(&ended, output, faults)
}
