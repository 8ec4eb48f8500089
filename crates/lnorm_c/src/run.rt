//! The engine of the program `lnorm`, over bytes.
ghost use Rattle.std.specs.Prelude.{◌≡◌, ◌≤◌, ◌<◌, ◌⊎◌, ℕ, List, []};
ghost use Rattle.lalrpop_norm_tree_names.specs.declared.names.Span.{Span};
ghost use Rattle.lalrpop_norm_faults.specs.declared.kind.FaultKind.{FaultKind};
ghost use Rattle.lnorm_streams.specs.Streams.{fault_line, usage_line, no_tree_line, memory_line};
ghost use Rattle.lnorm_buffers.specs.Buffers.{Takes};
ghost use Rattle.lnorm_c.specs.Calls.{AsksForNothing, IsRightFor, IsRefusedFor, IsNoTreeFor, IsFront};

use crate::ended::ended;
use lnorm_buffers::answer::{LnormAnswer, told};
use lnorm_run::printing::Form;
use std::alloc::Global;

/// What the program `lnorm` does, over bytes: from a tree in JSON to the lines of its lowered grammar, in `output`. `words` are
/// the arguments of the program, in one text, each ended by a zero byte; `input` is the tree.
///
/// The exit status: 0 the output is the lines; 1 the tree has a fault; 2 the arguments are no options, or the input is no tree; 3
/// an allocation failed, or a pattern is past the size limit of `regex`. With each but 0 there is no output, and the line of that
/// exit status is in `faults`.
///
/// Of each of the two texts the front is put into its buffer, as much as it takes; the answer has the size of the whole.
#[unsafe(no_mangle)]
pub extern "C" fn lnorm_run(
    alloc: Global,
    words: &[u8],
    input: &[u8],
    output: &mut [u8],
    faults: &mut [u8],
) -> LnormAnswer
    // The output is the right text, cut where the buffer ends.
    ensures done { result.status ≡ 0 → (text : List ℕ)
        × IsRightFor words.now input.now text
        × Takes output.old output.new text result.output_size
        × Takes faults.old faults.new [] result.faults_size }
    // Rejected: that is the first fault of the tree that the input is.
    ensures fault { result.status ≡ 1 → (fault : FaultKind) × (span : Span) × (message : List ℕ) × (line : List ℕ)
        × IsRefusedFor words.now input.now fault span
        × IsFront line (fault_line fault span message)
        × Takes faults.old faults.new line result.faults_size }
    // The arguments are rejected, or the input is no tree.
    ensures refused { result.status ≡ 2 → (line : List ℕ)
        × ((AsksForNothing words.now × IsFront line usage_line)
        ⊎ (IsNoTreeFor words.now input.now × IsFront line no_tree_line))
        × Takes faults.old faults.new line result.faults_size }
    ensures memory { result.status ≡ 3 → Takes faults.old faults.new memory_line result.faults_size }
    ensures quiet { 0 < result.status → Takes output.old output.new [] result.output_size }
    ensures status { result.status ≤ 3 }
{
    let ended = ended(alloc, Form::Lines, words, input);
    told(&ended, output, faults)
}
