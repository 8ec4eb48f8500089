//! From a derivation tree of a lowered grammar to the tree as it was written, over bytes.
ghost use Rattle.std.specs.Prelude.{◌≡◌, ◌≤◌, ◌<◌, ◌⊎◌, ℕ, List, []};
ghost use Rattle.lnorm_streams.specs.Streams.{memory_line};
ghost use Rattle.lnorm_buffers.specs.Buffers.{Takes};
ghost use Rattle.lexplain_run.specs.declared.words.Way.TheVariants.{Explain};
ghost use Rattle.lnorm_c.specs.Calls.{AsksForNoTrees, IsExplainedFor, IsStoppedFor, words_line};

use crate::trees::translated;
use lexplain_run::words::Way;
use lnorm_buffers::answer::{LnormAnswer, told};
use std::alloc::Global;

/// What `lexplain explain` does, over bytes: from a derivation tree of a lowered grammar to the tree of the grammar as it was
/// written.
/// `words` are options of `lnorm` but `--origins`, in one text, each ended by a zero byte; `grammar` is a tree in JSON, and
/// `lines` the derivation tree in lines of JSON. The lines of the other tree are put into `output`.
///
/// The exit status: 0 the output is the lines; 1 the grammar or the tree has a fault; 2 the arguments are no options, the grammar
/// is no tree of a grammar, or the lines are no tree; 3 an allocation failed, or a pattern is past the size limit of `regex`. With
/// each but 0 there is no output, and `faults` has a line that says why.
///
/// Of each of the two texts the front is put into its buffer, as much as it takes; the answer has the size of the whole.
#[unsafe(no_mangle)]
pub extern "C" fn lnorm_explain(
    alloc: Global,
    words: &[u8],
    grammar: &[u8],
    lines: &[u8],
    output: &mut [u8],
    faults: &mut [u8],
) -> LnormAnswer
    // The output is the lines of the tree corresponding to the argument, cut where the buffer ends.
    ensures done { result.status ≡ 0 → (text : List ℕ)
        × IsExplainedFor words.now grammar.now lines.now text
        × Takes output.old output.new text result.output_size
        × Takes faults.old faults.new [] result.faults_size }
    // Rejected: the line is that of a fault of the grammar that may be reported, or of the first fault of the tree in it.
    ensures fault { result.status ≡ 1 → (line : List ℕ)
        × IsStoppedFor Explain words.now grammar.now lines.now 1 line
        × Takes faults.old faults.new line result.faults_size }
    // The arguments are rejected, or the bytes are the form of no tree, or the lines are those of none: the line says which.
    ensures refused { result.status ≡ 2 → (line : List ℕ)
        × (AsksForNoTrees words.now × (line ≡ words_line) ⊎ IsStoppedFor Explain words.now grammar.now lines.now 2 line)
        × Takes faults.old faults.new line result.faults_size }
    ensures memory { result.status ≡ 3 → Takes faults.old faults.new memory_line result.faults_size }
    ensures quiet { 0 < result.status → Takes output.old output.new [] result.output_size }
    ensures status { result.status ≤ 3 }
{
    let ended = translated(alloc, Way::Explain, words, grammar, lines);
    told(&ended, output, faults)
}
