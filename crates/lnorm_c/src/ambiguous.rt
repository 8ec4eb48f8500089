//! Ambiguities of a grammar as it was written, over bytes.
ghost use Rattle.std.specs.Prelude.{◌≡◌, ◌≤◌, ◌<◌, ◌⊎◌, ℕ, List, []};
ghost use Rattle.lnorm_streams.specs.Streams.{memory_line};
ghost use Rattle.lnorm_buffers.specs.Buffers.{Takes};
ghost use Rattle.lexplain_run.specs.declared.words.Way.TheVariants.{Ambiguous};
ghost use Rattle.lnorm_c.specs.Calls.{AsksForNoTrees, IsShownAmbiguousFor, IsStoppedFor, words_line};

use crate::trees::translated;
use lexplain_run::words::Way;
use lnorm_buffers::answer::{LnormAnswer, told};
use std::alloc::Global;

/// What `lexplain ambiguous` does, over bytes: from two derivation trees of a lowered grammar to two trees of the grammar as it was
/// written, which show that it is ambiguous.
/// `words` and `grammar` are those of `lnorm_explain`; `lines` are the two derivation trees in lines of JSON, one behind the other.
/// The lines of the first written tree, those of the second and the line of the path to where they differ are put into `output`.
///
/// The exit status: 0 the output is the lines; 1 the grammar or a tree has a fault, or the trees show no ambiguity; 2 the arguments
/// are no options, the grammar is no tree of a grammar, or the lines are no two trees; 3 an allocation failed, or a pattern is past
/// the size limit of `regex`. With each but 0 there is no output, and `faults` has a line that says why.
///
/// The buffers are those of `lnorm_explain`.
#[unsafe(no_mangle)]
pub extern "C" fn lnorm_ambiguous(
    alloc: Global,
    words: &[u8],
    grammar: &[u8],
    lines: &[u8],
    output: &mut [u8],
    faults: &mut [u8],
) -> LnormAnswer
    // The output is the lines of two trees that show the grammar ambiguous, cut where the buffer ends.
    ensures done { result.status ≡ 0 → (text : List ℕ)
        × IsShownAmbiguousFor words.now grammar.now lines.now text
        × Takes output.old output.new text result.output_size
        × Takes faults.old faults.new [] result.faults_size }
    // Rejected: the line is that of a fault of the grammar that may be reported, or of the first that is wrong with the two trees.
    ensures fault { result.status ≡ 1 → (line : List ℕ)
        × IsStoppedFor Ambiguous words.now grammar.now lines.now 1 line
        × Takes faults.old faults.new line result.faults_size }
    // The arguments are rejected, or the bytes are the form of no tree, or the lines are those of no two: the line says which.
    ensures refused { result.status ≡ 2 → (line : List ℕ)
        × (AsksForNoTrees words.now × (line ≡ words_line) ⊎ IsStoppedFor Ambiguous words.now grammar.now lines.now 2 line)
        × Takes faults.old faults.new line result.faults_size }
    ensures memory { result.status ≡ 3 → Takes faults.old faults.new memory_line result.faults_size }
    ensures quiet { 0 < result.status → Takes output.old output.new [] result.output_size }
    ensures status { result.status ≤ 3 }
{
    let ended = translated(alloc, Way::Ambiguous, words, grammar, lines);
    told(&ended, output, faults)
}
