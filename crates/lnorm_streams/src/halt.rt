//! Why a run ends without its text, and its exit status and line.
ghost use Rattle.std.specs.IoError.{error_kind};
ghost use Rattle.std.specs.Io.KnownBytes.{Appends};
ghost use Rattle.std.specs.Prelude.{◌≡◌, ◌≢◌, ◌++◌, IsTrue, codes, decimal, string_bytes};
ghost use Rattle.lnorm_streams.specs.Streams.{WritesFront, fault_line, one_line, span_text};
ghost use Rattle.lnorm_streams.specs.Streams.{usage_line_of, no_tree_line_of, memory_line_of, stream_line_of};
ghost use Rattle.lnorm_streams.specs.Told.{status_of, LineOf};

use crate::message::write_message;
use crate::streams::{write_both, write_whole};
use itoa::Buffer;
use lalrpop_norm_faults::{NormError, NormFailure};
use lalrpop_norm_tree_names::names::Span;
use std::io::{self, ErrorKind, Write};

/// The program that runs: its name stands in front of the lines that are no fault's.
#[derive(Clone, Copy, Debug, PartialEq, Eq)]
pub enum Program {
    /// `lnorm`, and its library.
    Lnorm,
    /// `lexplain`.
    Lexplain,
}

/// Why a run ends without its text.
#[derive(Debug, Drop)]
pub enum Halt {
    /// The arguments are not options.
    Usage,
    /// The input is no tree.
    NotATree,
    /// The tree has a fault, or an allocation failed.
    Failed(NormFailure),
    /// A read failed.
    Input,
    /// A write failed.
    Output,
}

/// The halt of a call whose arguments can't be read: one that is not UTF-8 is not an option; the other errors are failed
/// allocations.
pub fn halt_of_words(error: &io::Error) -> Halt
    ensures text { error_kind error.now ≡ ErrorKind.InvalidData → result ≡ Halt.Usage }
    ensures other { error_kind error.now ≢ ErrorKind.InvalidData → result ≡ Halt.Failed NormFailure.Memory }
{
    match error.kind() {
        ErrorKind::InvalidData => Halt::Usage,
        _ => Halt::Failed(NormFailure::Memory),
    }
}

/// Writes the line of a halt of that program, or a beginning of it, and answers its exit status. It allocates nothing.
pub fn report<E: Write>(program: Program, halt: Halt, faults: &mut E) -> u8
    ensures status { result ≡ status_of halt }
    ensures line { LineOf program halt (E.contents faults.old) (E.contents faults.new) }
{
    match halt {
        Halt::Failed(NormFailure::Refused(error)) => {
            say_fault(faults, &error);
            1
        }
        Halt::NotATree => {
            say(faults, not_a_tree(program));
            2
        }
        Halt::Usage => {
            say(faults, usage(program));
            2
        }
        Halt::Failed(NormFailure::Memory) => {
            say(faults, no_memory(program));
            3
        }
        Halt::Input => {
            say(faults, stream_failed(program));
            4
        }
        Halt::Output => {
            say(faults, stream_failed(program));
            4
        }
    }
}

/// Writes a text, or a beginning of it.
fn say<E: Write>(faults: &mut E, text: &str)
    ensures { WritesFront (E.contents faults.old) (E.contents faults.new) text.now }
{
    let _whole = write_whole(faults, text.as_bytes());
}

/// Writes the line of a fault, or a beginning of it, piece by piece.
fn say_fault<E: Write>(faults: &mut E, error: &NormError)
    ensures { WritesFront (E.contents faults.old) (E.contents faults.new)
        (fault_line error.now.fault error.now.span (string_bytes error.now.message)) }
{
    let _whole = write_site(faults, error.fault.code(), error.span)
        && end_line(faults, error.message.as_bytes());
}

/// Writes a fault's message and the end of its line. Says whether all was written; else a beginning was.
fn end_line<E: Write>(faults: &mut E, message: &[u8]) -> bool
    ensures front { WritesFront (E.contents faults.old) (E.contents faults.new) (one_line message.now ++ codes "\n") }
    ensures whole { IsTrue result → Appends (E.contents faults.old) (E.contents faults.new) (one_line message.now ++ codes "\n") }
{
    write_message(faults, message) && write_whole(faults, b"\n")
}

/// Writes what comes before the message, or a beginning of it: the fault's number and its span.
fn write_site<E: Write>(faults: &mut E, code: &str, span: Span) -> bool
    ensures front { WritesFront (E.contents faults.old) (E.contents faults.new) ((code.now ++ codes " ") ++ span_text span) }
    ensures whole { IsTrue result → Appends (E.contents faults.old) (E.contents faults.new) ((code.now ++ codes " ") ++ span_text span) }
{
    write_both(faults, code, " ") && write_span(faults, span)
}

/// Writes a span, or a beginning of it.
fn write_span<E: Write>(faults: &mut E, span: Span) -> bool
    ensures front { WritesFront (E.contents faults.old) (E.contents faults.new) (span_text span) }
    ensures whole { IsTrue result → Appends (E.contents faults.old) (E.contents faults.new) (span_text span) }
{
    write_number(faults, span.0, "..") && write_number(faults, span.1, ": ")
}

/// Writes a number and a text behind it, or a beginning of these.
fn write_number<E: Write>(faults: &mut E, number: usize, behind: &str) -> bool
    ensures front { WritesFront (E.contents faults.old) (E.contents faults.new) (decimal number ++ behind.now) }
    ensures whole { IsTrue result → Appends (E.contents faults.old) (E.contents faults.new) (decimal number ++ behind.now) }
{
    let mut digits = Buffer::new();
    write_both(faults, digits.format(number), behind)
}

#[tactic(auto, unfolding(crate::specs::Streams::usage_line, crate::specs::Streams::lexplain_usage_line))]
fn usage(program: Program) -> &'static str
    ensures { result.now ≡ usage_line_of program }
{
    match program {
        Program::Lnorm => "lnorm: usage: lnorm [--limit N] [--feature F]... [--origins]\n",
        Program::Lexplain =>
            "lexplain: usage: lexplain explain|lower|ambiguous GRAMMAR [--limit N] [--feature F]..., or lexplain grammar GRAMMAR [--limit N] [--feature F]... [--origins]\n",
    }
}

#[tactic(auto, unfolding(crate::specs::Streams::no_tree_line, crate::specs::Streams::lexplain_no_tree_line))]
fn not_a_tree(program: Program) -> &'static str
    ensures { result.now ≡ no_tree_line_of program }
{
    match program {
        Program::Lnorm => "lnorm: not a tree\n",
        Program::Lexplain => "lexplain: the file is no tree of a grammar\n",
    }
}

#[tactic(auto, unfolding(crate::specs::Streams::memory_line, crate::specs::Streams::lexplain_memory_line))]
fn no_memory(program: Program) -> &'static str
    ensures { result.now ≡ memory_line_of program }
{
    match program {
        Program::Lnorm => "lnorm: out of memory\n",
        Program::Lexplain => "lexplain: out of memory\n",
    }
}

#[tactic(auto, unfolding(crate::specs::Streams::stream_line, crate::specs::Streams::lexplain_stream_line))]
fn stream_failed(program: Program) -> &'static str
    ensures { result.now ≡ stream_line_of program }
{
    match program {
        Program::Lnorm => "lnorm: input or output failed\n",
        Program::Lexplain => "lexplain: input or output failed\n",
    }
}
