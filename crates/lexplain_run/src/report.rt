//! How a stop is reported: its exit status, and its line.
ghost use Rattle.std.specs.Io.KnownBytes.{Appends};
ghost use Rattle.std.specs.Prelude.{◌≡◌, ◌++◌, IsTrue, codes, decimal};
ghost use Rattle.lnorm_streams.specs.Streams.{WritesFront, lexplain_memory_line};
ghost use Rattle.lexplain_run.specs.Stops.{child_path_text, places_text, tree_fault_line};
ghost use Rattle.lexplain_run.specs.Stops.{stop_line, stop_status, unshown_line, unshown_status};

use crate::answer::Stop;
use itoa::Buffer;
use lalrpop_norm::explain::{ExplainError, ExplainFault};
use lalrpop_norm::normalize::NormFailure;
use lalrpop_norm_ambiguity::AmbiguityError;
use lnorm_streams::halt::{Halt, Program, report};
use lnorm_streams::streams::{write_both, write_whole};
use std::io::Write;

/// Writes the line of a stop, or a beginning of it, and answers its exit status. It allocates nothing.
pub fn report_stop<E: Write>(stop: Stop, faults: &mut E) -> u8
    ensures status { result ≡ stop_status stop }
    ensures line { WritesFront (E.contents faults.old) (E.contents faults.new) (stop_line stop) }
{
    match stop {
        Stop::NotAGrammar => report(Program::Lexplain, Halt::NotATree, faults),
        Stop::NotATree => {
            let _whole = write_whole(faults, b"lexplain: the lines are no tree\n");
            2
        }
        Stop::Failed(failure) => report(Program::Lexplain, Halt::Failed(failure), faults),
        Stop::Tree(ExplainError::Refused { fault, path }) => {
            let _whole = write_fault(faults, fault, &path);
            1
        }
        Stop::Tree(ExplainError::Memory) => report_memory(faults),
        Stop::Trees(error) => report_unshown(&error, faults),
    }
}

/// Writes the line of a failed allocation, or a beginning of it, and answers its exit status.
pub(crate) fn report_memory<E: Write>(faults: &mut E) -> u8
    ensures status { result ≡ 3 }
    ensures line { WritesFront (E.contents faults.old) (E.contents faults.new) lexplain_memory_line }
{
    report(Program::Lexplain, Halt::Failed(NormFailure::Memory), faults)
}

/// Writes the line for two trees that show no ambiguity, or a beginning of it, and answers its exit status.
fn report_unshown<E: Write>(error: &AmbiguityError, faults: &mut E) -> u8
    ensures status { result ≡ unshown_status error.now }
    ensures line { WritesFront (E.contents faults.old) (E.contents faults.new) (unshown_line error.now) }
{
    let _whole = match error {
        AmbiguityError::First { fault, path } => { write_fault_of(faults, "first ", *fault, path) }
        AmbiguityError::Second { fault, path } => {
            write_fault_of(faults, "second ", *fault, path)
        }
        AmbiguityError::Rules => write_whole(faults, b"X5\n"),
        AmbiguityError::Yields(index) => write_yields(faults, *index),
        AmbiguityError::Same => write_whole(faults, b"X7\n"),
        AmbiguityError::Memory => return report_memory(faults),
    };
    1
}

/// Writes the line of two yields that differ first at that index, or a beginning of it.
fn write_yields<E: Write>(faults: &mut E, index: usize) -> bool
    ensures { WritesFront (E.contents faults.old) (E.contents faults.new) (codes "X6 " ++ (decimal index ++ codes "\n")) }
{
    write_number(faults, "X6 ", index) && write_whole(faults, b"\n")
}

/// Writes which tree it is and the line of its fault, or a beginning of these.
fn write_fault_of<E: Write>(
    faults: &mut E,
    which: &str,
    fault: ExplainFault,
    path: &[usize],
) -> bool
    ensures { WritesFront (E.contents faults.old) (E.contents faults.new) (which.now ++ tree_fault_line fault path.now) }
{
    write_whole(faults, which.as_bytes()) && write_fault(faults, fault, path)
}

/// Writes the line of a fault of a tree, or a beginning of it.
fn write_fault<E: Write>(faults: &mut E, fault: ExplainFault, path: &[usize]) -> bool
    ensures { WritesFront (E.contents faults.old) (E.contents faults.new) (tree_fault_line fault path.now) }
{
    write_both(faults, fault.code(), " ") && end_fault(faults, path)
}

/// Writes the path of a fault and the end of its line, or a beginning of these.
fn end_fault<E: Write>(faults: &mut E, path: &[usize]) -> bool
    ensures { WritesFront (E.contents faults.old) (E.contents faults.new) (child_path_text path.now ++ codes "\n") }
{
    write_path(faults, path) && write_whole(faults, b"\n")
}

/// Writes the indices of children, or a slash for the root. Says whether all was written; else a beginning was.
fn write_path<E: Write>(faults: &mut E, path: &[usize]) -> bool
    ensures front { WritesFront (E.contents faults.old) (E.contents faults.new) (child_path_text path.now) }
    ensures whole { IsTrue result → Appends (E.contents faults.old) (E.contents faults.new) (child_path_text path.now) }
{
    if path.is_empty() {
        write_whole(faults, b"/")
    } else {
        write_places(faults, path)
    }
}

/// Writes the indices, each behind a slash. Says whether all was written; else a beginning was.
fn write_places<E: Write>(faults: &mut E, path: &[usize]) -> bool
    ensures front { WritesFront (E.contents faults.old) (E.contents faults.new) (places_text path.now) }
    ensures whole { IsTrue result → Appends (E.contents faults.old) (E.contents faults.new) (places_text path.now) }
{
    for place in path {
        if !write_number(faults, "/", *place) {
            return false;
        }
    }
    true
}

/// Writes a text and a number behind it. Says whether all was written; else a beginning was.
fn write_number<E: Write>(faults: &mut E, before: &str, number: usize) -> bool
    ensures front { WritesFront (E.contents faults.old) (E.contents faults.new) (before.now ++ decimal number) }
    ensures whole { IsTrue result → Appends (E.contents faults.old) (E.contents faults.new) (before.now ++ decimal number) }
{
    let mut digits = Buffer::new();
    write_both(faults, before, digits.format(number))
}
