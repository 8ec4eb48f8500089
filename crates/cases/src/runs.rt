//! Test cases of the programs `lnorm` and `lexplain`.
use crate::text::Text;
use lnorm_run::printing::{Afterwards, Form, Printing};
use lnorm_run::run::{run, run_with};
use lnorm_streams::halt::Program;
use std::alloc::Global;

/// How `lexplain grammar` prints.
const WHOLE: Printing = Printing {
    program: Program::Lexplain,
    form: Form::Json,
    afterwards: Afterwards::LetGo,
};

/// What `lnorm` writes on both streams, and its exit status; or what `lexplain grammar` does, with the options behind the grammar's
/// name.
pub(crate) fn push_run(
    alloc: Global,
    text: &mut Text,
    words: &[String],
    bytes: &[u8],
    is_whole: bool,
) {
    let mut input = bytes;
    let mut output = Vec::new(alloc);
    let mut line = Vec::new(alloc);
    let status = if is_whole {
        run_with(alloc, words, &mut input, &mut output, &mut line, WHOLE)
    } else {
        run(alloc, words, &mut input, &mut output, &mut line)
    };
    match str::from_utf8(&output) {
        Ok(written) => text.put(written),
        Err(_) => text.put("no text\n"),
    }
    push_fault_line(text, &line);
    text.show_line("status ", status);
}

/// The line on standard error: of a fault what comes before the message, whose wording is not promised.
fn push_fault_line(text: &mut Text, bytes: &[u8]) {
    match str::from_utf8(bytes) {
        Ok("") => {}
        Ok(line) => match promised(line) {
            Some(part) => text.show_line("standard error: ", part),
            None => text.show_line("standard error, not a line of lnorm: ", line),
        },
        Err(_) => text.put("standard error: no text\n"),
    }
}

/// What is promised of a line, if it is one of the program.
fn promised(line: &str) -> Option<&str> {
    let line = line.strip_suffix("\n")?;
    if line.starts_with("F") {
        let (part, _) = line.split_once(": ")?;
        Some(part)
    } else {
        Some(line)
    }
}

/// On how many of the beginnings of the bytes, all of them left out, a run reports that they are no tree.
pub(crate) fn push_cut_trees(alloc: Global, text: &mut Text, words: &[String], bytes: &[u8]) {
    let mut told = 0usize;
    for end in 0..bytes.len() {
        if is_told_as_no_tree(alloc, words, &bytes[..end]) {
            told = told.wrapping_add(1);
        }
    }
    text.show_after("beginnings: ", told);
    text.show_between(" of ", bytes.len(), " are no tree\n");
}

/// Whether a run ends with exit status 2 and its line, and writes nothing else.
fn is_told_as_no_tree(alloc: Global, words: &[String], bytes: &[u8]) -> bool {
    let mut input = bytes;
    let mut output = Vec::new(alloc);
    let mut line = Vec::new(alloc);
    let status = run(alloc, words, &mut input, &mut output, &mut line);
    match str::from_utf8(&line) {
        Ok("lnorm: not a tree\n") => status == 2 && output.is_empty(),
        _ => false,
    }
}
