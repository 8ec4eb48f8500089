//! The answers to a script.
use crate::answer::push_answer;
use crate::text::Text;
use std::alloc::{AllocError, Global};
use std::{fs, io};

/// Room for a word that says why a call has no answer, for the case that all further allocations fail.
const ROOM: usize = 16;

/// The answers to the lines of a script, each under its line. Blank lines have none, and remarks, which begin with `#`.
pub(crate) fn answers(rt: &HostRuntime, script: &str) -> io::Result<String> {
    let mut text = Text {
        text: String::new(rt.alloc()),
        is_whole: true,
    };
    for line in script.lines() {
        if is_case(line) {
            text.show_line("== ", line);
            text.reserve(ROOM);
            match words_of(rt.alloc(), line) {
                Ok(words) => push_words(rt, &mut text, &words),
                Err(_) => text.is_whole = false,
            }
        }
    }
    Ok(text.finish()?)
}

/// Whether a line is a case, and not blank or a remark.
fn is_case(line: &str) -> bool {
    match line.split_whitespace().next() {
        Some(first) => !first.starts_with("#"),
        None => false,
    }
}

/// The words of a line.
fn words_of(alloc: Global, line: &str) -> Result<Vec<String>, AllocError> {
    let mut words = Vec::new(alloc);
    for word in line.split_whitespace() {
        words.push(String::from_str(alloc, word)?)?;
    }
    Ok(words)
}

/// The answer to the words of a line.
fn push_words(rt: &HostRuntime, text: &mut Text, words: &[String]) {
    match words {
        [name, call, words @ ..] => match files_of(rt, name) {
            Ok((bytes, beside)) => push_answer(rt.alloc(), text, call, words, &bytes, &beside),
            Err(_) => text.put("no file\n"),
        },
        _ => text.put("no case\n"),
    }
}

/// What the file of a tree holds, and that of what is named beside it, behind a `+`.
fn files_of(rt: &HostRuntime, name: &str) -> io::Result<(Vec<u8>, Vec<u8>)> {
    match name.split_once("+") {
        Some((tree, beside)) => Ok((tree_bytes(rt, tree)?, tree_bytes(rt, beside)?)),
        None => Ok((tree_bytes(rt, name)?, Vec::new(rt.alloc()))),
    }
}

/// What the file of a tree holds.
fn tree_bytes(rt: &HostRuntime, name: &str) -> io::Result<Vec<u8>> {
    let path = format!(in rt.alloc(); "{name}.json")?;
    fs::read(rt, path.as_str())
}
