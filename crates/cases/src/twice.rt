//! JSON texts read in two ways: into `serde_json`'s own values, and straight from the tokens. Beside a text ten damaged ones are
//! read.
use crate::damage::damaged;
use crate::text::Text;
use json::{Reader, Scratch};
use json_records::{ReadError, next_token, pass};
use lalrpop_norm_json::{TreeError, read_tree};
use lalrpop_norm_tree::grammar::parse_tree::Grammar;
use serde_json::Value;
use shared_text::NoMemory;
use std::alloc::Global;

/// How many damaged texts are read beside a text.
const DAMAGED: usize = 10;

/// How deep arrays and objects nest at most in what `serde_json` reads.
const MAX_DEPTH: usize = 127;

/// What two readers make of a text.
#[derive(Clone, Copy)]
enum Agreement {
    /// Both read it, and the same tree, if it is one.
    Read,
    /// Both reject it.
    Refused,
    /// It is not UTF-8.
    NoText,
    /// They do not agree.
    Differ,
    /// An allocation failed for one of them.
    Memory,
}

/// Writes what both readers make of a text, and whether they agree on ten that are damaged.
pub(crate) fn push_read_twice(alloc: Global, text: &mut Text, bytes: &[u8]) {
    text.put(match readings(alloc, bytes) {
        Agreement::Read => "read\n",
        Agreement::Refused => "refused\n",
        Agreement::NoText => "no UTF-8\n",
        Agreement::Differ => "differ\n",
        Agreement::Memory => "memory\n",
    });
    let mut alike = 0usize;
    for number in 0..DAMAGED {
        match damaged(alloc, bytes, number) {
            Ok(changed) => if is_agreed(readings(alloc, &changed)) {
                alike = alike.wrapping_add(1);
            },
            Err(_) => text.is_whole = false,
        }
    }
    text.show_after("damaged: ", alike);
    text.show_between(" of ", DAMAGED, " alike\n");
}

/// Writes on how many of the beginnings of a text, the text itself left out, both readers agree, and how many they read.
pub(crate) fn push_beginnings(alloc: Global, text: &mut Text, bytes: &[u8]) {
    let mut alike = 0usize;
    let mut read = 0usize;
    for end in 0..bytes.len() {
        let agreement = readings(alloc, &bytes[..end]);
        if is_agreed(agreement) {
            alike = alike.wrapping_add(1);
        }
        if let Agreement::Read = agreement {
            read = read.wrapping_add(1);
        }
    }
    text.show_after("beginnings: ", alike);
    text.show_after(" of ", bytes.len());
    text.show_between(" alike, ", read, " read\n");
}

fn is_agreed(agreement: Agreement) -> bool {
    match agreement {
        Agreement::Read | Agreement::Refused | Agreement::NoText => true,
        Agreement::Differ | Agreement::Memory => false,
    }
}

fn readings(alloc: Global, bytes: &[u8]) -> Agreement {
    match str::from_utf8(bytes) {
        Ok(text) => match written(alloc, text) {
            Ok(Some(written)) => read_too(alloc, text, written.as_str()),
            Ok(None) => refused_too(alloc, text),
            Err(NoMemory) => Agreement::Memory,
        },
        Err(_) => Agreement::NoText,
    }
}

/// What `serde_json` writes of the value as which it reads a text, with each key once and the keys in order. None if it rejects it.
fn written(alloc: Global, text: &str) -> Result<Option<String>, NoMemory> {
    match Value::from_str(alloc, text) {
        Ok(value) => match value.to_string(alloc) {
            Ok(written) => Ok(Some(written)),
            Err(_) => Err(NoMemory),
        },
        Err(error) => if error.is_memory() {
            Err(NoMemory)
        } else {
            Ok(None)
        },
    }
}

/// Where `serde_json` reads a text, and writes that of its value.
fn read_too(alloc: Global, text: &str, written: &str) -> Agreement {
    match passed(alloc, text) {
        Ok(()) => {
            let tree = read_tree(alloc, text);
            let again = read_tree(alloc, written);
            compared(&tree, &again)
        }
        Err(ReadError::NotJson) => Agreement::Differ,
        Err(ReadError::Memory) => Agreement::Memory,
    }
}

/// Whether two readings are of one tree, or neither is of any.
fn compared(tree: &Result<Grammar, TreeError>, again: &Result<Grammar, TreeError>) -> Agreement {
    match (tree, again) {
        (Ok(tree), Ok(again)) => if *tree == *again {
            Agreement::Read
        } else {
            Agreement::Differ
        },
        (Err(TreeError::NotATree), Err(TreeError::NotATree)) => Agreement::Read,
        (Err(TreeError::Memory), _) | (_, Err(TreeError::Memory)) => Agreement::Memory,
        _ => Agreement::Differ,
    }
}

/// Where `serde_json` rejects a text.
fn refused_too(alloc: Global, text: &str) -> Agreement {
    match passed(alloc, text) {
        Ok(()) => Agreement::Differ,
        Err(ReadError::NotJson) => Agreement::Refused,
        Err(ReadError::Memory) => Agreement::Memory,
    }
}

/// Passes over the value that a text is, token by token.
fn passed(alloc: Global, text: &str) -> Result<(), ReadError> {
    let mut scratch = Scratch::new(alloc);
    let Ok(mut reader) = Reader::new(text, &mut scratch) else {
        return Err(ReadError::Memory);
    };
    let first = next_token(&mut reader)?;
    pass(first, &mut reader, MAX_DEPTH)?;
    if reader.next().is_some() {
        return Err(ReadError::NotJson);
    }
    Ok(())
}
