//! The answer to a call.
use crate::back::{back_of, push_back};
use crate::cuts::{push_cut_calls, push_cut_faults};
use crate::library_call::push_counts_of;
use crate::outcome::{push_last, push_normalized, push_pass, push_stopped};
use crate::passes::tree_after_all;
use crate::runs::{push_cut_trees, push_run};
use crate::scripted::scripted_session;
use crate::scripted_lexer::Scripted;
use crate::text::Text;
use crate::twice::{push_beginnings, push_read_twice};
use lalrpop_norm::lexer::CheckOnly;
use lalrpop_norm::normalize::Session;
use lnorm_run::words::{WordsError, asked_by};
use std::alloc::Global;

/// Passes, and the part behind them.
#[derive(Clone, Copy)]
struct PassCall<'a> {
    passes: &'a str,
    last: &'a str,
    /// Whether a fault is printed with its message.
    is_told: bool,
    /// How often the same is called in the same session.
    times: usize,
}

/// Writes the answer to a call, with its arguments, on the tree that the bytes are; `beside` is what the file holds that is named
/// beside it, if one is. A call that runs out of memory is answered `memory`; the text lacks an answer only if an allocation
/// failed for the text.
pub(crate) fn push_answer(
    alloc: Global,
    text: &mut Text,
    call: &str,
    words: &[String],
    bytes: &[u8],
    beside: &[u8],
) {
    match call {
        "lnorm" => push_run(alloc, text, words, bytes, false),
        "grammar" => push_run(alloc, text, words, bytes, true),
        "library" => push_counts_of(alloc, text, bytes),
        "read_twice" => push_read_twice(alloc, text, bytes),
        "beginnings" => push_beginnings(alloc, text, bytes),
        "cut_reads" => push_cut_calls(alloc, text, words, bytes, true),
        "cut_writes" => push_cut_calls(alloc, text, words, bytes, false),
        "cut_faults" => push_cut_faults(alloc, text, words, bytes),
        "cut_trees" => push_cut_trees(alloc, text, words, bytes),
        _ => push_of_session(alloc, text, call, words, bytes, beside),
    }
}

/// The same of the calls of the way back, and of passes.
fn push_of_session(
    alloc: Global,
    text: &mut Text,
    call: &str,
    words: &[String],
    bytes: &[u8],
    beside: &[u8],
) {
    match back_of(call) {
        Some(back) => match asked_by(alloc, words) {
            Ok(asked) => push_back(alloc, text, asked.session, back, bytes, beside),
            Err(error) => push_words_error(text, error),
        },
        None => push_passes(alloc, text, call, words, bytes),
    }
}

fn push_words_error(text: &mut Text, error: WordsError) {
    match error {
        WordsError::Usage => text.put("usage\n"),
        WordsError::Memory => text.put("memory\n"),
    }
}

/// What the passes come to, in the form of the first argument, if that names one.
fn push_passes(alloc: Global, text: &mut Text, call: &str, words: &[String], bytes: &[u8]) {
    let (passes, last) = match call.rsplit_once(",") {
        Some((passes, last)) => (passes, last),
        None => ("read", call),
    };
    let (is_told, times, words) = match words {
        [first, rest @ ..] if first.as_str() == "told" => (true, 1, rest),
        [first, rest @ ..] if first.as_str() == "twice" => (false, 2, rest),
        _ => (false, 1, words),
    };
    let call = PassCall {
        passes,
        last,
        is_told,
        times,
    };
    match last.strip_suffix("_scripted") {
        Some(name) => match scripted_session(alloc, words) {
            Ok(session) => push_scripted(alloc, text, &session, call, name, bytes),
            Err(error) => push_words_error(text, error),
        },
        None => match asked_by(alloc, words) {
            Ok(asked) => push_outcome(alloc, text, &asked.session, call, bytes),
            Err(error) => push_words_error(text, error),
        },
    }
}

/// What the passes and the part behind them come to, as often as that is called.
fn push_outcome(
    alloc: Global,
    text: &mut Text,
    session: &Session<CheckOnly>,
    call: PassCall<'_>,
    bytes: &[u8],
) {
    for _ in 0..call.times {
        match tree_after_all(alloc, session, call.passes, bytes) {
            Ok(tree) => push_last(alloc, text, session, call.is_told, call.last, tree),
            Err(stopped) => push_stopped(text, call.is_told, &stopped),
        }
    }
}

/// The same of the part of that name, with the lexer that the arguments describe.
fn push_scripted(
    alloc: Global,
    text: &mut Text,
    session: &Session<Scripted>,
    call: PassCall<'_>,
    name: &str,
    bytes: &[u8],
) {
    for _ in 0..call.times {
        match tree_after_all(alloc, session, call.passes, bytes) {
            Ok(tree) => match name {
                "normalize" => push_normalized(alloc, text, session, call.is_told, name, tree),
                _ => push_pass(alloc, text, session, call.is_told, name, tree),
            },
            Err(stopped) => push_stopped(text, call.is_told, &stopped),
        }
    }
}
