//! Runs of `lnorm` whose streams are cut, at each call in turn.
use crate::cut::{Cut, Failing, Failure};
use crate::text::Text;
use lnorm_run::run::run;
use std::alloc::Global;

/// What is run: the arguments, the bytes of the tree, and what fails of the input, the output and the line.
#[derive(Clone, Copy)]
struct Asked<'a> {
    words: &'a [String],
    bytes: &'a [u8],
    of_input: Failing,
    of_output: Failing,
    of_line: Failing,
}

/// What a run came to: its exit status, what it was given, its output, and its line on standard error.
#[derive(Drop)]
struct End {
    status: u8,
    input: Cut,
    output: Cut,
    line: Cut,
}

/// What is run if no call fails.
fn asked_of<'a>(words: &'a [String], bytes: &'a [u8]) -> Asked<'a> {
    let nothing = Failing {
        at: usize::MAX,
        failure: Failure::Broken,
    };
    Asked {
        words,
        bytes,
        of_input: nothing,
        of_output: nothing,
        of_line: nothing,
    }
}

/// What the run comes to. Its input is empty where an allocation failed for it.
fn ended(alloc: Global, text: &mut Text, asked: Asked<'_>) -> End {
    let bytes = match Vec::from_slice(alloc, asked.bytes) {
        Ok(bytes) => bytes,
        Err(_) => {
            text.is_whole = false;
            Vec::new(alloc)
        }
    };
    let mut input = Cut::new(bytes, 100, asked.of_input);
    let mut output = Cut::new(Vec::new(alloc), 10, asked.of_output);
    let mut line = Cut::new(Vec::new(alloc), 1, asked.of_line);
    let status = run(alloc, asked.words, &mut input, &mut output, &mut line);
    End {
        status,
        input,
        output,
        line,
    }
}

/// The runs of which one read fails, or one write: each in turn, in three ways, until there is no such call.
pub(crate) fn push_cut_calls<'a>(
    alloc: Global,
    text: &mut Text,
    words: &'a [String],
    bytes: &'a [u8],
    is_read: bool,
) {
    let asked = asked_of(words, bytes);
    let whole = ended(alloc, text, asked);
    for number in 0..usize::MAX {
        let mut asked = asked;
        let failing = failing(number / 3, number % 3);
        if is_read {
            asked.of_input = failing;
        } else {
            asked.of_output = failing;
        }
        let ended = ended(alloc, text, asked);
        let stream = cut_stream(&ended, is_read);
        push_cut(text, stream);
        push_end(text, &ended);
        if !whole.output.bytes.starts_with(&ended.output.bytes) {
            text.put("what was written is no beginning of the whole text\n");
        }
        if !stream.was_cut || !text.is_whole {
            break;
        }
    }
}

/// The stream of a run whose calls fail: the one that it reads, or the one that it writes.
fn cut_stream(end: &End, is_read: bool) -> &Cut {
    if is_read {
        return &end.input;
    }
    &end.output
}

/// The call of that index fails, in the way of that number, of three.
fn failing(at: usize, way: usize) -> Failing {
    let failure = match way {
        0 => Failure::Interrupted,
        1 => Failure::Broken,
        _ => Failure::Nothing,
    };
    Failing { at, failure }
}

/// The runs whose line on standard error is cut, at each of its bytes. If a run has no such line, then its first read fails as well.
pub(crate) fn push_cut_faults(alloc: Global, text: &mut Text, words: &[String], bytes: &[u8]) {
    let mut asked = asked_of(words, bytes);
    let mut whole = ended(alloc, text, asked);
    push_end(text, &whole);
    if whole.line.bytes.is_empty() {
        asked.of_input = failing(0, 1);
        whole = ended(alloc, text, asked);
        push_end(text, &whole);
    }
    for way in 0..3 {
        push_cut_line(alloc, text, asked, &whole, way);
    }
}

/// How many of these runs end with the exit status, the output and as much of the line as was taken; and each other one.
fn push_cut_line(alloc: Global, text: &mut Text, asked: Asked<'_>, whole: &End, way: usize) {
    let mut alike = 0usize;
    for place in 0..whole.line.bytes.len() {
        let mut asked = asked;
        asked.of_line = failing(place, way);
        let ended = ended(alloc, text, asked);
        if is_begun(&ended, whole) {
            alike = alike.wrapping_add(1);
        } else {
            push_cut(text, &ended.line);
            push_end(text, &ended);
        }
    }
    text.put(failing(0, way).failure.word());
    text.show_between(
        " at each of ",
        alike,
        " bytes: the same, but for the line, which ends before that byte\n",
    );
}

/// Whether the run ended like the uncut one, its line is what comes before the cut there, and no call came after the cut.
fn is_begun(ended: &End, whole: &End) -> bool {
    let line = &ended.line;
    ended.status == whole.status
        && ended.output.bytes == whole.output.bytes
        && whole.line.bytes.starts_with(&line.bytes)
        && line.bytes.len() == line.failing.at
        && line.calls == line.failing.at.wrapping_add(1)
}

/// At which of its calls the stream was cut, if it was, and how many there were.
fn push_cut(text: &mut Text, stream: &Cut) {
    if stream.was_cut {
        text.put(stream.failing.failure.word());
        text.show_after(" at call ", stream.failing.at.wrapping_add(1));
        text.show_between(" of ", stream.calls, ": ");
    } else {
        text.show_between("", stream.calls, " calls: ");
    }
}

/// The exit status of a run, how much was written, and the line on standard error.
fn push_end(text: &mut Text, ended: &End) {
    text.show_after("status ", ended.status);
    text.show_between(", ", ended.output.bytes.len(), " bytes written");
    match str::from_utf8(&ended.line.bytes) {
        Ok("") => text.end_line(),
        Ok(line) => text.show_after(", ", line),
        Err(_) => text.put(", no text\n"),
    }
}
