//! The way back: trees beside a grammar, read from lines.
use crate::faults::push_failure;
use crate::made::put_apart;
use crate::text::Text;
use lalrpop_norm::explain::{ExplainError, Traced, WrittenTree, explain, explain_at, lower_tree};
use lalrpop_norm::lexer::CheckOnly;
use lalrpop_norm::normalize::{NormFailure, Session, normalize_traced};
use lalrpop_norm_json::{TreeError, read_tree};
use lalrpop_norm_lowered_json::whole::traced_json;
use lalrpop_norm_repr::grammar::repr::NonterminalString;
use lexplain_lines::lines::{lowered_lines, written_lines};
use lexplain_lines::read::{LinesError, lowered_tree_of_lines};
use lexplain_run::answer::{Stop, answer};
use lexplain_run::report::report_stop;
use lexplain_run::words::{Asked, Way};
use lnorm_run::lines::{grammar_lines, push_origin};
use std::alloc::Global;
use std::str::Lines;

/// A call of the way back.
#[derive(Clone, Copy)]
pub(crate) enum Back {
    /// One of `lexplain`.
    Way(Way),
    /// `explain_at`.
    ExplainAt,
    /// `explain`, and `lower_tree` of what that answers.
    ThereAndBack,
}

/// The call of that name.
pub(crate) fn back_of(call: &str) -> Option<Back> {
    match call {
        "explain" => Some(Back::Way(Way::Explain)),
        "lower_tree" => Some(Back::Way(Way::Lower)),
        "ambiguous" => Some(Back::Way(Way::Ambiguous)),
        "explain_at" => Some(Back::ExplainAt),
        "there_and_back" => Some(Back::ThereAndBack),
        _ => None,
    }
}

/// What a call answers for the tree, or the two trees, that lines make, in the grammar that the bytes are.
pub(crate) fn push_back(
    alloc: Global,
    text: &mut Text,
    session: Session<CheckOnly>,
    back: Back,
    bytes: &[u8],
    lines: &[u8],
) {
    match answered(alloc, session, back, bytes, lines) {
        Ok(answer) => text.put(answer.as_str()),
        Err(stop) => push_stop(alloc, text, stop),
    }
}

/// What `lexplain` answers; or what calls do of which it has no word.
fn answered(
    alloc: Global,
    session: Session<CheckOnly>,
    back: Back,
    bytes: &[u8],
    lines: &[u8],
) -> Result<String, Stop> {
    let Ok(grammar) = str::from_utf8(bytes) else {
        return Err(Stop::NotAGrammar);
    };
    let Ok(lines) = str::from_utf8(lines) else {
        return Err(Stop::NotATree);
    };
    match back {
        Back::Way(way) => answer(alloc, &Asked { way, session }, grammar, lines),
        Back::ExplainAt => of_derivation(alloc, &session, true, grammar, lines),
        Back::ThereAndBack => of_derivation(alloc, &session, false, grammar, lines),
    }
}

/// The lines of `explain_at`, or those of the way there and back.
fn of_derivation(
    alloc: Global,
    session: &Session<CheckOnly>,
    is_at: bool,
    grammar: &str,
    lines: &str,
) -> Result<String, Stop> {
    match read_tree(alloc, grammar) {
        Ok(grammar) => {
            let traced = normalize_traced(alloc, session, grammar)?;
            from_lowered(alloc, is_at, &traced, lines)
        }
        Err(TreeError::NotATree) => Err(Stop::NotAGrammar),
        Err(TreeError::Memory) => Err(Stop::Failed(NormFailure::Memory)),
    }
}

fn from_lowered(alloc: Global, is_at: bool, traced: &Traced, lines: &str) -> Result<String, Stop> {
    match lowered_tree_of_lines(alloc, lines) {
        Ok(tree) => if is_at {
            written_lines_of(alloc, explain_at(alloc, traced, &tree))
        } else {
            there_and_back(alloc, traced, explain(alloc, traced, &tree))
        },
        Err(LinesError::NotATree) => Err(Stop::NotATree),
        Err(LinesError::Memory) => Err(Stop::Failed(NormFailure::Memory)),
    }
}

fn written_lines_of(
    alloc: Global,
    written: Result<WrittenTree, ExplainError>,
) -> Result<String, Stop> {
    match written {
        Ok(tree) => Ok(written_lines(alloc, &tree)?),
        Err(error) => Err(Stop::Tree(error)),
    }
}

fn there_and_back(
    alloc: Global,
    traced: &Traced,
    written: Result<WrittenTree, ExplainError>,
) -> Result<String, Stop> {
    match written {
        Ok(tree) => match lower_tree(alloc, traced, &tree) {
            Ok(tree) => Ok(lowered_lines(alloc, &tree)?),
            Err(error) => Err(Stop::Tree(error)),
        },
        Err(error) => Err(Stop::Tree(error)),
    }
}

fn push_stop(alloc: Global, text: &mut Text, stop: Stop) {
    match stop {
        Stop::NotAGrammar => text.put("not a tree\n"),
        Stop::NotATree => text.put("no tree beside it\n"),
        Stop::Failed(failure) => push_failure(text, false, &failure),
        Stop::Tree(error) => push_report(alloc, text, Stop::Tree(error)),
        Stop::Trees(error) => push_report(alloc, text, Stop::Trees(error)),
    }
}

/// The line by which a stop is reported, but for a failed allocation. It has no end if an allocation failed for a part of it.
fn push_report(alloc: Global, text: &mut Text, stop: Stop) {
    let mut line = Vec::new(alloc);
    match report_stop(stop, &mut line) {
        3 => text.put("memory\n"),
        _ => match str::from_utf8(&line) {
            Ok(line) if line.ends_with("\n") => text.put(line),
            _ => text.is_whole = false,
        },
    }
}

/// The nonterminals of a traced grammar, and whether trees may begin at each; under it its productions as lines show them, each with
/// its origin, and what the lookup answers for the index behind the last one.
pub(crate) fn push_traced(alloc: Global, text: &mut Text, traced: &Traced) {
    // The JSON is made but not printed: a proof says what is in it, and not that memory suffices.
    match (
        grammar_lines(alloc, traced.grammar(), None),
        traced_json(alloc, traced),
    ) {
        (Ok(lines), Ok(_)) => push_nonterminals(alloc, text, traced, &mut lines.lines()),
        _ => text.is_whole = false,
    }
}

fn push_nonterminals(alloc: Global, text: &mut Text, traced: &Traced, lines: &mut Lines<'_>) {
    for (name, nonterminal) in &traced.grammar().nonterminals {
        text.show(name);
        text.show_line(", a written rule: ", traced.is_rule(name));
        push_productions(
            alloc,
            text,
            traced,
            name,
            nonterminal.productions.len(),
            lines,
        );
    }
}

fn push_productions(
    alloc: Global,
    text: &mut Text,
    traced: &Traced,
    name: &NonterminalString,
    count: usize,
    lines: &mut Lines<'_>,
) {
    for place in 0..count {
        text.show_between("    ", lines.next().unwrap_or("no line"), " ");
        match traced.origin(name, place) {
            Some(origin) => put_apart(alloc, text, |text| push_origin(text, origin)),
            None => text.put("from nowhere"),
        }
        text.end_line();
    }
    if traced.origin(name, count).is_some() {
        text.put("    one more\n");
    }
}
