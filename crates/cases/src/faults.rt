//! Failures of passes, and associativities of alternatives.
use crate::made::{cloned, show_made};
use crate::spans::push_span;
use crate::text::Text;
use lalrpop_norm_faults::{FaultKind, NormFailure, refusal};
use lalrpop_norm_lower_steps::refusals::too_many_actions;
use lalrpop_norm_precedence::precedence::Assoc;
use lalrpop_norm_tree::grammar::parse_tree::Span;
use std::alloc::{AllocError, Global};

/// An error with its message, one for whose message an allocation failed, and copies of both; and the error that no tree can show.
pub(crate) fn push_refusals(alloc: Global, text: &mut Text) {
    let told = refused(String::from_str(alloc, "no type follows"));
    show_made(text, Ok(told), push_with_copy);
    show_made(text, Ok(refused(Err(AllocError))), push_with_copy);
    show_made(text, Ok(too_many_actions(alloc, Span(3, 8))), push_told);
}

/// An error at `3..8`.
fn refused(message: Result<String, AllocError>) -> NormFailure {
    refusal(FaultKind::NotGrounded, Span(3, 8), message)
}

/// A failure, and its copy.
fn push_with_copy(text: &mut Text, failure: &NormFailure) {
    push_told(text, failure);
    show_made(text, cloned(failure), push_told);
}

/// `F49 3..8: ` and the message.
fn push_told(text: &mut Text, failure: &NormFailure) {
    push_failure(text, true, failure);
}

/// The number of an error and its span; its message too, where that is asked for.
pub(crate) fn push_failure(text: &mut Text, is_told: bool, failure: &NormFailure) {
    match failure {
        NormFailure::Refused(error) => {
            text.put(error.fault.code());
            if is_told {
                push_span(text, error.span, ": ");
                text.show_line("", &error.message);
            } else {
                push_span(text, error.span, "\n");
            }
        }
        NormFailure::Memory => text.put("memory\n"),
    }
}

/// What each text is as an associativity.
pub(crate) fn push_sides(text: &mut Text) {
    for name in &["left", "right", "none", "all", "", "Left", "left ", "both"] {
        push_side(text, name);
    }
    text.show_line("no side: ", side_name(&Assoc::default()));
}

fn push_side(text: &mut Text, name: &str) {
    text.show_between("side \"", name, "\": ");
    match name.parse::<Assoc>() {
        Ok(side) => text.put(side_name(&side)),
        Err(error) => text.show(error),
    }
    text.end_line();
}

/// The word for the associativity.
pub(crate) fn side_name(side: &Assoc) -> &'static str {
    match side {
        Assoc::Left => "left",
        Assoc::Right => "right",
        Assoc::NonAssoc => "none",
        Assoc::FullyAssoc => "all",
    }
}
