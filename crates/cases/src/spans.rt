//! The printed form of spans.
use crate::text::Text;
use lalrpop_norm_tree::grammar::parse_tree::Span;

/// ` 3..9` and the text behind it.
pub(crate) fn push_span(text: &mut Text, span: Span, after: &str) {
    text.show_after(" ", span.0);
    text.show_between("..", span.1, after);
}
