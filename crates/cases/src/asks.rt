//! What the accessors of a written grammar answer, and the pure functions that passes use.
use crate::faults::side_name;
use crate::made::{push_debug, show_or};
use crate::spans::push_span;
use crate::text::Text;
use lalrpop_norm::normalize::Session;
use lalrpop_norm::normalize::cond_comp::cfg_active;
use lalrpop_norm::normalize::norm_util::{analyze_action, check_between_braces};
use lalrpop_norm_precedence::precedence::{AlternativeLevel, has_prec_attr, read_levels};
use lalrpop_norm_tree::grammar::parse_tree::{
    ActionKind, Alternative, Attribute, ExternToken, Grammar, NonterminalData,
};
use std::alloc::Global;
use std::collections::BTreeSet;

/// Of the first blocks, the attributes, the blocks, and of each rule with its alternatives.
pub(crate) fn push_asked<L>(alloc: Global, text: &mut Text, session: &Session<L>, tree: &Grammar) {
    push_first_blocks(text, tree);
    push_asked_attributes(text, session, &tree.attributes);
    for item in &tree.items {
        text.show_line("item, macro: ", item.is_macro_def());
        text.debug_line("  match: ", item.as_match_token());
        text.debug_line("  tokenizer: ", item.as_intern_token());
        if let Some(block) = item.as_extern_token() {
            push_asked_extern(text, block);
        }
        if let Some(rule) = item.as_nonterminal() {
            push_asked_head(alloc, text, rule);
            push_asked_attributes(text, session, &rule.attributes);
            for alternative in &rule.alternatives {
                push_asked_alternative(alloc, text, alternative);
                push_asked_attributes(text, session, &alternative.attributes);
            }
        }
    }
}

pub(crate) fn push_first_blocks(text: &mut Text, tree: &Grammar) {
    text.debug_line("first match: ", tree.match_token());
    text.debug_line("first extern: ", tree.extern_token());
    text.debug_line("first enum: ", tree.enum_token());
    text.debug_line("tokenizer: ", tree.intern_token());
}

/// Whether the attributes are on, and of each the argument that is `key = "value"`.
pub(crate) fn push_asked_attributes<L>(
    text: &mut Text,
    session: &Session<L>,
    attributes: &[Attribute],
) {
    text.show_after("  on: ", cfg_active(session, attributes));
    for attribute in attributes {
        text.debug_after(" ", attribute.get_arg_equal());
    }
    text.end_line();
}

/// Two associated types, of each terminal of an enum its length, and of a literal its precedence.
pub(crate) fn push_asked_extern(text: &mut Text, block: &ExternToken) {
    text.debug_line("  location: ", block.associated_type("Location"));
    text.debug_line("  error: ", block.associated_type("Error"));
    if let Some(tokens) = &block.enum_token {
        for conversion in &tokens.conversions {
            text.show_after("  ", &conversion.from);
            text.show_after(" of length ", conversion.from.display_len());
            if let Some(literal) = conversion.from.as_literal() {
                text.show_after(", precedence ", literal.base_precedence());
            }
            text.end_line();
        }
    }
}

/// The rule, whether it is on where the set of features is empty, its lowered type, and its levels.
fn push_asked_head(alloc: Global, text: &mut Text, rule: &NonterminalData) {
    text.show_after("  rule ", &rule.name);
    text.show_after(", public: ", rule.visibility.is_pub());
    text.show_after(", macro: ", rule.is_macro_def());
    text.show_after(
        ", on with no feature: ",
        is_on_without_features(alloc, &rule.attributes),
    );
    if let Some(ty) = &rule.type_decl {
        show_or(
            text,
            ty.type_repr(alloc),
            |text, lowered| text.show_after(", type: ", lowered),
            ", type of a symbol",
        );
    }
    text.show_after(", levels: ", has_prec_attr(rule));
    show_or(
        text,
        read_levels(alloc, rule),
        |text, levels| push_read_levels(text, levels),
        " wrong",
    );
    text.end_line();
}

fn is_on_without_features(alloc: Global, attributes: &[Attribute]) -> bool {
    let session = Session {
        features: Some(BTreeSet::new(alloc)),
        macro_recursion_limit: 200,
        lexer: (),
    };
    cfg_active(&session, attributes)
}

/// ` 1 left 2 right` of the alternatives.
fn push_read_levels(text: &mut Text, levels: &[AlternativeLevel]) {
    for one in levels {
        text.show_between(" ", one.level, " ");
        text.put(side_name(&one.side));
    }
}

/// Which symbols give values, and the index of the first `<>` in its action code.
fn push_asked_alternative(alloc: Global, text: &mut Text, alternative: &Alternative) {
    text.put("   ");
    push_span(text, alternative.span, " ");
    push_debug(text, "", analyze_action(alloc, alternative));
    if let Some(action) = &alternative.action {
        push_presence(text, action);
    }
}

pub(crate) fn push_presence(text: &mut Text, action: &ActionKind) {
    match action {
        ActionKind::User(code) | ActionKind::Fallible(code) => {
            let presence = check_between_braces(code.as_str());
            text.debug_after(", <> ", presence);
            text.show_after(", in braces: ", presence.is_in_curly_brackets());
        }
        ActionKind::Lookahead | ActionKind::Lookbehind => {}
    }
}
