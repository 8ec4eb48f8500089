//! Texts of the parts of a tree, and whether its copy is equal to it.
use crate::made::{cloned, push_after};
use crate::spans::push_span;
use crate::text::Text;
use lalrpop_norm_precedence::precedence::has_several_levels;
use lalrpop_norm_tree::grammar::parse_tree::{
    ArgPattern, Attribute, ExternToken, Grammar, GrammarItem, NoMemory, NonterminalData, Span,
    Symbol, SymbolKind, Tuple, is_known_attribute, read_algorithm,
};
use lalrpop_norm_tree::grammar::repr::Algorithm;
use std::alloc::Global;
use std::{fmt, slice};

/// Whether a copy is equal; what the attributes ask for; the texts of the head's parts, of types and of patterns; of each symbol of
/// an alternative its canonical form, also that of what is in it, and the names of tuples; of rules whether they have several
/// levels; of match blocks the spans of their items.
pub(crate) fn push_texts(alloc: Global, text: &mut Text, tree: &Grammar) {
    push_equality(text, tree);
    push_algorithms(text, &tree.attributes);
    push_lines(text, "type parameter ", &tree.type_parameters);
    for parameter in &tree.parameters {
        text.show_line("parameter of type ", &parameter.ty);
    }
    push_lines(text, "where ", &tree.where_clauses);
    for item in &tree.items {
        push_item_texts(alloc, text, item);
    }
}

/// Whether the copy of the tree is equal to it, and with another span.
fn push_equality(text: &mut Text, tree: &Grammar) {
    match tree.clone() {
        Ok(mut copy) => {
            text.show_between("copy equal ", copy == *tree, ", with another span unequal ");
            copy.span = Span(0, 1);
            text.show_line("", copy != *tree);
        }
        Err(_) => text.is_whole = false,
    }
}

/// What each attribute of a grammar asks for, if it is known.
pub(crate) fn push_algorithms(text: &mut Text, attributes: &[Attribute]) {
    for attribute in attributes {
        if is_known_attribute(attribute) {
            let mut algorithm = Algorithm::default();
            read_algorithm(slice::from_ref(attribute), &mut algorithm);
            text.debug_line("", &algorithm);
        }
    }
}

/// For each of the values a line.
fn push_lines<T: fmt::Display>(text: &mut Text, before: &str, values: &[T]) {
    for value in values {
        text.show_line(before, value);
    }
}

fn push_item_texts(alloc: Global, text: &mut Text, item: &GrammarItem) {
    match item {
        GrammarItem::Nonterminal(rule) => push_rule_texts(alloc, text, rule),
        GrammarItem::ExternToken(block) => push_extern_texts(text, block),
        GrammarItem::MatchToken(block) => {
            for group in &block.contents {
                for item in &group.items {
                    text.put("item");
                    push_span(text, item.span(), "\n");
                }
            }
        }
        GrammarItem::InternToken(_) | GrammarItem::Use(_) => {}
    }
}

/// Its types, and the pattern of each conversion.
fn push_extern_texts(text: &mut Text, block: &ExternToken) {
    for associated in &block.associated_types {
        text.show_line("associated type ", &associated.type_ref);
    }
    if let Some(tokens) = &block.enum_token {
        text.show_line("enum ", &tokens.type_name);
        for conversion in &tokens.conversions {
            text.show_line("pattern ", &conversion.to);
        }
    }
}

fn push_rule_texts(alloc: Global, text: &mut Text, rule: &NonterminalData) {
    text.show_between("", &rule.visibility, "rule");
    if let Some(ty) = &rule.type_decl {
        text.show_after(": ", ty);
    }
    text.end_line();
    match has_several_levels(alloc, rule) {
        Ok(true) => text.put("several levels\n"),
        Ok(false) => {}
        Err(_) => text.is_whole = false,
    }
    for alternative in &rule.alternatives {
        for symbol in &alternative.expr.symbols {
            push_symbol_texts(alloc, text, symbol);
        }
    }
}

fn push_symbol_texts(alloc: Global, text: &mut Text, symbol: &Symbol) {
    push_after(text, "symbol ", symbol.canonical_form(alloc));
    match &symbol.kind {
        SymbolKind::Expr(group) => push_after(text, " group ", group.canonical_form(alloc)),
        SymbolKind::Macro(call) => push_after(text, " call ", call.canonical_form(alloc)),
        SymbolKind::Repeat(repeat) => push_after(text, " repeat ", repeat.canonical_form(alloc)),
        _ => {}
    }
    if let Some((tuple, inner)) = symbol.as_tuple() {
        push_after(text, " names ", tuple_name(alloc, tuple));
        text.show_after(" of ", inner);
    }
    text.end_line();
}

fn tuple_name(alloc: Global, tuple: &Tuple) -> Result<String, NoMemory> {
    let pattern = ArgPattern::Tuple(cloned(tuple)?);
    pattern.name(alloc)
}
