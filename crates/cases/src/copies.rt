//! Copies of parts that no copy of a tree makes by themselves.
use crate::made::show_made;
use crate::text::Text;
use lalrpop_norm_lexer::lexer::RegexError;
use lalrpop_norm_precedence::precedence::Assoc;
use lalrpop_norm_tree::grammar::parse_tree::{
    Conversion, Grammar, MacroSymbol, NoMemory, NonterminalData, RepeatSymbol, SymbolKind,
};
use lalrpop_norm_tree::grammar::pattern::PatternKind;
use std::alloc::Global;

/// Of each such part of the tree, and of two errors, a line, which says whether the copy is equal.
pub(crate) fn push_copies(alloc: Global, text: &mut Text, tree: &Grammar) {
    for item in &tree.items {
        if let Some(block) = item.as_extern_token() {
            if let Some(tokens) = &block.enum_token {
                push_patterns(text, &tokens.conversions);
            }
        }
        if let Some(rule) = item.as_nonterminal() {
            push_parts(text, rule);
        }
    }
    show_made(text, refusal(alloc), |text, refusal| {
        push_copied(text, "refusal of a pattern", refusal);
    });
    if let Err(refusal) = "both".parse::<Assoc>() {
        push_copied(text, "refusal of a side", &refusal);
    }
}

/// Whether a copy of the value is equal to it.
fn push_copied<T: Clone + PartialEq + Drop>(text: &mut Text, name: &str, value: &T) {
    push_is_equal(text, name, value.clone(), value);
}

/// Whether the copy that was made of the value is equal to it.
fn push_is_equal<T: PartialEq + Drop, E: Drop>(
    text: &mut Text,
    name: &str,
    made: Result<T, E>,
    value: &T,
) {
    text.put(name);
    match made {
        Ok(copy) => text.show_line(" copied: ", copy == *value),
        Err(_) => text.is_whole = false,
    }
}

/// What each pattern is, and the fields of one.
fn push_patterns(text: &mut Text, conversions: &[Conversion]) {
    for conversion in conversions {
        let kind = &conversion.to.kind;
        push_is_equal(text, "kind of a pattern", kind.clone(), kind);
        if let PatternKind::Struct(_, fields, _) = kind {
            for field in fields {
                push_is_equal(text, "field of a pattern", field.clone(), field);
            }
        }
    }
}

/// The attributes of the rule, and the calls and repeats among its symbols.
fn push_parts(text: &mut Text, rule: &NonterminalData) {
    for attribute in &rule.attributes {
        push_copied(text, "attribute", attribute);
        push_copied(text, "argument of an attribute", &attribute.arg);
    }
    for alternative in &rule.alternatives {
        for symbol in &alternative.expr.symbols {
            match &symbol.kind {
                SymbolKind::Macro(call) => push_copied::<MacroSymbol>(text, "call", call),
                SymbolKind::Repeat(repeat) => push_copied::<RepeatSymbol>(text, "repeat", repeat),
                _ => {}
            }
        }
    }
}

fn refusal(alloc: Global) -> Result<RegexError, NoMemory> {
    Ok(RegexError::Refused {
        message: String::from_str(alloc, "unclosed group")?,
    })
}
