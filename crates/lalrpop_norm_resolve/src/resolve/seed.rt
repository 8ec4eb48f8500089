//! The seeds of hashes of names: digests of all names in a table.

use lalrpop_norm_names::Seeded;
use lalrpop_norm_tree::grammar::parse_tree::{
    EnumToken, GrammarItem, MatchContents, MatchItem, MatchMapping, TerminalString,
};
use std::hash::{DefaultHasher, Hash};

fn read_terminal(terminal: &TerminalString, reader: &mut DefaultHasher) {
    match terminal {
        TerminalString::Bare(name) => name.hash(reader),
        TerminalString::Literal(_) | TerminalString::Error => {}
    }
}

fn read_enum(tokens: &Option<EnumToken>, reader: &mut DefaultHasher) {
    match tokens {
        Some(tokens) => {
            for conversion in &tokens.conversions {
                read_terminal(&conversion.from, reader);
            }
        }
        None => {}
    }
}

fn read_mapping(item: &MatchItem, reader: &mut DefaultHasher) {
    match item {
        MatchItem::Mapped(_, MatchMapping::Terminal(terminal), _) => {
            read_terminal(terminal, reader)
        }
        MatchItem::Mapped(_, MatchMapping::Skip, _)
        | MatchItem::Unmapped(_, _)
        | MatchItem::CatchAll(_) => {}
    }
}

fn read_group(group: &MatchContents, reader: &mut DefaultHasher) {
    for item in &group.items {
        read_mapping(item, reader);
    }
}

fn read_groups(groups: &[MatchContents], reader: &mut DefaultHasher) {
    for group in groups {
        read_group(group, reader);
    }
}

fn read_item(item: &GrammarItem, reader: &mut DefaultHasher) {
    match item {
        GrammarItem::Nonterminal(rule) => rule.name.0.hash(reader),
        GrammarItem::ExternToken(token) => read_enum(&token.enum_token, reader),
        GrammarItem::MatchToken(token) => read_groups(&token.contents, reader),
        GrammarItem::InternToken(_) | GrammarItem::Use(_) => {}
    }
}

/// The hashes of a table for the global names of these items.
///
/// What is read are the names of rules, and the bare terminals of extern enums and of match blocks: all that such a table can
/// hold. Nobody can choose names that collide there without changing the seed. No contract clause mentions it, since no answer
/// depends on it.
pub(crate) fn seeded_by(items: &[GrammarItem]) -> Seeded {
    let mut reader = DefaultHasher::new();
    for item in items {
        read_item(item, &mut reader);
    }
    Seeded::after(reader)
}
