//! Where tokens come from, and the terminals that are named there.
ghost use Rattle.std.specs.Prelude.{◌≡◌, ◌↔◌, ◌≤◌, length, map, flat_map, option_map, true};
ghost use Rattle.std.specs.List.{list_all};
ghost use Rattle.lalrpop_norm_tree.specs.Items.{conversion_view, enum_token_view, item_view, match_contents_view};
ghost use Rattle.lalrpop_norm_model.specs.Expanded.{enum_in, intern_in, is_plain_terminal, match_in};
ghost use Rattle.lalrpop_norm_is_expanded.specs.Tokens.{AreSourcesApart, conversion_spares_error, entry_spares_error};
ghost use Rattle.lalrpop_norm_is_expanded.specs.Tokens.{enum_spares_error, group_spares_error, item_spares_error};
ghost use Rattle.lalrpop_norm_is_expanded.specs.Tokens.{mapping_spares_error, match_item_spares_error};

use lalrpop_norm_tree::grammar::parse_tree::{
    Conversion, EnumToken, GrammarItem, MatchContents, MatchEntry, MatchItem, MatchMapping,
    TerminalString,
};

// ---- where tokens come from

/// Whether there is one extern enum, match block and tokenizer at most, and an enum occurs with none of the others.
pub(crate) fn are_sources_apart(items: &[GrammarItem]) -> bool
    ensures { result ≡ true ↔ AreSourcesApart (map item_view items.now) }
{
    let (enums, blocks, interns) = count_sources(items);
    enums <= 1 && blocks <= 1 && interns <= 1 && (enums == 0 || (blocks == 0 && interns == 0))
}

/// How many extern enums, match blocks and tokenizers there are.
fn count_sources(items: &[GrammarItem]) -> (usize, usize, usize)
    ensures enums { result.0 ≡ length (flat_map enum_in (map item_view items.now)) }
    ensures blocks { result.1 ≡ length (flat_map match_in (map item_view items.now)) }
    ensures interns { result.2 ≡ length (flat_map intern_in (map item_view items.now)) }
{
    let mut enums = 0;
    let mut blocks = 0;
    let mut interns = 0;
    for item in items {
        let sources = sources_in(item);
        enums += sources.0;
        blocks += sources.1;
        interns += sources.2;
    }
    (enums, blocks, interns)
}

fn sources_in(item: &GrammarItem) -> (usize, usize, usize)
    ensures enums { result.0 ≡ length (enum_in (item_view item.now)) }
    ensures blocks { result.1 ≡ length (match_in (item_view item.now)) }
    ensures interns { result.2 ≡ length (intern_in (item_view item.now)) }
    ensures one { (result.0 ≤ 1) × (result.1 ≤ 1) × (result.2 ≤ 1) }
{
    match item {
        GrammarItem::ExternToken(block) => match &block.enum_token {
            Some(_) => (1, 0, 0),
            None => (0, 0, 0),
        },
        GrammarItem::MatchToken(_) => (0, 1, 0),
        GrammarItem::InternToken(_) => (0, 0, 1),
        GrammarItem::Nonterminal(_) | GrammarItem::Use(_) => (0, 0, 0),
    }
}

// ---- the error terminal

/// Whether no conversion and no mapping names the error terminal.
pub(crate) fn is_error_unnamed(items: &[GrammarItem]) -> bool
    ensures { result ≡ list_all item_spares_error (map item_view items.now) }
{
    for item in items {
        if !item_spares_error(item) {
            return false;
        }
    }
    true
}

fn item_spares_error(item: &GrammarItem) -> bool
    ensures { result ≡ item_spares_error (item_view item.now) }
{
    match item {
        GrammarItem::ExternToken(block) => enum_spares_error(&block.enum_token),
        GrammarItem::MatchToken(block) => groups_spare_error(&block.contents),
        GrammarItem::InternToken(tokens) => entries_spare_error(&tokens.match_entries),
        GrammarItem::Nonterminal(_) | GrammarItem::Use(_) => true,
    }
}

fn enum_spares_error(tokens: &Option<EnumToken>) -> bool
    ensures { result ≡ enum_spares_error (option_map enum_token_view tokens.now) }
{
    match tokens {
        Some(tokens) => conversions_spare_error(&tokens.conversions),
        None => true,
    }
}

fn conversions_spare_error(conversions: &[Conversion]) -> bool
    ensures { result ≡ list_all conversion_spares_error (map conversion_view conversions.now) }
{
    for conversion in conversions {
        if !is_plain_terminal(&conversion.from) {
            return false;
        }
    }
    true
}

fn groups_spare_error(groups: &[MatchContents]) -> bool
    ensures { result ≡ list_all group_spares_error (map match_contents_view groups.now) }
{
    for group in groups {
        if !match_items_spare_error(&group.items) {
            return false;
        }
    }
    true
}

fn match_items_spare_error(items: &[MatchItem]) -> bool
    ensures { result ≡ group_spares_error items.now }
{
    for item in items {
        if !match_item_spares_error(item) {
            return false;
        }
    }
    true
}

fn match_item_spares_error(item: &MatchItem) -> bool
    ensures { result ≡ match_item_spares_error item.now }
{
    match item {
        MatchItem::Mapped(_, mapping, _) => mapping_spares_error(mapping),
        MatchItem::Unmapped(_, _) | MatchItem::CatchAll(_) => true,
    }
}

fn entries_spare_error(entries: &[MatchEntry]) -> bool
    ensures { result ≡ list_all entry_spares_error entries.now }
{
    for entry in entries {
        if !mapping_spares_error(&entry.user_name) {
            return false;
        }
    }
    true
}

fn mapping_spares_error(mapping: &MatchMapping) -> bool
    ensures { result ≡ mapping_spares_error mapping.now }
{
    match mapping {
        MatchMapping::Terminal(terminal) => is_plain_terminal(terminal),
        MatchMapping::Skip => true,
    }
}

/// Whether it is another terminal than the error terminal.
pub(crate) fn is_plain_terminal(terminal: &TerminalString) -> bool
    ensures { result ≡ is_plain_terminal terminal.now }
{
    match terminal {
        TerminalString::Error => false,
        TerminalString::Literal(_) | TerminalString::Bare(_) => true,
    }
}
