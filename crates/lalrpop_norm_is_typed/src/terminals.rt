//! The terminals of a grammar, and what names them.
ghost use Rattle.std.specs.Prelude.{◌≡◌, map};
ghost use Rattle.lalrpop_norm_tree.specs.Items.{conversion_view, grammar_view};
ghost use Rattle.lalrpop_norm_model.specs.Terminals.{same_terminal};
ghost use Rattle.lalrpop_norm_model.specs.TerminalTypes.{intern_entries};
ghost use Rattle.lalrpop_norm_common.specs.Sessions.{features_view};
ghost use Rattle.lalrpop_norm_is_typed.specs.Terminals.{source_view, source_of, is_terminal, are_terminals_distinct};
ghost use Rattle.lalrpop_norm_is_typed.specs.Terminals.{are_conversions_distinct, is_converted_again, is_converted, is_conversion_of};
ghost use Rattle.lalrpop_norm_is_typed.specs.Terminals.{are_entries_distinct, is_entered_again, is_entered, is_mapping_to};

use lalrpop_norm_common::{Session, cfg_active};
use lalrpop_norm_tree::grammar::parse_tree::{
    Conversion, Grammar, MatchEntry, MatchMapping, TerminalString,
};

/// What names the terminals of a grammar.
#[derive(Clone, Copy)]
pub(crate) enum Source<'g> {
    /// The conversions of the extern enum, of which the active ones count.
    Conversions(&'g [Conversion]),
    /// The entries of the tokenizer.
    Entries(&'g [MatchEntry]),
}

/// The conversions of the first extern enum; where there is none, the entries of the first tokenizer, and no entry without one.
pub(crate) fn source_of(grammar: &Grammar) -> Source
    ensures { source_view result ≡ source_of (grammar_view grammar.now) }
{
    match grammar.enum_token() {
        Some(tokens) => Source::Conversions(&tokens.conversions),
        None => Source::Entries(entries_of(grammar)),
    }
}

fn entries_of(grammar: &Grammar) -> &[MatchEntry]
    ensures { result.now ≡ intern_entries (grammar_view grammar.now) }
{
    match grammar.intern_token() {
        Some(tokens) => &tokens.match_entries,
        None => &[],
    }
}

/// Whether the grammar has the terminal.
pub(crate) fn is_terminal<L>(
    session: &Session<L>,
    source: Source,
    terminal: &TerminalString,
) -> bool
    ensures { result ≡ is_terminal (features_view session.now.features) (source_view source.entry) terminal.now }
{
    match source {
        Source::Conversions(conversions) => is_converted(session, conversions, terminal),
        Source::Entries(entries) => is_entered(entries, terminal),
    }
}

/// Whether no terminal is named twice.
pub(crate) fn are_terminals_distinct<L>(session: &Session<L>, source: Source) -> bool
    ensures { result ≡ are_terminals_distinct (features_view session.now.features) (source_view source.entry) }
{
    match source {
        Source::Conversions(conversions) => are_conversions_distinct(session, conversions),
        Source::Entries(entries) => are_entries_distinct(entries),
    }
}

// ---- conversions

fn are_conversions_distinct<L>(session: &Session<L>, conversions: &[Conversion]) -> bool
    ensures { result ≡ are_conversions_distinct (features_view session.now.features) (map conversion_view conversions.now) }
{
    for i in 0..conversions.len() {
        if is_converted_again(session, &conversions[i], &conversions[i + 1..]) {
            return false;
        }
    }
    true
}

/// Whether the conversion and one of the others are active, and name the same terminal.
fn is_converted_again<L>(
    session: &Session<L>,
    conversion: &Conversion,
    others: &[Conversion],
) -> bool
    ensures { result
        ≡ is_converted_again (features_view session.now.features) (conversion_view conversion.now) (map conversion_view others.now) }
{
    cfg_active(session, &conversion.attributes) && is_converted(session, others, &conversion.from)
}

/// Whether an active conversion names the terminal.
fn is_converted<L>(
    session: &Session<L>,
    conversions: &[Conversion],
    terminal: &TerminalString,
) -> bool
    ensures { result ≡ is_converted (features_view session.now.features) (map conversion_view conversions.now) terminal.now }
{
    for conversion in conversions {
        if is_conversion_of(session, terminal, conversion) {
            return true;
        }
    }
    false
}

fn is_conversion_of<L>(
    session: &Session<L>,
    terminal: &TerminalString,
    conversion: &Conversion,
) -> bool
    ensures { result ≡ is_conversion_of (features_view session.now.features) terminal.now (conversion_view conversion.now) }
{
    cfg_active(session, &conversion.attributes) && is_same(terminal, &conversion.from)
}

// ---- entries

fn are_entries_distinct(entries: &[MatchEntry]) -> bool
    ensures { result ≡ are_entries_distinct entries.now }
{
    for i in 0..entries.len() {
        if is_entered_again(&entries[i].user_name, &entries[i + 1..]) {
            return false;
        }
    }
    true
}

/// Whether it is a terminal, and one of the others maps to the same terminal.
fn is_entered_again(mapping: &MatchMapping, others: &[MatchEntry]) -> bool
    ensures { result ≡ is_entered_again mapping.now others.now }
{
    match mapping {
        MatchMapping::Terminal(terminal) => is_entered(others, terminal),
        MatchMapping::Skip => false,
    }
}

/// Whether an entry maps to the terminal.
fn is_entered(entries: &[MatchEntry], terminal: &TerminalString) -> bool
    ensures { result ≡ is_entered entries.now terminal.now }
{
    for entry in entries {
        if is_mapping_to(terminal, &entry.user_name) {
            return true;
        }
    }
    false
}

fn is_mapping_to(terminal: &TerminalString, mapping: &MatchMapping) -> bool
    ensures { result ≡ is_mapping_to terminal.now mapping.now }
{
    match mapping {
        MatchMapping::Terminal(named) => is_same(terminal, named),
        MatchMapping::Skip => false,
    }
}

fn is_same(a: &TerminalString, b: &TerminalString) -> bool
    ensures { result ≡ same_terminal a.now b.now }
{
    a == b
}
