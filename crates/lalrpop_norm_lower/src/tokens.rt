//! The terminals of a grammar that have tokens, and the patterns of these.
ghost use Rattle.std.specs.Prelude.{◌≡◌, ◌+◌, ◌++◌, [], ◌∷◌, IfOk, OnOk, codes, flat_map, map};
ghost use Rattle.std.specs.BTreeMap.{insert_entry};
ghost use Rattle.std.specs.Map.{keys_of};
ghost use Rattle.lalrpop_norm_tree.specs.Items.{conversion_view, item_view};
ghost use Rattle.lalrpop_norm_tree.specs.LoweredTypes.{named_path};
ghost use Rattle.lalrpop_norm_tree_parts.specs.Paths.{path_view};
ghost use Rattle.lalrpop_norm_tree_patterns.specs.Patterns.{pattern_view, patterns_view, pattern_at, pattern_and};
ghost use Rattle.lalrpop_norm_tree_patterns.specs.Patterns.{no_patterns, number, chosen};
ghost use Rattle.lalrpop_norm_tree_parts.specs.Reprs.{repr_view, input_str};
ghost use Rattle.lalrpop_norm_common.specs.Sessions.{features_view};
ghost use Rattle.lalrpop_norm_repr.specs.Tables.{rows};
ghost use Rattle.lalrpop_norm_lower.specs.Carried.{internal_pattern};
ghost use Rattle.lalrpop_norm_lower.specs.Conversions.{sorted_terminals, terminal_cmp};
ghost use Rattle.lalrpop_norm_lower.specs.Made.{conversion_rows, row_of_entry, entry_rows_from, token_rows};

use crate::patterns::lowered_pattern;
use lalrpop_norm_common::{Session, cfg_active};
use lalrpop_norm_lower_steps::terminals::terminal_of_entry;
use lalrpop_norm_repr::grammar::repr::{TerminalString, TypeRepr};
use lalrpop_norm_tree::grammar::parse_tree::{
    Atom, Conversion, GrammarItem, MatchEntry, NoMemory, Path, Span,
};
use lalrpop_norm_tree::grammar::pattern::{Pattern, PatternKind};
use std::alloc::Global;
use std::collections::BTreeMap;

/// The terminals with tokens.
#[derive(Drop)]
pub(crate) struct Tokens {
    /// In the order of their numbers.
    pub(crate) all: Vec<TerminalString>,
    /// The pattern of each one's tokens.
    pub(crate) patterns: BTreeMap<TerminalString, Pattern<TypeRepr>>,
}

/// The terminals of the active conversions and of the entries of tokenizers, in order, and the patterns of their tokens.
pub(crate) fn tokens_of<L>(
    alloc: Global,
    session: &Session<L>,
    span: Span,
    items: &[GrammarItem],
) -> Result<Tokens, NoMemory>
    ensures all { IfOk result
        (λ t. t.all.items ≡ keys_of (flat_map (token_rows (features_view session.now.features) span) (map item_view items.now))) }
    ensures patterns { IfOk result (λ t. rows (pattern_view repr_view) t.patterns
        ≡ sorted_terminals [] (flat_map (token_rows (features_view session.now.features) span) (map item_view items.now))) }
{
    let mut tokens = Tokens {
        all: Vec::new(alloc),
        patterns: BTreeMap::new(alloc),
    };
    for item in items {
        add_item(alloc, session, span, item, &mut tokens)?;
    }
    Ok(tokens)
}

fn add_item<L>(
    alloc: Global,
    session: &Session<L>,
    span: Span,
    item: &GrammarItem,
    tokens: &mut Tokens,
) -> Result<(), NoMemory>
    ensures all { OnOk result (tokens.new.all.items
        ≡ tokens.old.all.items ++ keys_of (token_rows (features_view session.now.features) span (item_view item.now))) }
    ensures patterns { OnOk result (rows (pattern_view repr_view) tokens.new.patterns
        ≡ sorted_terminals (rows (pattern_view repr_view) tokens.old.patterns)
        (token_rows (features_view session.now.features) span (item_view item.now))) }
{
    match item {
        GrammarItem::ExternToken(token) => match &token.enum_token {
            Some(token) => add_conversions(alloc, session, &token.conversions, tokens),
            None => Ok(()),
        },
        GrammarItem::InternToken(token) => add_entries(alloc, span, &token.match_entries, tokens),
        GrammarItem::MatchToken(_) => Ok(()),
        GrammarItem::Nonterminal(_) => Ok(()),
        GrammarItem::Use(_) => Ok(()),
    }
}

/// Adds the active conversions.
fn add_conversions<L>(
    alloc: Global,
    session: &Session<L>,
    conversions: &[Conversion],
    tokens: &mut Tokens,
) -> Result<(), NoMemory>
    ensures all { OnOk result (tokens.new.all.items
        ≡ tokens.old.all.items ++ keys_of (conversion_rows (features_view session.now.features) (map conversion_view conversions.now))) }
    ensures patterns { OnOk result (rows (pattern_view repr_view) tokens.new.patterns
        ≡ sorted_terminals (rows (pattern_view repr_view) tokens.old.patterns)
        (conversion_rows (features_view session.now.features) (map conversion_view conversions.now))) }
{
    for conversion in conversions {
        if cfg_active(session, &conversion.attributes) {
            add_token(
                tokens,
                &conversion.from,
                lowered_pattern(alloc, &conversion.to)?,
            )?;
        }
    }
    Ok(())
}

/// Adds the entries that name a terminal, each by its index.
fn add_entries(
    alloc: Global,
    span: Span,
    entries: &[MatchEntry],
    tokens: &mut Tokens,
) -> Result<(), NoMemory>
    ensures all { OnOk result (tokens.new.all.items ≡ tokens.old.all.items ++ keys_of (entry_rows_from span 0 entries.now)) }
    ensures patterns { OnOk result (rows (pattern_view repr_view) tokens.new.patterns
        ≡ sorted_terminals (rows (pattern_view repr_view) tokens.old.patterns) (entry_rows_from span 0 entries.now)) }
{
    for index in 0..entries.len() {
        add_entry(alloc, span, index, &entries[index], tokens)?;
    }
    Ok(())
}

fn add_entry(
    alloc: Global,
    span: Span,
    index: usize,
    entry: &MatchEntry,
    tokens: &mut Tokens,
) -> Result<(), NoMemory>
    ensures all { OnOk result (tokens.new.all.items ≡ tokens.old.all.items ++ keys_of (row_of_entry span index entry.now)) }
    ensures patterns { OnOk result (rows (pattern_view repr_view) tokens.new.patterns
        ≡ sorted_terminals (rows (pattern_view repr_view) tokens.old.patterns) (row_of_entry span index entry.now)) }
{
    match terminal_of_entry(entry)? {
        Some(terminal) => {
            let pattern = internal_pattern(alloc, span, index)?;
            add_token(tokens, &terminal, pattern)
        }
        None => Ok(()),
    }
}

fn add_token(
    tokens: &mut Tokens,
    terminal: &TerminalString,
    pattern: Pattern<TypeRepr>,
) -> Result<(), NoMemory>
    ensures all { OnOk result (tokens.new.all.items ≡ tokens.old.all.items ++ terminal.now ∷ []) }
    ensures patterns { OnOk result (rows (pattern_view repr_view) tokens.new.patterns
        ≡ insert_entry terminal_cmp (rows (pattern_view repr_view) tokens.old.patterns) terminal.now (pattern_view repr_view pattern)) }
{
    insert(&mut tokens.patterns, terminal.clone()?, pattern)?;
    tokens.all.push(terminal.clone()?)?;
    Ok(())
}

/// Puts a pattern into the table.
#[tactic(auto, using(lalrpop_norm_repr::proofs::RowOrder::rows_inserted))]
fn insert(
    patterns: &mut BTreeMap<TerminalString, Pattern<TypeRepr>>,
    terminal: TerminalString,
    pattern: Pattern<TypeRepr>,
) -> Result<(), NoMemory>
    ensures { OnOk result (rows (pattern_view repr_view) patterns.new
        ≡ insert_entry terminal_cmp (rows (pattern_view repr_view) patterns.old) terminal (pattern_view repr_view pattern)) }
{
    patterns.insert(terminal, pattern)?;
    Ok(())
}

/// `Token(i, <&'input str>)`.
fn internal_pattern(alloc: Global, span: Span, index: usize) -> Result<Pattern<TypeRepr>, NoMemory>
    ensures { IfOk result (λ p. pattern_view repr_view p ≡ internal_pattern span index) }
{
    let path = token_path(alloc)?;
    let inner = listed(alloc, span, index)?;
    Ok(at(span, PatternKind::TupleStruct(path, inner)))
}

/// `i, <&'input str>`
fn listed(alloc: Global, span: Span, index: usize) -> Result<Vec<Pattern<TypeRepr>>, NoMemory>
    ensures { IfOk result (λ ps. patterns_view repr_view ps.items
        ≡ pattern_and (pattern_at span (number index)) (pattern_and (pattern_at span (chosen input_str)) no_patterns)) }
{
    let mut inner = Vec::with_capacity(alloc, 2)?;
    inner.push(at(span, PatternKind::Usize(index)))?;
    inner.push(at(span, PatternKind::Choose(TypeRepr::input_str(alloc)?)))?;
    Ok(inner)
}

fn at(span: Span, kind: PatternKind<TypeRepr>) -> Pattern<TypeRepr>
    ensures { result ≡ record { span = span; kind = kind } }
{
    Pattern { span, kind }
}

/// The path `Token`.
fn token_path(alloc: Global) -> Result<Path, NoMemory>
    ensures { IfOk result (λ p. path_view p ≡ named_path (codes "Token")) }
{
    Path::from_id(alloc, Atom::new(alloc, "Token")?)
}
