//! The automaton of entries, or the fault of the lexer, if one holds.
ghost use Rattle.std.specs.Prelude.{◌≡◌, ◌<◌, length, slice_get, Some, IsSome, IfOk, IfErr};
ghost use Rattle.lalrpop_norm_tree.specs.declared.items.MatchEntry as entry;
ghost use Rattle.lalrpop_norm_tree.specs.Items.{GrammarData};
ghost use Rattle.lalrpop_norm_model.specs.Entries.{AreEntries};
ghost use Rattle.lalrpop_norm_model.specs.CheckedTokens.{HasAutomaton};
ghost use Rattle.lalrpop_norm_token_check.specs.Checked.{ArePlaced, ArePlacesOf, IsLexerRefusal};
ghost use Rattle.lalrpop_norm_token_check.specs.Keys.{place_by};

use lalrpop_norm_faults::{FaultKind, NormFailure, NormResult, refusal};
use lalrpop_norm_lexer::construct::{ConstructError, construct};
use lalrpop_norm_lexer::lexer::{Lexer, NfaConstructionError};
use lalrpop_norm_tree::grammar::parse_tree::{Dfa, MatchEntry, Span, TerminalLiteral};
use std::alloc::{AllocError, Global};
use std::collections::BTreeMap;

fn feature_message(alloc: Global, error: NfaConstructionError) -> Result<String, AllocError> {
    let feature = match error {
        NfaConstructionError::NamedCaptures => "a group with a name, as `(?P<name>..)`",
        NfaConstructionError::NonGreedy => "a repeat that takes as little as it can, as `a*?`",
        NfaConstructionError::LookAround => "a test of what stands around, as `^`, `$` or `\\b`",
        NfaConstructionError::ByteRegex => "a byte that is no character, as `(?-u:\\xFF)`",
    };
    format!(in alloc;
        "this regular expression has {feature}, which the tokenizer lacks: write it without"
    )
}

fn ambiguity_message(
    alloc: Global,
    entries: &[MatchEntry],
    match0: usize,
    match1: usize,
) -> Result<String, AllocError> {
    let (Some(entry0), Some(entry1)) = (entries.get(match0), entries.get(match1)) else {
        return format!(in alloc; "two entries match one text, and neither goes before");
    };
    let literal0 = &entry0.match_literal;
    let literal1 = &entry1.match_literal;
    format!(in alloc;
        "{literal0} and {literal1} match one text, and neither goes before: put one of them into an earlier block of `match`"
    )
}

/// The automaton of the entries. Where they are those of a grammar, and its literals have these spans, an error is a
/// fault of that grammar.
pub(super) fn automaton_of<L: Lexer>(
    alloc: Global,
    lexer: &L,
    entries: &[MatchEntry],
    places: &BTreeMap<TerminalLiteral, Span>,
) -> NormResult<Dfa>
    requires { ArePlaced places.now.entries entries.now }
    ensures built { IfOk result (λ d.
        HasAutomaton (L.relations lexer.now) (record { match_entries = entries.now; code = d.code.items })) }
    ensures refused { (g : GrammarData) → AreEntries g entries.now → ArePlacesOf g places.now.entries →
        IfErr result (IsLexerRefusal (L.relations lexer.now) g) }
{
    match construct(alloc, lexer, entries) {
        Ok(dfa) => Ok(dfa),
        Err(ConstructError::Bad { index, message }) => Err(refusal(
            FaultKind::BadRegex,
            place_at(places, entries, index),
            format!(in alloc; "this is no regular expression: {message}"),
        )),
        Err(ConstructError::Unsupported { index, error }) => Err(refusal(
            FaultKind::RegexFeature,
            place_at(places, entries, index),
            feature_message(alloc, error),
        )),
        Err(ConstructError::Ambiguous { match0, match1 }) => Err(refusal(
            FaultKind::Ambiguity,
            place_at(places, entries, match0),
            ambiguity_message(alloc, entries, match0, match1),
        )),
        Err(ConstructError::Memory) => Err(NormFailure::Memory),
    }
}

/// The span of the literal of the entry at that index.
fn place_at(places: &BTreeMap<TerminalLiteral, Span>, entries: &[MatchEntry], index: usize) -> Span
    requires within { index < length entries.now }
    requires placed { ArePlaced places.now.entries entries.now }
    ensures { (e : entry.MatchEntry) → slice_get entries.now index ≡ Some e → place_by places.now.entries e.match_literal ≡ Some result }
{
    place_of(places, &entries[index].match_literal)
}

fn place_of(places: &BTreeMap<TerminalLiteral, Span>, literal: &TerminalLiteral) -> Span
    requires { IsSome (place_by places.now.entries literal.now) }
    ensures { place_by places.now.entries literal.now ≡ Some result }
{
    places[literal]
}
