//! Terminals: each one that is used has a conversion or an entry, and where no extern enum names the tokens a grammar gets a
//! tokenizer.
ghost use Rattle.std.specs.Prelude.{◌≡◌, None, IfOk, MatchResult, option_map};
ghost use Rattle.lalrpop_norm_tree.specs.Items.{GrammarData, grammar_view, intern_token_view};
ghost use Rattle.lalrpop_norm_faults.specs.Faults.{RefusesAmong, RefusesAmongOr};
ghost use Rattle.std.specs.List.Sorted.{IsStrictlySortedBy};
ghost use Rattle.lalrpop_norm_model.specs.CheckedTokens.{IsChecked};
ghost use Rattle.lalrpop_norm_model.specs.Entries.{entry_cmp};
ghost use Rattle.lalrpop_norm_model.specs.LexerFaults.{StandsAtLexer, token_findings, token_findings_with};
ghost use Rattle.lalrpop_norm_model.specs.TerminalTypes.{extern_enum};
ghost use Rattle.lalrpop_norm_token_check.specs.Checked.{ArePlaced, AreTokensOf, GetsTokens, HasFound, IsLexerRefusal};
ghost use Rattle.lalrpop_norm_token_check.specs.Found.{found_view, IsOrdered};

mod automaton;
mod conversions;
mod entries;
mod found;
mod input;
mod matches;
mod uses;

use automaton::automaton_of;
use conversions::check_enum;
use entries::entries_of;
use found::Found;
use input::{check_input, with_tokens};
use lalrpop_norm_faults::NormResult;
use lalrpop_norm_lexer::lexer::Lexer;
use lalrpop_norm_tree::grammar::parse_tree::{Grammar, InternToken, MatchEntry, NoMemory};
use std::alloc::Global;
use std::collections::BTreeSet;
use uses::Uses;

/// The grammar with its tokens: beside an extern enum it stays as it is, else it gets its entries with their automaton, which
/// the lexer builds, as its last item, the lifetime `'input` as its first type parameter and `input` as its last parameter.
///
/// Errors, of several the first in this order. With an extern enum: F39 (`TerminalTwice`) at a conversion whose terminal an
/// earlier one has; F41 (`NoPattern`) at a symbol whose terminal has no conversion. Without one: at a match item F38
/// (`LiteralTwice`) or F39, where an earlier one has its literal or its terminal; F40 (`NoMapping`) at a symbol whose terminal
/// has no entry; F42 (`BadRegex`), F43 (`RegexFeature`) or F44 (`Ambiguity`) at a literal that the lexer rejects; F45
/// (`InputLifetime`) or F46 (`InputParameter`) where the grammar declares these names. `Memory`.
pub fn validate<L: Lexer>(alloc: Global, lexer: &L, grammar: Grammar) -> NormResult<Grammar>
    ensures refuses { RefusesAmong (StandsAtLexer (L.relations lexer.now) (grammar_view grammar)) result
        (token_findings (grammar_view grammar)) }
    ensures checked { IfOk result (λ h. IsChecked (L.relations lexer.now) (grammar_view grammar) (grammar_view h)) }
{
    match tokens_of(alloc, lexer, &grammar)? {
        Some(tokens) => Ok(with_tokens(alloc, grammar, tokens)?),
        None => Ok(grammar),
    }
}

/// The internal tokens that a grammar gets: none beside an extern enum.
fn tokens_of<L: Lexer>(
    alloc: Global,
    lexer: &L,
    grammar: &Grammar,
) -> NormResult<Option<InternToken>>
    ensures { RefusesAmongOr (StandsAtLexer (L.relations lexer.now) (grammar_view grammar.now)) result
        (token_findings (grammar_view grammar.now))
        (λ t. GetsTokens (extern_enum (grammar_view grammar.now)) (L.relations lexer.now) (grammar_view grammar.now)
        (option_map intern_token_view t)) }
{
    match grammar.enum_token() {
        Some(tokens) => {
            check_enum(alloc, tokens, Uses::of(grammar))?;
            Ok(None)
        }
        None => Ok(Some(internal_tokens(alloc, lexer, grammar)?)),
    }
}

/// The internal tokens of a grammar without an extern enum.
fn internal_tokens<L: Lexer>(alloc: Global, lexer: &L, grammar: &Grammar) -> NormResult<InternToken>
    ensures { RefusesAmongOr (StandsAtLexer (L.relations lexer.now) (grammar_view grammar.now)) result
        (token_findings_with None (grammar_view grammar.now))
        (λ t. AreTokensOf (L.relations lexer.now) (grammar_view grammar.now) (intern_token_view t)) }
{
    let found = entries_of(alloc, grammar.match_token(), Uses::of(grammar))?;
    let tokens = tokens_with(alloc, lexer, found)?;
    check_input(alloc, grammar)?;
    Ok(tokens)
}

/// The entries that are found, in their order, with their automaton.
fn tokens_with<L: Lexer>(alloc: Global, lexer: &L, found: Found) -> NormResult<InternToken>
    requires { ArePlaced (found_view found).places (found_view found).entries }
    ensures { (g : GrammarData) → (IsOrdered (found_view found) → HasFound g (found_view found).entries (found_view found).places) →
        MatchResult result (λ t. AreTokensOf (L.relations lexer.now) g (intern_token_view t)) (IsLexerRefusal (L.relations lexer.now) g) }
{
    let Found {
        entries,
        names: _names,
        places,
    } = found;
    let match_entries = in_order(alloc, entries)?;
    let dfa = automaton_of(alloc, lexer, &match_entries, &places)?;
    Ok(InternToken { match_entries, dfa })
}

fn in_order(alloc: Global, entries: BTreeSet<MatchEntry>) -> Result<Vec<MatchEntry>, NoMemory>
    ensures entries { IfOk result (λ es. es.items ≡ entries.keys) }
    ensures rising { IfOk result (λ es. IsStrictlySortedBy entry_cmp es.items) }
{
    let mut ordered = Vec::with_capacity(alloc, entries.len())?;
    for entry in entries {
        ordered.push(entry)?;
    }
    Ok(ordered)
}
