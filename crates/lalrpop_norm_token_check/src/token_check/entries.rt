//! The entries of a grammar: those of its match block, and those of the literals that it uses beside it.
ghost use Rattle.std.specs.Prelude.{◌≡◌, ◌<◌, ◌^◌, [], ◌∷◌, IfSome, OnOk, option_map};
ghost use Rattle.lalrpop_norm_tree.specs.Items.{match_token_view};
ghost use Rattle.lalrpop_norm_faults.specs.Faults.{IsFirst, Refuses, RefusesOr, fault_if};
ghost use Rattle.lalrpop_norm_token_check.specs.Found.{found_view, lacks_entry, with_added, with_terminal};
ghost use Rattle.lalrpop_norm_token_check.specs.Found.{uses_faults, with_uses, found_faults, all_found};
ghost use Rattle.lalrpop_norm_token_check.specs.Uses.{uses_left};

use super::found::{Found, add_entry, own_mapping};
use super::matches::add_block;
use super::uses::Uses;
use lalrpop_norm_common::match_block::catch_all_of;
use lalrpop_norm_faults::{FaultKind, NormFailure, NormResult, refusal};
use lalrpop_norm_tree::grammar::parse_tree::{
    MatchToken, NoMemory, Span, TerminalLiteral, TerminalString,
};
use std::alloc::Global;

/// The entries. Rejects a literal or a terminal that the match block has twice, then a terminal used that has no entry.
pub(super) fn entries_of(
    alloc: Global,
    block: Option<&MatchToken>,
    uses: Uses<'_>,
) -> NormResult<Found>
    ensures { RefusesOr result (found_faults (option_map (λ m. match_token_view m.now) block.entry) (uses_left uses.entry))
        (λ f. found_view f ≡ all_found (option_map (λ m. match_token_view m.now) block.entry) (uses_left uses.entry)) }
{
    let mut found = Found::new(alloc);
    add_block(alloc, &mut found, block)?;
    add_uses(alloc, &mut found, catch_all_of(block), uses)?;
    Ok(found)
}

fn add_uses(
    alloc: Global,
    found: &mut Found,
    catch_all: Option<usize>,
    uses: Uses<'_>,
) -> NormResult<()>
    requires { IfSome catch_all (λ p. p < 2 ^ 63) }
    ensures refuses { Refuses result (uses_faults catch_all (found_view found.old) (uses_left uses.entry)) }
    ensures adds { OnOk result (found_view found.new ≡ with_uses catch_all (found_view found.old) (uses_left uses.entry)) }
{
    for (terminal, span) in uses {
        add_use(alloc, found, catch_all, terminal, span)?;
    }
    Ok(())
}

/// Adds the entry of a literal that is not named and is let in. Any other terminal that is not named has none.
fn add_use(
    alloc: Global,
    found: &mut Found,
    catch_all: Option<usize>,
    terminal: &TerminalString,
    span: Span,
) -> NormResult<()>
    requires { IfSome catch_all (λ p. p < 2 ^ 63) }
    ensures refuses { Refuses result
        (fault_if (lacks_entry catch_all (found_view found.old).names terminal.now) (FaultKind.NoMapping, span)) }
    ensures adds { OnOk result (found_view found.new ≡ with_terminal catch_all (found_view found.old) terminal.now span) }
{
    if found.names.contains(terminal) {
        return Ok(());
    }
    match terminal {
        TerminalString::Literal(literal) => match catch_all {
            Some(precedence) => {
                put_literal(found, precedence, literal, span)?;
                Ok(())
            }
            None => Err(no_entry(alloc, terminal, span)),
        },
        TerminalString::Bare(_) => Err(no_entry(alloc, terminal, span)),
        TerminalString::Error => Ok(()),
    }
}

/// Adds a literal that names itself, with its span.
fn put_literal(
    found: &mut Found,
    precedence: usize,
    literal: &TerminalLiteral,
    span: Span,
) -> Result<(), NoMemory>
    requires { precedence < 2 ^ 63 }
    ensures { OnOk result (found_view found.new ≡ with_added precedence (found_view found.old) literal.now span) }
{
    let mapping = own_mapping(literal)?;
    add_entry(&mut found.entries, precedence, literal, &mapping)?;
    found
        .names
        .insert(TerminalString::Literal(literal.clone()?))?;
    found.places.insert(literal.clone()?, span)?;
    Ok(())
}

fn no_entry(alloc: Global, terminal: &TerminalString, span: Span) -> NormFailure
    ensures { IsFirst ((FaultKind.NoMapping, span) ∷ []) result }
{
    refusal(
        FaultKind::NoMapping,
        span,
        format!(in alloc;
            "the terminal `{terminal}` has no entry in the match block: add one, or `_`"
        ),
    )
}
