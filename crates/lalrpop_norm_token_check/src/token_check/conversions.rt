//! An extern enum: its conversions, and that each terminal used has one.
ghost use Rattle.std.specs.Prelude.{◌≡◌, [], OnOk, map, flat_map, not};
ghost use Rattle.lalrpop_norm_tree.specs.Items.{conversion_view, enum_token_view};
ghost use Rattle.lalrpop_norm_faults.specs.Faults.{Refuses, RefusesOr, fault_if};
ghost use Rattle.lalrpop_norm_model.specs.Terminals.{terminal_cmp};
ghost use Rattle.lalrpop_norm_model.specs.Expanded.{terminals_converted};
ghost use Rattle.lalrpop_norm_model.specs.TokenFaults.{each_after, repeated_conversion_faults, has_conversion};
ghost use Rattle.lalrpop_norm_token_check.specs.Converted.{twice_from, converted_faults};
ghost use Rattle.lalrpop_norm_token_check.specs.Keys.{with_keys, terminal_in};
ghost use Rattle.lalrpop_norm_token_check.specs.Uses.{uses_left};

use super::found::add_name;
use super::uses::Uses;
use lalrpop_norm_faults::{FaultKind, NormResult, refusal};
use lalrpop_norm_tree::grammar::parse_tree::{Conversion, EnumToken, Span, TerminalString};
use std::alloc::Global;
use std::collections::BTreeSet;

/// Rejects two conversions of one terminal, and a terminal that is used and has none.
pub(super) fn check_enum(alloc: Global, tokens: &EnumToken, uses: Uses<'_>) -> NormResult<()>
    ensures { Refuses result (converted_faults (enum_token_view tokens.now) (uses_left uses.entry)) }
{
    let converted = terminals_of(alloc, &tokens.conversions)?;
    check_uses(alloc, &converted, uses)
}

/// The terminals of the conversions.
fn terminals_of(alloc: Global, conversions: &[Conversion]) -> NormResult<BTreeSet<TerminalString>>
    ensures { RefusesOr result (each_after repeated_conversion_faults [] (map conversion_view conversions.now))
        (λ s. terminal_in s.keys ≡ has_conversion (map conversion_view conversions.now)) }
{
    let mut converted = BTreeSet::new(alloc);
    add_conversions(alloc, &mut converted, conversions)?;
    Ok(converted)
}

fn add_conversions(
    alloc: Global,
    converted: &mut BTreeSet<TerminalString>,
    conversions: &[Conversion],
) -> NormResult<()>
    ensures refuses { Refuses result (twice_from converted.old.keys (map conversion_view conversions.now)) }
    ensures adds { OnOk result (converted.new.keys
        ≡ with_keys terminal_cmp converted.old.keys (terminals_converted (map conversion_view conversions.now))) }
{
    for conversion in conversions {
        add_name(alloc, converted, &conversion.from, conversion.span)?;
    }
    Ok(())
}

fn check_uses(alloc: Global, converted: &BTreeSet<TerminalString>, uses: Uses<'_>) -> NormResult<()>
    ensures { Refuses result
        (flat_map (λ p. fault_if (not (terminal_in converted.now.keys p.0)) (FaultKind.NoPattern, p.1)) (uses_left uses.entry)) }
{
    for (terminal, span) in uses {
        check_use(alloc, converted, terminal, span)?;
    }
    Ok(())
}

fn check_use(
    alloc: Global,
    converted: &BTreeSet<TerminalString>,
    terminal: &TerminalString,
    span: Span,
) -> NormResult<()>
    ensures { Refuses result (fault_if (not (terminal_in converted.now.keys terminal.now)) (FaultKind.NoPattern, span)) }
{
    if converted.contains(terminal) {
        Ok(())
    } else {
        Err(refusal(
            FaultKind::NoPattern,
            span,
            format!(in alloc;
                "the terminal `{terminal}` has no conversion in the extern enum: add one"
            ),
        ))
    }
}
