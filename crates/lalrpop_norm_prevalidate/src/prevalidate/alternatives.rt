//! Alternatives.
ghost use Rattle.std.specs.Prelude.{◌≡◌, option_map};
ghost use Rattle.lalrpop_norm_tree.specs.Items.{action_view, alternative_view};
ghost use Rattle.lalrpop_norm_tree.specs.Symbols.{kind_view, parts_view};
ghost use Rattle.lalrpop_norm_faults.specs.Faults.{Refuses};
ghost use Rattle.lalrpop_norm_prevalidate.specs.AlternativeFaults.{alternative_faults, place_inside, first_inside};
ghost use Rattle.lalrpop_norm_prevalidate.specs.AlternativeFaults.{action_faults, between_braces_faults};

use super::Surroundings;
use super::symbols::validate_list;
use lalrpop_norm_common::norm_util::check_between_braces;
use lalrpop_norm_faults::{FaultKind, NormResult, refusal};
use lalrpop_norm_prevalidate_attributes::alternatives::validate_attributes;
use lalrpop_norm_tree::grammar::parse_tree::{ActionKind, Alternative, Span, Symbol, SymbolKind};
use std::alloc::Global;

#[tactic(auto, unfolding(crate::specs::AlternativeFaults::alternative_faults))]
pub(super) fn validate_alternative(
    alloc: Global,
    around: Surroundings,
    alternative: &Alternative,
) -> NormResult<()>
    ensures { Refuses result (alternative_faults around (alternative_view alternative.now)) }
{
    validate_list(alloc, around, &alternative.expr.symbols)?;
    validate_attributes(alloc, &alternative.attributes)?;
    let inside = first_inside(&alternative.expr.symbols);
    validate_action(alloc, alternative.span, inside, &alternative.action)?;
    Ok(())
}

fn inside_of(kind: &SymbolKind) -> Option<Span>
    ensures { result ≡ place_inside (kind_view kind.now) }
{
    match kind.as_bound() {
        Some((_, symbol)) => Some(symbol.span),
        None => None,
    }
}

/// The span of the symbol inside the first named or tuple symbol.
fn first_inside(symbols: &[Symbol]) -> Option<Span>
    ensures { result ≡ first_inside (parts_view symbols.now) }
{
    for symbol in symbols {
        if let Some(span) = inside_of(&symbol.kind) {
            return Some(span);
        }
    }
    None
}

fn validate_action(
    alloc: Global,
    span: Span,
    inside: Option<Span>,
    action: &Option<ActionKind>,
) -> NormResult<()>
    ensures { Refuses result (action_faults span inside (option_map action_view action.now)) }
{
    match action {
        None => match inside {
            Some(first) => Err(refusal(
                FaultKind::NamedWithoutAction,
                first,
                format!(in alloc;
                    "a value has a name, and no code uses it: add code, or leave out the name"
                ),
            )),
            None => Ok(()),
        },
        Some(ActionKind::User(code)) => validate_code(alloc, span, inside, code.as_str()),
        Some(ActionKind::Fallible(code)) => validate_code(alloc, span, inside, code.as_str()),
        Some(ActionKind::Lookahead) | Some(ActionKind::Lookbehind) => Err(refusal(
            FaultKind::WrittenLookaround,
            span,
            format!(in alloc; "the action of a lookaround can't be written: use `@L` or `@R`"),
        )),
    }
}

fn validate_code(alloc: Global, span: Span, inside: Option<Span>, code: &str) -> NormResult<()>
    ensures { Refuses result (between_braces_faults span inside code.now) }
{
    if inside.is_none() && check_between_braces(code).is_in_curly_brackets() {
        return Err(refusal(
            FaultKind::AnonymousInBraces,
            span,
            format!(in alloc;
                "`<>` between braces stands for the names of symbols, and none has a name: write `<x:..>`"
            ),
        ));
    }
    Ok(())
}
