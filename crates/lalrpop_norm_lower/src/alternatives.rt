//! The productions of alternatives: each has the number of its action.
ghost use Rattle.std.specs.Prelude.{◌≡◌, ◌<◌, ◌+◌, ◌++◌, [], ◌∷◌, length, IfOk, OnOk, map};
ghost use Rattle.lalrpop_norm_faults.specs.Faults.{Refuses};
ghost use Rattle.lalrpop_norm_tree.specs.Items.{alternative_view};
ghost use Rattle.lalrpop_norm_tree.specs.Symbols.{expr_view};
ghost use Rattle.lalrpop_norm_model.specs.LoweringFaults.{code_faults, action_number_faults};
ghost use Rattle.lalrpop_norm_repr.specs.Productions.{production_view};
ghost use Rattle.lalrpop_norm_lower.specs.Lowering.{lowered_symbols, production_with, production_of, productions_from};
ghost use Rattle.lalrpop_norm_lower.specs.Made.{alternatives_faults};

use crate::placeholders::check_code;
use crate::symbols::lowered_symbols;
use lalrpop_norm_faults::NormResult;
use lalrpop_norm_lower_steps::refusals::next_action;
use lalrpop_norm_repr::grammar::repr::{ActionFn, Production, Symbol};
use lalrpop_norm_tree::grammar::parse_tree::{Alternative, NoMemory, NonterminalString, Span};
use std::alloc::Global;

/// The production of an alternative. Its action has that number, and the number becomes that of the next action.
pub(crate) fn lower_alternative(
    alloc: Global,
    number: &mut usize,
    name: &NonterminalString,
    alternative: &Alternative,
) -> NormResult<Production>
    ensures refuses { Refuses result (code_faults (alternative_view alternative.now)
        ++ action_number_faults number.old alternative.now.span) }
    ensures lowered { IfOk result (λ p.
        production_view p ≡ production_of name.now number.old (alternative_view alternative.now)) }
    ensures count { OnOk result (number.new ≡ number.old + 1) }
{
    let action = action_of(alloc, *number, alternative)?;
    *number += 1;
    let symbols = lowered_symbols(alloc, &alternative.expr.symbols)?;
    Ok(production_with(name, symbols, action, alternative.span)?)
}

/// The action of an alternative: it has that number.
fn action_of(alloc: Global, number: usize, alternative: &Alternative) -> NormResult<ActionFn>
    ensures refuses { Refuses result (code_faults (alternative_view alternative.now)
        ++ action_number_faults number alternative.now.span) }
    ensures number { IfOk result (λ a. a ≡ record { 0 = number }) }
    ensures within { OnOk result (number < 4294967296) }
{
    check_code(alloc, alternative)?;
    next_action(alloc, number, alternative.span)
}

/// The production of these parts.
fn production_with(
    name: &NonterminalString,
    symbols: Vec<Symbol>,
    action: ActionFn,
    span: Span,
) -> Result<Production, NoMemory>
    ensures { IfOk result (λ p. production_view p ≡ production_with name.now symbols.items action span) }
{
    Ok(Production {
        nonterminal: name.clone()?,
        symbols,
        action,
        span,
    })
}

/// The productions of a rule's alternatives, in order. Each alternative is dropped once it is lowered, so what is made of the
/// later ones finds its room.
pub(crate) fn lower_alternatives(
    alloc: Global,
    number: &mut usize,
    name: &NonterminalString,
    alternatives: Vec<Alternative>,
) -> NormResult<Vec<Production>>
    ensures refuses { Refuses result (alternatives_faults number.old (map alternative_view alternatives.items)) }
    ensures lowered { IfOk result (λ ps. map production_view ps.items
        ≡ productions_from name.now number.old (map alternative_view alternatives.items)) }
    ensures count { OnOk result (number.new ≡ number.old + length (map alternative_view alternatives.items)) }
{
    let mut productions = Vec::with_capacity(alloc, alternatives.len())?;
    for alternative in alternatives {
        add_lowered(alloc, number, name, &alternative, &mut productions)?;
    }
    Ok(productions)
}

/// Adds the production of an alternative.
fn add_lowered(
    alloc: Global,
    number: &mut usize,
    name: &NonterminalString,
    alternative: &Alternative,
    productions: &mut Vec<Production>,
) -> NormResult<()>
    ensures refuses { Refuses result (code_faults (alternative_view alternative.now)
        ++ action_number_faults number.old alternative.now.span) }
    ensures lowered { OnOk result (map production_view productions.new.items
        ≡ map production_view productions.old.items
        ++ production_of name.now number.old (alternative_view alternative.now) ∷ []) }
    ensures count { OnOk result (number.new ≡ number.old + 1) }
{
    let production = lower_alternative(alloc, number, name, alternative)?;
    Ok(productions.push(production)?)
}
