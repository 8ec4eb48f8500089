//! What lowering rejects, one by one.
ghost use Rattle.std.specs.Prelude.{◌≡◌, ◌<◌, [], ◌∷◌, IfOk, OnOk, map};
ghost use Rattle.lalrpop_norm_faults.specs.Faults.{fault_if, IsFirst, Refuses};
ghost use Rattle.lalrpop_norm_faults.specs.declared.kind.FaultKind.TheVariants.{StartTaken, TooManyActions};
ghost use Rattle.lalrpop_norm_tree.specs.Symbols.{symbol_view};
ghost use Rattle.lalrpop_norm_model.specs.LoweringFaults.{action_number_faults, span_over};
ghost use Rattle.lalrpop_norm_lower_steps.specs.Counts.{count_faults, end_of};

use lalrpop_norm_faults::{FaultKind, NormFailure, NormResult, refusal};
use lalrpop_norm_repr::grammar::repr::ActionFn;
use lalrpop_norm_tree::grammar::parse_tree::{NonterminalData, NonterminalString, Span, Symbol};
use std::alloc::Global;

/// One more than the greatest number of an action.
const ACTIONS: usize = 4294967296;

/// Rejects a number of `<>` that is not that of the sources.
pub fn check_count(
    alloc: Global,
    span: Span,
    count: usize,
    sources: &[(usize, &Symbol)],
) -> NormResult<()>
    ensures { Refuses result (count_faults span count (map (λ t. record { place = t.0; symbol = symbol_view t.1.now }) sources.now)) }
{
    if sources.len() == count {
        return Ok(());
    }
    let values = sources.len();
    Err(refusal(
        FaultKind::Placeholders,
        span_over(span, sources),
        format!(in alloc;
            "the code has {count} `<>`, and the number of values is {values}: write one `<>` for each value, or give the values names"
        ),
    ))
}

/// From the start of the first source to the end of the last one.
fn span_over(all: Span, sources: &[(usize, &Symbol)]) -> Span
    ensures { result ≡ span_over all (map (λ t. record { place = t.0; symbol = symbol_view t.1.now }) sources.now) }
{
    match sources.split_first() {
        None => all,
        Some(((_, first), others)) => Span(first.span.0, end_of(first.span.1, others)),
    }
}

/// The end of the last of the sources, or that end where there is none.
fn end_of(before: usize, sources: &[(usize, &Symbol)]) -> usize
    ensures { result ≡ end_of before (map (λ t. record { place = t.0; symbol = symbol_view t.1.now }) sources.now) }
{
    let mut end = before;
    for (_, symbol) in sources {
        end = symbol.span.1;
    }
    end
}

/// Rejects a public rule whose start symbol would have that name, if the name is taken: it has a type already.
pub fn check_start(
    alloc: Global,
    rule: &NonterminalData,
    name: &NonterminalString,
    taken: bool,
) -> NormResult<()>
    ensures { Refuses result (fault_if taken (StartTaken, rule.now.span)) }
{
    if !taken {
        return Ok(());
    }
    Err(refusal(
        FaultKind::StartTaken,
        rule.span,
        format!(in alloc;
            "the start symbol of this rule would be `{name}`, and a rule has that name: rename that rule"
        ),
    ))
}

/// The number of the next action, where there are `count` of them.
///
/// Errors: F56 (`TooManyActions`) at the given span, where that number would be too great; `Memory`.
pub fn next_action(alloc: Global, count: usize, span: Span) -> NormResult<ActionFn>
    ensures refuses { Refuses result (action_number_faults count span) }
    ensures number { IfOk result (λ a. a ≡ record { 0 = count }) }
    ensures within { OnOk result (count < 4294967296) }
{
    if count < ACTIONS {
        return Ok(ActionFn::new(count));
    }
    Err(too_many_actions(alloc, span))
}

/// The error of an action that would have too great a number: F56 (`TooManyActions`) at its alternative or rule, or `Memory`.
pub fn too_many_actions(alloc: Global, span: Span) -> NormFailure
    ensures { IsFirst ((TooManyActions, span) ∷ []) result }
{
    refusal(
        FaultKind::TooManyActions,
        span,
        format!(in alloc; "the grammar has more than {ACTIONS} actions: make it smaller"),
    )
}
