//! Rounds in which rules take their types.
ghost use Rattle.std.specs.Prelude.{◌≡◌, ◌<◌, [], ◌∷◌, ℕ, List, None, IfOk, OnOk, is_some, length, map, option_map};
ghost use Rattle.lalrpop_norm_theory.specs.Rounds.{IsDistinct};
ghost use Rattle.lalrpop_norm_shared_types.specs.Shared.{shared_view};
ghost use Rattle.lalrpop_norm_tyinfer_steps.specs.Clauses.{clauses_view, first_in};
ghost use Rattle.lalrpop_norm_tyinfer_steps.specs.Needs.{names_seen};
ghost use Rattle.lalrpop_norm_tyinfer_steps.specs.Numbered.{numbered_table, HasSameNumbers, IsNumberOf, NumbersRules};
ghost use Rattle.lalrpop_norm_tyinfer_steps.specs.Stops.{IsStops, typed_at};
ghost use Rattle.lalrpop_norm_tyinfer_steps.specs.TableValues.{type_by_name};
ghost use Rattle.lalrpop_norm_tyinfer_steps.specs.Visits.{rule_seen, EndsRounds, Passes};
ghost use Rattle.lalrpop_norm_tyinfer_steps.specs.Waiting.{VisitsOne, Wakes};
ghost use Rattle.lalrpop_norm_tyinfer.specs.Rounds.{rules_seen, IsBetween};

use crate::tyinfer::clause_values::first_value;
use crate::tyinfer::meanings::type_meant_at;
use lalrpop_norm_shared_types::shared::SharedType;
use lalrpop_norm_tree::grammar::parse_tree::{NoMemory, TypeParameter};
use lalrpop_norm_tyinfer_steps::needs::needs_of;
use lalrpop_norm_tyinfer_steps::numbered::Numbered;
use lalrpop_norm_tyinfer_steps::rules::PlainRule;
use lalrpop_norm_tyinfer_steps::stops::Stops;
use lalrpop_norm_tyinfer_steps::type_sources::RuleClauses;
use lalrpop_norm_tyinfer_steps::waiting::Waiting;
use std::alloc::Global;

/// What the rounds read: the rules in order, and the type parameters of the grammar.
#[derive(Clone, Copy)]
struct Inference<'r> {
    alloc: Global,
    parameters: &'r [TypeParameter],
    rules: &'r [PlainRule<'r>],
}

/// Puts some indices on the worklists: those behind the index on that of this round, the others on that of the next one.
fn wake(
    places: &[usize],
    place: usize,
    now: &mut Waiting,
    next: &mut Waiting,
) -> Result<(), NoMemory>
    ensures { OnOk result (Wakes places.now place now.old now.new next.old next.new) }
{
    for other in places {
        wake_one(*other, place, now, next)?;
    }
    Ok(())
}

fn wake_one(
    other: usize,
    place: usize,
    now: &mut Waiting,
    next: &mut Waiting,
) -> Result<(), NoMemory>
    ensures { OnOk result (Wakes (other ∷ []) place now.old now.new next.old next.new) }
{
    if place < other {
        return now.add(other);
    }
    next.add(other)
}

/// The type that a rule's clauses make by the table, of the first clause that makes one. Where the rule declares the name that is
/// the type of the rule at that index, this is one more owner of that type.
fn shared_value(
    inference: &Inference,
    types: &Numbered,
    clauses: &RuleClauses,
    last: Option<usize>,
) -> Result<Option<SharedType>, NoMemory>
    ensures { IfOk result (λ o. option_map shared_view o
        ≡ first_in inference.now.parameters.now (numbered_table types.now) (clauses_view clauses.now)) }
{
    if let RuleClauses::Declared(written) = clauses {
        if let Some(ty) = type_meant_at(types, written, last) {
            return Ok(Some(ty.clone()?));
        }
    }
    first_value(inference.alloc, inference.parameters, types, clauses)
}

/// Visits the rule at an index: one without a type takes that of its first clause that makes one. The rules of the clauses that
/// have all types by that; none where it takes none. A rule that declares the name that is the type of the rule at the last index
/// shares that type.
fn step(
    inference: &Inference,
    types: &mut Numbered,
    stops: &mut Stops,
    rule: &PlainRule,
    place: usize,
    last: Option<usize>,
) -> Result<Vec<usize>, NoMemory>
    requires sound { IsStops stops.old }
    requires within { place < length stops.old.typed.items }
    requires number { IsNumberOf types.old rule.now.data.now.name.0 place }
    requires told { typed_at stops.old place ≡ is_some (type_by_name (numbered_table types.old) rule.now.data.now.name.0) }
    ensures visits { IfOk result (λ ready. VisitsOne inference.now.parameters.now
        (numbered_table types.old) (numbered_table types.new) (rule_seen rule.now) place stops.old stops.new ready.items) }
    ensures numbers { IfOk result (λ ready. HasSameNumbers types.old types.new) }
{
    let alloc = inference.alloc;
    if stops.is_typed(place) {
        return Ok(Vec::new(alloc));
    }
    match shared_value(inference, types, &rule.clauses, last)? {
        Some(ty) => {
            types.put(place, ty);
            stops.give_type(alloc, place)
        }
        None => Ok(Vec::new(alloc)),
    }
}

/// A round over the rules in order, of which only those at some indices may take a type. It answers the worklist of the next
/// round.
fn round(
    inference: &Inference,
    types: &mut Numbered,
    stops: &mut Stops,
    now: &mut Waiting,
) -> Result<Waiting, NoMemory>
    requires { IsBetween inference.now types.old stops.old now.old }
    ensures between { IfOk result (λ next. IsBetween inference.now types.new stops.new next) }
    ensures passes { IfOk result (λ next. Passes inference.now.parameters.now
        (numbered_table types.old) (numbered_table types.new) (rules_seen inference.now)) }
{
    let rules = inference.rules;
    let mut next = Waiting::new(inference.alloc);
    // No code reads it: the invariant and the measure of the loop speak of it.
    let mut from = 0;
    // The last rule here that declares its type.
    let mut last = None;
    while let Some(place) = now.take_least() {
        let rule = &rules[place];
        let ready = step(inference, types, stops, rule, place, last)?;
        wake(&ready, place, now, &mut next)?;
        from = place + 1;
        if let RuleClauses::Declared(_) = &rule.clauses {
            last = Some(place);
        }
    }
    Ok(next)
}

/// Rounds until the worklist is empty. As many rounds as there are rules are enough.
fn rounds_from(
    inference: &Inference,
    types: &mut Numbered,
    stops: &mut Stops,
    mut now: Waiting,
) -> Result<(), NoMemory>
    requires { IsBetween inference.now types.old stops.old now }
    ensures numbered { OnOk result (NumbersRules types.new (rules_seen inference.now)) }
    ensures ends { OnOk result (EndsRounds inference.now.parameters.now
        (numbered_table types.old) (numbered_table types.new) (rules_seen inference.now) (length inference.now.rules.now)) }
{
    // No code reads `count`: the invariant speaks of it.
    for count in 0..inference.rules.len() {
        now = round(inference, types, stops, &mut now)?;
        if now.is_empty() {
            return Ok(());
        }
    }
    Ok(())
}

/// The rounds of rules of a table in which no name has a type yet.
pub(crate) fn run_rounds(
    alloc: Global,
    parameters: &[TypeParameter],
    types: &mut Numbered,
    rules: &[PlainRule],
) -> Result<(), NoMemory>
    requires distinct { IsDistinct (names_seen (map rule_seen rules.now)) }
    requires numbered { NumbersRules types.old (map rule_seen rules.now) }
    requires untyped { (n : List ℕ) → type_by_name (numbered_table types.old) n ≡ None }
    ensures numbered { OnOk result (NumbersRules types.new (map rule_seen rules.now)) }
    ensures ends { OnOk result (EndsRounds parameters.now
        (numbered_table types.old) (numbered_table types.new) (map rule_seen rules.now) (length rules.now)) }
{
    let needs = needs_of(alloc, parameters, &types.names, rules)?;
    let mut stops = Stops::new(alloc, rules.len())?;
    let ready = stops.begin(alloc, &needs)?;
    let first = Waiting::of(alloc, &ready)?;
    let inference = Inference {
        alloc,
        parameters,
        rules,
    };
    rounds_from(&inference, types, &mut stops, first)
}
