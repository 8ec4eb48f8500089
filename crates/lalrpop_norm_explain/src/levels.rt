//! The way from a name down to the node of an alternative.
ghost use Rattle.std.specs.Prelude.{◌≡◌, IfOk, option_map};
ghost use Rattle.lalrpop_norm_origins.specs.Origins.{origin_view};
ghost use Rattle.lalrpop_norm_explain.specs.Derivations.{symbols_view};
ghost use Rattle.lalrpop_norm_explain.specs.TracedGrammars.{grammar_of};
ghost use Rattle.lalrpop_norm_explain.specs.Plans.{is_written, is_step, own_plan, own_view, first_step, step_view};
ghost use Rattle.lalrpop_norm_explain.specs.Plans.{lower_of, node_plan, way_view, most_steps, plan_under};

use crate::traced::Traced;
use crate::trees::name_again;
use lalrpop_norm_origins::Origin;
use lalrpop_norm_repr::grammar::repr::Symbol;
use lalrpop_norm_tree_names::names::NonterminalString;
use shared_text::NoMemory;
use std::alloc::Global;

/// The node of an alternative: below steps, the innermost first, at an index of a name, over symbols.
#[derive(Drop)]
pub(crate) struct Way<'a> {
    pub(crate) steps: Vec<(NonterminalString, usize)>,
    pub(crate) name: NonterminalString,
    pub(crate) place: usize,
    pub(crate) symbols: &'a [Symbol],
}

/// Whether an origin is that alternative.
fn is_written(origin: &Origin, wanted: &NonterminalString, number: usize) -> bool
    ensures { result ≡ is_written wanted.now.0 number (origin_view origin.now) }
{
    match origin {
        Origin::Written { rule, alternative } => rule.0 == wanted.0 && *alternative == number,
        _ => false,
    }
}

/// The index and the symbols of the production that has the origin of the alternative.
fn own_production<'a>(
    traced: &'a Traced,
    name: &NonterminalString,
    rule: &NonterminalString,
    alternative: usize,
) -> Option<(usize, &'a [Symbol])>
    ensures { option_map (own_view name.now.0) result ≡ own_plan name.now.0 rule.now.0 alternative 0 (grammar_of traced.now name.now.0) }
{
    let productions = traced.productions(name);
    for (place, production) in productions.iter().enumerate() {
        if is_written(traced.origin_of(production), rule, alternative) {
            return Some((place, production.symbols.as_slice()));
        }
    }
    None
}

/// The index of the step of a name, and the name below it.
fn step_of<'a>(
    traced: &'a Traced,
    name: &NonterminalString,
) -> Option<(usize, &'a NonterminalString)>
    ensures { option_map step_view result ≡ first_step 0 (grammar_of traced.now name.now.0) }
{
    let productions = traced.productions(name);
    for (place, production) in productions.iter().enumerate() {
        if let Some(lower) = lower_name(&production.symbols, traced.origin_of(production)) {
            return Some((place, lower));
        }
    }
    None
}

/// The name that a step leads to, if it is one.
fn lower_name<'a>(symbols: &'a [Symbol], origin: &Origin) -> Option<&'a NonterminalString>
    ensures { option_map (λ n. n.now.0) result ≡ lower_of (is_step (origin_view origin.now)) (symbols_view symbols.now) }
{
    match (origin, symbols) {
        (Origin::LevelStep, [Symbol::Nonterminal(lower)]) => Some(lower),
        _ => None,
    }
}

/// The way to an alternative, if it leads over no more steps than that.
fn way_within<'a>(
    alloc: Global,
    traced: &'a Traced,
    name: &NonterminalString,
    rule: &NonterminalString,
    alternative: usize,
    steps: u32,
) -> Result<Option<Way<'a>>, NoMemory>
    ensures { IfOk result (λ w. option_map way_view w ≡ node_plan (grammar_of traced.now) steps name.now.0 rule.now.0 alternative) }
{
    if let Some((place, symbols)) = own_production(traced, name, rule, alternative) {
        return Ok(Some(Way {
            steps: Vec::new(alloc),
            name: name_again(name),
            place,
            symbols,
        }));
    }
    if steps == 0 {
        return Ok(None);
    }
    match step_of(traced, name) {
        None => Ok(None),
        Some((place, lower)) => {
            let way = way_within(alloc, traced, lower, rule, alternative, steps - 1)?;
            Ok(stepped(way, name, place)?)
        }
    }
}

/// The way below a step.
fn stepped<'a>(
    way: Option<Way<'a>>,
    name: &NonterminalString,
    place: usize,
) -> Result<Option<Way<'a>>, NoMemory>
    ensures { IfOk result (λ w. option_map way_view w ≡ plan_under name.now.0 place (option_map way_view way.entry)) }
{
    match way {
        None => Ok(None),
        Some(mut way) => {
            way.steps.push((name_again(name), place))?;
            Ok(Some(way))
        }
    }
}

/// More steps than that no rule has: levels are numbers of 32 bits.
#[tactic(auto, unfolding(crate::specs::Plans::most_steps))]
fn most_steps() -> u32
    ensures { result ≡ most_steps }
{
    u32::MAX
}

/// The way to an alternative.
pub(crate) fn way_to<'a>(
    alloc: Global,
    traced: &'a Traced,
    name: &NonterminalString,
    rule: &NonterminalString,
    alternative: usize,
) -> Result<Option<Way<'a>>, NoMemory>
    ensures { IfOk result (λ w. option_map way_view w ≡ node_plan (grammar_of traced.now) most_steps name.now.0 rule.now.0 alternative) }
{
    way_within(alloc, traced, name, rule, alternative, most_steps())
}
