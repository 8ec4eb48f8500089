//! Names in rules.
ghost use Rattle.std.specs.Prelude.{◌≡◌, ℕ, List, [], ◌∷◌, IfOk, OnOk, map, flat_map, is_some};
ghost use Rattle.std.specs.BTreeSet.{contains};
ghost use Rattle.std.specs.Ordering.{nat_cmp};
ghost use Rattle.std.specs.Cmp.Lexicographic.{slice_cmp};
ghost use Rattle.lalrpop_norm_tree.specs.Items.{alternative_view, rule_view};
ghost use Rattle.lalrpop_norm_faults.specs.Faults.{IsFirst, Refuses, RefusesOr};
ghost use Rattle.lalrpop_norm_model.specs.Scopes.{is_argument, resolved_alternative};
ghost use Rattle.lalrpop_norm_resolve.specs.NameFaults.{has_repeated_argument, repeated_argument_faults, tested_faults};
ghost use Rattle.lalrpop_norm_resolve.specs.NameFaults.{condition_faults, alternative_name_faults};
ghost use Rattle.lalrpop_norm_resolve.specs.NameTables.{sense_seen, sense_in, rule_faults_in, resolved_rule_in};

use super::symbols::{def, resolve_each, unknown};
use super::{Def, GlobalTable};
use lalrpop_norm_faults::{FaultKind, NormFailure, NormResult, refusal};
use lalrpop_norm_tree::grammar::parse_tree::{
    Alternative, Atom, Condition, NoMemory, NonterminalData, NonterminalString, Span,
};
use std::alloc::Global;
use std::collections::BTreeSet;

/// The names of arguments, and the first argument that is named again.
fn read_arguments(
    alloc: Global,
    args: &[NonterminalString],
) -> Result<(BTreeSet<Atom>, Option<&NonterminalString>), NoMemory>
    ensures names { IfOk result (λ r. (name : List ℕ) → contains (slice_cmp nat_cmp) r.0 name ≡ is_argument args.now name) }
    ensures again { IfOk result (λ r. is_some r.1 ≡ has_repeated_argument args.now) }
{
    let mut names = BTreeSet::new(alloc);
    let mut again = None;
    for i in (0..args.len()).rev() {
        if !names.insert(args[i].0.again())? {
            again = Some(&args[i]);
        }
    }
    Ok((names, again))
}

/// The names of a rule's arguments, which no two have alike.
fn names_of(alloc: Global, span: Span, args: &[NonterminalString]) -> NormResult<BTreeSet<Atom>>
    ensures { RefusesOr result (repeated_argument_faults span args.now)
        (λ names. (name : List ℕ) → contains (slice_cmp nat_cmp) names name ≡ is_argument args.now name) }
{
    let (names, again) = read_arguments(alloc, args)?;
    match again {
        Some(arg) => Err(refusal(
            FaultKind::ArgumentTwice,
            span,
            format!(in alloc; "two arguments of this macro are named `{arg}`: rename one of them"),
        )),
        None => Ok(names),
    }
}

fn tests_other(alloc: Global, span: Span, name: &Atom, def: Def) -> NormFailure
    ensures { IsFirst ((FaultKind.ConditionOnOther, span) ∷ []) result }
{
    let what = def.description();
    refusal(
        FaultKind::ConditionOnOther,
        span,
        format!(in alloc;
            "a condition can only test an argument of its macro, and `{name}` is a {what}: name an argument"
        ),
    )
}

#[tactic(auto, unfolding(crate::specs::NameFaults::tested_faults))]
fn check_tested(alloc: Global, span: Span, name: &Atom, def: Option<Def>) -> NormResult<()>
    ensures { Refuses result (tested_faults span (sense_seen def)) }
{
    match def {
        Some(Def::MacroArg) => Ok(()),
        Some(other) => Err(tests_other(alloc, span, name, other)),
        None => Err(unknown(alloc, span, name)),
    }
}

fn check_condition(
    alloc: Global,
    globals: &GlobalTable,
    args: &BTreeSet<Atom>,
    condition: &Option<Condition>,
) -> NormResult<()>
    ensures { Refuses result (condition_faults (sense_in globals.now args.now) condition.now) }
{
    match condition {
        Some(condition) => {
            let name = &condition.lhs.0;
            check_tested(alloc, condition.span, name, def(globals, args, name))
        }
        None => Ok(()),
    }
}

#[tactic(auto, unfolding(crate::specs::NameFaults::alternative_name_faults))]
fn resolve_alternative(
    alloc: Global,
    globals: &GlobalTable,
    args: &BTreeSet<Atom>,
    alternative: &mut Alternative,
) -> NormResult<()>
    ensures refuses { Refuses result (alternative_name_faults (sense_in globals.now args.now) (alternative_view alternative.old)) }
    ensures resolves { OnOk result (alternative_view alternative.new
        ≡ resolved_alternative (sense_in globals.now args.now) (alternative_view alternative.old)) }
{
    check_condition(alloc, globals, args, &alternative.condition)?;
    resolve_each(alloc, globals, args, &mut alternative.expr.symbols)?;
    Ok(())
}

fn resolve_alternatives(
    alloc: Global,
    globals: &GlobalTable,
    args: &BTreeSet<Atom>,
    alternatives: &mut [Alternative],
) -> NormResult<()>
    ensures refuses { Refuses result
        (flat_map (alternative_name_faults (sense_in globals.now args.now)) (map alternative_view alternatives.old)) }
    ensures resolves { OnOk result (map alternative_view alternatives.new
        ≡ map (resolved_alternative (sense_in globals.now args.now)) (map alternative_view alternatives.old)) }
{
    for alternative in alternatives.iter_mut() {
        resolve_alternative(alloc, globals, args, alternative)?;
    }
    Ok(())
}

pub(crate) fn resolve_rule(
    alloc: Global,
    globals: &GlobalTable,
    rule: &mut NonterminalData,
) -> NormResult<()>
    ensures refuses { Refuses result (rule_faults_in globals.now (rule_view rule.old)) }
    ensures resolves { OnOk result (rule_view rule.new ≡ resolved_rule_in globals.now (rule_view rule.old)) }
{
    let args = names_of(alloc, rule.span, &rule.args)?;
    resolve_alternatives(alloc, globals, &args, &mut rule.alternatives)?;
    Ok(())
}
