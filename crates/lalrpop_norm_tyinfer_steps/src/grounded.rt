//! Rules without a derivable type: the least fixpoint of the typing rules has none for them.
ghost use Rattle.std.specs.Prelude.{flat_map, map};
ghost use Rattle.lalrpop_norm_tree.specs.Items.{alternative_view, rule_view};
ghost use Rattle.lalrpop_norm_faults.specs.Faults.{Refuses, IsFirst};
ghost use Rattle.lalrpop_norm_theory.specs.Rounds.{IsDistinct};
ghost use Rattle.lalrpop_norm_model.specs.InferenceFaults.{lack_of};
ghost use Rattle.lalrpop_norm_tyinfer_steps.specs.Needs.{names_seen};
ghost use Rattle.lalrpop_norm_tyinfer_steps.specs.Numbered.{numbered_table, IsNumberOf, NumbersRules};
ghost use Rattle.lalrpop_norm_tyinfer_steps.specs.TableFaults.{lacking_seen, untyped_in};
ghost use Rattle.lalrpop_norm_tyinfer_steps.specs.Visits.{plain_rule_view, rule_seen};

use crate::numbered::Numbered;
use crate::rules::PlainRule;
use crate::type_sources::RuleClauses;
use lalrpop_norm_faults::{FaultKind, NormFailure, NormResult, refusal};
use lalrpop_norm_tree::grammar::parse_tree::{Alternative, NonterminalData};
use std::alloc::Global;

/// Rejects a rule without a declared type that has no alternative, or none that may give one.
pub fn check_clauses(alloc: Global, rules: &[PlainRule]) -> NormResult<()>
    ensures { Refuses result (flat_map lacking_seen (map rule_seen rules.now)) }
{
    for rule in rules {
        check_rule(alloc, rule)?;
    }
    Ok(())
}

fn check_rule(alloc: Global, rule: &PlainRule) -> NormResult<()>
    ensures { Refuses result (lacking_seen (rule_seen rule.now)) }
{
    match &rule.clauses {
        RuleClauses::Declared(_) => Ok(()),
        RuleClauses::Alternatives(clauses) => {
            if !clauses.is_empty() {
                return Ok(());
            }
            Err(lack(alloc, rule.data, &rule.data.alternatives))
        }
    }
}

/// What a rule without a type of its own and these alternatives lacks.
fn lack(alloc: Global, rule: &NonterminalData, alternatives: &[Alternative]) -> NormFailure
    ensures { IsFirst (lack_of (rule_view rule.now) (map alternative_view alternatives.now)) result }
{
    let name = &rule.name;
    match alternatives.first() {
        None => refusal(
            FaultKind::NoAlternatives,
            rule.span,
            format!(in alloc;
                "`{name}` has no alternatives, so nothing gives it a type: declare one, as `{name}: T`"
            ),
        ),
        Some(alternative) => refusal(
            FaultKind::OnlyCoded,
            alternative.span,
            format!(in alloc;
                "all alternatives of `{name}` have code or named symbols, so nothing gives it a type: declare one, as `{name}: T`"
            ),
        ),
    }
}

/// Rejects a rule without a derivable type: one without a type in the table.
pub fn check_typed(alloc: Global, types: &Numbered, rules: &[PlainRule]) -> NormResult<()>
    requires distinct { IsDistinct (names_seen (map rule_seen rules.now)) }
    requires numbered { NumbersRules types.now (map rule_seen rules.now) }
    ensures { Refuses result (flat_map (untyped_in (numbered_table types.now)) (map plain_rule_view rules.now)) }
{
    for (number, rule) in rules.iter().enumerate() {
        check_type(alloc, types, number, rule.data)?;
    }
    Ok(())
}

fn check_type(
    alloc: Global,
    types: &Numbered,
    number: usize,
    rule: &NonterminalData,
) -> NormResult<()>
    requires { IsNumberOf types.now rule.now.name.0 number }
    ensures { Refuses result (untyped_in (numbered_table types.now) (rule_view rule.now)) }
{
    if types.is_typed(number) {
        return Ok(());
    }
    let name = &rule.name;
    Err(refusal(
        FaultKind::NotGrounded,
        rule.span,
        format!(in alloc;
            "the type of `{name}` depends on itself, or on a rule without a type: declare one, as `{name}: T`"
        ),
    ))
}
