//! Alternatives that give another type than their rule has.
ghost use Rattle.std.specs.Prelude.{◌≡◌, List, flat_map, map, option_map};
ghost use Rattle.lalrpop_norm_tree_names.specs.declared.names.TypeParameter.{TypeParameter};
ghost use Rattle.lalrpop_norm_tree.specs.Items.{alternative_view};
ghost use Rattle.lalrpop_norm_faults.specs.Faults.{Refuses, fault_if};
ghost use Rattle.lalrpop_norm_faults.specs.declared.kind.FaultKind.TheVariants.{Disagreement};
ghost use Rattle.lalrpop_norm_model.specs.InferenceFaults.{is_other};
ghost use Rattle.lalrpop_norm_repr.specs.Tables.{type_of};
ghost use Rattle.lalrpop_norm_shared_types.specs.Shared.{shared_view};
ghost use Rattle.lalrpop_norm_tyinfer_steps.specs.Numbered.{numbered_table};
ghost use Rattle.lalrpop_norm_tyinfer_steps.specs.TableFaults.{other_in, others_in, AgreesAlone, AgreeAlone};
ghost use Rattle.lalrpop_norm_tyinfer_steps.specs.Visits.{plain_rule_view, rule_seen};

use crate::tyinfer::clause_values::clause_value;
use lalrpop_norm_faults::{FaultKind, NormResult, refusal};
use lalrpop_norm_shared_types::shared::SharedType;
use lalrpop_norm_tree::grammar::parse_tree::{Alternative, NonterminalString, Span};
use lalrpop_norm_tyinfer_steps::numbered::Numbered;
use lalrpop_norm_tyinfer_steps::rules::PlainRule;
use lalrpop_norm_tyinfer_steps::same::is_same_type;
use lalrpop_norm_tyinfer_steps::type_sources::{RuleClauses, alternative_clause};
use std::alloc::Global;

/// Rejects an alternative of a rule without a declared type if it gives another type than the rule has, under any type
/// parameters. If a rule has only one clause, the type that this makes is the rule's (`AgreeAlone`).
pub(crate) fn check_agreement(
    alloc: Global,
    types: &Numbered,
    rules: &[PlainRule],
) -> NormResult<()>
    ensures { (ps : List TypeParameter) → AgreeAlone ps (numbered_table types.now) (map rule_seen rules.now) →
        Refuses result (flat_map (others_in ps (numbered_table types.now)) (map plain_rule_view rules.now)) }
{
    for rule in rules {
        check_rule(alloc, types, rule)?;
    }
    Ok(())
}

fn check_rule(alloc: Global, types: &Numbered, rule: &PlainRule) -> NormResult<()>
    ensures { (ps : List TypeParameter) → AgreesAlone ps (numbered_table types.now) (rule_seen rule.now) →
        Refuses result (others_in ps (numbered_table types.now) (plain_rule_view rule.now)) }
{
    // A rule that declares its type is passed without a look at it.
    match &rule.clauses {
        RuleClauses::Declared(_) => Ok(()),
        RuleClauses::Alternatives(clauses) => {
            // A rule with one clause has its type by this clause.
            if clauses.len() < 2 {
                return Ok(());
            }
            let own = types.lookup_nonterminal_type(&rule.data.name);
            check_alternatives(alloc, types, &rule.data.name, own, &rule.data.alternatives)
        }
    }
}

fn check_alternatives(
    alloc: Global,
    types: &Numbered,
    name: &NonterminalString,
    own: Option<&SharedType>,
    alternatives: &[Alternative],
) -> NormResult<()>
    requires { option_map (λ t. shared_view t.now) own ≡ type_of name.now (numbered_table types.now) }
    ensures { (ps : List TypeParameter) →
        Refuses result (flat_map (other_in ps (numbered_table types.now) name.now.0) (map alternative_view alternatives.now)) }
{
    for alternative in alternatives {
        check_alternative(alloc, types, name, own, alternative)?;
    }
    Ok(())
}

fn check_alternative(
    alloc: Global,
    types: &Numbered,
    name: &NonterminalString,
    own: Option<&SharedType>,
    alternative: &Alternative,
) -> NormResult<()>
    requires { option_map (λ t. shared_view t.now) own ≡ type_of name.now (numbered_table types.now) }
    ensures { (ps : List TypeParameter) →
        Refuses result (other_in ps (numbered_table types.now) name.now.0 (alternative_view alternative.now)) }
{
    match alternative_clause(alloc, alternative)? {
        Some(clause) => {
            let given = clause_value(alloc, types, &clause)?;
            let agrees = check_same(alloc, name, alternative.span, &given, own);
            // By a call: where a value of this type ends in place, its drop is proved there, variant by variant.
            drop(given);
            agrees
        }
        None => Ok(()),
    }
}

fn check_same(
    alloc: Global,
    name: &NonterminalString,
    span: Span,
    given: &Option<SharedType>,
    own: Option<&SharedType>,
) -> NormResult<()>
    ensures { Refuses result
        (fault_if (is_other (option_map shared_view given.now) (option_map (λ t. shared_view t.now) own.entry)) (Disagreement, span)) }
{
    match (given, own) {
        (None, _) => Ok(()),
        (Some(given), Some(own)) => {
            if is_same_type(alloc, given, own)? {
                return Ok(());
            }
            Err(refusal(
                FaultKind::Disagreement,
                span,
                format!(in alloc;
                    "this alternative gives `{given}`, and `{name}` has the type `{own}`: make them agree, or declare the type of `{name}` and give each alternative code"
                ),
            ))
        }
        (Some(given), None) => Err(refusal(
            FaultKind::Disagreement,
            span,
            format!(in alloc;
                "this alternative gives `{given}`, and `{name}` has no type: declare one, as `{name}: T`"
            ),
        )),
    }
}
