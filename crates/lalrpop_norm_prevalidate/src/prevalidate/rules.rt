//! Rules and their attributes.
ghost use Rattle.std.specs.Prelude.{◌≡◌, ◌&&◌, not, bytes_eq, codes, map, flat_map};
ghost use Rattle.lalrpop_norm_tree_parts.specs.Attributes.{attribute_view, attributes_view};
ghost use Rattle.lalrpop_norm_tree.specs.Items.{alternative_view, rule_view};
ghost use Rattle.lalrpop_norm_faults.specs.Faults.{Refuses, fault_if};
ghost use Rattle.lalrpop_norm_model.specs.Features.{is_one_of};
ghost use Rattle.lalrpop_norm_prevalidate.specs.AlternativeFaults.{alternative_faults};
ghost use Rattle.lalrpop_norm_prevalidate.specs.GrammarFaults.{is_known_on_rule, rule_attribute_faults, attributes_faults, rule_faults};
ghost use Rattle.lalrpop_norm_precedence_steps.specs.LevelFaults.{level_faults};

use super::Surroundings;
use super::alternatives::validate_alternative;
use super::types::some_holds;
use lalrpop_norm_faults::{FaultKind, NormResult, refusal};
use lalrpop_norm_precedence::precedence::read_levels;
use lalrpop_norm_precedence_steps::levels::{has_levels, without_levels};
use lalrpop_norm_prevalidate_attributes::cfg::validate_cfg;
use lalrpop_norm_tree::grammar::parse_tree::{Alternative, Atom, Attribute, NonterminalData, Span};
use std::alloc::Global;

fn is_known_on_rule(name: &str) -> bool
    ensures { result ≡ is_known_on_rule name.now }
{
    name == "inline" || name == "cfg"
}

fn is_among(name: &Atom, before: &[Attribute]) -> bool
    ensures { result ≡ is_one_of name.now (map (λ a. a.id) before.now) }
{
    for attribute in before {
        if &attribute.id == name {
            return true;
        }
    }
    false
}

fn check_known(alloc: Global, attribute: &Attribute) -> NormResult<()>
    ensures { Refuses result (fault_if (not (is_known_on_rule attribute.now.id)) (FaultKind.UnknownRuleAttribute, attribute.now.id_span)) }
{
    let name = &attribute.id;
    if !is_known_on_rule(name.as_str()) {
        return Err(refusal(
            FaultKind::UnknownRuleAttribute,
            attribute.id_span,
            format!(in alloc;
                "the attribute `{name}` is not known on a rule: `inline` and `cfg` are"
            ),
        ));
    }
    Ok(())
}

fn check_new(alloc: Global, before: &[Attribute], attribute: &Attribute) -> NormResult<()>
    ensures { Refuses result (fault_if (is_one_of attribute.now.id (map (λ a. a.id) before.now))
        (FaultKind.RepeatedRuleAttribute, attribute.now.id_span)) }
{
    let name = &attribute.id;
    if is_among(name, before) {
        return Err(refusal(
            FaultKind::RepeatedRuleAttribute,
            attribute.id_span,
            format!(in alloc; "the rule has an attribute `{name}` already: leave one of them out"),
        ));
    }
    Ok(())
}

fn check_inline(alloc: Global, public: bool, attribute: &Attribute) -> NormResult<()>
    ensures { Refuses result (fault_if (bytes_eq attribute.now.id (codes "inline") && public)
        (FaultKind.InlineOnPublic, attribute.now.id_span)) }
{
    if attribute.id.as_str() == "inline" && public {
        return Err(refusal(
            FaultKind::InlineOnPublic,
            attribute.id_span,
            format!(in alloc; "a public rule can't be `inline`: leave out the one or the other"),
        ));
    }
    Ok(())
}

#[tactic(auto, unfolding(crate::specs::GrammarFaults::rule_attribute_faults))]
fn validate_attribute(
    alloc: Global,
    public: bool,
    before: &[Attribute],
    attribute: &Attribute,
) -> NormResult<()>
    ensures { Refuses result (rule_attribute_faults public (map (λ a. a.id) before.now) (attribute_view attribute.now)) }
{
    check_known(alloc, attribute)?;
    check_new(alloc, before, attribute)?;
    check_inline(alloc, public, attribute)?;
    if attribute.id.as_str() == "cfg" {
        validate_cfg(alloc, attribute.id_span, &attribute.arg)?;
    }
    Ok(())
}

#[tactic(auto, using(crate::proofs::PlaceLemmas::attributes_placed))]
fn validate_attributes(alloc: Global, public: bool, attributes: &[Attribute]) -> NormResult<()>
    ensures { Refuses result (attributes_faults public (attributes_view attributes.now)) }
{
    for (i, attribute) in attributes.iter().enumerate() {
        validate_attribute(alloc, public, &attributes[..i], attribute)?;
    }
    Ok(())
}

fn validate_alternatives(
    alloc: Global,
    around: Surroundings,
    alternatives: &[Alternative],
) -> NormResult<()>
    ensures { Refuses result (flat_map (alternative_faults around) (map alternative_view alternatives.now)) }
{
    for alternative in alternatives {
        validate_alternative(alloc, around, alternative)?;
    }
    Ok(())
}

/// The levels and associativities of all written alternatives, which are read only if some alternative states one.
#[tactic(auto, using(lalrpop_norm_precedence_steps::proofs::ReadingLemmas::refuses_without))]
fn validate_levels(alloc: Global, rule: &NonterminalData) -> NormResult<()>
    ensures { Refuses result (level_faults (rule_view rule.now)) }
{
    if !has_levels(&rule.alternatives) {
        return Ok(());
    }
    without_levels(read_levels(alloc, rule))
}

fn check_public(alloc: Global, public_macro: bool, span: Span) -> NormResult<()>
    ensures { Refuses result (fault_if public_macro (FaultKind.PublicMacro, span)) }
{
    if public_macro {
        return Err(refusal(
            FaultKind::PublicMacro,
            span,
            format!(in alloc; "a macro can't be public: add a public rule that calls it"),
        ));
    }
    Ok(())
}

/// The error of a written type with the type of a symbol in it.
pub(super) fn check_type(alloc: Global, holds: bool, span: Span) -> NormResult<()>
    ensures { Refuses result (fault_if holds (FaultKind.WrittenOfSymbol, span)) }
{
    if holds {
        return Err(refusal(
            FaultKind::WrittenOfSymbol,
            span,
            format!(in alloc; "the type of a symbol can't be written: name the type itself"),
        ));
    }
    Ok(())
}

#[tactic(auto, unfolding(crate::specs::GrammarFaults::rule_faults))]
pub(super) fn validate_rule(
    alloc: Global,
    around: Surroundings,
    rule: &NonterminalData,
) -> NormResult<()>
    ensures { Refuses result (rule_faults around (rule_view rule.now)) }
{
    let public = rule.visibility.is_pub();
    check_public(alloc, public && rule.is_macro_def(), rule.span)?;
    check_type(alloc, some_holds(&rule.type_decl), rule.span)?;
    validate_attributes(alloc, public, &rule.attributes)?;
    validate_levels(alloc, rule)?;
    validate_alternatives(alloc, around, &rule.alternatives)?;
    Ok(())
}
