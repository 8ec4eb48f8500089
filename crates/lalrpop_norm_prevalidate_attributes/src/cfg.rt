//! Conditions of attributes.
ghost use Rattle.std.specs.Prelude.{◌≡◌, [], ◌∷◌};
ghost use Rattle.lalrpop_norm_tree_parts.specs.Attributes.{argument_view, attribute_view, attributes_view};
ghost use Rattle.lalrpop_norm_faults.specs.Faults.{Refuses, IsFirst};
ghost use Rattle.lalrpop_norm_prevalidate_attributes.specs.CfgFaults.{test_of, test_faults, test_argument_faults, first_test_faults};
ghost use Rattle.lalrpop_norm_prevalidate_attributes.specs.CfgFaults.{empty_faults, tests_faults, cfg_faults, attribute_cfg_faults};
ghost use Rattle.lalrpop_norm_prevalidate_attributes.specs.CfgFaults.{all_cfg_faults};

use lalrpop_norm_faults::{FaultKind, NormFailure, NormResult, refusal};
use lalrpop_norm_tree_names::names::Span;
use lalrpop_norm_tree_parts::attribute::{Attribute, AttributeArg};
use std::alloc::Global;

/// What a name in a condition asks of its argument.
#[derive(Clone, Copy, Debug, PartialEq, Eq)]
pub enum Test {
    /// `feature`: its argument is a text.
    Feature,
    /// `not`: the first of its arguments is a condition.
    Not,
    /// `any` and `all`: they have arguments, each a condition.
    Several,
    /// A name that no condition has.
    Unknown,
}

fn test_of(name: &str) -> Test
    ensures { result ≡ test_of name.now }
{
    if name == "feature" {
        Test::Feature
    } else if name == "not" {
        Test::Not
    } else if name == "any" || name == "all" {
        Test::Several
    } else {
        Test::Unknown
    }
}

/// The fault of a `feature` without a text.
fn without_text(alloc: Global, span: Span) -> NormFailure
    ensures { IsFirst ((FaultKind.MalformedCfg, span) ∷ []) result }
{
    refusal(
        FaultKind::MalformedCfg,
        span,
        format!(in alloc; "`feature` takes a text: write `feature = \"..\"`"),
    )
}

/// The fault of a `cfg`, `not`, `any` or `all` without brackets.
fn without_brackets(alloc: Global, name: &str, span: Span) -> NormFailure
    ensures { IsFirst ((FaultKind.MalformedCfg, span) ∷ []) result }
{
    refusal(
        FaultKind::MalformedCfg,
        span,
        format!(in alloc; "`{name}` takes a condition in brackets, as `{name}(feature = \"..\")`"),
    )
}

/// The fault of a `cfg`, `not`, `any` or `all` with nothing in its brackets.
fn without_condition(alloc: Global, name: &str, span: Span) -> NormFailure
    ensures { IsFirst ((FaultKind.MalformedCfg, span) ∷ []) result }
{
    refusal(
        FaultKind::MalformedCfg,
        span,
        format!(in alloc; "`{name}` needs at least one condition, as `{name}(feature = \"..\")`"),
    )
}

/// The fault of a name that no condition has.
fn unknown_name(alloc: Global, name: &str, span: Span) -> NormFailure
    ensures { IsFirst ((FaultKind.MalformedCfg, span) ∷ []) result }
{
    refusal(
        FaultKind::MalformedCfg,
        span,
        format!(in alloc;
            "`{name}` is no condition of a `cfg`: write `feature = \"..\"`, `not(..)`, `any(..)` or `all(..)`"
        ),
    )
}

#[cycle(cfg)]
fn check_attribute(alloc: Global, attribute: &Attribute) -> NormResult<()>
    ensures { Refuses result (test_faults (attribute_view attribute.now)) }
{
    let test = test_of(attribute.id.as_str());
    check_arg(
        alloc,
        test,
        attribute.id.as_str(),
        attribute.id_span,
        &attribute.arg,
    )
}

#[cycle(cfg)]
fn check_arg(
    alloc: Global,
    test: Test,
    name: &str,
    span: Span,
    arg: &AttributeArg,
) -> NormResult<()>
    ensures { Refuses result (test_argument_faults test span (argument_view arg.now)) }
{
    match test {
        Test::Feature => match arg {
            AttributeArg::Equal(_) => Ok(()),
            AttributeArg::Empty | AttributeArg::Paren(_) => Err(without_text(alloc, span)),
        },
        Test::Not => match arg {
            AttributeArg::Paren(attributes) => check_first(alloc, name, span, attributes),
            AttributeArg::Empty | AttributeArg::Equal(_) => {
                Err(without_brackets(alloc, name, span))
            }
        },
        Test::Several => match arg {
            AttributeArg::Paren(attributes) => {
                check_not_empty(alloc, name, span, attributes)?;
                check_each(alloc, attributes)
            }
            AttributeArg::Empty | AttributeArg::Equal(_) => {
                Err(without_brackets(alloc, name, span))
            }
        },
        Test::Unknown => Err(unknown_name(alloc, name, span)),
    }
}

#[cycle(cfg)]
fn check_first(alloc: Global, name: &str, span: Span, attributes: &[Attribute]) -> NormResult<()>
    ensures { Refuses result (first_test_faults span (attributes_view attributes.now)) }
{
    match attributes.first() {
        Some(attribute) => check_attribute(alloc, attribute),
        None => Err(without_condition(alloc, name, span)),
    }
}

#[tactic(auto, unfolding(crate::specs::CfgFaults::empty_faults), using(crate::proofs::EmptyLemmas::no_empty_faults))]
fn check_not_empty(
    alloc: Global,
    name: &str,
    span: Span,
    attributes: &[Attribute],
) -> NormResult<()>
    ensures { Refuses result (empty_faults span (attributes_view attributes.now)) }
{
    if attributes.is_empty() {
        return Err(without_condition(alloc, name, span));
    }
    Ok(())
}

#[cycle(cfg)]
fn check_each(alloc: Global, attributes: &[Attribute]) -> NormResult<()>
    ensures { Refuses result (tests_faults (attributes_view attributes.now)) }
{
    for attribute in attributes {
        check_attribute(alloc, attribute)?;
    }
    Ok(())
}

/// Checks the argument of a `cfg`.
///
/// Errors: F11 (`MalformedCfg`) at `span`, the span of the attribute's name, if it is none that a `cfg` takes; `Memory`.
pub fn validate_cfg(alloc: Global, span: Span, arg: &AttributeArg) -> NormResult<()>
    ensures { Refuses result (cfg_faults span (argument_view arg.now)) }
{
    // A `cfg` takes what `not` takes.
    check_arg(alloc, Test::Not, "cfg", span, arg)
}

/// Checks an attribute, if it is a `cfg`.
///
/// Errors: those of [`validate_cfg`].
pub fn check_cfg(alloc: Global, attribute: &Attribute) -> NormResult<()>
    ensures { Refuses result (attribute_cfg_faults (attribute_view attribute.now)) }
{
    if attribute.id.as_str() == "cfg" {
        validate_cfg(alloc, attribute.id_span, &attribute.arg)?;
    }
    Ok(())
}

/// Checks each `cfg` among attributes, in their order.
///
/// Errors: those of [`validate_cfg`], at the first that fails.
pub fn check_cfgs(alloc: Global, attributes: &[Attribute]) -> NormResult<()>
    ensures { Refuses result (all_cfg_faults (attributes_view attributes.now)) }
{
    for attribute in attributes {
        check_cfg(alloc, attribute)?;
    }
    Ok(())
}
