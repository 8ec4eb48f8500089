//! Features: what the attributes of a rule, an alternative or a conversion ask of a session.
ghost use Rattle.std.specs.Prelude.{◌≡◌};
ghost use Rattle.lalrpop_norm_tree_parts.specs.Attributes.{attribute_view, attributes_view};
ghost use Rattle.lalrpop_norm_model.specs.Features.{is_feature, condition_holds, first_fails, all_hold, any_holds, cfg_holds, is_active};
ghost use Rattle.lalrpop_norm_common.specs.Sessions.{features_view};

use crate::session::Session;
use lalrpop_norm_tree::grammar::parse_tree::{Attribute, AttributeArg};
use std::collections::BTreeSet;

/// Whether the features of the session turn on what has these attributes: each `cfg` among them has a first argument, and
/// that holds. It always answers.
pub fn cfg_active<L>(session: &Session<L>, attributes: &[Attribute]) -> bool
    ensures { result ≡ is_active (features_view session.now.features) (attributes_view attributes.now) }
{
    for attribute in attributes {
        if attribute.id.as_str() == "cfg" && !cfg_holds(&session.features, attribute) {
            return false;
        }
    }
    true
}

fn cfg_holds(features: &Option<BTreeSet<String>>, attribute: &Attribute) -> bool
    ensures { result ≡ cfg_holds (features_view features.now) (attribute_view attribute.now) }
{
    match &attribute.arg {
        AttributeArg::Paren(conditions) => match conditions.first() {
            Some(condition) => condition_holds(features, condition),
            None => false,
        },
        AttributeArg::Empty | AttributeArg::Equal(_) => false,
    }
}

#[cycle(conditions)]
fn condition_holds(features: &Option<BTreeSet<String>>, condition: &Attribute) -> bool
    ensures { result ≡ condition_holds (features_view features.now) (attribute_view condition.now) }
{
    let name = condition.id.as_str();
    match &condition.arg {
        AttributeArg::Empty => false,
        AttributeArg::Equal(feature) => name == "feature" && is_feature(features, feature.as_str()),
        AttributeArg::Paren(conditions) => {
            (name == "not" && first_fails(features, conditions))
                || (name == "all" && all_hold(features, conditions))
                || (name == "any" && any_holds(features, conditions))
        }
    }
}

#[cycle(conditions)]
fn first_fails(features: &Option<BTreeSet<String>>, conditions: &[Attribute]) -> bool
    ensures { result ≡ first_fails (features_view features.now) (attributes_view conditions.now) }
{
    match conditions.first() {
        Some(condition) => !condition_holds(features, condition),
        None => false,
    }
}

#[cycle(conditions)]
fn all_hold(features: &Option<BTreeSet<String>>, conditions: &[Attribute]) -> bool
    ensures { result ≡ all_hold (features_view features.now) (attributes_view conditions.now) }
{
    for condition in conditions {
        if !condition_holds(features, condition) {
            return false;
        }
    }
    true
}

#[cycle(conditions)]
fn any_holds(features: &Option<BTreeSet<String>>, conditions: &[Attribute]) -> bool
    ensures { result ≡ any_holds (features_view features.now) (attributes_view conditions.now) }
{
    for condition in conditions {
        if condition_holds(features, condition) {
            return true;
        }
    }
    false
}

fn is_feature(features: &Option<BTreeSet<String>>, name: &str) -> bool
    ensures { result ≡ is_feature (features_view features.now) name.now }
{
    match features {
        Some(names) => names.contains(name),
        None => false,
    }
}
