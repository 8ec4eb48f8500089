//! Attributes of an alternative.
ghost use Rattle.std.specs.Prelude.{◌≡◌, not};
ghost use Rattle.lalrpop_norm_tree_parts.specs.Attributes.{attribute_view, attributes_view};
ghost use Rattle.lalrpop_norm_faults.specs.Faults.{Refuses, fault_if};
ghost use Rattle.lalrpop_norm_prevalidate_attributes.specs.AttributeFaults.{alternative_attribute_faults, alternative_attributes_faults};
ghost use Rattle.lalrpop_norm_prevalidate_attributes.specs.AttributeFaults.{is_known_on_alternative};

use crate::cfg::check_cfg;
use lalrpop_norm_faults::{FaultKind, NormResult, refusal};
use lalrpop_norm_tree_parts::attribute::Attribute;
use std::alloc::Global;

fn is_known(name: &str) -> bool
    ensures { result ≡ is_known_on_alternative name.now }
{
    name == "precedence" || name == "assoc" || name == "cfg"
}

fn check_known(alloc: Global, attribute: &Attribute) -> NormResult<()>
    ensures { Refuses result (fault_if (not (is_known_on_alternative attribute.now.id))
        (FaultKind.AlternativeAttribute, attribute.now.id_span)) }
{
    let name = &attribute.id;
    if !is_known(name.as_str()) {
        return Err(refusal(
            FaultKind::AlternativeAttribute,
            attribute.id_span,
            format!(in alloc;
                "the attribute `{name}` is not known on an alternative: `precedence`, `assoc` and `cfg` are"
            ),
        ));
    }
    Ok(())
}

#[tactic(auto, unfolding(crate::specs::AttributeFaults::alternative_attribute_faults))]
fn validate_attribute(alloc: Global, attribute: &Attribute) -> NormResult<()>
    ensures { Refuses result (alternative_attribute_faults (attribute_view attribute.now)) }
{
    check_known(alloc, attribute)?;
    check_cfg(alloc, attribute)?;
    Ok(())
}

/// Each attribute of an alternative, in order: F13, then F11.
pub fn validate_attributes(alloc: Global, attributes: &[Attribute]) -> NormResult<()>
    ensures { Refuses result (alternative_attributes_faults (attributes_view attributes.now)) }
{
    for attribute in attributes {
        validate_attribute(alloc, attribute)?;
    }
    Ok(())
}
