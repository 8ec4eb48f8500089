//! Attributes by name, and the names of those that state levels and associativities.
ghost use Rattle.std.specs.Prelude.{◌≡◌, ◌||◌, is_some, option_map, codes};
ghost use Rattle.lalrpop_norm_tree_parts.specs.Attributes.{attribute_view, attributes_view};
ghost use Rattle.lalrpop_norm_model.specs.Levels.{first_named};

use lalrpop_norm_tree::grammar::parse_tree::Attribute;

/// The attribute that states the level of an alternative: `#[precedence(level = "1")]`.
pub const PREC_ATTR: &str = "precedence";
/// Its argument.
pub const LVL_ARG: &str = "level";
/// The attribute that states the associativity of an alternative: `#[assoc(side = "left")]`.
pub const ASSOC_ATTR: &str = "assoc";
/// Its argument.
pub const SIDE_ARG: &str = "side";

/// The first attribute of a name.
pub fn first_named<'a>(attributes: &'a [Attribute], name: &str) -> Option<&'a Attribute>
    ensures { option_map (λ a. attribute_view a.now) result ≡ first_named name.now (attributes_view attributes.now) }
{
    for attribute in attributes {
        if attribute.id.as_str() == name {
            return Some(attribute);
        }
    }
    None
}

/// Whether there is a `precedence` or an `assoc`.
pub fn has_level_attribute(attributes: &[Attribute]) -> bool
    ensures { result ≡ (is_some (first_named (codes "precedence") (attributes_view attributes.now))
        || is_some (first_named (codes "assoc") (attributes_view attributes.now))) }
{
    first_named(attributes, PREC_ATTR).is_some() || first_named(attributes, ASSOC_ATTR).is_some()
}
