//! What attributes are asked for.
ghost use Rattle.std.specs.Prelude.{◌≡◌, option_map};
ghost use Rattle.lalrpop_norm_tree_parts.specs.Accessors.{key_and_value};
ghost use Rattle.lalrpop_norm_tree_parts.specs.Attributes.{attribute_view};

use super::{Attribute, AttributeArg};
use shared_text::Atom;

impl Attribute {
    /// The key and the value of the first argument, if that argument is `key = "value"`.
    pub fn get_arg_equal(&self) -> Option<(&Atom, &str)>
        ensures { option_map (λ p. (p.0.now, p.1.now)) result ≡ key_and_value (attribute_view self.now) }
    {
        match &self.arg {
            AttributeArg::Paren(attributes) => match attributes.first() {
                Some(first) => match &first.arg {
                    AttributeArg::Equal(value) => Some((&first.id, value.as_str())),
                    AttributeArg::Empty | AttributeArg::Paren(_) => None,
                },
                None => None,
            },
            AttributeArg::Empty | AttributeArg::Equal(_) => None,
        }
    }
}
