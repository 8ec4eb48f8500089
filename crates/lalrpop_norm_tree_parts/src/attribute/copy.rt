//! Copies of attributes.
ghost use Rattle.std.specs.Prelude.{◌≡◌, IfOk, map};
ghost use Rattle.lalrpop_norm_tree_parts.specs.Attributes.{argument_view, attribute_view};

use super::{Attribute, AttributeArg};
use std::alloc::AllocError;

impl Clone for Attribute {
    ghost is_clone = { λ a b. attribute_view b ≡ attribute_view a };

    fn clone(&self) -> Result<Attribute, AllocError> {
        copy(self)
    }
}

impl Clone for AttributeArg {
    ghost is_clone = { λ a b. argument_view b ≡ argument_view a };

    fn clone(&self) -> Result<AttributeArg, AllocError> {
        copy_argument(self)
    }
}

#[cycle(copy)]
fn copy(attribute: &Attribute) -> Result<Attribute, AllocError>
    ensures { IfOk result (λ a. attribute_view a ≡ attribute_view attribute.now) }
{
    let id = attribute.id.clone()?;
    let arg = copy_argument(&attribute.arg)?;
    Ok(Attribute {
        id_span: attribute.id_span,
        id,
        arg,
    })
}

#[cycle(copy)]
fn copy_argument(argument: &AttributeArg) -> Result<AttributeArg, AllocError>
    ensures { IfOk result (λ a. argument_view a ≡ argument_view argument.now) }
{
    match argument {
        AttributeArg::Empty => Ok(AttributeArg::Empty),
        AttributeArg::Paren(attributes) => Ok(AttributeArg::Paren(copy_attributes(attributes)?)),
        AttributeArg::Equal(text) => Ok(AttributeArg::Equal(text.clone()?)),
    }
}

/// A copy of each attribute, in order. The only error is a failed allocation.
#[cycle(copy)]
pub fn copy_attributes(attributes: &Vec<Attribute>) -> Result<Vec<Attribute>, AllocError>
    ensures { IfOk result (λ copies. map attribute_view copies.items ≡ map attribute_view attributes.now.items) }
{
    let mut copies = Vec::with_capacity(*attributes.allocator(), attributes.len())?;
    for attribute in attributes {
        copies.push(copy(attribute)?)?;
    }
    Ok(copies)
}
