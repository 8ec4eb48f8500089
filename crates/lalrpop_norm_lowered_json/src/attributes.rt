//! Attributes and visibility.
ghost use Rattle.std.specs.Prelude.{◌≡◌};
ghost use Rattle.serde_json.specs.Data.{array};
ghost use Rattle.lalrpop_norm_tree_parts.specs.Attributes.{attribute_view, attributes_view, argument_view};
ghost use Rattle.lalrpop_norm_json.specs.Forms.{attribute_form, attributes_form, argument_form};
ghost use Rattle.lalrpop_norm_lowered_json_tables.specs.Written.{Puts};

use crate::put::{Form, put_maybe};
use json::Writer;
use lalrpop_norm_lowered_json_tables::put::{Plain, Puts, begin_variant, put_field, put_variant};
use lalrpop_norm_tree::grammar::parse_tree::{
    Atom, Attribute, AttributeArg, Path, Span, Visibility,
};
use std::alloc::AllocError;

impl Puts<Attribute> for Form {
    ghost form = { λ a. attribute_form (attribute_view a) };

    fn put(out: &mut Writer, value: &Attribute) -> Result<(), AllocError> {
        put_attribute(out, value)
    }
}

#[cycle(attribute)]
fn put_attribute(out: &mut Writer, attribute: &Attribute) -> Result<(), AllocError>
    ensures { Puts result out.old out.new (attribute_form (attribute_view attribute.now)) }
{
    out.begin_object()?;
    out.key("arg")?;
    put_argument(out, &attribute.arg)?;
    put_field::<Atom, Plain>(out, "id", &attribute.id)?;
    put_field::<Span, Form>(out, "id_span", &attribute.id_span)?;
    out.end_object()
}

#[cycle(attribute)]
fn put_argument(out: &mut Writer, argument: &AttributeArg) -> Result<(), AllocError>
    ensures { Puts result out.old out.new (argument_form (argument_view argument.now)) }
{
    match argument {
        AttributeArg::Empty => out.string("Empty"),
        AttributeArg::Paren(attributes) => {
            begin_variant(out, "Paren")?;
            put_attributes(out, attributes)?;
            out.end_object()
        }
        AttributeArg::Equal(text) => put_variant::<String, Plain>(out, "Equal", text),
    }
}

#[cycle(attribute)]
pub(crate) fn put_attributes(
    out: &mut Writer,
    attributes: &Vec<Attribute>,
) -> Result<(), AllocError>
    ensures { Puts result out.old out.new (array (attributes_form (attributes_view attributes.now.items))) }
{
    out.begin_array()?;
    for attribute in attributes {
        put_attribute(out, attribute)?;
    }
    out.end_array()
}

impl Puts<Visibility> for Form {
    ghost use Rattle.lalrpop_norm_tree.specs.Items.{visibility_view};
    ghost use Rattle.lalrpop_norm_json.specs.ItemForms.{visibility_form};

    ghost form = { λ v. visibility_form (visibility_view v) };

    fn put(out: &mut Writer, value: &Visibility) -> Result<(), AllocError> {
        match value {
            Visibility::Pub(path) => {
                begin_variant(out, "Pub")?;
                put_maybe::<_, Form>(out, path)?;
                out.end_object()
            }
            Visibility::PubIn(path) => put_variant::<Path, Form>(out, "PubIn", path),
            Visibility::Priv => out.string("Priv"),
        }
    }
}
