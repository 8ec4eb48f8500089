//! Attributes.
ghost use Rattle.serde_json.specs.Data.{string};
ghost use Rattle.json_records.specs.Variants.{Made};
ghost use Rattle.json_records.specs.Readers.{ReadsForm, ReadsUnder, ReadsList, NotJsonOnlyIfNoData, LeavesNoMore};
ghost use Rattle.lalrpop_norm_json.specs.Shapes as shape;
ghost use Rattle.lalrpop_norm_json.specs.Shapes.{is};
ghost use Rattle.lalrpop_norm_tree_parts.specs.Attributes.{argument_view, attribute_view};
ghost use Rattle.lalrpop_norm_json.specs.Forms.{argument_form, attribute_form};

use super::Tree;
use json::{Reader, Token};
use json_records::{
    ReadError, Reads, fitted, is_other, next_item, next_member, open_array, open_object, pass, push,
};
use lalrpop_norm_tree::grammar::parse_tree::{Atom, Attribute, AttributeArg, Span};
use std::alloc::Global;

/// What follows an attribute's name, if its JSON form is one word.
fn bare_argument(name: &str) -> Option<AttributeArg>
    ensures { Made (λ g. argument_form (argument_view g)) (is shape.attribute_argument) result (string name.now) }
{
    match name {
        "Empty" => Some(AttributeArg::Empty),
        _ => None,
    }
}

/// What follows an attribute's name.
#[cycle(attributes)]
fn argument<'a>(
    alloc: Global,
    first: Token<'a>,
    reader: &mut Reader<'a>,
    depth: usize,
) -> Result<Option<AttributeArg>, ReadError>
    ensures ok { ReadsForm result (λ g. argument_form (argument_view g)) (is shape.attribute_argument)
        depth first.entry reader.old reader.new }
    ensures err { NotJsonOnlyIfNoData result depth first.entry reader.old }
    ensures shorter { LeavesNoMore result reader.old reader.new }
{
    if let Token::String(name) = first {
        return Ok(bare_argument(name));
    }
    let Some(depth) = open_object(first, reader, depth)? else {
        return Ok(None);
    };
    let mut read = None;
    let mut before = None;
    let mut strays = false;
    while let Some((name, first)) = next_member(reader)? {
        if is_other(before, name) {
            pass(first, reader, depth)?;
            strays = true;
        } else {
            read = argument_of(alloc, name, first, reader, depth)?;
            before = Some(name);
        }
    }
    if strays {
        return Ok(None);
    }
    Ok(read)
}

/// What follows the attribute of that name, over a value.
#[cycle(attributes)]
fn argument_of<'a>(
    alloc: Global,
    name: &str,
    first: Token<'a>,
    reader: &mut Reader<'a>,
    depth: usize,
) -> Result<Option<AttributeArg>, ReadError>
    ensures ok { ReadsUnder result name.now (λ g. argument_form (argument_view g)) (is shape.attribute_argument)
        depth first.entry reader.old reader.new }
    ensures err { NotJsonOnlyIfNoData result depth first.entry reader.old }
    ensures shorter { LeavesNoMore result reader.old reader.new }
{
    match name {
        "Paren" => match attributes(alloc, first, reader, depth)? {
            Some(read) => Ok(Some(AttributeArg::Paren(read))),
            None => Ok(None),
        },
        "Equal" => match <Tree as Reads<String>>::read(alloc, first, reader, depth)? {
            Some(read) => Ok(Some(AttributeArg::Equal(read))),
            None => Ok(None),
        },
        _ => {
            pass(first, reader, depth)?;
            Ok(None)
        }
    }
}

#[cycle(attributes)]
fn attribute<'a>(
    alloc: Global,
    first: Token<'a>,
    reader: &mut Reader<'a>,
    depth: usize,
) -> Result<Option<Attribute>, ReadError>
    ensures ok { ReadsForm result (λ a. attribute_form (attribute_view a)) (is shape.attribute) depth first.entry reader.old reader.new }
    ensures err { NotJsonOnlyIfNoData result depth first.entry reader.old }
    ensures shorter { LeavesNoMore result reader.old reader.new }
{
    let Some(depth) = open_object(first, reader, depth)? else {
        return Ok(None);
    };
    let mut arg = None;
    let mut id = None;
    let mut id_span = None;
    let mut strays = false;
    while let Some((key, first)) = next_member(reader)? {
        match key {
            "arg" => arg = argument(alloc, first, reader, depth)?,
            "id" => id = <Tree as Reads<Atom>>::read(alloc, first, reader, depth)?,
            "id_span" => id_span = <Tree as Reads<Span>>::read(alloc, first, reader, depth)?,
            _ => {
                pass(first, reader, depth)?;
                strays = true;
            }
        }
    }
    if strays {
        return Ok(None);
    }
    let Some(arg) = arg else {
        return Ok(None);
    };
    let Some(id) = id else {
        return Ok(None);
    };
    let Some(id_span) = id_span else {
        return Ok(None);
    };
    Ok(Some(Attribute { id_span, id, arg }))
}

#[cycle(attributes)]
fn attributes<'a>(
    alloc: Global,
    first: Token<'a>,
    reader: &mut Reader<'a>,
    depth: usize,
) -> Result<Option<Vec<Attribute>>, ReadError>
    ensures ok { ReadsList result (λ a. attribute_form (attribute_view a)) (is shape.attribute) depth first.entry reader.old reader.new }
    ensures err { NotJsonOnlyIfNoData result depth first.entry reader.old }
    ensures shorter { LeavesNoMore result reader.old reader.new }
{
    let Some(depth) = open_array(first, reader, depth)? else {
        return Ok(None);
    };
    let mut list = Vec::new(alloc);
    let mut good = true;
    while let Some(first) = next_item(reader)? {
        match attribute(alloc, first, reader, depth)? {
            Some(item) => push(&mut list, item)?,
            None => good = false,
        }
    }
    if good {
        Ok(Some(fitted(list)?))
    } else {
        Ok(None)
    }
}

impl Reads<Attribute> for Tree {
    ghost use Rattle.lalrpop_norm_tree_parts.specs.Attributes.{attribute_view};
    ghost use Rattle.lalrpop_norm_json.specs.Forms.{attribute_form};
    ghost use Rattle.lalrpop_norm_json.specs.Shapes as shape;
    ghost use Rattle.lalrpop_norm_json.specs.Shapes.{is};

    ghost form = { λ a. attribute_form (attribute_view a) };

    ghost can = { is shape.attribute };

    fn read<'a>(
        alloc: Global,
        first: Token<'a>,
        reader: &mut Reader<'a>,
        depth: usize,
    ) -> Result<Option<Attribute>, ReadError> {
        attribute(alloc, first, reader, depth)
    }
}
