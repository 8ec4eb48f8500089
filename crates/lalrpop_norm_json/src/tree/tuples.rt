//! Names of symbols, and of the parts of tuples; operators of repeats.
ghost use Rattle.json_records.specs.Readers.{ReadsForm, ReadsUnder, ReadsList, NotJsonOnlyIfNoData, LeavesNoMore};
ghost use Rattle.lalrpop_norm_json.specs.Shapes as shape;
ghost use Rattle.lalrpop_norm_json.specs.Shapes.{is};
ghost use Rattle.lalrpop_norm_tree.specs.Symbols.{argument_pattern_view, tuple_view};
ghost use Rattle.lalrpop_norm_json.specs.SymbolForms.{argument_pattern_form, tuple_form};

use super::Tree;
use json::{Reader, Token};
use json_records::{
    And, End, ReadError, Reads, Variant, fitted, is_other, next_item, next_member, open_array,
    open_object, pass, push, read_record, read_variant,
};
use lalrpop_norm_tree::grammar::parse_tree::{ArgPattern, Atom, Name, RepeatOp, Tuple};
use std::alloc::Global;

impl Variant<RepeatOp> for Tree {
    ghost use Rattle.lalrpop_norm_json.specs.SymbolForms.{op_form};
    ghost use Rattle.lalrpop_norm_json.specs.Shapes as shape;
    ghost use Rattle.lalrpop_norm_json.specs.Shapes.{is};
    ghost use Rattle.lalrpop_norm_json.specs.Laws.{no_variant};

    ghost form = { op_form };

    ghost can = { is shape.repeat_operator };

    ghost law = { λ d other. no_variant _ _ d other };

    fn bare(name: &str) -> Option<RepeatOp> {
        match name {
            "Star" => Some(RepeatOp::Star),
            "Plus" => Some(RepeatOp::Plus),
            "Question" => Some(RepeatOp::Question),
            _ => None,
        }
    }

    fn held<'a>(
        alloc: Global,
        name: &str,
        first: Token<'a>,
        reader: &mut Reader<'a>,
        depth: usize,
    ) -> Result<Option<RepeatOp>, ReadError> {
        match name {
            "Times" => match <Tree as Reads<u16>>::read(alloc, first, reader, depth)? {
                Some(read) => Ok(Some(RepeatOp::Times(read))),
                None => Ok(None),
            },
            _ => {
                pass(first, reader, depth)?;
                Ok(None)
            }
        }
    }
}

impl Reads<RepeatOp> for Tree {
    ghost use Rattle.lalrpop_norm_json.specs.SymbolForms.{op_form};
    ghost use Rattle.lalrpop_norm_json.specs.Shapes as shape;
    ghost use Rattle.lalrpop_norm_json.specs.Shapes.{is};

    ghost form = { op_form };

    ghost can = { is shape.repeat_operator };

    fn read<'a>(
        alloc: Global,
        first: Token<'a>,
        reader: &mut Reader<'a>,
        depth: usize,
    ) -> Result<Option<RepeatOp>, ReadError> {
        read_variant::<RepeatOp, Tree>(alloc, first, reader, depth)
    }
}

impl Reads<Name> for Tree {
    ghost use Rattle.lalrpop_norm_json.specs.SymbolForms.{name_form};
    ghost use Rattle.lalrpop_norm_json.specs.Shapes as shape;
    ghost use Rattle.lalrpop_norm_json.specs.Shapes.{is};

    ghost form = { name_form };

    ghost can = { is shape.symbol_name };

    fn read<'a>(
        alloc: Global,
        first: Token<'a>,
        reader: &mut Reader<'a>,
        depth: usize,
    ) -> Result<Option<Name>, ReadError> {
        match read_record::<Tree, And<bool, And<Atom, End>>>(
            alloc,
            &["mutable", "name"],
            first,
            reader,
            depth,
        )? {
            Some((mutable, (name, ()))) => Ok(Some(Name { mutable, name })),
            None => Ok(None),
        }
    }
}

/// A name, or a tuple of some.
#[cycle(tuple)]
fn argument_pattern<'a>(
    alloc: Global,
    first: Token<'a>,
    reader: &mut Reader<'a>,
    depth: usize,
) -> Result<Option<ArgPattern>, ReadError>
    ensures ok { ReadsForm result (λ p. argument_pattern_form (argument_pattern_view p)) (is shape.argument_pattern)
        depth first.entry reader.old reader.new }
    ensures err { NotJsonOnlyIfNoData result depth first.entry reader.old }
    ensures shorter { LeavesNoMore result reader.old reader.new }
{
    let Some(depth) = open_object(first, reader, depth)? else {
        return Ok(None);
    };
    let mut read = None;
    let mut before = None;
    let mut strays = false;
    while let Some((name, first)) = next_member(reader)? {
        if is_other(before, name) {
            pass(first, reader, depth)?;
            strays = true;
        } else {
            read = argument_pattern_of(alloc, name, first, reader, depth)?;
            before = Some(name);
        }
    }
    if strays {
        return Ok(None);
    }
    Ok(read)
}

/// The argument pattern of that variant, over a value.
#[cycle(tuple)]
fn argument_pattern_of<'a>(
    alloc: Global,
    name: &str,
    first: Token<'a>,
    reader: &mut Reader<'a>,
    depth: usize,
) -> Result<Option<ArgPattern>, ReadError>
    ensures ok { ReadsUnder result name.now (λ p. argument_pattern_form (argument_pattern_view p)) (is shape.argument_pattern)
        depth first.entry reader.old reader.new }
    ensures err { NotJsonOnlyIfNoData result depth first.entry reader.old }
    ensures shorter { LeavesNoMore result reader.old reader.new }
{
    match name {
        "Name" => match <Tree as Reads<Name>>::read(alloc, first, reader, depth)? {
            Some(read) => Ok(Some(ArgPattern::Name(read))),
            None => Ok(None),
        },
        "Tuple" => match tuple(alloc, first, reader, depth)? {
            Some(read) => Ok(Some(ArgPattern::Tuple(read))),
            None => Ok(None),
        },
        _ => {
            pass(first, reader, depth)?;
            Ok(None)
        }
    }
}

/// Names for the parts of a tuple.
#[cycle(tuple)]
fn tuple<'a>(
    alloc: Global,
    first: Token<'a>,
    reader: &mut Reader<'a>,
    depth: usize,
) -> Result<Option<Tuple>, ReadError>
    ensures ok { ReadsForm result (λ t. tuple_form (tuple_view t)) (is shape.name_tuple) depth first.entry reader.old reader.new }
    ensures err { NotJsonOnlyIfNoData result depth first.entry reader.old }
    ensures shorter { LeavesNoMore result reader.old reader.new }
{
    let Some(depth) = open_object(first, reader, depth)? else {
        return Ok(None);
    };
    let mut tuples = None;
    let mut strays = false;
    while let Some((key, first)) = next_member(reader)? {
        match key {
            "tuples" => tuples = argument_patterns(alloc, first, reader, depth)?,
            _ => {
                pass(first, reader, depth)?;
                strays = true;
            }
        }
    }
    if strays {
        return Ok(None);
    }
    let Some(tuples) = tuples else {
        return Ok(None);
    };
    Ok(Some(Tuple { tuples }))
}

#[cycle(tuple)]
fn argument_patterns<'a>(
    alloc: Global,
    first: Token<'a>,
    reader: &mut Reader<'a>,
    depth: usize,
) -> Result<Option<Vec<ArgPattern>>, ReadError>
    ensures ok { ReadsList result (λ p. argument_pattern_form (argument_pattern_view p)) (is shape.argument_pattern)
        depth first.entry reader.old reader.new }
    ensures err { NotJsonOnlyIfNoData result depth first.entry reader.old }
    ensures shorter { LeavesNoMore result reader.old reader.new }
{
    let Some(depth) = open_array(first, reader, depth)? else {
        return Ok(None);
    };
    let mut list = Vec::new(alloc);
    let mut good = true;
    while let Some(first) = next_item(reader)? {
        match argument_pattern(alloc, first, reader, depth)? {
            Some(item) => push(&mut list, item)?,
            None => good = false,
        }
    }
    if good {
        Ok(Some(fitted(list)?))
    } else {
        Ok(None)
    }
}

impl Reads<Tuple> for Tree {
    ghost use Rattle.lalrpop_norm_tree.specs.Symbols.{tuple_view};
    ghost use Rattle.lalrpop_norm_json.specs.SymbolForms.{tuple_form};
    ghost use Rattle.lalrpop_norm_json.specs.Shapes as shape;
    ghost use Rattle.lalrpop_norm_json.specs.Shapes.{is};

    ghost form = { λ t. tuple_form (tuple_view t) };

    ghost can = { is shape.name_tuple };

    fn read<'a>(
        alloc: Global,
        first: Token<'a>,
        reader: &mut Reader<'a>,
        depth: usize,
    ) -> Result<Option<Tuple>, ReadError> {
        tuple(alloc, first, reader, depth)
    }
}
