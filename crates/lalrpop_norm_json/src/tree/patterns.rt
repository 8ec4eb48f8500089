//! Patterns of conversions.
ghost use Rattle.std.specs.Prelude.{[], ◌∷◌, codes, map};
ghost use Rattle.serde_json.specs.Data.{string};
ghost use Rattle.json_records.specs.Reading.{list_form, is_list};
ghost use Rattle.json_records.specs.Variants.{Made};
ghost use Rattle.json_records.specs.Readers.{ReadsForm, ReadsUnder, ReadsList, ReadsRow, NotJsonOnlyIfNoData, LeavesNoMore};
ghost use Rattle.lalrpop_norm_json.specs.Shapes as shape;
ghost use Rattle.lalrpop_norm_json.specs.Shapes.{is};
ghost use Rattle.lalrpop_norm_tree.specs.Types.{type_view};
ghost use Rattle.lalrpop_norm_tree_parts.specs.Paths.{path_view};
ghost use Rattle.lalrpop_norm_tree_patterns.specs.Patterns.{pattern_kind_view, pattern_view, field_view};
ghost use Rattle.lalrpop_norm_json.specs.Forms.{path_form};
ghost use Rattle.lalrpop_norm_json.specs.PatternForms.{pattern_kind_form, pattern_form, field_form};

use super::Tree;
use json::{Reader, Token};
use json_records::{
    ReadError, Reads, all_three, both, fitted, is_other, next_item, next_member, open_array,
    open_object, pass, push,
};
use lalrpop_norm_tree::grammar::parse_tree::{Atom, Path, Span, TypeRef};
use lalrpop_norm_tree::grammar::pattern::{FieldPattern, Pattern, PatternKind};
use std::alloc::Global;

/// A pattern without its span, if its JSON form is one word.
fn bare_kind(name: &str) -> Option<PatternKind<TypeRef>>
    ensures { Made (λ k. pattern_kind_form (pattern_kind_view type_view k)) (is shape.pattern_kind) result (string name.now) }
{
    match name {
        "Underscore" => Some(PatternKind::Underscore),
        "DotDot" => Some(PatternKind::DotDot),
        _ => None,
    }
}

/// A pattern without its span.
#[cycle(pattern)]
fn pattern_kind<'a>(
    alloc: Global,
    first: Token<'a>,
    reader: &mut Reader<'a>,
    depth: usize,
) -> Result<Option<PatternKind<TypeRef>>, ReadError>
    ensures ok { ReadsForm result (λ k. pattern_kind_form (pattern_kind_view type_view k)) (is shape.pattern_kind)
        depth first.entry reader.old reader.new }
    ensures err { NotJsonOnlyIfNoData result depth first.entry reader.old }
    ensures shorter { LeavesNoMore result reader.old reader.new }
{
    if let Token::String(name) = first {
        return Ok(bare_kind(name));
    }
    let Some(depth) = open_object(first, reader, depth)? else {
        return Ok(None);
    };
    let mut read = None;
    let mut before = None;
    let mut strays = false;
    while let Some((name, first)) = next_member(reader)? {
        if is_other(before, name) {
            pass(first, reader, depth)?;
            strays = true;
        } else {
            read = pattern_kind_of(alloc, name, first, reader, depth)?;
            before = Some(name);
        }
    }
    if strays {
        return Ok(None);
    }
    Ok(read)
}

/// The pattern of that variant, over a value.
#[cycle(pattern)]
fn pattern_kind_of<'a>(
    alloc: Global,
    name: &str,
    first: Token<'a>,
    reader: &mut Reader<'a>,
    depth: usize,
) -> Result<Option<PatternKind<TypeRef>>, ReadError>
    ensures ok { ReadsUnder result name.now (λ k. pattern_kind_form (pattern_kind_view type_view k)) (is shape.pattern_kind)
        depth first.entry reader.old reader.new }
    ensures err { NotJsonOnlyIfNoData result depth first.entry reader.old }
    ensures shorter { LeavesNoMore result reader.old reader.new }
{
    match name {
        "Enum" => match path_and_patterns(alloc, first, reader, depth)? {
            Some((path, patterns)) => Ok(Some(PatternKind::Enum(path, patterns))),
            None => Ok(None),
        },
        "Struct" => structured(alloc, first, reader, depth),
        "Path" => match <Tree as Reads<Path>>::read(alloc, first, reader, depth)? {
            Some(read) => Ok(Some(PatternKind::Path(read))),
            None => Ok(None),
        },
        "Tuple" => match patterns(alloc, first, reader, depth)? {
            Some(read) => Ok(Some(PatternKind::Tuple(read))),
            None => Ok(None),
        },
        "TupleStruct" => match path_and_patterns(alloc, first, reader, depth)? {
            Some((path, patterns)) => Ok(Some(PatternKind::TupleStruct(path, patterns))),
            None => Ok(None),
        },
        "Usize" => match <Tree as Reads<usize>>::read(alloc, first, reader, depth)? {
            Some(read) => Ok(Some(PatternKind::Usize(read))),
            None => Ok(None),
        },
        "Choose" => match <Tree as Reads<TypeRef>>::read(alloc, first, reader, depth)? {
            Some(read) => Ok(Some(PatternKind::Choose(read))),
            None => Ok(None),
        },
        "CharLiteral" => match <Tree as Reads<Atom>>::read(alloc, first, reader, depth)? {
            Some(read) => Ok(Some(PatternKind::CharLiteral(read))),
            None => Ok(None),
        },
        "String" => match <Tree as Reads<String>>::read(alloc, first, reader, depth)? {
            Some(read) => Ok(Some(PatternKind::String(read))),
            None => Ok(None),
        },
        _ => {
            pass(first, reader, depth)?;
            Ok(None)
        }
    }
}

/// What the patterns of an enum and of a tuple struct hold.
#[cycle(pattern)]
fn path_and_patterns<'a>(
    alloc: Global,
    first: Token<'a>,
    reader: &mut Reader<'a>,
    depth: usize,
) -> Result<Option<(Path, Vec<Pattern<TypeRef>>)>, ReadError>
    ensures ok { ReadsRow result
        (λ p. path_form (path_view p.0) ∷ list_form (map (λ p. pattern_form (pattern_view type_view p)) p.1.items) ∷ [])
        (is shape.path ∷ is_list (is shape.pattern) ∷ []) depth first.entry reader.old reader.new }
    ensures err { NotJsonOnlyIfNoData result depth first.entry reader.old }
    ensures shorter { LeavesNoMore result reader.old reader.new }
{
    let Some(depth) = open_array(first, reader, depth)? else {
        return Ok(None);
    };
    let mut path = None;
    let mut list = None;
    let mut place = 0usize;
    while let Some(first) = next_item(reader)? {
        match place {
            0 => {
                path = <Tree as Reads<Path>>::read(alloc, first, reader, depth)?;
                place = 1;
            }
            1 => {
                list = patterns(alloc, first, reader, depth)?;
                place = 2;
            }
            _ => {
                pass(first, reader, depth)?;
                place = 3;
            }
        }
    }
    if place != 2 {
        return Ok(None);
    }
    Ok(both(path, list))
}

/// The pattern of a struct with this path, these fields and that rest.
#[cycle(pattern)]
fn structured<'a>(
    alloc: Global,
    first: Token<'a>,
    reader: &mut Reader<'a>,
    depth: usize,
) -> Result<Option<PatternKind<TypeRef>>, ReadError>
    ensures ok { ReadsUnder result (codes "Struct") (λ k. pattern_kind_form (pattern_kind_view type_view k)) (is shape.pattern_kind)
        depth first.entry reader.old reader.new }
    ensures err { NotJsonOnlyIfNoData result depth first.entry reader.old }
    ensures shorter { LeavesNoMore result reader.old reader.new }
{
    let Some(depth) = open_array(first, reader, depth)? else {
        return Ok(None);
    };
    let mut path = None;
    let mut fields = None;
    let mut rest = None;
    let mut place = 0usize;
    while let Some(first) = next_item(reader)? {
        match place {
            0 => {
                path = <Tree as Reads<Path>>::read(alloc, first, reader, depth)?;
                place = 1;
            }
            1 => {
                fields = field_patterns(alloc, first, reader, depth)?;
                place = 2;
            }
            2 => {
                rest = <Tree as Reads<bool>>::read(alloc, first, reader, depth)?;
                place = 3;
            }
            _ => {
                pass(first, reader, depth)?;
                place = 4;
            }
        }
    }
    if place != 3 {
        return Ok(None);
    }
    match all_three(path, fields, rest) {
        Some((path, fields, rest)) => Ok(Some(PatternKind::Struct(path, fields, rest))),
        None => Ok(None),
    }
}

#[cycle(pattern)]
fn field_pattern<'a>(
    alloc: Global,
    first: Token<'a>,
    reader: &mut Reader<'a>,
    depth: usize,
) -> Result<Option<FieldPattern<TypeRef>>, ReadError>
    ensures ok { ReadsForm result (λ f. field_form (field_view type_view f)) (is shape.field_pattern)
        depth first.entry reader.old reader.new }
    ensures err { NotJsonOnlyIfNoData result depth first.entry reader.old }
    ensures shorter { LeavesNoMore result reader.old reader.new }
{
    let Some(depth) = open_object(first, reader, depth)? else {
        return Ok(None);
    };
    let mut field_name = None;
    let mut field_span = None;
    let mut of = None;
    let mut strays = false;
    while let Some((key, first)) = next_member(reader)? {
        match key {
            "field_name" => field_name = <Tree as Reads<Atom>>::read(alloc, first, reader, depth)?,
            "field_span" => field_span = <Tree as Reads<Span>>::read(alloc, first, reader, depth)?,
            "pattern" => of = pattern(alloc, first, reader, depth)?,
            _ => {
                pass(first, reader, depth)?;
                strays = true;
            }
        }
    }
    if strays {
        return Ok(None);
    }
    let Some(field_name) = field_name else {
        return Ok(None);
    };
    let Some(field_span) = field_span else {
        return Ok(None);
    };
    let Some(of) = of else {
        return Ok(None);
    };
    Ok(Some(FieldPattern {
        field_span,
        field_name,
        pattern: of,
    }))
}

#[cycle(pattern)]
fn field_patterns<'a>(
    alloc: Global,
    first: Token<'a>,
    reader: &mut Reader<'a>,
    depth: usize,
) -> Result<Option<Vec<FieldPattern<TypeRef>>>, ReadError>
    ensures ok { ReadsList result (λ f. field_form (field_view type_view f)) (is shape.field_pattern)
        depth first.entry reader.old reader.new }
    ensures err { NotJsonOnlyIfNoData result depth first.entry reader.old }
    ensures shorter { LeavesNoMore result reader.old reader.new }
{
    let Some(depth) = open_array(first, reader, depth)? else {
        return Ok(None);
    };
    let mut list = Vec::new(alloc);
    let mut good = true;
    while let Some(first) = next_item(reader)? {
        match field_pattern(alloc, first, reader, depth)? {
            Some(item) => push(&mut list, item)?,
            None => good = false,
        }
    }
    if good {
        Ok(Some(fitted(list)?))
    } else {
        Ok(None)
    }
}

#[cycle(pattern)]
fn pattern<'a>(
    alloc: Global,
    first: Token<'a>,
    reader: &mut Reader<'a>,
    depth: usize,
) -> Result<Option<Pattern<TypeRef>>, ReadError>
    ensures ok { ReadsForm result (λ p. pattern_form (pattern_view type_view p)) (is shape.pattern)
        depth first.entry reader.old reader.new }
    ensures err { NotJsonOnlyIfNoData result depth first.entry reader.old }
    ensures shorter { LeavesNoMore result reader.old reader.new }
{
    let Some(depth) = open_object(first, reader, depth)? else {
        return Ok(None);
    };
    let mut kind = None;
    let mut span = None;
    let mut strays = false;
    while let Some((key, first)) = next_member(reader)? {
        match key {
            "kind" => kind = pattern_kind(alloc, first, reader, depth)?,
            "span" => span = <Tree as Reads<Span>>::read(alloc, first, reader, depth)?,
            _ => {
                pass(first, reader, depth)?;
                strays = true;
            }
        }
    }
    if strays {
        return Ok(None);
    }
    let Some(kind) = kind else {
        return Ok(None);
    };
    let Some(span) = span else {
        return Ok(None);
    };
    Ok(Some(Pattern { span, kind }))
}

#[cycle(pattern)]
fn patterns<'a>(
    alloc: Global,
    first: Token<'a>,
    reader: &mut Reader<'a>,
    depth: usize,
) -> Result<Option<Vec<Pattern<TypeRef>>>, ReadError>
    ensures ok { ReadsList result (λ p. pattern_form (pattern_view type_view p)) (is shape.pattern)
        depth first.entry reader.old reader.new }
    ensures err { NotJsonOnlyIfNoData result depth first.entry reader.old }
    ensures shorter { LeavesNoMore result reader.old reader.new }
{
    let Some(depth) = open_array(first, reader, depth)? else {
        return Ok(None);
    };
    let mut list = Vec::new(alloc);
    let mut good = true;
    while let Some(first) = next_item(reader)? {
        match pattern(alloc, first, reader, depth)? {
            Some(item) => push(&mut list, item)?,
            None => good = false,
        }
    }
    if good {
        Ok(Some(fitted(list)?))
    } else {
        Ok(None)
    }
}

impl Reads<Pattern<TypeRef>> for Tree {
    ghost use Rattle.lalrpop_norm_tree_patterns.specs.Patterns.{pattern_view};
    ghost use Rattle.lalrpop_norm_tree.specs.Types.{type_view};
    ghost use Rattle.lalrpop_norm_json.specs.PatternForms.{pattern_form};
    ghost use Rattle.lalrpop_norm_json.specs.Shapes as shape;
    ghost use Rattle.lalrpop_norm_json.specs.Shapes.{is};

    ghost form = { λ p. pattern_form (pattern_view type_view p) };

    ghost can = { is shape.pattern };

    fn read<'a>(
        alloc: Global,
        first: Token<'a>,
        reader: &mut Reader<'a>,
        depth: usize,
    ) -> Result<Option<Pattern<TypeRef>>, ReadError> {
        pattern(alloc, first, reader, depth)
    }
}
