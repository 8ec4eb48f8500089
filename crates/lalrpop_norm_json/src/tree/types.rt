//! Written types.
ghost use Rattle.std.specs.Prelude.{[], ◌∷◌, codes, map, IfOk};
ghost use Rattle.json.specs.Reads.{token_of};
ghost use Rattle.json_records.specs.Reading.{list_form, may_be, maybe_form, is_text, is_truth};
ghost use Rattle.json_records.specs.Readers.{ReadsForm, ReadsUnder, ReadsList, NotJsonOnlyIfNoData, LeavesNoMore};
ghost use Rattle.lalrpop_norm_json.specs.Shapes as shape;
ghost use Rattle.lalrpop_norm_json.specs.Shapes.{is};
ghost use Rattle.lalrpop_norm_tree_parts.specs.Paths.{path_view};
ghost use Rattle.lalrpop_norm_tree.specs.Types.{type_view};
ghost use Rattle.lalrpop_norm_json.specs.Json.{fields};
ghost use Rattle.lalrpop_norm_json.specs.Shapes.{fits, one, many, struct};
ghost use Rattle.lalrpop_norm_json.specs.Taken.{IsTaken, reference_held};
ghost use Rattle.lalrpop_norm_json.specs.Forms.{path_form};
ghost use Rattle.lalrpop_norm_json.specs.TypeForms.{type_form};

use super::Tree;
use super::fields::three_values;
use json::{Reader, Token};
use json_records::{
    And, End, ReadError, Reads, fitted, is_other, next_item, next_member, open_array, open_object,
    pass, push,
};
use lalrpop_norm_tree::grammar::parse_tree::{
    Atom, Lifetime, Path, SymbolKind, TypeParameter, TypeRef,
};
use std::alloc::Global;

/// A written type.
#[cycle(type_ref)]
pub(crate) fn type_ref<'a>(
    alloc: Global,
    first: Token<'a>,
    reader: &mut Reader<'a>,
    depth: usize,
) -> Result<Option<TypeRef>, ReadError>
    ensures ok { ReadsForm result (λ t. type_form (type_view t)) (is shape.type) depth first.entry reader.old reader.new }
    ensures err { NotJsonOnlyIfNoData result depth first.entry reader.old }
    ensures shorter { LeavesNoMore result reader.old reader.new }
{
    let Some(depth) = open_object(first, reader, depth)? else {
        return Ok(None);
    };
    let mut read = None;
    let mut before = None;
    let mut strays = false;
    while let Some((name, first)) = next_member(reader)? {
        if is_other(before, name) {
            pass(first, reader, depth)?;
            strays = true;
        } else {
            read = type_of(alloc, name, first, reader, depth)?;
            before = Some(name);
        }
    }
    if strays {
        return Ok(None);
    }
    Ok(read)
}

/// The type of that variant, over a value.
#[cycle(type_ref)]
fn type_of<'a>(
    alloc: Global,
    name: &str,
    first: Token<'a>,
    reader: &mut Reader<'a>,
    depth: usize,
) -> Result<Option<TypeRef>, ReadError>
    ensures ok { ReadsUnder result name.now (λ t. type_form (type_view t)) (is shape.type) depth first.entry reader.old reader.new }
    ensures err { NotJsonOnlyIfNoData result depth first.entry reader.old }
    ensures shorter { LeavesNoMore result reader.old reader.new }
{
    match name {
        "Tuple" => match type_refs(alloc, first, reader, depth)? {
            Some(read) => Ok(Some(TypeRef::Tuple(read))),
            None => Ok(None),
        },
        "Slice" => slice_type(alloc, first, reader, depth),
        "Nominal" => match path_and_types(alloc, first, reader, depth)? {
            Some((path, types)) => Ok(Some(TypeRef::Nominal { path, types })),
            None => Ok(None),
        },
        "Ref" => reference_type(alloc, first, reader, depth),
        "TraitObject" => match path_and_types(alloc, first, reader, depth)? {
            Some((path, types)) => Ok(Some(TypeRef::TraitObject { path, types })),
            None => Ok(None),
        },
        "Lifetime" => match <Tree as Reads<Lifetime>>::read(alloc, first, reader, depth)? {
            Some(read) => Ok(Some(TypeRef::Lifetime(read))),
            None => Ok(None),
        },
        "Id" => match <Tree as Reads<Atom>>::read(alloc, first, reader, depth)? {
            Some(read) => Ok(Some(TypeRef::Id(read))),
            None => Ok(None),
        },
        "OfSymbol" => match <Tree as Reads<SymbolKind>>::read(alloc, first, reader, depth)? {
            Some(read) => Ok(Some(TypeRef::OfSymbol(read))),
            None => Ok(None),
        },
        "Fn" => function_type(alloc, first, reader, depth),
        _ => {
            pass(first, reader, depth)?;
            Ok(None)
        }
    }
}

/// The slice of a type.
#[cycle(type_ref)]
fn slice_type<'a>(
    alloc: Global,
    first: Token<'a>,
    reader: &mut Reader<'a>,
    depth: usize,
) -> Result<Option<TypeRef>, ReadError>
    ensures ok { ReadsUnder result (codes "Slice") (λ t. type_form (type_view t)) (is shape.type) depth first.entry reader.old reader.new }
    ensures err { NotJsonOnlyIfNoData result depth first.entry reader.old }
    ensures shorter { LeavesNoMore result reader.old reader.new }
{
    match type_ref(alloc, first, reader, depth)? {
        Some(of) => Ok(Some(TypeRef::Slice(Box::new(alloc, of)?))),
        None => Ok(None),
    }
}

/// What a named type and a trait object hold.
#[cycle(type_ref)]
fn path_and_types<'a>(
    alloc: Global,
    first: Token<'a>,
    reader: &mut Reader<'a>,
    depth: usize,
) -> Result<Option<(Path, Vec<TypeRef>)>, ReadError>
    ensures ok { ReadsForm result
        (λ p. fields ((codes "path", path_form (path_view p.0))
        ∷ (codes "types", list_form (map (λ t. type_form (type_view t)) p.1.items)) ∷ []))
        (fits (struct ((codes "path", one shape.path) ∷ (codes "types", many shape.type) ∷ [])))
        depth first.entry reader.old reader.new }
    ensures err { NotJsonOnlyIfNoData result depth first.entry reader.old }
    ensures shorter { LeavesNoMore result reader.old reader.new }
{
    let Some(depth) = open_object(first, reader, depth)? else {
        return Ok(None);
    };
    let mut path = None;
    let mut types = None;
    let mut strays = false;
    while let Some((key, first)) = next_member(reader)? {
        match key {
            "path" => path = <Tree as Reads<Path>>::read(alloc, first, reader, depth)?,
            "types" => types = type_refs(alloc, first, reader, depth)?,
            _ => {
                pass(first, reader, depth)?;
                strays = true;
            }
        }
    }
    if strays {
        return Ok(None);
    }
    let Some(path) = path else {
        return Ok(None);
    };
    let Some(types) = types else {
        return Ok(None);
    };
    Ok(Some((path, types)))
}

/// The reference whose fields these are.
#[cycle(type_ref)]
fn reference_type<'a>(
    alloc: Global,
    first: Token<'a>,
    reader: &mut Reader<'a>,
    depth: usize,
) -> Result<Option<TypeRef>, ReadError>
    ensures ok { ReadsUnder result (codes "Ref") (λ t. type_form (type_view t)) (is shape.type) depth first.entry reader.old reader.new }
    ensures err { NotJsonOnlyIfNoData result depth first.entry reader.old }
    ensures shorter { LeavesNoMore result reader.old reader.new }
{
    let Some(depth) = open_object(first, reader, depth)? else {
        return Ok(None);
    };
    let mut fields = And {
        first: None,
        rest: And {
            first: None,
            rest: And {
                first: None,
                rest: End,
            },
        },
    };
    let mut strays = false;
    while let Some(member) = next_member(reader)? {
        if !reference_field(alloc, &mut fields, member, reader, depth)? {
            strays = true;
        }
    }
    match three_values(fields, strays) {
        Some((lifetime, mutable, referent)) => Ok(Some(TypeRef::Ref {
            lifetime,
            mutable,
            referent: Box::new(alloc, referent)?,
        })),
        None => Ok(None),
    }
}

/// Reads the value of a member into the field of its name, and says whether there is such a field.
#[cycle(type_ref)]
fn reference_field<'a>(
    alloc: Global,
    fields: &mut And<Option<Lifetime>, And<bool, And<TypeRef, End>>>,
    member: (&'a str, Token<'a>),
    reader: &mut Reader<'a>,
    depth: usize,
) -> Result<bool, ReadError>
    ensures ok { IfOk result (λ known. IsTaken (codes "lifetime" ∷ codes "mutable" ∷ codes "referent" ∷ [])
        (may_be is_text ∷ is_truth ∷ is shape.type ∷ []) member.entry.0.now depth (token_of member.entry.1 ∷ reader.old) reader.new
        (reference_held fields.old) (reference_held fields.new) known) }
    ensures err { NotJsonOnlyIfNoData result depth member.entry.1 reader.old }
    ensures shorter { LeavesNoMore result reader.old reader.new }
{
    let (key, first) = member;
    match key {
        "lifetime" => {
            fields.first = <Tree as Reads<Option<Lifetime>>>::read(alloc, first, reader, depth)?;
            Ok(true)
        }
        "mutable" => {
            fields.rest.first = <Tree as Reads<bool>>::read(alloc, first, reader, depth)?;
            Ok(true)
        }
        "referent" => {
            fields.rest.rest.first = type_ref(alloc, first, reader, depth)?;
            Ok(true)
        }
        _ => {
            pass(first, reader, depth)?;
            Ok(false)
        }
    }
}

/// The function type whose fields these are.
#[cycle(type_ref)]
fn function_type<'a>(
    alloc: Global,
    first: Token<'a>,
    reader: &mut Reader<'a>,
    depth: usize,
) -> Result<Option<TypeRef>, ReadError>
    ensures ok { ReadsUnder result (codes "Fn") (λ t. type_form (type_view t)) (is shape.type) depth first.entry reader.old reader.new }
    ensures err { NotJsonOnlyIfNoData result depth first.entry reader.old }
    ensures shorter { LeavesNoMore result reader.old reader.new }
{
    let Some(depth) = open_object(first, reader, depth)? else {
        return Ok(None);
    };
    let mut forall = None;
    let mut parameters = None;
    let mut path = None;
    let mut ret = None;
    let mut strays = false;
    while let Some((key, first)) = next_member(reader)? {
        match key {
            "forall" => forall = <Tree as Reads<Vec<TypeParameter>>>::read(
                alloc, first, reader, depth,
            )?,
            "parameters" => parameters = type_refs(alloc, first, reader, depth)?,
            "path" => path = <Tree as Reads<Path>>::read(alloc, first, reader, depth)?,
            "ret" => ret = maybe_type_ref(alloc, first, reader, depth)?,
            _ => {
                pass(first, reader, depth)?;
                strays = true;
            }
        }
    }
    if strays {
        return Ok(None);
    }
    let Some(forall) = forall else {
        return Ok(None);
    };
    let Some(parameters) = parameters else {
        return Ok(None);
    };
    let Some(path) = path else {
        return Ok(None);
    };
    let Some(ret) = ret else {
        return Ok(None);
    };
    Ok(Some(TypeRef::Fn {
        forall,
        path,
        parameters,
        ret,
    }))
}

/// Null, or a type.
#[cycle(type_ref)]
fn maybe_type_ref<'a>(
    alloc: Global,
    first: Token<'a>,
    reader: &mut Reader<'a>,
    depth: usize,
) -> Result<Option<Option<Box<TypeRef>>>, ReadError>
    ensures ok { ReadsForm result (maybe_form (λ b. type_form (type_view b.value))) (may_be (is shape.type))
        depth first.entry reader.old reader.new }
    ensures err { NotJsonOnlyIfNoData result depth first.entry reader.old }
    ensures shorter { LeavesNoMore result reader.old reader.new }
{
    if let Token::Null = first {
        return Ok(Some(None));
    }
    match type_ref(alloc, first, reader, depth)? {
        Some(of) => Ok(Some(Some(Box::new(alloc, of)?))),
        None => Ok(None),
    }
}

#[cycle(type_ref)]
fn type_refs<'a>(
    alloc: Global,
    first: Token<'a>,
    reader: &mut Reader<'a>,
    depth: usize,
) -> Result<Option<Vec<TypeRef>>, ReadError>
    ensures ok { ReadsList result (λ t. type_form (type_view t)) (is shape.type) depth first.entry reader.old reader.new }
    ensures err { NotJsonOnlyIfNoData result depth first.entry reader.old }
    ensures shorter { LeavesNoMore result reader.old reader.new }
{
    let Some(depth) = open_array(first, reader, depth)? else {
        return Ok(None);
    };
    let mut list = Vec::new(alloc);
    let mut good = true;
    while let Some(first) = next_item(reader)? {
        match type_ref(alloc, first, reader, depth)? {
            Some(item) => push(&mut list, item)?,
            None => good = false,
        }
    }
    if good {
        Ok(Some(fitted(list)?))
    } else {
        Ok(None)
    }
}
