//! Patterns of conversions.
ghost use Rattle.std.specs.Prelude.{◌≡◌, ◌∷◌, [], map};
ghost use Rattle.serde_json.specs.Data.{array, boolean};
ghost use Rattle.lalrpop_norm_json.specs.Json.{row, variant};
ghost use Rattle.lalrpop_norm_json.specs.Forms.{path_form};
ghost use Rattle.lalrpop_norm_tree_parts.specs.Paths.{path_view};
ghost use Rattle.lalrpop_norm_tree_parts.specs.Reprs.{repr_view};
ghost use Rattle.lalrpop_norm_tree_patterns.specs.Patterns.{pattern_view, pattern_kind_view, field_view, patterns_of, fields_of};
ghost use Rattle.lalrpop_norm_lowered_json_tables.specs.Written.{Puts};
ghost use Rattle.lalrpop_norm_lowered_json.specs.LoweredForms.{lowered_pattern_form, lowered_pattern_kind_form, lowered_patterns_form};
ghost use Rattle.lalrpop_norm_lowered_json.specs.LoweredForms.{lowered_field_form, lowered_fields_form};

use crate::put::Form;
use json::Writer;
use lalrpop_norm_lowered_json_tables::put::{Plain, Puts, begin_variant, put_field, put_variant};
use lalrpop_norm_repr::grammar::repr::{Path, Span, TypeRepr};
use lalrpop_norm_tree::grammar::parse_tree::Atom;
use lalrpop_norm_tree::grammar::pattern::{FieldPattern, Pattern, PatternKind};
use std::alloc::AllocError;

impl Puts<Pattern<TypeRepr>> for Form {
    ghost form = { λ p. lowered_pattern_form (pattern_view repr_view p) };

    fn put(out: &mut Writer, value: &Pattern<TypeRepr>) -> Result<(), AllocError> {
        put_pattern(out, value)
    }
}

/// A pattern.
#[cycle(patterns)]
fn put_pattern(out: &mut Writer, pattern: &Pattern<TypeRepr>) -> Result<(), AllocError>
    ensures { Puts result out.old out.new (lowered_pattern_form (pattern_view repr_view pattern.now)) }
{
    out.begin_object()?;
    out.key("kind")?;
    put_kind(out, &pattern.kind)?;
    put_field::<Span, Form>(out, "span", &pattern.span)?;
    out.end_object()
}

/// What a pattern is.
#[cycle(patterns)]
fn put_kind(out: &mut Writer, kind: &PatternKind<TypeRepr>) -> Result<(), AllocError>
    ensures { Puts result out.old out.new (lowered_pattern_kind_form (pattern_kind_view repr_view kind.now)) }
{
    match kind {
        PatternKind::Enum(path, patterns) => put_called(out, "Enum", path, patterns),
        PatternKind::Struct(path, fields, rest) => {
            begin_variant(out, "Struct")?;
            put_struct(out, path, fields, *rest)?;
            out.end_object()
        }
        PatternKind::Path(path) => put_variant::<Path, Form>(out, "Path", path),
        PatternKind::Tuple(patterns) => {
            begin_variant(out, "Tuple")?;
            put_patterns(out, patterns)?;
            out.end_object()
        }
        PatternKind::TupleStruct(path, patterns) => put_called(out, "TupleStruct", path, patterns),
        PatternKind::Usize(number) => put_variant::<usize, Plain>(out, "Usize", number),
        PatternKind::Underscore => out.string("Underscore"),
        PatternKind::DotDot => out.string("DotDot"),
        PatternKind::Choose(ty) => put_variant::<TypeRepr, Form>(out, "Choose", ty),
        PatternKind::CharLiteral(text) => put_variant::<Atom, Plain>(out, "CharLiteral", text),
        PatternKind::String(text) => put_variant::<String, Plain>(out, "String", text),
    }
}

/// The variant of a path with patterns.
#[cycle(patterns)]
fn put_called(
    out: &mut Writer,
    name: &str,
    path: &Path,
    patterns: &Vec<Pattern<TypeRepr>>,
) -> Result<(), AllocError>
    ensures { Puts result out.old out.new
        (variant name.now (row (path_form (path_view path.now)
        ∷ array (lowered_patterns_form (patterns_of (map (pattern_view repr_view) patterns.now.items))) ∷ []))) }
{
    begin_variant(out, name)?;
    put_path_and_patterns(out, path, patterns)?;
    out.end_object()
}

/// A row of a path and patterns.
#[cycle(patterns)]
fn put_path_and_patterns(
    out: &mut Writer,
    path: &Path,
    patterns: &Vec<Pattern<TypeRepr>>,
) -> Result<(), AllocError>
    ensures { Puts result out.old out.new
        (row (path_form (path_view path.now)
        ∷ array (lowered_patterns_form (patterns_of (map (pattern_view repr_view) patterns.now.items))) ∷ [])) }
{
    out.begin_array()?;
    <Form as Puts<Path>>::put(out, path)?;
    put_patterns(out, patterns)?;
    out.end_array()
}

/// What `Struct` holds.
#[cycle(patterns)]
fn put_struct(
    out: &mut Writer,
    path: &Path,
    fields: &Vec<FieldPattern<TypeRepr>>,
    rest: bool,
) -> Result<(), AllocError>
    ensures { Puts result out.old out.new
        (row (path_form (path_view path.now) ∷ array (lowered_fields_form (fields_of (map (field_view repr_view) fields.now.items)))
        ∷ boolean rest ∷ [])) }
{
    out.begin_array()?;
    <Form as Puts<Path>>::put(out, path)?;
    put_fields(out, fields)?;
    out.boolean(rest)?;
    out.end_array()
}

/// An array of patterns.
#[cycle(patterns)]
fn put_patterns(out: &mut Writer, patterns: &Vec<Pattern<TypeRepr>>) -> Result<(), AllocError>
    ensures { Puts result out.old out.new (array (lowered_patterns_form (patterns_of (map (pattern_view repr_view) patterns.now.items)))) }
{
    out.begin_array()?;
    for pattern in patterns {
        put_pattern(out, pattern)?;
    }
    out.end_array()
}

/// An array of fields.
#[cycle(patterns)]
fn put_fields(out: &mut Writer, fields: &Vec<FieldPattern<TypeRepr>>) -> Result<(), AllocError>
    ensures { Puts result out.old out.new (array (lowered_fields_form (fields_of (map (field_view repr_view) fields.now.items)))) }
{
    out.begin_array()?;
    for field in fields {
        put_field_pattern(out, field)?;
    }
    out.end_array()
}

/// A field of a struct pattern.
#[cycle(patterns)]
fn put_field_pattern(out: &mut Writer, field: &FieldPattern<TypeRepr>) -> Result<(), AllocError>
    ensures { Puts result out.old out.new (lowered_field_form (field_view repr_view field.now)) }
{
    out.begin_object()?;
    put_field::<Atom, Plain>(out, "field_name", &field.field_name)?;
    put_field::<Span, Form>(out, "field_span", &field.field_span)?;
    out.key("pattern")?;
    put_pattern(out, &field.pattern)?;
    out.end_object()
}
