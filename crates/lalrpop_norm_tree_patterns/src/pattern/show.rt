//! The texts of patterns.
ghost use Rattle.std.specs.Prelude.{Some, codes, ◌++◌};
ghost use Rattle.std.specs.Fmt.{DisplaysOnOk, WritesOnOk, ◌++?◌};
ghost use Rattle.lalrpop_norm_tree_parts.specs.Paths.{path_view};
ghost use Rattle.lalrpop_norm_tree_patterns.specs.Patterns.{pattern_kind_view, pattern_view, field_view, patterns_view, fields_view};
ghost use Rattle.lalrpop_norm_tree_parts.specs.KnownTexts.{joined_known};
ghost use Rattle.lalrpop_norm_tree_patterns.specs.PatternTexts.{pattern_kind_text, pattern_text, pattern_texts, field_text, field_texts};
ghost use Rattle.lalrpop_norm_tree_patterns.specs.PatternTexts.{rest_texts};
ghost use Rattle.lalrpop_norm_tree_names.specs.Texts.{escape};
ghost use Rattle.lalrpop_norm_tree_parts.specs.TypeTexts.{path_text};

use super::{FieldPattern, Pattern, PatternKind};
use lalrpop_norm_tree_names::escape::write_escaped;
use lalrpop_norm_tree_parts::path::Path;
use lalrpop_norm_tree_parts::show::{show_between, show_joined};
use shared_text::Atom;
use std::fmt;

impl<T: fmt::Display> fmt::Display for Pattern<T> {
    ghost output = { λ p. pattern_text (pattern_view T.output p) };

    #[cycle(show)]
    fn fmt<W: fmt::Write>(&self, f: &mut fmt::Formatter<W>) -> fmt::Result {
        fmt::Display::fmt(&self.kind, f)
    }
}

impl<T: fmt::Display> fmt::Display for FieldPattern<T> {
    ghost output = { λ p. field_text (field_view T.output p) };

    #[cycle(show)]
    fn fmt<W: fmt::Write>(&self, f: &mut fmt::Formatter<W>) -> fmt::Result {
        fmt::Display::fmt(&self.field_name, f)?;
        f.write_str(": ")?;
        fmt::Display::fmt(&self.pattern, f)
    }
}

impl<T: fmt::Display> fmt::Display for PatternKind<T> {
    ghost output = { λ k. pattern_kind_text (pattern_kind_view T.output k) };

    #[cycle(show)]
    fn fmt<W: fmt::Write>(&self, f: &mut fmt::Formatter<W>) -> fmt::Result {
        match self {
            PatternKind::Enum(path, patterns) => show_applied(path, patterns, f),
            PatternKind::Struct(path, fields, rest) => show_struct(path, fields, *rest, f),
            PatternKind::Path(path) => fmt::Display::fmt(path, f),
            PatternKind::Tuple(patterns) => show_patterns(patterns, f),
            PatternKind::TupleStruct(path, patterns) => show_applied(path, patterns, f),
            PatternKind::Usize(number) => fmt::Display::fmt(number, f),
            PatternKind::Underscore => f.write_str("_"),
            PatternKind::DotDot => f.write_str(".."),
            PatternKind::Choose(chosen) => fmt::Display::fmt(chosen, f),
            PatternKind::CharLiteral(character) => show_character(character, f),
            PatternKind::String(text) => show_string(text, f),
        }
    }
}

/// `P(a, b)`.
#[cycle(show)]
fn show_applied<T: fmt::Display, W: fmt::Write>(
    path: &Path,
    patterns: &Vec<Pattern<T>>,
    f: &mut fmt::Formatter<W>,
) -> fmt::Result
    ensures { DisplaysOnOk W.write_str_gives f.old result
        (Some (path_text (path_view path.now)) ++? (Some
        (codes "(") ++? joined_known (codes ", ") (pattern_texts (patterns_view T.output patterns.now.items)) ++? Some (codes ")"))) f.new }
{
    fmt::Display::fmt(path, f)?;
    show_patterns(patterns, f)
}

/// `(a, b)`.
#[cycle(show)]
fn show_patterns<T: fmt::Display, W: fmt::Write>(
    patterns: &Vec<Pattern<T>>,
    f: &mut fmt::Formatter<W>,
) -> fmt::Result
    ensures { DisplaysOnOk W.write_str_gives f.old result
        (Some (codes "(") ++? joined_known (codes ", ") (pattern_texts (patterns_view T.output patterns.now.items)) ++? Some (codes ")"))
        f.new }
{
    show_between(patterns, f)
}

/// `P { f: a, .. }`, with the fields between braces.
#[cycle(show)]
fn show_struct<T: fmt::Display, W: fmt::Write>(
    path: &Path,
    fields: &Vec<FieldPattern<T>>,
    rest: bool,
    f: &mut fmt::Formatter<W>,
) -> fmt::Result
    ensures { DisplaysOnOk W.write_str_gives f.old result
        (Some (path_text (path_view path.now)) ++? Some (codes " { ")
        ++? joined_known (codes ", ") (field_texts (fields_view T.output fields.now.items) ++ rest_texts rest) ++? Some (codes " }"))
        f.new }
{
    fmt::Display::fmt(path, f)?;
    f.write_str(" { ")?;
    show_fields_and_rest(fields, rest, f)?;
    f.write_str(" }")
}

/// `f: a, ..`.
#[cycle(show)]
fn show_fields_and_rest<T: fmt::Display, W: fmt::Write>(
    fields: &Vec<FieldPattern<T>>,
    rest: bool,
    f: &mut fmt::Formatter<W>,
) -> fmt::Result
    ensures { DisplaysOnOk W.write_str_gives f.old result
        (joined_known (codes ", ") (field_texts (fields_view T.output fields.now.items) ++ rest_texts rest)) f.new }
{
    show_fields(fields, f)?;
    if !rest {
        return Ok(());
    }
    if fields.is_empty() {
        f.write_str("..")
    } else {
        f.write_str(", ..")
    }
}

/// The fields with `, ` between each two.
#[cycle(show)]
fn show_fields<T: fmt::Display, W: fmt::Write>(
    fields: &Vec<FieldPattern<T>>,
    f: &mut fmt::Formatter<W>,
) -> fmt::Result
    ensures { DisplaysOnOk W.write_str_gives f.old result
        (joined_known (codes ", ") (field_texts (fields_view T.output fields.now.items))) f.new }
{
    show_joined(fields, ", ", f)
}

/// `'c'`.
fn show_character<W: fmt::Write>(character: &Atom, f: &mut fmt::Formatter<W>) -> fmt::Result
    ensures { WritesOnOk W.write_str_gives f.old result (codes "'" ++ character.now ++ codes "'") f.new }
{
    f.write_str("'")?;
    fmt::Display::fmt(character, f)?;
    f.write_str("'")
}

/// The text between double quotes, escaped.
fn show_string<W: fmt::Write>(text: &str, f: &mut fmt::Formatter<W>) -> fmt::Result
    ensures { WritesOnOk W.write_str_gives f.old result (codes "\"" ++ escape text.now ++ codes "\"") f.new }
{
    f.write_str("\"")?;
    write_escaped(text, f)?;
    f.write_str("\"")
}
