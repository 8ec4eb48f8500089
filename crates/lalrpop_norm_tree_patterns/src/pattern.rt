//! Patterns of conversions.
mod bindings;
mod copy;
mod map;
mod show;

use lalrpop_norm_tree_parts::names::Span;
use lalrpop_norm_tree_parts::path::Path;
use shared_text::Atom;

/// A pattern with its span. What it binds is selected, as `<u32>`, and holds a T.
#[cycle(pattern)]
#[derive(Debug, PartialEq, Eq, Drop)]
pub struct Pattern<T> {
    /// Its span.
    pub span: Span,
    /// What it is.
    pub kind: PatternKind<T>,
}

/// A field of a struct pattern.
#[cycle(pattern)]
#[derive(Debug, PartialEq, Eq, Drop)]
pub struct FieldPattern<T> {
    /// The span of the field.
    pub field_span: Span,
    /// The field's name.
    pub field_name: Atom,
    /// What its value must be.
    pub pattern: Pattern<T>,
}

/// What a pattern is.
#[cycle(pattern)]
#[derive(Debug, PartialEq, Eq, Drop)]
pub enum PatternKind<T> {
    /// `P(a, b)`, as a grammar writes it.
    Enum(Path, Vec<Pattern<T>>),
    /// `P { f: a, .. }`: the path, the fields, and whether it has a rest `..`.
    Struct(Path, Vec<FieldPattern<T>>, bool),
    /// `P`.
    Path(Path),
    /// `(a, b)`.
    Tuple(Vec<Pattern<T>>),
    /// `P(a, b)`; lowering makes it for tokenizers.
    TupleStruct(Path, Vec<Pattern<T>>),
    /// `7`.
    Usize(usize),
    /// `_`: anything.
    Underscore,
    /// `..`: what is left.
    DotDot,
    /// A selected part: `<T>`.
    Choose(T),
    /// `'c'`.
    CharLiteral(Atom),
    /// `"a"`: the text without quotes.
    String(String),
}
