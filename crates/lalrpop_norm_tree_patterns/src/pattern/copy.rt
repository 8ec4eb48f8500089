//! Copies of patterns.
ghost use Rattle.std.specs.Prelude.{◌≡◌, IfOk};
ghost use Rattle.lalrpop_norm_tree_parts.specs.Paths.{path_view};
ghost use Rattle.lalrpop_norm_tree_patterns.specs.Patterns.{enumerated, structured, tuple_struct, pattern_view, pattern_kind_view};
ghost use Rattle.lalrpop_norm_tree_patterns.specs.Patterns.{field_view, patterns_view, fields_view, SamePattern, SamePatternKind};
ghost use Rattle.lalrpop_norm_tree_patterns.specs.Patterns.{SamePatterns, SameField, SameFields};

use super::{FieldPattern, Pattern, PatternKind};
use lalrpop_norm_tree_parts::names::Span;
use lalrpop_norm_tree_parts::path::Path;
use shared_text::{Atom, NoMemory};
use std::alloc::{AllocError, Global};

impl<T: Clone> Pattern<T> {
    /// A copy, with a clone of each T. The only error is a failed allocation.
    pub fn clone(&self) -> Result<Pattern<T>, NoMemory>
        ensures { IfOk result (λ p. SamePattern T.is_clone (pattern_view (λ t. t) self.now) (pattern_view (λ t. t) p)) }
    {
        Ok(copy(self)?)
    }
}

impl<T: Clone> FieldPattern<T> {
    /// A copy, with a clone of each T. The only error is a failed allocation.
    pub fn clone(&self) -> Result<FieldPattern<T>, NoMemory>
        ensures { IfOk result (λ p. SameField T.is_clone (field_view (λ t. t) self.now) (field_view (λ t. t) p)) }
    {
        Ok(copy_field(self)?)
    }
}

impl<T: Clone> PatternKind<T> {
    /// A copy, with a clone of each T. The only error is a failed allocation.
    pub fn clone(&self) -> Result<PatternKind<T>, NoMemory>
        ensures { IfOk result (λ k. SamePatternKind T.is_clone (pattern_kind_view (λ t. t) self.now) (pattern_kind_view (λ t. t) k)) }
    {
        Ok(copy_kind(self)?)
    }
}

#[cycle(copy)]
fn copy<T: Clone>(pattern: &Pattern<T>) -> Result<Pattern<T>, AllocError>
    ensures { IfOk result (λ p. SamePattern T.is_clone (pattern_view (λ t. t) pattern.now) (pattern_view (λ t. t) p)) }
{
    let kind = copy_kind(&pattern.kind)?;
    Ok(Pattern {
        span: pattern.span,
        kind,
    })
}

#[cycle(copy)]
fn copy_kind<T: Clone>(kind: &PatternKind<T>) -> Result<PatternKind<T>, AllocError>
    ensures { IfOk result (λ k. SamePatternKind T.is_clone (pattern_kind_view (λ t. t) kind.now) (pattern_kind_view (λ t. t) k)) }
{
    match kind {
        PatternKind::Enum(path, inner) => {
            enumerated(path, copy_patterns(*inner.allocator(), inner)?)
        }
        PatternKind::Struct(path, fields, rest) => {
            structured(path, copy_fields(*fields.allocator(), fields)?, *rest)
        }
        PatternKind::Path(path) => Ok(PatternKind::Path(path.clone()?)),
        PatternKind::Tuple(inner) => Ok(PatternKind::Tuple(copy_patterns(
            *inner.allocator(),
            inner,
        )?)),
        PatternKind::TupleStruct(path, inner) => {
            tuple_struct(path, copy_patterns(*inner.allocator(), inner)?)
        }
        PatternKind::Usize(n) => Ok(PatternKind::Usize(*n)),
        PatternKind::Underscore => Ok(PatternKind::Underscore),
        PatternKind::DotDot => Ok(PatternKind::DotDot),
        PatternKind::Choose(t) => Ok(PatternKind::Choose(t.clone()?)),
        PatternKind::CharLiteral(text) => Ok(PatternKind::CharLiteral(text.clone()?)),
        PatternKind::String(text) => Ok(PatternKind::String(text.clone()?)),
    }
}

#[cycle(copy)]
fn copy_patterns<T: Clone>(
    alloc: Global,
    patterns: &[Pattern<T>],
) -> Result<Vec<Pattern<T>>, AllocError>
    ensures { IfOk result (λ ps. SamePatterns T.is_clone (patterns_view (λ t. t) patterns.now) (patterns_view (λ t. t) ps.items)) }
{
    let mut copies = Vec::new(alloc);
    for pattern in patterns {
        copies.push(copy(pattern)?)?;
    }
    Ok(copies)
}

#[cycle(copy)]
fn copy_fields<T: Clone>(
    alloc: Global,
    fields: &[FieldPattern<T>],
) -> Result<Vec<FieldPattern<T>>, AllocError>
    ensures { IfOk result (λ fs. SameFields T.is_clone (fields_view (λ t. t) fields.now) (fields_view (λ t. t) fs.items)) }
{
    let mut copies = Vec::new(alloc);
    for field in fields {
        copies.push(copy_field(field)?)?;
    }
    Ok(copies)
}

#[cycle(copy)]
fn copy_field<T: Clone>(field: &FieldPattern<T>) -> Result<FieldPattern<T>, AllocError>
    ensures { IfOk result (λ f. SameField T.is_clone (field_view (λ t. t) field.now) (field_view (λ t. t) f)) }
{
    named(field.field_span, &field.field_name, copy(&field.pattern)?)
}

/// `P(a, b)`, with a copy of P.
fn enumerated<T: Clone>(path: &Path, inner: Vec<Pattern<T>>) -> Result<PatternKind<T>, AllocError>
    ensures { IfOk result (λ k. pattern_kind_view (λ t. t) k ≡ enumerated (path_view path.now) (patterns_view (λ t. t) inner.items)) }
{
    let path = path.clone()?;
    Ok(PatternKind::Enum(path, inner))
}

/// `P { f: a, .. }`, with a copy of P.
fn structured<T: Clone>(
    path: &Path,
    fields: Vec<FieldPattern<T>>,
    rest: bool,
) -> Result<PatternKind<T>, AllocError>
    ensures { IfOk result (λ k. pattern_kind_view (λ t. t) k ≡ structured (path_view path.now) (fields_view (λ t. t) fields.items) rest) }
{
    let path = path.clone()?;
    Ok(PatternKind::Struct(path, fields, rest))
}

/// `P(a, b)` of a tokenizer, with a copy of P.
fn tuple_struct<T: Clone>(path: &Path, inner: Vec<Pattern<T>>) -> Result<PatternKind<T>, AllocError>
    ensures { IfOk result (λ k. pattern_kind_view (λ t. t) k ≡ tuple_struct (path_view path.now) (patterns_view (λ t. t) inner.items)) }
{
    let path = path.clone()?;
    Ok(PatternKind::TupleStruct(path, inner))
}

/// The field at that index with a copy of that name.
fn named<T: Clone>(
    field_span: Span,
    name: &Atom,
    pattern: Pattern<T>,
) -> Result<FieldPattern<T>, AllocError>
    ensures { IfOk result (λ f. field_view (λ t. t) f
        ≡ record { span = field_span; name = name.now; pattern = pattern_view (λ t. t) pattern }) }
{
    let field_name = name.clone()?;
    Ok(FieldPattern {
        field_span,
        field_name,
        pattern,
    })
}
