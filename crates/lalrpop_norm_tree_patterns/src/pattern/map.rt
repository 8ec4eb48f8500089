//! Patterns with each selected part put through a function.
ghost use Rattle.std.specs.Prelude.{◌≡◌, IfOk, string_bytes};
ghost use Rattle.std.specs.Fn.{CalledAt};
ghost use Rattle.std.specs.Result.{IfErr};
ghost use Rattle.lalrpop_norm_tree_patterns.specs.MappedPatterns.{kind_shape, pattern_shape, field_shape, mapped_patterns, mapped_fields};
ghost use Rattle.lalrpop_norm_tree_patterns.specs.MappedPatterns.{chosen_in_pattern, chosen_in_kind, chosen_in_all, chosen_in_fields};
ghost use Rattle.lalrpop_norm_tree_parts.specs.Paths.{path_view};
ghost use Rattle.lalrpop_norm_tree_patterns.specs.Patterns.{pattern_view, pattern_kind_view, field_view, patterns_view, fields_view};
ghost use Rattle.lalrpop_norm_tree_parts.specs.Walks.{Answered, Ended};

use super::{FieldPattern, Pattern, PatternKind};
use lalrpop_norm_tree_parts::path::Path;
use lalrpop_norm_tree_parts::walk::{add, map_one, same_name};
use shared_text::NoMemory;
use std::alloc::Global;

impl<T> Pattern<T> {
    /// The pattern with each selected part put through f, from left to right. The first error ends the walk and is the answer; where
    /// an allocation fails between two calls, the error is made of `NoMemory`.
    pub fn map<U: Drop, E: From<NoMemory>, F: FnMut(&T) -> Result<U, E>>(
        &self,
        f: &mut F,
    ) -> Result<Pattern<U>, E>
        requires { F.IsAlwaysCallable f.old }
        ensures again { F.IsAlwaysCallable f.new }
        ensures kept { IfOk result (λ p. pattern_shape (pattern_view (λ u. u) p) ≡ pattern_shape (pattern_view (λ t. t) self.now)) }
        ensures answered { IfOk result (λ p. Answered (CalledAt F.FnMut) f.old (chosen_in_pattern (pattern_view (λ t. t) self.now))
            (chosen_in_pattern (pattern_view (λ u. u) p)) f.new) }
        ensures ended { IfErr result (λ e. Ended (CalledAt F.FnMut) (E.from_gives record {}) f.old
            (chosen_in_pattern (pattern_view (λ t. t) self.now)) e f.new) }
    {
        map_pattern(self, f)
    }
}

impl<T> FieldPattern<T> {
    /// The field with each selected part of its pattern put through f, as `Pattern::map` does.
    pub fn map<U: Drop, E: From<NoMemory>, F: FnMut(&T) -> Result<U, E>>(
        &self,
        f: &mut F,
    ) -> Result<FieldPattern<U>, E>
        requires { F.IsAlwaysCallable f.old }
        ensures again { F.IsAlwaysCallable f.new }
        ensures kept { IfOk result (λ d. field_shape (field_view (λ u. u) d) ≡ field_shape (field_view (λ t. t) self.now)) }
        ensures answered { IfOk result (λ d. Answered (CalledAt F.FnMut) f.old (chosen_in_pattern (field_view (λ t. t) self.now).pattern)
            (chosen_in_pattern (field_view (λ u. u) d).pattern) f.new) }
        ensures ended { IfErr result (λ e. Ended (CalledAt F.FnMut) (E.from_gives record {}) f.old
            (chosen_in_pattern (field_view (λ t. t) self.now).pattern) e f.new) }
    {
        map_field(self, f)
    }
}

impl<T> PatternKind<T> {
    /// What the pattern is, with each selected part put through f, as `Pattern::map` does.
    pub fn map<U: Drop, E: From<NoMemory>, F: FnMut(&T) -> Result<U, E>>(
        &self,
        f: &mut F,
    ) -> Result<PatternKind<U>, E>
        requires { F.IsAlwaysCallable f.old }
        ensures again { F.IsAlwaysCallable f.new }
        ensures kept { IfOk result (λ k. kind_shape (pattern_kind_view (λ u. u) k) ≡ kind_shape (pattern_kind_view (λ t. t) self.now)) }
        ensures answered { IfOk result (λ k. Answered (CalledAt F.FnMut) f.old (chosen_in_kind (pattern_kind_view (λ t. t) self.now))
            (chosen_in_kind (pattern_kind_view (λ u. u) k)) f.new) }
        ensures ended { IfErr result (λ e. Ended (CalledAt F.FnMut) (E.from_gives record {}) f.old
            (chosen_in_kind (pattern_kind_view (λ t. t) self.now)) e f.new) }
    {
        map_kind(self, f)
    }
}

#[cycle(map)]
fn map_pattern<T, U: Drop, E: From<NoMemory>, F: FnMut(&T) -> Result<U, E>>(
    pattern: &Pattern<T>,
    f: &mut F,
) -> Result<Pattern<U>, E>
    requires { F.IsAlwaysCallable f.old }
    ensures again { F.IsAlwaysCallable f.new }
    ensures kept { IfOk result (λ p. pattern_shape (pattern_view (λ u. u) p) ≡ pattern_shape (pattern_view (λ t. t) pattern.now)) }
    ensures answered { IfOk result (λ p. Answered (CalledAt F.FnMut) f.old (chosen_in_pattern (pattern_view (λ t. t) pattern.now))
        (chosen_in_pattern (pattern_view (λ u. u) p)) f.new) }
    ensures ended { IfErr result (λ e. Ended (CalledAt F.FnMut) (E.from_gives record {}) f.old
        (chosen_in_pattern (pattern_view (λ t. t) pattern.now)) e f.new) }
{
    let kind = map_kind(&pattern.kind, f)?;
    Ok(Pattern {
        span: pattern.span,
        kind,
    })
}

#[cycle(map)]
fn map_kind<T, U: Drop, E: From<NoMemory>, F: FnMut(&T) -> Result<U, E>>(
    kind: &PatternKind<T>,
    f: &mut F,
) -> Result<PatternKind<U>, E>
    requires { F.IsAlwaysCallable f.old }
    ensures again { F.IsAlwaysCallable f.new }
    ensures kept { IfOk result (λ k. kind_shape (pattern_kind_view (λ u. u) k) ≡ kind_shape (pattern_kind_view (λ t. t) kind.now)) }
    ensures answered { IfOk result (λ k. Answered (CalledAt F.FnMut) f.old (chosen_in_kind (pattern_kind_view (λ t. t) kind.now))
        (chosen_in_kind (pattern_kind_view (λ u. u) k)) f.new) }
    ensures ended { IfErr result (λ e. Ended (CalledAt F.FnMut) (E.from_gives record {}) f.old
        (chosen_in_kind (pattern_kind_view (λ t. t) kind.now)) e f.new) }
{
    match kind {
        PatternKind::Enum(path, inner) => {
            let path = same_path(path)?;
            let inner = map_patterns(*inner.allocator(), inner, f)?;
            Ok(PatternKind::Enum(path, inner))
        }
        PatternKind::Struct(path, fields, rest) => {
            let path = same_path(path)?;
            let fields = map_fields(*fields.allocator(), fields, f)?;
            Ok(PatternKind::Struct(path, fields, *rest))
        }
        PatternKind::Path(path) => Ok(PatternKind::Path(same_path(path)?)),
        PatternKind::Tuple(inner) => Ok(PatternKind::Tuple(map_patterns(
            *inner.allocator(),
            inner,
            f,
        )?)),
        PatternKind::TupleStruct(path, inner) => {
            let path = same_path(path)?;
            let inner = map_patterns(*inner.allocator(), inner, f)?;
            Ok(PatternKind::TupleStruct(path, inner))
        }
        PatternKind::Usize(n) => Ok(PatternKind::Usize(*n)),
        PatternKind::Underscore => Ok(PatternKind::Underscore),
        PatternKind::DotDot => Ok(PatternKind::DotDot),
        PatternKind::Choose(t) => Ok(PatternKind::Choose(map_one(t, f)?)),
        PatternKind::CharLiteral(text) => Ok(PatternKind::CharLiteral(same_name(text)?)),
        PatternKind::String(text) => Ok(PatternKind::String(same_text(text)?)),
    }
}

#[cycle(map)]
fn map_patterns<T, U: Drop, E: From<NoMemory>, F: FnMut(&T) -> Result<U, E>>(
    alloc: Global,
    patterns: &[Pattern<T>],
    f: &mut F,
) -> Result<Vec<Pattern<U>>, E>
    requires { F.IsAlwaysCallable f.old }
    ensures again { F.IsAlwaysCallable f.new }
    ensures kept { IfOk result (λ ps. mapped_patterns (λ _. tt {0}) (patterns_view (λ u. u) ps.items)
        ≡ mapped_patterns (λ _. tt {0}) (patterns_view (λ t. t) patterns.now)) }
    ensures answered { IfOk result (λ ps. Answered (CalledAt F.FnMut) f.old (chosen_in_all (patterns_view (λ t. t) patterns.now))
        (chosen_in_all (patterns_view (λ u. u) ps.items)) f.new) }
    ensures ended { IfErr result (λ e. Ended (CalledAt F.FnMut) (E.from_gives record {}) f.old
        (chosen_in_all (patterns_view (λ t. t) patterns.now)) e f.new) }
{
    let mut mapped = Vec::new(alloc);
    for pattern in patterns {
        add(&mut mapped, map_pattern(pattern, f)?)?;
    }
    Ok(mapped)
}

#[cycle(map)]
fn map_fields<T, U: Drop, E: From<NoMemory>, F: FnMut(&T) -> Result<U, E>>(
    alloc: Global,
    fields: &[FieldPattern<T>],
    f: &mut F,
) -> Result<Vec<FieldPattern<U>>, E>
    requires { F.IsAlwaysCallable f.old }
    ensures again { F.IsAlwaysCallable f.new }
    ensures kept { IfOk result (λ fs. mapped_fields (λ _. tt {0}) (fields_view (λ u. u) fs.items)
        ≡ mapped_fields (λ _. tt {0}) (fields_view (λ t. t) fields.now)) }
    ensures answered { IfOk result (λ fs. Answered (CalledAt F.FnMut) f.old (chosen_in_fields (fields_view (λ t. t) fields.now))
        (chosen_in_fields (fields_view (λ u. u) fs.items)) f.new) }
    ensures ended { IfErr result (λ e. Ended (CalledAt F.FnMut) (E.from_gives record {}) f.old
        (chosen_in_fields (fields_view (λ t. t) fields.now)) e f.new) }
{
    let mut mapped = Vec::new(alloc);
    for field in fields {
        add(&mut mapped, map_field(field, f)?)?;
    }
    Ok(mapped)
}

#[cycle(map)]
fn map_field<T, U: Drop, E: From<NoMemory>, F: FnMut(&T) -> Result<U, E>>(
    field: &FieldPattern<T>,
    f: &mut F,
) -> Result<FieldPattern<U>, E>
    requires { F.IsAlwaysCallable f.old }
    ensures again { F.IsAlwaysCallable f.new }
    ensures kept { IfOk result (λ d. field_shape (field_view (λ u. u) d) ≡ field_shape (field_view (λ t. t) field.now)) }
    ensures answered { IfOk result (λ d. Answered (CalledAt F.FnMut) f.old (chosen_in_pattern (field_view (λ t. t) field.now).pattern)
        (chosen_in_pattern (field_view (λ u. u) d).pattern) f.new) }
    ensures ended { IfErr result (λ e. Ended (CalledAt F.FnMut) (E.from_gives record {}) f.old
        (chosen_in_pattern (field_view (λ t. t) field.now).pattern) e f.new) }
{
    let field_name = same_name(&field.field_name)?;
    let pattern = map_pattern(&field.pattern, f)?;
    Ok(FieldPattern {
        field_span: field.field_span,
        field_name,
        pattern,
    })
}

fn same_path(path: &Path) -> Result<Path, NoMemory>
    ensures { IfOk result (λ p. path_view p ≡ path_view path.now) }
{
    Ok(path.clone()?)
}

fn same_text(text: &String) -> Result<String, NoMemory>
    ensures { IfOk result (λ s. string_bytes s ≡ string_bytes text.now) }
{
    Ok(text.clone()?)
}
