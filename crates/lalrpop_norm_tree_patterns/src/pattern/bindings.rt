//! The selected parts of patterns.
ghost use Rattle.std.specs.Prelude.{◌≡◌, ◌++◌, IfOk, OnOk, map};
ghost use Rattle.lalrpop_norm_tree_patterns.specs.MappedPatterns.{chosen_in_pattern, chosen_in_kind, chosen_in_all, chosen_in_fields};
ghost use Rattle.lalrpop_norm_tree_patterns.specs.Patterns.{pattern_view, pattern_kind_view, field_view, patterns_view, fields_view};

use super::{FieldPattern, Pattern, PatternKind};
use lalrpop_norm_tree_parts::walk::add;
use shared_text::NoMemory;
use std::alloc::Global;

impl<T> Pattern<T> {
    /// Its selected parts, from left to right. The only error is a failed allocation.
    pub fn bindings<'a>(&'a self, alloc: Global) -> Result<Vec<&'a T>, NoMemory>
        ensures { IfOk result (λ ts. map (λ t. t.now) ts.items ≡ chosen_in_pattern (pattern_view (λ t. t) self.now)) }
    {
        let mut all = Vec::new(alloc);
        add_chosen(self, &mut all)?;
        Ok(all)
    }
}

#[cycle(bindings)]
fn add_chosen<'a, T>(pattern: &'a Pattern<T>, all: &mut Vec<&'a T>) -> Result<(), NoMemory>
    ensures { OnOk result (map (λ t. t.now) all.new.items ≡ map (λ t. t.now) all.old.items
        ++ chosen_in_pattern (pattern_view (λ t. t) pattern.now)) }
{
    add_chosen_of_kind(&pattern.kind, all)
}

#[cycle(bindings)]
fn add_chosen_of_kind<'a, T>(kind: &'a PatternKind<T>, all: &mut Vec<&'a T>) -> Result<(), NoMemory>
    ensures { OnOk result (map (λ t. t.now) all.new.items ≡ map (λ t. t.now) all.old.items
        ++ chosen_in_kind (pattern_kind_view (λ t. t) kind.now)) }
{
    match kind {
        PatternKind::Enum(_, inner) => add_chosen_of_all(inner, all),
        PatternKind::Struct(_, fields, _) => add_chosen_of_fields(fields, all),
        PatternKind::Path(_) => Ok(()),
        PatternKind::Tuple(inner) => add_chosen_of_all(inner, all),
        PatternKind::TupleStruct(_, inner) => add_chosen_of_all(inner, all),
        PatternKind::Usize(_) => Ok(()),
        PatternKind::Underscore => Ok(()),
        PatternKind::DotDot => Ok(()),
        PatternKind::Choose(t) => add(all, t),
        PatternKind::CharLiteral(_) => Ok(()),
        PatternKind::String(_) => Ok(()),
    }
}

#[cycle(bindings)]
fn add_chosen_of_all<'a, T>(
    patterns: &'a [Pattern<T>],
    all: &mut Vec<&'a T>,
) -> Result<(), NoMemory>
    ensures { OnOk result (map (λ t. t.now) all.new.items ≡ map (λ t. t.now) all.old.items
        ++ chosen_in_all (patterns_view (λ t. t) patterns.now)) }
{
    for pattern in patterns {
        add_chosen(pattern, all)?;
    }
    Ok(())
}

#[cycle(bindings)]
fn add_chosen_of_fields<'a, T>(
    fields: &'a [FieldPattern<T>],
    all: &mut Vec<&'a T>,
) -> Result<(), NoMemory>
    ensures { OnOk result (map (λ t. t.now) all.new.items ≡ map (λ t. t.now) all.old.items
        ++ chosen_in_fields (fields_view (λ t. t) fields.now)) }
{
    for field in fields {
        add_chosen_of_field(field, all)?;
    }
    Ok(())
}

#[cycle(bindings)]
fn add_chosen_of_field<'a, T>(
    field: &'a FieldPattern<T>,
    all: &mut Vec<&'a T>,
) -> Result<(), NoMemory>
    ensures { OnOk result (map (λ t. t.now) all.new.items ≡ map (λ t. t.now) all.old.items
        ++ chosen_in_pattern (field_view (λ t. t) field.now).pattern) }
{
    add_chosen(&field.pattern, all)
}
