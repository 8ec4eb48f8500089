//! Patterns of a lowered grammar: the types that they choose, and the calls of a closure that is mapped over them.
use crate::made::{push_debug_line, push_line};
use crate::stop::Stop;
use crate::text::Text;
use lalrpop_norm_repr::grammar::repr::TypeRepr;
use lalrpop_norm_tree::grammar::pattern::{Pattern, PatternKind};
use std::alloc::Global;

/// The pattern and the types that it chooses; the types that a closure is called with, and those that one is called with that
/// fails at the first; and what it is and its fields, each by itself, with whether each type that it chooses is the unit type.
pub(crate) fn push_pattern(alloc: Global, text: &mut Text, pattern: &Pattern<TypeRepr>) {
    text.show_after("pattern ", pattern);
    push_debug_line(text, " chooses ", pattern.bindings(alloc));
    push_called(text, pattern, usize::MAX);
    push_called(text, pattern, 0);
    push_line(
        text,
        "  kind ",
        pattern.kind.map(&mut |ty: &TypeRepr| Ok(ty.is_unit())),
    );
    if let PatternKind::Struct(_, fields, _) = &pattern.kind {
        for field in fields {
            push_line(
                text,
                "  field ",
                field.map(&mut |ty: &TypeRepr| Ok(ty.is_unit())),
            );
        }
    }
}

/// The types that a closure is called with that fails at the one behind so many, and the pattern with their numbers in their
/// stead.
fn push_called(text: &mut Text, pattern: &Pattern<TypeRepr>, allowed: usize) {
    let mut seen = 0;
    text.put("  is called with");
    let walked = pattern.map(&mut |ty: &TypeRepr| see(text, &mut seen, allowed, ty));
    match walked {
        Ok(numbers) => text.show_line(" and is ", numbers),
        Err(Stop::Refused) => text.put(" and is refused\n"),
        Err(Stop::Memory) => text.is_whole = false,
    }
}

/// How many types were seen before, if no more than are allowed.
fn see(text: &mut Text, seen: &mut usize, allowed: usize, ty: &TypeRepr) -> Result<usize, Stop> {
    let before = *seen;
    text.show_after(" ", ty);
    *seen = before.wrapping_add(1);
    if before < allowed {
        Ok(before)
    } else {
        Err(Stop::Refused)
    }
}
