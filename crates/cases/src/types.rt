//! Lowered types: names for their lifetimes, the parameters that they speak of, and the calls of a walk over them.
use crate::made::{both, cloned, push_debug_line, push_line, show_made};
use crate::stop::Stop;
use crate::text::Text;
use lalrpop_norm_repr::grammar::repr::{TypeRepr, WhereClause};
use lalrpop_norm_tree::grammar::parse_tree::{NoMemory, TypeParameter};
use lalrpop_norm_tree_parts::names::copy::copy_type_parameters;
use std::alloc::Global;
use std::fmt;

/// A type whose lifetimes have names, and the type parameters and the `where` clauses then.
type Named = (TypeRepr, (Vec<TypeParameter>, Vec<WhereClause>));

/// The type over those parameters: those that it speaks of, with names for its lifetimes, and the calls of two walks over it.
pub(crate) fn push_type(
    alloc: Global,
    text: &mut Text,
    ty: &TypeRepr,
    parameters: &Vec<TypeParameter>,
) {
    text.show_between("type ", ty, " speaks of");
    show_made(text, ty.free_variables(alloc, parameters), |text, free| {
        push_each(text, free);
    });
    show_made(text, with_names(alloc, ty, parameters), push_names);
    push_walked(alloc, text, ty);
    push_refused(alloc, text, ty);
    if let TypeRepr::Nominal(nominal) = ty {
        push_debug_line(text, "  copy ", cloned(nominal));
    }
}

// ---- names

/// The type with names for its lifetimes.
fn with_names(
    alloc: Global,
    ty: &TypeRepr,
    parameters: &Vec<TypeParameter>,
) -> Result<Named, NoMemory> {
    let mut parameters = copy_type_parameters(parameters)?;
    let mut clauses = Vec::new(alloc);
    let named = ty.name_anonymous_lifetimes_and_compute_implied_outlives(
        alloc,
        "__",
        &mut parameters,
        &mut clauses,
    );
    both(named, Ok((parameters, clauses)))
}

fn push_names(text: &mut Text, named: &Named) {
    let (ty, (parameters, clauses)) = named;
    text.show_between("; with names ", ty, " over");
    push_each(text, parameters);
    text.put(", where");
    push_each(text, clauses);
    text.end_line();
}

/// Each of the values behind a blank.
fn push_each<T: fmt::Display>(text: &mut Text, values: &[T]) {
    for value in values {
        text.show_after(" ", value);
    }
}

// ---- the calls of a walk

/// What a walk calls a closure with that puts `usize` in place of each named type, and its answer.
fn push_walked(alloc: Global, text: &mut Text, ty: &TypeRepr) {
    text.put("  a walk is called with");
    let walked = ty.bottom_up(alloc, &mut |part: TypeRepr| see(alloc, text, part));
    push_line(text, " and answers ", walked);
}

fn see(alloc: Global, text: &mut Text, part: TypeRepr) -> Result<TypeRepr, NoMemory> {
    text.show_after(" ", &part);
    if let TypeRepr::Nominal(_) = &part {
        drop(part);
        TypeRepr::usize(alloc)
    } else {
        Ok(part)
    }
}

/// How many calls a walk makes whose second call fails.
fn push_refused(alloc: Global, text: &mut Text, ty: &TypeRepr) {
    let mut calls = 0;
    let walked = ty.bottom_up(alloc, &mut |part: TypeRepr| refuse_second(&mut calls, part));
    match walked {
        Ok(walked) => {
            drop(walked);
            text.show_line("  a walk is not refused after ", calls);
        }
        Err(Stop::Refused) => text.show_line("  a walk is refused after ", calls),
        Err(Stop::Memory) => text.is_whole = false,
    }
}

fn refuse_second(calls: &mut u32, part: TypeRepr) -> Result<TypeRepr, Stop> {
    if *calls == 0 {
        *calls = 1;
        Ok(part)
    } else {
        drop(part);
        Err(Stop::Refused)
    }
}
