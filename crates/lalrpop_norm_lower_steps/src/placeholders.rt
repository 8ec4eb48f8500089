//! The `<>` of action code: how many there are, and what replaces them.
ghost use Rattle.std.specs.Prelude.{◌≡◌, ◌+◌, ◌||◌, nat_le, ◌++◌, IfOk, OnOk, codes, is_some};
ghost use Rattle.std.specs.Prelude.{length, map, option_map, string_bytes, flat_map, zip};
ghost use Rattle.lalrpop_norm_tree_names.specs.Texts.{joined};
ghost use Rattle.lalrpop_norm_common.specs.Braces.{around_slot};
ghost use Rattle.lalrpop_norm_model.specs.LoweringFaults.{slots};
ghost use Rattle.lalrpop_norm_lower_steps.specs.Filled.{in_slots};
ghost use Rattle.lalrpop_norm_lower_steps.specs.Slots.{pieces, in_order, filled_code};

use lalrpop_norm_tree::grammar::parse_tree::{Atom, NoMemory};
use std::alloc::Global;

/// How many bytes an action code has room for at first: a block of memory is not smaller on most systems.
const ROOM: usize = 24;

/// How often `<>` occurs in an action code.
pub fn slots(code: &str) -> usize
    ensures { result ≡ slots code.now }
{
    let mut count = 0usize;
    let mut rest = code;
    while let Some((_, after)) = split_at_slot(rest) {
        count += 1;
        rest = after;
    }
    count
}

/// Whether `<>` occurs in an action code.
pub fn has_slot(code: &str) -> bool
    ensures { result ≡ is_some (around_slot code.now) }
{
    match split_at_slot(code) {
        None => false,
        Some(_) => true,
    }
}

/// The action code with its `<>` replaced, all at once: by the names in order where symbols have none of their own and there are
/// several, else each by all names. The only error is a failed allocation.
pub fn filled(alloc: Global, is_named: bool, names: &[Atom], code: &str) -> Result<String, NoMemory>
    requires { length (in_slots is_named names.now (slots code.now)) ≡ slots code.now }
    ensures { IfOk result (λ s. string_bytes s ≡ filled_code is_named names.now code.now) }
{
    let mut text = String::with_capacity(alloc, ROOM)?;
    if is_alike(is_named, names, code) {
        push_alike(&mut text, names, code)?;
    } else {
        push_in_order(&mut text, names, code)?;
    }
    Ok(text)
}

/// Whether each `<>` is replaced by all names: where symbols have names, and where there is at most one `<>`.
#[tactic(auto, using(crate::proofs::SlotLemmas::few_names))]
fn is_alike(is_named: bool, names: &[Atom], code: &str) -> bool
    requires { length (in_slots is_named names.now (slots code.now)) ≡ slots code.now }
    ensures { result ≡ (is_named || nat_le (slots code.now) 1) }
{
    if is_named || names.len() < 2 {
        return true;
    }
    slots(code) <= 1
}

/// Adds the action code, in which all names replace each `<>`.
fn push_alike(text: &mut String, names: &[Atom], code: &str) -> Result<(), NoMemory>
    ensures { OnOk result (string_bytes text.new ≡ string_bytes text.old ++ joined (joined (codes ", ") names.now) (pieces code.now)) }
{
    let mut rest = code;
    while let Some((before, after)) = split_at_slot(rest) {
        text.push_str(before)?;
        push_names(text, names)?;
        rest = after;
    }
    text.push_str(rest)?;
    Ok(())
}

/// Adds the action code, in which the names replace the `<>`, in order.
fn push_in_order(text: &mut String, names: &[Atom], code: &str) -> Result<(), NoMemory>
    requires { length names.now ≡ slots code.now }
    ensures { OnOk result (string_bytes text.new ≡ string_bytes text.old ++ in_order names.now (pieces code.now)) }
{
    let mut rest = code;
    let mut number = 0usize;
    while let Some((before, after)) = split_at_slot(rest) {
        text.push_str(before)?;
        text.push_str(names[number].as_str())?;
        number += 1;
        rest = after;
    }
    text.push_str(rest)?;
    Ok(())
}

/// What is before the first `<>` and after it.
fn split_at_slot(code: &str) -> Option<(&str, &str)>
    ensures { option_map (λ p. (p.0.now, p.1.now)) result ≡ around_slot code.now }
{
    match code.split_once("<>") {
        None => None,
        Some((before, after)) => Some((before, after)),
    }
}

/// Adds the names, with `, ` between each two.
fn push_names(text: &mut String, names: &[Atom]) -> Result<(), NoMemory>
    ensures { OnOk result (string_bytes text.new ≡ string_bytes text.old ++ joined (codes ", ") names.now) }
{
    if let Some((first, others)) = names.split_first() {
        text.push_str(first.as_str())?;
        for other in others {
            text.push_str(", ")?;
            text.push_str(other.as_str())?;
        }
    }
    Ok(())
}
