//! Values of any type: how one is kept, copied, pushed, shown or left out is proved once, and so is its drop there.
//!
//! A value that is made over several calls ends on each way out of them. So no other function of this crate keeps one over a
//! call that may fail: it hands the calls' answers to a function of this file.
use crate::text::Text;
use shared_text::{Atom, NoMemory};
use std::alloc::{AllocError, Global};
use std::fmt;

/// The value, unless there was a failure.
pub(crate) fn kept<T: Drop, E: Drop>(value: T, done: Result<(), E>) -> Result<T, E> {
    done?;
    Ok(value)
}

/// Both values, unless there was a failure for one.
pub(crate) fn both<A: Drop, B: Drop, E: Drop>(
    first: Result<A, E>,
    second: Result<B, E>,
) -> Result<(A, B), E> {
    let first = first?;
    Ok((first, second?))
}

/// The list of one value.
pub(crate) fn list_of_one<T: Drop>(
    alloc: Global,
    made: Result<T, NoMemory>,
) -> Result<Vec<T>, NoMemory> {
    let mut values = Vec::new(alloc);
    push_made(&mut values, made)?;
    Ok(values)
}

/// The list of two values.
pub(crate) fn list_of_two<T: Drop>(
    alloc: Global,
    first: Result<T, NoMemory>,
    second: Result<T, NoMemory>,
) -> Result<Vec<T>, NoMemory> {
    let mut values = Vec::new(alloc);
    let done = push_two(&mut values, first, second);
    kept(values, done)
}

fn push_two<T: Drop>(
    values: &mut Vec<T>,
    first: Result<T, NoMemory>,
    second: Result<T, NoMemory>,
) -> Result<(), NoMemory> {
    let (first, second) = both(first, second)?;
    push_made(values, Ok(first))?;
    push_made(values, Ok(second))
}

/// A copy of the value.
pub(crate) fn cloned<T: Clone>(value: &T) -> Result<T, NoMemory> {
    Ok(value.clone()?)
}

/// What is made of the value that was made, which ends.
pub(crate) fn made_of<T: Drop, U, F: FnOnce(&T) -> Result<U, NoMemory>>(
    made: Result<T, NoMemory>,
    make: F,
) -> Result<U, NoMemory>
    requires { F.IsAlwaysCallable make }
{
    let value = made?;
    make(&value)
}

/// Pushes the value that was made.
pub(crate) fn push_made<T: Drop>(
    values: &mut Vec<T>,
    made: Result<T, NoMemory>,
) -> Result<(), NoMemory> {
    Ok(values.push(made?)?)
}

/// Pushes the value that was made; if an allocation fails, the text records it.
pub(crate) fn add_made<T: Drop>(text: &mut Text, values: &mut Vec<T>, made: Result<T, NoMemory>) {
    if push_made(values, made).is_err() {
        text.is_whole = false;
    }
}

/// Puts the text of the value that was made, which ends.
pub(crate) fn show_made<T: Drop, F: FnOnce(&mut Text, &T)>(
    text: &mut Text,
    made: Result<T, NoMemory>,
    show: F,
)
    requires { F.IsAlwaysCallable show }
{
    match made {
        Ok(value) => show(text, &value),
        Err(_) => text.is_whole = false,
    }
}

/// Puts the text of the value that was made, which ends; the other text if none was.
pub(crate) fn show_or<T: Drop, E: Drop, F: FnOnce(&mut Text, &T)>(
    text: &mut Text,
    made: Result<T, E>,
    show: F,
    other: &str,
)
    requires { F.IsAlwaysCallable show }
{
    match made {
        Ok(value) => show(text, &value),
        Err(_) => text.put(other),
    }
}

/// Puts what is shown, and a line if an allocation failed for it.
pub(crate) fn show_or_memory<F: FnOnce(&mut Text)>(text: &mut Text, show: F)
    requires { F.IsAlwaysCallable show }
{
    if text.is_whole {
        show(text);
        if !text.is_whole {
            text.is_whole = true;
            text.put("memory\n");
        }
    }
}

/// Puts what is pushed to a text of its own.
pub(crate) fn put_apart<F: FnOnce(&mut String) -> Result<(), AllocError>>(
    alloc: Global,
    text: &mut Text,
    push: F,
)
    requires { F.IsAlwaysCallable push }
{
    let mut part = String::new(alloc);
    match push(&mut part) {
        Ok(()) => text.put(part.as_str()),
        Err(_) => text.is_whole = false,
    }
}

/// The text before it, and the value that was made.
pub(crate) fn push_after<T: fmt::Display + Drop>(
    text: &mut Text,
    before: &str,
    made: Result<T, NoMemory>,
) {
    match made {
        Ok(value) => text.show_after(before, value),
        Err(_) => text.is_whole = false,
    }
}

/// The text before it, the value that was made, and the end of the line.
pub(crate) fn push_line<T: fmt::Display + Drop>(
    text: &mut Text,
    before: &str,
    made: Result<T, NoMemory>,
) {
    push_after(text, before, made);
    text.end_line();
}

/// The text before it, and the value that was made by its `Debug`.
pub(crate) fn push_debug<T: fmt::Debug + Drop>(
    text: &mut Text,
    before: &str,
    made: Result<T, NoMemory>,
) {
    match made {
        Ok(value) => text.debug_after(before, value),
        Err(_) => text.is_whole = false,
    }
}

/// The text before it, the value that was made by its `Debug`, and the end of the line.
pub(crate) fn push_debug_line<T: fmt::Debug + Drop>(
    text: &mut Text,
    before: &str,
    made: Result<T, NoMemory>,
) {
    push_debug(text, before, made);
    text.end_line();
}

/// The text, as a part holds it.
pub(crate) fn atom(alloc: Global, name: &str) -> Result<Atom, NoMemory> {
    Ok(Atom::new(alloc, name)?)
}
