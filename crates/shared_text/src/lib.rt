//! A text that is shared. A clone of it takes no memory and always succeeds.
#![tactic(auto)]

mod atom;
mod counts;
mod short;

pub use atom::{Atom, NoMemory};
