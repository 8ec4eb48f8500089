//! The index of a name in a list of names, with a look-up in constant time.
#![tactic(auto)]

mod seeded;
mod table;

pub use seeded::Seeded;
pub use table::Names;
