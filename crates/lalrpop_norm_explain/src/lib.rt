//! The way back: from a derivation tree of a lowered grammar to the corresponding written tree.
#![tactic(auto)]

mod errors;
mod forms;
pub mod laws;
mod levels;
mod lowering;
mod reading;
mod traced;
mod trees;

pub use errors::{ExplainError, ExplainFault};
pub use lowering::lower_tree;
pub use reading::{explain, explain_at};
pub use traced::Traced;
pub use traced::lookups::with_origins;
pub use trees::{LoweredTree, WrittenTree};
