//! Places and names, as `lalrpop_norm_tree_names` has them; copies of lists of them, and the texts that they give to types.
pub mod copy;
pub mod show;

pub use lalrpop_norm_tree_names::names::{
    Lifetime, NonterminalString, Span, TerminalLiteral, TerminalString, TypeParameter,
};
