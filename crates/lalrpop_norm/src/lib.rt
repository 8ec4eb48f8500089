//! LALRPOP's grammar normalization: from a written grammar to its lowered one.
//!
//! [`normalize::normalize`] is the whole way; the passes that can be used by themselves are in the module [`normalize`] as
//! well. The types of both grammars, written and lowered, are in the module [`grammar`], the way back for trees in the module
//! [`explain`], the check of an ambiguity in the module [`ambiguity`].
#![tactic(auto)]

pub mod ambiguity;
pub mod explain;
pub mod grammar;
pub mod laws;
pub mod lexer;
pub mod normalize;
mod passes;
pub mod plain_laws;
mod traced;
