//! The parts of written grammars that hold no symbol: names, paths, attributes, bounds; and the lowered types that
//! need no table.
//!
//! `lalrpop_norm_tree` gives the types again, under the paths that users know. Each type that holds a list, a box or a
//! `String` has a *view* in specs/: plain data without pointers, of which every contract speaks.
#![tactic(auto)]

pub mod attribute;
pub mod bound;
pub mod lowered;
pub mod names;
pub mod path;
pub mod show;
pub mod walk;
