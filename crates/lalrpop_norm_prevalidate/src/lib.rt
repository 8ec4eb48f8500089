//! The passes that read a tree before its names are resolved: the checks of all items, and conditional compilation.
#![tactic(auto)]

pub mod cond_comp;
pub mod prevalidate;
