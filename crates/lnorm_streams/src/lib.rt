//! Reading and writing to the end, and how a run without a text is reported: its exit status, and a line for users.
#![tactic(auto)]

pub mod halt;
pub mod message;
pub mod source;
pub mod streams;
