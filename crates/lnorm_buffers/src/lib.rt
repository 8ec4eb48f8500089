//! What a call from C answers: an exit status, and texts whose fronts are in the buffers of the caller.
#![tactic(auto)]

pub mod answer;
pub mod buffers;
