//! What all passes share: the session, what `cfg` asks of it, how action code is read, which symbols give values,
//! which terminals are used, and what a match block lets in.
#![tactic(auto)]

mod features;
pub mod match_block;
pub mod norm_util;
mod session;
pub mod uses;

pub use features::cfg_active;
pub use session::Session;
