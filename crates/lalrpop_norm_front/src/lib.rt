//! The passes before expansion, under one name: what is checked of a tree as it is written, conditional parts, names and levels.
//! All of it is re-exported; each pass is in the crate of its name.
#![tactic(auto)]

pub use lalrpop_norm_common::{Session, norm_util};
pub use lalrpop_norm_faults::{FaultKind, NormError, NormFailure, NormResult, refusal};
pub use lalrpop_norm_precedence::precedence;
pub use lalrpop_norm_prevalidate::{cond_comp, prevalidate};
pub use lalrpop_norm_resolve::resolve;
