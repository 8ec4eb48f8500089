//! Whether two derivation trees of the lowered grammar show that the grammar, as it was written, is ambiguous.

pub use lalrpop_norm_ambiguity::{AmbiguityError, TwoReadings, ambiguity};
