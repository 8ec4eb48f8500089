//! Levels of precedence: the attributes that state them, and the rules that they become.
mod expand;
mod grammar;
mod groups;
mod lists;
mod read;
mod replace;
mod rules;

pub use expand::expand_precedence;
pub use grammar::expand_levels;
pub use lalrpop_norm_precedence_steps::assoc::{Assoc, ParseAssocError};
pub use lalrpop_norm_precedence_steps::attributes::{ASSOC_ATTR, LVL_ARG, PREC_ATTR, SIDE_ARG};
pub use lalrpop_norm_precedence_steps::levels::{AlternativeLevel, has_prec_attr};
pub use lalrpop_norm_precedence_steps::occurrences::{Direction, Substitution};
pub use lists::expand_precedence_traced;
pub use read::{has_several_levels, read_levels};
pub use replace::replace_nonterm;
pub use rules::expand_nonterm;
