//! Expansion and terminals, under one name: macros, groups and repeats, lexers, the check of terminals, and the test of what is
//! expanded. All of it is re-exported; each pass is in the crate of its name.
#![tactic(auto)]

pub use lalrpop_norm_is_expanded::is_expanded;
pub use lalrpop_norm_lexer::lexer;
pub use lalrpop_norm_macro_expand::macro_expand;
pub use lalrpop_norm_token_check::token_check;
