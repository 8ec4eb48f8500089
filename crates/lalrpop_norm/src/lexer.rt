//! What reads the texts of literals and builds the automaton of a tokenizer.

pub use lalrpop_norm_lexer::lexer::{
    CheckOnly, DfaConstructionError, Lexer, NfaConstructionError, Precedence, RegexError,
};
pub use lalrpop_norm_tree::grammar::parse_tree::Dfa;
