//! The session: the input of the passes beside the grammar.
use std::collections::BTreeSet;

/// The session: the input of the passes beside the grammar.
#[derive(Drop)]
pub struct Session<L> {
    /// The features that are on. Without a set no feature holds, as with an empty one.
    pub features: Option<BTreeSet<String>>,
    /// How many rounds of macro expansion may generate new rules: 0 to 65535.
    pub macro_recursion_limit: u16,
    /// The lexer that builds the automaton of the tokenizer, where no extern enum names the tokens.
    pub lexer: L,
}
