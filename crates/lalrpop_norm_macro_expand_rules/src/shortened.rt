//! Texts in messages, which are cut where they are long.
use lalrpop_norm_tree::grammar::parse_tree::Symbol;
use std::alloc::{AllocError, Global};

/// How many characters of a text a message shows at most.
const LONGEST: usize = 60;

/// A text as a message shows it: where it is long, its first characters and `..`.
pub fn shortened(alloc: Global, text: &str) -> Result<String, AllocError> {
    let mut short = String::new(alloc);
    let mut left = LONGEST;
    for c in text.chars() {
        if left == 0 {
            short.push_str("..")?;
            return Ok(short);
        }
        short.push(c)?;
        left = left.saturating_sub(1);
    }
    Ok(short)
}

/// The text of a symbol, likewise.
pub fn shortened_symbol(alloc: Global, symbol: &Symbol) -> Result<String, AllocError> {
    let text = format!(in alloc; "{symbol}")?;
    shortened(alloc, text.as_str())
}
