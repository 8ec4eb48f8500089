//! What names and terminals are asked for.
ghost use Rattle.std.specs.Prelude.{◌≡◌, ◌↔◌, [], length, option_map, IfOk, IsTrue, codes};
ghost use Rattle.lalrpop_norm_tree_names.specs.Accessors.{literal_of, base_precedence, literal_display_len, terminal_display_len};

use super::{Lifetime, NonterminalString, TerminalLiteral, TerminalString};
use shared_text::{Atom, NoMemory};
use std::alloc::Global;

impl TerminalString {
    /// The terminal of a quoted literal, by its text without quotes.
    pub fn quoted(text: Atom) -> TerminalString
        ensures { result ≡ TerminalString.Literal (TerminalLiteral.Quoted text) }
    {
        TerminalString::Literal(TerminalLiteral::Quoted(text))
    }

    /// The terminal of a regular expression.
    pub fn regex(text: Atom) -> TerminalString
        ensures { result ≡ TerminalString.Literal (TerminalLiteral.Regex text) }
    {
        TerminalString::Literal(TerminalLiteral::Regex(text))
    }

    /// The literal, if the terminal is one.
    pub fn as_literal(&self) -> Option<&TerminalLiteral>
        ensures { option_map (λ l. l.now) result ≡ literal_of self.now }
    {
        match self {
            TerminalString::Literal(literal) => Some(literal),
            TerminalString::Bare(_) => None,
            TerminalString::Error => None,
        }
    }

    /// How many bytes the terminal takes where it is listed.
    pub fn display_len(&self) -> usize
        ensures { result ≡ terminal_display_len self.now }
    {
        match self {
            TerminalString::Literal(literal) => literal.display_len(),
            TerminalString::Bare(name) => name.as_str().len(),
            TerminalString::Error => 5,
        }
    }
}

impl TerminalLiteral {
    /// The precedence inside a group of a match block: 1 for quoted literals, 0 for regular expressions.
    pub fn base_precedence(&self) -> usize
        ensures { result ≡ base_precedence self.now }
    {
        match self {
            TerminalLiteral::Quoted(_) => 1,
            TerminalLiteral::Regex(_) => 0,
        }
    }

    /// How many bytes the literal takes where it is listed: those of its text, and 5 more for a regular expression.
    pub fn display_len(&self) -> usize
        ensures { result ≡ literal_display_len self.now }
    {
        match self {
            TerminalLiteral::Quoted(text) => text.as_str().len(),
            TerminalLiteral::Regex(text) => text.as_str().len() + 5,
        }
    }
}

impl NonterminalString {
    /// How many bytes the name has.
    pub fn len(&self) -> usize
        ensures { result ≡ length self.now.0 }
    {
        self.0.as_str().len()
    }

    /// Whether the name has no bytes.
    pub fn is_empty(&self) -> bool
        ensures { IsTrue result ↔ (self.now.0 ≡ []) }
    {
        self.0.as_str().is_empty()
    }
}

impl Lifetime {
    /// `'_`. The only error is a failed allocation.
    pub fn anonymous(alloc: Global) -> Result<Lifetime, NoMemory>
        ensures { IfOk result (λ l. l.0 ≡ codes "'_") }
    {
        Ok(Lifetime(Atom::new(alloc, "'_")?))
    }

    /// `'static`. The only error is a failed allocation.
    pub fn statik(alloc: Global) -> Result<Lifetime, NoMemory>
        ensures { IfOk result (λ l. l.0 ≡ codes "'static") }
    {
        Ok(Lifetime(Atom::new(alloc, "'static")?))
    }

    /// `'input`. The only error is a failed allocation.
    pub fn input(alloc: Global) -> Result<Lifetime, NoMemory>
        ensures { IfOk result (λ l. l.0 ≡ codes "'input") }
    {
        Ok(Lifetime(Atom::new(alloc, "'input")?))
    }

    /// Whether the lifetime is `'_`.
    pub fn is_anonymous(&self) -> bool
        ensures { IsTrue result ↔ (self.now.0 ≡ codes "'_") }
    {
        self.0.as_str() == "'_"
    }

    /// How many bytes the lifetime has, its apostrophe included.
    pub fn len(&self) -> usize
        ensures { result ≡ length self.now.0 }
    {
        self.0.as_str().len()
    }

    /// Whether the lifetime has no bytes.
    pub fn is_empty(&self) -> bool
        ensures { IsTrue result ↔ (self.now.0 ≡ []) }
    {
        self.0.as_str().is_empty()
    }
}
