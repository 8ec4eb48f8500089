//! Places and names.
ghost use Rattle.std.specs.Prelude.{Some};

mod accessors;

use shared_text::Atom;
use std::fmt;

/// A piece of the grammar's text, from one byte offset up to another, half open.
#[derive(Clone, Copy, Debug, Default, PartialEq, Eq, PartialOrd, Ord, Hash)]
pub struct Span(pub usize, pub usize);

/// The name of a nonterminal, or of a macro.
#[derive(Clone, PartialEq, Eq, PartialOrd, Ord, Hash, Drop)]
pub struct NonterminalString(pub Atom);

/// A lifetime, with its apostrophe.
#[derive(Clone, PartialEq, Eq, PartialOrd, Ord, Hash, Drop)]
pub struct Lifetime(pub Atom);

/// A terminal that is written as a literal: its text without quotes and escapes.
#[derive(Clone, PartialEq, Eq, PartialOrd, Ord, Hash, Drop)]
pub enum TerminalLiteral {
    /// `"a"`: the text itself.
    Quoted(Atom),
    /// `r"a*"`: what a regular expression matches.
    Regex(Atom),
}

/// A terminal.
#[derive(Clone, PartialEq, Eq, PartialOrd, Ord, Hash, Drop)]
pub enum TerminalString {
    /// A literal: it needs no declaration.
    Literal(TerminalLiteral),
    /// A name that a conversion or a match block declares.
    Bare(Atom),
    /// The terminal that a lowered grammar has for `!`.
    Error,
}

/// A parameter of a grammar, or of a `for<..>`.
#[derive(Clone, Debug, PartialEq, Eq, PartialOrd, Ord, Hash, Drop)]
pub enum TypeParameter {
    /// `'a`.
    Lifetime(Lifetime),
    /// `T`.
    Id(Atom),
}

impl fmt::Display for NonterminalString {
    ghost output = { λ n. Some n.0 };

    fn fmt<W: fmt::Write>(&self, f: &mut fmt::Formatter<W>) -> fmt::Result {
        fmt::Display::fmt(&self.0, f)
    }
}

impl fmt::Debug for NonterminalString {
    ghost debug_output = { λ n. Some n.0 };

    fn fmt<W: fmt::Write>(&self, f: &mut fmt::Formatter<W>) -> fmt::Result {
        fmt::Display::fmt(&self.0, f)
    }
}

impl fmt::Display for Lifetime {
    ghost output = { λ n. Some n.0 };

    fn fmt<W: fmt::Write>(&self, f: &mut fmt::Formatter<W>) -> fmt::Result {
        fmt::Display::fmt(&self.0, f)
    }
}

impl fmt::Debug for Lifetime {
    ghost debug_output = { λ n. Some n.0 };

    fn fmt<W: fmt::Write>(&self, f: &mut fmt::Formatter<W>) -> fmt::Result {
        fmt::Display::fmt(&self.0, f)
    }
}

impl fmt::Display for TypeParameter {
    ghost use Rattle.lalrpop_norm_tree_names.specs.Texts.{type_parameter_text};

    ghost output = { λ p. Some (type_parameter_text p) };

    fn fmt<W: fmt::Write>(&self, f: &mut fmt::Formatter<W>) -> fmt::Result {
        match self {
            TypeParameter::Lifetime(lifetime) => fmt::Display::fmt(lifetime, f),
            TypeParameter::Id(name) => fmt::Display::fmt(name, f),
        }
    }
}
