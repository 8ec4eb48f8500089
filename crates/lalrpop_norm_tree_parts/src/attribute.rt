//! Attributes.
ghost use Rattle.std.specs.Prelude.{◌≡◌};

mod accessors;
pub mod algorithm;
pub mod copy;

use crate::names::Span;
use shared_text::Atom;

/// An attribute, as `inline`, `cfg(..)` or `level = "1"`.
#[cycle(attribute)]
#[derive(Debug, PartialEq, Eq, Drop)]
pub struct Attribute {
    /// The span of its name.
    pub id_span: Span,
    /// Its name.
    pub id: Atom,
    /// What follows its name.
    pub arg: AttributeArg,
}

/// What follows an attribute's name.
#[cycle(attribute)]
#[derive(Debug, PartialEq, Eq, Drop)]
pub enum AttributeArg {
    /// Nothing.
    Empty,
    /// `(a, b)`, each an attribute.
    Paren(Vec<Attribute>),
    /// `= ".."`: the text without quotes.
    Equal(String),
}

impl Default for AttributeArg {
    fn default() -> AttributeArg
        ensures { result ≡ AttributeArg.Empty }
    {
        AttributeArg::Empty
    }
}
