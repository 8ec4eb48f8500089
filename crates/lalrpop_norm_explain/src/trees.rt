//! Derivation trees, written and lowered.
ghost use Rattle.std.specs.Prelude.{◌≡◌};

mod copy;

use lalrpop_norm_tree_names::names::{NonterminalString, TerminalLiteral, TerminalString};

/// A derivation tree of a lowered grammar.
#[derive(Debug, PartialEq, Eq, Drop)]
pub enum LoweredTree {
    /// A terminal.
    Leaf(TerminalString),
    /// A nonterminal, the index of one of its productions, from 0, and a tree for each symbol of the production.
    Node {
        nonterminal: NonterminalString,
        production: usize,
        children: Vec<LoweredTree>,
    },
}

/// A tree of the written grammar.
#[derive(Debug, PartialEq, Eq, Drop)]
pub enum WrittenTree {
    /// A terminal; that of `!` is the error terminal.
    Leaf(TerminalString),
    /// A location symbol.
    Nothing,
    /// A group: a tree for each symbol. A repeat: a tree for each time.
    List(Vec<WrittenTree>),
    /// A rule or macro, the number of one of its alternatives, and a tree for each symbol of the alternative.
    Node {
        rule: NonterminalString,
        alternative: usize,
        children: Vec<WrittenTree>,
    },
}

/// A copy of a name, without an allocation.
pub(crate) fn name_again(name: &NonterminalString) -> NonterminalString
    ensures { result ≡ name.now }
{
    NonterminalString(name.0.again())
}

/// A copy of a terminal, without an allocation.
pub(crate) fn terminal_again(terminal: &TerminalString) -> TerminalString
    ensures { result ≡ terminal.now }
{
    match terminal {
        TerminalString::Literal(TerminalLiteral::Quoted(text)) => {
            TerminalString::Literal(TerminalLiteral::Quoted(text.again()))
        }
        TerminalString::Literal(TerminalLiteral::Regex(text)) => {
            TerminalString::Literal(TerminalLiteral::Regex(text.again()))
        }
        TerminalString::Bare(text) => TerminalString::Bare(text.again()),
        TerminalString::Error => TerminalString::Error,
    }
}
