//! Symbols of productions.
ghost use Rattle.std.specs.Prelude.{◌≡◌, ◌↔◌, Some, IsTrue};
ghost use Rattle.lalrpop_norm_tree_parts.specs.Reprs.{repr_view};
ghost use Rattle.lalrpop_norm_repr.specs.Tables.{type_table};
ghost use Rattle.lalrpop_norm_repr.specs.SymbolTypes.{HasSymbolType, symbol_type};
ghost use Rattle.lalrpop_norm_repr.specs.Productions.{IsTerminal};
ghost use Rattle.lalrpop_norm_repr.specs.ReprTexts.{symbol_text};

use crate::types::Types;
use lalrpop_norm_tree::grammar::parse_tree::{NonterminalString, TerminalString};
use lalrpop_norm_tree::grammar::repr::TypeRepr;
use std::fmt;

/// A symbol of a production.
#[derive(Clone, PartialEq, Eq, PartialOrd, Ord, Hash, Drop)]
pub enum Symbol {
    /// A nonterminal of the grammar.
    Nonterminal(NonterminalString),
    /// A terminal of the grammar.
    Terminal(TerminalString),
}

impl Symbol {
    /// Whether it is a terminal.
    pub fn is_terminal(&self) -> bool
        ensures { IsTrue result ↔ IsTerminal self.now }
    {
        match self {
            Symbol::Terminal(_) => true,
            Symbol::Nonterminal(_) => false,
        }
    }

    /// The symbol's type in the table, in which a nonterminal has one (see `lookup_nonterminal_type`).
    pub fn ty<'ty>(&self, types: &'ty Types) -> &'ty TypeRepr
        requires { HasSymbolType self.now (type_table types.now) }
        ensures { Some (repr_view result.now) ≡ symbol_type self.now (type_table types.now) }
    {
        match self {
            Symbol::Terminal(terminal) => types.terminal_type(terminal),
            Symbol::Nonterminal(name) => types.nonterminal_type(name),
        }
    }
}

impl fmt::Display for Symbol {
    ghost output = { λ s. Some (symbol_text s) };

    fn fmt<W: fmt::Write>(&self, f: &mut fmt::Formatter<W>) -> fmt::Result {
        match self {
            Symbol::Nonterminal(name) => fmt::Display::fmt(name, f),
            Symbol::Terminal(terminal) => fmt::Display::fmt(terminal, f),
        }
    }
}

impl fmt::Debug for Symbol {
    ghost debug_output = { λ s. Some (symbol_text s) };

    fn fmt<W: fmt::Write>(&self, f: &mut fmt::Formatter<W>) -> fmt::Result {
        fmt::Display::fmt(self, f)
    }
}
