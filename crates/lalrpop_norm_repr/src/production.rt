//! Productions.
ghost use Rattle.std.specs.Prelude.{◌≡◌, Some, map, codes, IfOk};
ghost use Rattle.std.specs.Fmt.{WritesOnOk};
ghost use Rattle.lalrpop_norm_tree_names.specs.Texts.{joined};
ghost use Rattle.lalrpop_norm_repr.specs.Productions.{production_view};
ghost use Rattle.lalrpop_norm_repr.specs.ReprTexts.{symbol_text, production_text};

mod copy;

use crate::action::ActionFn;
use crate::symbol::Symbol;
use lalrpop_norm_tree::grammar::parse_tree::{Attribute, NonterminalString, Span, Visibility};
use lalrpop_norm_tree_parts::show::show_joined;
use std::alloc::AllocError;
use std::fmt;

/// A nonterminal and its productions.
#[derive(Debug)]
pub struct NonterminalData {
    /// Who may use it.
    pub visibility: Visibility,
    /// The span of its rule; if it is generated, the span of the symbol that it was generated for.
    pub span: Span,
    /// Those of its rule; a start symbol has none.
    pub attributes: Vec<Attribute>,
    /// In the order of its alternatives.
    pub productions: Vec<Production>,
}

// The drop of a derived type is proved anew in each crate, wherever a value of it is dropped; this one is proved
// here.
impl Drop for NonterminalData {
    fn drop(self) {
        let NonterminalData {
            visibility: _visibility,
            span: _span,
            attributes: _attributes,
            productions: _productions,
        } = self;
    }
}

/// A production, as `N = A, B`, and the action on what its symbols give.
#[derive(PartialEq, Eq, PartialOrd, Ord, Hash)]
pub struct Production {
    /// What it derives.
    pub nonterminal: NonterminalString,
    /// In order; none in an empty production.
    pub symbols: Vec<Symbol>,
    /// What makes its value.
    pub action: ActionFn,
    /// The span of its alternative.
    pub span: Span,
}

impl Drop for Production {
    fn drop(self) {
        let Production {
            nonterminal: _nonterminal,
            symbols: _symbols,
            action: _action,
            span: _span,
        } = self;
    }
}

impl Clone for Production {
    ghost is_clone = { λ a b. production_view b ≡ production_view a };

    fn clone(&self) -> Result<Production, AllocError> {
        let nonterminal = self.nonterminal.clone()?;
        let symbols = copy_symbols(&self.symbols)?;
        Ok(Production {
            nonterminal,
            symbols,
            action: self.action,
            span: self.span,
        })
    }
}

#[tactic(auto, using(std::proofs::lemmas::List::Elements::same_from_all_zip))]
pub(crate) fn copy_symbols(symbols: &Vec<Symbol>) -> Result<Vec<Symbol>, AllocError>
    ensures { IfOk result (λ ss. ss.items ≡ symbols.now.items) }
{
    Ok(symbols.clone()?)
}

impl fmt::Debug for Production {
    ghost debug_output = { λ p. Some (production_text (production_view p)) };

    fn fmt<W: fmt::Write>(&self, f: &mut fmt::Formatter<W>) -> fmt::Result {
        fmt::Display::fmt(&self.nonterminal, f)?;
        f.write_str(" = ")?;
        show_symbols(&self.symbols, f)?;
        f.write_str(" => ")?;
        fmt::Debug::fmt(&self.action, f)?;
        f.write_str(";")
    }
}

/// The symbols with `, ` between each two.
pub(crate) fn show_symbols<W: fmt::Write>(
    symbols: &Vec<Symbol>,
    f: &mut fmt::Formatter<W>,
) -> fmt::Result
    ensures { WritesOnOk W.write_str_gives f.old result
        (joined (codes ", ") (map symbol_text symbols.now.items)) f.new }
{
    show_joined(symbols, ", ", f)
}
