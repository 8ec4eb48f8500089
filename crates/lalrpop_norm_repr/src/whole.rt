//! Lowered grammars.
ghost use Rattle.std.specs.Prelude.{◌≡◌, Some};
ghost use Rattle.lalrpop_norm_repr.specs.Lowered.{lowered_parameter_view};
ghost use Rattle.lalrpop_norm_repr.specs.ReprTexts.{parameter_text};

mod copy;
mod lookups;

use crate::action::ActionFnDefn;
use crate::production::NonterminalData;
use crate::types::Types;
use lalrpop_norm_tree::grammar::parse_tree::{
    InternToken, NonterminalString, TerminalString, TypeParameter,
};
use lalrpop_norm_tree::grammar::pattern::Pattern;
use lalrpop_norm_tree::grammar::repr::{Algorithm, TypeRepr, WhereClause};
use shared_text::Atom;
use std::alloc::AllocError;
use std::collections::BTreeMap;
use std::fmt;

/// A lowered grammar.
#[derive(Debug)]
pub struct Grammar {
    /// Begins the names of start symbols, of the values in action code, and of the crate that the parser uses.
    pub prefix: String,
    /// How its parser is to be made.
    pub algorithm: Algorithm,
    /// Whether a production holds the error terminal.
    pub uses_error_recovery: bool,
    /// For each public nonterminal the start symbol that was made for it.
    pub start_nonterminals: BTreeMap<NonterminalString, NonterminalString>,
    /// The texts behind `use`, in item order.
    pub uses: Vec<String>,
    /// Those of the written grammar.
    pub type_parameters: Vec<TypeParameter>,
    /// Those of the written grammar, with lowered types.
    pub parameters: Vec<Parameter>,
    /// One for each bound that is written.
    pub where_clauses: Vec<WhereClause>,
    /// The tokenizer, where no extern enum names the tokens.
    pub intern_token: Option<InternToken>,
    /// The actions, in the order of their numbers.
    pub action_fn_defns: Vec<ActionFnDefn>,
    /// All terminals, with their numbers.
    pub terminals: TerminalSet,
    /// Each nonterminal with its productions.
    pub nonterminals: BTreeMap<NonterminalString, NonterminalData>,
    /// The pattern of each terminal's tokens.
    pub conversions: BTreeMap<TerminalString, Pattern<TypeRepr>>,
    /// The type of each terminal and nonterminal.
    pub types: Types,
    /// The texts of `#![..]`.
    pub module_attributes: Vec<String>,
}

// The drop of a derived type is proved anew in each crate, wherever a value of it is dropped; this one is proved
// here.
impl Drop for Grammar {
    fn drop(self) {
        let Grammar {
            prefix: _prefix,
            algorithm: _algorithm,
            uses_error_recovery: _uses_error_recovery,
            start_nonterminals: _start_nonterminals,
            uses: _uses,
            type_parameters: _type_parameters,
            parameters: _parameters,
            where_clauses: _where_clauses,
            intern_token: _intern_token,
            action_fn_defns: _action_fn_defns,
            terminals: _terminals,
            nonterminals: _nonterminals,
            conversions: _conversions,
            types: _types,
            module_attributes: _module_attributes,
        } = self;
    }
}

/// The terminals of a grammar, and the index of each.
#[derive(Debug, Drop)]
pub struct TerminalSet {
    /// Each at its index, which is its number.
    pub all: Vec<TerminalString>,
    /// The index of each in `all`.
    pub bits: BTreeMap<TerminalString, usize>,
}

/// A parameter of the parser's functions.
#[derive(Debug, PartialEq, Eq, Drop)]
pub struct Parameter {
    /// Its name.
    pub name: Atom,
    /// Its type.
    pub ty: TypeRepr,
}

impl Clone for Parameter {
    ghost is_clone = { λ a b. lowered_parameter_view b ≡ lowered_parameter_view a };

    fn clone(&self) -> Result<Parameter, AllocError> {
        let name = self.name.clone()?;
        let ty = self.ty.clone()?;
        Ok(Parameter { name, ty })
    }
}

impl fmt::Display for Parameter {
    ghost output = { λ p. Some (parameter_text (lowered_parameter_view p)) };

    fn fmt<W: fmt::Write>(&self, f: &mut fmt::Formatter<W>) -> fmt::Result {
        fmt::Display::fmt(&self.name, f)?;
        f.write_str(": ")?;
        fmt::Display::fmt(&self.ty, f)
    }
}
