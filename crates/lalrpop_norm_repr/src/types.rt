//! The types of terminals and nonterminals.
ghost use Rattle.std.specs.Prelude.{◌≡◌, ◌↔◌, None, Some, option_map, OnOk, OnErr, IsTrue, IsSome};
ghost use Rattle.lalrpop_norm_tree_parts.specs.Reprs.{repr_view};
ghost use Rattle.lalrpop_norm_tree_names.specs.declared.names.NonterminalString.{NonterminalString};
ghost use Rattle.lalrpop_norm_tree_names.specs.declared.names.TerminalString.{TerminalString};
ghost use Rattle.lalrpop_norm_repr.specs.Tables.{rows, type_table, type_of, listed_type, type_of_terminal};

mod copy;
mod made;
mod order;

use lalrpop_norm_tree::grammar::parse_tree::{NoMemory, NonterminalString, TerminalString};
use lalrpop_norm_tree::grammar::repr::TypeRepr;
use std::alloc::Global;
use std::collections::BTreeMap;

/// The type of each terminal and nonterminal, and those of locations, errors and tokens.
#[derive(Debug)]
pub struct Types {
    alloc: Global,
    terminal_token_type: TypeRepr,
    terminal_loc_type: Option<TypeRepr>,
    error_type: Option<TypeRepr>,
    terminal_types: BTreeMap<TerminalString, TypeRepr>,
    nonterminal_types: BTreeMap<NonterminalString, TypeRepr>,
    parse_error_type: TypeRepr,
    error_recovery_type: TypeRepr,
}

// The drop of a derived type is proved anew in each crate, wherever a value of it is dropped; this one is proved
// here.
impl Drop for Types {
    fn drop(self) {
        let Types {
            alloc: _alloc,
            terminal_token_type: _terminal_token_type,
            terminal_loc_type: _terminal_loc_type,
            error_type: _error_type,
            terminal_types: _terminal_types,
            nonterminal_types: _nonterminal_types,
            parse_error_type: _parse_error_type,
            error_recovery_type: _error_recovery_type,
        } = self;
    }
}

impl Types {
    /// Gives a nonterminal that has no type yet (see `lookup_nonterminal_type`) its type. The only error is a failed
    /// allocation; the table is then as it was.
    pub fn add_type(&mut self, name: NonterminalString, ty: TypeRepr) -> Result<(), NoMemory>
        requires { type_of name (type_table self.old) ≡ None }
        ensures added { OnOk result (type_of name (type_table self.new) ≡ Some (repr_view ty)) }
        ensures others { OnOk result ((other : NonterminalString) → (other ≡ name → ⊥)
            → type_of other (type_table self.new) ≡ type_of other (type_table self.old)) }
        ensures rest { type_table self.new ≡ record (type_table self.old) { nonterminals = (type_table self.new).nonterminals } }
        ensures err { OnErr result (type_table self.new ≡ type_table self.old) }
    {
        self.nonterminal_types.insert(name, ty)?;
        Ok(())
    }

    /// Puts these rows in the place of those of the nonterminals.
    pub fn set_nonterminals(&mut self, listed: BTreeMap<NonterminalString, TypeRepr>)
        ensures { type_table self.new ≡ record (type_table self.old) { nonterminals = rows repr_view listed } }
    {
        self.nonterminal_types = listed;
    }

    /// Gives a terminal that is not listed (see `has_term_type`) its type. The only error is a failed allocation; the table
    /// is then as it was.
    pub fn add_term_type(&mut self, terminal: TerminalString, ty: TypeRepr) -> Result<(), NoMemory>
        requires { listed_type terminal (type_table self.old) ≡ None }
        ensures added { OnOk result (listed_type terminal (type_table self.new) ≡ Some (repr_view ty)) }
        ensures others { OnOk result ((other : TerminalString) → (other ≡ terminal → ⊥)
            → listed_type other (type_table self.new) ≡ listed_type other (type_table self.old)) }
        ensures rest { type_table self.new ≡ record (type_table self.old) { terminals = (type_table self.new).terminals } }
        ensures err { OnErr result (type_table self.new ≡ type_table self.old) }
    {
        self.terminal_types.insert(terminal, ty)?;
        Ok(())
    }

    /// The nonterminal's type, if it has one yet.
    pub fn lookup_nonterminal_type(&self, name: &NonterminalString) -> Option<&TypeRepr>
        ensures { option_map (λ t. repr_view t.now) result ≡ type_of name.now (type_table self.now) }
    {
        self.nonterminal_types.get(name)
    }

    /// Whether the terminal is listed.
    pub fn has_term_type(&self, terminal: &TerminalString) -> bool
        ensures { IsTrue result ↔ IsSome (listed_type terminal.now (type_table self.now)) }
    {
        self.terminal_types.contains_key(terminal)
    }

    /// The type of a nonterminal that has one (`lookup_nonterminal_type`).
    pub fn nonterminal_type(&self, name: &NonterminalString) -> &TypeRepr
        requires { IsSome (type_of name.now (type_table self.now)) }
        ensures { Some (repr_view result.now) ≡ type_of name.now (type_table self.now) }
    {
        &self.nonterminal_types[name]
    }

    /// The rows of the nonterminals: each that has a type, with it, in the order of their names.
    pub fn nonterminals(&self) -> &BTreeMap<NonterminalString, TypeRepr>
        ensures { rows repr_view result.now ≡ (type_table self.now).nonterminals }
    {
        &self.nonterminal_types
    }

    /// The type of a terminal: the type of a token where it is not listed.
    pub fn terminal_type(&self, terminal: &TerminalString) -> &TypeRepr
        ensures { repr_view result.now ≡ type_of_terminal terminal.now (type_table self.now) }
    {
        match self.terminal_types.get(terminal) {
            Some(ty) => ty,
            None => &self.terminal_token_type,
        }
    }

    /// The type of a token.
    pub fn terminal_token_type(&self) -> &TypeRepr
        ensures { repr_view result.now ≡ (type_table self.now).token }
    {
        &self.terminal_token_type
    }

    /// The type of a location, if one is declared.
    pub fn opt_terminal_loc_type(&self) -> Option<&TypeRepr>
        ensures { option_map (λ t. repr_view t.now) result ≡ (type_table self.now).location }
    {
        self.terminal_loc_type.as_ref()
    }

    /// The rows of the terminals that are listed, each with its type, sorted by terminal.
    pub fn terminals(&self) -> &BTreeMap<TerminalString, TypeRepr>
        ensures { rows repr_view result.now ≡ (type_table self.now).terminals }
    {
        &self.terminal_types
    }

    /// The type of the user's errors, if one is declared.
    pub fn opt_error_type(&self) -> Option<&TypeRepr>
        ensures { option_map (λ t. repr_view t.now) result ≡ (type_table self.now).error }
    {
        self.error_type.as_ref()
    }

    /// The type of what the parser answers where it fails.
    pub fn parse_error_type(&self) -> &TypeRepr
        ensures { repr_view result.now ≡ (type_table self.now).parse_error }
    {
        &self.parse_error_type
    }

    /// The type of the error terminal.
    pub fn error_recovery_type(&self) -> &TypeRepr
        ensures { repr_view result.now ≡ (type_table self.now).recovery }
    {
        &self.error_recovery_type
    }
}
