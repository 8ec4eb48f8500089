//! The types of rules by number.
ghost use Rattle.std.specs.Prelude.{◌≡◌, ◌<◌, ◌++◌, [], ℕ, List, Option, None, Some, IfOk, OnOk, is_some, length, map, option_map};
ghost use Rattle.std.specs.List.Sorted.{IsStrictlySortedBy};
ghost use Rattle.std.specs.Map.{keys_of};
ghost use Rattle.lalrpop_norm_names.specs.Numbers.{number_in_table};
ghost use Rattle.lalrpop_norm_theory.specs.Rounds.{IsDistinct};
ghost use Rattle.lalrpop_norm_tree_parts.specs.Reprs.{repr_view};
ghost use Rattle.lalrpop_norm_shared_types.specs.Shared.{shared_view};
ghost use Rattle.lalrpop_norm_shared_types.specs.Table.{shared_table};
ghost use Rattle.lalrpop_norm_repr.specs.Orders.{name_cmp, terminal_cmp};
ghost use Rattle.lalrpop_norm_repr.specs.Tables.{type_table, type_of, type_of_terminal};
ghost use Rattle.lalrpop_norm_tyinfer_steps.specs.Needs.{AreRuleNumbers};
ghost use Rattle.lalrpop_norm_tyinfer_steps.specs.Numbered.{names_numbered, type_at, type_by_number, numbered_table};
ghost use Rattle.lalrpop_norm_tyinfer_steps.specs.Numbered.{row_with, rows_of_rules, IsNumberOf, PutsType};
ghost use Rattle.lalrpop_norm_tyinfer_steps.specs.TableValues.{type_by_name};

use lalrpop_norm_names::Names;
use lalrpop_norm_repr::grammar::repr::{TypeRepr, Types};
use lalrpop_norm_shared_types::shared::SharedType;
use lalrpop_norm_shared_types::table::SharedTypes;
use lalrpop_norm_tree::grammar::parse_tree::{NoMemory, NonterminalString, TerminalString};
use std::alloc::Global;

/// Rules by number, each with its name and its type, if it has one yet; beside them the types that need no inference.
pub struct Numbered {
    /// The numbers of the names.
    pub names: Names,
    rules: Vec<(NonterminalString, Option<SharedType>)>,
    tokens: Types,
}

// As that of `Types`: a derived `Drop` would be proved anew wherever a value of it ends.
impl Drop for Numbered {
    fn drop(self) {
        let Numbered {
            names: _names,
            rules: _rules,
            tokens: _tokens,
        } = self;
    }
}

impl Numbered {
    /// Rules of these names, none of which has a type.
    pub fn new(
        alloc: Global,
        listed: Vec<NonterminalString>,
        tokens: Types,
    ) -> Result<Numbered, NoMemory>
        ensures listed { IfOk result (λ t. names_numbered t ≡ map (λ n. n.0) listed.items) }
        ensures numbers { IfOk result (λ t. AreRuleNumbers (number_in_table t.names) (names_numbered t)) }
        ensures untyped { IfOk result (λ t. (n : List ℕ) → type_by_number t n ≡ None) }
        ensures tokens { IfOk result (λ t. t.tokens ≡ tokens) }
    {
        let names = Names::of(alloc, &listed)?;
        let rules = untyped(alloc, listed)?;
        Ok(Numbered {
            names,
            rules,
            tokens,
        })
    }

    /// Gives a rule its type.
    pub fn put(&mut self, number: usize, ty: SharedType)
        requires { number < length self.old.rules.items }
        ensures { PutsType self.old self.new number (shared_view ty) }
    {
        self.rules[number].1 = Some(ty);
    }

    /// The nonterminal's type, if it has one yet.
    pub fn lookup_nonterminal_type(&self, name: &NonterminalString) -> Option<&SharedType>
        ensures { option_map (λ t. shared_view t.now) result ≡ type_of name.now (numbered_table self.now) }
    {
        match self.names.number(name) {
            Some(number) => self.at(number),
            None => None,
        }
    }

    /// The type of a rule, if it has one yet.
    pub fn at(&self, number: usize) -> Option<&SharedType>
        ensures { option_map (λ t. shared_view t.now) result ≡ type_at self.now.rules.items (Some number) }
    {
        match self.rules.get(number) {
            Some(rule) => rule.1.as_ref(),
            None => None,
        }
    }

    /// Whether a rule has a type yet.
    pub fn is_typed(&self, number: usize) -> bool
        ensures { (n : List ℕ) → IsNumberOf self.now n number → result ≡ is_some (type_by_name (numbered_table self.now) n) }
    {
        self.at(number).is_some()
    }

    /// The type of a terminal: the type of a token where it has none of its own.
    pub fn terminal_type(&self, terminal: &TerminalString) -> &TypeRepr
        ensures { repr_view result.now ≡ type_of_terminal terminal.now (numbered_table self.now) }
    {
        self.tokens.terminal_type(terminal)
    }

    /// The type of the error terminal.
    pub fn error_recovery_type(&self) -> &TypeRepr
        ensures { repr_view result.now ≡ (numbered_table self.now).recovery }
    {
        self.tokens.error_recovery_type()
    }

    /// The type of a location, if one is declared.
    pub fn opt_terminal_loc_type(&self) -> Option<&TypeRepr>
        ensures { option_map (λ t. repr_view t.now) result ≡ (numbered_table self.now).location }
    {
        self.tokens.opt_terminal_loc_type()
    }

    /// The types by name, as they are shared, and the numbers of the names.
    pub fn shared_by_name(self, alloc: Global) -> Result<(SharedTypes, Names), NoMemory>
        requires numbers { AreRuleNumbers (number_in_table self.names) (names_numbered self) }
        requires distinct { IsDistinct (names_numbered self) }
        requires tokens { (type_table self.tokens).nonterminals ≡ [] }
        ensures same { IfOk result (λ p. (n : List ℕ) → type_by_name (shared_table p.0) n ≡ type_by_name (numbered_table self) n) }
        ensures rest { IfOk result (λ p. shared_table p.0 ≡ record (numbered_table self) { nonterminals = (shared_table p.0).nonterminals }) }
        ensures names_in_order { IfOk result (λ p. IsStrictlySortedBy name_cmp (keys_of (shared_table p.0).nonterminals)) }
        ensures terminals_in_order { IfOk result (λ p. IsStrictlySortedBy terminal_cmp (keys_of (shared_table p.0).terminals)) }
        ensures numbers { IfOk result (λ p. p.1 ≡ self.names) }
    {
        let Numbered {
            names,
            rules,
            tokens,
        } = self;
        let rows = rows_with_types(alloc, rules)?;
        let types = SharedTypes::of_rows(alloc, tokens, rows)?;
        Ok((types, names))
    }
}

/// Rules of these names, without types.
fn untyped(
    alloc: Global,
    names: Vec<NonterminalString>,
) -> Result<Vec<(NonterminalString, Option<SharedType>)>, NoMemory>
    ensures names { IfOk result (λ rs. map (λ r. r.0.0) rs.items ≡ map (λ n. n.0) names.items) }
    ensures untyped { IfOk result (λ rs. (o : Option ℕ) → type_at rs.items o ≡ None) }
{
    let mut rules = Vec::with_capacity(alloc, names.len())?;
    for name in names {
        rules.push((name, None))?;
    }
    Ok(rules)
}

/// The rules that have types, each with its type.
fn rows_with_types(
    alloc: Global,
    rules: Vec<(NonterminalString, Option<SharedType>)>,
) -> Result<Vec<(NonterminalString, SharedType)>, NoMemory>
    ensures { IfOk result (λ rs. rs.items ≡ rows_of_rules rules.items) }
{
    let mut rows = Vec::with_capacity(alloc, rules.len())?;
    for rule in rules {
        add_row(&mut rows, rule.0, rule.1)?;
    }
    Ok(rows)
}

/// Lists the row of a rule, if it has a type.
fn add_row(
    rows: &mut Vec<(NonterminalString, SharedType)>,
    name: NonterminalString,
    ty: Option<SharedType>,
) -> Result<(), NoMemory>
    ensures { OnOk result (rows.new.items ≡ rows.old.items ++ row_with name ty) }
{
    match ty {
        Some(ty) => {
            rows.push((name, ty))?;
            Ok(())
        }
        None => {
            // By a call: where a value of this type ends in place, its drop is proved there, variant by variant.
            drop(name);
            Ok(())
        }
    }
}
