//! The types of rules, found by the numbers of their names.
ghost use Rattle.std.specs.Prelude.{◌≡◌, ◌<◌, [], ◌∷◌, ◌++◌, IfOk, OnOk, Some, length, map, option_map, slice_get, vec_len};
ghost use Rattle.lalrpop_norm_tree.specs.Items.{item_view};
ghost use Rattle.lalrpop_norm_tree_parts.specs.Reprs.{unit_type};
ghost use Rattle.lalrpop_norm_theory.specs.Rounds.{IsDistinct};
ghost use Rattle.lalrpop_norm_names.specs.Numbers.{IsNumbering};
ghost use Rattle.lalrpop_norm_repr.specs.Tables.{type_of, type_of_terminal};
ghost use Rattle.lalrpop_norm_shared_types.specs.Shared.{shared_view};
ghost use Rattle.lalrpop_norm_shared_types.specs.Table.{shared_table};
ghost use Rattle.lalrpop_norm_lower.specs.Lowering.{rules_among};
ghost use Rattle.lalrpop_norm_lower.specs.Numbered.{AreTypesByNumber};
ghost use Rattle.lalrpop_norm_lower.specs.TerminalTypes.{AreTypesOfTerminals};

use crate::terminal_types::TerminalTypes;
use lalrpop_norm_names::Names;
use lalrpop_norm_shared_types::shared::{SharedType, TypeNode};
use lalrpop_norm_shared_types::table::SharedTypes;
use lalrpop_norm_tree::grammar::parse_tree::{
    GrammarItem, NoMemory, NonterminalString, TerminalString,
};
use std::alloc::Global;

/// A table of types, with what it has for each rule at the number of the rule's name, and the types of terminals, made once.
#[derive(Drop)]
pub(crate) struct NumberedTypes<'t> {
    pub(crate) table: &'t SharedTypes,
    names: Names,
    by_number: Vec<Option<&'t SharedType>>,
    terminals: TerminalTypes,
    ghost numbered: { ∥ AreTypesByNumber (shared_table table.now) names (map (option_map (λ t. shared_view t.now)) by_number.items) ∥₁ },
    ghost terminals_typed: { ∥ AreTypesOfTerminals (shared_table table.now) terminals ∥₁ },
}

impl<'t> NumberedTypes<'t> {
    /// For the rules among the items, which have distinct names: the number of each is its index among them.
    pub(crate) fn of(
        alloc: Global,
        table: &'t SharedTypes,
        items: &[GrammarItem],
        names: Names,
    ) -> Result<NumberedTypes<'t>, NoMemory>
        requires distinct { IsDistinct (map (λ r. r.name.0) (rules_among (map item_view items.now))) }
        requires numbering { IsNumbering (map (λ r. r.name.0) (rules_among (map item_view items.now))) names }
        ensures table { IfOk result (λ n. n.table.now ≡ table.now) }
        ensures types { IfOk result (λ n. map (option_map (λ t. shared_view t.now)) n.by_number.items
            ≡ map (λ r. type_of r.name (shared_table table.now)) (rules_among (map item_view items.now))) }
    {
        let by_number = types_of(alloc, table, items, &names)?;
        let terminals = TerminalTypes::of(alloc, table.rest())?;
        Ok(NumberedTypes {
            table,
            names,
            by_number,
            terminals,
        })
    }

    /// The type of a nonterminal, if it has one. One that is no rule is looked up in the table.
    pub(crate) fn nonterminal(&self, name: &NonterminalString) -> Option<&'t SharedType>
        ensures { option_map (λ t. shared_view t.now) result ≡ type_of name.now (shared_table self.now.table.now) }
    {
        match self.names.number(name) {
            Some(number) => self.by_number[number],
            None => self.table.lookup_nonterminal_type(name),
        }
    }

    /// The type of the rule of that number, if it has one: no name is looked up.
    pub(crate) fn at(&self, number: usize) -> Option<&'t SharedType>
        requires { number < vec_len self.now.by_number }
        ensures { slice_get (map (option_map (λ t. shared_view t.now)) self.now.by_number.items) number
            ≡ Some (option_map (λ t. shared_view t.now) result) }
    {
        self.by_number[number]
    }

    /// The type of a terminal: one more owner of it.
    pub(crate) fn terminal(&self, terminal: &TerminalString) -> Result<SharedType, NoMemory>
        ensures { IfOk result (λ t. shared_view t ≡ type_of_terminal terminal.now (shared_table self.now.table.now)) }
    {
        self.terminals.get(terminal)
    }
}

/// The numbers of the names of the rules among the items: each has the first index among them at which it occurs.
pub(crate) fn numbers_of_rules(alloc: Global, items: &[GrammarItem]) -> Result<Names, NoMemory>
    ensures { IfOk result (IsNumbering (map (λ r. r.name.0) (rules_among (map item_view items.now)))) }
{
    let names = names_of_rules(alloc, items)?;
    Names::of(alloc, &names)
}

/// The names of the rules among the items.
fn names_of_rules(alloc: Global, items: &[GrammarItem]) -> Result<Vec<NonterminalString>, NoMemory>
    ensures { IfOk result (λ ns. ns.items ≡ map (λ r. r.name) (rules_among (map item_view items.now))) }
{
    let mut names = Vec::with_capacity(alloc, items.len())?;
    for item in items {
        add_name(&mut names, item)?;
    }
    Ok(names)
}

/// Adds the name of an item that is a rule.
fn add_name(names: &mut Vec<NonterminalString>, item: &GrammarItem) -> Result<(), NoMemory>
    ensures { OnOk result (names.new.items ≡ names.old.items ++ map (λ r. r.name) (rules_among (item_view item.now ∷ []))) }
{
    match item {
        GrammarItem::Nonterminal(rule) => names.push(rule.name.clone()?)?,
        GrammarItem::MatchToken(_)
        | GrammarItem::ExternToken(_)
        | GrammarItem::InternToken(_)
        | GrammarItem::Use(_) => {}
    }
    Ok(())
}

/// What the table has for each of the rules among the items, at the number of its name. Each row of the table is reached once.
fn types_of<'t>(
    alloc: Global,
    table: &'t SharedTypes,
    items: &[GrammarItem],
    names: &Names,
) -> Result<Vec<Option<&'t SharedType>>, NoMemory>
    requires { IsNumbering (map (λ r. r.name.0) (rules_among (map item_view items.now))) names.now }
    ensures types { IfOk result
        (λ ts. AreTypesByNumber (shared_table table.now) names.now (map (option_map (λ t. shared_view t.now)) ts.items)) }
    ensures count { IfOk result
        (λ ts. length (map (option_map (λ t. shared_view t.now)) ts.items) ≡ length (rules_among (map item_view items.now))) }
{
    let mut types = vec![in alloc; None; count_rules(items)]?;
    for (name, ty) in table.nonterminals() {
        if let Some(number) = names.number(name) {
            types[number] = Some(ty);
        }
    }
    Ok(types)
}

/// How many of the items are rules.
fn count_rules(items: &[GrammarItem]) -> usize
    ensures { result ≡ length (rules_among (map item_view items.now)) }
{
    let mut count = 0usize;
    for item in items {
        if item.as_nonterminal().is_some() {
            count += 1;
        }
    }
    count
}

/// The unit type: of a rule that has none.
pub(crate) fn unit_type(alloc: Global) -> Result<SharedType, NoMemory>
    ensures { IfOk result (λ t. shared_view t ≡ unit_type) }
{
    SharedType::new(alloc, TypeNode::Tuple(Vec::new(alloc)))
}
