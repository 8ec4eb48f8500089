//! The macros of a grammar, by their names.
ghost use Rattle.std.specs.Prelude.{◌≡◌, ℕ, List, ◌++◌, ◌∷◌, [], Some, None, IfOk, IfSome, OnOk, map, flat_map, option_map, bytes_eq};
ghost use Rattle.std.specs.Prelude.{if◌then◌else◌};
ghost use Rattle.std.specs.BTreeMap.{get};
ghost use Rattle.std.specs.List.{list_any};
ghost use Rattle.std.specs.Ordering.{nat_cmp};
ghost use Rattle.std.specs.Cmp.Lexicographic.{slice_cmp};
ghost use Rattle.lalrpop_norm_tree.specs.Accessors.{is_macro_item, or_else};
ghost use Rattle.lalrpop_norm_tree.specs.Items.{item_view, rule_view, rule_item};
ghost use Rattle.lalrpop_norm_model.specs.MadeRules.{macro_named};
ghost use Rattle.lalrpop_norm_macro_expand_rules.specs.Macros.{macros_in, HasNumbers, AreByName};
ghost use Rattle.lalrpop_norm_macro_expand_rules.specs.Items.{macro_in, without_macro};

use lalrpop_norm_names::Names;
use lalrpop_norm_tree::grammar::parse_tree::{
    Atom, GrammarItem, NoMemory, NonterminalData, NonterminalString,
};
use std::alloc::Global;
use std::collections::BTreeMap;

/// A macro.
#[derive(Drop)]
pub struct NumberedMacro {
    /// Its definition.
    pub definition: NonterminalData,
    /// The index of the name of each argument: its first index among them.
    pub numbers: Names,
}

/// Macros in their order.
#[derive(Drop)]
pub struct Macros {
    /// The index of the first macro of each name in `rules`.
    pub places: BTreeMap<Atom, usize>,
    /// The macros, in their order.
    pub rules: Vec<NumberedMacro>,
}

/// Notes an index under a name that has none yet.
fn note(places: &mut BTreeMap<Atom, usize>, name: &Atom, place: usize) -> Result<(), NoMemory>
    ensures { OnOk result ((n : List ℕ) → get (slice_cmp nat_cmp) places.new n
        ≡ or_else (get (slice_cmp nat_cmp) places.old n) (if bytes_eq name.now n then Some place else None)) }
{
    if places.contains_key(name) {
        return Ok(());
    }
    places.insert(name.clone()?, place)?;
    Ok(())
}

impl Macros {
    fn new(alloc: Global) -> Macros
        ensures named { AreByName result }
        ensures rules { macros_in result ≡ [] }
    {
        Macros {
            places: BTreeMap::new(alloc),
            rules: Vec::new(alloc),
        }
    }

    /// The macro of that name; of several the first.
    pub fn find(&self, name: &NonterminalString) -> Option<&NumberedMacro>
        requires { AreByName self.now }
        ensures named { option_map (λ m. rule_view m.now.definition) result ≡ macro_named (macros_in self.now) name.now.0 }
        ensures numbered { IfSome result (λ m. HasNumbers m.now) }
    {
        match self.places.get(&name.0) {
            Some(place) => Some(&self.rules[*place]),
            None => None,
        }
    }

    fn add(&mut self, alloc: Global, definition: NonterminalData) -> Result<(), NoMemory>
        requires { AreByName self.old }
        ensures named { OnOk result (AreByName self.new) }
        ensures rules { OnOk result (macros_in self.new ≡ macros_in self.old ++ rule_view definition ∷ []) }
    {
        let place = self.rules.len();
        note(&mut self.places, &definition.name.0, place)?;
        let numbers = Names::of(alloc, &definition.args)?;
        self.rules.push(NumberedMacro {
            definition,
            numbers,
        })?;
        Ok(())
    }
}

/// Adds a rule to the items that are no macros, or a macro to the macros.
fn sort_rule(
    alloc: Global,
    rule: NonterminalData,
    others: &mut Vec<GrammarItem>,
    macros: &mut Macros,
) -> Result<(), NoMemory>
    requires { AreByName macros.old }
    ensures others { OnOk result (map item_view others.new.items
        ≡ map item_view others.old.items ++ without_macro (rule_item (rule_view rule))) }
    ensures macros { OnOk result (macros_in macros.new ≡ macros_in macros.old ++ macro_in (rule_item (rule_view rule))) }
    ensures named { OnOk result (AreByName macros.new) }
{
    if rule.is_macro_def() {
        return macros.add(alloc, rule);
    }
    others.push(GrammarItem::Nonterminal(rule))?;
    Ok(())
}

/// Adds an item to those that are no macros, or to the macros.
fn sort_out(
    alloc: Global,
    item: GrammarItem,
    others: &mut Vec<GrammarItem>,
    macros: &mut Macros,
) -> Result<(), NoMemory>
    requires { AreByName macros.old }
    ensures others { OnOk result (map item_view others.new.items ≡ map item_view others.old.items ++ without_macro (item_view item)) }
    ensures macros { OnOk result (macros_in macros.new ≡ macros_in macros.old ++ macro_in (item_view item)) }
    ensures named { OnOk result (AreByName macros.new) }
{
    match item.into_nonterminal() {
        Ok(rule) => sort_rule(alloc, rule, others, macros),
        Err(other) => {
            others.push(other)?;
            Ok(())
        }
    }
}

/// Whether one of the items is a macro.
fn some_macro(items: &[GrammarItem]) -> bool
    ensures { result ≡ list_any is_macro_item (map item_view items.now) }
{
    for item in items {
        if item.is_macro_def() {
            return true;
        }
    }
    false
}

/// The items that are no macros, and the macros, each in their order.
#[tactic(auto, using(crate::proofs::NoMacros::all_others, crate::proofs::NoMacros::no_macros))]
pub fn without_macros(
    alloc: Global,
    items: Vec<GrammarItem>,
) -> Result<(Vec<GrammarItem>, Macros), NoMemory>
    ensures others { IfOk result (λ t. map item_view t.0.items ≡ flat_map without_macro (map item_view items.items)) }
    ensures macros { IfOk result (λ t. macros_in t.1 ≡ flat_map macro_in (map item_view items.items)) }
    ensures named { IfOk result (λ t. AreByName t.1) }
{
    let mut macros = Macros::new(alloc);
    // Items are large, and most grammars have no macro.
    if !some_macro(&items) {
        return Ok((items, macros));
    }
    let mut others = Vec::with_capacity(alloc, items.len())?;
    for item in items {
        sort_out(alloc, item, &mut others, &mut macros)?;
    }
    Ok((others, macros))
}
