//! The names that a grammar declares.
ghost use Rattle.std.specs.Prelude.{◌≡◌, ◌∷◌, [], IfOk, OnOk, map, flat_map};
ghost use Rattle.lalrpop_norm_tree.specs.Items.{item_view};
ghost use Rattle.lalrpop_norm_nodes.specs.Meeting.{has_key};
ghost use Rattle.lalrpop_norm_macro_expand_rules.specs.Names.{is_declared_name, item_names, with_names};

use lalrpop_norm_names::Seeded;
use lalrpop_norm_tree::grammar::parse_tree::{Atom, GrammarItem, NoMemory};
use std::alloc::Global;
use std::collections::HashSet;

fn insert_name(names: &mut HashSet<Atom, Seeded>, name: &Atom) -> Result<(), NoMemory>
    ensures { OnOk result (has_key names.new ≡ with_names (has_key names.old) (name.now ∷ [])) }
{
    names.insert(name.clone()?)?;
    Ok(())
}

fn add_name(names: &mut HashSet<Atom, Seeded>, item: &GrammarItem) -> Result<(), NoMemory>
    ensures { OnOk result (has_key names.new ≡ with_names (has_key names.old) (item_names (item_view item.now))) }
{
    match item {
        GrammarItem::Nonterminal(rule) => insert_name(names, &rule.name.0),
        GrammarItem::MatchToken(_)
        | GrammarItem::ExternToken(_)
        | GrammarItem::InternToken(_)
        | GrammarItem::Use(_) => Ok(()),
    }
}

/// The names of the rules and macros, to be found by these hashes.
pub fn declared_names(
    alloc: Global,
    items: &[GrammarItem],
    hash_builder: Seeded,
) -> Result<HashSet<Atom, Seeded>, NoMemory>
    ensures { IfOk result (λ names. has_key names ≡ is_declared_name (flat_map item_names (map item_view items.now))) }
{
    let mut names = HashSet::with_capacity_and_hasher(alloc, items.len(), hash_builder)?;
    for item in items {
        add_name(&mut names, item)?;
    }
    Ok(names)
}
