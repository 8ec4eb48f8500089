//! What is kept beside a grammar: the origins of its alternatives or actions, and the names at which trees may begin.
ghost use Rattle.std.specs.Prelude.{◌≡◌, [], ◌∷◌, ◌++◌, IfOk, OnOk, map, flat_map};
ghost use Rattle.lalrpop_norm_tree.specs.Items.{item_view};
ghost use Rattle.lalrpop_norm_origins.specs.Origins.{origins_view, origin_lists};
ghost use Rattle.lalrpop_norm_origins.specs.MadeOrigins.{in_one_list};
ghost use Rattle.lalrpop_norm.specs.Roots.{plain_names, start_origins, with_rule_names};

use lalrpop_norm_origins::Origin;
use lalrpop_norm_shared_types::grammar::SharedGrammar;
use lalrpop_norm_tree::grammar::parse_tree::{Grammar, GrammarItem, NoMemory, NonterminalString};
use std::alloc::Global;
use std::collections::BTreeSet;

/// An expanded grammar, with what is kept beside it.
#[derive(Drop)]
pub(crate) struct Plain {
    pub(crate) grammar: Grammar,
    /// One list for each rule in item order, and in it one origin for each alternative.
    pub(crate) origins: Vec<Vec<Origin>>,
    /// The names of the enabled rules that are no macros, as they were written.
    pub(crate) rules: BTreeSet<NonterminalString>,
}

/// A lowered grammar, where types share their parts, with the origins of its actions.
#[derive(Drop)]
pub struct SharedTraced {
    /// The lowered grammar.
    pub grammar: SharedGrammar,
    /// The origin of each action, by the actions' numbers.
    pub origins: Vec<Origin>,
}

/// The names of the written rules that are no macros.
pub(crate) fn names_of_written_rules(
    alloc: Global,
    items: &[GrammarItem],
) -> Result<BTreeSet<NonterminalString>, NoMemory>
    ensures { IfOk result (λ names. names.keys ≡ with_rule_names [] (flat_map plain_names (map item_view items.now))) }
{
    let mut names = BTreeSet::new(alloc);
    for item in items {
        add_name(&mut names, item)?;
    }
    Ok(names)
}

fn add_name(names: &mut BTreeSet<NonterminalString>, item: &GrammarItem) -> Result<(), NoMemory>
    ensures { OnOk result (names.new.keys ≡ with_rule_names names.old.keys (plain_names (item_view item.now))) }
{
    match item {
        GrammarItem::Nonterminal(rule) => {
            if !rule.is_macro_def() {
                names.insert(rule.name.clone()?)?;
            }
            Ok(())
        }
        GrammarItem::MatchToken(_)
        | GrammarItem::ExternToken(_)
        | GrammarItem::InternToken(_)
        | GrammarItem::Use(_) => Ok(()),
    }
}

/// The origins of the actions that lowering will number: those of start symbols, then those of the alternatives.
pub(crate) fn origins_in_order(
    alloc: Global,
    items: &[GrammarItem],
    lists: Vec<Vec<Origin>>,
) -> Result<Vec<Origin>, NoMemory>
    ensures { IfOk result (λ os. origins_view os.items
        ≡ start_origins (map item_view items.now) ++ in_one_list (origin_lists lists.items)) }
{
    let mut origins = origins_of_starts(alloc, items)?;
    for list in lists {
        add_all(&mut origins, list)?;
    }
    Ok(origins)
}

/// The origin of the start symbol of each public rule.
fn origins_of_starts(alloc: Global, items: &[GrammarItem]) -> Result<Vec<Origin>, NoMemory>
    ensures { IfOk result (λ os. origins_view os.items ≡ start_origins (map item_view items.now)) }
{
    let mut origins = Vec::new(alloc);
    for item in items {
        add_start(&mut origins, item)?;
    }
    Ok(origins)
}

/// Adds the origin of the start symbol of a rule that is public.
fn add_start(origins: &mut Vec<Origin>, item: &GrammarItem) -> Result<(), NoMemory>
    ensures { OnOk result (origins_view origins.new.items
        ≡ origins_view origins.old.items ++ start_origins (item_view item.now ∷ [])) }
{
    match item {
        GrammarItem::Nonterminal(rule) => {
            if rule.visibility.is_pub() {
                origins.push(Origin::Start)?;
            }
            Ok(())
        }
        GrammarItem::MatchToken(_)
        | GrammarItem::ExternToken(_)
        | GrammarItem::InternToken(_)
        | GrammarItem::Use(_) => Ok(()),
    }
}

/// Adds the origins of a rule's alternatives.
fn add_all(origins: &mut Vec<Origin>, list: Vec<Origin>) -> Result<(), NoMemory>
    ensures { OnOk result (origins_view origins.new.items ≡ origins_view origins.old.items ++ origins_view list.items) }
{
    let mut list = list;
    origins.append(&mut list)?;
    Ok(())
}
