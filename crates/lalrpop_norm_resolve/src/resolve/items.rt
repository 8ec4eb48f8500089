//! Names in items.
ghost use Rattle.std.specs.Prelude.{◌≡◌, OnOk, map, flat_map};
ghost use Rattle.lalrpop_norm_tree.specs.Items.{item_view};
ghost use Rattle.lalrpop_norm_faults.specs.Faults.{Refuses};
ghost use Rattle.lalrpop_norm_resolve.specs.NameTables.{item_faults_in, resolved_item_in};

use super::GlobalTable;
use super::rules::resolve_rule;
use lalrpop_norm_faults::NormResult;
use lalrpop_norm_tree::grammar::parse_tree::GrammarItem;
use std::alloc::Global;

#[tactic(auto, unfolding(crate::specs::NameTables::item_faults_in, crate::specs::NameTables::resolved_item_in))]
fn resolve_item(alloc: Global, globals: &GlobalTable, item: &mut GrammarItem) -> NormResult<()>
    ensures refuses { Refuses result (item_faults_in globals.now (item_view item.old)) }
    ensures resolves { OnOk result (item_view item.new ≡ resolved_item_in globals.now (item_view item.old)) }
{
    match item {
        GrammarItem::Nonterminal(rule) => {
            resolve_rule(alloc, globals, rule)?;
            Ok(())
        }
        GrammarItem::MatchToken(_)
        | GrammarItem::ExternToken(_)
        | GrammarItem::InternToken(_)
        | GrammarItem::Use(_) => Ok(()),
    }
}

pub(crate) fn resolve_items(
    alloc: Global,
    globals: &GlobalTable,
    items: &mut [GrammarItem],
) -> NormResult<()>
    ensures refuses { Refuses result (flat_map (item_faults_in globals.now) (map item_view items.old)) }
    ensures resolves { OnOk result (map item_view items.new ≡ map (resolved_item_in globals.now) (map item_view items.old)) }
{
    for item in items.iter_mut() {
        resolve_item(alloc, globals, item)?;
    }
    Ok(())
}
