//! The items of a grammar, whose symbols are rewritten to the nonterminals that they are desugared to.
ghost use Rattle.std.specs.Prelude.{◌≡◌, IfOk, OnOk, map, flat_map};
ghost use Rattle.lalrpop_norm_tree.specs.Items.{item_view, rule_view};
ghost use Rattle.lalrpop_norm_faults.specs.Faults.{Refuses};
ghost use Rattle.lalrpop_norm_nodes.specs.Tables.{IsNodeTable, IsCounted, TableMeets, refused_in};
ghost use Rattle.lalrpop_norm_model.specs.PlainRules.{met_in_rule, replaced_rule};
ghost use Rattle.lalrpop_norm_nodes.specs.Waits.{parts_replaced, LeavesWaiting};
ghost use Rattle.lalrpop_norm_macro_expand_rules.specs.Items.{replaced_item, met_in_item, shown_in_item};

use crate::reading::read_alternatives;
use lalrpop_norm_faults::NormResult;
use lalrpop_norm_names::Names;
use lalrpop_norm_nodes::given::{Environment, Given};
use lalrpop_norm_nodes::table::Table;
use lalrpop_norm_tree::grammar::parse_tree::{GrammarItem, NonterminalData, Symbol, SymbolKind};
use std::alloc::Global;

/// Reads a rule of the grammar, in the empty environment.
fn replace_rule(alloc: Global, rule: &mut NonterminalData, table: &mut Table) -> NormResult<()>
    requires table { IsNodeTable table.old }
    requires counted { IsCounted table.old }
    ensures refuses { Refuses result (refused_in table.old (met_in_rule (rule_view rule.old))) }
    ensures meets { OnOk result (TableMeets table.old table.new (met_in_rule (rule_view rule.old))) }
    ensures counted { OnOk result (IsCounted table.new) }
    ensures waits { OnOk result (LeavesWaiting table.old table.new (map parts_replaced (met_in_rule (rule_view rule.old)))) }
    ensures value { OnOk result (rule_view rule.new ≡ replaced_rule (rule_view rule.old)) }
{
    let numbers = Names::of(alloc, &[])?;
    let given: Vec<Given> = Vec::new(alloc);
    let environment = Environment {
        numbers: &numbers,
        given: &given,
    };
    read_alternatives(alloc, &environment, &mut rule.alternatives, table)?;
    Ok(())
}

fn replace_item(alloc: Global, item: &mut GrammarItem, table: &mut Table) -> NormResult<()>
    requires table { IsNodeTable table.old }
    requires counted { IsCounted table.old }
    ensures refuses { Refuses result (refused_in table.old (met_in_item (item_view item.old))) }
    ensures meets { OnOk result (TableMeets table.old table.new (met_in_item (item_view item.old))) }
    ensures counted { OnOk result (IsCounted table.new) }
    ensures waits { OnOk result (LeavesWaiting table.old table.new (shown_in_item (item_view item.old))) }
    ensures value { OnOk result (item_view item.new ≡ replaced_item (item_view item.old)) }
{
    match item {
        GrammarItem::Nonterminal(rule) => replace_rule(alloc, rule, table),
        GrammarItem::MatchToken(_)
        | GrammarItem::ExternToken(_)
        | GrammarItem::InternToken(_)
        | GrammarItem::Use(_) => Ok(()),
    }
}

/// Reaches the symbols of the items in order, and rewrites each that is desugared.
fn replace_items(
    alloc: Global,
    items: &mut [GrammarItem],
    table: &mut Table,
    room: &mut usize,
) -> NormResult<()>
    requires table { IsNodeTable table.old }
    requires counted { IsCounted table.old }
    ensures refuses { Refuses result (refused_in table.old (flat_map met_in_item (map item_view items.old))) }
    ensures meets { OnOk result (TableMeets table.old table.new (flat_map met_in_item (map item_view items.old))) }
    ensures counted { OnOk result (IsCounted table.new) }
    ensures waits { OnOk result (LeavesWaiting table.old table.new (flat_map shown_in_item (map item_view items.old))) }
    ensures value { OnOk result (map item_view items.new ≡ map replaced_item (map item_view items.old)) }
{
    for i in 0..items.len() {
        // To look at the next item before this one is read brings it from memory in time.
        *room = room.saturating_add(room_for(items.get(i + 1)));
        replace_item(alloc, &mut items[i], table)?;
    }
    Ok(())
}

/// How many symbols at the top of its alternatives may be desugared.
pub(crate) fn room_for(item: Option<&GrammarItem>) -> usize {
    let mut room = 0usize;
    if let Some(GrammarItem::Nonterminal(rule)) = item {
        for alternative in &rule.alternatives {
            room = room.saturating_add(room_of(&alternative.expr.symbols));
        }
    }
    room
}

fn room_of(symbols: &[Symbol]) -> usize {
    let mut room = 0usize;
    for symbol in symbols {
        let most = match symbol.kind {
            SymbolKind::Terminal(_) | SymbolKind::Nonterminal(_) => 0,
            _ => 1,
        };
        room = room.saturating_add(most);
    }
    room
}

/// Reads the items of a grammar: reaches and rewrites their symbols. `room` grows by about how many of those behind the first
/// item may be desugared: a hint for a list, which no contract clause mentions.
///
/// Errors: F37 (`SharedName`) at a symbol whose text is that of another symbol or a declared name; `Memory`.
pub fn read_items(
    alloc: Global,
    items: Vec<GrammarItem>,
    table: &mut Table,
    room: &mut usize,
) -> NormResult<Vec<GrammarItem>>
    requires table { IsNodeTable table.old }
    requires counted { IsCounted table.old }
    ensures refuses { Refuses result (refused_in table.old (flat_map met_in_item (map item_view items.items))) }
    ensures meets { OnOk result (TableMeets table.old table.new (flat_map met_in_item (map item_view items.items))) }
    ensures counted { OnOk result (IsCounted table.new) }
    ensures waits { OnOk result (LeavesWaiting table.old table.new (flat_map shown_in_item (map item_view items.items))) }
    ensures value { IfOk result (λ read. map item_view read.items ≡ map replaced_item (map item_view items.items)) }
{
    let mut read = items;
    replace_items(alloc, &mut read, table, room)?;
    Ok(read)
}
