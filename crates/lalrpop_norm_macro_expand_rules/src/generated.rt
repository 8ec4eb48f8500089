//! Generated rules, which the next round reads.
ghost use Rattle.std.specs.Prelude.{◌≡◌, OnOk, map, length, flat_map};
ghost use Rattle.lalrpop_norm_tree.specs.Items.{item_view, rule_item, rule_view};
ghost use Rattle.lalrpop_norm_faults.specs.Faults.{Refuses};
ghost use Rattle.lalrpop_norm_nodes.specs.Tables.{wholes_in, IsNodeTable, IsCounted, TableMeets, refused_in};
ghost use Rattle.lalrpop_norm_nodes.specs.Waits.{LeavesWaiting};
ghost use Rattle.lalrpop_norm_macro_expand_rules.specs.Generated.{met_in_generated, shown_in_generated, generated_read};
ghost use Rattle.lalrpop_norm_macro_expand_rules.specs.Generated.{filling_view, filled_rule, filled_item, generated_in};
ghost use Rattle.lalrpop_norm_macro_expand_rules.specs.Generated.{IsFilling, IsReadable, AreReadable};

use crate::items::room_for;
use crate::reading::read_alternatives;
use lalrpop_norm_faults::NormResult;
use lalrpop_norm_names::Names;
use lalrpop_norm_nodes::given::{Environment, Given};
use lalrpop_norm_nodes::table::Table;
use lalrpop_norm_tree::grammar::parse_tree::{GrammarItem, NonterminalData};
use std::alloc::Global;

/// The environment of a generated rule: what the names in it are bound to.
#[derive(Drop)]
pub struct Filling<'m> {
    /// The index of each name: its first index among them.
    pub numbers: &'m Names,
    /// What they are bound to, in order.
    pub given: Vec<Given>,
}

/// A generated rule.
#[derive(Drop)]
pub struct GeneratedRule<'m> {
    /// The rule.
    pub rule: NonterminalData,
    /// The environment, if the rule is still to be read: its symbols are as they are written. If there is none, what is desugared
    /// in it was reached, and is rewritten.
    pub filling: Option<Filling<'m>>,
}

fn read_rule(
    alloc: Global,
    rule: &mut NonterminalData,
    filling: &Filling,
    table: &mut Table,
) -> NormResult<()>
    requires table { IsNodeTable table.old }
    requires counted { IsCounted table.old }
    requires readable { IsFilling (wholes_in table.old) filling.now }
    ensures refuses { Refuses result (refused_in table.old
        (met_in_generated (filled_rule (wholes_in table.old) filling.now (rule_view rule.old)))) }
    ensures meets { OnOk result (TableMeets table.old table.new
        (met_in_generated (filled_rule (wholes_in table.old) filling.now (rule_view rule.old)))) }
    ensures counted { OnOk result (IsCounted table.new) }
    ensures waits { OnOk result (LeavesWaiting table.old table.new
        (shown_in_generated (filled_rule (wholes_in table.old) filling.now (rule_view rule.old)))) }
    ensures value { OnOk result (rule_item (rule_view rule.new)
        ≡ generated_read (filled_rule (wholes_in table.old) filling.now (rule_view rule.old))) }
{
    let environment = Environment {
        numbers: filling.numbers,
        given: &filling.given,
    };
    read_alternatives(alloc, &environment, &mut rule.alternatives, table)?;
    Ok(())
}

/// Reads what is still to be read of an item.
fn read_item(
    alloc: Global,
    item: &mut GrammarItem,
    filling: Option<Filling>,
    table: &mut Table,
) -> NormResult<()>
    requires table { IsNodeTable table.old }
    requires counted { IsCounted table.old }
    requires readable { IsReadable (wholes_in table.old) filling }
    ensures refuses { Refuses result (refused_in table.old
        (met_in_generated (filled_item (filling_view (wholes_in table.old) filling.entry) (item_view item.old)))) }
    ensures meets { OnOk result (TableMeets table.old table.new
        (met_in_generated (filled_item (filling_view (wholes_in table.old) filling.entry) (item_view item.old)))) }
    ensures counted { OnOk result (IsCounted table.new) }
    ensures waits { OnOk result (LeavesWaiting table.old table.new
        (shown_in_generated (filled_item (filling_view (wholes_in table.old) filling.entry) (item_view item.old)))) }
    ensures value { OnOk result (item_view item.new
        ≡ generated_read (filled_item (filling_view (wholes_in table.old) filling.entry) (item_view item.old))) }
{
    let Some(filling) = filling else {
        return Ok(());
    };
    match item {
        GrammarItem::Nonterminal(rule) => read_rule(alloc, rule, &filling, table),
        GrammarItem::MatchToken(_)
        | GrammarItem::ExternToken(_)
        | GrammarItem::InternToken(_)
        | GrammarItem::Use(_) => Ok(()),
    }
}

/// Reads the rules that a round generated: reaches their symbols, and rewrites each that is desugared. The environments
/// (`fillings`) are those of the rules, in order. `room` grows by about how many symbols of the rules behind the first may be
/// desugared: a hint for a list, which no contract clause mentions.
///
/// Errors: F37 (`SharedName`) at a symbol whose text is that of another symbol or a declared name; `Memory`.
pub fn read_generated(
    alloc: Global,
    rules: &mut [GrammarItem],
    fillings: Vec<Option<Filling>>,
    table: &mut Table,
    room: &mut usize,
) -> NormResult<()>
    requires table { IsNodeTable table.old }
    requires counted { IsCounted table.old }
    requires long { length fillings.items ≡ length rules.old }
    requires readable { AreReadable (wholes_in table.old) fillings.items }
    ensures refuses { Refuses result (refused_in table.old
        (flat_map met_in_generated (generated_in (wholes_in table.old) fillings.entry.items rules.old))) }
    ensures meets { OnOk result (TableMeets table.old table.new
        (flat_map met_in_generated (generated_in (wholes_in table.old) fillings.entry.items rules.old))) }
    ensures counted { OnOk result (IsCounted table.new) }
    ensures waits { OnOk result (LeavesWaiting table.old table.new
        (flat_map shown_in_generated (generated_in (wholes_in table.old) fillings.entry.items rules.old))) }
    ensures value { OnOk result (map item_view rules.new
        ≡ map generated_read (generated_in (wholes_in table.old) fillings.entry.items rules.old)) }
{
    for (place, filling) in fillings.into_iter().enumerate() {
        // The next rule is looked at before this one is read: then it comes from memory in time.
        *room = room.saturating_add(room_for(rules.get(place.saturating_add(1))));
        read_item(alloc, &mut rules[place], filling, table)?;
    }
    Ok(())
}
