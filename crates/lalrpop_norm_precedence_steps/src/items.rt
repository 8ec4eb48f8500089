//! Items that levels change, and those that they leave.
ghost use Rattle.std.specs.Prelude.{◌≡◌, ◌++◌, IfOk, OnOk, map, option_map};
ghost use Rattle.lalrpop_norm_tree.specs.Accessors.{rule_of};
ghost use Rattle.lalrpop_norm_tree.specs.Items.{item_view, rule_view};
ghost use Rattle.lalrpop_norm_precedence_steps.specs.OtherItems.{other_items};

use lalrpop_norm_tree::grammar::parse_tree::{GrammarItem, NoMemory, NonterminalData};

/// The rule that an item is. Any other item is added behind the items so far, as it is.
pub fn rule_or_push(
    item: GrammarItem,
    items: &mut Vec<GrammarItem>,
) -> Result<Option<NonterminalData>, NoMemory>
    ensures rule { IfOk result (λ r. option_map rule_view r ≡ rule_of (item_view item)) }
    ensures items { OnOk result (map item_view items.new.items ≡ map item_view items.old.items ++ other_items (item_view item)) }
{
    match item.into_nonterminal() {
        Ok(rule) => Ok(Some(rule)),
        Err(other) => {
            items.push(other)?;
            Ok(None)
        }
    }
}
