//! The public rules of a grammar, in item order.
ghost use Rattle.std.specs.Prelude.{◌≡◌, [], ◌∷◌, ◌++◌, IfOk, OnOk, map};
ghost use Rattle.lalrpop_norm_tree.specs.Items.{rule_view, item_view};
ghost use Rattle.lalrpop_norm_lower.specs.Lowering.{rules_among, public_rules_in};

use lalrpop_norm_tree::grammar::parse_tree::{GrammarItem, NoMemory, NonterminalData};
use std::alloc::Global;

/// The public rules among the items.
pub(crate) fn public_rules(
    alloc: Global,
    items: &[GrammarItem],
) -> Result<Vec<&NonterminalData>, NoMemory>
    ensures { IfOk result (λ rs. map (λ r. rule_view r.now) rs.items ≡ public_rules_in (rules_among (map item_view items.now))) }
{
    let mut chosen = Vec::with_capacity(alloc, items.len())?;
    for item in items {
        add_public(&mut chosen, item)?;
    }
    Ok(chosen)
}

/// Adds an item that is a public rule.
fn add_public<'g>(
    chosen: &mut Vec<&'g NonterminalData>,
    item: &'g GrammarItem,
) -> Result<(), NoMemory>
    ensures { OnOk result (map (λ r. rule_view r.now) chosen.new.items
        ≡ map (λ r. rule_view r.now) chosen.old.items ++ public_rules_in (rules_among (item_view item.now ∷ []))) }
{
    match item {
        GrammarItem::Nonterminal(rule) => {
            if rule.visibility.is_pub() {
                chosen.push(rule)?;
            }
            Ok(())
        }
        GrammarItem::MatchToken(_)
        | GrammarItem::ExternToken(_)
        | GrammarItem::InternToken(_)
        | GrammarItem::Use(_) => Ok(()),
    }
}
