//! Rules that have types.
ghost use Rattle.std.specs.Prelude.{◌≡◌, map};
ghost use Rattle.std.specs.List.{list_all};
ghost use Rattle.lalrpop_norm_tree.specs.Items.{item_view};
ghost use Rattle.lalrpop_norm_repr.specs.Tables.{type_table};
ghost use Rattle.lalrpop_norm_is_typed.specs.Rules.{is_item_typed};

use lalrpop_norm_repr::grammar::repr::Types;
use lalrpop_norm_tree::grammar::parse_tree::GrammarItem;

/// Whether each rule has a type in the table.
pub(crate) fn are_rules_typed(types: &Types, items: &[GrammarItem]) -> bool
    ensures { result ≡ list_all (is_item_typed (type_table types.now)) (map item_view items.now) }
{
    for item in items {
        if !is_item_typed(types, item) {
            return false;
        }
    }
    true
}

fn is_item_typed(types: &Types, item: &GrammarItem) -> bool
    ensures { result ≡ is_item_typed (type_table types.now) (item_view item.now) }
{
    match item {
        GrammarItem::Nonterminal(rule) => types.lookup_nonterminal_type(&rule.name).is_some(),
        GrammarItem::MatchToken(_)
        | GrammarItem::ExternToken(_)
        | GrammarItem::InternToken(_)
        | GrammarItem::Use(_) => true,
    }
}
