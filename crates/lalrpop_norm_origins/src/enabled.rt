//! The origins of the alternatives that the features of a session leave.
ghost use Rattle.std.specs.Prelude.{◌≡◌, ◌++◌, IfOk, OnOk, map};
ghost use Rattle.lalrpop_norm_tree.specs.Items.{alternative_view, rule_view, item_view, grammar_view};
ghost use Rattle.lalrpop_norm_model.specs.Enabled.{if_active};
ghost use Rattle.lalrpop_norm_common.specs.Sessions.{features_view};
ghost use Rattle.lalrpop_norm_origins.specs.Origins.{origins_view, origin_lists};
ghost use Rattle.lalrpop_norm_origins.specs.EnabledOrigins.{places_from, enabled_rule_origins, enabled_item_origins, enabled_origins};

use crate::origin::Origin;
use lalrpop_norm_common::{Session, cfg_active};
use lalrpop_norm_tree::grammar::parse_tree::{
    Alternative, Grammar, GrammarItem, NoMemory, NonterminalData, NonterminalString,
};
use std::alloc::Global;

/// One list for each rule that the features of the session leave, in item order: for each alternative that they leave in it, its
/// written index. The only error is a failed allocation.
pub fn enabled_origins<L>(
    alloc: Global,
    session: &Session<L>,
    grammar: &Grammar,
) -> Result<Vec<Vec<Origin>>, NoMemory>
    ensures { IfOk result (λ os. origin_lists os.items ≡ enabled_origins (features_view session.now.features) (grammar_view grammar.now)) }
{
    let mut lists = Vec::new(alloc);
    for item in &grammar.items {
        add_item(alloc, session, item, &mut lists)?;
    }
    Ok(lists)
}

/// Adds the list of a rule that the features leave.
fn add_item<L>(
    alloc: Global,
    session: &Session<L>,
    item: &GrammarItem,
    lists: &mut Vec<Vec<Origin>>,
) -> Result<(), NoMemory>
    ensures { OnOk result (origin_lists lists.new.items
        ≡ origin_lists lists.old.items ++ enabled_item_origins (features_view session.now.features) (item_view item.now)) }
{
    match item {
        GrammarItem::Nonterminal(rule) => {
            if cfg_active(session, &rule.attributes) {
                lists.push(rule_origins(alloc, session, rule)?)?;
            }
            Ok(())
        }
        GrammarItem::MatchToken(_)
        | GrammarItem::ExternToken(_)
        | GrammarItem::InternToken(_)
        | GrammarItem::Use(_) => Ok(()),
    }
}

fn rule_origins<L>(
    alloc: Global,
    session: &Session<L>,
    rule: &NonterminalData,
) -> Result<Vec<Origin>, NoMemory>
    ensures { IfOk result (λ os. origins_view os.items ≡ enabled_rule_origins (features_view session.now.features) (rule_view rule.now)) }
{
    places(alloc, session, &rule.name, &rule.alternatives)
}

fn places<L>(
    alloc: Global,
    session: &Session<L>,
    rule: &NonterminalString,
    alternatives: &[Alternative],
) -> Result<Vec<Origin>, NoMemory>
    ensures { IfOk result (λ os. origins_view os.items
        ≡ places_from rule.now.0 0 (map (if_active (features_view session.now.features)) (map alternative_view alternatives.now))) }
{
    let mut origins = Vec::new(alloc);
    for (place, alternative) in alternatives.iter().enumerate() {
        if cfg_active(session, &alternative.attributes) {
            origins.push(Origin::Written {
                rule: NonterminalString(rule.0.again()),
                alternative: place,
            })?;
        }
    }
    Ok(origins)
}
