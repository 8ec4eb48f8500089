//! Rules with their typing clauses: what may give them a type.
ghost use Rattle.std.specs.Prelude.{◌≡◌, IfOk, map, flat_map};
ghost use Rattle.lalrpop_norm_tree.specs.Items.{item_view, rule_view};
ghost use Rattle.lalrpop_norm_model.specs.PlainRules.{rule_of_item};
ghost use Rattle.lalrpop_norm_tyinfer_steps.specs.Needs.{names_seen};
ghost use Rattle.lalrpop_norm_tyinfer_steps.specs.Visits.{rule_seen, with_clauses};

use crate::type_sources::{RuleClauses, rule_clauses};
use lalrpop_norm_tree::grammar::parse_tree::{
    GrammarItem, NoMemory, NonterminalData, NonterminalString,
};
use std::alloc::Global;

/// A rule, and what gives it its type.
#[derive(Debug, Drop)]
pub struct PlainRule<'g> {
    /// The rule.
    pub data: &'g NonterminalData,
    /// What gives it its type.
    pub clauses: RuleClauses<'g>,
}

fn plain_rule(alloc: Global, rule: &NonterminalData) -> Result<PlainRule<'_>, NoMemory>
    ensures { IfOk result (λ r. rule_seen r ≡ with_clauses (rule_view rule.now)) }
{
    let clauses = rule_clauses(alloc, rule)?;
    Ok(PlainRule {
        data: rule,
        clauses,
    })
}

/// The rules among the items, with their clauses.
pub fn plain_rules(alloc: Global, items: &[GrammarItem]) -> Result<Vec<PlainRule<'_>>, NoMemory>
    ensures { IfOk result (λ rs. map rule_seen rs.items ≡ map with_clauses (flat_map rule_of_item (map item_view items.now))) }
{
    let mut rules = Vec::with_capacity(alloc, items.len())?;
    for item in items {
        match item {
            GrammarItem::Nonterminal(data) => {
                let rule = plain_rule(alloc, data)?;
                rules.push(rule)?
            }
            GrammarItem::MatchToken(_)
            | GrammarItem::ExternToken(_)
            | GrammarItem::InternToken(_)
            | GrammarItem::Use(_) => {}
        }
    }
    Ok(rules)
}

/// The names of some rules.
pub fn names_of_rules(
    alloc: Global,
    rules: &[PlainRule],
) -> Result<Vec<NonterminalString>, NoMemory>
    ensures { IfOk result (λ ns. map (λ n. n.0) ns.items ≡ names_seen (map rule_seen rules.now)) }
{
    let mut names = Vec::with_capacity(alloc, rules.len())?;
    for rule in rules {
        names.push(rule.data.name.clone()?)?;
    }
    Ok(names)
}
