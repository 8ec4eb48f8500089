//! What lowering makes of the rules of a whole grammar: what it makes of rules alone, with their actions.
ghost use Rattle.std.specs.Prelude.{◌≡◌, ◌+◌, ◌++◌, length, IfOk, OnOk, map, vec_len};
ghost use Rattle.lalrpop_norm_faults.specs.Faults.{Refuses};
ghost use Rattle.lalrpop_norm_theory.specs.Rounds.{IsDistinct};
ghost use Rattle.lalrpop_norm_tree.specs.Items.{rule_view};
ghost use Rattle.lalrpop_norm_names.specs.Numbers.{IsNumbering};
ghost use Rattle.lalrpop_norm_shared_types.specs.Actions.{shared_action_view};
ghost use Rattle.lalrpop_norm_shared_types.specs.Table.{shared_table};
ghost use Rattle.lalrpop_norm_lower.specs.ActionContexts.{context_types, action_by};
ghost use Rattle.lalrpop_norm_lower.specs.Carried.{uses_recovery};
ghost use Rattle.lalrpop_norm_lower.specs.Lowering.{rule_type, rule_entry, rule_rows, with_entry, sorted_onto};
ghost use Rattle.lalrpop_norm_lower.specs.Made.{alternatives_faults, made_faults, made_rules_faults, made_actions};
ghost use Rattle.lalrpop_norm_lower.specs.RulesWithActions.{AreRulesWithActions};
ghost use Rattle.lalrpop_norm_lower.specs.State.{table_by_number, state_nonterminals, rules_in, IsTypeAt, AreTypesFrom};

use crate::action_context::ActionContext;
use crate::action_lists::start_actions;
use crate::lowered_rules::{Produced, start};
use crate::nonterminals::{next_item, sees_error};
use crate::numbered::NumberedTypes;
use crate::recovery::some_error;
use crate::state::RuleState;
use crate::{action_lists, nonterminals};
use lalrpop_norm_faults::NormResult;
use lalrpop_norm_names::Names;
use lalrpop_norm_shared_types::action::SharedActionFnDefn;
use lalrpop_norm_shared_types::shared::SharedType;
use lalrpop_norm_shared_types::table::SharedTypes;
use lalrpop_norm_tree::grammar::parse_tree::{
    Atom, GrammarItem, NonterminalData, NonterminalString,
};
use std::alloc::Global;
use std::collections::BTreeMap;

/// What is made of rules alone, their actions by number, and the start symbols of public ones with their types.
#[derive(Drop)]
pub(crate) struct RulesWithActions {
    pub(crate) produced: Produced,
    pub(crate) actions: Vec<SharedActionFnDefn>,
    pub(crate) start_types: Vec<(NonterminalString, SharedType)>,
}

/// What is made of the rules among the items, with their actions, by the table of their types and the numbers of their names.
pub(crate) fn rules_with_actions(
    alloc: Global,
    prefix: &str,
    types: &SharedTypes,
    items: Vec<GrammarItem>,
    names: Names,
) -> NormResult<RulesWithActions>
    requires distinct { IsDistinct (map (λ r. r.name.0) (rules_in items.items)) }
    requires numbering { IsNumbering (map (λ r. r.name.0) (rules_in items.items)) names }
    ensures refuses { Refuses result (made_faults prefix.now (shared_table types.now) (rules_in items.items)) }
    ensures made { IfOk result (AreRulesWithActions prefix.now (shared_table types.now) (rules_in items.items)) }
{
    let types = NumberedTypes::of(alloc, types, &items, names)?;
    made_by(alloc, prefix, &types, items)
}

/// What is made of the rules among the items, with their actions, by the types of the rules.
fn made_by(
    alloc: Global,
    prefix: &str,
    types: &NumberedTypes,
    items: Vec<GrammarItem>,
) -> NormResult<RulesWithActions>
    requires { AreTypesFrom types.now 0 (rules_in items.items) }
    ensures refuses { Refuses result (made_faults prefix.now (table_by_number types.now) (rules_in items.items)) }
    ensures made { IfOk result (AreRulesWithActions prefix.now (table_by_number types.now) (rules_in items.items)) }
{
    let context = ActionContext {
        alloc,
        prefix,
        types,
    };
    let mut state = RuleState {
        alloc,
        number: 0,
        nonterminals: BTreeMap::new(alloc),
    };
    let mut actions = start_actions(&context, &items)?;
    let starts = start(&mut state, prefix, types.table, &items)?;
    let recovers = add_rules(&context, &mut state, &mut actions, items)?;
    Ok(RulesWithActions {
        produced: Produced {
            start_nonterminals: starts.names,
            nonterminals: state.nonterminals,
            recovers,
        },
        actions,
        start_types: starts.types,
    })
}

/// Adds what is made of the rules among the items, and answers whether `!` occurs in one of them. Each item is dropped once it is
/// lowered, and its room in the list given back in time, so what is made of the later ones finds room there.
#[tactic(auto, using(crate::proofs::LoopLemmas::rule_skipped))]
fn add_rules(
    context: &ActionContext,
    state: &mut RuleState,
    actions: &mut Vec<SharedActionFnDefn>,
    items: Vec<GrammarItem>,
) -> NormResult<bool>
    requires types { AreTypesFrom context.now.types.now 0 (rules_in items.items) }
    requires numbers { vec_len actions.old ≡ state.old.number }
    ensures refuses { Refuses result (made_rules_faults state.old.number (rules_in items.items)) }
    ensures table { OnOk result (state_nonterminals state.new
        ≡ sorted_onto (state_nonterminals state.old) (rule_rows state.old.number (rules_in items.items))) }
    ensures adds { OnOk result (map shared_action_view actions.new.items ≡ map shared_action_view actions.old.items
        ++ made_actions context.now.prefix.now (context_types context.now) (rules_in items.items)) }
    ensures recovers { IfOk result (λ b. b ≡ uses_recovery (rules_in items.items)) }
{
    let mut names = Vec::new(context.alloc);
    let mut left = items;
    left.reverse();
    let mut recovers = false;
    let mut number = 0usize;
    while let Some(item) = next_item(&mut left)? {
        recovers = sees_error(recovers, &left);
        if let Ok(rule) = item.into_nonterminal() {
            recovers = recovers || some_error(&rule.alternatives);
            add_rule(context, number, rule, state, actions, &mut names)?;
            number += 1;
        }
    }
    Ok(recovers)
}

/// Adds what is made of the rule of that number, which is consumed: the actions of its alternatives, and its nonterminal.
fn add_rule(
    context: &ActionContext,
    number: usize,
    rule: NonterminalData,
    state: &mut RuleState,
    actions: &mut Vec<SharedActionFnDefn>,
    names: &mut Vec<Atom>,
) -> NormResult<()>
    requires ty { IsTypeAt context.now.types.now number rule.name }
    requires numbers { vec_len actions.old ≡ state.old.number }
    ensures refuses { Refuses result (alternatives_faults state.old.number (rule_view rule).alternatives) }
    ensures table { OnOk result (state_nonterminals state.new
        ≡ with_entry (state_nonterminals state.old) (rule.name, rule_entry state.old.number (rule_view rule))) }
    ensures count { OnOk result (state.new.number ≡ state.old.number + length (rule_view rule).alternatives) }
    ensures adds { OnOk result (map shared_action_view actions.new.items ≡ map shared_action_view actions.old.items
        ++ map (action_by context.now (rule_type (context_types context.now) (rule_view rule))) (rule_view rule).alternatives) }
    ensures numbers { OnOk result (vec_len actions.new ≡ state.new.number) }
{
    action_lists::add_rule(context, number, &rule, actions, names)?;
    nonterminals::add_rule(state, rule)
}
