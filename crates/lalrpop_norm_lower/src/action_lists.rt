//! The actions of a grammar: those of start symbols, and those of the alternatives of a rule.
ghost use Rattle.std.specs.Prelude.{◌≡◌, ◌<◌, ◌+◌, ◌++◌, [], ◌∷◌, length, IfOk, OnOk, map, vec_len};
ghost use Rattle.lalrpop_norm_faults.specs.Faults.{Refuses};
ghost use Rattle.lalrpop_norm_tree.specs.Items.{RuleData, alternative_view, rule_view};
ghost use Rattle.lalrpop_norm_model.specs.LoweringFaults.{start_faults, code_faults, action_number_faults};
ghost use Rattle.lalrpop_norm_shared_types.specs.Actions.{shared_action_view};
ghost use Rattle.lalrpop_norm_shared_types.specs.Shared.{shared_view};
ghost use Rattle.lalrpop_norm_lower.specs.ActionContexts.{context_types, action_by};
ghost use Rattle.lalrpop_norm_lower.specs.Lowering.{public_rules_in, rule_type, start_alternative};
ghost use Rattle.lalrpop_norm_lower.specs.Made.{types_by_name, alternatives_faults, made_starts_faults, made_starts};
ghost use Rattle.lalrpop_norm_lower.specs.State.{rules_in, IsTypeAt};

use crate::action_context::ActionContext;
use crate::actions::owned_or_unit;
use crate::bodies::made_action;
use crate::placeholders::check_code;
use crate::rules::public_rules;
use crate::starts::start_name;
use lalrpop_norm_faults::NormResult;
use lalrpop_norm_lower_steps::refusals::{check_start, next_action};
use lalrpop_norm_lower_steps::start_symbols::start_alternative;
use lalrpop_norm_shared_types::action::SharedActionFnDefn;
use lalrpop_norm_shared_types::shared::SharedType;
use lalrpop_norm_tree::grammar::parse_tree::{
    Alternative, Atom, GrammarItem, NoMemory, NonterminalData,
};
use std::alloc::Global;

/// The actions of the start symbols of the public rules among the items, with room behind them for those of all alternatives.
pub(crate) fn start_actions(
    context: &ActionContext,
    items: &[GrammarItem],
) -> NormResult<Vec<SharedActionFnDefn>>
    ensures refuses { Refuses result
        (made_starts_faults context.now.prefix.now (context_types context.now) 0 (public_rules_in (rules_in items.now))) }
    ensures actions { IfOk result (λ ds. map shared_action_view ds.items
        ≡ made_starts context.now.prefix.now (context_types context.now) (public_rules_in (rules_in items.now))) }
    ensures count { IfOk result (λ ds. vec_len ds ≡ length (public_rules_in (rules_in items.now))) }
{
    let mut actions = Vec::with_capacity(context.alloc, count_actions(items))?;
    let mut names = Vec::new(context.alloc);
    add_start_actions(context, items, &mut actions, &mut names)?;
    Ok(actions)
}

/// How many actions there will be: one for each alternative of a rule, and one for each start symbol.
fn count_actions(items: &[GrammarItem]) -> usize {
    let mut count = 0usize;
    for item in items {
        if let GrammarItem::Nonterminal(rule) = item {
            let starts = if rule.visibility.is_pub() { 1 } else { 0 };
            count = count
                .saturating_add(rule.alternatives.len())
                .saturating_add(starts);
        }
    }
    count
}

/// Adds the actions of the start symbols of the public rules among the items.
fn add_start_actions(
    context: &ActionContext,
    items: &[GrammarItem],
    actions: &mut Vec<SharedActionFnDefn>,
    names: &mut Vec<Atom>,
) -> NormResult<()>
    ensures refuses { Refuses result (made_starts_faults context.now.prefix.now (context_types context.now) (vec_len actions.old)
        (public_rules_in (rules_in items.now))) }
    ensures adds { OnOk result (map shared_action_view actions.new.items ≡ map shared_action_view actions.old.items
        ++ made_starts context.now.prefix.now (context_types context.now) (public_rules_in (rules_in items.now))) }
    ensures count { OnOk result (vec_len actions.new ≡ vec_len actions.old + length (public_rules_in (rules_in items.now))) }
{
    let public = public_rules(context.alloc, items)?;
    add_starts(context, &public, actions, names)
}

/// Adds the actions of the start symbols of these rules.
fn add_starts(
    context: &ActionContext,
    public: &[&NonterminalData],
    actions: &mut Vec<SharedActionFnDefn>,
    names: &mut Vec<Atom>,
) -> NormResult<()>
    ensures refuses { Refuses result (made_starts_faults context.now.prefix.now (context_types context.now) (vec_len actions.old)
        (map (λ r. rule_view r.now) public.now)) }
    ensures adds { OnOk result (map shared_action_view actions.new.items ≡ map shared_action_view actions.old.items
        ++ made_starts context.now.prefix.now (context_types context.now) (map (λ r. rule_view r.now) public.now)) }
    ensures count { OnOk result (vec_len actions.new ≡ vec_len actions.old + length public.now) }
{
    for rule in public {
        add_start(context, *rule, actions, names)?;
    }
    Ok(())
}

/// Adds the action of the start symbol of a public rule.
fn add_start(
    context: &ActionContext,
    rule: &NonterminalData,
    actions: &mut Vec<SharedActionFnDefn>,
    names: &mut Vec<Atom>,
) -> NormResult<()>
    ensures refuses { Refuses result (start_faults context.now.prefix.now (types_by_name (context_types context.now)) (rule_view rule.now)
        ++ action_number_faults (vec_len actions.old) rule.now.span) }
    ensures adds { OnOk result (map shared_action_view actions.new.items ≡ map shared_action_view actions.old.items
        ++ action_by context.now (rule_type (context_types context.now) (rule_view rule.now))
        (start_alternative (rule_view rule.now)) ∷ []) }
    ensures count { OnOk result (vec_len actions.new ≡ vec_len actions.old + 1) }
{
    check_free(context, rule)?;
    add_start_action(context, rule, actions, names)
}

/// Rejects a public rule the name of whose start symbol has a type already.
fn check_free(context: &ActionContext, rule: &NonterminalData) -> NormResult<()>
    ensures { Refuses result (start_faults context.now.prefix.now (types_by_name (context_types context.now)) (rule_view rule.now)) }
{
    let name = start_name(context.alloc, context.prefix, &rule.name)?;
    let taken = context.types.table.lookup_nonterminal_type(&name).is_some();
    check_start(context.alloc, rule, &name, taken)
}

/// Adds the action of the start symbol of a public rule, where that symbol has no type yet.
fn add_start_action(
    context: &ActionContext,
    rule: &NonterminalData,
    actions: &mut Vec<SharedActionFnDefn>,
    names: &mut Vec<Atom>,
) -> NormResult<()>
    ensures refuses { Refuses result (action_number_faults (vec_len actions.old) rule.now.span) }
    ensures adds { OnOk result (map shared_action_view actions.new.items ≡ map shared_action_view actions.old.items
        ++ action_by context.now (rule_type (context_types context.now) (rule_view rule.now))
        (start_alternative (rule_view rule.now)) ∷ []) }
    ensures count { OnOk result (vec_len actions.new ≡ vec_len actions.old + 1) }
{
    let ty = owned_or_unit(context.alloc, context.types.nonterminal(&rule.name))?;
    let alternative = start_alternative(context.alloc, rule)?;
    add_action(context, &ty, &alternative, actions, names)
}

/// Adds the actions of the rule of that number.
pub(crate) fn add_rule(
    context: &ActionContext,
    number: usize,
    rule: &NonterminalData,
    actions: &mut Vec<SharedActionFnDefn>,
    names: &mut Vec<Atom>,
) -> NormResult<()>
    requires { IsTypeAt context.now.types.now number rule.now.name }
    ensures refuses { Refuses result (alternatives_faults (vec_len actions.old) (rule_view rule.now).alternatives) }
    ensures adds { OnOk result (map shared_action_view actions.new.items ≡ map shared_action_view actions.old.items
        ++ map (action_by context.now (rule_type (context_types context.now) (rule_view rule.now))) (rule_view rule.now).alternatives) }
    ensures count { OnOk result (vec_len actions.new ≡ vec_len actions.old + length (rule_view rule.now).alternatives) }
{
    let ty = rule_type(context, number)?;
    add_alternatives(context, &ty, &rule.alternatives, actions, names)
}

/// The type of the rule of that number. Each rule of an expanded grammar has one; where there is none, it is the unit type.
fn rule_type(context: &ActionContext, number: usize) -> Result<SharedType, NoMemory>
    requires { number < vec_len context.now.types.now.by_number }
    ensures { IfOk result (λ t. (r : RuleData) → IsTypeAt context.now.types.now number r.name
        → shared_view t ≡ rule_type (context_types context.now) r) }
{
    owned_or_unit(context.alloc, context.types.at(number))
}

/// Adds the actions of alternatives of a rule of that type.
fn add_alternatives(
    context: &ActionContext,
    ty: &SharedType,
    alternatives: &[Alternative],
    actions: &mut Vec<SharedActionFnDefn>,
    names: &mut Vec<Atom>,
) -> NormResult<()>
    ensures refuses { Refuses result (alternatives_faults (vec_len actions.old) (map alternative_view alternatives.now)) }
    ensures adds { OnOk result (map shared_action_view actions.new.items ≡ map shared_action_view actions.old.items
        ++ map (action_by context.now (shared_view ty.now)) (map alternative_view alternatives.now)) }
    ensures count { OnOk result (vec_len actions.new ≡ vec_len actions.old + length (map alternative_view alternatives.now)) }
{
    for alternative in alternatives {
        add_action(context, ty, alternative, actions, names)?;
    }
    Ok(())
}

/// Adds the action of an alternative of a rule of that type.
fn add_action(
    context: &ActionContext,
    ty: &SharedType,
    alternative: &Alternative,
    actions: &mut Vec<SharedActionFnDefn>,
    names: &mut Vec<Atom>,
) -> NormResult<()>
    ensures refuses { Refuses result (code_faults (alternative_view alternative.now)
        ++ action_number_faults (vec_len actions.old) alternative.now.span) }
    ensures adds { OnOk result (map shared_action_view actions.new.items ≡ map shared_action_view actions.old.items
        ++ action_by context.now (shared_view ty.now) (alternative_view alternative.now) ∷ []) }
    ensures count { OnOk result (vec_len actions.new ≡ vec_len actions.old + 1) }
{
    check_action(context.alloc, alternative, actions)?;
    Ok(add_made_action(context, ty, alternative, actions, names)?)
}

/// Rejects an alternative whose action code has a fault, or whose action is one too many after these.
fn check_action(
    alloc: Global,
    alternative: &Alternative,
    actions: &[SharedActionFnDefn],
) -> NormResult<()>
    ensures refuses { Refuses result (code_faults (alternative_view alternative.now)
        ++ action_number_faults (length actions.now) alternative.now.span) }
    ensures counted { OnOk result (code_faults (alternative_view alternative.now) ≡ []) }
{
    check_code(alloc, alternative)?;
    next_action(alloc, actions.len(), alternative.span)?;
    Ok(())
}

/// Adds the action of an alternative whose action code has no fault.
fn add_made_action(
    context: &ActionContext,
    ty: &SharedType,
    alternative: &Alternative,
    actions: &mut Vec<SharedActionFnDefn>,
    names: &mut Vec<Atom>,
) -> Result<(), NoMemory>
    requires counted { code_faults (alternative_view alternative.now) ≡ [] }
    ensures adds { OnOk result (map shared_action_view actions.new.items ≡ map shared_action_view actions.old.items
        ++ action_by context.now (shared_view ty.now) (alternative_view alternative.now) ∷ []) }
    ensures count { OnOk result (vec_len actions.new ≡ vec_len actions.old + 1) }
{
    let action = made_action(context, ty, alternative, names)?;
    actions.push(action)?;
    Ok(())
}
