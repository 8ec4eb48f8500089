//! The entries of the pass: an expanded grammar is lowered to one `LoweredGrammar`, or to what it has of rules.
ghost use Rattle.std.specs.Prelude.{◌≡◌, IfOk, map, true};
ghost use Rattle.lalrpop_norm_faults.specs.Faults.{Refuses};
ghost use Rattle.lalrpop_norm_theory.specs.Rounds.{IsDistinct};
ghost use Rattle.lalrpop_norm_tree.specs.Items as written;
ghost use Rattle.lalrpop_norm_tree.specs.Items.{GrammarData};
ghost use Rattle.lalrpop_norm_names.specs.Numbers.{IsNumbering};
ghost use Rattle.lalrpop_norm_common.specs.Sessions.{features_view};
ghost use Rattle.lalrpop_norm_model.specs.Features.{Features};
ghost use Rattle.lalrpop_norm_model.specs.Expanded.{IsExpanded, IsTyped, all_known, rule_names};
ghost use Rattle.lalrpop_norm_model.specs.LoweringFaults.{lowering_faults};
ghost use Rattle.lalrpop_norm_model.specs.PlainRules.{all_rules};
ghost use Rattle.lalrpop_norm_repr.specs.Lowered as lowered;
ghost use Rattle.lalrpop_norm_repr.specs.Closed.{IsClosed};
ghost use Rattle.lalrpop_norm_repr.specs.Tables.{TypeTable, type_table};
ghost use Rattle.lalrpop_norm_shared_types.specs.Actions.{shared_action_view};
ghost use Rattle.lalrpop_norm_shared_types.specs.Grammars.{shared_grammar_view};
ghost use Rattle.lalrpop_norm_shared_types.specs.Table.{shared_table};
ghost use Rattle.lalrpop_norm_lower.specs.Active.{active_grammar};
ghost use Rattle.lalrpop_norm_lower.specs.CarriedOver.{IsCarriedOver};
ghost use Rattle.lalrpop_norm_lower.specs.Lowering.{rules_among, public_rules_in};
ghost use Rattle.lalrpop_norm_lower.specs.Made.{types_by_name, made_faults, HasActions, IsMade};
ghost use Rattle.lalrpop_norm_lower.specs.LoweredRules.{AreMadeRules, IsProduced};
ghost use Rattle.lalrpop_norm_lower.specs.RulesOf.{AreRulesWhere};
ghost use Rattle.lalrpop_norm_lower.specs.RulesWithActions.{AreRulesWithActions};
ghost use Rattle.lalrpop_norm_lower.specs.Shape.{IsLoweringOf};
ghost use Rattle.lalrpop_norm_lower.specs.StartTypes.{start_types, AddsTypes};

use crate::carried::{Carried, carried_of};
use crate::lowered_rules::{LoweredRules, Produced, produce};
use crate::numbered::numbers_of_rules;
use crate::rules_with_actions::{RulesWithActions, rules_with_actions};
use crate::start_types::add_start_types;
use lalrpop_norm_common::Session;
use lalrpop_norm_faults::NormResult;
use lalrpop_norm_lower_steps::terminals::terminal_set;
use lalrpop_norm_names::Names;
use lalrpop_norm_repr::grammar::repr::{Grammar, Types};
use lalrpop_norm_shared_types::action::SharedActionFnDefn;
use lalrpop_norm_shared_types::grammar::SharedGrammar;
use lalrpop_norm_shared_types::table::SharedTypes;
use lalrpop_norm_tree::grammar::parse_tree as pt;
use lalrpop_norm_tree::grammar::parse_tree::NoMemory;
use std::alloc::Global;
use std::mem;

/// Lowers an expanded grammar over the types of its rules: `types` has one for each rule. The terminals of the active
/// conversions, or of the tokenizer's entries, are distinct, and each terminal that is used is one of them. The grammar and the
/// types are consumed, also where the answer is an error. `is_expanded` and `is_typed` test what is asked of them.
///
/// Action k, from 0, is that of the k-th of the start symbols of public rules, then of the alternatives in item order. Terminals
/// are numbered from 0 in the order of the active conversions, or of the tokenizer's entries without its skips, the error
/// terminal last where `!` occurs. Each start symbol gets its rule's type.
///
/// Errors: F55 (`StartTaken`) at a public rule, if the name of its start symbol has a type already; F54 (`Placeholders`) from the
/// first source to the last, or at the alternative if it has none, where an alternative without named and tuple symbols has
/// action code with several `<>`, not as many as there are sources; F56 (`TooManyActions`) at the rule or alternative whose
/// action would have a number past the greatest; `Memory`.
pub fn lower<L>(
    alloc: Global,
    session: &Session<L>,
    grammar: pt::Grammar,
    types: Types,
) -> NormResult<Grammar>
    requires expanded { IsExpanded (written.grammar_view grammar) }
    requires typed { IsTyped (features_view session.now.features) (written.grammar_view grammar) (types_by_name (type_table types)) }
    ensures refuses { Refuses result (lowering_faults (written.grammar_view grammar) (types_by_name (type_table types))) }
    ensures lowered { IfOk result (λ l. IsLoweringOf (active_grammar (features_view session.now.features) (written.grammar_view grammar))
        (all_rules (written.grammar_view grammar)) (type_table types) (lowered.lowered_grammar_view l)) }
    ensures closed { IfOk result (λ l. IsClosed (lowered.lowered_grammar_view l)) }
{
    let names = numbers_of_rules(alloc, &grammar.items)?;
    let shared = SharedTypes::of(alloc, types)?;
    let lowered = lower_shared(alloc, session, grammar, shared, names)?;
    Ok(lowered.into_repr(alloc)?)
}

/// As [`lower`], over types that share their parts, where the numbers of the rules' names are there already: the number of each rule
/// is its index among the rules, from 0.
///
/// Errors: those of [`lower`].
pub fn lower_shared<L>(
    alloc: Global,
    session: &Session<L>,
    grammar: pt::Grammar,
    types: SharedTypes,
    names: Names,
) -> NormResult<SharedGrammar>
    requires expanded { IsExpanded (written.grammar_view grammar) }
    requires typed { IsTyped (features_view session.now.features) (written.grammar_view grammar) (types_by_name (shared_table types)) }
    requires names { IsNumbering (rule_names (written.grammar_view grammar)) names }
    ensures refuses { Refuses result (lowering_faults (written.grammar_view grammar) (types_by_name (shared_table types))) }
    ensures lowered { IfOk result (λ l. IsLoweringOf (active_grammar (features_view session.now.features) (written.grammar_view grammar))
        (all_rules (written.grammar_view grammar)) (shared_table types) (shared_grammar_view l)) }
    ensures closed { IfOk result (λ l. IsClosed (shared_grammar_view l)) }
{
    lower_over(alloc, session, grammar, types, names)
}

/// The lowered grammar, with its contract in terms of what the rules produce.
// `lower_over`, `lower_rest`, `lowered_with` and `lowered_of` are apart for drops: what a function owns ends at each `?` behind it,
// and each end is proved.
fn lower_over<L>(
    alloc: Global,
    session: &Session<L>,
    grammar: pt::Grammar,
    types: SharedTypes,
    names: Names,
) -> NormResult<SharedGrammar>
    requires known { all_known (written.grammar_view grammar).attributes ≡ true }
    requires distinct { IsDistinct (map (λ r. r.name.0) (rules_among (written.grammar_view grammar).items)) }
    requires numbering { IsNumbering (map (λ r. r.name.0) (rules_among (written.grammar_view grammar).items)) names }
    ensures refuses { Refuses result
        (made_faults (written.grammar_view grammar).prefix (shared_table types) (rules_among (written.grammar_view grammar).items)) }
    ensures lowered { IfOk result (λ l. IsMade (features_view session.now.features) (written.grammar_view grammar) (shared_table types)
        (shared_grammar_view l)) }
{
    let carried = carried_of(alloc, session, &grammar)?;
    lower_rest(alloc, grammar, types, carried, names)
}

/// The lowered grammar, where all else than what is made of the rules is there already.
fn lower_rest(
    alloc: Global,
    mut grammar: pt::Grammar,
    types: SharedTypes,
    carried: Carried,
    names: Names,
) -> NormResult<SharedGrammar>
    requires distinct { IsDistinct (map (λ r. r.name.0) (rules_among (written.grammar_view grammar).items)) }
    requires numbering { IsNumbering (map (λ r. r.name.0) (rules_among (written.grammar_view grammar).items)) names }
    ensures refuses { Refuses result
        (made_faults (written.grammar_view grammar).prefix (shared_table types) (rules_among (written.grammar_view grammar).items)) }
    ensures lowered { IfOk result (λ l. (fs : Features) → IsCarriedOver fs (written.grammar_view grammar) carried
        → IsMade fs (written.grammar_view grammar) (shared_table types) (shared_grammar_view l)) }
{
    let items = mem::replace(&mut grammar.items, Vec::new(alloc));
    let made = rules_with_actions(alloc, grammar.prefix.as_str(), &types, items, names)?;
    Ok(lowered_with(alloc, types, carried, made)?)
}

/// The lowered grammar of its parts, where `types` has no start symbols yet.
fn lowered_with(
    alloc: Global,
    mut types: SharedTypes,
    carried: Carried,
    made: RulesWithActions,
) -> Result<SharedGrammar, NoMemory>
    ensures { IfOk result (λ l. (fs : Features) (g : GrammarData) → IsCarriedOver fs g carried
        → AreRulesWithActions g.prefix (shared_table types) (rules_among g.items) made
        → IsMade fs g (shared_table types) (shared_grammar_view l)) }
{
    add_start_types(&mut types, made.start_types)?;
    lowered_of(alloc, types, carried, made.actions, made.produced)
}

/// The lowered grammar of its parts, where `types` has the start symbols.
fn lowered_of(
    alloc: Global,
    types: SharedTypes,
    carried: Carried,
    actions: Vec<SharedActionFnDefn>,
    produced: Produced,
) -> Result<SharedGrammar, NoMemory>
    ensures { IfOk result (λ l. (fs : Features) (g : GrammarData) (before : TypeTable) → IsCarriedOver fs g carried
        → HasActions g before (map shared_action_view actions.items)
        → IsProduced g.prefix (rules_among g.items) produced
        → AddsTypes before (shared_table types) (start_types g.prefix before (public_rules_in (rules_among g.items)))
        → IsMade fs g before (shared_grammar_view l)) }
{
    let tokens = carried.tokens;
    let terminals = terminal_set(alloc, tokens.all, produced.recovers)?;
    // A law, which does nothing: it gives the order of the rows.
    types.rows_ascend();
    let (types, nonterminal_types) = types.into_parts();
    let head = carried.head;
    let signature = carried.signature;
    let rest = Grammar {
        prefix: head.prefix,
        algorithm: carried.algorithm,
        uses_error_recovery: produced.recovers,
        start_nonterminals: produced.start_nonterminals,
        uses: head.uses,
        type_parameters: signature.type_parameters,
        parameters: signature.parameters,
        where_clauses: signature.where_clauses,
        intern_token: head.intern_token,
        action_fn_defns: Vec::new(alloc),
        terminals,
        nonterminals: produced.nonterminals,
        conversions: tokens.patterns,
        types,
        module_attributes: head.module_attributes,
    };
    Ok(SharedGrammar {
        rest,
        action_fn_defns: actions,
        nonterminal_types,
    })
}

/// Lowers as [`lower`] does, and answers the nonterminals with their productions, the start symbols and the types alone: no
/// action is made. Types share their parts.
///
/// Errors: those of [`lower`].
pub fn lower_rules(
    alloc: Global,
    grammar: pt::Grammar,
    types: SharedTypes,
) -> NormResult<LoweredRules>
    requires { IsExpanded (written.grammar_view grammar) }
    ensures refuses { Refuses result (lowering_faults (written.grammar_view grammar) (types_by_name (shared_table types))) }
    ensures lowered { (fs : Features) → IsTyped fs (written.grammar_view grammar) (types_by_name (shared_table types))
        → IfOk result (AreRulesWhere (λ l. IsLoweringOf (active_grammar fs (written.grammar_view grammar))
        (all_rules (written.grammar_view grammar)) (shared_table types) l × IsClosed l)) }
{
    rules_over(alloc, grammar, types)
}

/// Those parts of the lowered grammar, with their contract in terms of what the rules produce.
fn rules_over(
    alloc: Global,
    mut grammar: pt::Grammar,
    mut types: SharedTypes,
) -> NormResult<LoweredRules>
    ensures refuses { Refuses result
        (made_faults (written.grammar_view grammar).prefix (shared_table types) (rules_among (written.grammar_view grammar).items)) }
    ensures made { IfOk result (AreMadeRules (written.grammar_view grammar).prefix (shared_table types)
        (rules_among (written.grammar_view grammar).items)) }
{
    let items = mem::replace(&mut grammar.items, Vec::new(alloc));
    let produced = produce(alloc, grammar.prefix.as_str(), &mut types, items)?;
    // A law, which does nothing: it gives the order of the rows.
    types.rows_ascend();
    Ok(LoweredRules {
        start_nonterminals: produced.start_nonterminals,
        nonterminals: produced.nonterminals,
        types,
    })
}
