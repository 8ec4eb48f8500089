//! Type inference: the type of each rule of an expanded grammar, in the least fixpoint of the typing rules.
ghost use Rattle.std.specs.Prelude.{◌≡◌, List, IfOk, map};
ghost use Rattle.lalrpop_norm_tree_names.specs.declared.names.TypeParameter.{TypeParameter};
ghost use Rattle.lalrpop_norm_tree.specs.Items.{grammar_view};
ghost use Rattle.lalrpop_norm_faults.specs.Faults.{Refuses};
ghost use Rattle.lalrpop_norm_names.specs.Numbers.{IsNumbering};
ghost use Rattle.lalrpop_norm_theory.specs.Rounds.{IsDistinct};
ghost use Rattle.lalrpop_norm_repr.specs.Tables.{type_table};
ghost use Rattle.lalrpop_norm_shared_types.specs.Table.{shared_table};
ghost use Rattle.lalrpop_norm_model.specs.Expanded.{rule_names};
ghost use Rattle.lalrpop_norm_model.specs.InferenceFaults.{inference_faults};
ghost use Rattle.lalrpop_norm_model.specs.PlainRules.{all_rules};
ghost use Rattle.lalrpop_norm_tyinfer_steps.specs.Filled.{HasAllRows, table_faults};
ghost use Rattle.lalrpop_norm_tyinfer_steps.specs.Inferred.{IsInferred};
ghost use Rattle.lalrpop_norm_tyinfer_steps.specs.Needs.{names_seen};
ghost use Rattle.lalrpop_norm_tyinfer_steps.specs.Numbered.{numbered_table, NumbersRules};
ghost use Rattle.lalrpop_norm_tyinfer_steps.specs.TableFaults.{AgreeAlone};
ghost use Rattle.lalrpop_norm_tyinfer_steps.specs.Visits.{plain_rule_view, rule_seen, with_clauses};

mod agreement;
mod clause_values;
mod meanings;
mod rounds;
mod tokens;

use agreement::check_agreement;
use lalrpop_norm_faults::NormResult;
use lalrpop_norm_names::Names;
use lalrpop_norm_repr::grammar::repr::Types;
use lalrpop_norm_shared_types::table::SharedTypes;
use lalrpop_norm_tree::grammar::parse_tree::{Grammar, NoMemory};
use lalrpop_norm_tyinfer_steps::grounded::{check_clauses, check_typed};
use lalrpop_norm_tyinfer_steps::numbered::Numbered;
use lalrpop_norm_tyinfer_steps::patterns::check_patterns;
use lalrpop_norm_tyinfer_steps::rules::{PlainRule, names_of_rules, plain_rules};
use rounds::run_rounds;
use std::alloc::Global;
use tokens::token_types;

/// The table of the types of a grammar's rules and terminals. A rule has the type that it declares, or else the one that its
/// alternatives without action code give. The names of the rules are distinct, as in what `expand_macros` answers.
///
/// Errors, of several the first in this order: F47 (`NoAlternatives`) at a rule without a declared type and without alternatives,
/// or F48 (`OnlyCoded`) at the first alternative of one whose alternatives give no type; F49 (`NotGrounded`) at a rule that has
/// no derivable type; F50 (`Disagreement`) at an alternative of a rule without a declared type that gives another type than the
/// rule has; F51 (`TupleOverSymbol`), F52 (`TupleOverType`) or F53 (`TupleLength`) at the symbol that a tuple of names is bound
/// to: it is no nonterminal, its type is no tuple, or one of another length; `Memory`.
pub fn infer_types(alloc: Global, grammar: &Grammar) -> NormResult<Types>
    requires { IsDistinct (rule_names (grammar_view grammar.now)) }
    ensures refuses { Refuses result (inference_faults (grammar_view grammar.now)) }
    ensures inferred { IfOk result (λ t. IsInferred (grammar_view grammar.now) (type_table t)) }
{
    let types = infer_shared_types(alloc, grammar)?;
    Ok(types.into_types(alloc)?)
}

/// As `infer_types`, with types of nonterminals that share their parts: the type that a rule takes from another one, whole or as
/// a part, is there once.
///
/// Errors: those of `infer_types`.
pub fn infer_shared_types(alloc: Global, grammar: &Grammar) -> NormResult<SharedTypes>
    requires { IsDistinct (rule_names (grammar_view grammar.now)) }
    ensures refuses { Refuses result (inference_faults (grammar_view grammar.now)) }
    ensures inferred { IfOk result (λ t. IsInferred (grammar_view grammar.now) (shared_table t)) }
{
    let (types, _names) = infer_shared_types_numbered(alloc, grammar)?;
    Ok(types)
}

/// As `infer_shared_types`, and with the table the numbers of the rules' names, by which it was made and the grammar can be
/// lowered (`lower_shared`): the number of each rule is its index among the rules, from 0.
///
/// Errors: those of `infer_types`.
pub fn infer_shared_types_numbered(
    alloc: Global,
    grammar: &Grammar,
) -> NormResult<(SharedTypes, Names)>
    requires { IsDistinct (rule_names (grammar_view grammar.now)) }
    ensures refuses { Refuses result (inference_faults (grammar_view grammar.now)) }
    ensures inferred { IfOk result (λ p. IsInferred (grammar_view grammar.now) (shared_table p.0)) }
    ensures names { IfOk result (λ p. IsNumbering (rule_names (grammar_view grammar.now)) p.1) }
{
    let rules = plain_rules(alloc, &grammar.items)?;
    infer_shared(alloc, grammar, &rules)
}

/// The table and the numbers of the names, from the rules with their clauses.
// The two are apart for drops: what a function owns ends at each `?` behind it, and each end is proved.
fn infer_shared(
    alloc: Global,
    grammar: &Grammar,
    rules: &[PlainRule],
) -> NormResult<(SharedTypes, Names)>
    requires seen { map rule_seen rules.now ≡ map with_clauses (all_rules (grammar_view grammar.now)) }
    requires distinct { IsDistinct (rule_names (grammar_view grammar.now)) }
    ensures refuses { Refuses result (inference_faults (grammar_view grammar.now)) }
    ensures inferred { IfOk result (λ p. IsInferred (grammar_view grammar.now) (shared_table p.0)) }
    ensures names { IfOk result (λ p. IsNumbering (rule_names (grammar_view grammar.now)) p.1) }
{
    let types = checked_table(alloc, grammar, rules)?;
    let listed = types.shared_by_name(alloc)?;
    Ok(listed)
}

/// The table where the rounds end, of rules that have none of the faults.
fn checked_table(alloc: Global, grammar: &Grammar, rules: &[PlainRule]) -> NormResult<Numbered>
    requires seen { map rule_seen rules.now ≡ map with_clauses (all_rules (grammar_view grammar.now)) }
    requires distinct { IsDistinct (rule_names (grammar_view grammar.now)) }
    ensures refuses { Refuses result (inference_faults (grammar_view grammar.now)) }
    ensures filled { IfOk result (λ t. HasAllRows (grammar_view grammar.now) (numbered_table t)) }
    ensures numbered { IfOk result (λ t. NumbersRules t (map rule_seen rules.now)) }
{
    check_clauses(alloc, rules)?;
    let types = filled_table(alloc, grammar, rules)?;
    check_table(alloc, &types, rules)?;
    Ok(types)
}

/// The table where the rounds end.
fn filled_table(alloc: Global, grammar: &Grammar, rules: &[PlainRule]) -> Result<Numbered, NoMemory>
    requires seen { map rule_seen rules.now ≡ map with_clauses (all_rules (grammar_view grammar.now)) }
    requires distinct { IsDistinct (rule_names (grammar_view grammar.now)) }
    ensures filled { IfOk result (λ t. HasAllRows (grammar_view grammar.now) (numbered_table t)) }
    ensures numbered { IfOk result (λ t. NumbersRules t (map rule_seen rules.now)) }
{
    let tokens = token_types(alloc, grammar)?;
    let names = names_of_rules(alloc, rules)?;
    let mut types = Numbered::new(alloc, names, tokens)?;
    run_rounds(alloc, &grammar.type_parameters, &mut types, rules)?;
    Ok(types)
}

/// Rejects what the table shows: rules without a type, then alternatives that disagree, then tuples of names that do not fit.
fn check_table(alloc: Global, types: &Numbered, rules: &[PlainRule]) -> NormResult<()>
    requires distinct { IsDistinct (names_seen (map rule_seen rules.now)) }
    requires numbered { NumbersRules types.now (map rule_seen rules.now) }
    ensures { (ps : List TypeParameter) → AgreeAlone ps (numbered_table types.now) (map rule_seen rules.now) →
        Refuses result (table_faults ps (numbered_table types.now) (map plain_rule_view rules.now)) }
{
    check_typed(alloc, types, rules)?;
    check_agreement(alloc, types, rules)?;
    check_patterns(alloc, types, rules)
}
