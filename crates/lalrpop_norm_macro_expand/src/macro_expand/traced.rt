//! The expansion with the origins of what it answers.
//!
//! The rounds are those of every expansion. What they know at their end gives the symbol that each generated rule stands for, and
//! the alternatives of a macro that a call kept: no condition is evaluated again.
ghost use Rattle.std.specs.Prelude.{◌≡◌, ◌++◌, IfOk, map, flat_map};
ghost use Rattle.lalrpop_norm_tree.specs.Items.{grammar_view};
ghost use Rattle.lalrpop_norm_faults.specs.Faults.{Refuses};
ghost use Rattle.lalrpop_norm_conditions.specs.Conditions.{comparison};
ghost use Rattle.lalrpop_norm_model.specs.PlainRules.{IsEnded, plain_grammar};
ghost use Rattle.lalrpop_norm_model.specs.Scopes.{resolved_grammar};
ghost use Rattle.lalrpop_norm_nodes.specs.Tables.{wholes_in, IsNodeTable};
ghost use Rattle.lalrpop_norm_origins.specs.Origins.{origin_lists};
ghost use Rattle.lalrpop_norm_origins.specs.Shapes.{IsShaped};
ghost use Rattle.lalrpop_norm_origins.specs.MadeOrigins.{expanded_lists};
ghost use Rattle.lalrpop_norm_macro_expand.specs.Expansion.{expansion_faults, macro_faults};
ghost use Rattle.lalrpop_norm_macro_expand.specs.TracedRules.{list_view, first_list_of, made_list};

use super::made_origins::add_all_made;
use super::rule_lists::{RuleLists, by_name, rule_lists};
use super::{Expanded, expand};
use lalrpop_norm_faults::NormResult;
use lalrpop_norm_origins::Origin;
use lalrpop_norm_resolve::resolve::resolve;
use lalrpop_norm_tree::grammar::parse_tree::{Grammar, NoMemory};
use std::alloc::Global;

/// The lists of the rules without arguments, then those of the generated rules.
fn plain_lists(
    alloc: Global,
    lists: RuleLists,
    expanded: &Expanded,
) -> Result<Vec<Vec<Origin>>, NoMemory>
    requires { IsNodeTable expanded.now.table }
    ensures { IfOk result (λ oss. origin_lists oss.items
        ≡ origin_lists lists.plain.items
        ++ flat_map (made_list (first_list_of (map list_view lists.macros.items)) (wholes_in expanded.now.table)) expanded.now.made.items) }
{
    let RuleLists { plain, macros } = lists;
    let named = by_name(alloc, macros)?;
    let mut all = plain;
    add_all_made(alloc, expanded, &named, &mut all)?;
    Ok(all)
}

/// Expands as `expand_resolved` does, and answers the origins of the alternatives of the expanded grammar. `origins` has one list
/// for each rule of the grammar, in item order, and in it one origin for each alternative; the answer has the same shape for the
/// expanded grammar. A rule without arguments keeps its list. In the rule of a macro call, each alternative that the call keeps
/// of the macro keeps its origin.
///
/// Errors: as of `expand_resolved`.
pub fn expand_resolved_traced(
    alloc: Global,
    grammar: Grammar,
    limit: u16,
    origins: Vec<Vec<Origin>>,
) -> NormResult<(Grammar, Vec<Vec<Origin>>)>
    requires { IsShaped (grammar_view grammar).items (origin_lists origins.items) }
    // Ok if and only if no fault holds, else the first one is reported, unless an allocation fails.
    ensures refuses { Refuses result (expansion_faults comparison (grammar_view grammar) limit) }
    // No round after the first `limit` has a new symbol.
    ensures whole { IfOk result (λ made. IsEnded comparison (grammar_view grammar) limit) }
    ensures plain { IfOk result (λ made. grammar_view made.0 ≡ plain_grammar comparison (grammar_view grammar) limit) }
    ensures origins { IfOk result (λ made. origin_lists made.1.items
        ≡ expanded_lists comparison (grammar_view grammar) (origin_lists origins.items) limit) }
    ensures shaped { IfOk result (λ made. IsShaped (grammar_view made.0).items (origin_lists made.1.items)) }
{
    let lists = rule_lists(alloc, &grammar, origins)?;
    let expanded = expand(alloc, grammar, limit)?;
    let plain = plain_lists(alloc, lists, &expanded)?;
    Ok((expanded.grammar, plain))
}

/// Resolves the names of a grammar (`resolve`) and expands it, with the origins of the alternatives of the expanded grammar
/// (`expand_resolved_traced`).
///
/// Errors: as of `expand_macros`.
pub fn expand_macros_traced(
    alloc: Global,
    grammar: Grammar,
    limit: u16,
    origins: Vec<Vec<Origin>>,
) -> NormResult<(Grammar, Vec<Vec<Origin>>)>
    requires { IsShaped (grammar_view grammar).items (origin_lists origins.items) }
    // Ok if and only if no fault holds, else the first one is reported, unless an allocation fails.
    ensures refuses { Refuses result (macro_faults comparison (grammar_view grammar) limit) }
    // No round after the first `limit` has a new symbol.
    ensures whole { IfOk result (λ made. IsEnded comparison (resolved_grammar (grammar_view grammar)) limit) }
    ensures plain { IfOk result (λ made. grammar_view made.0 ≡ plain_grammar comparison (resolved_grammar (grammar_view grammar)) limit) }
    ensures origins { IfOk result (λ made. origin_lists made.1.items
        ≡ expanded_lists comparison (resolved_grammar (grammar_view grammar)) (origin_lists origins.items) limit) }
    ensures shaped { IfOk result (λ made. IsShaped (grammar_view made.0).items (origin_lists made.1.items)) }
{
    let resolved = resolve(alloc, grammar)?;
    expand_resolved_traced(alloc, resolved, limit, origins)
}
