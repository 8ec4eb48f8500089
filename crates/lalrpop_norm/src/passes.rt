//! The passes, one after another.
ghost use Rattle.std.specs.Prelude.{◌≡◌, IfOk};
ghost use Rattle.lalrpop_norm_faults.specs.Faults.{Refuses, RefusesAmong};
ghost use Rattle.lalrpop_norm_tree.specs.Items.{grammar_view};
ghost use Rattle.lalrpop_norm_common.specs.Sessions.{features_view};
ghost use Rattle.lalrpop_norm_repr.specs.Lowered.{lowered_grammar_view};
ghost use Rattle.lalrpop_norm_repr.specs.Closed.{IsClosed};
ghost use Rattle.lalrpop_norm_model.specs.Expanded.{IsExpanded};
ghost use Rattle.lalrpop_norm_model.specs.Features.{Features};
ghost use Rattle.lalrpop_norm_model.specs.LexerFaults.{StandsAtLexer};
ghost use Rattle.lalrpop_norm_shared_types.specs.Grammars.{shared_grammar_view};
ghost use Rattle.lalrpop_norm_origins.specs.Origins.{origin_lists, origins_view};
ghost use Rattle.lalrpop_norm_lower.specs.RulesOf.{AreRulesWhere};
ghost use Rattle.lalrpop_norm_explain.specs.TracedGrammars.{grammar_in, grammar_of, is_root, origins_in};
ghost use Rattle.lalrpop_norm.specs.Normalize.{plain_findings, late_faults};
ghost use Rattle.lalrpop_norm.specs.Passed.{IsPlain, IsCheckedLowering, IsTypedLowering, IsTypedByInference};
ghost use Rattle.lalrpop_norm.specs.UnderSession.{AreRootsUnder, CallsFitUnder, FitsAnywhereUnder, IsFaithfulUnder, PassesExpansionUnder};
ghost use Rattle.lalrpop_norm.specs.UnderSession.{StandsUnder, early_faults_under, findings_under, origins_under, plain_lists_under};
ghost use Rattle.lalrpop_norm.specs.UnderSession.{plain_under, root_names_under};

use crate::traced::{Plain, SharedTraced, names_of_written_rules, origins_in_order};
use lalrpop_norm_common::Session;
use lalrpop_norm_explain::{Traced, with_origins};
use lalrpop_norm_faults::NormResult;
use lalrpop_norm_lexer::lexer::Lexer;
use lalrpop_norm_lower::{LoweredRules, lower_rules, lower_shared};
use lalrpop_norm_macro_expand::expand_resolved_traced;
use lalrpop_norm_macro_expand::macro_expand::expand_resolved;
use lalrpop_norm_precedence::precedence::{expand_precedence, expand_precedence_traced};
use lalrpop_norm_prevalidate::cond_comp::{remove_disabled_decls, remove_disabled_traced};
use lalrpop_norm_prevalidate::prevalidate::validate;
use lalrpop_norm_repr::grammar::repr;
use lalrpop_norm_shared_types::grammar::SharedGrammar;
use lalrpop_norm_token_check::token_check;
use lalrpop_norm_tree::grammar::parse_tree;
use lalrpop_norm_tree::grammar::parse_tree::NonterminalString;
use lalrpop_norm_tyinfer::tyinfer::{infer_shared_types, infer_shared_types_numbered};
use std::alloc::Global;
use std::collections::BTreeSet;

/// Normalizes a written grammar: the lowered grammar with its numbered productions, action functions, terminals and
/// types. The grammar is consumed, also where it is rejected. The session says which features are on, how many rounds of
/// expansion may make rules, and which lexer makes the tokenizer of a grammar without an extern enum. A type is copied at each use,
/// so N uses of a type of N parts take memory in the square of N; [`normalize_shared`] copies none.
///
/// Errors: the first fault in the order of the passes, at its span (docs/use/FAULTS.md lists them), where an error of the lexer
/// (F42 to F44) is reported only if the lexer finds it; `Memory`.
pub fn normalize<L: Lexer>(
    alloc: Global,
    session: &Session<L>,
    grammar: parse_tree::Grammar,
) -> NormResult<repr::Grammar>
    // Ok only if no fault but one of the lexer holds, and an error names the first one, or a true one of the lexer with no
    // other before it, unless an allocation fails.
    ensures refuses { RefusesAmong (StandsUnder session.now grammar (L.relations session.now.lexer)) result
        (findings_under session.now grammar) }
    ensures closed { IfOk result (λ l. IsClosed (lowered_grammar_view l)) }
    ensures faithful { IfOk result (λ l. IsFaithfulUnder session.now grammar (L.relations session.now.lexer) (lowered_grammar_view l)) }
{
    let lowered = normalize_shared(alloc, session, grammar)?;
    Ok(lowered.into_repr(alloc)?)
}

/// Normalizes as [`normalize`] does, and answers the lowered grammar with types that share their parts: none is copied.
///
/// Errors: those of `normalize`.
pub fn normalize_shared<L: Lexer>(
    alloc: Global,
    session: &Session<L>,
    grammar: parse_tree::Grammar,
) -> NormResult<SharedGrammar>
    ensures refuses { RefusesAmong (StandsUnder session.now grammar (L.relations session.now.lexer)) result
        (findings_under session.now grammar) }
    ensures closed { IfOk result (λ l. IsClosed (shared_grammar_view l)) }
    ensures faithful { IfOk result (λ l. IsFaithfulUnder session.now grammar (L.relations session.now.lexer) (shared_grammar_view l)) }
{
    let plain = expand(alloc, session, grammar)?;
    check_and_lower(alloc, session, plain)
}

/// Normalizes as [`normalize`] does, and answers the nonterminals with their numbered productions, the start symbols and the
/// types alone: no action function is made.
///
/// Errors: those of `normalize`.
pub fn normalize_rules<L: Lexer>(
    alloc: Global,
    session: &Session<L>,
    grammar: parse_tree::Grammar,
) -> NormResult<LoweredRules>
    ensures refuses { RefusesAmong (StandsUnder session.now grammar (L.relations session.now.lexer)) result
        (findings_under session.now grammar) }
    // They are those of a lowered grammar that `normalize` may answer.
    ensures rules { IfOk result (AreRulesWhere
        (λ l. IsClosed l × IsFaithfulUnder session.now grammar (L.relations session.now.lexer) l)) }
{
    let plain = expand(alloc, session, grammar)?;
    check_and_lower_rules(alloc, session, plain)
}

/// Normalizes as [`normalize`] does, and says where each production comes from: by that [`explain`](lalrpop_norm_explain::explain),
/// [`explain_at`](lalrpop_norm_explain::explain_at) and [`lower_tree`](lalrpop_norm_explain::lower_tree) translate trees.
///
/// Errors: those of `normalize`.
pub fn normalize_traced<L: Lexer>(
    alloc: Global,
    session: &Session<L>,
    grammar: parse_tree::Grammar,
) -> NormResult<Traced>
    ensures refuses { RefusesAmong (StandsUnder session.now grammar (L.relations session.now.lexer)) result
        (findings_under session.now grammar) }
    ensures closed { IfOk result (λ t. IsClosed (grammar_in t)) }
    ensures faithful { IfOk result (λ t. IsFaithfulUnder session.now grammar (L.relations session.now.lexer) (grammar_in t)) }
    // Each action has the origin by which the trees are faithful.
    ensures origins { IfOk result (λ t. origins_in t ≡ origins_under session.now grammar) }
    // Trees may begin at the enabled written rules that are no macros.
    ensures roots { IfOk result (λ t. AreRootsUnder session.now grammar (is_root t)) }
    // From there both translations reject what is no tree, answer the corresponding tree, and undo each other.
    ensures calls { IfOk result (λ t. CallsFitUnder session.now grammar (grammar_of t) (is_root t)) }
    // `explain_at` reads a derivation tree of any nonterminal as the corresponding tree of the symbol that is meant there.
    ensures anywhere { IfOk result (λ t. FitsAnywhereUnder session.now grammar (grammar_of t)) }
{
    let (traced, rules) = lower_traced(alloc, session, grammar)?;
    let SharedTraced {
        grammar: shared,
        origins,
    } = traced;
    let lowered = shared.into_repr(alloc)?;
    Ok(with_origins(lowered, origins, rules))
}

/// Normalizes as [`normalize_shared`] does, and answers the origins of the actions too, by their numbers. The names at which trees
/// may begin are left out: for the way back there is [`normalize_traced`].
///
/// Errors: those of `normalize`.
pub fn normalize_shared_traced<L: Lexer>(
    alloc: Global,
    session: &Session<L>,
    grammar: parse_tree::Grammar,
) -> NormResult<SharedTraced>
    ensures refuses { RefusesAmong (StandsUnder session.now grammar (L.relations session.now.lexer)) result
        (findings_under session.now grammar) }
    ensures closed { IfOk result (λ t. IsClosed (shared_grammar_view t.grammar)) }
    ensures faithful { IfOk result (λ t. IsFaithfulUnder session.now grammar (L.relations session.now.lexer)
        (shared_grammar_view t.grammar)) }
    // Each action has the origin by which the trees are faithful.
    ensures origins { IfOk result (λ t. origins_view t.origins.items ≡ origins_under session.now grammar) }
{
    let (traced, _rules) = lower_traced(alloc, session, grammar)?;
    Ok(traced)
}

/// The lowered grammar with the origins of its actions, and the names at which trees may begin.
fn lower_traced<L: Lexer>(
    alloc: Global,
    session: &Session<L>,
    grammar: parse_tree::Grammar,
) -> NormResult<(SharedTraced, BTreeSet<NonterminalString>)>
    ensures refuses { RefusesAmong (StandsUnder session.now grammar (L.relations session.now.lexer)) result
        (findings_under session.now grammar) }
    ensures closed { IfOk result (λ p. IsClosed (shared_grammar_view p.0.grammar)) }
    ensures faithful { IfOk result (λ p. IsFaithfulUnder session.now grammar (L.relations session.now.lexer)
        (shared_grammar_view p.0.grammar)) }
    ensures origins { IfOk result (λ p. origins_view p.0.origins.items ≡ origins_under session.now grammar) }
    ensures rules { IfOk result (λ p. p.1.keys ≡ root_names_under session.now grammar) }
{
    let plain = expand_traced(alloc, session, grammar)?;
    let Plain {
        grammar: expanded,
        origins: kept,
        rules,
    } = plain;
    let origins = origins_in_order(alloc, &expanded.items, kept)?;
    let lowered = check_and_lower(alloc, session, expanded)?;
    let traced = SharedTraced {
        grammar: lowered,
        origins,
    };
    Ok((traced, rules))
}

/// The expanded grammar.
fn expand<L>(
    alloc: Global,
    session: &Session<L>,
    grammar: parse_tree::Grammar,
) -> NormResult<parse_tree::Grammar>
    ensures refuses { Refuses result (early_faults_under session.now grammar) }
    ensures passes { IfOk result (λ p. PassesExpansionUnder session.now grammar) }
    ensures plain { IfOk result (λ p. grammar_view p ≡ plain_under session.now grammar) }
{
    validate(alloc, &grammar)?;
    let enabled = remove_disabled_decls(session, grammar)?;
    // From here on no disabled part (the clause of `remove_disabled_decls`; law `lalrpop_norm_model::enabled_are_active`).
    let leveled = expand_precedence(alloc, enabled)?;
    // From here on no ambiguous identifier (`resolve.resolves`) and no levels (`expand_precedence.expands`), and no name has lost
    // its meaning to a level's (law `levels_settle_macros`).
    expand_resolved(alloc, leveled, session.macro_recursion_limit)
    // From here on no macro, condition, group, repeat or location symbol (law `plain_grammars_are_expanded`).
}

/// The expanded grammar, and where its alternatives come from.
fn expand_traced<L>(
    alloc: Global,
    session: &Session<L>,
    tree: parse_tree::Grammar,
) -> NormResult<Plain>
    ensures refuses { Refuses result (early_faults_under session.now tree) }
    ensures passes { IfOk result (λ p. PassesExpansionUnder session.now tree) }
    ensures plain { IfOk result (λ p. grammar_view p.grammar ≡ plain_under session.now tree) }
    ensures origins { IfOk result (λ p. origin_lists p.origins.items ≡ plain_lists_under session.now tree) }
    ensures rules { IfOk result (λ p. p.rules.keys ≡ root_names_under session.now tree) }
{
    validate(alloc, &tree)?;
    let (enabled, kept) = remove_disabled_traced(alloc, session, tree)?;
    let rules = names_of_written_rules(alloc, &enabled.items)?;
    let (leveled, levels) = expand_precedence_traced(alloc, enabled, kept)?;
    let limit = session.macro_recursion_limit;
    let (grammar, origins) = expand_resolved_traced(alloc, leveled, limit, levels)?;
    Ok(Plain {
        grammar,
        origins,
        rules,
    })
}

/// Gives rules of the expanded grammar their tokens, infers their types, and lowers them.
fn check_and_lower<L: Lexer>(
    alloc: Global,
    session: &Session<L>,
    plain: parse_tree::Grammar,
) -> NormResult<SharedGrammar>
    requires plain { IsPlain (features_view session.now.features) (grammar_view plain) }
    ensures refuses { RefusesAmong (StandsAtLexer (L.relations session.now.lexer) (grammar_view plain)) result
        (plain_findings (grammar_view plain)) }
    ensures lowered { IfOk result (λ l. IsCheckedLowering (L.relations session.now.lexer) (features_view session.now.features)
        (grammar_view plain) (shared_grammar_view l)) }
{
    let checked = token_check::validate(alloc, &session.lexer, plain)?;
    // From here on each terminal that is used has an entry or a conversion (law `plain_grammars_are_typed`).
    type_and_lower(alloc, session, checked)
}

/// Infers the types of rules of the expanded grammar, and lowers them.
fn type_and_lower<L>(
    alloc: Global,
    session: &Session<L>,
    plain: parse_tree::Grammar,
) -> NormResult<SharedGrammar>
    requires expanded { IsExpanded (grammar_view plain) }
    requires typed { IsTypedByInference (features_view session.now.features) (grammar_view plain) }
    ensures refuses { Refuses result (late_faults (grammar_view plain)) }
    ensures lowered { IfOk result (λ l. IsTypedLowering (features_view session.now.features)
        (grammar_view plain) (shared_grammar_view l)) }
{
    let (types, names) = infer_shared_types_numbered(alloc, &plain)?;
    // From here on each nonterminal has one type (`infer_shared_types_numbered.inferred`; law `inferred_types_are_total`).
    lower_shared(alloc, session, plain, types, names)
}

/// As `check_and_lower`, for the nonterminals, the start symbols and the types alone.
fn check_and_lower_rules<L: Lexer>(
    alloc: Global,
    session: &Session<L>,
    plain: parse_tree::Grammar,
) -> NormResult<LoweredRules>
    requires plain { IsPlain (features_view session.now.features) (grammar_view plain) }
    ensures refuses { RefusesAmong (StandsAtLexer (L.relations session.now.lexer) (grammar_view plain)) result
        (plain_findings (grammar_view plain)) }
    ensures lowered { IfOk result (AreRulesWhere (IsCheckedLowering (L.relations session.now.lexer)
        (features_view session.now.features) (grammar_view plain))) }
{
    let entered = token_check::validate(alloc, &session.lexer, plain)?;
    type_and_lower_rules(alloc, entered)
}

/// As `type_and_lower`, for the nonterminals, the start symbols and the types alone.
fn type_and_lower_rules(alloc: Global, plain: parse_tree::Grammar) -> NormResult<LoweredRules>
    requires { IsExpanded (grammar_view plain) }
    ensures refuses { Refuses result (late_faults (grammar_view plain)) }
    // Which conversions are active is nothing to the rules: the features may be any that leave each terminal a type.
    ensures lowered { (fs : Features) → IsTypedByInference fs (grammar_view plain) →
        IfOk result (AreRulesWhere (IsTypedLowering fs (grammar_view plain))) }
{
    let types = infer_shared_types(alloc, &plain)?;
    lower_rules(alloc, plain, types)
}
