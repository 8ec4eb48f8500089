//! Tuple patterns over symbols, against the types of these.
ghost use Rattle.std.specs.Prelude.{◌≡◌, ◌∷◌, [], length, flat_map, map, option_map, if◌then◌else◌};
ghost use Rattle.lalrpop_norm_tree.specs.Items.{alternative_view, rule_view};
ghost use Rattle.lalrpop_norm_shared_types.specs.Shared.{shared_view, shared_all};
ghost use Rattle.lalrpop_norm_tree.specs.Symbols.{argument_pattern_view, argument_patterns_view, several, tuple_view};
ghost use Rattle.lalrpop_norm_tree.specs.Symbols.{symbol_view, parts_view, expr_view};
ghost use Rattle.lalrpop_norm_tree.specs.Accessors.{tuple_of};
ghost use Rattle.lalrpop_norm_faults.specs.Faults.{Refuses};
ghost use Rattle.lalrpop_norm_faults.specs.declared.kind.FaultKind.TheVariants.{TupleLength};
ghost use Rattle.lalrpop_norm_model.specs.TuplePatterns.{as_many, misfits, misfits_of, over_found};
ghost use Rattle.lalrpop_norm_model.specs.TuplePatterns.{symbol_misfits, alternative_misfits, rule_misfits};
ghost use Rattle.lalrpop_norm_tyinfer_steps.specs.Numbered.{numbered_table};
ghost use Rattle.lalrpop_norm_tyinfer_steps.specs.TableFaults.{faults_at, parts_misfits, tuple_misfits, types_in_tuple};
ghost use Rattle.lalrpop_norm_tyinfer_steps.specs.TableValues.{type_by_name};
ghost use Rattle.lalrpop_norm_tyinfer_steps.specs.Visits.{plain_rule_view};

use crate::numbered::Numbered;
use crate::rules::PlainRule;
use lalrpop_norm_faults::{FaultKind, NormResult, refusal};
use lalrpop_norm_shared_types::shared::{SharedType, TypeNode};
use lalrpop_norm_tree::grammar::parse_tree::{
    Alternative, ArgPattern, ExprSymbol, GrammarSymbol, NonterminalData, NonterminalString, Span,
    Symbol, Tuple,
};
use std::alloc::Global;

/// Rejects a tuple pattern that does not fit the type of its symbol.
pub fn check_patterns(alloc: Global, types: &Numbered, rules: &[PlainRule]) -> NormResult<()>
    ensures { Refuses result (flat_map (rule_misfits (type_by_name (numbered_table types.now))) (map plain_rule_view rules.now)) }
{
    for rule in rules {
        check_rule(alloc, types, rule.data)?;
    }
    Ok(())
}

fn check_rule(alloc: Global, types: &Numbered, rule: &NonterminalData) -> NormResult<()>
    ensures { Refuses result (rule_misfits (type_by_name (numbered_table types.now)) (rule_view rule.now)) }
{
    check_alternatives(alloc, types, &rule.alternatives)
}

fn check_alternatives(
    alloc: Global,
    types: &Numbered,
    alternatives: &[Alternative],
) -> NormResult<()>
    ensures { Refuses result
        (flat_map (alternative_misfits (type_by_name (numbered_table types.now))) (map alternative_view alternatives.now)) }
{
    for alternative in alternatives {
        check_alternative(alloc, types, alternative)?;
    }
    Ok(())
}

fn check_alternative(alloc: Global, types: &Numbered, alternative: &Alternative) -> NormResult<()>
    ensures { Refuses result (alternative_misfits (type_by_name (numbered_table types.now)) (alternative_view alternative.now)) }
{
    check_expr(alloc, types, &alternative.expr)
}

fn check_expr(alloc: Global, types: &Numbered, expr: &ExprSymbol) -> NormResult<()>
    ensures { Refuses result (parts_misfits (type_by_name (numbered_table types.now)) (expr_view expr.now)) }
{
    check_symbols(alloc, types, &expr.symbols)
}

fn check_symbols(alloc: Global, types: &Numbered, symbols: &[Symbol]) -> NormResult<()>
    ensures { Refuses result (parts_misfits (type_by_name (numbered_table types.now)) (parts_view symbols.now)) }
{
    for symbol in symbols {
        check_part(alloc, types, symbol)?;
    }
    Ok(())
}

/// A tuple symbol; any other symbol passes.
fn check_part(alloc: Global, types: &Numbered, symbol: &Symbol) -> NormResult<()>
    ensures { Refuses result (tuple_misfits (type_by_name (numbered_table types.now)) (tuple_of (symbol_view symbol.now))) }
{
    match symbol.as_tuple() {
        Some((tuple, symbol)) => check_symbol(alloc, types, tuple, symbol),
        None => Ok(()),
    }
}

/// A tuple of names before a symbol.
fn check_symbol(alloc: Global, types: &Numbered, tuple: &Tuple, symbol: &Symbol) -> NormResult<()>
    ensures { Refuses result (symbol_misfits (type_by_name (numbered_table types.now)) (tuple_view tuple.now, symbol_view symbol.now)) }
{
    match symbol.kind.as_grammar_symbol() {
        Some(GrammarSymbol::Nonterminal(name)) => check_named(
            alloc,
            types,
            symbol.span,
            tuple,
            name,
        ),
        Some(GrammarSymbol::Terminal(_)) | Some(GrammarSymbol::Error) | None => Err(refusal(
            FaultKind::TupleOverSymbol,
            symbol.span,
            format!(in alloc;
                "a tuple of names stands before `{symbol}`, which is no nonterminal: give it one name, and take the value apart in the action code"
            ),
        )),
    }
}

/// A tuple of names before a nonterminal.
fn check_named(
    alloc: Global,
    types: &Numbered,
    span: Span,
    tuple: &Tuple,
    name: &NonterminalString,
) -> NormResult<()>
    ensures { Refuses result (faults_at span
        (over_found (tuple_view tuple.now) (type_by_name (numbered_table types.now) name.now.0))) }
{
    match types.lookup_nonterminal_type(name) {
        Some(ty) => check_names(alloc, span, tuple, ty),
        None => Err(refusal(
            FaultKind::TupleOverType,
            span,
            format!(in alloc;
                "a tuple of names needs a tuple type, and `{name}` has no type: give the value one name"
            ),
        )),
    }
}

#[cycle(pattern)]
fn check_pattern(alloc: Global, span: Span, pattern: &ArgPattern, ty: &SharedType) -> NormResult<()>
    ensures { Refuses result (faults_at span (misfits (argument_pattern_view pattern.now) (shared_view ty.now))) }
{
    match pattern {
        ArgPattern::Name(_) => Ok(()),
        ArgPattern::Tuple(tuple) => check_names(alloc, span, tuple, ty),
    }
}

#[cycle(pattern)]
fn check_names(alloc: Global, span: Span, tuple: &Tuple, ty: &SharedType) -> NormResult<()>
    ensures { Refuses result (faults_at span (misfits (several (tuple_view tuple.now)) (shared_view ty.now))) }
{
    check_tuple(alloc, span, &tuple.tuples, ty)
}

#[cycle(pattern)]
fn check_tuple(
    alloc: Global,
    span: Span,
    patterns: &[ArgPattern],
    ty: &SharedType,
) -> NormResult<()>
    ensures { Refuses result (faults_at span (misfits (several (argument_patterns_view patterns.now)) (shared_view ty.now))) }
{
    match types_in_tuple(ty) {
        Some(types) => check_parts(alloc, span, patterns, types),
        None => Err(refusal(
            FaultKind::TupleOverType,
            span,
            format!(in alloc;
                "a tuple of names needs a tuple type, and `{ty}` is none: give the value one name"
            ),
        )),
    }
}

/// The types of a tuple type.
fn types_in_tuple(ty: &SharedType) -> Option<&[SharedType]>
    ensures { option_map (λ ts. shared_all ts.now) result ≡ types_in_tuple (shared_view ty.now) }
{
    match ty.node() {
        TypeNode::Tuple(types) => Some(types.as_slice()),
        TypeNode::Slice(_)
        | TypeNode::Nominal(_)
        | TypeNode::Associated { .. }
        | TypeNode::Lifetime(_)
        | TypeNode::Ref { .. }
        | TypeNode::TraitObject(_)
        | TypeNode::Fn { .. } => None,
    }
}

#[cycle(pattern)]
fn check_parts(
    alloc: Global,
    span: Span,
    patterns: &[ArgPattern],
    types: &[SharedType],
) -> NormResult<()>
    ensures { Refuses result (faults_at span
        (if as_many (argument_patterns_view patterns.now) (shared_all types.now)
        then misfits_of (argument_patterns_view patterns.now) (shared_all types.now) else (TupleLength ∷ []))) }
{
    let given = patterns.len();
    let wanted = types.len();
    if given != wanted {
        return Err(refusal(
            FaultKind::TupleLength,
            span,
            format!(in alloc;
                "a tuple of {given} names stands before a tuple type of {wanted}: give each part a name"
            ),
        ));
    }
    check_each(alloc, span, patterns, types)
}

#[cycle(pattern)]
fn check_each(
    alloc: Global,
    span: Span,
    patterns: &[ArgPattern],
    types: &[SharedType],
) -> NormResult<()>
    requires { length patterns.now ≡ length types.now }
    ensures { Refuses result (faults_at span (misfits_of (argument_patterns_view patterns.now) (shared_all types.now))) }
{
    for i in 0..patterns.len() {
        check_pattern(alloc, span, &patterns[i], &types[i])?;
    }
    Ok(())
}
