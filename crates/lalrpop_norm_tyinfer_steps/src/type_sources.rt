//! What gives rules their types: their typing clauses.
ghost use Rattle.std.specs.Prelude.{◌≡◌, ◌++◌, IfOk, OnOk, map, option_map, option_to_list, filter_map};
ghost use Rattle.lalrpop_norm_tree.specs.Items.{alternative_view, rule_view};
ghost use Rattle.lalrpop_norm_tree.specs.Symbols.{expr_view};
ghost use Rattle.lalrpop_norm_tree.specs.Types.{type_view};
ghost use Rattle.lalrpop_norm_model.specs.TypeRelation.{alternative_clause, type_clauses, type_clauses_of};
ghost use Rattle.lalrpop_norm_tyinfer_steps.specs.Clauses.{default_clause, clause_view, clauses_view, declared_by};

use lalrpop_norm_common::norm_util::{has_name_value, sources};
use lalrpop_norm_tree::grammar::parse_tree::{
    ActionKind, Alternative, ExprSymbol, NoMemory, NonterminalData, Symbol, TypeRef,
};
use std::alloc::Global;

/// What gives a rule its type.
#[derive(Debug, Drop)]
pub enum RuleClauses<'g> {
    /// It declares one.
    Declared(&'g TypeRef),
    /// Its alternatives may give one: the clauses of these, in order.
    Alternatives(Vec<TypeSource<'g>>),
}

/// What gives an alternative its type.
#[derive(Debug, Drop)]
pub enum TypeSource<'g> {
    /// It gives the values of these symbols, each with its index: one bare, any other number of them as a tuple.
    Sources(Vec<(usize, &'g Symbol)>),
    /// It is a location symbol, and gives a location.
    Location,
}

/// The clause of an alternative: without action code and names it gives the values of its sources, and location symbols a
/// location.
pub fn alternative_clause(
    alloc: Global,
    alternative: &Alternative,
) -> Result<Option<TypeSource<'_>>, NoMemory>
    ensures { IfOk result (λ o. option_map clause_view o ≡ alternative_clause (alternative_view alternative.now)) }
{
    match &alternative.action {
        None => default_clause(alloc, &alternative.expr),
        Some(ActionKind::Lookahead) | Some(ActionKind::Lookbehind) => Ok(Some(
            TypeSource::Location,
        )),
        Some(ActionKind::User(_)) | Some(ActionKind::Fallible(_)) => Ok(None),
    }
}

/// The clause of an alternative of these symbols without action code.
fn default_clause(alloc: Global, expr: &ExprSymbol) -> Result<Option<TypeSource<'_>>, NoMemory>
    ensures { IfOk result (λ o. option_map clause_view o ≡ default_clause (expr_view expr.now)) }
{
    if has_name_value(&expr.symbols) {
        return Ok(None);
    }
    let sources = sources(alloc, &expr.symbols)?;
    Ok(Some(TypeSource::Sources(sources)))
}

/// The clauses of a rule: its declared type alone; without one, those of its alternatives in order.
pub(crate) fn rule_clauses(
    alloc: Global,
    rule: &NonterminalData,
) -> Result<RuleClauses<'_>, NoMemory>
    ensures clauses { IfOk result (λ cs. clauses_view cs ≡ type_clauses (rule_view rule.now)) }
    ensures declared { IfOk result (λ cs. declared_by cs ≡ (rule_view rule.now).type_decl) }
{
    clauses_of(alloc, &rule.type_decl, &rule.alternatives)
}

fn clauses_of<'g>(
    alloc: Global,
    declared: &'g Option<TypeRef>,
    alternatives: &'g [Alternative],
) -> Result<RuleClauses<'g>, NoMemory>
    ensures clauses { IfOk result (λ cs. clauses_view cs
        ≡ type_clauses_of (option_map type_view declared.now) (map alternative_view alternatives.now)) }
    ensures declared { IfOk result (λ cs. declared_by cs ≡ option_map type_view declared.now) }
{
    match declared {
        Some(ty) => Ok(RuleClauses::Declared(ty)),
        None => Ok(RuleClauses::Alternatives(alternative_clauses(alloc, alternatives)?)),
    }
}

fn alternative_clauses(
    alloc: Global,
    alternatives: &[Alternative],
) -> Result<Vec<TypeSource<'_>>, NoMemory>
    ensures { IfOk result (λ cs. map clause_view cs.items ≡ filter_map alternative_clause (map alternative_view alternatives.now)) }
{
    let mut clauses = Vec::with_capacity(alloc, alternatives.len())?;
    for alternative in alternatives {
        add_clause(&mut clauses, alternative_clause(alloc, alternative)?)?;
    }
    Ok(clauses)
}

/// Adds the clause that is there.
fn add_clause<'g>(
    clauses: &mut Vec<TypeSource<'g>>,
    clause: Option<TypeSource<'g>>,
) -> Result<(), NoMemory>
    ensures { OnOk result (map clause_view clauses.new.items
        ≡ map clause_view clauses.old.items ++ option_to_list (option_map clause_view clause.entry)) }
{
    if let Some(clause) = clause {
        clauses.push(clause)?;
    }
    Ok(())
}
