//! The typing clauses of rules by the names whose types they are made of.
ghost use Rattle.std.specs.Prelude.{◌≡◌, ◌++◌, List, IfOk, OnOk, flat_map, map, option_map};
ghost use Rattle.lalrpop_norm_names.specs.Numbers.{number_in_table};
ghost use Rattle.lalrpop_norm_tree_names.specs.declared.names.TypeParameter.{TypeParameter};
ghost use Rattle.lalrpop_norm_tree.specs.Symbols.{kind_view};
ghost use Rattle.lalrpop_norm_tree.specs.Types.{type_view, types_view, maybe_of};
ghost use Rattle.lalrpop_norm_tree_parts.specs.Paths.{path_view};
ghost use Rattle.lalrpop_norm_model.specs.Expanded.{names_in_kind};
ghost use Rattle.lalrpop_norm_model.specs.TypeRelation.{associated_in, makes};
ghost use Rattle.lalrpop_norm_tyinfer_steps.specs.Clauses.{clause_view, clauses_view};
ghost use Rattle.lalrpop_norm_tyinfer_steps.specs.Needs.{needed_in, needed_type, needed_types, needed_return, needed_path};
ghost use Rattle.lalrpop_norm_tyinfer_steps.specs.Needs.{AddsNeeds, IsNeedOf, AreNeeds};
ghost use Rattle.lalrpop_norm_tyinfer_steps.specs.Visits.{rule_seen};

use crate::rules::PlainRule;
use crate::type_sources::{RuleClauses, TypeSource};
use crate::values::{associated, under_wrappers};
use lalrpop_norm_names::Names;
use lalrpop_norm_tree::grammar::parse_tree::{
    GrammarSymbol, NoMemory, Path, Symbol, SymbolKind, TypeParameter, TypeRef,
};
use std::alloc::Global;

/// A clause of a rule, by the names whose types it is made of.
#[derive(Drop)]
pub struct Need {
    /// The number of the rule.
    pub rule: usize,
    /// The numbers of the names, in order; a name of no rule has none.
    pub numbers: Vec<Option<usize>>,
}

/// Adds the number of the name that a symbol gives its type by.
fn add_kind(
    numbers: &mut Vec<Option<usize>>,
    names: &Names,
    kind: &SymbolKind,
) -> Result<(), NoMemory>
    ensures { OnOk result (numbers.new.items ≡ numbers.old.items ++ map (number_in_table names.now) (names_in_kind (kind_view kind.now))) }
{
    match under_wrappers(kind).as_grammar_symbol() {
        Some(GrammarSymbol::Nonterminal(name)) => {
            numbers.push(names.number(name))?;
            Ok(())
        }
        Some(GrammarSymbol::Terminal(_)) | Some(GrammarSymbol::Error) | None => Ok(()),
    }
}

/// Adds those of the names that a written type is made of.
#[cycle(written)]
fn add_type(
    numbers: &mut Vec<Option<usize>>,
    parameters: &[TypeParameter],
    names: &Names,
    written: &TypeRef,
) -> Result<(), NoMemory>
    ensures { OnOk result (numbers.new.items
        ≡ numbers.old.items ++ map (number_in_table names.now) (needed_type parameters.now (type_view written.now))) }
{
    match written {
        TypeRef::Tuple(inner) => add_types(numbers, parameters, names, inner),
        TypeRef::Slice(inner) => add_type(numbers, parameters, names, inner),
        TypeRef::Nominal { path, types: inner } => {
            add_path(numbers, parameters, names, path, inner)
        }
        TypeRef::Ref {
            lifetime: _,
            mutable: _,
            referent,
        } => add_type(numbers, parameters, names, referent),
        TypeRef::TraitObject {
            path: _,
            types: inner,
        } => add_types(numbers, parameters, names, inner),
        TypeRef::Lifetime(_) | TypeRef::Id(_) => Ok(()),
        TypeRef::OfSymbol(kind) => add_kind(numbers, names, kind),
        TypeRef::Fn {
            forall: _,
            path: _,
            parameters: inner,
            ret,
        } => {
            add_types(numbers, parameters, names, inner)?;
            add_return(numbers, parameters, names, ret)
        }
    }
}

/// A path with its arguments; of an associated type these are not read.
#[cycle(written)]
fn add_path(
    numbers: &mut Vec<Option<usize>>,
    parameters: &[TypeParameter],
    names: &Names,
    path: &Path,
    inner: &[TypeRef],
) -> Result<(), NoMemory>
    ensures { OnOk result (numbers.new.items ≡ numbers.old.items
        ++ map (number_in_table names.now)
        (needed_path (associated_in parameters.now (path_view path.now).ids) (needed_types parameters.now (types_view inner.now)))) }
{
    match associated(parameters, path) {
        Some(_) => Ok(()),
        None => add_types(numbers, parameters, names, inner),
    }
}

#[cycle(written)]
fn add_types(
    numbers: &mut Vec<Option<usize>>,
    parameters: &[TypeParameter],
    names: &Names,
    written: &[TypeRef],
) -> Result<(), NoMemory>
    ensures { OnOk result (numbers.new.items
        ≡ numbers.old.items ++ map (number_in_table names.now) (needed_types parameters.now (types_view written.now))) }
{
    for inner in written {
        add_type(numbers, parameters, names, inner)?;
    }
    Ok(())
}

#[cycle(written)]
fn add_return(
    numbers: &mut Vec<Option<usize>>,
    parameters: &[TypeParameter],
    names: &Names,
    ret: &Option<Box<TypeRef>>,
) -> Result<(), NoMemory>
    ensures { OnOk result (numbers.new.items ≡ numbers.old.items
        ++ map (number_in_table names.now) (needed_return parameters.now (maybe_of (option_map (λ b. type_view b.value) ret.now)))) }
{
    match ret {
        None => Ok(()),
        Some(written) => add_type(numbers, parameters, names, written),
    }
}

fn add_sources(
    numbers: &mut Vec<Option<usize>>,
    names: &Names,
    sources: &[(usize, &Symbol)],
) -> Result<(), NoMemory>
    ensures { OnOk result (numbers.new.items
        ≡ numbers.old.items ++ map (number_in_table names.now) (flat_map names_in_kind (map (λ t. kind_view t.1.now.kind) sources.now))) }
{
    for source in sources {
        add_kind(numbers, names, &source.1.kind)?;
    }
    Ok(())
}

/// Adds those of the names that a clause of an alternative is made of, whatever the type parameters.
fn add_clause(
    numbers: &mut Vec<Option<usize>>,
    names: &Names,
    clause: &TypeSource,
) -> Result<(), NoMemory>
    ensures { OnOk result ((ps : List TypeParameter) →
        numbers.new.items ≡ numbers.old.items ++ map (number_in_table names.now) (needed_in ps (clause_view clause.now))) }
{
    match clause {
        TypeSource::Sources(sources) => add_sources(numbers, names, sources),
        TypeSource::Location => Ok(()),
    }
}

/// What the declared type of a rule needs.
fn need_of_type(
    alloc: Global,
    parameters: &[TypeParameter],
    names: &Names,
    written: &TypeRef,
    rule: usize,
) -> Result<Need, NoMemory>
    ensures { IfOk result (IsNeedOf (number_in_table names.now) parameters.now (makes (type_view written.now)) rule) }
{
    // Most types name no rule: then nothing is allocated.
    let mut numbers = Vec::new(alloc);
    add_type(&mut numbers, parameters, names, written)?;
    Ok(Need { rule, numbers })
}

/// What a clause of an alternative of a rule needs, whatever the type parameters.
fn need_of_clause(
    alloc: Global,
    names: &Names,
    clause: &TypeSource,
    rule: usize,
) -> Result<Need, NoMemory>
    ensures { IfOk result (λ n. (ps : List TypeParameter) → IsNeedOf (number_in_table names.now) ps (clause_view clause.now) rule n) }
{
    let mut numbers = Vec::new(alloc);
    add_clause(&mut numbers, names, clause)?;
    Ok(Need { rule, numbers })
}

/// Adds what the clauses of a rule's alternatives need, whatever the type parameters.
fn add_clauses(
    needs: &mut Vec<Need>,
    alloc: Global,
    names: &Names,
    clauses: &[TypeSource],
    rule: usize,
) -> Result<(), NoMemory>
    ensures { OnOk result ((ps : List TypeParameter) →
        AddsNeeds (number_in_table names.now) ps needs.old.items needs.new.items (map clause_view clauses.now) rule) }
{
    for clause in clauses {
        needs.push(need_of_clause(alloc, names, clause, rule)?)?;
    }
    Ok(())
}

/// Adds what the clauses of a rule need.
fn add_needs(
    needs: &mut Vec<Need>,
    alloc: Global,
    parameters: &[TypeParameter],
    names: &Names,
    clauses: &RuleClauses,
    rule: usize,
) -> Result<(), NoMemory>
    ensures { OnOk result (AddsNeeds (number_in_table names.now) parameters.now
        needs.old.items needs.new.items (clauses_view clauses.now) rule) }
{
    match clauses {
        RuleClauses::Declared(written) => {
            needs.push(need_of_type(alloc, parameters, names, written, rule)?)?;
            Ok(())
        }
        RuleClauses::Alternatives(clauses) => add_clauses(needs, alloc, names, clauses, rule),
    }
}

/// What the clauses of some rules need, by these numbers.
pub fn needs_of(
    alloc: Global,
    parameters: &[TypeParameter],
    names: &Names,
    rules: &[PlainRule],
) -> Result<Vec<Need>, NoMemory>
    ensures { IfOk result (λ ns. AreNeeds (number_in_table names.now) parameters.now (map rule_seen rules.now) ns.items) }
{
    let mut needs = Vec::with_capacity(alloc, rules.len())?;
    for rule in 0..rules.len() {
        add_needs(
            &mut needs,
            alloc,
            parameters,
            names,
            &rules[rule].clauses,
            rule,
        )?;
    }
    Ok(needs)
}
