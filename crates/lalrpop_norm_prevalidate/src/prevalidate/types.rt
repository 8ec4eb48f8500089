//! Written types that hold the type of a symbol.
ghost use Rattle.std.specs.Prelude.{◌≡◌, map, option_map};
ghost use Rattle.std.specs.List.{list_any};
ghost use Rattle.lalrpop_norm_tree_parts.specs.Bounds.{bound_parameter_view, bound_view, where_clause_view};
ghost use Rattle.lalrpop_norm_tree.specs.LoweredTypes.{holds_symbol};
ghost use Rattle.lalrpop_norm_tree_patterns.specs.Patterns.{pattern_kind_view, pattern_view, patterns_view, fields_view};
ghost use Rattle.lalrpop_norm_tree.specs.Types.{type_view};
ghost use Rattle.lalrpop_norm_prevalidate.specs.TypeFaults.{some_holds, parameter_holds, bound_holds, clause_holds};
ghost use Rattle.lalrpop_norm_prevalidate.specs.TypeFaults.{kind_holds, pattern_holds, patterns_hold, fields_hold};

use lalrpop_norm_tree::grammar::parse_tree::{TypeBound, TypeBoundParameter, TypeRef, WhereClause};
use lalrpop_norm_tree::grammar::pattern::{FieldPattern, Pattern, PatternKind};

pub(super) fn some_holds(written: &Option<TypeRef>) -> bool
    ensures { result ≡ some_holds (option_map type_view written.now) }
{
    match written {
        Some(written) => written.holds_symbol(),
        None => false,
    }
}

fn any_holds(types: &[TypeRef]) -> bool
    ensures { result ≡ list_any holds_symbol (map type_view types.now) }
{
    for written in types {
        if written.holds_symbol() {
            return true;
        }
    }
    false
}

fn parameter_holds(parameter: &TypeBoundParameter<TypeRef>) -> bool
    ensures { result ≡ parameter_holds (bound_parameter_view type_view parameter.now) }
{
    match parameter {
        TypeBoundParameter::Lifetime(_) => false,
        TypeBoundParameter::TypeParameter(written) => written.holds_symbol(),
        TypeBoundParameter::Associated(_, written) => written.holds_symbol(),
    }
}

fn parameters_hold(parameters: &[TypeBoundParameter<TypeRef>]) -> bool
    ensures { result ≡ list_any parameter_holds (map (bound_parameter_view type_view) parameters.now) }
{
    for parameter in parameters {
        if parameter_holds(parameter) {
            return true;
        }
    }
    false
}

fn bound_holds(bound: &TypeBound<TypeRef>) -> bool
    ensures { result ≡ bound_holds (bound_view type_view bound.now) }
{
    match bound {
        TypeBound::Lifetime(_) => false,
        TypeBound::Fn {
            forall: _,
            path: _,
            parameters,
            ret,
        } => any_holds(parameters) || some_holds(ret),
        TypeBound::Trait {
            forall: _,
            path: _,
            parameters,
        } => parameters_hold(parameters),
    }
}

fn bounds_hold(bounds: &[TypeBound<TypeRef>]) -> bool
    ensures { result ≡ list_any bound_holds (map (bound_view type_view) bounds.now) }
{
    for bound in bounds {
        if bound_holds(bound) {
            return true;
        }
    }
    false
}

pub(super) fn clause_holds(clause: &WhereClause<TypeRef>) -> bool
    ensures { result ≡ clause_holds (where_clause_view type_view clause.now) }
{
    match clause {
        WhereClause::Lifetime {
            lifetime: _,
            bounds: _,
        } => false,
        WhereClause::OfType {
            forall: _,
            ty,
            bounds,
        } => ty.holds_symbol() || bounds_hold(bounds),
    }
}

#[cycle(patterns)]
pub(super) fn pattern_holds(pattern: &Pattern<TypeRef>) -> bool
    ensures { result ≡ pattern_holds (pattern_view type_view pattern.now) }
{
    kind_holds(&pattern.kind)
}

#[cycle(patterns)]
fn kind_holds(kind: &PatternKind<TypeRef>) -> bool
    ensures { result ≡ kind_holds (pattern_kind_view type_view kind.now) }
{
    match kind {
        PatternKind::Enum(_, patterns) => patterns_hold(patterns),
        PatternKind::Struct(_, fields, _) => fields_hold(fields),
        PatternKind::Tuple(patterns) => patterns_hold(patterns),
        PatternKind::TupleStruct(_, patterns) => patterns_hold(patterns),
        PatternKind::Choose(written) => written.holds_symbol(),
        PatternKind::Path(_)
        | PatternKind::Usize(_)
        | PatternKind::Underscore
        | PatternKind::DotDot
        | PatternKind::CharLiteral(_)
        | PatternKind::String(_) => false,
    }
}

#[cycle(patterns)]
fn patterns_hold(patterns: &[Pattern<TypeRef>]) -> bool
    ensures { result ≡ patterns_hold (patterns_view type_view patterns.now) }
{
    for pattern in patterns {
        if pattern_holds(pattern) {
            return true;
        }
    }
    false
}

#[cycle(patterns)]
fn fields_hold(fields: &[FieldPattern<TypeRef>]) -> bool
    ensures { result ≡ fields_hold (fields_view type_view fields.now) }
{
    for field in fields {
        if pattern_holds(&field.pattern) {
            return true;
        }
    }
    false
}
