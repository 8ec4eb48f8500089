//! Types outside of rules, in which no symbol may occur.
ghost use Rattle.std.specs.Prelude.{◌≡◌, map, option_map};
ghost use Rattle.std.specs.List.{list_all};
ghost use Rattle.lalrpop_norm_tree_parts.specs.Bounds.{bound_parameter_view, bound_view, where_clause_view};
ghost use Rattle.lalrpop_norm_tree_patterns.specs.Patterns.{field_view, fields_view, pattern_kind_view, pattern_view, patterns_view};
ghost use Rattle.lalrpop_norm_tree.specs.Items.{associated_type_view, conversion_view, enum_token_view, grammar_view, item_view};
ghost use Rattle.lalrpop_norm_tree.specs.Types.{parameter_view, type_view};
ghost use Rattle.lalrpop_norm_is_expanded.specs.Types.{lacks_symbol, parameter_lacks_symbol, return_lacks_symbol};
ghost use Rattle.lalrpop_norm_is_expanded.specs.Types.{bound_parameter_lacks_symbol, bound_lacks_symbol, clause_lacks_symbol};
ghost use Rattle.lalrpop_norm_is_expanded.specs.Types.{pattern_kind_lacks_symbol, pattern_lacks_symbol, patterns_lack_symbol};
ghost use Rattle.lalrpop_norm_is_expanded.specs.Types.{fields_lack_symbol, conversion_lacks_symbol, enum_lacks_symbol};
ghost use Rattle.lalrpop_norm_is_expanded.specs.Types.{associated_lacks_symbol, item_lacks_symbol, is_free_of_symbols};

use lalrpop_norm_tree::grammar::parse_tree::{
    AssociatedType, Conversion, EnumToken, Grammar, GrammarItem, Parameter, TypeBound,
    TypeBoundParameter, TypeRef, WhereClause,
};
use lalrpop_norm_tree::grammar::pattern::{FieldPattern, Pattern, PatternKind};

/// Whether no type outside of rules holds a symbol.
pub(crate) fn is_free_of_symbols(grammar: &Grammar) -> bool
    ensures { result ≡ is_free_of_symbols (grammar_view grammar.now) }
{
    parameters_lack_symbol(&grammar.parameters)
        && clauses_lack_symbol(&grammar.where_clauses)
        && items_lack_symbol(&grammar.items)
}

fn lacks_symbol(ty: &TypeRef) -> bool
    ensures { result ≡ lacks_symbol (type_view ty.now) }
{
    !ty.holds_symbol()
}

fn parameters_lack_symbol(parameters: &[Parameter]) -> bool
    ensures { result ≡ list_all parameter_lacks_symbol (map parameter_view parameters.now) }
{
    for parameter in parameters {
        if !lacks_symbol(&parameter.ty) {
            return false;
        }
    }
    true
}

// ---- `where` clauses

fn clauses_lack_symbol(clauses: &[WhereClause<TypeRef>]) -> bool
    ensures { result ≡ list_all clause_lacks_symbol (map (where_clause_view type_view) clauses.now) }
{
    for clause in clauses {
        if !clause_lacks_symbol(clause) {
            return false;
        }
    }
    true
}

fn clause_lacks_symbol(clause: &WhereClause<TypeRef>) -> bool
    ensures { result ≡ clause_lacks_symbol (where_clause_view type_view clause.now) }
{
    match clause {
        WhereClause::Lifetime {
            lifetime: _,
            bounds: _,
        } => true,
        WhereClause::OfType {
            forall: _,
            ty,
            bounds,
        } => lacks_symbol(ty) && bounds_lack_symbol(bounds),
    }
}

fn bounds_lack_symbol(bounds: &[TypeBound<TypeRef>]) -> bool
    ensures { result ≡ list_all bound_lacks_symbol (map (bound_view type_view) bounds.now) }
{
    for bound in bounds {
        if !bound_lacks_symbol(bound) {
            return false;
        }
    }
    true
}

fn bound_lacks_symbol(bound: &TypeBound<TypeRef>) -> bool
    ensures { result ≡ bound_lacks_symbol (bound_view type_view bound.now) }
{
    match bound {
        TypeBound::Lifetime(_) => true,
        TypeBound::Fn {
            forall: _,
            path: _,
            parameters,
            ret,
        } => types_lack_symbol(parameters) && return_lacks_symbol(ret),
        TypeBound::Trait {
            forall: _,
            path: _,
            parameters,
        } => bound_parameters_lack_symbol(parameters),
    }
}

fn return_lacks_symbol(ret: &Option<TypeRef>) -> bool
    ensures { result ≡ return_lacks_symbol (option_map type_view ret.now) }
{
    match ret {
        Some(ty) => lacks_symbol(ty),
        None => true,
    }
}

fn types_lack_symbol(types: &[TypeRef]) -> bool
    ensures { result ≡ list_all lacks_symbol (map type_view types.now) }
{
    for ty in types {
        if !lacks_symbol(ty) {
            return false;
        }
    }
    true
}

fn bound_parameters_lack_symbol(parameters: &[TypeBoundParameter<TypeRef>]) -> bool
    ensures { result ≡ list_all bound_parameter_lacks_symbol (map (bound_parameter_view type_view) parameters.now) }
{
    for parameter in parameters {
        if !bound_parameter_lacks_symbol(parameter) {
            return false;
        }
    }
    true
}

fn bound_parameter_lacks_symbol(parameter: &TypeBoundParameter<TypeRef>) -> bool
    ensures { result ≡ bound_parameter_lacks_symbol (bound_parameter_view type_view parameter.now) }
{
    match parameter {
        TypeBoundParameter::Lifetime(_) => true,
        TypeBoundParameter::TypeParameter(ty) => lacks_symbol(ty),
        TypeBoundParameter::Associated(_, ty) => lacks_symbol(ty),
    }
}

// ---- extern blocks

fn items_lack_symbol(items: &[GrammarItem]) -> bool
    ensures { result ≡ list_all item_lacks_symbol (map item_view items.now) }
{
    for item in items {
        if !item_lacks_symbol(item) {
            return false;
        }
    }
    true
}

fn item_lacks_symbol(item: &GrammarItem) -> bool
    ensures { result ≡ item_lacks_symbol (item_view item.now) }
{
    match item {
        GrammarItem::ExternToken(block) => {
            associated_types_lack_symbol(&block.associated_types)
                && enum_lacks_symbol(&block.enum_token)
        }
        GrammarItem::MatchToken(_)
        | GrammarItem::InternToken(_)
        | GrammarItem::Nonterminal(_)
        | GrammarItem::Use(_) => true,
    }
}

fn associated_types_lack_symbol(types: &[AssociatedType]) -> bool
    ensures { result ≡ list_all associated_lacks_symbol (map associated_type_view types.now) }
{
    for associated in types {
        if !lacks_symbol(&associated.type_ref) {
            return false;
        }
    }
    true
}

fn enum_lacks_symbol(tokens: &Option<EnumToken>) -> bool
    ensures { result ≡ enum_lacks_symbol (option_map enum_token_view tokens.now) }
{
    match tokens {
        Some(tokens) => lacks_symbol(&tokens.type_name)
            && conversions_lack_symbol(&tokens.conversions),
        None => true,
    }
}

fn conversions_lack_symbol(conversions: &[Conversion]) -> bool
    ensures { result ≡ list_all conversion_lacks_symbol (map conversion_view conversions.now) }
{
    for conversion in conversions {
        if !pattern_lacks_symbol(&conversion.to) {
            return false;
        }
    }
    true
}

// ---- patterns of conversions

#[cycle(patterns)]
fn patterns_lack_symbol(patterns: &[Pattern<TypeRef>]) -> bool
    ensures { result ≡ patterns_lack_symbol (patterns_view type_view patterns.now) }
{
    for pattern in patterns {
        if !pattern_lacks_symbol(pattern) {
            return false;
        }
    }
    true
}

#[cycle(patterns)]
fn pattern_lacks_symbol(pattern: &Pattern<TypeRef>) -> bool
    ensures { result ≡ pattern_lacks_symbol (pattern_view type_view pattern.now) }
{
    pattern_kind_lacks_symbol(&pattern.kind)
}

#[cycle(patterns)]
fn pattern_kind_lacks_symbol(kind: &PatternKind<TypeRef>) -> bool
    ensures { result ≡ pattern_kind_lacks_symbol (pattern_kind_view type_view kind.now) }
{
    match kind {
        PatternKind::Enum(_, patterns)
        | PatternKind::Tuple(patterns)
        | PatternKind::TupleStruct(_, patterns) => patterns_lack_symbol(patterns),
        PatternKind::Struct(_, fields, _) => fields_lack_symbol(fields),
        PatternKind::Choose(ty) => lacks_symbol(ty),
        PatternKind::Path(_)
        | PatternKind::Usize(_)
        | PatternKind::Underscore
        | PatternKind::DotDot
        | PatternKind::CharLiteral(_)
        | PatternKind::String(_) => true,
    }
}

#[cycle(patterns)]
fn fields_lack_symbol(fields: &[FieldPattern<TypeRef>]) -> bool
    ensures { result ≡ fields_lack_symbol (fields_view type_view fields.now) }
{
    for field in fields {
        if !field_lacks_symbol(field) {
            return false;
        }
    }
    true
}

#[cycle(patterns)]
fn field_lacks_symbol(field: &FieldPattern<TypeRef>) -> bool
    ensures { result ≡ pattern_lacks_symbol (field_view type_view field.now).pattern }
{
    pattern_lacks_symbol(&field.pattern)
}
