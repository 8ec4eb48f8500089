//! Where clauses and their bounds.
ghost use Rattle.std.specs.Prelude.{codes};
ghost use Rattle.json_records.specs.Readers.{ReadsUnder, NotJsonOnlyIfNoData, LeavesNoMore};
ghost use Rattle.lalrpop_norm_json.specs.Shapes as shape;
ghost use Rattle.lalrpop_norm_json.specs.Shapes.{is};
ghost use Rattle.lalrpop_norm_tree_parts.specs.Bounds.{bound_parameter_view, bound_view, where_clause_view};
ghost use Rattle.lalrpop_norm_tree.specs.Types.{type_view};
ghost use Rattle.lalrpop_norm_json.specs.TypeForms.{bound_parameter_form, bound_form, where_clause_form};

use super::Tree;
use json::{Reader, Token};
use json_records::{
    And, End, ReadError, Reads, Variant, pass, read_pair, read_record, read_variant,
};
use lalrpop_norm_tree::grammar::parse_tree::{
    Atom, Lifetime, Path, TypeBound, TypeBoundParameter, TypeParameter, TypeRef, WhereClause,
};
use std::alloc::Global;

/// The associated type with that name.
fn associated<'a>(
    alloc: Global,
    first: Token<'a>,
    reader: &mut Reader<'a>,
    depth: usize,
) -> Result<Option<TypeBoundParameter<TypeRef>>, ReadError>
    ensures ok { ReadsUnder result (codes "Associated") (λ p. bound_parameter_form (bound_parameter_view type_view p))
        (is shape.bound_parameter) depth first.entry reader.old reader.new }
    ensures err { NotJsonOnlyIfNoData result depth first.entry reader.old }
    ensures shorter { LeavesNoMore result reader.old reader.new }
{
    match read_pair::<Atom, TypeRef, Tree, Tree>(alloc, first, reader, depth)? {
        Some((name, of)) => Ok(Some(TypeBoundParameter::Associated(name, of))),
        None => Ok(None),
    }
}

impl Variant<TypeBoundParameter<TypeRef>> for Tree {
    ghost use Rattle.lalrpop_norm_tree_parts.specs.Bounds.{bound_parameter_view};
    ghost use Rattle.lalrpop_norm_tree.specs.Types.{type_view};
    ghost use Rattle.lalrpop_norm_json.specs.TypeForms.{bound_parameter_form};
    ghost use Rattle.lalrpop_norm_json.specs.Shapes as shape;
    ghost use Rattle.lalrpop_norm_json.specs.Shapes.{is};
    ghost use Rattle.lalrpop_norm_json.specs.Laws.{no_variant};

    ghost form = { λ p. bound_parameter_form (bound_parameter_view type_view p) };

    ghost can = { is shape.bound_parameter };

    ghost law = { λ d other. no_variant _ _ d other };

    fn bare(_name: &str) -> Option<TypeBoundParameter<TypeRef>> {
        None
    }

    fn held<'a>(
        alloc: Global,
        name: &str,
        first: Token<'a>,
        reader: &mut Reader<'a>,
        depth: usize,
    ) -> Result<Option<TypeBoundParameter<TypeRef>>, ReadError> {
        match name {
            "Lifetime" => match <Tree as Reads<Lifetime>>::read(alloc, first, reader, depth)? {
                Some(read) => Ok(Some(TypeBoundParameter::Lifetime(read))),
                None => Ok(None),
            },
            "TypeParameter" => match <Tree as Reads<TypeRef>>::read(alloc, first, reader, depth)? {
                Some(read) => Ok(Some(TypeBoundParameter::TypeParameter(read))),
                None => Ok(None),
            },
            "Associated" => associated(alloc, first, reader, depth),
            _ => {
                pass(first, reader, depth)?;
                Ok(None)
            }
        }
    }
}

impl Reads<TypeBoundParameter<TypeRef>> for Tree {
    ghost use Rattle.lalrpop_norm_tree_parts.specs.Bounds.{bound_parameter_view};
    ghost use Rattle.lalrpop_norm_tree.specs.Types.{type_view};
    ghost use Rattle.lalrpop_norm_json.specs.TypeForms.{bound_parameter_form};
    ghost use Rattle.lalrpop_norm_json.specs.Shapes as shape;
    ghost use Rattle.lalrpop_norm_json.specs.Shapes.{is};

    ghost form = { λ p. bound_parameter_form (bound_parameter_view type_view p) };

    ghost can = { is shape.bound_parameter };

    fn read<'a>(
        alloc: Global,
        first: Token<'a>,
        reader: &mut Reader<'a>,
        depth: usize,
    ) -> Result<Option<TypeBoundParameter<TypeRef>>, ReadError> {
        read_variant::<TypeBoundParameter<TypeRef>, Tree>(alloc, first, reader, depth)
    }
}

/// The bound by a function's type.
fn function_bound<'a>(
    alloc: Global,
    first: Token<'a>,
    reader: &mut Reader<'a>,
    depth: usize,
) -> Result<Option<TypeBound<TypeRef>>, ReadError>
    ensures ok { ReadsUnder result (codes "Fn") (λ b. bound_form (bound_view type_view b)) (is shape.bound)
        depth first.entry reader.old reader.new }
    ensures err { NotJsonOnlyIfNoData result depth first.entry reader.old }
    ensures shorter { LeavesNoMore result reader.old reader.new }
{
    match read_record::<
        Tree,
        And<Vec<TypeParameter>, And<Vec<TypeRef>, And<Path, And<Option<TypeRef>, End>>>>,
    >(
        alloc,
        &["forall", "parameters", "path", "ret"],
        first,
        reader,
        depth,
    )? {
        Some(fields) => {
            let (forall, (parameters, (path, (ret, ())))) = fields;
            Ok(Some(TypeBound::Fn {
                forall,
                path,
                parameters,
                ret,
            }))
        }
        None => Ok(None),
    }
}

/// The bound by a trait.
fn trait_bound<'a>(
    alloc: Global,
    first: Token<'a>,
    reader: &mut Reader<'a>,
    depth: usize,
) -> Result<Option<TypeBound<TypeRef>>, ReadError>
    ensures ok { ReadsUnder result (codes "Trait") (λ b. bound_form (bound_view type_view b)) (is shape.bound)
        depth first.entry reader.old reader.new }
    ensures err { NotJsonOnlyIfNoData result depth first.entry reader.old }
    ensures shorter { LeavesNoMore result reader.old reader.new }
{
    match read_record::<
        Tree,
        And<Vec<TypeParameter>, And<Vec<TypeBoundParameter<TypeRef>>, And<Path, End>>>,
    >(
        alloc,
        &["forall", "parameters", "path"],
        first,
        reader,
        depth,
    )? {
        Some(fields) => {
            let (forall, (parameters, (path, ()))) = fields;
            Ok(Some(TypeBound::Trait {
                forall,
                path,
                parameters,
            }))
        }
        None => Ok(None),
    }
}

impl Variant<TypeBound<TypeRef>> for Tree {
    ghost use Rattle.lalrpop_norm_tree_parts.specs.Bounds.{bound_view};
    ghost use Rattle.lalrpop_norm_tree.specs.Types.{type_view};
    ghost use Rattle.lalrpop_norm_json.specs.TypeForms.{bound_form};
    ghost use Rattle.lalrpop_norm_json.specs.Shapes as shape;
    ghost use Rattle.lalrpop_norm_json.specs.Shapes.{is};
    ghost use Rattle.lalrpop_norm_json.specs.Laws.{no_variant};

    ghost form = { λ b. bound_form (bound_view type_view b) };

    ghost can = { is shape.bound };

    ghost law = { λ d other. no_variant _ _ d other };

    fn bare(_name: &str) -> Option<TypeBound<TypeRef>> {
        None
    }

    fn held<'a>(
        alloc: Global,
        name: &str,
        first: Token<'a>,
        reader: &mut Reader<'a>,
        depth: usize,
    ) -> Result<Option<TypeBound<TypeRef>>, ReadError> {
        match name {
            "Lifetime" => match <Tree as Reads<Lifetime>>::read(alloc, first, reader, depth)? {
                Some(read) => Ok(Some(TypeBound::Lifetime(read))),
                None => Ok(None),
            },
            "Fn" => function_bound(alloc, first, reader, depth),
            "Trait" => trait_bound(alloc, first, reader, depth),
            _ => {
                pass(first, reader, depth)?;
                Ok(None)
            }
        }
    }
}

impl Reads<TypeBound<TypeRef>> for Tree {
    ghost use Rattle.lalrpop_norm_tree_parts.specs.Bounds.{bound_view};
    ghost use Rattle.lalrpop_norm_tree.specs.Types.{type_view};
    ghost use Rattle.lalrpop_norm_json.specs.TypeForms.{bound_form};
    ghost use Rattle.lalrpop_norm_json.specs.Shapes as shape;
    ghost use Rattle.lalrpop_norm_json.specs.Shapes.{is};

    ghost form = { λ b. bound_form (bound_view type_view b) };

    ghost can = { is shape.bound };

    fn read<'a>(
        alloc: Global,
        first: Token<'a>,
        reader: &mut Reader<'a>,
        depth: usize,
    ) -> Result<Option<TypeBound<TypeRef>>, ReadError> {
        read_variant::<TypeBound<TypeRef>, Tree>(alloc, first, reader, depth)
    }
}

/// What is asked of a lifetime.
fn lifetime_clause<'a>(
    alloc: Global,
    first: Token<'a>,
    reader: &mut Reader<'a>,
    depth: usize,
) -> Result<Option<WhereClause<TypeRef>>, ReadError>
    ensures ok { ReadsUnder result (codes "Lifetime") (λ c. where_clause_form (where_clause_view type_view c)) (is shape.where_clause)
        depth first.entry reader.old reader.new }
    ensures err { NotJsonOnlyIfNoData result depth first.entry reader.old }
    ensures shorter { LeavesNoMore result reader.old reader.new }
{
    match read_record::<Tree, And<Vec<Lifetime>, And<Lifetime, End>>>(
        alloc,
        &["bounds", "lifetime"],
        first,
        reader,
        depth,
    )? {
        Some(fields) => {
            let (bounds, (lifetime, ())) = fields;
            Ok(Some(WhereClause::Lifetime { lifetime, bounds }))
        }
        None => Ok(None),
    }
}

/// What is asked of a type.
fn type_clause<'a>(
    alloc: Global,
    first: Token<'a>,
    reader: &mut Reader<'a>,
    depth: usize,
) -> Result<Option<WhereClause<TypeRef>>, ReadError>
    ensures ok { ReadsUnder result (codes "OfType") (λ c. where_clause_form (where_clause_view type_view c)) (is shape.where_clause)
        depth first.entry reader.old reader.new }
    ensures err { NotJsonOnlyIfNoData result depth first.entry reader.old }
    ensures shorter { LeavesNoMore result reader.old reader.new }
{
    match read_record::<
        Tree,
        And<Vec<TypeBound<TypeRef>>, And<Vec<TypeParameter>, And<TypeRef, End>>>,
    >(alloc, &["bounds", "forall", "ty"], first, reader, depth)?
    {
        Some(fields) => {
            let (bounds, (forall, (ty, ()))) = fields;
            Ok(Some(WhereClause::OfType { forall, ty, bounds }))
        }
        None => Ok(None),
    }
}

impl Variant<WhereClause<TypeRef>> for Tree {
    ghost use Rattle.lalrpop_norm_tree_parts.specs.Bounds.{where_clause_view};
    ghost use Rattle.lalrpop_norm_tree.specs.Types.{type_view};
    ghost use Rattle.lalrpop_norm_json.specs.TypeForms.{where_clause_form};
    ghost use Rattle.lalrpop_norm_json.specs.Shapes as shape;
    ghost use Rattle.lalrpop_norm_json.specs.Shapes.{is};
    ghost use Rattle.lalrpop_norm_json.specs.Laws.{no_variant};

    ghost form = { λ c. where_clause_form (where_clause_view type_view c) };

    ghost can = { is shape.where_clause };

    ghost law = { λ d other. no_variant _ _ d other };

    fn bare(_name: &str) -> Option<WhereClause<TypeRef>> {
        None
    }

    fn held<'a>(
        alloc: Global,
        name: &str,
        first: Token<'a>,
        reader: &mut Reader<'a>,
        depth: usize,
    ) -> Result<Option<WhereClause<TypeRef>>, ReadError> {
        match name {
            "Lifetime" => lifetime_clause(alloc, first, reader, depth),
            "OfType" => type_clause(alloc, first, reader, depth),
            _ => {
                pass(first, reader, depth)?;
                Ok(None)
            }
        }
    }
}

impl Reads<WhereClause<TypeRef>> for Tree {
    ghost use Rattle.lalrpop_norm_tree_parts.specs.Bounds.{where_clause_view};
    ghost use Rattle.lalrpop_norm_tree.specs.Types.{type_view};
    ghost use Rattle.lalrpop_norm_json.specs.TypeForms.{where_clause_form};
    ghost use Rattle.lalrpop_norm_json.specs.Shapes as shape;
    ghost use Rattle.lalrpop_norm_json.specs.Shapes.{is};

    ghost form = { λ c. where_clause_form (where_clause_view type_view c) };

    ghost can = { is shape.where_clause };

    fn read<'a>(
        alloc: Global,
        first: Token<'a>,
        reader: &mut Reader<'a>,
        depth: usize,
    ) -> Result<Option<WhereClause<TypeRef>>, ReadError> {
        read_variant::<WhereClause<TypeRef>, Tree>(alloc, first, reader, depth)
    }
}
