//! Parameters, bounds and where clauses.
ghost use Rattle.std.specs.Prelude.{◌≡◌, ◌∷◌, [], codes};
ghost use Rattle.serde_json.specs.Data.{string};
ghost use Rattle.lalrpop_norm_json.specs.Json.{fields, row, list_form, maybe_form};
ghost use Rattle.lalrpop_norm_json.specs.Forms.{path_form, type_parameter_form};
ghost use Rattle.lalrpop_norm_tree_parts.specs.Paths.{path_view};
ghost use Rattle.lalrpop_norm_tree_parts.specs.Bounds.{bound_view, bound_parameter_view};
ghost use Rattle.lalrpop_norm_tree_parts.specs.Reprs.{repr_view, lowered_where_clause_view};
ghost use Rattle.lalrpop_norm_lowered_json_tables.specs.Written.{Puts};
ghost use Rattle.lalrpop_norm_lowered_json.specs.LoweredForms.{repr_form, lowered_bound_form};
ghost use Rattle.lalrpop_norm_lowered_json.specs.LoweredForms.{lowered_bound_parameter_form, lowered_clause_form};

use crate::put::{Form, put_maybe};
use crate::types::put_type;
use json::Writer;
use lalrpop_norm_lowered_json_tables::put::{
    Plain, Puts, begin_variant, put_field, put_list_field, put_variant,
};
use lalrpop_norm_repr::grammar::repr::{
    Lifetime, Parameter, Path, TypeBound, TypeParameter, TypeRepr, WhereClause,
};
use lalrpop_norm_tree::grammar::parse_tree::{Atom, TypeBoundParameter};
use std::alloc::AllocError;

impl Puts<Parameter> for Form {
    ghost use Rattle.lalrpop_norm_repr.specs.Lowered.{lowered_parameter_view};
    ghost use Rattle.lalrpop_norm_lowered_json.specs.WholeForms.{lowered_parameter_form};

    ghost form = { λ p. lowered_parameter_form (lowered_parameter_view p) };

    fn put(out: &mut Writer, value: &Parameter) -> Result<(), AllocError> {
        out.begin_object()?;
        put_field::<Atom, Plain>(out, "name", &value.name)?;
        put_field::<TypeRepr, Form>(out, "ty", &value.ty)?;
        out.end_object()
    }
}

impl Puts<TypeBoundParameter<TypeRepr>> for Form {
    ghost form = { λ p. lowered_bound_parameter_form (bound_parameter_view repr_view p) };

    fn put(out: &mut Writer, value: &TypeBoundParameter<TypeRepr>) -> Result<(), AllocError> {
        match value {
            TypeBoundParameter::Lifetime(lifetime) => put_variant::<Lifetime, Form>(
                out, "Lifetime", lifetime,
            ),
            TypeBoundParameter::TypeParameter(ty) => {
                put_variant::<TypeRepr, Form>(out, "TypeParameter", ty)
            }
            TypeBoundParameter::Associated(name, ty) => {
                begin_variant(out, "Associated")?;
                put_named_type(out, name, ty)?;
                out.end_object()
            }
        }
    }
}

/// What `Associated` holds.
fn put_named_type(out: &mut Writer, name: &Atom, ty: &TypeRepr) -> Result<(), AllocError>
    ensures { Puts result out.old out.new (row (string name.now ∷ repr_form (repr_view ty.now) ∷ [])) }
{
    out.begin_array()?;
    out.string(name.as_str())?;
    put_type(out, ty)?;
    out.end_array()
}

impl Puts<TypeBound<TypeRepr>> for Form {
    ghost form = { λ b. lowered_bound_form (bound_view repr_view b) };

    fn put(out: &mut Writer, value: &TypeBound<TypeRepr>) -> Result<(), AllocError> {
        match value {
            TypeBound::Lifetime(lifetime) => put_variant::<Lifetime, Form>(
                out, "Lifetime", lifetime,
            ),
            TypeBound::Fn {
                forall,
                path,
                parameters,
                ret,
            } => {
                begin_variant(out, "Fn")?;
                put_function_bound(out, forall, path, parameters, ret)?;
                out.end_object()
            }
            TypeBound::Trait {
                forall,
                path,
                parameters,
            } => {
                begin_variant(out, "Trait")?;
                put_trait_bound(out, forall, path, parameters)?;
                out.end_object()
            }
        }
    }
}

/// What `Fn` holds.
fn put_function_bound(
    out: &mut Writer,
    forall: &Vec<TypeParameter>,
    path: &Path,
    parameters: &Vec<TypeRepr>,
    ret: &Option<TypeRepr>,
) -> Result<(), AllocError>
    ensures { Puts result out.old out.new
        (fields ((codes "forall", list_form type_parameter_form forall.now.items)
        ∷ (codes "parameters", list_form (λ t. repr_form (repr_view t)) parameters.now.items)
        ∷ (codes "path", path_form (path_view path.now))
        ∷ (codes "ret", maybe_form (λ t. repr_form (repr_view t)) ret.now) ∷ [])) }
{
    out.begin_object()?;
    put_list_field::<TypeParameter, Form>(out, "forall", forall)?;
    put_list_field::<TypeRepr, Form>(out, "parameters", parameters)?;
    put_field::<Path, Form>(out, "path", path)?;
    out.key("ret")?;
    put_maybe::<TypeRepr, Form>(out, ret)?;
    out.end_object()
}

/// What `Trait` holds.
fn put_trait_bound(
    out: &mut Writer,
    forall: &Vec<TypeParameter>,
    path: &Path,
    parameters: &Vec<TypeBoundParameter<TypeRepr>>,
) -> Result<(), AllocError>
    ensures { Puts result out.old out.new
        (fields ((codes "forall", list_form type_parameter_form forall.now.items)
        ∷ (codes "parameters", list_form (λ p. lowered_bound_parameter_form (bound_parameter_view repr_view p)) parameters.now.items)
        ∷ (codes "path", path_form (path_view path.now)) ∷ [])) }
{
    out.begin_object()?;
    put_list_field::<TypeParameter, Form>(out, "forall", forall)?;
    put_list_field::<TypeBoundParameter<TypeRepr>, Form>(out, "parameters", parameters)?;
    put_field::<Path, Form>(out, "path", path)?;
    out.end_object()
}

impl Puts<WhereClause> for Form {
    ghost form = { λ c. lowered_clause_form (lowered_where_clause_view c) };

    fn put(out: &mut Writer, value: &WhereClause) -> Result<(), AllocError> {
        put_where_clause(out, value)
    }
}

/// A where clause.
#[cycle(clauses)]
fn put_where_clause(out: &mut Writer, clause: &WhereClause) -> Result<(), AllocError>
    ensures { Puts result out.old out.new (lowered_clause_form (lowered_where_clause_view clause.now)) }
{
    match clause {
        WhereClause::Forall { binder, clause } => {
            begin_variant(out, "Forall")?;
            put_for_all(out, binder, clause)?;
            out.end_object()
        }
        WhereClause::Bound { subject, bound } => {
            begin_variant(out, "Bound")?;
            put_bounded(out, subject, bound)?;
            out.end_object()
        }
    }
}

/// What `Forall` holds.
#[cycle(clauses)]
fn put_for_all(
    out: &mut Writer,
    binder: &Vec<TypeParameter>,
    clause: &WhereClause,
) -> Result<(), AllocError>
    ensures { Puts result out.old out.new
        (fields ((codes "binder", list_form type_parameter_form binder.now.items)
        ∷ (codes "clause", lowered_clause_form (lowered_where_clause_view clause.now)) ∷ [])) }
{
    out.begin_object()?;
    put_list_field::<TypeParameter, Form>(out, "binder", binder)?;
    out.key("clause")?;
    put_where_clause(out, clause)?;
    out.end_object()
}

/// What `Bound` holds.
fn put_bounded(
    out: &mut Writer,
    subject: &TypeRepr,
    bound: &TypeBound<TypeRepr>,
) -> Result<(), AllocError>
    ensures { Puts result out.old out.new
        (fields ((codes "bound", lowered_bound_form (bound_view repr_view bound.now))
        ∷ (codes "subject", repr_form (repr_view subject.now)) ∷ [])) }
{
    out.begin_object()?;
    put_field::<TypeBound<TypeRepr>, Form>(out, "bound", bound)?;
    put_field::<TypeRepr, Form>(out, "subject", subject)?;
    out.end_object()
}
