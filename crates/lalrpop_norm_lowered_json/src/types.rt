//! Types.
ghost use Rattle.std.specs.Prelude.{◌≡◌, ◌++◌, ◌∷◌, [], OnOk, option_map, codes};
ghost use Rattle.json.specs.Token.{begin_object, key};
ghost use Rattle.serde_json.specs.Data.{array, string, boolean};
ghost use Rattle.lalrpop_norm_json.specs.Json.{fields, variant, list_form, maybe_form};
ghost use Rattle.lalrpop_norm_json.specs.Forms.{lifetime_form, path_form, type_parameter_form};
ghost use Rattle.lalrpop_norm_tree_parts.specs.Paths.{path_view};
ghost use Rattle.lalrpop_norm_tree_parts.specs.Reprs.{repr_view, reprs_view, applied_view, maybe_repr_of};
ghost use Rattle.lalrpop_norm_lowered_json_tables.specs.Written.{Puts, data_tokens};
ghost use Rattle.lalrpop_norm_lowered_json.specs.LoweredForms.{repr_form, reprs_form, maybe_repr_form, applied_form};

use crate::put::{Form, put_maybe};
use json::Writer;
use lalrpop_norm_lowered_json_tables::put::{
    Plain, Puts, begin_variant, put_field, put_list_field, put_variant,
};
use lalrpop_norm_repr::grammar::repr::{Lifetime, NominalTypeRepr, Path, TypeParameter, TypeRepr};
use lalrpop_norm_tree::grammar::parse_tree::Atom;
use std::alloc::AllocError;

impl Puts<TypeRepr> for Form {
    ghost form = { λ t. repr_form (repr_view t) };

    fn put(out: &mut Writer, value: &TypeRepr) -> Result<(), AllocError> {
        put_type(out, value)
    }
}

/// A type.
#[cycle(types)]
pub(crate) fn put_type(out: &mut Writer, ty: &TypeRepr) -> Result<(), AllocError>
    ensures { Puts result out.old out.new (repr_form (repr_view ty.now)) }
{
    match ty {
        TypeRepr::Tuple(types) => {
            begin_variant(out, "Tuple")?;
            put_types(out, types)?;
            out.end_object()
        }
        TypeRepr::Slice(inner) => {
            begin_variant(out, "Slice")?;
            put_type(out, inner)?;
            out.end_object()
        }
        TypeRepr::Nominal(nominal) => put_applied(out, "Nominal", nominal),
        TypeRepr::Associated { type_parameter, id } => put_associated(out, type_parameter, id),
        TypeRepr::Lifetime(lifetime) => put_variant::<Lifetime, Form>(out, "Lifetime", lifetime),
        TypeRepr::Ref {
            lifetime,
            mutable,
            referent,
        } => put_reference(out, lifetime, *mutable, referent),
        TypeRepr::TraitObject(nominal) => put_applied(out, "TraitObject", nominal),
        TypeRepr::Fn {
            forall,
            path,
            parameters,
            ret,
        } => {
            begin_variant(out, "Fn")?;
            begin_function(out, forall, path, parameters)?;
            out.key("ret")?;
            put_return(out, ret)?;
            out.end_object()?;
            out.end_object()
        }
    }
}

/// The variant `Associated`.
pub(crate) fn put_associated(
    out: &mut Writer,
    type_parameter: &Atom,
    id: &Atom,
) -> Result<(), AllocError>
    ensures { Puts result out.old out.new (variant (codes "Associated")
        (fields ((codes "id", string id.now) ∷ (codes "type_parameter", string type_parameter.now) ∷ []))) }
{
    begin_variant(out, "Associated")?;
    out.begin_object()?;
    put_field::<Atom, Plain>(out, "id", id)?;
    put_field::<Atom, Plain>(out, "type_parameter", type_parameter)?;
    out.end_object()?;
    out.end_object()
}

/// The variant `Ref`.
#[cycle(types)]
fn put_reference(
    out: &mut Writer,
    lifetime: &Option<Lifetime>,
    mutable: bool,
    referent: &TypeRepr,
) -> Result<(), AllocError>
    ensures { Puts result out.old out.new (variant (codes "Ref")
        (fields ((codes "lifetime", maybe_form lifetime_form lifetime.now) ∷ (codes "mutable", boolean mutable)
        ∷ (codes "referent", repr_form (repr_view referent.now)) ∷ []))) }
{
    begin_variant(out, "Ref")?;
    out.begin_object()?;
    out.key("lifetime")?;
    put_maybe::<Lifetime, Form>(out, lifetime)?;
    out.key("mutable")?;
    out.boolean(mutable)?;
    out.key("referent")?;
    put_type(out, referent)?;
    out.end_object()?;
    out.end_object()
}

/// What `Fn` holds, up to its return type.
#[cycle(types)]
fn begin_function(
    out: &mut Writer,
    forall: &Vec<TypeParameter>,
    path: &Path,
    parameters: &Vec<TypeRepr>,
) -> Result<(), AllocError>
    ensures ok { OnOk result (out.new.tokens
        ≡ out.old.tokens ++ begin_object ∷ key (codes "forall") ∷ data_tokens (list_form type_parameter_form forall.now.items)
        ++ key (codes "parameters") ∷ data_tokens (array (reprs_form (reprs_view parameters.now.items)))
        ++ key (codes "path") ∷ data_tokens (path_form (path_view path.now))) }
    ensures before { out.new.before ≡ out.old.before }
{
    out.begin_object()?;
    put_list_field::<TypeParameter, Form>(out, "forall", forall)?;
    put_types_field(out, "parameters", parameters)?;
    put_field::<Path, Form>(out, "path", path)
}

/// A field that is a list of types.
#[cycle(types)]
fn put_types_field(out: &mut Writer, name: &str, types: &Vec<TypeRepr>) -> Result<(), AllocError>
    ensures ok { OnOk result (out.new.tokens
        ≡ out.old.tokens ++ key name.now ∷ data_tokens (array (reprs_form (reprs_view types.now.items)))) }
    ensures before { out.new.before ≡ out.old.before }
{
    out.key(name)?;
    put_types(out, types)
}

/// `null`, or the return type.
#[cycle(types)]
fn put_return(out: &mut Writer, ret: &Option<Box<TypeRepr>>) -> Result<(), AllocError>
    ensures { Puts result out.old out.new (maybe_repr_form (maybe_repr_of (option_map (λ b. repr_view b.value) ret.now))) }
{
    match ret {
        Some(ret) => put_type(out, ret),
        None => out.null(),
    }
}

/// A variant that holds a path with its arguments.
#[cycle(types)]
fn put_applied(out: &mut Writer, name: &str, nominal: &NominalTypeRepr) -> Result<(), AllocError>
    ensures { Puts result out.old out.new
        (variant name.now (applied_form (applied_view nominal.now).0 (reprs_form (applied_view nominal.now).1))) }
{
    begin_variant(out, name)?;
    put_nominal(out, nominal)?;
    out.end_object()
}

/// A path with its arguments.
#[cycle(types)]
fn put_nominal(out: &mut Writer, nominal: &NominalTypeRepr) -> Result<(), AllocError>
    ensures { Puts result out.old out.new (applied_form (applied_view nominal.now).0 (reprs_form (applied_view nominal.now).1)) }
{
    out.begin_object()?;
    put_field::<Path, Form>(out, "path", &nominal.path)?;
    put_types_field(out, "types", &nominal.types)?;
    out.end_object()
}

/// An array of types.
#[cycle(types)]
fn put_types(out: &mut Writer, types: &Vec<TypeRepr>) -> Result<(), AllocError>
    ensures { Puts result out.old out.new (array (reprs_form (reprs_view types.now.items))) }
{
    out.begin_array()?;
    for ty in types {
        put_type(out, ty)?;
    }
    out.end_array()
}
