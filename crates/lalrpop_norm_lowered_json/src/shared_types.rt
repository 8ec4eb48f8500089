//! Types that share their parts.
ghost use Rattle.std.specs.Prelude.{◌≡◌, ◌++◌, ◌∷◌, [], OnOk, option_map, codes};
ghost use Rattle.json.specs.Token.{begin_object, key};
ghost use Rattle.serde_json.specs.Data.{array, boolean};
ghost use Rattle.lalrpop_norm_json.specs.Json.{fields, variant, list_form, maybe_form};
ghost use Rattle.lalrpop_norm_json.specs.Forms.{lifetime_form, path_form, type_parameter_form};
ghost use Rattle.lalrpop_norm_tree_parts.specs.Paths.{path_view};
ghost use Rattle.lalrpop_norm_tree_parts.specs.Reprs.{maybe_repr_of};
ghost use Rattle.lalrpop_norm_shared_types.specs.Shared.{shared_view, shared_all, applied_path_view};
ghost use Rattle.lalrpop_norm_lowered_json_tables.specs.Written.{Puts, data_tokens};
ghost use Rattle.lalrpop_norm_lowered_json.specs.LoweredForms.{repr_form, reprs_form, maybe_repr_form, applied_form};

use crate::put::{Form, put_maybe};
use crate::types::put_associated;
use json::Writer;
use lalrpop_norm_lowered_json_tables::put::{
    Puts, begin_variant, put_field, put_list_field, put_variant,
};
use lalrpop_norm_repr::grammar::repr::{Lifetime, Path, TypeParameter};
use lalrpop_norm_shared_types::shared::{AppliedPath, SharedType, TypeNode};
use std::alloc::AllocError;

impl Puts<SharedType> for Form {
    ghost form = { λ t. repr_form (shared_view t) };

    fn put(out: &mut Writer, value: &SharedType) -> Result<(), AllocError> {
        put_shared(out, value)
    }
}

/// A type.
#[cycle(shared)]
fn put_shared(out: &mut Writer, ty: &SharedType) -> Result<(), AllocError>
    ensures { Puts result out.old out.new (repr_form (shared_view ty.now)) }
{
    match &*ty.node {
        TypeNode::Tuple(types) => {
            begin_variant(out, "Tuple")?;
            put_all(out, types)?;
            out.end_object()
        }
        TypeNode::Slice(inner) => {
            begin_variant(out, "Slice")?;
            put_shared(out, inner)?;
            out.end_object()
        }
        TypeNode::Nominal(nominal) => put_applied(out, "Nominal", nominal),
        TypeNode::Associated { type_parameter, id } => put_associated(out, type_parameter, id),
        TypeNode::Lifetime(lifetime) => put_variant::<Lifetime, Form>(out, "Lifetime", lifetime),
        TypeNode::Ref {
            lifetime,
            mutable,
            referent,
        } => put_reference(out, lifetime, *mutable, referent),
        TypeNode::TraitObject(nominal) => put_applied(out, "TraitObject", nominal),
        TypeNode::Fn {
            forall,
            path,
            parameters,
            ret,
        } => {
            begin_variant(out, "Fn")?;
            begin_function(out, forall, path, parameters)?;
            out.key("ret")?;
            put_return(out, ret)?;
            out.end_object()?;
            out.end_object()
        }
    }
}

/// The variant `Ref`.
#[cycle(shared)]
fn put_reference(
    out: &mut Writer,
    lifetime: &Option<Lifetime>,
    mutable: bool,
    referent: &SharedType,
) -> Result<(), AllocError>
    ensures { Puts result out.old out.new (variant (codes "Ref")
        (fields ((codes "lifetime", maybe_form lifetime_form lifetime.now) ∷ (codes "mutable", boolean mutable)
        ∷ (codes "referent", repr_form (shared_view referent.now)) ∷ []))) }
{
    begin_variant(out, "Ref")?;
    out.begin_object()?;
    out.key("lifetime")?;
    put_maybe::<Lifetime, Form>(out, lifetime)?;
    out.key("mutable")?;
    out.boolean(mutable)?;
    out.key("referent")?;
    put_shared(out, referent)?;
    out.end_object()?;
    out.end_object()
}

/// What `Fn` holds, up to its return type.
#[cycle(shared)]
fn begin_function(
    out: &mut Writer,
    forall: &Vec<TypeParameter>,
    path: &Path,
    parameters: &Vec<SharedType>,
) -> Result<(), AllocError>
    ensures ok { OnOk result (out.new.tokens
        ≡ out.old.tokens ++ begin_object ∷ key (codes "forall") ∷ data_tokens (list_form type_parameter_form forall.now.items)
        ++ key (codes "parameters") ∷ data_tokens (array (reprs_form (shared_all parameters.now.items)))
        ++ key (codes "path") ∷ data_tokens (path_form (path_view path.now))) }
    ensures before { out.new.before ≡ out.old.before }
{
    out.begin_object()?;
    put_list_field::<TypeParameter, Form>(out, "forall", forall)?;
    put_all_field(out, "parameters", parameters)?;
    put_field::<Path, Form>(out, "path", path)
}

/// A field that is a list of types.
#[cycle(shared)]
fn put_all_field(out: &mut Writer, name: &str, types: &Vec<SharedType>) -> Result<(), AllocError>
    ensures ok { OnOk result (out.new.tokens
        ≡ out.old.tokens ++ key name.now ∷ data_tokens (array (reprs_form (shared_all types.now.items)))) }
    ensures before { out.new.before ≡ out.old.before }
{
    out.key(name)?;
    put_all(out, types)
}

/// `null`, or the return type.
#[cycle(shared)]
fn put_return(out: &mut Writer, ret: &Option<SharedType>) -> Result<(), AllocError>
    ensures { Puts result out.old out.new (maybe_repr_form (maybe_repr_of (option_map shared_view ret.now))) }
{
    match ret {
        Some(ret) => put_shared(out, ret),
        None => out.null(),
    }
}

/// A variant that holds a path with its arguments.
#[cycle(shared)]
fn put_applied(out: &mut Writer, name: &str, nominal: &AppliedPath) -> Result<(), AllocError>
    ensures { Puts result out.old out.new
        (variant name.now (applied_form (applied_path_view nominal.now).0 (reprs_form (applied_path_view nominal.now).1))) }
{
    begin_variant(out, name)?;
    put_nominal(out, nominal)?;
    out.end_object()
}

/// A path with its arguments.
#[cycle(shared)]
fn put_nominal(out: &mut Writer, nominal: &AppliedPath) -> Result<(), AllocError>
    ensures { Puts result out.old out.new
        (applied_form (applied_path_view nominal.now).0 (reprs_form (applied_path_view nominal.now).1)) }
{
    out.begin_object()?;
    put_field::<Path, Form>(out, "path", &nominal.path)?;
    put_all_field(out, "types", &nominal.types)?;
    out.end_object()
}

/// An array of types.
#[cycle(shared)]
fn put_all(out: &mut Writer, types: &Vec<SharedType>) -> Result<(), AllocError>
    ensures { Puts result out.old out.new (array (reprs_form (shared_all types.now.items))) }
{
    out.begin_array()?;
    for ty in types {
        put_shared(out, ty)?;
    }
    out.end_array()
}
