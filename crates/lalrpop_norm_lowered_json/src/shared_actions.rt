//! Actions whose types share their parts.
ghost use Rattle.std.specs.Prelude.{◌≡◌};
ghost use Rattle.lalrpop_norm_shared_types.specs.Actions.{shared_kind_view, shared_user_view};
ghost use Rattle.lalrpop_norm_lowered_json.specs.WholeForms.{action_kind_form, held_form};

use crate::put::Form;
use json::Writer;
use lalrpop_norm_lowered_json_tables::put::{Plain, Puts, put_field, put_list_field, put_variant};
use lalrpop_norm_repr::grammar::repr::{ArgPattern, LookaroundActionFnDefn};
use lalrpop_norm_shared_types::action::{
    SharedActionFnDefn, SharedActionFnDefnKind, SharedUserActionFnDefn,
};
use lalrpop_norm_shared_types::shared::SharedType;
use std::alloc::AllocError;

impl Puts<SharedActionFnDefn> for Form {
    ghost use Rattle.lalrpop_norm_shared_types.specs.Actions.{shared_action_view};
    ghost use Rattle.lalrpop_norm_lowered_json.specs.WholeForms.{action_defn_form};

    ghost form = { λ d. action_defn_form (shared_action_view d) };

    fn put(out: &mut Writer, value: &SharedActionFnDefn) -> Result<(), AllocError> {
        out.begin_object()?;
        put_field::<bool, Plain>(out, "fallible", &value.fallible)?;
        put_field::<SharedActionFnDefnKind, Form>(out, "kind", &value.kind)?;
        put_field::<SharedType, Form>(out, "ret_type", &value.ret_type)?;
        out.end_object()
    }
}

impl Puts<SharedActionFnDefnKind> for Form {
    ghost form = { λ k. action_kind_form (shared_kind_view k) };

    fn put(out: &mut Writer, value: &SharedActionFnDefnKind) -> Result<(), AllocError> {
        match value {
            SharedActionFnDefnKind::User(action) => {
                put_variant::<SharedUserActionFnDefn, Form>(out, "User", action)
            }
            SharedActionFnDefnKind::Lookaround(action) => {
                put_variant::<LookaroundActionFnDefn, Form>(out, "Lookaround", action)
            }
        }
    }
}

impl Puts<SharedUserActionFnDefn> for Form {
    ghost form = { λ d. held_form (shared_user_view d) };

    fn put(out: &mut Writer, value: &SharedUserActionFnDefn) -> Result<(), AllocError> {
        out.begin_object()?;
        put_list_field::<ArgPattern, Form>(out, "arg_patterns", &value.arg_patterns)?;
        put_list_field::<SharedType, Form>(out, "arg_types", &value.arg_types)?;
        put_field::<String, Plain>(out, "code", &value.code)?;
        out.end_object()
    }
}
