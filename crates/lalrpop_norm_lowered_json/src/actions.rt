//! Actions.
ghost use Rattle.std.specs.Prelude.{◌≡◌};
ghost use Rattle.lalrpop_norm_repr.specs.Actions.{action_kind_view, user_action_view, inline_action_view};
ghost use Rattle.lalrpop_norm_lowered_json.specs.WholeForms.{action_kind_form, held_form, lookaround_form};

use crate::put::Form;
use json::Writer;
use lalrpop_norm_lowered_json_tables::put::{
    Plain, Puts, begin_variant, put_field, put_list, put_list_field, put_variant,
};
use lalrpop_norm_repr::grammar::repr::{
    ActionFn, ActionFnDefn, ActionFnDefnKind, ArgPattern, InlineActionFnDefn, InlinedSymbol,
    LookaroundActionFnDefn, Symbol, TypeRepr, UserActionFnDefn,
};
use std::alloc::AllocError;

impl Puts<ActionFnDefn> for Form {
    ghost use Rattle.lalrpop_norm_repr.specs.Actions.{action_defn_view};
    ghost use Rattle.lalrpop_norm_lowered_json.specs.WholeForms.{action_defn_form};

    ghost form = { λ d. action_defn_form (action_defn_view d) };

    fn put(out: &mut Writer, value: &ActionFnDefn) -> Result<(), AllocError> {
        out.begin_object()?;
        put_field::<bool, Plain>(out, "fallible", &value.fallible)?;
        put_field::<ActionFnDefnKind, Form>(out, "kind", &value.kind)?;
        put_field::<TypeRepr, Form>(out, "ret_type", &value.ret_type)?;
        out.end_object()
    }
}

impl Puts<ActionFnDefnKind> for Form {
    ghost form = { λ k. action_kind_form (action_kind_view k) };

    fn put(out: &mut Writer, value: &ActionFnDefnKind) -> Result<(), AllocError> {
        match value {
            ActionFnDefnKind::User(action) => {
                put_variant::<UserActionFnDefn, Form>(out, "User", action)
            }
            ActionFnDefnKind::Inline(action) => {
                put_variant::<InlineActionFnDefn, Form>(out, "Inline", action)
            }
            ActionFnDefnKind::Lookaround(action) => {
                put_variant::<LookaroundActionFnDefn, Form>(out, "Lookaround", action)
            }
        }
    }
}

impl Puts<UserActionFnDefn> for Form {
    ghost form = { λ d. held_form (user_action_view d) };

    fn put(out: &mut Writer, value: &UserActionFnDefn) -> Result<(), AllocError> {
        out.begin_object()?;
        put_list_field::<ArgPattern, Form>(out, "arg_patterns", &value.arg_patterns)?;
        put_list_field::<TypeRepr, Form>(out, "arg_types", &value.arg_types)?;
        put_field::<String, Plain>(out, "code", &value.code)?;
        out.end_object()
    }
}

impl Puts<InlineActionFnDefn> for Form {
    ghost form = { λ d. held_form (inline_action_view d) };

    fn put(out: &mut Writer, value: &InlineActionFnDefn) -> Result<(), AllocError> {
        out.begin_object()?;
        put_field::<ActionFn, Plain>(out, "action", &value.action)?;
        put_list_field::<InlinedSymbol, Form>(out, "symbols", &value.symbols)?;
        out.end_object()
    }
}

impl Puts<LookaroundActionFnDefn> for Form {
    ghost form = { lookaround_form };

    fn put(out: &mut Writer, value: &LookaroundActionFnDefn) -> Result<(), AllocError> {
        match value {
            LookaroundActionFnDefn::Lookahead => out.string("Lookahead"),
            LookaroundActionFnDefn::Lookbehind => out.string("Lookbehind"),
        }
    }
}

impl Puts<InlinedSymbol> for Form {
    ghost use Rattle.lalrpop_norm_repr.specs.Actions.{inlined_symbol_view};
    ghost use Rattle.lalrpop_norm_lowered_json.specs.WholeForms.{inlined_form};

    ghost form = { λ s. inlined_form (inlined_symbol_view s) };

    fn put(out: &mut Writer, value: &InlinedSymbol) -> Result<(), AllocError> {
        match value {
            InlinedSymbol::Original(symbol) => {
                put_variant::<Symbol, Plain>(out, "Original", symbol)
            }
            InlinedSymbol::Inlined(action, symbols) => {
                begin_variant(out, "Inlined")?;
                out.begin_array()?;
                out.u64(action.index() as u64)?;
                put_list::<Symbol, Plain>(out, symbols)?;
                out.end_array()?;
                out.end_object()
            }
        }
    }
}
