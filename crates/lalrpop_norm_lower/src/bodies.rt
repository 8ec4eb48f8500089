//! What the actions of alternatives do.
ghost use Rattle.std.specs.Prelude.{◌≡◌, [], IfOk, option_map, string_bytes};
ghost use Rattle.lalrpop_norm_tree.specs.Items.{action_view, alternative_view};
ghost use Rattle.lalrpop_norm_tree.specs.Symbols.{expr_view};
ghost use Rattle.lalrpop_norm_model.specs.LoweringFaults.{code_faults};
ghost use Rattle.lalrpop_norm_shared_types.specs.Actions.{shared_action_view, shared_kind_view, shared_user_view};
ghost use Rattle.lalrpop_norm_shared_types.specs.Shared.{shared_view};
ghost use Rattle.lalrpop_norm_lower.specs.ActionContexts.{context_types, action_by};
ghost use Rattle.lalrpop_norm_lower.specs.Made.{made_code, body, user_body};
ghost use Rattle.lalrpop_norm_lower.specs.Sourced.{AreSourcesOf};

use crate::action_context::ActionContext;
use crate::actions::symbol_types;
use crate::arguments::{Sources, argument_patterns, put_source_names};
use lalrpop_norm_lower_steps::code::{is_fallible, written_code};
use lalrpop_norm_lower_steps::placeholders::{filled, has_slot};
use lalrpop_norm_repr::grammar::repr::LookaroundActionFnDefn;
use lalrpop_norm_shared_types::action::{
    SharedActionFnDefn, SharedActionFnDefnKind, SharedUserActionFnDefn,
};
use lalrpop_norm_shared_types::shared::SharedType;
use lalrpop_norm_tree::grammar::parse_tree::{ActionKind, Alternative, Atom, NoMemory};

/// The action of an alternative of a rule of that type. The list is room for names.
pub(crate) fn made_action(
    context: &ActionContext,
    ty: &SharedType,
    alternative: &Alternative,
    names: &mut Vec<Atom>,
) -> Result<SharedActionFnDefn, NoMemory>
    requires { code_faults (alternative_view alternative.now) ≡ [] }
    ensures { IfOk result (λ d.
        shared_action_view d ≡ action_by context.now (shared_view ty.now) (alternative_view alternative.now)) }
{
    let kind = body(context, ty, alternative, names)?;
    let ret_type = ty.clone()?;
    let fallible = is_fallible(&alternative.action);
    Ok(SharedActionFnDefn {
        fallible,
        ret_type,
        kind,
    })
}

fn body(
    context: &ActionContext,
    ty: &SharedType,
    alternative: &Alternative,
    names: &mut Vec<Atom>,
) -> Result<SharedActionFnDefnKind, NoMemory>
    requires { code_faults (alternative_view alternative.now) ≡ [] }
    ensures { IfOk result (λ k. shared_kind_view k
        ≡ body context.now.prefix.now (context_types context.now) (shared_view ty.now) (alternative_view alternative.now)
        (option_map action_view alternative.now.action)) }
{
    match &alternative.action {
        Some(ActionKind::Lookahead) => Ok(SharedActionFnDefnKind::Lookaround(
            LookaroundActionFnDefn::Lookahead,
        )),
        Some(ActionKind::Lookbehind) => Ok(SharedActionFnDefnKind::Lookaround(
            LookaroundActionFnDefn::Lookbehind,
        )),
        Some(ActionKind::User(_) | ActionKind::Fallible(_)) | None => {
            let action = user_body(context, ty, alternative, names)?;
            Ok(SharedActionFnDefnKind::User(action))
        }
    }
}

/// Action code over one argument for each symbol.
fn user_body(
    context: &ActionContext,
    ty: &SharedType,
    alternative: &Alternative,
    names: &mut Vec<Atom>,
) -> Result<SharedUserActionFnDefn, NoMemory>
    requires { code_faults (alternative_view alternative.now) ≡ [] }
    ensures { IfOk result (λ d. shared_user_view d
        ≡ user_body context.now.prefix.now (context_types context.now) (shared_view ty.now) (alternative_view alternative.now)) }
{
    let expr = &alternative.expr;
    let sources = Sources::among(&expr.symbols);
    let arg_patterns = argument_patterns(context.alloc, context.prefix, sources, &expr.symbols)?;
    let arg_types = symbol_types(context.alloc, context.types, &expr.symbols)?;
    let code = code_of(context, ty, sources, alternative, names)?;
    Ok(SharedUserActionFnDefn {
        arg_patterns,
        arg_types,
        code,
    })
}

/// The action code of an alternative with these sources. Their names are put together only where one of them may occur in it.
fn code_of(
    context: &ActionContext,
    ty: &SharedType,
    sources: Sources,
    alternative: &Alternative,
    names: &mut Vec<Atom>,
) -> Result<String, NoMemory>
    requires sources { AreSourcesOf (expr_view alternative.now.expr) sources }
    requires counted { code_faults (alternative_view alternative.now) ≡ [] }
    ensures { IfOk result (λ s.
        string_bytes s ≡ made_code context.now.prefix.now (shared_view ty.now) (alternative_view alternative.now)) }
{
    let nameless = written_code(ty, &[], &alternative.action);
    if !has_slot(nameless) {
        return Ok(String::from_str(context.alloc, nameless)?);
    }
    let symbols = &alternative.expr.symbols;
    put_source_names(context.alloc, context.prefix, sources, symbols, names)?;
    let written = written_code(ty, names, &alternative.action);
    filled(context.alloc, sources.some_named, names, written)
}
