//! The check of the `<>` of an action code.
ghost use Rattle.std.specs.Prelude.{◌≡◌, option_map};
ghost use Rattle.lalrpop_norm_faults.specs.Faults.{Refuses};
ghost use Rattle.lalrpop_norm_tree.specs.Items.{action_view, alternative_view};
ghost use Rattle.lalrpop_norm_model.specs.LoweringFaults.{code_in, code_faults};

use lalrpop_norm_common::norm_util::{Symbols, analyze_expr};
use lalrpop_norm_faults::NormResult;
use lalrpop_norm_lower_steps::placeholders::slots;
use lalrpop_norm_lower_steps::refusals::check_count;
use lalrpop_norm_tree::grammar::parse_tree::{ActionKind, Alternative};
use std::alloc::Global;

/// Rejects an alternative without named and tuple symbols whose action code has several `<>`, not as many as it has sources.
pub(crate) fn check_code(alloc: Global, alternative: &Alternative) -> NormResult<()>
    ensures { Refuses result (code_faults (alternative_view alternative.now)) }
{
    let count = slots(code_in(&alternative.action));
    if count < 2 {
        return Ok(());
    }
    match analyze_expr(alloc, &alternative.expr)? {
        Symbols::Named(_) => Ok(()),
        Symbols::Anon(sources) => check_count(alloc, alternative.span, count, &sources),
    }
}

fn code_in(action: &Option<ActionKind>) -> &str
    ensures { result.now ≡ code_in (option_map action_view action.now) }
{
    match action {
        Some(ActionKind::User(code)) => code.as_str(),
        Some(ActionKind::Fallible(code)) => code.as_str(),
        Some(ActionKind::Lookahead) => "",
        Some(ActionKind::Lookbehind) => "",
        None => "",
    }
}
