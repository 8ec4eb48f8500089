//! What is read off the action code.
ghost use Rattle.std.specs.Prelude.{◌≡◌, option_map};
ghost use Rattle.lalrpop_norm_tree.specs.Items.{action_view};
ghost use Rattle.lalrpop_norm_shared_types.specs.Shared.{shared_view};
ghost use Rattle.lalrpop_norm_lower_steps.specs.Code.{absent_code, written_code, is_fallible};

use lalrpop_norm_shared_types::shared::SharedType;
use lalrpop_norm_tree::grammar::parse_tree::{ActionKind, Atom};

/// Whether an action may fail, by how its action code is written.
pub fn is_fallible(action: &Option<ActionKind>) -> bool
    ensures { result ≡ is_fallible (option_map action_view action.now) }
{
    match action {
        Some(ActionKind::Fallible(_)) => true,
        Some(ActionKind::User(_)) => false,
        Some(ActionKind::Lookahead) => false,
        Some(ActionKind::Lookbehind) => false,
        None => false,
    }
}

/// The action code over sources of these names, for a rule of that type: as it is written, or the default where it is absent.
pub fn written_code<'a>(ty: &SharedType, names: &[Atom], action: &'a Option<ActionKind>) -> &'a str
    ensures { result.now ≡ written_code (shared_view ty.now) names.now (option_map action_view action.now) }
{
    match action {
        Some(ActionKind::User(code)) => code.as_str(),
        Some(ActionKind::Fallible(code)) => code.as_str(),
        Some(ActionKind::Lookahead) => absent_code(ty, names),
        Some(ActionKind::Lookbehind) => absent_code(ty, names),
        None => absent_code(ty, names),
    }
}

fn absent_code(ty: &SharedType, names: &[Atom]) -> &'static str
    ensures { result.now ≡ absent_code (shared_view ty.now) names.now }
{
    if ty.is_unit() {
        return "()";
    }
    if names.len() == 1 { "<>" } else { "(<>)" }
}
