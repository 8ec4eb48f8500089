//! Alternatives that the features of a session leave.
ghost use Rattle.std.specs.Prelude.{◌≡◌, map};
ghost use Rattle.lalrpop_norm_tree.specs.Items.{alternative_view};
ghost use Rattle.lalrpop_norm_common.specs.Sessions.{features_view};
ghost use Rattle.lalrpop_norm_prevalidate_attributes.specs.EnabledAlternatives.{active_alternatives};

use lalrpop_norm_common::{Session, cfg_active};
use lalrpop_norm_tree::grammar::parse_tree::Alternative;

/// Takes out the alternatives of a rule that the features turn off.
pub fn retain_alternatives<L>(session: &Session<L>, alternatives: &mut Vec<Alternative>)
    ensures { map alternative_view alternatives.new.items
        ≡ active_alternatives (features_view session.now.features) (map alternative_view alternatives.old.items) }
{
    alternatives.retain(|alternative| cfg_active(session, &alternative.attributes));
}
