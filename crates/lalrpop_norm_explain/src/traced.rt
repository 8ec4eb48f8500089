//! A lowered grammar with the origin of each production.
ghost use Rattle.std.specs.Prelude.{◌≡◌};
ghost use Rattle.lalrpop_norm_theory.specs.LoweredTrees.{from_start};
ghost use Rattle.lalrpop_norm_origins.specs.Origins.{origin_view};

pub(crate) mod lookups;

use lalrpop_norm_origins::Origin;
use lalrpop_norm_repr::grammar::repr::Grammar;
use lalrpop_norm_tree_names::names::NonterminalString;
use std::collections::BTreeSet;

/// A lowered grammar with the origins of its productions, and the names at which trees may begin.
#[derive(Drop)]
pub struct Traced {
    grammar: Grammar,
    /// By the numbers of the actions.
    origins: Vec<Origin>,
    rules: BTreeSet<NonterminalString>,
    /// The default for an origin that is not there.
    start: Origin,
    ghost begins: { origin_view start ≡ from_start },
}
