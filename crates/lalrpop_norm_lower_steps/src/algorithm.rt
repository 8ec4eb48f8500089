//! How a parser is to be made.
ghost use Rattle.std.specs.Prelude.{◌≡◌, true};
ghost use Rattle.lalrpop_norm_tree_parts.specs.Attributes.{attributes_view};
ghost use Rattle.lalrpop_norm_model.specs.Expanded.{all_known};
ghost use Rattle.lalrpop_norm_lower_steps.specs.Algorithm.{asks_lalr, asked_code};

use lalrpop_norm_repr::grammar::repr::Algorithm;
use lalrpop_norm_tree::grammar::parse_tree::{Attribute, read_algorithm};

/// The algorithm that the attributes ask for.
pub fn algorithm_of(attributes: &[Attribute]) -> Algorithm
    requires { all_known (attributes_view attributes.now) ≡ true }
    ensures lalr { result.lalr ≡ asks_lalr (attributes_view attributes.now) }
    ensures codegen { result.codegen ≡ asked_code (attributes_view attributes.now) }
{
    let mut algorithm = Algorithm::default();
    read_algorithm(attributes, &mut algorithm);
    algorithm
}
