//! The patterns of conversions.
ghost use Rattle.std.specs.Prelude.{◌≡◌, IfOk};
ghost use Rattle.lalrpop_norm_tree_patterns.specs.Patterns.{pattern_view};
ghost use Rattle.lalrpop_norm_tree_parts.specs.Reprs.{repr_view};
ghost use Rattle.lalrpop_norm_tree.specs.LoweredTypes.{repr_of};
ghost use Rattle.lalrpop_norm_tree.specs.Types.{type_view};
ghost use Rattle.lalrpop_norm_lower.specs.Conversions.{mapped_pattern};

use lalrpop_norm_tree::grammar::parse_tree::{NoMemory, TypeRef};
use lalrpop_norm_tree::grammar::pattern::Pattern;
use lalrpop_norm_tree::grammar::repr::TypeRepr;
use std::alloc::Global;

/// The pattern with its selected types lowered.
pub(crate) fn lowered_pattern(
    alloc: Global,
    pattern: &Pattern<TypeRef>,
) -> Result<Pattern<TypeRepr>, NoMemory>
    ensures { IfOk result (λ p. pattern_view repr_view p ≡ mapped_pattern repr_of (pattern_view type_view pattern.now)) }
{
    pattern.map(&mut |ty: &TypeRef| ty.lowered(alloc))
}
