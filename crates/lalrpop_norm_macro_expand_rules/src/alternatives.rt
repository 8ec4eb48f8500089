//! Alternatives of a macro, and its type with the arguments of a call substituted.
ghost use Rattle.std.specs.Prelude.{◌≡◌, None, IfOk, option_map};
ghost use Rattle.lalrpop_norm_tree.specs.Symbols.{parts_view};
ghost use Rattle.lalrpop_norm_tree.specs.Types.{type_view};
ghost use Rattle.lalrpop_norm_tree.specs.Items.{alternative_view};
ghost use Rattle.lalrpop_norm_model.specs.MadeRules.{type_substituted, instance_alternative};
ghost use Rattle.lalrpop_norm_model.specs.Replaced.{all_replaced};
ghost use Rattle.lalrpop_norm_macro_expand_rules.specs.Bound.{argument_in, AreByNumber};

use crate::copied::all_copied;
use crate::substituted::{Bindings, declared_type};
use lalrpop_norm_tree::grammar::copy::copy_action;
use lalrpop_norm_tree::grammar::parse_tree::{Alternative, ExprSymbol, NoMemory, Span, TypeRef};
use lalrpop_norm_tree_parts::attribute::copy::copy_attributes;
use std::alloc::Global;

/// An alternative at the call's span, as it is written but for its condition. An identifier is a name from there on.
pub fn copied_alternative(
    alloc: Global,
    span: Span,
    alternative: &Alternative,
) -> Result<Alternative, NoMemory>
    ensures { IfOk result (λ a. alternative_view a ≡ instance_alternative span (λ n. None) (alternative_view alternative.now)) }
{
    let symbols = all_copied(alloc, &alternative.expr.symbols)?;
    let action = copy_action(&alternative.action)?;
    let attributes = copy_attributes(&alternative.attributes)?;
    Ok(Alternative {
        span,
        expr: ExprSymbol { symbols },
        condition: None,
        action,
        attributes,
    })
}

/// The declared type with the arguments substituted.
pub fn instance_type(
    alloc: Global,
    bindings: &Bindings,
    ty: &Option<TypeRef>,
) -> Result<Option<TypeRef>, NoMemory>
    requires numbers { AreByNumber bindings.now }
    // What is desugared is rewritten in the arguments.
    requires replaced { all_replaced (parts_view bindings.now.symbols.now) ≡ parts_view bindings.now.symbols.now }
    ensures { IfOk result (λ t. option_map type_view t
        ≡ option_map (type_substituted (argument_in bindings.now)) (option_map type_view ty.now)) }
{
    match ty {
        None => Ok(None),
        Some(ty) => Ok(Some(declared_type(alloc, bindings, ty)?)),
    }
}
