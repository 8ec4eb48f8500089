//! The rules of groups and location symbols.
ghost use Rattle.std.specs.Prelude.{◌≡◌, IfOk, map};
ghost use Rattle.lalrpop_norm_tree.specs.Symbols.{Kind, group, parts_view};
ghost use Rattle.lalrpop_norm_tree.specs.SymbolTexts.{kind_text};
ghost use Rattle.lalrpop_norm_tree.specs.Types.{type_view};
ghost use Rattle.lalrpop_norm_tree.specs.Items.{rule_view, action_view};
ghost use Rattle.lalrpop_norm_model.specs.MadeRules.{group_rule, location_rule, bare_or_tuple};
ghost use Rattle.lalrpop_norm_model.specs.Replaced.{all_replaced};

use crate::rules::{Head, coded, inline_at, private_rule};
use crate::sources::group_values;
use lalrpop_norm_tree::grammar::parse_tree::{
    ActionKind, Alternative, ExprSymbol, NoMemory, NonterminalData, Symbol, TypeRef,
};
use std::alloc::Global;

/// One type bare, any other number of them as a tuple.
fn bare_or_tuple(mut types: Vec<TypeRef>) -> TypeRef
    ensures { type_view result ≡ bare_or_tuple (map type_view types.items) }
{
    if types.len() == 1 {
        if let Some(only) = types.pop() {
            return only;
        }
    }
    TypeRef::Tuple(types)
}

/// The rule of a group of these symbols: inline, with one alternative that gives their values. The only error is a failed
/// allocation.
pub fn group_rule(
    alloc: Global,
    head: Head,
    symbols: Vec<Symbol>,
) -> Result<NonterminalData, NoMemory>
    requires name { head.name ≡ kind_text (group (parts_view symbols.items)) }
    // What is desugared is rewritten in them.
    requires replaced { all_replaced (parts_view symbols.items) ≡ parts_view symbols.items }
    ensures { IfOk result (λ r. rule_view r ≡ group_rule head.span (parts_view symbols.items)) }
{
    let (types, code) = group_values(alloc, &symbols)?;
    let alternative = coded(alloc, head.span, symbols, code)?;
    let alternatives = vec![in alloc; alternative]?;
    let inline = inline_at(alloc, head.span)?;
    Ok(private_rule(
        alloc,
        head,
        inline,
        Some(bare_or_tuple(types)),
        alternatives,
    ))
}

/// The rule of a location symbol: inline, with one empty alternative that has this action. The only error is a failed allocation.
pub fn location_rule(
    alloc: Global,
    head: Head,
    action: ActionKind,
) -> Result<NonterminalData, NoMemory>
    ensures { IfOk result (λ r. (k : Kind) → head.name ≡ kind_text k
        → rule_view r ≡ location_rule head.span k (action_view action)) }
{
    let empty = Alternative {
        span: head.span,
        expr: ExprSymbol {
            symbols: Vec::new(alloc),
        },
        condition: None,
        action: Some(action),
        attributes: Vec::new(alloc),
    };
    let alternatives = vec![in alloc; empty]?;
    let inline = inline_at(alloc, head.span)?;
    Ok(private_rule(alloc, head, inline, None, alternatives))
}
