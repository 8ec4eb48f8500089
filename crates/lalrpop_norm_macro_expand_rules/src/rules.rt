//! Parts that generated rules have in common.
ghost use Rattle.std.specs.Prelude.{◌≡◌, IfOk, map, option_map};
ghost use Rattle.lalrpop_norm_tree_parts.specs.Attributes.{attributes_view};
ghost use Rattle.lalrpop_norm_tree.specs.Symbols.{repeated, kind_view, symbol_view, parts_view};
ghost use Rattle.lalrpop_norm_tree.specs.Types.{type_view};
ghost use Rattle.lalrpop_norm_tree.specs.Items.{alternative_view, rule_view};
ghost use Rattle.lalrpop_norm_model.specs.MadeRules.{inline_at, coded};
ghost use Rattle.lalrpop_norm_macro_expand_rules.specs.Rules.{named_rule};

use lalrpop_norm_tree::grammar::parse_tree::{
    ActionKind, Alternative, Atom, Attribute, AttributeArg, ExprSymbol, NoMemory, NonterminalData,
    NonterminalString, RepeatOp, RepeatSymbol, Span, Symbol, SymbolKind, TypeRef, Visibility,
};
use std::alloc::Global;

/// The head of a generated rule.
#[derive(Drop)]
pub struct Head {
    /// Its name, the text of its symbol.
    pub name: Atom,
    /// The span at which its symbol was first reached.
    pub span: Span,
}

/// The attribute `inline`, at that span.
pub fn inline_at(alloc: Global, span: Span) -> Result<Vec<Attribute>, NoMemory>
    ensures { IfOk result (λ v. attributes_view v.items ≡ inline_at span) }
{
    let inline = Attribute {
        id_span: span,
        id: Atom::new(alloc, "inline")?,
        arg: AttributeArg::Empty,
    };
    Ok(vec![in alloc; inline]?)
}

/// An alternative with that action code.
pub fn coded(
    alloc: Global,
    span: Span,
    symbols: Vec<Symbol>,
    code: &str,
) -> Result<Alternative, NoMemory>
    ensures { IfOk result (λ a. alternative_view a ≡ coded span (parts_view symbols.items) code.now) }
{
    let code = String::from_str(alloc, code)?;
    Ok(Alternative {
        span,
        expr: ExprSymbol { symbols },
        condition: None,
        action: Some(ActionKind::User(code)),
        attributes: Vec::new(alloc),
    })
}

/// A private rule.
pub fn private_rule(
    alloc: Global,
    head: Head,
    attributes: Vec<Attribute>,
    type_decl: Option<TypeRef>,
    alternatives: Vec<Alternative>,
) -> NonterminalData
    ensures { rule_view result ≡ named_rule head.name head.span (attributes_view attributes.items)
        (option_map type_view type_decl) (map alternative_view alternatives.items) }
{
    NonterminalData {
        visibility: Visibility::Priv,
        name: NonterminalString(head.name),
        attributes,
        span: head.span,
        args: Vec::new(alloc),
        type_decl,
        alternatives,
    }
}

/// A repeat of that symbol.
pub fn repeat_of(alloc: Global, op: RepeatOp, symbol: Symbol) -> Result<SymbolKind, NoMemory>
    ensures { IfOk result (λ k. kind_view k ≡ repeated op (symbol_view symbol)) }
{
    let repeat = Box::new(alloc, RepeatSymbol { op, symbol })?;
    Ok(SymbolKind::Repeat(repeat))
}
