//! The texts of actions.
ghost use Rattle.std.specs.Prelude.{Some, map, codes, ◌++◌};
ghost use Rattle.std.specs.Fmt.{WritesOnOk};
ghost use Rattle.std.specs.List.{flat_map, zip};
ghost use Rattle.lalrpop_norm_tree_parts.specs.Reprs.{repr_view};
ghost use Rattle.lalrpop_norm_tree.specs.Symbols.{argument_pattern_view};
ghost use Rattle.lalrpop_norm_tree_names.specs.Texts.{joined};
ghost use Rattle.lalrpop_norm_tree_parts.specs.TypeTexts.{repr_text};
ghost use Rattle.lalrpop_norm_repr.specs.Actions.{action_defn_view, inlined_symbol_view, user_action_view};
ghost use Rattle.lalrpop_norm_repr.specs.ReprTexts.{action_defn_text, action_kind_text, argument_text, inline_text, lookaround_text};
ghost use Rattle.lalrpop_norm_repr.specs.ReprTexts.{typed_text};

use super::{
    ActionFnDefn, ActionFnDefnKind, InlineActionFnDefn, InlinedSymbol, LookaroundActionFnDefn,
    UserActionFnDefn,
};
use crate::production::show_symbols;
use lalrpop_norm_tree::grammar::parse_tree::ArgPattern;
use lalrpop_norm_tree::grammar::repr::TypeRepr;
use std::fmt;

impl fmt::Debug for ActionFnDefn {
    ghost debug_output = { λ d. Some (action_defn_text (action_defn_view d)) };

    fn fmt<W: fmt::Write>(&self, f: &mut fmt::Formatter<W>) -> fmt::Result {
        match &self.kind {
            ActionFnDefnKind::User(action) => show_user(action, &self.ret_type, f),
            ActionFnDefnKind::Inline(action) => show_inline(action, f),
            ActionFnDefnKind::Lookaround(action) => fmt::Debug::fmt(action, f),
        }
    }
}

/// `fn _(p: T, q: U) -> R { code }`.
fn show_user<W: fmt::Write>(
    action: &UserActionFnDefn,
    ret: &TypeRepr,
    f: &mut fmt::Formatter<W>,
) -> fmt::Result
    ensures { WritesOnOk W.write_str_gives f.old result
        (action_kind_text (user_action_view action.now) (repr_view ret.now)) f.new }
{
    show_signature(action, ret, f)?;
    f.write_str(" { ")?;
    fmt::Display::fmt(&action.code, f)?;
    f.write_str(" }")
}

/// `fn _(p: T, q: U) -> R`.
fn show_signature<W: fmt::Write>(
    action: &UserActionFnDefn,
    ret: &TypeRepr,
    f: &mut fmt::Formatter<W>,
) -> fmt::Result
    ensures { WritesOnOk W.write_str_gives f.old result
        (codes "fn _(" ++ joined (codes ", ") (map typed_text (zip (map argument_pattern_view action.now.arg_patterns.items)
        (map repr_view action.now.arg_types.items))) ++ codes ") -> " ++ repr_text (repr_view ret.now)) f.new }
{
    f.write_str("fn _(")?;
    show_typed(&action.arg_patterns, &action.arg_types, f)?;
    f.write_str(") -> ")?;
    fmt::Display::fmt(ret, f)
}

/// `fn _(..) { ActionFn(22)(Y, ActionFn(44)(B, C)) }`.
fn show_inline<W: fmt::Write>(action: &InlineActionFnDefn, f: &mut fmt::Formatter<W>) -> fmt::Result
    ensures { WritesOnOk W.write_str_gives f.old result
        (inline_text action.now.action (map inlined_symbol_view action.now.symbols.items)) f.new }
{
    f.write_str("fn _(..) { ")?;
    fmt::Debug::fmt(&action.action, f)?;
    f.write_str("(")?;
    show_arguments(&action.symbols, f)?;
    f.write_str(") }")
}

impl fmt::Debug for LookaroundActionFnDefn {
    ghost debug_output = { λ l. Some (lookaround_text l) };

    fn fmt<W: fmt::Write>(&self, f: &mut fmt::Formatter<W>) -> fmt::Result {
        match self {
            LookaroundActionFnDefn::Lookahead => f.write_str("Lookahead"),
            LookaroundActionFnDefn::Lookbehind => f.write_str("Lookbehind"),
        }
    }
}

/// Each pattern with its type, with `, ` between each two.
fn show_typed<W: fmt::Write>(
    patterns: &[ArgPattern],
    types: &[TypeRepr],
    f: &mut fmt::Formatter<W>,
) -> fmt::Result
    ensures { WritesOnOk W.write_str_gives f.old result
        (joined (codes ", ") (map typed_text (zip (map argument_pattern_view patterns.now) (map repr_view types.now)))) f.new }
{
    match (patterns.split_first(), types.split_first()) {
        (Some((pattern, patterns)), Some((ty, types))) => {
            show_argument(pattern, ty, f)?;
            show_others(patterns, types, f)
        }
        (Some(_), None) => Ok(()),
        (None, _) => Ok(()),
    }
}

/// Each pattern with its type, with `, ` before it.
fn show_others<W: fmt::Write>(
    patterns: &[ArgPattern],
    types: &[TypeRepr],
    f: &mut fmt::Formatter<W>,
) -> fmt::Result
    ensures { WritesOnOk W.write_str_gives f.old result
        (flat_map (λ p. codes ", " ++ typed_text p) (zip (map argument_pattern_view patterns.now) (map repr_view types.now))) f.new }
{
    for (pattern, ty) in patterns.iter().zip(types) {
        f.write_str(", ")?;
        show_argument(pattern, ty, f)?;
    }
    Ok(())
}

/// `p: T`.
fn show_argument<W: fmt::Write>(
    pattern: &ArgPattern,
    ty: &TypeRepr,
    f: &mut fmt::Formatter<W>,
) -> fmt::Result
    ensures { WritesOnOk W.write_str_gives f.old result
        (typed_text (argument_pattern_view pattern.now, repr_view ty.now)) f.new }
{
    fmt::Display::fmt(pattern, f)?;
    f.write_str(": ")?;
    fmt::Display::fmt(ty, f)
}

/// `A`, or `ActionFn(44)(B, C)`.
fn show_inlined<W: fmt::Write>(symbol: &InlinedSymbol, f: &mut fmt::Formatter<W>) -> fmt::Result
    ensures { WritesOnOk W.write_str_gives f.old result (argument_text (inlined_symbol_view symbol.now)) f.new }
{
    match symbol {
        InlinedSymbol::Original(symbol) => fmt::Display::fmt(symbol, f),
        InlinedSymbol::Inlined(action, symbols) => {
            fmt::Debug::fmt(action, f)?;
            f.write_str("(")?;
            show_symbols(symbols, f)?;
            f.write_str(")")
        }
    }
}

/// The arguments with `, ` between each two.
fn show_arguments<W: fmt::Write>(
    arguments: &[InlinedSymbol],
    f: &mut fmt::Formatter<W>,
) -> fmt::Result
    ensures { WritesOnOk W.write_str_gives f.old result
        (joined (codes ", ") (map argument_text (map inlined_symbol_view arguments.now))) f.new }
{
    if let Some((first, others)) = arguments.split_first() {
        show_inlined(first, f)?;
        for other in others {
            f.write_str(", ")?;
            show_inlined(other, f)?;
        }
    }
    Ok(())
}
