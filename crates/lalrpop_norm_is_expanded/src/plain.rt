//! The rules of an expanded grammar (no macros, no repeats), and their names.
ghost use Rattle.std.specs.Prelude.{◌≡◌, map, option_map};
ghost use Rattle.std.specs.List.{list_all};
ghost use Rattle.lalrpop_norm_tree.specs.Items.{alternative_view, item_view, rule_view};
ghost use Rattle.lalrpop_norm_tree.specs.Symbols.{expr_view, kind_view, parts_view, symbol_view};
ghost use Rattle.lalrpop_norm_tree.specs.Types.{maybe_of, type_view, types_view};
ghost use Rattle.lalrpop_norm_model.specs.Expanded.{is_plain_leaf};
ghost use Rattle.lalrpop_norm_is_expanded.specs.Plain.{is_rule_there, is_rule_named, is_named_again, is_no_name_twice};
ghost use Rattle.lalrpop_norm_is_expanded.specs.Plain.{is_usable_kind, is_usable, are_usable, is_usable_in, are_usable_in};
ghost use Rattle.lalrpop_norm_is_expanded.specs.Plain.{is_usable_return, is_usable_declared, is_usable_alternative};
ghost use Rattle.lalrpop_norm_is_expanded.specs.Plain.{is_usable_rule, is_usable_item};

use crate::tokens::is_plain_terminal;
use lalrpop_norm_tree::grammar::parse_tree::{
    Alternative, ExprSymbol, GrammarItem, GrammarSymbol, NonterminalData, NonterminalString,
    Symbol, SymbolKind, TypeRef,
};

/// Whether each rule is plain, and what it names has a rule.
pub(crate) fn are_rules_plain(items: &[GrammarItem]) -> bool
    ensures { result ≡ list_all (is_usable_item (map item_view items.now)) (map item_view items.now) }
{
    for item in items {
        if !is_usable_item(items, item) {
            return false;
        }
    }
    true
}

fn is_usable_item(items: &[GrammarItem], item: &GrammarItem) -> bool
    ensures { result ≡ is_usable_item (map item_view items.now) (item_view item.now) }
{
    match item {
        GrammarItem::Nonterminal(rule) => is_usable_rule(items, rule),
        GrammarItem::MatchToken(_)
        | GrammarItem::ExternToken(_)
        | GrammarItem::InternToken(_)
        | GrammarItem::Use(_) => true,
    }
}

fn is_usable_rule(items: &[GrammarItem], rule: &NonterminalData) -> bool
    ensures { result ≡ is_usable_rule (map item_view items.now) (rule_view rule.now) }
{
    rule.args.is_empty()
        && is_usable_declared(items, &rule.type_decl)
        && are_alternatives_usable(items, &rule.alternatives)
}

fn are_alternatives_usable(items: &[GrammarItem], alternatives: &[Alternative]) -> bool
    ensures { result ≡ list_all (is_usable_alternative (map item_view items.now)) (map alternative_view alternatives.now) }
{
    for alternative in alternatives {
        if !is_usable_alternative(items, alternative) {
            return false;
        }
    }
    true
}

fn is_usable_alternative(items: &[GrammarItem], alternative: &Alternative) -> bool
    ensures { result ≡ is_usable_alternative (map item_view items.now) (alternative_view alternative.now) }
{
    alternative.condition.is_none() && is_usable_expr(items, &alternative.expr)
}

fn is_usable_expr(items: &[GrammarItem], expr: &ExprSymbol) -> bool
    ensures { result ≡ are_usable (map item_view items.now) (expr_view expr.now) }
{
    are_usable(items, &expr.symbols)
}

fn are_usable(items: &[GrammarItem], symbols: &[Symbol]) -> bool
    ensures { result ≡ are_usable (map item_view items.now) (parts_view symbols.now) }
{
    for symbol in symbols {
        if !is_usable(items, symbol) {
            return false;
        }
    }
    true
}

/// A plain symbol, and what it names has a rule.
#[tactic(auto, using(crate::proofs::PlainLemmas::usable_unwrapped))]
fn is_usable(items: &[GrammarItem], symbol: &Symbol) -> bool
    ensures { result ≡ is_usable (map item_view items.now) (symbol_view symbol.now) }
{
    is_usable_leaf(items, &symbol.unwrapped().kind)
}

/// The same of a symbol without its span.
fn is_usable_kind(items: &[GrammarItem], kind: &SymbolKind) -> bool
    ensures { result ≡ is_usable_kind (map item_view items.now) (kind_view kind.now) }
{
    if let Some(inner) = kind.as_selected() {
        return is_usable(items, inner);
    }
    match kind.as_bound() {
        Some((_, inner)) => is_usable(items, inner),
        None => is_usable_leaf(items, kind),
    }
}

/// A terminal other than the error terminal, a nonterminal that has a rule, or `!`.
#[tactic(auto, using(crate::proofs::PlainLemmas::no_leaf))]
fn is_usable_leaf(items: &[GrammarItem], kind: &SymbolKind) -> bool
    ensures { result ≡ is_plain_leaf (is_rule_there (map item_view items.now)) (kind_view kind.now) }
{
    match kind.as_grammar_symbol() {
        Some(GrammarSymbol::Terminal(terminal)) => is_plain_terminal(terminal),
        Some(GrammarSymbol::Nonterminal(name)) => is_rule_there(items, name),
        Some(GrammarSymbol::Error) => true,
        None => false,
    }
}

// ---- declared types

fn is_usable_declared(items: &[GrammarItem], declared: &Option<TypeRef>) -> bool
    ensures { result ≡ is_usable_declared (map item_view items.now) (option_map type_view declared.now) }
{
    match declared {
        Some(ty) => is_usable_in(items, ty),
        None => true,
    }
}

/// Whether each symbol in a type is plain, and what it names has a rule.
#[cycle(types)]
fn is_usable_in(items: &[GrammarItem], ty: &TypeRef) -> bool
    ensures { result ≡ is_usable_in (map item_view items.now) (type_view ty.now) }
{
    match ty {
        TypeRef::OfSymbol(kind) => is_usable_kind(items, kind),
        TypeRef::Tuple(types) => are_usable_in(items, types),
        TypeRef::Slice(element) => is_usable_in(items, element),
        TypeRef::Nominal { path: _, types } => are_usable_in(items, types),
        TypeRef::Ref {
            lifetime: _,
            mutable: _,
            referent,
        } => is_usable_in(items, referent),
        TypeRef::TraitObject { path: _, types } => are_usable_in(items, types),
        TypeRef::Fn {
            forall: _,
            path: _,
            parameters,
            ret,
        } => are_usable_in(items, parameters) && is_usable_return(items, ret),
        TypeRef::Lifetime(_) => true,
        TypeRef::Id(_) => true,
    }
}

#[cycle(types)]
fn are_usable_in(items: &[GrammarItem], types: &[TypeRef]) -> bool
    ensures { result ≡ are_usable_in (map item_view items.now) (types_view types.now) }
{
    for inner in types {
        if !is_usable_in(items, inner) {
            return false;
        }
    }
    true
}

#[cycle(types)]
fn is_usable_return(items: &[GrammarItem], ret: &Option<Box<TypeRef>>) -> bool
    ensures { result ≡ is_usable_return (map item_view items.now) (maybe_of (option_map (λ b. type_view b.value) ret.now)) }
{
    match ret {
        None => true,
        Some(inner) => is_usable_in(items, inner),
    }
}

// ---- names

/// Whether no two rules have one name.
pub(crate) fn are_names_distinct(items: &[GrammarItem]) -> bool
    ensures { result ≡ is_no_name_twice (map item_view items.now) }
{
    for i in 0..items.len() {
        if is_named_again(&items[i], &items[i + 1..]) {
            return false;
        }
    }
    true
}

/// Whether the item is a rule with the name of one of the others.
fn is_named_again(item: &GrammarItem, others: &[GrammarItem]) -> bool
    ensures { result ≡ is_named_again (item_view item.now) (map item_view others.now) }
{
    match item {
        GrammarItem::Nonterminal(rule) => is_rule_there(others, &rule.name),
        GrammarItem::MatchToken(_)
        | GrammarItem::ExternToken(_)
        | GrammarItem::InternToken(_)
        | GrammarItem::Use(_) => false,
    }
}

fn is_rule_there(items: &[GrammarItem], name: &NonterminalString) -> bool
    ensures { result ≡ is_rule_there (map item_view items.now) name.now.0 }
{
    for item in items {
        if is_rule_named(item, name) {
            return true;
        }
    }
    false
}

fn is_rule_named(item: &GrammarItem, name: &NonterminalString) -> bool
    ensures { result ≡ is_rule_named name.now.0 (item_view item.now) }
{
    match item {
        GrammarItem::Nonterminal(rule) => rule.name.0.as_str() == name.0.as_str(),
        GrammarItem::MatchToken(_)
        | GrammarItem::ExternToken(_)
        | GrammarItem::InternToken(_)
        | GrammarItem::Use(_) => false,
    }
}
