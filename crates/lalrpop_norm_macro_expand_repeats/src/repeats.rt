//! The rules of repeats, in which a name stands for what is repeated.
ghost use Rattle.std.specs.Prelude.{◌≡◌, ◌++◌, ◌∷◌, [], IfOk, OnOk, codes, map};
ghost use Rattle.lalrpop_norm_tree_parts.specs.Paths.{path_view};
ghost use Rattle.lalrpop_norm_tree.specs.Symbols.{part_and, at, nonterminal, repeated, symbol_view, parts_view};
ghost use Rattle.lalrpop_norm_tree.specs.Types.{type_view};
ghost use Rattle.lalrpop_norm_tree.specs.Items.{alternative_view, rule_view};
ghost use Rattle.lalrpop_norm_model.specs.MadeRules.{only_part, so_many, with_name, holding, star_rule, plus_rule, question_rule};
ghost use Rattle.lalrpop_norm_model.specs.Replaced.{replaced};
ghost use Rattle.lalrpop_norm_macro_expand_repeats.specs.Repeats.{placeholder_name, repeat_shape};

use lalrpop_norm_macro_expand_rules::rules::{Head, coded, inline_at, private_rule, repeat_of};
use lalrpop_norm_tree::grammar::parse_tree::{
    Alternative, Atom, Name, NoMemory, NonterminalData, NonterminalString, Path, RepeatOp, Span,
    Symbol, SymbolKind, TypeRef,
};
use std::alloc::Global;

// ---- parts

/// The name that stands for what is repeated, X, in the rules of [`repeat_rule`]. The only error is a failed allocation.
pub fn placeholder_name(alloc: Global) -> Result<NonterminalString, NoMemory>
    ensures { IfOk result (λ n. n.0 ≡ placeholder_name) }
{
    Ok(NonterminalString(Atom::new(alloc, "X")?))
}

fn placeholder_at(alloc: Global, span: Span) -> Result<Symbol, NoMemory>
    ensures { IfOk result (λ s. symbol_view s ≡ at span (nonterminal placeholder_name)) }
{
    let name = placeholder_name(alloc)?;
    Ok(Symbol::new(span, SymbolKind::Nonterminal(name)))
}

/// The symbol with a name of its own.
fn with_name(alloc: Global, span: Span, name: &str, symbol: Symbol) -> Result<Symbol, NoMemory>
    ensures { IfOk result (λ s. symbol_view s ≡ with_name span name.now (symbol_view symbol)) }
{
    let name = Name::immut(Atom::new(alloc, name)?);
    let symbol = Box::new(alloc, symbol)?;
    Ok(Symbol::new(span, SymbolKind::Name(name, symbol)))
}

/// A generic type over the type of a symbol.
fn holding(alloc: Global, path: Path, symbol: &Symbol) -> Result<TypeRef, NoMemory>
    requires { replaced (symbol_view symbol.now) ≡ symbol_view symbol.now }
    ensures { IfOk result (λ t. type_view t ≡ holding (path_view path) (symbol_view symbol.now)) }
{
    let kind = symbol.kind.clone()?;
    let types = vec![in alloc; TypeRef::OfSymbol(kind)]?;
    Ok(TypeRef::Nominal { path, types })
}

fn repeated(alloc: Global, span: Span, op: RepeatOp, symbol: &Symbol) -> Result<Symbol, NoMemory>
    ensures { IfOk result (λ s. symbol_view s ≡ at span (repeated op (symbol_view symbol.now))) }
{
    let kind = repeat_of(alloc, op, symbol.clone()?)?;
    Ok(Symbol::new(span, kind))
}

// ---- rules

fn star_alternatives(alloc: Global, span: Span, over: &Symbol) -> Result<Vec<Alternative>, NoMemory>
    ensures { IfOk result (λ v. map alternative_view v.items ≡ (star_rule span (symbol_view over.now)).alternatives) }
{
    let plus = repeated(alloc, span, RepeatOp::Plus, over)?;
    let filled = vec![in alloc; with_name(alloc, span, "v", plus)?]?;
    Ok(vec![in alloc;
        coded(alloc, span, Vec::new(alloc), "alloc::vec![]")?,
        coded(alloc, span, filled, "v")?,
    ]?)
}

/// Of `X*`: nothing, or `X+`.
fn star_rule(
    alloc: Global,
    head: Head,
    inner: &Symbol,
    over: &Symbol,
) -> Result<NonterminalData, NoMemory>
    requires { replaced (symbol_view inner.now) ≡ symbol_view inner.now }
    ensures { IfOk result (λ r. rule_view r
        ≡ repeat_shape head.name head.span RepeatOp.Star (symbol_view inner.now) (symbol_view over.now)) }
{
    let of_vector = holding(alloc, Path::vec(alloc)?, inner)?;
    let alternatives = star_alternatives(alloc, head.span, over)?;
    let inline = inline_at(alloc, head.span)?;
    Ok(private_rule(alloc, head, inline, Some(of_vector), alternatives))
}

/// `X`, in a row of its own.
fn alone(alloc: Global, symbol: &Symbol) -> Result<Vec<Symbol>, NoMemory>
    ensures { IfOk result (λ v. parts_view v.items ≡ only_part (symbol_view symbol.now)) }
{
    Ok(vec![in alloc; symbol.clone()?]?)
}

/// `<v:X+> <e:X>`.
fn one_more(alloc: Global, span: Span, over: &Symbol) -> Result<Vec<Symbol>, NoMemory>
    ensures { IfOk result (λ v. parts_view v.items
        ≡ part_and (with_name span (codes "v") (at span (repeated RepeatOp.Plus (symbol_view over.now))))
        (only_part (with_name span (codes "e") (symbol_view over.now)))) }
{
    let plus = repeated(alloc, span, RepeatOp::Plus, over)?;
    let before = with_name(alloc, span, "v", plus)?;
    let last = with_name(alloc, span, "e", over.clone()?)?;
    Ok(vec![in alloc; before, last]?)
}

fn plus_alternatives(alloc: Global, span: Span, over: &Symbol) -> Result<Vec<Alternative>, NoMemory>
    ensures { IfOk result (λ v. map alternative_view v.items ≡ (plus_rule span (symbol_view over.now)).alternatives) }
{
    let first = alone(alloc, over)?;
    let more = one_more(alloc, span, over)?;
    Ok(vec![in alloc;
        coded(alloc, span, first, "alloc::vec![<>]")?,
        coded(alloc, span, more, "{ let mut v = v; v.push(e); v }")?,
    ]?)
}

/// Of `X+`: `X`, or `X+` and one more `X`.
fn plus_rule(
    alloc: Global,
    head: Head,
    inner: &Symbol,
    over: &Symbol,
) -> Result<NonterminalData, NoMemory>
    requires { replaced (symbol_view inner.now) ≡ symbol_view inner.now }
    ensures { IfOk result (λ r. rule_view r
        ≡ repeat_shape head.name head.span RepeatOp.Plus (symbol_view inner.now) (symbol_view over.now)) }
{
    let of_vector = holding(alloc, Path::vec(alloc)?, inner)?;
    let alternatives = plus_alternatives(alloc, head.span, over)?;
    Ok(private_rule(alloc, head, Vec::new(alloc), Some(of_vector), alternatives))
}

fn question_alternatives(
    alloc: Global,
    span: Span,
    over: &Symbol,
) -> Result<Vec<Alternative>, NoMemory>
    ensures { IfOk result (λ v. map alternative_view v.items ≡ (question_rule span (symbol_view over.now)).alternatives) }
{
    let filled = alone(alloc, over)?;
    Ok(vec![in alloc;
        coded(alloc, span, filled, "Some(<>)")?,
        coded(alloc, span, Vec::new(alloc), "None")?,
    ]?)
}

/// Of `X?`: `X`, or nothing.
fn question_rule(
    alloc: Global,
    head: Head,
    inner: &Symbol,
    over: &Symbol,
) -> Result<NonterminalData, NoMemory>
    requires { replaced (symbol_view inner.now) ≡ symbol_view inner.now }
    ensures { IfOk result (λ r. rule_view r
        ≡ repeat_shape head.name head.span RepeatOp.Question (symbol_view inner.now) (symbol_view over.now)) }
{
    let of_option = holding(alloc, Path::option(alloc)?, inner)?;
    let alternatives = question_alternatives(alloc, head.span, over)?;
    let inline = inline_at(alloc, head.span)?;
    Ok(private_rule(alloc, head, inline, Some(of_option), alternatives))
}

/// Adds one more of a symbol.
fn add_copy(symbols: &mut Vec<Symbol>, symbol: &Symbol) -> Result<(), NoMemory>
    ensures { OnOk result (map symbol_view symbols.new.items ≡ map symbol_view symbols.old.items ++ symbol_view symbol.now ∷ []) }
{
    symbols.push(symbol.clone()?)?;
    Ok(())
}

/// `X` that many times, in a row.
#[tactic(auto, using(std::proofs::lemmas::List::replicate_more))]
fn so_many(alloc: Global, count: u16, symbol: &Symbol) -> Result<Vec<Symbol>, NoMemory>
    ensures { IfOk result (λ v. parts_view v.items ≡ so_many count (symbol_view symbol.now)) }
{
    let mut symbols = Vec::with_capacity(alloc, count as usize)?;
    for _copy in 0..count {
        add_copy(&mut symbols, symbol)?;
    }
    Ok(symbols)
}

/// Of `X{n}`: `X` n times.
fn times_rule(
    alloc: Global,
    head: Head,
    count: u16,
    inner: &Symbol,
    over: &Symbol,
) -> Result<NonterminalData, NoMemory>
    requires { replaced (symbol_view inner.now) ≡ symbol_view inner.now }
    ensures { IfOk result (λ r. rule_view r
        ≡ repeat_shape head.name head.span (RepeatOp.Times count) (symbol_view inner.now) (symbol_view over.now)) }
{
    let of_vector = holding(alloc, Path::vec(alloc)?, inner)?;
    let symbols = so_many(alloc, count, over)?;
    let alternatives = vec![in alloc; coded(alloc, head.span, symbols, "alloc::vec![<>]")?]?;
    let inline = inline_at(alloc, head.span)?;
    Ok(private_rule(alloc, head, inline, Some(of_vector), alternatives))
}

/// The rule of a repeat of the symbol `inner` by that operator: it has the name and the span of the head, and the attributes and
/// the type of such a repeat. In its alternatives the name that [`placeholder_name`] answers stands for the symbol, at the symbol's
/// span. What is desugared is to be rewritten in the symbol. The only error is a failed allocation.
pub fn repeat_rule(
    alloc: Global,
    head: Head,
    op: RepeatOp,
    inner: &Symbol,
) -> Result<NonterminalData, NoMemory>
    requires { replaced (symbol_view inner.now) ≡ symbol_view inner.now }
    ensures { IfOk result (λ r. rule_view r
        ≡ repeat_shape head.name head.span op (symbol_view inner.now) (at inner.now.span (nonterminal placeholder_name))) }
{
    let over = placeholder_at(alloc, inner.span)?;
    match op {
        RepeatOp::Star => star_rule(alloc, head, inner, &over),
        RepeatOp::Plus => plus_rule(alloc, head, inner, &over),
        RepeatOp::Question => question_rule(alloc, head, inner, &over),
        RepeatOp::Times(count) => times_rule(alloc, head, count, inner, &over),
    }
}
