//! How action code is read, and which symbols give values.
ghost use Rattle.std.specs.Prelude.{◌≡◌, IfOk, map, option_map};
ghost use Rattle.lalrpop_norm_tree.specs.Items.{alternative_view};
ghost use Rattle.lalrpop_norm_tree.specs.Symbols.{argument_pattern_view, expr_view, kind_view, parts_view, symbol_view};
ghost use Rattle.lalrpop_norm_model.specs.MadeRules.{is_naming, names_value, some_name_value, group_sources};
ghost use Rattle.lalrpop_norm_common.specs.Braces.{presence, presence_between, has_odd_quotes, is_in_braces};
ghost use Rattle.lalrpop_norm_common.specs.ExprSymbols.{named_in, named_parts, chosen_in, chosen_parts, all_parts};
ghost use Rattle.lalrpop_norm_common.specs.ExprSymbols.{placed_sources, analyzed_symbols, analyzed_action, symbols_seen, action_seen};
ghost use Rattle.lalrpop_norm_common.specs.Values.{is_chosen, is_chosen_kind, has_chosen};

use lalrpop_norm_tree::grammar::parse_tree::{
    ActionKind, Alternative, ArgPattern, ExprSymbol, NoMemory, Symbol, SymbolKind,
};
use std::alloc::Global;

/// The position class of the first `<>` of an action code.
#[derive(Clone, Copy, Debug, PartialEq, Eq)]
pub enum Presence {
    /// There is none.
    None,
    /// Just between braces, as in `{ <> }`.
    InCurlyBrackets,
    /// Anywhere else.
    Normal,
}

impl Presence {
    /// Whether it is just between braces.
    pub fn is_in_curly_brackets(self) -> bool
        ensures { result ≡ is_in_braces self }
    {
        match self {
            Presence::InCurlyBrackets => true,
            Presence::None | Presence::Normal => false,
        }
    }
}

/// The position class of the first `<>` of an action code. Between two texts with an odd number of `"` each, it is in a text, and
/// not between braces.
pub fn check_between_braces(action: &str) -> Presence
    ensures { result ≡ presence action.now }
{
    match action.split_once("<>") {
        Some((before, after)) => presence_between(before.trim(), after.trim()),
        None => Presence::None,
    }
}

#[tactic(auto, unfolding(crate::specs::Braces::presence_between), using(std::proofs::lemmas::Str::Pattern::ends_text, std::proofs::lemmas::Str::Pattern::starts_text))]
fn presence_between(before: &str, after: &str) -> Presence
    ensures { result ≡ presence_between before.now after.now }
{
    if has_odd_quotes(before) && has_odd_quotes(after) {
        return Presence::Normal;
    }
    if before.ends_with("{") && after.starts_with("}") {
        Presence::InCurlyBrackets
    } else {
        Presence::Normal
    }
}

fn has_odd_quotes(text: &str) -> bool
    ensures { result ≡ has_odd_quotes text.now }
{
    text.as_bytes().iter().filter(|b| **b == b'"').count() % 2 == 1
}

/// What becomes of the values of an alternative.
#[derive(Debug, Drop)]
pub enum AlternativeAction<'a> {
    /// The action code of the alternative gets them.
    User(&'a ActionKind),
    /// There is no action code, and they are the value.
    Default(Symbols<'a>),
}

/// The symbols whose values an alternative gives, each with its index among the symbols, from 0.
#[derive(Debug, Drop)]
pub enum Symbols<'a> {
    /// Named and tuple symbols: the names, and the symbol inside.
    Named(Vec<(usize, ArgPattern, &'a Symbol)>),
    /// Selected symbols, by the symbol inside; all symbols, if none is selected.
    Anon(Vec<(usize, &'a Symbol)>),
}

/// The action code of an alternative, or else the symbols whose values are its value. The only error is a failed allocation.
pub fn analyze_action<'a>(
    alloc: Global,
    alternative: &'a Alternative,
) -> Result<AlternativeAction<'a>, NoMemory>
    ensures { IfOk result (λ a. action_seen a ≡ analyzed_action (alternative_view alternative.now)) }
{
    match &alternative.action {
        Some(code) => Ok(AlternativeAction::User(code)),
        None => {
            let symbols = analyze_expr(alloc, &alternative.expr)?;
            Ok(AlternativeAction::Default(symbols))
        }
    }
}

/// The symbols whose values a list of symbols gives: the named and tuple symbols if any, else the selected ones, else all. The
/// only error is a failed allocation.
pub fn analyze_expr<'a>(alloc: Global, expr: &'a ExprSymbol) -> Result<Symbols<'a>, NoMemory>
    ensures { IfOk result (λ s. symbols_seen s ≡ analyzed_symbols (expr_view expr.now)) }
{
    let named = named_symbols(alloc, &expr.symbols)?;
    if !named.is_empty() {
        return Ok(Symbols::Named(named));
    }
    let sources = sources(alloc, &expr.symbols)?;
    Ok(Symbols::Anon(sources))
}

/// The symbols whose values a list of symbols without names gives: those inside of the selected ones, if there are any, else all;
/// each with its index in the list, from 0. The only error is a failed allocation.
pub fn sources<'a>(
    alloc: Global,
    symbols: &'a [Symbol],
) -> Result<Vec<(usize, &'a Symbol)>, NoMemory>
    ensures placed { IfOk result (λ v. map (λ t. (t.0, symbol_view t.1.now)) v.items ≡ placed_sources (parts_view symbols.now)) }
    ensures kinds { IfOk result (λ v. map (λ t. kind_view t.1.now.kind) v.items ≡ group_sources (parts_view symbols.now)) }
{
    let chosen = chosen_symbols(alloc, symbols)?;
    if !chosen.is_empty() {
        return Ok(chosen);
    }
    all_symbols(alloc, symbols)
}

/// The names of a named or tuple symbol, and the symbol inside.
fn named_in<'a>(
    place: usize,
    kind: &'a SymbolKind,
) -> Result<Option<(usize, ArgPattern, &'a Symbol)>, NoMemory>
    ensures { IfOk result (λ o. option_map (λ t. (t.0, argument_pattern_view t.1, symbol_view t.2.now)) o
        ≡ named_in place (kind_view kind.now)) }
{
    match kind.as_bound() {
        Some((binding, symbol)) => Ok(Some((place, binding.to_pattern()?, symbol))),
        None => Ok(None),
    }
}

fn named_symbols<'a>(
    alloc: Global,
    symbols: &'a [Symbol],
) -> Result<Vec<(usize, ArgPattern, &'a Symbol)>, NoMemory>
    ensures { IfOk result (λ v. map (λ t. (t.0, argument_pattern_view t.1, symbol_view t.2.now)) v.items
        ≡ named_parts 0 (parts_view symbols.now)) }
{
    let mut found = Vec::new(alloc);
    for (place, symbol) in symbols.iter().enumerate() {
        if let Some(entry) = named_in(place, &symbol.kind)? {
            found.push(entry)?;
        }
    }
    Ok(found)
}

/// The symbol inside of a selected one.
fn chosen_in<'a>(place: usize, kind: &'a SymbolKind) -> Option<(usize, &'a Symbol)>
    ensures { option_map (λ t. (t.0, symbol_view t.1.now)) result ≡ chosen_in place (kind_view kind.now) }
{
    match kind.as_selected() {
        Some(symbol) => Some((place, symbol)),
        None => None,
    }
}

fn chosen_symbols<'a>(
    alloc: Global,
    symbols: &'a [Symbol],
) -> Result<Vec<(usize, &'a Symbol)>, NoMemory>
    ensures { IfOk result (λ v. map (λ t. (t.0, symbol_view t.1.now)) v.items ≡ chosen_parts 0 (parts_view symbols.now)) }
{
    let mut found = Vec::new(alloc);
    for (place, symbol) in symbols.iter().enumerate() {
        if let Some(entry) = chosen_in(place, &symbol.kind) {
            found.push(entry)?;
        }
    }
    Ok(found)
}

fn all_symbols<'a>(
    alloc: Global,
    symbols: &'a [Symbol],
) -> Result<Vec<(usize, &'a Symbol)>, NoMemory>
    ensures { IfOk result (λ v. map (λ t. (t.0, symbol_view t.1.now)) v.items ≡ all_parts 0 (parts_view symbols.now)) }
{
    let mut found = Vec::with_capacity(alloc, symbols.len())?;
    for (place, symbol) in symbols.iter().enumerate() {
        found.push((place, symbol))?;
    }
    Ok(found)
}

/// Whether the symbol has a name, or a tuple of names, for its value.
pub fn names_value(symbol: &Symbol) -> bool
    ensures { result ≡ names_value (symbol_view symbol.now) }
{
    is_naming(&symbol.kind)
}

#[tactic(auto, using(crate::proofs::SymbolLemmas::naming_known))]
fn is_naming(kind: &SymbolKind) -> bool
    ensures { result ≡ is_naming (kind_view kind.now) }
{
    kind.as_bound().is_some()
}

/// Whether one of the symbols has a name, or a tuple of names, for its value.
pub fn has_name_value(symbols: &[Symbol]) -> bool
    ensures { result ≡ some_name_value (parts_view symbols.now) }
{
    for symbol in symbols {
        if names_value(symbol) {
            return true;
        }
    }
    false
}

/// Whether the symbol is selected, as in `<Expr>`.
pub fn is_chosen(symbol: &Symbol) -> bool
    ensures { result ≡ is_chosen (symbol_view symbol.now) }
{
    is_chosen_kind(&symbol.kind)
}

/// Whether a symbol of this kind is selected.
#[tactic(auto, using(crate::proofs::SymbolLemmas::selected_known))]
pub fn is_chosen_kind(kind: &SymbolKind) -> bool
    ensures { result ≡ is_chosen_kind (kind_view kind.now) }
{
    kind.as_selected().is_some()
}

/// Whether one of the symbols is selected.
pub fn has_chosen(symbols: &[Symbol]) -> bool
    ensures { result ≡ has_chosen (parts_view symbols.now) }
{
    for symbol in symbols {
        if is_chosen(symbol) {
            return true;
        }
    }
    false
}
