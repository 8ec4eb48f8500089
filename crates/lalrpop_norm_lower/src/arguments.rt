//! The arguments of an action: which symbols its action code gets, and their names.
ghost use Rattle.std.specs.Prelude.{◌≡◌, ◌++◌, ◌≤◌, [], ◌∷◌, IfNone, IfOk, IfSome, OnOk, codes, map, vec_len, if◌then◌else◌};
ghost use Rattle.lalrpop_norm_tree.specs.Symbols.{symbol_view, parts_view, argument_pattern_view};
ghost use Rattle.lalrpop_norm_lower.specs.Arguments.{name_given};
ghost use Rattle.lalrpop_norm_lower.specs.Sources.{source_name, plain_name};
ghost use Rattle.lalrpop_norm_lower.specs.Sourced.{AreSourcesOf};
ghost use Rattle.lalrpop_norm_lower.specs.Naming.{is_source, source_pattern, argument_patterns, source_names};

use lalrpop_norm_common::norm_util::{has_chosen, has_name_value, is_chosen, names_value};
use lalrpop_norm_tree::grammar::parse_tree::{ArgPattern, Atom, Binding, Name, NoMemory, Symbol};
use lalrpop_norm_tree_parts::walk::add;
use std::alloc::Global;

/// Which symbols of an alternative are sources: the named and tuple ones if there are any, else the selected ones if there are
/// any, else all.
#[derive(Clone, Copy)]
pub(crate) struct Sources {
    pub(crate) some_named: bool,
    /// Where none is named.
    some_chosen: bool,
}

impl Sources {
    pub(crate) fn among(symbols: &[Symbol]) -> Sources
        ensures { AreSourcesOf (parts_view symbols.now) result }
    {
        let some_named = has_name_value(symbols);
        let some_chosen = !some_named && has_chosen(symbols);
        Sources {
            some_named,
            some_chosen,
        }
    }

    fn contain(self, symbol: &Symbol) -> bool
        ensures { result ≡ is_source self.some_named self.some_chosen (symbol_view symbol.now) }
    {
        if self.some_named {
            names_value(symbol)
        } else if self.some_chosen {
            is_chosen(symbol)
        } else {
            true
        }
    }
}

/// The patterns of the arguments of an alternative, one for each symbol. A named or tuple symbol has its own pattern, any other
/// source j the name of its number behind the prefix, and what is no source `_`.
pub(crate) fn argument_patterns(
    alloc: Global,
    prefix: &str,
    sources: Sources,
    symbols: &[Symbol],
) -> Result<Vec<ArgPattern>, NoMemory>
    requires { AreSourcesOf (parts_view symbols.now) sources }
    ensures { IfOk result (λ ps. map argument_pattern_view ps.items ≡ argument_patterns prefix.now (parts_view symbols.now)) }
{
    let mut patterns = Vec::with_capacity(alloc, symbols.len())?;
    let mut number = 0usize;
    for symbol in symbols {
        let source = sources.contain(symbol);
        add_argument(alloc, prefix, source, number, symbol, &mut patterns)?;
        if source {
            number += 1;
        }
    }
    Ok(patterns)
}

/// Adds the argument of a symbol: the source of that number, or `_`.
fn add_argument(
    alloc: Global,
    prefix: &str,
    source: bool,
    number: usize,
    symbol: &Symbol,
    patterns: &mut Vec<ArgPattern>,
) -> Result<(), NoMemory>
    ensures { OnOk result (map argument_pattern_view patterns.new.items ≡ map argument_pattern_view patterns.old.items
        ++ (if source then source_pattern prefix.now number (symbol_view symbol.now) else plain_name (codes "_")) ∷ []) }
{
    if source {
        let pattern = source_pattern(alloc, prefix, number, symbol)?;
        add(patterns, pattern)
    } else {
        let name = Atom::new(alloc, "_")?;
        add(patterns, plain_name(name))
    }
}

/// Puts the names of the sources of an alternative into a list, in order. What was in it is dropped, and its room is used again.
pub(crate) fn put_source_names(
    alloc: Global,
    prefix: &str,
    sources: Sources,
    symbols: &[Symbol],
    names: &mut Vec<Atom>,
) -> Result<(), NoMemory>
    requires { AreSourcesOf (parts_view symbols.now) sources }
    ensures { OnOk result (names.new.items ≡ source_names prefix.now (parts_view symbols.now)) }
{
    names.clear();
    names.reserve(symbols.len())?;
    for symbol in symbols {
        let source = sources.contain(symbol);
        add_name(alloc, prefix, source, symbol, names)?;
    }
    Ok(())
}

/// Adds the name of a symbol that is the next source.
fn add_name(
    alloc: Global,
    prefix: &str,
    source: bool,
    symbol: &Symbol,
    names: &mut Vec<Atom>,
) -> Result<(), NoMemory>
    ensures { OnOk result (names.new.items ≡ names.old.items
        ++ (if source then name_given (source_pattern prefix.now (vec_len names.old) (symbol_view symbol.now)) ∷ [] else [])) }
{
    if source {
        let name = name_of_source(alloc, prefix, names.len(), symbol)?;
        add(names, name)
    } else {
        Ok(())
    }
}

/// The name of the source of that number: that of its pattern.
fn name_of_source(
    alloc: Global,
    prefix: &str,
    number: usize,
    symbol: &Symbol,
) -> Result<Atom, NoMemory>
    ensures { IfOk result (λ n. n ≡ name_given (source_pattern prefix.now number (symbol_view symbol.now))) }
{
    match symbol.kind.as_bound() {
        Some((Binding::Name(name), _)) => Ok(name.name.clone()?),
        Some((Binding::Tuple(names), _)) => {
            let text = names.to_string(alloc)?;
            Atom::new(alloc, text.as_str())
        }
        None => source_name(alloc, prefix, number),
    }
}

/// The pattern of the source of that number: its own, or its number behind the prefix.
fn source_pattern(
    alloc: Global,
    prefix: &str,
    number: usize,
    symbol: &Symbol,
) -> Result<ArgPattern, NoMemory>
    ensures { IfOk result (λ p. argument_pattern_view p ≡ source_pattern prefix.now number (symbol_view symbol.now)) }
{
    match symbol.kind.as_bound() {
        Some((binding, _)) => binding.to_pattern(),
        None => Ok(plain_name(source_name(alloc, prefix, number)?)),
    }
}

fn plain_name(name: Atom) -> ArgPattern
    ensures { argument_pattern_view result ≡ plain_name name }
{
    ArgPattern::Name(Name {
        mutable: false,
        name,
    })
}

/// The name of the source of that number.
fn source_name(alloc: Global, prefix: &str, number: usize) -> Result<Atom, NoMemory>
    ensures { IfOk result (λ a. a ≡ source_name prefix.now number) }
{
    if let Some(name) = usual_name(prefix, number) {
        return Atom::new(alloc, name);
    }
    let text = format!(in alloc; "{prefix}{number}")?;
    Atom::new(alloc, text.as_str())
}

/// The name of one of the first sources behind the prefix that most grammars have: these names need not be built.
fn usual_name(prefix: &str, number: usize) -> Option<&'static str>
    ensures name { IfSome result (λ name. name.now ≡ source_name prefix.now number) }
    ensures none { IfNone result (prefix.now ≡ codes "__" → 8 ≤ number) }
{
    if prefix != "__" {
        return None;
    }
    match number {
        0 => Some("__0"),
        1 => Some("__1"),
        2 => Some("__2"),
        3 => Some("__3"),
        4 => Some("__4"),
        5 => Some("__5"),
        6 => Some("__6"),
        7 => Some("__7"),
        _ => None,
    }
}
