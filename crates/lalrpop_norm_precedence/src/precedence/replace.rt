//! Recursive occurrences, rewritten to the names of levels.
ghost use Rattle.std.specs.Prelude.{◌≡◌, false, IfOk, OnOk};
ghost use Rattle.lalrpop_norm_tree.specs.Symbols.{kind_view, symbol_view, repeat_view, parts_view};
ghost use Rattle.lalrpop_norm_model.specs.Occurrences.{count_kind, count_part, count_parts};
ghost use Rattle.lalrpop_norm_model.specs.LevelRules.{leveled_parts};
ghost use Rattle.lalrpop_norm_precedence_steps.specs.Substitutions.{substitution_view, met_kind};
ghost use Rattle.lalrpop_norm_precedence.specs.Occurrences.{is_target, once_met};
ghost use Rattle.lalrpop_norm_precedence.specs.Replacing.{is_own_of, kind_after, part_after, parts_after};

use super::{Direction, Substitution};
use lalrpop_norm_precedence_steps::occurrences::occurrence;
use lalrpop_norm_tree::grammar::parse_tree::{
    NoMemory, NonterminalString, RepeatSymbol, Symbol, SymbolKind,
};

/// What the recursive occurrences become that are still to be reached.
#[derive(Clone, Copy)]
pub(super) struct Replacing<'a> {
    /// The name of the occurrences.
    pub(super) target: &'a NonterminalString,
    /// What the one reached first becomes.
    pub(super) first: &'a SymbolKind,
    /// What each other one becomes.
    pub(super) others: &'a SymbolKind,
    /// In which order they are reached.
    pub(super) direction: Direction,
    /// Whether one was reached.
    pub(super) is_met: bool,
}

/// Rewrites each nonterminal `target` in the symbols, also in macro arguments, groups, repeats and wrapped symbols. The name of a
/// macro that is called is none of them, and neither is a name that is not resolved. Spans stay. If an allocation fails, the
/// symbols may be rewritten in part.
pub fn replace_nonterm(
    target: &NonterminalString,
    subst: Substitution<'_>,
    dir: Direction,
    symbols: &mut [Symbol],
) -> Result<(), NoMemory>
    ensures { OnOk result (parts_view symbols.new
        ≡ leveled_parts (is_target target.now.0) (met_kind (substitution_view subst.entry) dir false) 0 0
        (parts_view symbols.old)) }
{
    let (first, others) = match subst {
        Substitution::OneThen(first, others) => (first, others),
        Substitution::Every(kind) => (kind, kind),
    };
    let replacing = Replacing {
        target,
        first,
        others,
        direction: dir,
        is_met: false,
    };
    replace_symbols(symbols, replacing)?;
    Ok(())
}

// Each of the following answers whether a recursive occurrence was reached, before it or in it.

#[cycle(replace)]
fn replace_symbols(symbols: &mut [Symbol], replacing: Replacing<'_>) -> Result<bool, NoMemory>
    ensures value { OnOk result (parts_view symbols.new ≡ parts_after replacing.entry (parts_view symbols.old)) }
    ensures met { IfOk result (λ m. m
        ≡ once_met replacing.entry.is_met (count_parts (is_own_of replacing.entry) (parts_view symbols.old))) }
{
    let mut left = replacing.is_met;
    match replacing.direction {
        Direction::Forward => {
            'forward: for i in 0..symbols.len() {
                let next = Replacing {
                    is_met: left,
                    ..replacing
                };
                left = replace_symbol(&mut symbols[i], next)?;
            }
        }
        Direction::Backward => {
            'backward: for i in (0..symbols.len()).rev() {
                let next = Replacing {
                    is_met: left,
                    ..replacing
                };
                left = replace_symbol(&mut symbols[i], next)?;
            }
        }
    }
    Ok(left)
}

#[cycle(replace)]
fn replace_symbol(symbol: &mut Symbol, replacing: Replacing<'_>) -> Result<bool, NoMemory>
    ensures value { OnOk result (symbol_view symbol.new ≡ part_after replacing.entry (symbol_view symbol.old)) }
    ensures met { IfOk result (λ m. m
        ≡ once_met replacing.entry.is_met (count_part (is_own_of replacing.entry) (symbol_view symbol.old))) }
{
    let left = replace_kind(&mut symbol.kind, replacing)?;
    Ok(left)
}

#[cycle(replace)]
fn replace_kind(kind: &mut SymbolKind, replacing: Replacing<'_>) -> Result<bool, NoMemory>
    ensures value { OnOk result (kind_view kind.new ≡ kind_after replacing.entry (kind_view kind.old)) }
    ensures met { IfOk result (λ m. m
        ≡ once_met replacing.entry.is_met (count_kind (is_own_of replacing.entry) (kind_view kind.old))) }
{
    match kind {
        SymbolKind::Nonterminal(name) => {
            if name.0 == replacing.target.0 {
                *kind = occurrence(replacing.first, replacing.others, replacing.is_met)?;
                return Ok(true);
            }
            Ok(replacing.is_met)
        }
        SymbolKind::Expr(expr) => {
            let left = replace_symbols(&mut expr.symbols, replacing)?;
            Ok(left)
        }
        SymbolKind::Macro(call) => {
            let left = replace_symbols(&mut call.args, replacing)?;
            Ok(left)
        }
        SymbolKind::Repeat(repeat) => replace_repeat(repeat, replacing),
        SymbolKind::Choose(symbol) => replace_boxed(symbol, replacing),
        SymbolKind::Name(_, symbol) => replace_boxed(symbol, replacing),
        SymbolKind::Tuple(_, symbol) => replace_boxed(symbol, replacing),
        SymbolKind::AmbiguousId(_)
        | SymbolKind::Terminal(_)
        | SymbolKind::Lookahead
        | SymbolKind::Lookbehind
        | SymbolKind::Error => Ok(replacing.is_met),
    }
}

#[cycle(replace)]
fn replace_boxed(symbol: &mut Box<Symbol>, replacing: Replacing<'_>) -> Result<bool, NoMemory>
    ensures value { OnOk result (symbol_view symbol.new.value ≡ part_after replacing.entry (symbol_view symbol.old.value)) }
    ensures met { IfOk result (λ m. m
        ≡ once_met replacing.entry.is_met (count_part (is_own_of replacing.entry) (symbol_view symbol.old.value))) }
{
    let left = replace_symbol(symbol, replacing)?;
    Ok(left)
}

#[cycle(replace)]
fn replace_repeat(
    repeat: &mut Box<RepeatSymbol>,
    replacing: Replacing<'_>,
) -> Result<bool, NoMemory>
    ensures value { OnOk result (repeat_view repeat.new.value
        ≡ ((repeat_view repeat.old.value).0, part_after replacing.entry (repeat_view repeat.old.value).1)) }
    ensures met { IfOk result (λ m. m
        ≡ once_met replacing.entry.is_met (count_part (is_own_of replacing.entry) (symbol_view repeat.old.value.symbol))) }
{
    let left = replace_symbol(&mut repeat.symbol, replacing)?;
    Ok(left)
}
