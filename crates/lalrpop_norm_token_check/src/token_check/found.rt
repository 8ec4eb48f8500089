//! The entries of a grammar as they are found, what they name, and the spans of their literals.
ghost use Rattle.std.specs.Prelude.{◌≡◌, ◌<◌, ◌^◌, IfOk, OnOk, is_some};
ghost use Rattle.std.specs.BTreeMap.{insert_entry};
ghost use Rattle.std.specs.BTreeSet.{insert_key};
ghost use Rattle.lalrpop_norm_faults.specs.Faults.{Refuses, fault_if};
ghost use Rattle.lalrpop_norm_model.specs.Terminals.{literal_cmp, terminal_cmp};
ghost use Rattle.lalrpop_norm_model.specs.Entries.{entry_in, entry_cmp, own_mapping};
ghost use Rattle.lalrpop_norm_token_check.specs.Found.{found_view, none_found};
ghost use Rattle.lalrpop_norm_token_check.specs.Keys.{terminal_in, place_by};

use lalrpop_norm_faults::{FaultKind, NormResult, refusal};
use lalrpop_norm_tree::grammar::parse_tree::{
    MatchEntry, MatchMapping, NoMemory, Span, TerminalLiteral, TerminalString,
};
use std::alloc::Global;
use std::collections::{BTreeMap, BTreeSet};

/// What is found so far.
#[derive(Drop)]
pub(super) struct Found {
    /// The entries.
    pub(super) entries: BTreeSet<MatchEntry>,
    /// The terminals that they name.
    pub(super) names: BTreeSet<TerminalString>,
    /// The spans of their literals.
    pub(super) places: BTreeMap<TerminalLiteral, Span>,
}

impl Found {
    /// Nothing is found yet.
    pub(super) fn new(alloc: Global) -> Found
        ensures { found_view result ≡ none_found }
    {
        Found {
            entries: BTreeSet::new(alloc),
            names: BTreeSet::new(alloc),
            places: BTreeMap::new(alloc),
        }
    }
}

/// Adds a terminal, which is to be a new one.
pub(super) fn add_name(
    alloc: Global,
    names: &mut BTreeSet<TerminalString>,
    terminal: &TerminalString,
    span: Span,
) -> NormResult<()>
    ensures refuses { Refuses result (fault_if (terminal_in names.old.keys terminal.now) (FaultKind.TerminalTwice, span)) }
    ensures adds { OnOk result (names.new.keys ≡ insert_key terminal_cmp names.old.keys terminal.now) }
{
    let is_new = names.insert(terminal.clone()?)?;
    if is_new {
        Ok(())
    } else {
        Err(refusal(
            FaultKind::TerminalTwice,
            span,
            format!(in alloc; "the terminal `{terminal}` is declared twice: remove one of the two"),
        ))
    }
}

/// Adds the span of a literal, which is to be a new one.
pub(super) fn add_place(
    alloc: Global,
    places: &mut BTreeMap<TerminalLiteral, Span>,
    literal: &TerminalLiteral,
    span: Span,
) -> NormResult<()>
    ensures refuses { Refuses result (fault_if (is_some (place_by places.old.entries literal.now)) (FaultKind.LiteralTwice, span)) }
    ensures adds { OnOk result (places.new.entries ≡ insert_entry literal_cmp places.old.entries literal.now span) }
{
    let earlier = places.insert(literal.clone()?, span)?;
    match earlier {
        None => Ok(()),
        Some(_) => Err(refusal(
            FaultKind::LiteralTwice,
            span,
            format!(in alloc;
                "the literal {literal} stands in the match block twice: remove one of the two"
            ),
        )),
    }
}

/// Adds an entry of a group of that precedence.
pub(super) fn add_entry(
    entries: &mut BTreeSet<MatchEntry>,
    precedence: usize,
    literal: &TerminalLiteral,
    mapping: &MatchMapping,
) -> Result<(), NoMemory>
    requires { precedence < 2 ^ 63 }
    ensures { OnOk result (entries.new.keys ≡ insert_key entry_cmp entries.old.keys (entry_in precedence literal.now mapping.now)) }
{
    entries.insert(entry_in(precedence, literal, mapping)?)?;
    Ok(())
}

fn entry_in(
    precedence: usize,
    literal: &TerminalLiteral,
    mapping: &MatchMapping,
) -> Result<MatchEntry, NoMemory>
    requires { precedence < 2 ^ 63 }
    ensures { IfOk result (λ e. e ≡ entry_in precedence literal.now mapping.now) }
{
    Ok(MatchEntry {
        precedence: 2 * precedence + literal.base_precedence(),
        match_literal: literal.clone()?,
        user_name: mapping.clone()?,
    })
}

/// What a literal is that names itself.
pub(super) fn own_mapping(literal: &TerminalLiteral) -> Result<MatchMapping, NoMemory>
    ensures { IfOk result (λ m. m ≡ own_mapping literal.now) }
{
    Ok(MatchMapping::Terminal(TerminalString::Literal(literal.clone()?)))
}
