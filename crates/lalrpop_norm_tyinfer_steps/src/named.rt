//! The terminals that entries will name, where a grammar has no internal tokens yet.
ghost use Rattle.std.specs.Prelude.{◌≡◌, ◌++◌, IfOk, OnOk, flat_map, is_some, map, option_map};
ghost use Rattle.lalrpop_norm_tree.specs.Items.{grammar_view, match_contents_view, match_token_view};
ghost use Rattle.lalrpop_norm_model.specs.Entries.{catch_all, catch_all_in, entries_in, match_entries, terminal_named, user_names};
ghost use Rattle.lalrpop_norm_model.specs.TerminalTypes.{let_in};
ghost use Rattle.lalrpop_norm_model.specs.Terminals.{terminals_used};
ghost use Rattle.lalrpop_norm_model.specs.TokenFaults.{names_mapped_by};
ghost use Rattle.lalrpop_norm_tyinfer_steps.specs.Literals.{used_literal};

use lalrpop_norm_common::match_block::catch_all_of;
use lalrpop_norm_common::uses::{Use, uses_of};
use lalrpop_norm_tree::grammar::parse_tree::{
    Grammar, MatchContents, MatchItem, MatchMapping, MatchToken, NoMemory, TerminalString,
};
use std::alloc::Global;

/// The terminals that the match block names, then the literals that alternatives use and it lets in.
pub(crate) fn names_to_come(
    alloc: Global,
    grammar: &Grammar,
) -> Result<Vec<TerminalString>, NoMemory>
    ensures { IfOk result (λ ts. ts.items
        ≡ user_names (match_entries (grammar_view grammar.now))
        ++ flat_map (let_in (catch_all (grammar_view grammar.now))) (terminals_used (grammar_view grammar.now))) }
{
    let block = grammar.match_token();
    let mut names = block_names(alloc, block)?;
    add_let_in(alloc, &mut names, block, grammar)?;
    Ok(names)
}

/// The terminals that the match block names, if there is one.
fn block_names(alloc: Global, block: Option<&MatchToken>) -> Result<Vec<TerminalString>, NoMemory>
    ensures { IfOk result (λ ts. ts.items ≡ user_names (entries_in (option_map (λ m. match_token_view m.now) block.entry))) }
{
    match block {
        Some(block) => group_names(alloc, &block.contents),
        None => Ok(Vec::new(alloc)),
    }
}

fn group_names(alloc: Global, groups: &[MatchContents]) -> Result<Vec<TerminalString>, NoMemory>
    ensures { IfOk result (λ ts. ts.items ≡ flat_map names_mapped_by (flat_map (λ items. items) (map match_contents_view groups.now))) }
{
    let mut names = Vec::new(alloc);
    for group in groups {
        add_items(&mut names, &group.items)?;
    }
    Ok(names)
}

fn add_items(names: &mut Vec<TerminalString>, items: &[MatchItem]) -> Result<(), NoMemory>
    ensures { OnOk result (names.new.items ≡ names.old.items ++ flat_map names_mapped_by items.now) }
{
    for item in items {
        add_item(names, item)?;
    }
    Ok(())
}

fn add_item(names: &mut Vec<TerminalString>, item: &MatchItem) -> Result<(), NoMemory>
    ensures { OnOk result (names.new.items ≡ names.old.items ++ names_mapped_by item.now) }
{
    match item {
        MatchItem::CatchAll(_) => Ok(()),
        MatchItem::Unmapped(literal, _) => {
            names.push(TerminalString::Literal(literal.clone()?))?;
            Ok(())
        }
        MatchItem::Mapped(_, mapping, _) => add_mapping(names, mapping),
    }
}

fn add_mapping(names: &mut Vec<TerminalString>, mapping: &MatchMapping) -> Result<(), NoMemory>
    ensures { OnOk result (names.new.items ≡ names.old.items ++ terminal_named mapping.now) }
{
    match mapping {
        MatchMapping::Terminal(terminal) => {
            names.push(terminal.clone()?)?;
            Ok(())
        }
        MatchMapping::Skip => Ok(()),
    }
}

/// Adds the literals that a match block, or its absence, lets in.
fn add_let_in(
    alloc: Global,
    names: &mut Vec<TerminalString>,
    block: Option<&MatchToken>,
    grammar: &Grammar,
) -> Result<(), NoMemory>
    ensures { OnOk result (names.new.items
        ≡ names.old.items
        ++ flat_map (let_in (catch_all_in (option_map (λ m. match_token_view m.now) block.entry)))
        (terminals_used (grammar_view grammar.now))) }
{
    if lets_in(block) {
        let uses = uses_of(alloc, &grammar.items)?;
        return add_literals(names, &uses);
    }
    Ok(())
}

/// Whether literals that no item names are let in.
fn lets_in(block: Option<&MatchToken>) -> bool
    ensures { result ≡ is_some (catch_all_in (option_map (λ m. match_token_view m.now) block.entry)) }
{
    catch_all_of(block).is_some()
}

/// Adds the literals among the terminals used.
fn add_literals(names: &mut Vec<TerminalString>, uses: &[Use]) -> Result<(), NoMemory>
    ensures { OnOk result (names.new.items ≡ names.old.items ++ flat_map (λ u. used_literal u.0) uses.now) }
{
    for (terminal, _) in uses {
        add_literal(names, terminal)?;
    }
    Ok(())
}

fn add_literal(names: &mut Vec<TerminalString>, terminal: &TerminalString) -> Result<(), NoMemory>
    ensures { OnOk result (names.new.items ≡ names.old.items ++ used_literal terminal.now) }
{
    match terminal {
        TerminalString::Literal(_) => {
            names.push(terminal.clone()?)?;
            Ok(())
        }
        TerminalString::Bare(_) | TerminalString::Error => Ok(()),
    }
}
