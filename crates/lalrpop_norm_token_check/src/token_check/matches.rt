//! The match block: its entries, group by group.
ghost use Rattle.std.specs.Prelude.{◌≡◌, ◌<◌, ◌^◌, OnOk, map, option_map};
ghost use Rattle.lalrpop_norm_tree.specs.Items.{match_contents_view, match_token_view};
ghost use Rattle.lalrpop_norm_faults.specs.Faults.{Refuses};
ghost use Rattle.lalrpop_norm_token_check.specs.Found.{found_view, none_found, mapped_faults, with_mapped, found_item_faults};
ghost use Rattle.lalrpop_norm_token_check.specs.Found.{with_item, found_items_faults, with_items, groups_faults};
ghost use Rattle.lalrpop_norm_token_check.specs.Found.{with_groups, block_faults, with_block};

use super::found::{Found, add_entry, add_name, add_place, own_mapping};
use lalrpop_norm_faults::NormResult;
use lalrpop_norm_tree::grammar::parse_tree::{
    MatchContents, MatchItem, MatchMapping, MatchToken, Span, TerminalLiteral,
};
use std::alloc::Global;

/// Adds the entries of the match block, if there is one.
pub(super) fn add_block(
    alloc: Global,
    found: &mut Found,
    block: Option<&MatchToken>,
) -> NormResult<()>
    requires { found_view found.old ≡ none_found }
    ensures refuses { Refuses result (block_faults (option_map (λ m. match_token_view m.now) block.entry)) }
    ensures adds { OnOk result (found_view found.new ≡ with_block (option_map (λ m. match_token_view m.now) block.entry)) }
{
    match block {
        Some(block) => add_groups(alloc, found, &block.contents),
        None => Ok(()),
    }
}

fn add_groups(alloc: Global, found: &mut Found, groups: &[MatchContents]) -> NormResult<()>
    ensures refuses { Refuses result (groups_faults (found_view found.old) (map match_contents_view groups.now)) }
    ensures adds { OnOk result (found_view found.new ≡ with_groups (found_view found.old) (map match_contents_view groups.now)) }
{
    for index in 0..groups.len() {
        add_items(alloc, found, groups.len() - index, &groups[index].items)?;
    }
    Ok(())
}

fn add_items(
    alloc: Global,
    found: &mut Found,
    precedence: usize,
    items: &[MatchItem],
) -> NormResult<()>
    requires { precedence < 2 ^ 63 }
    ensures refuses { Refuses result (found_items_faults precedence (found_view found.old) items.now) }
    ensures adds { OnOk result (found_view found.new ≡ with_items precedence (found_view found.old) items.now) }
{
    for item in items {
        add_item(alloc, found, precedence, item)?;
    }
    Ok(())
}

fn add_item(alloc: Global, found: &mut Found, precedence: usize, item: &MatchItem) -> NormResult<()>
    requires { precedence < 2 ^ 63 }
    ensures refuses { Refuses result (found_item_faults (found_view found.old) item.now) }
    ensures adds { OnOk result (found_view found.new ≡ with_item precedence (found_view found.old) item.now) }
{
    match item {
        MatchItem::CatchAll(_) => Ok(()),
        MatchItem::Unmapped(literal, span) => {
            let mapping = own_mapping(literal)?;
            add_mapped(alloc, found, precedence, literal, &mapping, *span)
        }
        MatchItem::Mapped(literal, mapping, span) => {
            add_mapped(alloc, found, precedence, literal, mapping, *span)
        }
    }
}

fn add_mapped(
    alloc: Global,
    found: &mut Found,
    precedence: usize,
    literal: &TerminalLiteral,
    mapping: &MatchMapping,
    span: Span,
) -> NormResult<()>
    requires { precedence < 2 ^ 63 }
    ensures refuses { Refuses result (mapped_faults (found_view found.old) literal.now mapping.now span) }
    ensures adds { OnOk result (found_view found.new ≡ with_mapped precedence (found_view found.old) literal.now mapping.now span) }
{
    add_place(alloc, &mut found.places, literal, span)?;
    match mapping {
        MatchMapping::Terminal(terminal) => add_name(alloc, &mut found.names, terminal, span)?,
        MatchMapping::Skip => {}
    }
    add_entry(&mut found.entries, precedence, literal, mapping)?;
    Ok(())
}
