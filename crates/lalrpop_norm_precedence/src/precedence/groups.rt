//! Alternatives with their levels, level by level.
ghost use Rattle.std.specs.Prelude.{◌≡◌, ◌<◌, [], IfOk, OnOk, Some, length, map, slice_get, vec_len};
ghost use Rattle.lalrpop_norm_theory.specs.Rounds.{In};
ghost use Rattle.lalrpop_norm_tree.specs.Items.{alternative_view};
ghost use Rattle.lalrpop_norm_model.specs.Levels.{Leveled, rising};
ghost use Rattle.lalrpop_norm_model.specs.Stated.{IsRising};
ghost use Rattle.lalrpop_norm_precedence_steps.specs.StatedLevels.{alternative_level_view};
ghost use Rattle.lalrpop_norm_precedence.specs.Grouped.{marked_view, group_view, marked_with, pushed, grouped};

use super::{AlternativeLevel, Assoc};
use lalrpop_norm_tree::grammar::parse_tree::{Alternative, NoMemory};
use std::alloc::Global;
use std::collections::BTreeSet;

/// An alternative with its level and associativity.
#[derive(Drop)]
pub(super) struct Marked {
    pub(super) level: u32,
    pub(super) side: Assoc,
    pub(super) alternative: Alternative,
}

/// The alternatives of a level, in order.
#[derive(Drop)]
pub(super) struct Group {
    pub(super) level: u32,
    pub(super) alternatives: Vec<Marked>,
}

/// Each alternative with the level and the associativity at its index.
pub(super) fn mark(
    alloc: Global,
    alternatives: Vec<Alternative>,
    levels: &[AlternativeLevel],
) -> Result<Vec<Marked>, NoMemory>
    requires { length levels.now ≡ vec_len alternatives }
    ensures { IfOk result (λ marked. map marked_view marked.items
        ≡ marked_with (map alternative_level_view levels.now) (map alternative_view alternatives.items)) }
{
    let mut marked = Vec::with_capacity(alloc, alternatives.len())?;
    let mut i = 0;
    for alternative in alternatives {
        let AlternativeLevel { level, side } = levels[i];
        marked.push(Marked {
            level,
            side,
            alternative,
        })?;
        i += 1;
    }
    Ok(marked)
}

/// The alternatives in groups, one for each level, rising.
pub(super) fn group_by_level(alloc: Global, marked: Vec<Marked>) -> Result<Vec<Group>, NoMemory>
    ensures { IfOk result (λ groups. map group_view groups.items ≡ grouped (map marked_view marked.items)) }
{
    let levels = levels_of(alloc, &marked)?;
    let mut groups = empty_groups(alloc, &levels)?;
    for alternative in marked {
        let i = rank(&levels, alternative.level);
        push_to(&mut groups, i, alternative)?;
    }
    Ok(groups)
}

/// The levels, each once, rising.
fn levels_of(alloc: Global, marked: &[Marked]) -> Result<Vec<u32>, NoMemory>
    ensures { IfOk result (λ levels. levels.items ≡ rising (map (λ (a : Leveled). a.level) (map marked_view marked.now))) }
{
    let set = distinct(alloc, marked)?;
    listed(alloc, &set)
}

/// The set of the levels.
fn distinct(alloc: Global, marked: &[Marked]) -> Result<BTreeSet<u32>, NoMemory>
    ensures { IfOk result (λ levels. levels.keys ≡ rising (map (λ (a : Leveled). a.level) (map marked_view marked.now))) }
{
    let mut levels = BTreeSet::new(alloc);
    for i in (0..marked.len()).rev() {
        levels.insert(marked[i].level)?;
    }
    Ok(levels)
}

pub(super) fn listed(alloc: Global, levels: &BTreeSet<u32>) -> Result<Vec<u32>, NoMemory>
    ensures { IfOk result (λ list. list.items ≡ levels.now.keys) }
{
    let mut list = Vec::new(alloc);
    for level in levels.iter() {
        list.push(*level)?;
    }
    Ok(list)
}

fn empty_groups(alloc: Global, levels: &[u32]) -> Result<Vec<Group>, NoMemory>
    ensures { IfOk result (λ groups. map group_view groups.items ≡ map (λ l. (l, [])) levels.now) }
{
    let mut groups = Vec::with_capacity(alloc, levels.len())?;
    for level in levels {
        groups.push(Group {
            level: *level,
            alternatives: Vec::new(alloc),
        })?;
    }
    Ok(groups)
}

/// The index of a level in a rising list that has it.
pub(super) fn rank(levels: &[u32], level: u32) -> usize
    requires rising { IsRising levels.now }
    requires there { In level levels.now }
    ensures { slice_get levels.now result ≡ Some level }
{
    match levels.binary_search(&level) {
        Ok(i) => i,
        Err(i) => i,
    }
}

fn push_to(groups: &mut Vec<Group>, i: usize, alternative: Marked) -> Result<(), NoMemory>
    requires { i < vec_len groups.old }
    ensures { OnOk result (map group_view groups.new.items ≡ pushed (map group_view groups.old.items) i (marked_view alternative)) }
{
    groups[i].alternatives.push(alternative)?;
    Ok(())
}
