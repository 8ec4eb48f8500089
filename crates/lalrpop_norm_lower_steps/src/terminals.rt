//! The terminals of a tokenizer's entries, and the numbers of terminals.
ghost use Rattle.std.specs.Prelude.{◌≡◌, ◌++◌, [], ◌∷◌, IfOk, OnOk, if◌then◌else◌};
ghost use Rattle.std.specs.BTreeMap.{insert_entry};
ghost use Rattle.lalrpop_norm_lower_steps.specs.Terminals.{sorted_terminals, numbered_terminals, terminal_cmp, terminal_of_mapping};

use lalrpop_norm_repr::grammar::repr::{TerminalSet, TerminalString};
use lalrpop_norm_tree::grammar::parse_tree::{MatchEntry, MatchMapping, NoMemory};
use std::alloc::Global;
use std::collections::BTreeMap;

/// The terminal of an entry: the one that it names. A skip has none, and so no number.
pub fn terminal_of_entry(entry: &MatchEntry) -> Result<Option<TerminalString>, NoMemory>
    ensures { IfOk result (λ o. o ≡ terminal_of_mapping entry.now.user_name) }
{
    match &entry.user_name {
        MatchMapping::Terminal(terminal) => Ok(Some(terminal.clone()?)),
        MatchMapping::Skip => Ok(None),
    }
}

/// The terminals with their numbers: the given ones, then the error terminal where it is used.
pub fn terminal_set(
    alloc: Global,
    mut all: Vec<TerminalString>,
    recovers: bool,
) -> Result<TerminalSet, NoMemory>
    ensures all { IfOk result (λ s. s.all.items ≡ all.items ++ (if recovers then TerminalString.Error ∷ [] else [])) }
    ensures bits { IfOk result (λ s. s.bits.entries ≡ sorted_terminals [] (numbered_terminals 0 s.all.items)) }
{
    if recovers {
        all.push(TerminalString::Error)?;
    }
    let bits = numbers_of(alloc, &all)?;
    Ok(TerminalSet { all, bits })
}

fn numbers_of(
    alloc: Global,
    terminals: &[TerminalString],
) -> Result<BTreeMap<TerminalString, usize>, NoMemory>
    ensures { IfOk result (λ m. m.entries ≡ sorted_terminals [] (numbered_terminals 0 terminals.now)) }
{
    let mut numbers = BTreeMap::new(alloc);
    for number in 0..terminals.len() {
        number_terminal(&mut numbers, &terminals[number], number)?;
    }
    Ok(numbers)
}

fn number_terminal(
    numbers: &mut BTreeMap<TerminalString, usize>,
    terminal: &TerminalString,
    number: usize,
) -> Result<(), NoMemory>
    ensures { OnOk result (numbers.new.entries ≡ insert_entry terminal_cmp numbers.old.entries terminal.now number) }
{
    let terminal = terminal.clone()?;
    numbers.insert(terminal, number)?;
    Ok(())
}
