//! Start symbols of public rules: their names, and the tables that have them.
ghost use Rattle.std.specs.Prelude.{◌≡◌, [], ◌++◌, IfOk, OnOk, map, string_bytes};
ghost use Rattle.lalrpop_norm_repr.specs.Productions.{nonterminal_data_view};
ghost use Rattle.lalrpop_norm_repr.specs.Tables.{rows};
ghost use Rattle.lalrpop_norm_lower.specs.Lowering.{start_name, with_entry, sorted_onto};
ghost use Rattle.lalrpop_norm_lower.specs.Starts.{start_named};

use lalrpop_norm_repr::grammar::repr::NonterminalData;
use lalrpop_norm_tree::grammar::parse_tree as pt;
use lalrpop_norm_tree::grammar::parse_tree::{Atom, NoMemory, NonterminalString};
use std::alloc::Global;
use std::collections::BTreeMap;

/// A public rule, the name of its start symbol, and whether that name is taken: it has a type already.
#[derive(Drop)]
pub(crate) struct Start<'g> {
    pub(crate) rule: &'g pt::NonterminalData,
    pub(crate) name: NonterminalString,
    pub(crate) taken: bool,
}

/// The name of a start symbol.
pub(crate) fn start_name(
    alloc: Global,
    prefix: &str,
    name: &NonterminalString,
) -> Result<NonterminalString, NoMemory>
    ensures { IfOk result (λ n. n ≡ start_name prefix.now name.now) }
{
    let text = start_text(alloc, prefix, name)?;
    let name = Atom::new(alloc, text.as_str())?;
    Ok(NonterminalString(name))
}

/// The text of that name.
fn start_text(alloc: Global, prefix: &str, name: &NonterminalString) -> Result<String, NoMemory>
    ensures { IfOk result (λ s. string_bytes s ≡ prefix.now ++ name.now.0) }
{
    Ok(format!(in alloc; "{prefix}{name}")?)
}

/// Puts a nonterminal into the table.
#[tactic(auto, using(lalrpop_norm_repr::proofs::RowOrder::rows_inserted))]
pub(crate) fn insert(
    nonterminals: &mut BTreeMap<NonterminalString, NonterminalData>,
    name: NonterminalString,
    entry: NonterminalData,
) -> Result<(), NoMemory>
    ensures { OnOk result (rows nonterminal_data_view nonterminals.new
        ≡ with_entry (rows nonterminal_data_view nonterminals.old) (name, nonterminal_data_view entry)) }
{
    nonterminals.insert(name, entry)?;
    Ok(())
}

/// For each public rule its start symbol.
pub(crate) fn start_table(
    alloc: Global,
    starts: &[Start],
) -> Result<BTreeMap<NonterminalString, NonterminalString>, NoMemory>
    ensures { IfOk result (λ m. m.entries ≡ sorted_onto [] (map start_named starts.now)) }
{
    let mut table = BTreeMap::new(alloc);
    for start in starts {
        table.insert(start.rule.name.clone()?, start.name.clone()?)?;
    }
    Ok(table)
}
