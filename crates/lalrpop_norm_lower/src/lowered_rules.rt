//! What lowering makes of the rules of a grammar.
ghost use Rattle.std.specs.Prelude.{◌≡◌, ◌+◌, [], IfOk, OnOk, length, map};
ghost use Rattle.lalrpop_norm_faults.specs.Faults.{Refuses};
ghost use Rattle.lalrpop_norm_shared_types.specs.Table.{shared_table};
ghost use Rattle.lalrpop_norm_lower.specs.Lowering.{public_rules_in, start_names, start_rows, sorted_onto};
ghost use Rattle.lalrpop_norm_lower.specs.Made.{made_faults, made_starts_faults};
ghost use Rattle.lalrpop_norm_lower.specs.LoweredRules.{IsProduced};
ghost use Rattle.lalrpop_norm_lower.specs.Starts.{typed_row};
ghost use Rattle.lalrpop_norm_lower.specs.State.{state_nonterminals, rules_in};
ghost use Rattle.lalrpop_norm_lower.specs.StartTypes.{start_types, AddsTypes};

use crate::nonterminals::{add_rules, add_starts};
use crate::start_types::{add_start_types, starts_among, typed_starts};
use crate::starts::start_table;
use crate::state::RuleState;
use lalrpop_norm_faults::NormResult;
use lalrpop_norm_repr::grammar::repr::{NonterminalData, NonterminalString};
use lalrpop_norm_shared_types::shared::SharedType;
use lalrpop_norm_shared_types::table::SharedTypes;
use lalrpop_norm_tree::grammar::parse_tree::GrammarItem;
use std::alloc::Global;
use std::collections::BTreeMap;

/// The nonterminals with their numbered productions, the start symbols and the types of a lowered grammar.
#[derive(Drop)]
pub struct LoweredRules {
    /// For each public rule its start symbol.
    pub start_nonterminals: BTreeMap<NonterminalString, NonterminalString>,
    /// All of them, start symbols too, with their productions.
    pub nonterminals: BTreeMap<NonterminalString, NonterminalData>,
    /// The types of all nonterminals, and of terminals.
    pub types: SharedTypes,
}

/// What is made of rules but for types: the start symbols of public ones, the nonterminals with their productions, and whether `!`
/// occurs in an alternative.
#[derive(Drop)]
pub(crate) struct Produced {
    pub(crate) start_nonterminals: BTreeMap<NonterminalString, NonterminalString>,
    pub(crate) nonterminals: BTreeMap<NonterminalString, NonterminalData>,
    pub(crate) recovers: bool,
}

/// Start symbols of public rules: for each rule its start symbol, and each start symbol with its type.
#[derive(Drop)]
pub(crate) struct StartSymbols {
    pub(crate) names: BTreeMap<NonterminalString, NonterminalString>,
    pub(crate) types: Vec<(NonterminalString, SharedType)>,
}

/// What is made of the rules among the items. The table gets the types of the start symbols.
pub(crate) fn produce(
    alloc: Global,
    prefix: &str,
    types: &mut SharedTypes,
    items: Vec<GrammarItem>,
) -> NormResult<Produced>
    ensures refuses { Refuses result (made_faults prefix.now (shared_table types.old) (rules_in items.items)) }
    ensures produced { IfOk result (IsProduced prefix.now (rules_in items.items)) }
    ensures types { OnOk result (AddsTypes (shared_table types.old) (shared_table types.new)
        (start_types prefix.now (shared_table types.old) (public_rules_in (rules_in items.items)))) }
{
    let mut state = RuleState {
        alloc,
        number: 0,
        nonterminals: BTreeMap::new(alloc),
    };
    let starts = start(&mut state, prefix, types, &items)?;
    let start_nonterminals = starts.names;
    add_start_types(types, starts.types)?;
    let recovers = add_rules(&mut state, items)?;
    Ok(Produced {
        start_nonterminals,
        nonterminals: state.nonterminals,
        recovers,
    })
}

/// Adds the start symbols of the public rules among the items, and answers them.
pub(crate) fn start(
    state: &mut RuleState,
    prefix: &str,
    types: &SharedTypes,
    items: &[GrammarItem],
) -> NormResult<StartSymbols>
    ensures refuses { Refuses result
        (made_starts_faults prefix.now (shared_table types.now) state.old.number (public_rules_in (rules_in items.now))) }
    ensures table { OnOk result (state_nonterminals state.new
        ≡ sorted_onto (state_nonterminals state.old)
        (start_rows prefix.now state.old.number (public_rules_in (rules_in items.now)))) }
    ensures count { OnOk result (state.new.number ≡ state.old.number + length (public_rules_in (rules_in items.now))) }
    ensures names { IfOk result
        (λ s. s.names.entries ≡ sorted_onto [] (start_names prefix.now (public_rules_in (rules_in items.now)))) }
    ensures types { IfOk result
        (λ s. map typed_row s.types.items ≡ start_types prefix.now (shared_table types.now) (public_rules_in (rules_in items.now))) }
{
    let starts = starts_among(state.alloc, prefix, types, items)?;
    let typed = typed_starts(state.alloc, types, &starts)?;
    add_starts(state, &starts)?;
    let names = start_table(state.alloc, &starts)?;
    Ok(StartSymbols {
        names,
        types: typed,
    })
}
