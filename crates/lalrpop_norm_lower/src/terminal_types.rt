//! The types of terminals, as types that share their parts.
ghost use Rattle.std.specs.BTreeMap.{insert_entry};
ghost use Rattle.std.specs.Prelude.{◌≡◌, IfOk, OnOk};
ghost use Rattle.lalrpop_norm_tree_parts.specs.Reprs.{repr_view};
ghost use Rattle.lalrpop_norm_repr.specs.Tables.{rows, type_table};
ghost use Rattle.lalrpop_norm_shared_types.specs.Shared.{shared_view};
ghost use Rattle.lalrpop_norm_lower.specs.TerminalTypes.{type_at_terminal, AreTypesOfTerminals};

use lalrpop_norm_repr::grammar::repr::{TypeRepr, Types};
use lalrpop_norm_shared_types::shared::SharedType;
use lalrpop_norm_tree::grammar::parse_tree::{NoMemory, TerminalString};
use std::alloc::Global;
use std::collections::BTreeMap;

/// The types of terminals, each made once: those of the terminals that are listed, and that of a token for all others.
pub(crate) struct TerminalTypes {
    token: SharedType,
    listed: BTreeMap<TerminalString, SharedType>,
}

// As that of `SharedTypes`: a derived `Drop` would be proved anew wherever a value of it ends.
impl Drop for TerminalTypes {
    fn drop(self) {
        let TerminalTypes {
            token: _token,
            listed: _listed,
        } = self;
    }
}

impl TerminalTypes {
    /// Those of a table.
    pub(crate) fn of(alloc: Global, types: &Types) -> Result<TerminalTypes, NoMemory>
        ensures { IfOk result (AreTypesOfTerminals (type_table types.now)) }
    {
        let token = SharedType::of(alloc, types.terminal_token_type())?;
        let listed = shared_rows(alloc, types.terminals())?;
        Ok(TerminalTypes { token, listed })
    }

    /// The type of a terminal: one more owner of it.
    pub(crate) fn get(&self, terminal: &TerminalString) -> Result<SharedType, NoMemory>
        ensures { IfOk result (λ t. shared_view t ≡ type_at_terminal self.now terminal.now) }
    {
        let ty = self.listed.get(terminal).unwrap_or(&self.token);
        Ok(ty.clone()?)
    }
}

/// The rows, each with its type as one that shares its parts.
fn shared_rows(
    alloc: Global,
    listed: &BTreeMap<TerminalString, TypeRepr>,
) -> Result<BTreeMap<TerminalString, SharedType>, NoMemory>
    ensures { IfOk result (λ m. rows shared_view m ≡ rows repr_view listed.now) }
{
    let mut shared = BTreeMap::new(alloc);
    for (terminal, ty) in listed {
        let terminal = terminal.clone()?;
        let ty = SharedType::of(alloc, ty)?;
        insert(&mut shared, terminal, ty)?;
    }
    Ok(shared)
}

fn insert<K: Ord + Drop, V: Drop>(
    rows: &mut BTreeMap<K, V>,
    key: K,
    value: V,
) -> Result<(), NoMemory>
    ensures { OnOk result (rows.new.entries ≡ insert_entry K.cmp rows.old.entries key value) }
{
    rows.insert(key, value)?;
    Ok(())
}
