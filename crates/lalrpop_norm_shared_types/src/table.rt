//! The table of types, where those of nonterminals share their parts.
ghost use Rattle.std.specs.BTreeMap.{insert_entry};
ghost use Rattle.std.specs.List.Sorted.{IsStrictlySortedBy};
ghost use Rattle.std.specs.Map.{keys_of};
ghost use Rattle.std.specs.Prelude.{◌≡◌, map, None, Some, option_map, IfOk, OnOk, OnErr};
ghost use Rattle.lalrpop_norm_theory.specs.Rounds.{IsDistinct};
ghost use Rattle.lalrpop_norm_tree_parts.specs.Reprs.{repr_view};
ghost use Rattle.lalrpop_norm_tree_names.specs.declared.names.NonterminalString.{NonterminalString};
ghost use Rattle.lalrpop_norm_repr.specs.Orders.{name_cmp, terminal_cmp};
ghost use Rattle.lalrpop_norm_repr.specs.Tables.{found, rows, type_of, type_table};
ghost use Rattle.lalrpop_norm_shared_types.specs.Shared.{shared_view};
ghost use Rattle.lalrpop_norm_shared_types.specs.Table.{shared_rows, shared_table};

use crate::shared::SharedType;
use lalrpop_norm_repr::grammar::repr::{NonterminalString, TypeRepr, Types};
use lalrpop_norm_tree::grammar::parse_tree::NoMemory;
use std::alloc::Global;
use std::collections::BTreeMap;

/// The types of nonterminals by name, and all others.
pub struct SharedTypes {
    /// All but those of nonterminals.
    rest: Types,
    nonterminals: BTreeMap<NonterminalString, SharedType>,
}

// As that of `Types`: a derived `Drop` would be proved anew wherever a value of it ends.
impl Drop for SharedTypes {
    fn drop(self) {
        let SharedTypes {
            rest: _rest,
            nonterminals: _nonterminals,
        } = self;
    }
}

impl SharedTypes {
    /// The table of those rows of nonterminals, whose names are distinct, and of all other types of `rest`. The only error is a
    /// failed allocation.
    pub fn of_rows(
        alloc: Global,
        rest: Types,
        listed: Vec<(NonterminalString, SharedType)>,
    ) -> Result<SharedTypes, NoMemory>
        requires { IsDistinct (map (λ r. r.0.0) listed.items) }
        ensures listed { IfOk result (λ t. (n : NonterminalString) → type_of n (shared_table t) ≡ found n (shared_rows listed.items)) }
        ensures rest { IfOk result (λ t. shared_table t ≡ record (type_table rest) { nonterminals = (shared_table t).nonterminals }) }
        ensures names_in_order { IfOk result (λ t. IsStrictlySortedBy name_cmp (keys_of (shared_table t).nonterminals)) }
        ensures terminals_in_order { IfOk result (λ t. IsStrictlySortedBy terminal_cmp (keys_of (shared_table t).terminals)) }
    {
        // A law, which does nothing: it gives the order of the terminals.
        rest.rows_ascend();
        let nonterminals: BTreeMap<NonterminalString, SharedType> = listed
            .into_iter()
            .collect(alloc)?;
        Ok(SharedTypes { rest, nonterminals })
    }

    /// That table, each type of a nonterminal made anew as one whose copies share it. The only error is a failed allocation.
    pub fn of(alloc: Global, types: Types) -> Result<SharedTypes, NoMemory>
        ensures { IfOk result (λ t. shared_table t ≡ type_table types) }
    {
        let mut rest = types;
        let nonterminals = shared_rows_of(alloc, rest.nonterminals())?;
        rest.set_nonterminals(BTreeMap::new(alloc));
        Ok(SharedTypes { rest, nonterminals })
    }

    /// The table with whole copies of the types of nonterminals. The only error is a failed allocation.
    pub fn into_types(self, alloc: Global) -> Result<Types, NoMemory>
        ensures { IfOk result (λ t. type_table t ≡ shared_table self) }
    {
        let SharedTypes {
            mut rest,
            nonterminals,
        } = self;
        let copies = copied_rows(alloc, &nonterminals)?;
        rest.set_nonterminals(copies);
        Ok(rest)
    }

    /// The types that are no nonterminal's, in a table where the nonterminals' rows count for nothing, and those of nonterminals.
    pub fn into_parts(self) -> (Types, BTreeMap<NonterminalString, SharedType>)
        ensures { record (type_table result.0) { nonterminals = rows shared_view result.1 } ≡ shared_table self }
    {
        let SharedTypes { rest, nonterminals } = self;
        (rest, nonterminals)
    }

    /// Gives a nonterminal that has no type yet (see `lookup_nonterminal_type`) its type. The only error is a failed
    /// allocation; the table is then as it was.
    pub fn add_type(&mut self, name: NonterminalString, ty: SharedType) -> Result<(), NoMemory>
        requires { type_of name (shared_table self.old) ≡ None }
        ensures added { OnOk result (type_of name (shared_table self.new) ≡ Some (shared_view ty)) }
        ensures others { OnOk result ((other : NonterminalString) → (other ≡ name → ⊥)
            → type_of other (shared_table self.new) ≡ type_of other (shared_table self.old)) }
        ensures rest { shared_table self.new ≡ record (shared_table self.old) { nonterminals = (shared_table self.new).nonterminals } }
        ensures err { OnErr result (shared_table self.new ≡ shared_table self.old) }
    {
        self.nonterminals.insert(name, ty)?;
        Ok(())
    }

    /// The nonterminal's type, if it has one yet.
    pub fn lookup_nonterminal_type(&self, name: &NonterminalString) -> Option<&SharedType>
        ensures { option_map (λ t. shared_view t.now) result ≡ type_of name.now (shared_table self.now) }
    {
        self.nonterminals.get(name)
    }

    /// The rows of the nonterminals: each that has a type, with it, in the order of their names.
    pub fn nonterminals(&self) -> &BTreeMap<NonterminalString, SharedType>
        ensures { rows shared_view result.now ≡ (shared_table self.now).nonterminals }
    {
        &self.nonterminals
    }

    /// The types that are no nonterminal's.
    pub fn rest(&self) -> &Types
        ensures { record (type_table result.now) { nonterminals = (shared_table self.now).nonterminals } ≡ shared_table self.now }
    {
        &self.rest
    }

    /// A law, which does nothing: the nonterminals are sorted by name, without repetition, and the terminals likewise.
    pub fn rows_ascend(&self)
        ensures nonterminals { IsStrictlySortedBy name_cmp (keys_of (shared_table self.now).nonterminals) }
        ensures terminals { IsStrictlySortedBy terminal_cmp (keys_of (shared_table self.now).terminals) }
    {
        let _nonterminals = self.nonterminals.len();
        self.rest.rows_ascend();
    }
}

/// The rows, each with a whole copy of its type.
pub(crate) fn copied_rows(
    alloc: Global,
    listed: &BTreeMap<NonterminalString, SharedType>,
) -> Result<BTreeMap<NonterminalString, TypeRepr>, NoMemory>
    ensures { IfOk result (λ m. rows repr_view m ≡ rows shared_view listed.now) }
{
    let mut copies = BTreeMap::new(alloc);
    for (name, ty) in listed {
        let name = name.clone()?;
        let ty = ty.to_repr(alloc)?;
        insert(&mut copies, name, ty)?;
    }
    Ok(copies)
}

/// The rows, each with its type as one that shares its parts.
fn shared_rows_of(
    alloc: Global,
    listed: &BTreeMap<NonterminalString, TypeRepr>,
) -> Result<BTreeMap<NonterminalString, SharedType>, NoMemory>
    ensures { IfOk result (λ m. rows shared_view m ≡ rows repr_view listed.now) }
{
    let mut shared = BTreeMap::new(alloc);
    for (name, ty) in listed {
        let name = name.clone()?;
        let ty = SharedType::of(alloc, ty)?;
        insert(&mut shared, name, ty)?;
    }
    Ok(shared)
}

fn insert<T: Drop>(
    rows: &mut BTreeMap<NonterminalString, T>,
    name: NonterminalString,
    ty: T,
) -> Result<(), NoMemory>
    ensures { OnOk result (rows.new.entries ≡ insert_entry name_cmp rows.old.entries name ty) }
{
    rows.insert(name, ty)?;
    Ok(())
}
