//! The rows of type tables are sorted by their keys.
ghost use Rattle.std.specs.List.Sorted.{IsStrictlySortedBy};
ghost use Rattle.std.specs.Map.{keys_of};
ghost use Rattle.lalrpop_norm_repr.specs.Orders.{name_cmp, terminal_cmp};
ghost use Rattle.lalrpop_norm_repr.specs.Tables.{type_table};

use super::Types;

impl Types {
    /// A law, which does nothing: the nonterminals are sorted by name, without repetition, and the terminals likewise.
    pub fn rows_ascend(&self)
        ensures nonterminals { IsStrictlySortedBy name_cmp (keys_of (type_table self.now).nonterminals) }
        ensures terminals { IsStrictlySortedBy terminal_cmp (keys_of (type_table self.now).terminals) }
    {
        let _nonterminals = self.nonterminal_types.len();
        let _terminals = self.terminal_types.len();
    }
}
