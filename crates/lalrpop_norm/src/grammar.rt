//! The types of written and lowered grammars.

pub use lalrpop_norm_repr::grammar::repr;
pub use lalrpop_norm_tree::grammar::{parse_tree, pattern};

/// Lowered grammars whose types share their parts, such types, and the table of the types of nonterminals.
pub mod shared {
    pub use lalrpop_norm_shared_types::action::{
        SharedActionFnDefn, SharedActionFnDefnKind, SharedUserActionFnDefn,
    };
    pub use lalrpop_norm_shared_types::grammar::SharedGrammar;
    pub use lalrpop_norm_shared_types::shared::{AppliedPath, SharedType, TypeNode};
    pub use lalrpop_norm_shared_types::table::SharedTypes;
}
