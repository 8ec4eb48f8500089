//! The parts of a lowered grammar, by the module that users know.

/// What lowering makes: productions, actions, types.
pub mod repr {
    pub use crate::action::{
        ActionFn, ActionFnDefn, ActionFnDefnKind, InlineActionFnDefn, InlinedSymbol,
        LookaroundActionFnDefn, UserActionFnDefn,
    };
    pub use crate::production::{NonterminalData, Production};
    pub use crate::symbol::Symbol;
    pub use crate::types::Types;
    pub use crate::whole::{Grammar, Parameter, TerminalSet};
    pub use lalrpop_norm_tree::grammar::parse_tree::{
        ArgPattern, Attribute, InternToken, Lifetime, NonterminalString, Path, Span,
        TerminalLiteral, TerminalString, TypeBound, TypeParameter, Visibility,
    };
    pub use lalrpop_norm_tree::grammar::repr::{
        Algorithm, LrCodeGeneration, NominalTypeRepr, TypeRepr, WhereClause,
    };
}
