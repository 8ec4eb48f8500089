//! The parts of a grammar, by the modules that users know.

/// What a parser of grammars makes: items, rules, symbols, types.
pub mod parse_tree {
    pub use crate::items::{
        ActionKind, Alternative, AssociatedType, Condition, ConditionOp, Conversion, Dfa,
        EnumToken, ExternToken, Grammar, GrammarItem, InternToken, MatchContents, MatchEntry,
        MatchItem, MatchMapping, MatchSymbol, MatchToken, NonterminalData, Visibility,
    };
    pub use crate::symbol::accessors::{Binding, GrammarSymbol};
    pub use crate::symbol::{
        ArgPattern, ExprSymbol, MacroSymbol, Name, RepeatOp, RepeatSymbol, Symbol, SymbolKind,
        Tuple,
    };
    pub use crate::types::repr::TypeReprError;
    pub use crate::types::{Parameter, TypeRef};
    pub use lalrpop_norm_tree_parts::attribute::algorithm::{is_known_attribute, read_algorithm};
    pub use lalrpop_norm_tree_parts::attribute::{Attribute, AttributeArg};
    pub use lalrpop_norm_tree_parts::bound::{TypeBound, TypeBoundParameter, WhereClause};
    pub use lalrpop_norm_tree_parts::names::{
        Lifetime, NonterminalString, Span, TerminalLiteral, TerminalString, TypeParameter,
    };
    pub use lalrpop_norm_tree_parts::path::Path;
    pub use shared_text::{Atom, NoMemory};
}

/// Patterns of conversions.
pub mod pattern {
    pub use lalrpop_norm_tree_patterns::pattern::{FieldPattern, Pattern, PatternKind};
}

/// The types of lowered grammars that need no table.
pub mod repr {
    pub use lalrpop_norm_tree_parts::lowered::{
        Algorithm, LrCodeGeneration, NominalTypeRepr, TypeRepr, WhereClause,
    };
}

/// A copy that a pass makes of a part.
pub mod copy {
    pub use crate::items::copy::copy_action;
}
