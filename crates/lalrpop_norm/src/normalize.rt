//! The whole way from a written grammar to its lowered one, and the passes that can be used by themselves.

pub use crate::passes::{
    normalize, normalize_rules, normalize_shared, normalize_shared_traced, normalize_traced,
};
pub use crate::traced::SharedTraced;
pub use lalrpop_norm_common::{Session, norm_util};
pub use lalrpop_norm_faults::{FaultKind, NormError, NormFailure, NormResult};
pub use lalrpop_norm_is_expanded::is_expanded;
pub use lalrpop_norm_lower::LoweredRules;
pub use lalrpop_norm_macro_expand::macro_expand;
pub use lalrpop_norm_prevalidate::prevalidate;
pub use lalrpop_norm_resolve::resolve;
pub use lalrpop_norm_token_check::token_check;

/// What the features of a session leave of a grammar, and where its alternatives come from.
pub mod cond_comp {
    pub use lalrpop_norm_prevalidate::cond_comp::{Origin, cfg_active, remove_disabled_decls};
}

/// Levels of precedence: the attributes that state them, and the rules that they become.
pub mod precedence {
    pub use lalrpop_norm_precedence::precedence::{
        ASSOC_ATTR, AlternativeLevel, Assoc, Direction, LVL_ARG, PREC_ATTR, ParseAssocError,
        SIDE_ARG, Substitution, expand_levels, expand_nonterm, expand_precedence, has_prec_attr,
        has_several_levels, read_levels, replace_nonterm,
    };
}

/// The types of rules and terminals.
pub mod tyinfer {
    pub use lalrpop_norm_tyinfer::tyinfer::infer_types;
}

/// Lowering, and the test of what it asks of a table of types.
pub mod lower {
    pub use lalrpop_norm_is_typed::is_typed;
    pub use lalrpop_norm_lower::lower;
}
