//! Macro calls, groups, repeats and location symbols of a grammar are desugared to rules.
#![tactic(auto)]

ghost use Rattle.lalrpop_norm_macro_expand.specs.Laws.{NamesStayDistinct};

pub mod macro_expand;

pub use macro_expand::traced::{expand_macros_traced, expand_resolved_traced};

/// If no fault holds in the expansion of a grammar whose rules have distinct names, the rules of the expanded grammar have
/// distinct names: those of the grammar's rules, and the text of each symbol that is desugared.
pub fn names_stay_distinct()
    ensures { NamesStayDistinct }
{}
