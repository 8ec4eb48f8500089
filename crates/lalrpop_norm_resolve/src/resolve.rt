//! Resolving names: each identifier becomes the nonterminal or the bare terminal that it means.
//!
//! Global names come in this order: rules, then the bare terminals of conversions, then those of match blocks. In a rule a name
//! is the rule's argument of that name, else the global one.
ghost use Rattle.std.specs.Prelude.{◌≡◌, [], IfOk};
ghost use Rattle.lalrpop_norm_tree.specs.Items.{grammar_view};
ghost use Rattle.lalrpop_norm_faults.specs.Faults.{Refuses, RefusesOr};
ghost use Rattle.lalrpop_norm_model.specs.Scopes.{globals, resolved_grammar};
ghost use Rattle.lalrpop_norm_resolve.specs.NameFaults.{repeated_faults, resolve_faults};

pub(crate) mod globals;
pub(crate) mod items;
mod rules;
pub(crate) mod seed;
pub(crate) mod symbols;

use crate::names::resolve_names;
use globals::globals_of;
use lalrpop_norm_faults::NormResult;
use lalrpop_norm_names::Seeded;
use lalrpop_norm_tree::grammar::parse_tree::{Atom, Grammar};
use std::alloc::Global;
use std::collections::HashMap;

/// What a name stands for.
#[derive(Clone, Copy, Debug, PartialEq, Eq)]
pub(crate) enum Def {
    Terminal,
    /// A rule without arguments.
    Rule,
    /// A rule with arguments, and how many.
    Macro(usize),
    MacroArg,
}

impl Def {
    /// In words, for messages.
    fn description(self) -> &'static str {
        match self {
            Def::Terminal => "terminal",
            Def::Rule => "nonterminal",
            Def::Macro(_) => "macro",
            Def::MacroArg => "macro argument",
        }
    }
}

/// What each global name stands for.
pub(crate) type GlobalTable = HashMap<Atom, Def, Seeded>;

/// The grammar with each identifier in its alternatives as the nonterminal or bare terminal that it means, all else as it was.
///
/// The first name fault is reported (F25 to F32): a name that is defined twice, at the later definition; then rule by rule an
/// argument that is named twice, at the rule, and a name that is not in scope or means the wrong thing, at its symbol or
/// condition. The grammar is consumed, also if it is rejected. The other error is a failed allocation.
pub fn resolve(alloc: Global, grammar: Grammar) -> NormResult<Grammar>
    ensures resolves { RefusesOr result (resolve_faults (grammar_view grammar))
        (λ g. grammar_view g ≡ resolved_grammar (grammar_view grammar)) }
    // resolving what it answers finds no fault and changes nothing
    ensures once { IfOk result (λ g. (resolve_faults (grammar_view g) ≡ []) × (resolved_grammar (grammar_view g) ≡ grammar_view g)) }
{
    let resolved = resolve_names(alloc, grammar)?;
    Ok(resolved.grammar)
}

/// Looks for a name that is defined twice among the global ones (F25), and reports it at the later definition.
///
/// The other error is a failed allocation.
pub fn check_globals(alloc: Global, grammar: &Grammar) -> NormResult<()>
    ensures { Refuses result (repeated_faults [] (globals (grammar_view grammar.now))) }
{
    let _globals = globals_of(alloc, &grammar.items)?;
    Ok(())
}
