//! Lowered grammars whose types share their parts.
ghost use Rattle.std.specs.Prelude.{◌≡◌, IfOk, map};
ghost use Rattle.lalrpop_norm_repr.specs.Actions.{action_defn_view};
ghost use Rattle.lalrpop_norm_repr.specs.Lowered.{lowered_grammar_view};
ghost use Rattle.lalrpop_norm_shared_types.specs.Actions.{shared_action_view};
ghost use Rattle.lalrpop_norm_shared_types.specs.Grammars.{shared_grammar_view};

use crate::action::SharedActionFnDefn;
use crate::shared::SharedType;
use crate::table::copied_rows;
use lalrpop_norm_repr::grammar::repr::{ActionFnDefn, Grammar, NonterminalString};
use lalrpop_norm_tree::grammar::parse_tree::NoMemory;
use std::alloc::Global;
use std::collections::BTreeMap;

/// A lowered grammar, where the types of actions and of nonterminals share their parts.
pub struct SharedGrammar {
    /// All but its actions and the types of its nonterminals: what stands there in their places counts for nothing. So ask it for
    /// no action (`action_is_fallible`) and for no nonterminal's type (`types`).
    pub rest: Grammar,
    /// The actions, in the order of their numbers.
    pub action_fn_defns: Vec<SharedActionFnDefn>,
    /// The type of each nonterminal.
    pub nonterminal_types: BTreeMap<NonterminalString, SharedType>,
}

// As that of `Grammar`: a derived `Drop` would be proved anew wherever a value of it ends.
impl Drop for SharedGrammar {
    fn drop(self) {
        let SharedGrammar {
            rest: _rest,
            action_fn_defns: _action_fn_defns,
            nonterminal_types: _nonterminal_types,
        } = self;
    }
}

impl SharedGrammar {
    /// The lowered grammar with whole copies of its types. The only error is a failed allocation.
    pub fn into_repr(self, alloc: Global) -> Result<Grammar, NoMemory>
        ensures { IfOk result (λ g. lowered_grammar_view g ≡ shared_grammar_view self) }
    {
        let SharedGrammar {
            mut rest,
            action_fn_defns,
            nonterminal_types,
        } = self;
        rest.action_fn_defns = actions_of(alloc, action_fn_defns)?;
        let types = copied_rows(alloc, &nonterminal_types)?;
        rest.types.set_nonterminals(types);
        Ok(rest)
    }
}

/// The actions with whole copies of their types.
fn actions_of(
    alloc: Global,
    actions: Vec<SharedActionFnDefn>,
) -> Result<Vec<ActionFnDefn>, NoMemory>
    ensures { IfOk result (λ ds. map action_defn_view ds.items ≡ map shared_action_view actions.items) }
{
    let mut copies = Vec::with_capacity(alloc, actions.len())?;
    for action in actions {
        copies.push(action.into_repr(alloc)?)?;
    }
    Ok(copies)
}
