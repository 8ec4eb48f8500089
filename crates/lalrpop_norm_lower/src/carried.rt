//! What a lowered grammar has of the written one, but for rules.
ghost use Rattle.std.specs.Prelude.{◌≡◌, true, IfOk};
ghost use Rattle.lalrpop_norm_tree.specs.Items.{grammar_view};
ghost use Rattle.lalrpop_norm_common.specs.Sessions.{features_view};
ghost use Rattle.lalrpop_norm_model.specs.Expanded.{all_known};
ghost use Rattle.lalrpop_norm_lower.specs.CarriedOver.{IsCarriedOver};

use crate::head::{Head, Signature, head_of, signature_of};
use crate::tokens::{Tokens, tokens_of};
use lalrpop_norm_common::Session;
use lalrpop_norm_lower_steps::algorithm::algorithm_of;
use lalrpop_norm_repr::grammar::repr::Algorithm;
use lalrpop_norm_tree::grammar::parse_tree::{Grammar, NoMemory};
use std::alloc::Global;

/// All of a lowered grammar that is not made of its rules.
#[derive(Drop)]
pub(crate) struct Carried {
    pub(crate) head: Head,
    pub(crate) signature: Signature,
    pub(crate) algorithm: Algorithm,
    pub(crate) tokens: Tokens,
}

/// What is carried over from a grammar.
pub(crate) fn carried_of<L>(
    alloc: Global,
    session: &Session<L>,
    grammar: &Grammar,
) -> Result<Carried, NoMemory>
    requires { all_known (grammar_view grammar.now).attributes ≡ true }
    ensures { IfOk result (IsCarriedOver (features_view session.now.features) (grammar_view grammar.now)) }
{
    let head = head_of(alloc, grammar)?;
    let signature = signature_of(alloc, grammar)?;
    let tokens = tokens_of(alloc, session, grammar.span, &grammar.items)?;
    Ok(Carried {
        head,
        signature,
        algorithm: algorithm_of(&grammar.attributes),
        tokens,
    })
}
