//! Copies of nonterminals.
ghost use Rattle.std.specs.Prelude.{◌≡◌, IfOk, map};
ghost use Rattle.lalrpop_norm_repr.specs.Productions.{nonterminal_data_view, production_view};

use super::{NonterminalData, Production};
use lalrpop_norm_tree_parts::attribute::copy::copy_attributes;
use std::alloc::AllocError;

impl Clone for NonterminalData {
    ghost is_clone = { λ n m. nonterminal_data_view m ≡ nonterminal_data_view n };

    fn clone(&self) -> Result<NonterminalData, AllocError> {
        let visibility = self.visibility.clone()?;
        let attributes = copy_attributes(&self.attributes)?;
        let productions = copy_productions(&self.productions)?;
        Ok(NonterminalData {
            visibility,
            span: self.span,
            attributes,
            productions,
        })
    }
}

#[tactic(auto, using(lalrpop_norm_tree_parts::proofs::CopyLemmas::same_views))]
fn copy_productions(productions: &Vec<Production>) -> Result<Vec<Production>, AllocError>
    ensures { IfOk result (λ copies. map production_view copies.items ≡ map production_view productions.now.items) }
{
    Ok(productions.clone()?)
}
