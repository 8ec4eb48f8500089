//! Copies of lists of type parameters and of texts.
ghost use Rattle.std.specs.Prelude.{◌≡◌, IfOk, map, string_bytes};

use super::TypeParameter;
use std::alloc::AllocError;

/// A copy of the list. The only error is a failed allocation.
#[tactic(auto, using(std::proofs::lemmas::List::Elements::same_from_all_zip))]
pub fn copy_type_parameters(
    parameters: &Vec<TypeParameter>,
) -> Result<Vec<TypeParameter>, AllocError>
    ensures { IfOk result (λ ps. ps.items ≡ parameters.now.items) }
{
    Ok(parameters.clone()?)
}

/// A copy of each text, in order. The only error is a failed allocation.
#[tactic(auto, using(crate::proofs::CopyLemmas::same_views))]
pub fn copy_texts(texts: &Vec<String>) -> Result<Vec<String>, AllocError>
    ensures { IfOk result (λ copies. map string_bytes copies.items ≡ map string_bytes texts.now.items) }
{
    Ok(texts.clone()?)
}
