//! The fields of the records that lead back to themselves.
//!
//! Their readers have a table of `json_records`, and no `Fields` of it, which would lead back through a trait.
ghost use Rattle.std.specs.Prelude.{◌≡◌, ◌⊎◌, Some, None, true, false, MatchOption};

use json_records::{And, End, all_three};

/// The values of three fields, where each holds one and no member was another's.
pub(crate) fn three_values<A: Drop, B: Drop, C: Drop>(
    fields: And<A, And<B, And<C, End>>>,
    strays: bool,
) -> Option<(A, B, C)>
    ensures { MatchOption result
        ((strays ≡ true) ⊎ ((fields.first ≡ None) ⊎ ((fields.rest.first ≡ None) ⊎ (fields.rest.rest.first ≡ None))))
        (λ v. (strays ≡ false) × (fields.first ≡ Some v.0) × (fields.rest.first ≡ Some v.1) × (fields.rest.rest.first ≡ Some v.2)) }
{
    if strays {
        return None;
    }
    all_three(fields.first, fields.rest.first, fields.rest.rest.first)
}
