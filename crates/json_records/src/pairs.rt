//! Lists of which most have two items.
ghost use Rattle.std.specs.Prelude.{◌≡◌, [], ◌∷◌, ◌++◌, OnOk};
ghost use Rattle.json_records.specs.Readers.{IsNeverNotJson};

use crate::error::ReadError;
use crate::lists::push_onto;

/// One more item. With the first one the list takes room for the second one.
pub fn push<T: Drop>(list: &mut Vec<T>, item: T) -> Result<(), ReadError>
    ensures ok { OnOk result (list.new.items ≡ list.old.items ++ item ∷ []) }
    ensures err { IsNeverNotJson result }
{
    push_onto(list, item, 2)
}
