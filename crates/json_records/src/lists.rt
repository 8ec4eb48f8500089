//! Lists, and values that may be absent.
ghost use Rattle.std.specs.Prelude.{◌≡◌, [], ◌∷◌, ◌++◌, IfOk, OnOk};
ghost use Rattle.json_records.specs.Reading.{may_be, maybe_form};
ghost use Rattle.json_records.specs.Readers.{ReadsForm, ReadsList, NotJsonOnlyIfNoData, IsNeverNotJson, LeavesNoMore};

use crate::error::{ReadError, next_item};
use crate::scalars::open_array;
use json::{Reader, Token};
use std::alloc::Global;

/// How values of a type are read of the tokens of their JSON form.
pub trait Reads<T> {
    ghost use Rattle.std.specs.Prelude.{Bool};
    ghost use Rattle.serde_json.specs.Data.{Data};

    ghost form: { T → Data };

    ghost can: { Data → Bool };

    /// The value whose form the JSON value is that begins with the token, of no more levels than `depth`; none where that can be
    /// read as no value. The JSON value is passed over.
    ///
    /// # Errors
    ///
    /// `NotJson`: no JSON value begins there. `Memory`: nothing is said of it.
    fn read<'a>(
        alloc: Global,
        first: Token<'a>,
        reader: &mut Reader<'a>,
        depth: usize,
    ) -> Result<Option<T>, ReadError>
        ensures ok { ReadsForm result form can depth first.entry reader.old reader.new }
        ensures err { NotJsonOnlyIfNoData result depth first.entry reader.old }
        ensures shorter { LeavesNoMore result reader.old reader.new };
}

/// One more item, for which the list takes just the room where it is the first: most lists are short.
pub fn push<T: Drop>(list: &mut Vec<T>, item: T) -> Result<(), ReadError>
    ensures ok { OnOk result (list.new.items ≡ list.old.items ++ item ∷ []) }
    ensures err { IsNeverNotJson result }
{
    push_onto(list, item, 1)
}

/// One more item; where it is the first, the list takes room for so many. A full list of 64 to 4,095 items grows eightfold, so that
/// they are moved seldom; room that is not written to takes no memory.
pub(crate) fn push_onto<T: Drop>(list: &mut Vec<T>, item: T, room: usize) -> Result<(), ReadError>
    ensures ok { OnOk result (list.new.items ≡ list.old.items ++ item ∷ []) }
    ensures err { IsNeverNotJson result }
{
    let count = list.len();
    if count == 0 {
        list.reserve_exact(room)?;
    } else if count == list.capacity() && (64..4_096).contains(&count) {
        list.reserve_exact(7 * count)?;
    }
    list.push(item)?;
    Ok(())
}

/// The list without room to spare.
pub fn fitted<T: Drop>(mut list: Vec<T>) -> Result<Vec<T>, ReadError>
    ensures ok { IfOk result (λ xs. xs.items ≡ list.items) }
    ensures err { IsNeverNotJson result }
{
    if list.capacity() > list.len() {
        list.shrink_to_fit();
        if list.capacity() > list.len() {
            return Err(ReadError::Memory);
        }
    }
    Ok(list)
}

/// The array of values of one type.
pub fn read_list<'a, T: Drop, K: Reads<T>>(
    alloc: Global,
    first: Token<'a>,
    reader: &mut Reader<'a>,
    depth: usize,
) -> Result<Option<Vec<T>>, ReadError>
    ensures ok { ReadsList result K.Reads.form K.Reads.can depth first.entry reader.old reader.new }
    ensures err { NotJsonOnlyIfNoData result depth first.entry reader.old }
    ensures shorter { LeavesNoMore result reader.old reader.new }
{
    let Some(depth) = open_array(first, reader, depth)? else {
        return Ok(None);
    };
    let mut list = Vec::new(alloc);
    let mut good = true;
    while let Some(first) = next_item(reader)? {
        match K::read(alloc, first, reader, depth)? {
            Some(item) => push(&mut list, item)?,
            None => good = false,
        }
    }
    if good {
        Ok(Some(fitted(list)?))
    } else {
        Ok(None)
    }
}

/// Null, or what is there.
pub fn read_maybe<'a, T, K: Reads<T>>(
    alloc: Global,
    first: Token<'a>,
    reader: &mut Reader<'a>,
    depth: usize,
) -> Result<Option<Option<T>>, ReadError>
    ensures ok { ReadsForm result (maybe_form K.Reads.form) (may_be K.Reads.can) depth first.entry reader.old reader.new }
    ensures err { NotJsonOnlyIfNoData result depth first.entry reader.old }
    ensures shorter { LeavesNoMore result reader.old reader.new }
{
    if let Token::Null = first {
        return Ok(Some(None));
    }
    match K::read(alloc, first, reader, depth)? {
        Some(value) => Ok(Some(Some(value))),
        None => Ok(None),
    }
}
