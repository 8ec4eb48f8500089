//! Values that are passed over.
ghost use Rattle.std.specs.Prelude.{◌≡◌, ◌∷◌, Some, OnOk};
ghost use Rattle.json.specs.Reads.{token_of};
ghost use Rattle.serde_json.specs.Data.{Data, Items, Members};
ghost use Rattle.json_records.specs.Reading.{data_of, items_of, members_of};
ghost use Rattle.json_records.specs.Readers.{NotJsonOnlyIfNone, NotJsonOnlyIfNoData, LeavesNoMore};

use crate::error::{ReadError, next_item, next_member};
use crate::numbers::number;
use json::{Reader, Token};

/// Passes over the value that begins with the token, of no more levels than `depth`.
#[cycle(pass)]
pub fn pass<'a>(first: Token<'a>, reader: &mut Reader<'a>, depth: usize) -> Result<(), ReadError>
    ensures ok { OnOk result ((d : Data) × (data_of depth (token_of first.entry ∷ reader.old) ≡ Some (d, reader.new))) }
    ensures err { NotJsonOnlyIfNoData result depth first.entry reader.old }
    ensures shorter { LeavesNoMore result reader.old reader.new }
{
    match first {
        Token::String(_) | Token::Bool(_) | Token::Null => Ok(()),
        Token::Number(text) => match number(text) {
            Some(_) => Ok(()),
            None => Err(ReadError::NotJson),
        },
        Token::BeginArray => if depth == 0 {
            Err(ReadError::NotJson)
        } else {
            pass_items(reader, depth - 1)
        },
        Token::BeginObject => if depth == 0 {
            Err(ReadError::NotJson)
        } else {
            pass_members(reader, depth - 1)
        },
        Token::EndArray | Token::EndObject | Token::Key(_) | Token::Bad => {
            Err(ReadError::NotJson)
        }
    }
}

/// Passes over the items that are left of an array, and its bracket.
#[cycle(pass)]
pub(crate) fn pass_items(reader: &mut Reader<'_>, depth: usize) -> Result<(), ReadError>
    ensures ok { OnOk result ((ds : Items) × (items_of depth reader.old ≡ Some (ds, reader.new))) }
    ensures err { NotJsonOnlyIfNone result (items_of depth reader.old) }
    ensures shorter { LeavesNoMore result reader.old reader.new }
{
    while let Some(first) = next_item(reader)? {
        pass(first, reader, depth)?;
    }
    Ok(())
}

/// Passes over the members that are left of an object, and its brace.
#[cycle(pass)]
fn pass_members(reader: &mut Reader<'_>, depth: usize) -> Result<(), ReadError>
    ensures ok { OnOk result ((ms : Members) × (members_of depth reader.old ≡ Some (ms, reader.new))) }
    ensures err { NotJsonOnlyIfNone result (members_of depth reader.old) }
    ensures shorter { LeavesNoMore result reader.old reader.new }
{
    while let Some((_, first)) = next_member(reader)? {
        pass(first, reader, depth)?;
    }
    Ok(())
}
