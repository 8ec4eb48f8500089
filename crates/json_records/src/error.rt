//! Why nothing is read, and the token that comes next.
ghost use Rattle.std.specs.Prelude.{◌≡◌, ℕ, [], ◌∷◌, Some, None, MatchOption, IfOk, IsErr};
ghost use Rattle.json.specs.Json.{read_key, after_end_array};
ghost use Rattle.json.specs.Reads.{token_of};
ghost use Rattle.json_records.specs.Reading.{NoMembers, NoItems};
ghost use Rattle.json_records.specs.Readers.{LeavesFewer};

use json::{Reader, Token};
use std::alloc::{AllocError, AllocFailed};

/// Why no value was read from a text.
#[derive(Clone, Copy, Debug, PartialEq, Eq)]
pub enum ReadError {
    /// `serde_json` does not read it: it is not JSON, nests more levels than are read, or has a number that is out of range.
    NotJson,
    /// An allocation failed for what is read.
    Memory,
}

impl From<AllocError> for ReadError {
    ghost use Rattle.json_records.specs.declared.error.ReadError.TheVariants.{Memory};

    ghost from_gives = { λ _ e. e ≡ Memory };

    fn from(_e: AllocError) -> ReadError {
        ReadError::Memory
    }
}

impl<T: Drop> From<AllocFailed<T>> for ReadError {
    ghost use Rattle.json_records.specs.declared.error.ReadError.TheVariants.{Memory};

    ghost from_gives = { λ _ e. e ≡ Memory };

    fn from(_e: AllocFailed<T>) -> ReadError {
        ReadError::Memory
    }
}

/// The first token of the value that comes next.
#[inline(always)]
pub fn next_token<'a>(reader: &mut Reader<'a>) -> Result<Token<'a>, ReadError>
    ensures ok { IfOk result (λ t. reader.old ≡ token_of t ∷ reader.new) }
    ensures err { IsErr result → reader.old ≡ [] }
{
    match reader.next() {
        Some(token) => Ok(token),
        None => Err(ReadError::NotJson),
    }
}

/// The key of the member that comes next, and the first token of its value; none where the object ends, whose brace is taken.
pub fn next_member<'a>(reader: &mut Reader<'a>) -> Result<Option<(&'a str, Token<'a>)>, ReadError>
    ensures ok { IfOk result (λ m. MatchOption m (read_key reader.old ≡ Some (None, reader.new))
        (λ p. read_key reader.old ≡ Some (Some p.0.now, token_of p.1 ∷ reader.new))) }
    ensures err { IsErr result → (n : ℕ) → NoMembers n reader.old }
    ensures shorter { LeavesFewer result reader.old reader.new }
{
    match reader.next_key() {
        Ok(Some(key)) => Ok(Some((key, next_token(reader)?))),
        Ok(None) => Ok(None),
        Err(_) => Err(ReadError::NotJson),
    }
}

/// The first token of the item that comes next; none where the array ends, whose bracket is taken.
#[inline(always)]
pub fn next_item<'a>(reader: &mut Reader<'a>) -> Result<Option<Token<'a>>, ReadError>
    ensures ok { IfOk result (λ i. MatchOption i (after_end_array reader.old ≡ Some reader.new)
        (λ t. (after_end_array reader.old ≡ None) × (reader.old ≡ token_of t ∷ reader.new))) }
    ensures err { IsErr result → (n : ℕ) → NoItems n reader.old }
    ensures shorter { LeavesFewer result reader.old reader.new }
{
    match next_token(reader)? {
        Token::EndArray => Ok(None),
        first => Ok(Some(first)),
    }
}
