//! Texts, truth values and numbers, and what opens an array or an object. Where the value is another, it is passed over.
ghost use Rattle.std.specs.Prelude.{◌≡◌};
ghost use Rattle.std.specs.Str.{bytes_eq};
ghost use Rattle.json.specs.Token.{begin_array, begin_object};
ghost use Rattle.serde_json.specs.Data.{string, boolean, number as numeral, unsigned};
ghost use Rattle.json_records.specs.Reading.{is_text, is_truth, is_natural, is_short, is_object, is_array};
ghost use Rattle.json_records.specs.Readers.{ReadsForm, Opens, NotJsonOnlyIfNoData, LeavesNoMore};

use crate::error::ReadError;
use crate::numbers::number;
use crate::passing::pass;
use json::{Reader, Token};

/// Whether both are the same text. Most texts that are compared differ in their lengths, which takes no call to see.
#[inline(always)]
pub(crate) fn is_same(one: &str, other: &str) -> bool
    ensures { result ≡ bytes_eq one.now other.now }
{
    one.len() == other.len() && one == other
}

/// The text.
pub fn text<'a>(
    first: Token<'a>,
    reader: &mut Reader<'a>,
    depth: usize,
) -> Result<Option<&'a str>, ReadError>
    ensures ok { ReadsForm result (λ s. string s.now) is_text depth first.entry reader.old reader.new }
    ensures err { NotJsonOnlyIfNoData result depth first.entry reader.old }
    ensures shorter { LeavesNoMore result reader.old reader.new }
{
    if let Token::String(text) = first {
        return Ok(Some(text));
    }
    pass(first, reader, depth)?;
    Ok(None)
}

/// The truth value.
pub fn truth<'a>(
    first: Token<'a>,
    reader: &mut Reader<'a>,
    depth: usize,
) -> Result<Option<bool>, ReadError>
    ensures ok { ReadsForm result boolean is_truth depth first.entry reader.old reader.new }
    ensures err { NotJsonOnlyIfNoData result depth first.entry reader.old }
    ensures shorter { LeavesNoMore result reader.old reader.new }
{
    if let Token::Bool(truth) = first {
        return Ok(Some(truth));
    }
    pass(first, reader, depth)?;
    Ok(None)
}

/// The natural number below 2 ^ 64, written without sign, point and exponent.
pub fn natural<'a>(
    first: Token<'a>,
    reader: &mut Reader<'a>,
    depth: usize,
) -> Result<Option<u64>, ReadError>
    ensures ok { ReadsForm result (λ n. numeral (unsigned n)) is_natural depth first.entry reader.old reader.new }
    ensures err { NotJsonOnlyIfNoData result depth first.entry reader.old }
    ensures shorter { LeavesNoMore result reader.old reader.new }
{
    if let Token::Number(text) = first {
        return match number(text) {
            Some(natural) => Ok(natural),
            None => Err(ReadError::NotJson),
        };
    }
    pass(first, reader, depth)?;
    Ok(None)
}

/// The natural number below 2 ^ 16.
pub fn short<'a>(
    first: Token<'a>,
    reader: &mut Reader<'a>,
    depth: usize,
) -> Result<Option<u16>, ReadError>
    ensures ok { ReadsForm result (λ n. numeral (unsigned n)) is_short depth first.entry reader.old reader.new }
    ensures err { NotJsonOnlyIfNoData result depth first.entry reader.old }
    ensures shorter { LeavesNoMore result reader.old reader.new }
{
    match natural(first, reader, depth)? {
        Some(n) if n < 65536 => Ok(Some(n as u16)),
        _ => Ok(None),
    }
}

/// How many levels the values in an object may have, whose brace the token is.
pub fn open_object<'a>(
    first: Token<'a>,
    reader: &mut Reader<'a>,
    depth: usize,
) -> Result<Option<usize>, ReadError>
    ensures ok { Opens result begin_object is_object depth first.entry reader.old reader.new }
    ensures err { NotJsonOnlyIfNoData result depth first.entry reader.old }
    ensures shorter { LeavesNoMore result reader.old reader.new }
{
    if let Token::BeginObject = first {
        if depth == 0 {
            return Err(ReadError::NotJson);
        }
        return Ok(Some(depth - 1));
    }
    pass(first, reader, depth)?;
    Ok(None)
}

/// How many levels the items of an array may have, whose bracket the token is.
pub fn open_array<'a>(
    first: Token<'a>,
    reader: &mut Reader<'a>,
    depth: usize,
) -> Result<Option<usize>, ReadError>
    ensures ok { Opens result begin_array is_array depth first.entry reader.old reader.new }
    ensures err { NotJsonOnlyIfNoData result depth first.entry reader.old }
    ensures shorter { LeavesNoMore result reader.old reader.new }
{
    if let Token::BeginArray = first {
        if depth == 0 {
            return Err(ReadError::NotJson);
        }
        return Ok(Some(depth - 1));
    }
    pass(first, reader, depth)?;
    Ok(None)
}
