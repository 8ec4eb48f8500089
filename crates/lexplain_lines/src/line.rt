//! One line, read straight from its tokens.
ghost use Rattle.std.specs.Prelude.{◌≡◌, Some, false, IfOk, IsErrOf};
ghost use Rattle.serde_json.specs.Data.{Data};
ghost use Rattle.serde_json.specs.Read.{read};

use crate::read::LinesError;
use json::{Reader, Scratch};
use json_records::{Variant, next_token, read_variant};
use std::alloc::Global;

/// How deep arrays and objects nest at most in what `serde_json` reads.
const MAX_DEPTH: usize = 127;

/// How the parts of a line are read.
pub(crate) struct Line;

/// The value whose form the line is.
pub(crate) fn read_line<T: Drop, K: Variant<T>>(alloc: Global, line: &str) -> Result<T, LinesError>
    ensures ok { IfOk result (λ x. read line.now ≡ Some (K.Variant.form x)) }
    ensures not { IsErrOf result LinesError.NotATree → (d : Data) → read line.now ≡ Some d → K.Variant.can d ≡ false }
{
    let mut scratch = Scratch::new(alloc);
    let Ok(mut reader) = Reader::new(line, &mut scratch) else {
        return Err(LinesError::Memory);
    };
    let first = next_token(&mut reader)?;
    let read = read_variant::<T, K>(alloc, first, &mut reader, MAX_DEPTH)?;
    if reader.next().is_some() {
        return Err(LinesError::NotATree);
    }
    match read {
        Some(value) => Ok(value),
        None => Err(LinesError::NotATree),
    }
}
