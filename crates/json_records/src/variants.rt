//! Variants: a name alone, or an object whose one key is the name, over what the variant holds.
ghost use Rattle.std.specs.Prelude.{◌≡◌, false, not};
ghost use Rattle.std.specs.Option.{option_map_or};
ghost use Rattle.std.specs.Str.{bytes_eq};
ghost use Rattle.serde_json.specs.Data.{Data, string};
ghost use Rattle.json_records.specs.Variants.{Made, is_variant};
ghost use Rattle.json_records.specs.Readers.{ReadsForm, ReadsUnder, NotJsonOnlyIfNoData, LeavesNoMore};

use crate::error::{ReadError, next_member};
use crate::passing::pass;
use crate::scalars::{is_same, open_object};
use json::{Reader, Token};
use std::alloc::Global;

/// How values of a type are read of a variant.
pub trait Variant<T> {
    ghost use Rattle.std.specs.Prelude.{◌≡◌, Bool, false};
    ghost use Rattle.serde_json.specs.Data.{Data};
    ghost use Rattle.json_records.specs.Variants.{is_variant};

    ghost form: { T → Data };

    ghost can: { Data → Bool };

    ghost law: { (d : Data) → is_variant d ≡ false → can d ≡ false };

    /// The variant of that name, which holds nothing.
    fn bare(name: &str) -> Option<T>
        ensures { Made form can result (string name.now) };

    /// The variant of that name, over the value that begins with the token.
    ///
    /// # Errors
    ///
    /// `NotJson`: no JSON value begins there. `Memory`: nothing is said of it.
    fn held<'a>(
        alloc: Global,
        name: &str,
        first: Token<'a>,
        reader: &mut Reader<'a>,
        depth: usize,
    ) -> Result<Option<T>, ReadError>
        ensures ok { ReadsUnder result name.now form can depth first.entry reader.old reader.new }
        ensures err { NotJsonOnlyIfNoData result depth first.entry reader.old }
        ensures shorter { LeavesNoMore result reader.old reader.new };
}

/// Whether the key is another one than that of the member before, if there was one.
pub fn is_other(before: Option<&str>, key: &str) -> bool
    ensures { result ≡ option_map_or (λ k. not (bytes_eq k.now key.now)) before.entry false }
{
    match before {
        Some(name) => !is_same(name, key),
        None => false,
    }
}

/// The variant that begins with the token; none where it is none that is known.
pub fn read_variant<'a, T: Drop, K: Variant<T>>(
    alloc: Global,
    first: Token<'a>,
    reader: &mut Reader<'a>,
    depth: usize,
) -> Result<Option<T>, ReadError>
    ensures ok { ReadsForm result K.Variant.form K.Variant.can depth first.entry reader.old reader.new }
    ensures err { NotJsonOnlyIfNoData result depth first.entry reader.old }
    ensures shorter { LeavesNoMore result reader.old reader.new }
{
    if let Token::String(name) = first {
        return Ok(K::bare(name));
    }
    let Some(depth) = open_object(first, reader, depth)? else {
        return Ok(None);
    };
    let mut read = None;
    let mut before = None;
    let mut strays = false;
    while let Some((name, first)) = next_member(reader)? {
        if is_other(before, name) {
            pass(first, reader, depth)?;
            strays = true;
        } else {
            read = K::held(alloc, name, first, reader, depth)?;
            before = Some(name);
        }
    }
    if strays {
        return Ok(None);
    }
    Ok(read)
}
