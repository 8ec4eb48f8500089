//! Numbers: which are taken, and which natural number one is.
ghost use Rattle.std.specs.Prelude.{◌≡◌, ◌==◌, ◌<◌, length, slice_index, true, false, option_map, IsTrue, IfSome, Some};
ghost use Rattle.serde_json.specs.Data.{unsigned};
ghost use Rattle.serde_json.specs.Find.{as_u64};
ghost use Rattle.serde_json.specs.Read.{number_of, number_from, float_of};

use fast_float::Numeral;

/// So many digits make a number below 2 ^ 64.
const FEW: usize = 18;

/// Nothing where the number is out of range; else the natural number below 2 ^ 64 that it is, if it is one.
pub fn number(text: &str) -> Option<Option<u64>>
    ensures { result ≡ option_map as_u64 (number_of text.now) }
{
    let bytes = text.as_bytes();
    match few_digits(bytes) {
        Some(n) => Some(Some(n)),
        None => by_parts(bytes),
    }
}

/// The same by the parts of a number. These take much room, which is cleared at every call: `number` mostly does without them.
#[inline(never)]
fn by_parts(bytes: &[u8]) -> Option<Option<u64>>
    ensures { result ≡ option_map as_u64 (number_of bytes.now) }
{
    if has_minus(bytes) {
        negative(&Numeral::scan(&bytes[1..]))
    } else {
        unsigned(&Numeral::scan(bytes))
    }
}

/// The number that is written by digits alone, where these are few: most numbers are, and they need not be taken to parts.
fn few_digits(bytes: &[u8]) -> Option<u64>
    ensures { IfSome result (λ n. number_of bytes.now ≡ Some (unsigned n)) }
{
    if bytes.is_empty() || bytes.len() > FEW {
        return None;
    }
    let mut n = 0u64;
    for byte in bytes {
        if !byte.is_ascii_digit() {
            return None;
        }
        n = n * 10 + (*byte - b'0') as u64;
    }
    Some(n)
}

/// The natural number below 2 ^ 64 that a number without a sign is, as `number` answers it.
fn unsigned(numeral: &Numeral<'_>) -> Option<Option<u64>>
    ensures { result ≡ option_map as_u64 (number_from false numeral.now) }
{
    match numeral.to_u64() {
        Some(n) => Some(Some(n)),
        None => nearest(false, numeral),
    }
}

/// The natural number below 2 ^ 64 that a number with a minus is, as `number` answers it; the numeral is what follows the minus.
fn negative(numeral: &Numeral<'_>) -> Option<Option<u64>>
    ensures { result ≡ option_map as_u64 (number_from true numeral.now) }
{
    if let Some(n) = numeral.to_i64(true) {
        if n < 0 {
            return Some(None);
        }
    }
    nearest(true, numeral)
}

/// The natural number below 2 ^ 64 that a number is whose value is the nearest float, as `number` answers it.
fn nearest(negative: bool, numeral: &Numeral<'_>) -> Option<Option<u64>>
    ensures { result ≡ option_map as_u64 (float_of negative numeral.now) }
{
    if numeral.to_float::<f64>(negative).is_finite() {
        Some(None)
    } else {
        None
    }
}

/// Whether the first byte is a minus.
fn has_minus(bytes: &[u8]) -> bool
    ensures value { result ≡ (slice_index bytes.now 0 == 45) }
    ensures len { IsTrue result → 0 < length bytes.now }
{
    !bytes.is_empty() && bytes[0] == b'-'
}
