//! Texts that are damaged at random.
ghost use Rattle.std.specs.Prelude.{◌<◌, ◌≤◌, length};

use crate::made::kept;
use std::alloc::{AllocError, Global};

/// The text with one change: a part of it is cut off, left out, doubled, or another text replaces it or is put before it. The change
/// follows from the text's length and a number, so it is the same in each test.
pub(crate) fn damaged(alloc: Global, text: &[u8], number: usize) -> Result<Vec<u8>, AllocError> {
    let mut state = text.len().wrapping_add(number) as u64;
    let mut bytes = Vec::new(alloc);
    let done = push_damaged(&mut bytes, text, &mut state);
    kept(bytes, done)
}

fn push_damaged(bytes: &mut Vec<u8>, text: &[u8], state: &mut u64) -> Result<(), AllocError> {
    let change = below(state, 5);
    let (from, to) = places(text, state);
    bytes.extend_from_slice(&text[..from])?;
    match change {
        0 => Ok(()),
        1 => bytes.extend_from_slice(&text[to..]),
        2 => {
            bytes.extend_from_slice(&text[from..to])?;
            bytes.extend_from_slice(&text[from..])
        }
        3 => {
            bytes.extend_from_slice(piece(below(state, COUNT)).as_bytes())?;
            bytes.extend_from_slice(&text[to..])
        }
        _ => {
            bytes.extend_from_slice(piece(below(state, COUNT)).as_bytes())?;
            bytes.extend_from_slice(&text[from..])
        }
    }
}

/// A random number below the bound.
fn below(state: &mut u64, bound: usize) -> usize
    requires { 0 < bound }
    ensures { result < bound }
{
    let next = (*state)
        .wrapping_mul(6364136223846793005)
        .wrapping_add(1442695040888963407);
    *state = next;
    (next >> 33) as usize % bound
}

/// Two positions in a text, the second at most twenty bytes behind the first.
fn places(text: &[u8], state: &mut u64) -> (usize, usize)
    ensures ordered { result.0 ≤ result.1 }
    ensures within { result.1 ≤ length text.now }
{
    let from = below(state, text.len() + 1);
    let left = (text.len() - from).min(20);
    let to = from + below(state, left + 1);
    (from, to)
}

/// Texts that may occur in JSON, or may not, with a blank between each two; and behind them a blank.
const PIECES: &str =
    "\" \\ { } [ ] , : 0 -0 1.0 1e0 1e999 18446744073709551616 null \"span\":[0,1], \"sp\\u0061n\":1e999, \\ud800 \u{e9}";

/// How many there are.
const COUNT: usize = 20;

/// The text of that number.
fn piece(number: usize) -> &'static str {
    let mut index = 0usize;
    for piece in PIECES.split(" ") {
        if index == number {
            return piece;
        }
        index = index.wrapping_add(1);
    }
    " "
}
