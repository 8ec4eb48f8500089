//! The message of a fault, as it is written in a line.
ghost use Rattle.std.specs.Io.KnownBytes.{Appends};
ghost use Rattle.std.specs.Prelude.{◌≡◌, [], ◌∷◌, ◌++◌, MatchOption, IsTrue};
ghost use Rattle.lnorm_streams.specs.Streams.{WritesFront, in_line, one_line};

use crate::streams::write_whole;
use std::io::Write;

/// Writes a message as it is written in a line, piece by piece, and says whether all of it was written. Else a beginning was.
pub fn write_message<W: Write>(writer: &mut W, message: &[u8]) -> bool
    ensures front { WritesFront (W.contents writer.old) (W.contents writer.new) (one_line message.now) }
    ensures whole { IsTrue result → Appends (W.contents writer.old) (W.contents writer.new) (one_line message.now) }
{
    let mut from = 0;
    for (at, byte) in message.iter().enumerate() {
        if let Some(mark) = mark_of(*byte) {
            if !write_marked(writer, &message[from..at], mark) {
                return false;
            }
            from = at + 1;
        }
    }
    write_whole(writer, &message[from..])
}

/// What replaces a byte that would end the line. The others stay as they are.
fn mark_of(byte: u8) -> Option<&'static str>
    ensures { MatchOption result (in_line byte ≡ byte ∷ []) (λ mark. in_line byte ≡ mark.now) }
{
    match byte {
        b'\n' => Some("\\n"),
        b'\r' => Some("\\r"),
        _ => None,
    }
}

/// Writes a piece of a message and the mark behind it, and says whether all of it was written. Else a beginning was.
fn write_marked<W: Write>(writer: &mut W, piece: &[u8], mark: &str) -> bool
    ensures front { WritesFront (W.contents writer.old) (W.contents writer.new) (piece.now ++ mark.now) }
    ensures whole { IsTrue result → Appends (W.contents writer.old) (W.contents writer.new) (piece.now ++ mark.now) }
{
    write_whole(writer, piece) && write_whole(writer, mark.as_bytes())
}
