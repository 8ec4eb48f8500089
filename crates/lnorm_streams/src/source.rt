//! What bytes are read from.
ghost use Rattle.std.specs.Prelude.{◌≡◌, List, Option, None, Bool, ℕ, OnOk, OnErr};
ghost use Rattle.std.specs.Io.{ReadsAtMost};
ghost use Rattle.std.specs.Io.KnownBytes.{ReadConsumes};
ghost use Rattle.lnorm_streams.specs.Sources.{IsNoted};

use std::io::{self, Read};

/// What bytes are read from: each reader is one. Contracts of a source may also say whether a read of it failed, which a reader's
/// can't: its model has the bytes that are left alone, and a read that fails leaves them as they were.
pub trait Source {
    // The bytes that reads will give from here on, where they are known.
    ghost remaining: { Self → Option (List ℕ) };

    // Whether a read failed, where that is known.
    ghost has_failed: { Self → Option Bool };

    /// Reads into the buffer, and says how many bytes it got: none only at the end, or where the buffer has no room.
    fn read_some(&mut self, buffer: &mut [u8]) -> io::Result<usize>
        ensures bound { ReadsAtMost result buffer.new }
        ensures bytes { ReadConsumes (remaining self.old) (remaining self.new) result buffer.new }
        ensures read { OnOk result (has_failed self.new ≡ has_failed self.old) }
        ensures failed { OnErr result (IsNoted (has_failed self.new)) };
}

impl<R: Read> Source for R {
    ghost remaining = { λ r. R.Read.remaining r };

    ghost has_failed = { λ _. None };

    fn read_some(&mut self, buffer: &mut [u8]) -> io::Result<usize> {
        self.read(buffer)
    }
}

/// A reader, with whether a read of it failed.
#[derive(Drop)]
pub struct Watched<R> {
    /// What is read.
    pub reader: R,
    /// Whether a read failed.
    pub has_failed: bool,
}

impl<R: Read> Source for Watched<R> {
    ghost use Rattle.std.specs.Prelude.{Some};

    ghost remaining = { λ w. R.remaining w.reader };

    ghost has_failed = { λ w. Some w.has_failed };

    fn read_some(&mut self, buffer: &mut [u8]) -> io::Result<usize> {
        match self.reader.read(buffer) {
            Ok(n) => Ok(n),
            Err(error) => {
                self.has_failed = true;
                Err(error)
            }
        }
    }
}
