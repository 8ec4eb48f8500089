//! What a line of faults is written to.
use std::alloc::Global;
use std::io::{self, Write};

/// A text that is written, with whether an allocation failed for a part of it.
#[derive(Drop)]
pub(crate) struct Written {
    /// What was written.
    pub(crate) bytes: Vec<u8>,
    /// Whether a write failed.
    pub(crate) is_cut: bool,
}

impl Written {
    ghost use Rattle.std.specs.Prelude.{◌≡◌, []};

    /// No text yet.
    pub(crate) fn new(alloc: Global) -> Written
        ensures { result.bytes.items ≡ [] }
    {
        Written {
            bytes: Vec::new(alloc),
            is_cut: false,
        }
    }
}

impl Write for Written {
    ghost use Rattle.std.specs.Prelude.{Some};

    ghost contents = { λ w. Some w.bytes.items };

    fn write(&mut self, buf: &[u8]) -> io::Result<usize> {
        match self.bytes.write(buf) {
            Ok(n) => Ok(n),
            Err(error) => {
                self.is_cut = true;
                Err(error)
            }
        }
    }

    fn flush(&mut self) -> io::Result<()> {
        Ok(())
    }
}
