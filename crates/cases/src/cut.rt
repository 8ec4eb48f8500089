//! A stream that is cut at one of its calls.
ghost use Rattle.std.specs.Prelude.{◌≡◌, IfOk};

use std::io::{self, Error, ErrorKind, Read, Write};

/// What the call does at which a stream is cut.
#[derive(Clone, Copy)]
pub(crate) enum Failure {
    /// It is interrupted.
    Interrupted,
    /// It fails for another reason.
    Broken,
    /// It moves nothing: that is the end of a reader, and a writer that takes no more.
    Nothing,
}

impl Failure {
    /// The word that test cases print.
    pub(crate) fn word(self) -> &'static str {
        match self {
            Failure::Interrupted => "interrupted",
            Failure::Broken => "failed",
            Failure::Nothing => "nothing",
        }
    }

    fn answer(self) -> io::Result<usize>
        ensures { IfOk result (λ n. n ≡ 0) }
    {
        match self {
            Failure::Interrupted => Err(Error::from(ErrorKind::Interrupted)),
            Failure::Broken => Err(Error::from(ErrorKind::BrokenPipe)),
            Failure::Nothing => Ok(0),
        }
    }
}

/// Which call fails, from 0, if there are that many, and what it does.
#[derive(Clone, Copy)]
pub(crate) struct Failing {
    pub(crate) at: usize,
    pub(crate) failure: Failure,
}

/// A reader and a writer over bytes, whose calls move few of them, and of which one fails. The calls after that go on.
#[derive(Drop)]
pub(crate) struct Cut {
    /// What a reader gives, or a writer took.
    pub(crate) bytes: Vec<u8>,
    given: usize,
    most: usize,
    /// How many calls there were.
    pub(crate) calls: usize,
    /// The call that fails.
    pub(crate) failing: Failing,
    /// Whether it came.
    pub(crate) was_cut: bool,
}

impl Cut {
    /// A stream whose calls move `most` bytes each.
    pub(crate) fn new(bytes: Vec<u8>, most: usize, failing: Failing) -> Cut {
        Cut {
            bytes,
            given: 0,
            most,
            calls: 0,
            failing,
            was_cut: false,
        }
    }

    /// Whether this call is the one that fails.
    fn is_cut_here(&mut self) -> bool {
        let is_here = self.calls == self.failing.at;
        self.calls = self.calls.wrapping_add(1);
        self.was_cut = self.was_cut || is_here;
        is_here
    }
}

impl Read for Cut {
    fn read(&mut self, buf: &mut [u8]) -> io::Result<usize> {
        if self.is_cut_here() {
            return self.failing.failure.answer();
        }
        let Some(rest) = self.bytes.get(self.given..) else {
            return Ok(0);
        };
        let n = rest.len().min(buf.len()).min(self.most);
        buf[..n].copy_from_slice(&rest[..n]);
        self.given = self.given.wrapping_add(n);
        Ok(n)
    }
}

impl Write for Cut {
    fn write(&mut self, buf: &[u8]) -> io::Result<usize> {
        if self.is_cut_here() {
            return self.failing.failure.answer();
        }
        let n = buf.len().min(self.most);
        self.bytes.extend_from_slice(&buf[..n])?;
        Ok(n)
    }

    fn flush(&mut self) -> io::Result<()> {
        Ok(())
    }
}
