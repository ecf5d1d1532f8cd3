//! A writer that repeats writes that are interrupted.

ghost use Rattle.std.specs.Prelude.{◌≡◌};

use std::io;
use std::io::{ErrorKind, Write};

/// How often a `write` that is interrupted is made, at most.
const WRITES: usize = 1000;

/// A writer whose `write` is repeated while it is interrupted, up to a thousand times.
#[derive(Drop)]
pub struct Retrying<W> {
    inner: W,
}

impl<W> Retrying<W> {
    /// Wraps `inner`.
    pub fn new(inner: W) -> Retrying<W>
        ensures { result.inner ≡ inner }
    {
        Retrying { inner }
    }
}

impl<W: Write> Write for Retrying<W> {
    ghost contents = { λ w. W.contents w.inner };

    fn write(&mut self, buf: &[u8]) -> io::Result<usize> {
        for _ in 1..WRITES {
            match self.inner.write(buf) {
                Err(error) if error.kind() == ErrorKind::Interrupted => {}
                outcome => return outcome,
            }
        }
        self.inner.write(buf)
    }

    fn flush(&mut self) -> io::Result<()> {
        self.inner.flush()
    }
}
