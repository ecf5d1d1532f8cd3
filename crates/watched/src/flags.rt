//! A reader or a writer with three flags: whether a call on it failed, whether it is read to its end, and whether a call
//! came after one that failed.
//!
//! The flags are private to this module, and only `read` and `write` set them.

ghost use Rattle.std.specs.Prelude.{◌≡◌, ◌||◌, ◌==◌, false, length, is_err, if◌then◌else◌};
ghost use Rattle.std.specs.Io.{ReadsAtMost, WritesAtMost};
ghost use Rattle.std.specs.Io.KnownBytes.{Keeps, ReadConsumes, WriteAppends};
ghost use Rattle.watched.specs.Flags.{gave_none, is_refused};

use std::io;
use std::io::{Read, Write};

/// A reader or a writer, with flags for the calls on it so far.
#[derive(Drop)]
pub struct Watched<T> {
    inner: T,
    failed: bool,
    ended: bool,
    went_on: bool,
}

impl<T> Watched<T> {
    /// Wraps `inner`, with no flag set.
    pub fn new(inner: T) -> Watched<T>
        ensures inner { result.inner ≡ inner }
        ensures failed { result.failed ≡ false }
        ensures ended { result.ended ≡ false }
        ensures went_on { result.went_on ≡ false }
    {
        Watched {
            inner,
            failed: false,
            ended: false,
            went_on: false,
        }
    }

    /// Returns whether a `read` or `write` so far failed, including an interrupted one, or a `write` of some bytes
    /// wrote none.
    pub fn failed(&self) -> bool
        ensures { result ≡ self.now.failed }
    {
        self.failed
    }

    /// Returns whether the last `read` into a non-empty buffer returned no byte, so that the reader is at its end.
    pub fn ended(&self) -> bool
        ensures { result ≡ self.now.ended }
    {
        self.ended
    }

    /// Returns whether a `read` or a `write` was called after one that failed, as `failed` counts them.
    pub fn went_on(&self) -> bool
        ensures { result ≡ self.now.went_on }
    {
        self.went_on
    }
}

impl<R: Read> Read for Watched<R> {
    ghost remaining = { λ w. R.remaining w.inner };

    /// Calls `read` of the inner reader.
    fn read(&mut self, buf: &mut [u8]) -> io::Result<usize>
        ensures bound { ReadsAtMost result buf.new }
        ensures bytes { ReadConsumes (R.remaining self.old.inner)
            (R.remaining self.new.inner) result buf.new }
        ensures failed { self.new.failed ≡ (self.old.failed || is_err result) }
        ensures ended { self.new.ended
            ≡ (if length buf.old == 0 then self.old.ended else gave_none result) }
        ensures went_on { self.new.went_on ≡ (self.old.went_on || self.old.failed) }
    {
        let Watched {
            inner,
            failed,
            ended,
            went_on,
        } = self;
        if *failed {
            *went_on = true;
        }
        let outcome = inner.read(buf);
        if outcome.is_err() {
            *failed = true;
        }
        if !buf.is_empty() {
            *ended = matches!(outcome, Ok(0));
        }
        outcome
    }
}

impl<W: Write> Write for Watched<W> {
    ghost contents = { λ w. W.contents w.inner };

    /// Calls `write` of the inner writer.
    fn write(&mut self, buf: &[u8]) -> io::Result<usize>
        ensures bound { WritesAtMost result buf.now }
        ensures bytes { WriteAppends (W.contents self.old.inner)
            (W.contents self.new.inner) result buf.now }
        ensures failed { self.new.failed ≡ (self.old.failed || is_refused result (length buf.now)) }
        ensures ended { self.new.ended ≡ self.old.ended }
        ensures went_on { self.new.went_on ≡ (self.old.went_on || self.old.failed) }
    {
        let Watched {
            inner,
            failed,
            went_on,
            ..
        } = self;
        if *failed {
            *went_on = true;
        }
        let outcome = inner.write(buf);
        match outcome {
            Ok(n) if n > 0 || buf.is_empty() => {}
            _ => *failed = true,
        }
        outcome
    }

    /// Calls `flush` of the inner writer. Sets no flag.
    fn flush(&mut self) -> io::Result<()>
        ensures bytes { Keeps (W.contents self.old.inner) (W.contents self.new.inner) }
        ensures failed { self.new.failed ≡ self.old.failed }
        ensures ended { self.new.ended ≡ self.old.ended }
        ensures went_on { self.new.went_on ≡ self.old.went_on }
    {
        self.inner.flush()
    }
}
