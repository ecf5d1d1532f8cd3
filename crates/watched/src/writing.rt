//! Whole texts, written to a watched writer.

ghost use Rattle.std.specs.Prelude.{◌≡◌, ◌≤◌, IfSome, SomeIff, flat_map, length, take};
ghost use Rattle.watched.specs.Writing.{Writes};

use crate::flags::Watched;
use std::io;
use std::io::{ErrorKind, Write};

/// The greatest size of a line that is written by one `write`.
const LINE_SIZE: usize = 512;

impl<W: Write> Watched<W> {
    /// Writes all of the bytes. Stops at the first `write` that fails, even an interrupted one, and at the first that
    /// writes no byte, and returns an error then. A writer in a `Retrying` repeats interrupted writes.
    #[tactic(auto, using(crate::proofs::WriteSteps::written_more))]
    pub fn write_whole(&mut self, bytes: &[u8]) -> io::Result<()>
        ensures { Writes W.contents self.old self.new bytes.now result }
    {
        let mut done = 0;
        while done < bytes.len() {
            let count = self.write(&bytes[done..])?;
            if count == 0 {
                return Err(io::Error::from(ErrorKind::WriteZero));
            }
            done += count;
        }
        Ok(())
    }

    /// Writes a line of these pieces, as `write_whole` writes bytes. A line of up to 512 bytes is given to one `write`, so
    /// that it is not mixed with what others write there.
    pub fn write_line(&mut self, pieces: &[&[u8]]) -> io::Result<()>
        ensures { Writes W.contents self.old self.new (flat_map (λ p. p.now) pieces.now) result }
    {
        let mut line = [0u8; LINE_SIZE];
        match put_pieces(pieces, &mut line) {
            Some(end) => self.write_whole(&line[..end]),
            None => self.write_pieces(pieces),
        }
    }

    /// Writes the pieces one after another.
    fn write_pieces(&mut self, pieces: &[&[u8]]) -> io::Result<()>
        ensures { Writes W.contents self.old self.new (flat_map (λ p. p.now) pieces.now) result }
    {
        for piece in pieces {
            self.write_whole(piece)?;
        }
        Ok(())
    }
}

/// Copies the pieces one after another to the front of the buffer, and returns where they end, or `None` if they do not
/// fit.
fn put_pieces(pieces: &[&[u8]], buffer: &mut [u8]) -> Option<usize>
    ensures end { SomeIff result (length (flat_map (λ p. p.now) pieces.now) ≤ length buffer.old)
        (length (flat_map (λ p. p.now) pieces.now)) }
    ensures put { IfSome result
        (λ end. take end buffer.new ≡ flat_map (λ p. p.now) pieces.now) }
{
    let mut end = 0;
    for piece in pieces {
        if piece.len() > buffer.len() - end {
            return None;
        }
        let next = end + piece.len();
        buffer[end..next].copy_from_slice(piece);
        end = next;
    }
    Some(end)
}
