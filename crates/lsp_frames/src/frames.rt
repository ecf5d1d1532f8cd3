//! The frames of an input.

ghost use Rattle.lsp_frames.specs.Frames as spec;
ghost use Rattle.lsp_frames.specs.Frames.{GivesFirst, left_after};
ghost use Rattle.std.specs.Io.BufRead.{Rests};
ghost use Rattle.std.specs.Borrow.{sem};
ghost use Rattle.std.specs.Prelude.{◌≡◌, [], ◌++◌, OnErr, OnOk, length};

use crate::front::{Front, first_frame};
use std::alloc::{AllocError, Global};
use std::marker::Model;

/// The bytes of an input, of which whole frames are taken one by one. Clauses see the bytes that are not taken yet.
#[derive(Drop)]
pub struct Frames {
    bytes: Vec<u8>,
    taken: usize,
}

impl Model for Frames {
    ghost use Rattle.std.specs.Prelude.{◌≤◌, ℕ, List, drop, vec_len};

    ghost Value = { List ℕ };

    ghost view = { λ f. drop f.taken f.bytes.items };

    ghost invariant = { λ f. f.taken ≤ vec_len f.bytes };
}

impl Frames {
    ghost use Rattle.lsp_frames.specs.contracts.frames.Frames.{the_row};

    /// Returns the frames of an input of which no byte has come.
    pub fn new(alloc: Global) -> Frames
        ensures { result ≡ [] }
    {
        Frames {
            bytes: Vec::new(alloc),
            taken: 0,
        }
    }

    /// Returns how many bytes are not taken yet.
    pub fn len(&self) -> usize
        ensures { result ≡ length self.now }
    {
        self.bytes.len() - self.taken
    }

    /// Makes room for so many more bytes, which `push` then appends without an allocation. If an allocation fails, nothing
    /// changes.
    pub fn reserve(&mut self, additional: usize) -> Result<(), AllocError>
        ensures { self.new ≡ self.old }
    {
        if self.taken > self.bytes.len() / 2 {
            self.bytes.drain(..self.taken);
            self.taken = 0;
        }
        self.bytes.reserve(additional)
    }

    /// Appends bytes of the input. If an allocation fails, nothing changes.
    pub fn push(&mut self, bytes: &[u8]) -> Result<(), AllocError>
        ensures ok { OnOk result (self.new ≡ self.old ++ bytes.now) }
        ensures err { OnErr result (self.new ≡ self.old) }
    {
        self.reserve(bytes.len())?;
        self.bytes.extend_from_slice(bytes)
    }

    /// Takes the first frame, if it is whole, and returns its message.
    pub fn next_message(&mut self) -> Option<&[u8]>
        ensures message { GivesFirst self.old result }
        ensures* after { sem 𝓛 (Rests the_row self.entry (λ new. new ≡ left_after self.old)) }
    {
        match first_frame(&self.bytes[self.taken..]) {
            Front::Whole { message, rest } => {
                self.taken = self.bytes.len() - rest.len();
                Some(message)
            }
            Front::Part | Front::Bad => None,
        }
    }

    /// Returns whether no frame comes any more, however the bytes go on.
    pub fn is_bad(&self) -> bool
        ensures { result ≡ spec.is_bad self.now }
    {
        matches!(first_frame(&self.bytes[self.taken..]), Front::Bad)
    }
}
