//! Positions of byte offsets that mostly grow.

ghost use Rattle.lsp_text.specs.Positions.{byte_range, index_of_byte, position};
ghost use Rattle.lsp_text.specs.Steps.{IsPlace};
ghost use Rattle.std.specs.Prelude.{◌≡◌, ◌≤◌, chars};

use crate::place::{ORIGIN, Place, walk};
use crate::position::{Encoding, Position, Range};

/// A place in a text from which the next position is looked up. Offsets that do not fall are looked up in the time of one
/// walk over the text.
#[derive(Clone, Copy)]
pub struct Cursor<'a> {
    pub text: &'a str,
    pub encoding: Encoding,
    /// The text after the place.
    rest: &'a str,
    /// The byte offset of the place.
    at: usize,
    position: Position,
    ghost is_place: { IsPlace encoding (chars text.now) (chars rest.now) at position },
}

impl<'a> Cursor<'a> {
    /// The start of a text.
    pub fn new(text: &'a str, encoding: Encoding) -> Cursor<'a>
        ensures text { result.text.now ≡ text.now }
        ensures encoding { result.encoding ≡ encoding }
        ensures at { result.at ≡ 0 }
    {
        Cursor {
            text,
            encoding,
            rest: text,
            at: 0,
            position: ORIGIN,
        }
    }

    /// Returns the cursor, or the start of its text if the place is after the byte offset.
    fn not_after(&self, offset: usize) -> Cursor<'a>
        ensures at { result.at ≤ offset }
        ensures text { result.text.now ≡ self.now.text.now }
        ensures encoding { result.encoding ≡ self.now.encoding }
    {
        if offset < self.at {
            Cursor::new(self.text, self.encoding)
        } else {
            *self
        }
    }

    /// Returns the position of a byte offset, as `position_of` does.
    pub fn position(&mut self, offset: usize) -> Position
        ensures position { result ≡ position self.old.encoding (index_of_byte offset (chars self.old.text.now)) (chars self.old.text.now) }
        ensures text { self.new.text.now ≡ self.old.text.now }
        ensures encoding { self.new.encoding ≡ self.old.encoding }
    {
        let from = self.not_after(offset);
        let start = Place {
            rest: from.rest,
            left: offset - from.at,
            position: from.position,
        };
        let end = walk(start, from.encoding);
        *self = Cursor {
            text: from.text,
            encoding: from.encoding,
            rest: end.rest,
            at: offset - end.left,
            position: end.position,
        };
        end.position
    }
    /// Returns the range of the bytes from an offset on.
    pub fn range(&mut self, offset: usize, len: usize) -> Range
        ensures range { result ≡ byte_range self.old.encoding offset len (chars self.old.text.now) }
        ensures text { self.new.text.now ≡ self.old.text.now }
        ensures encoding { self.new.encoding ≡ self.old.encoding }
    {
        let start = self.position(offset);
        let end = self.position(offset.saturating_add(len));
        Range { start, end }
    }
}
