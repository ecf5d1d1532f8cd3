//! The position of a byte offset.

ghost use Rattle.lsp_text.specs.Positions.{index_of_byte, position, size};
ghost use Rattle.lsp_text.specs.Steps.{stepped, walked};
ghost use Rattle.lsp_text.specs.declared.position.Encoding.TheVariants.{Utf8};
ghost use Rattle.std.specs.Prelude.{◌≡◌, ◌+◌, ◌<◌, ◌^◌, chars, drop, take};

use crate::position::{Encoding, Position};
use crate::read::{ends_line, split_first};

/// The position at the start of a text.
pub(crate) const ORIGIN: Position = Position {
    line: 0,
    character: 0,
};

/// A place in a text: the text after it, how many bytes are left to go, and its position.
#[derive(Clone, Copy)]
pub(crate) struct Place<'a> {
    pub(crate) rest: &'a str,
    pub(crate) left: usize,
    pub(crate) position: Position,
}

/// Returns the position after a character, given the text after the character. A CR before an LF takes no place.
fn step(position: Position, c: char, rest: &str, encoding: Encoding) -> Position
    requires line { position.line + 1 < 2 ^ 64 }
    requires character { position.character + 4 < 2 ^ 64 }
    ensures { result ≡ stepped encoding position c (chars rest.now) }
{
    if ends_line(c, rest) {
        return Position {
            line: position.line + 1,
            character: 0,
        };
    }
    if c == '\r' {
        return position;
    }
    Position {
        line: position.line,
        character: position.character + encoding.units(c),
    }
}

/// Returns the place after the bytes that are left to go, or before the character that they end in.
pub(crate) fn walk(from: Place<'_>, encoding: Encoding) -> Place<'_>
    requires line { from.position.line + size Utf8 (chars from.rest.now) < 2 ^ 63 }
    requires character { from.position.character + size Utf8 (chars from.rest.now) < 2 ^ 63 }
    ensures position { result.position ≡ walked encoding from.entry.position (index_of_byte from.entry.left (chars from.entry.rest.now)) (chars from.entry.rest.now) }
    ensures rest { chars result.rest.now ≡ drop (index_of_byte from.entry.left (chars from.entry.rest.now)) (chars from.entry.rest.now) }
    ensures left { result.left + size Utf8 (take (index_of_byte from.entry.left (chars from.entry.rest.now)) (chars from.entry.rest.now)) ≡ from.entry.left }
{
    let mut rest = from.rest;
    let mut left = from.left;
    let mut position = from.position;
    while let Some((c, next)) = split_first(rest) {
        let len = c.len_utf8();
        if len > left {
            break;
        }
        position = step(position, c, next, encoding);
        left -= len;
        rest = next;
    }
    Place {
        rest,
        left,
        position,
    }
}

/// Returns the position of a byte offset. An offset inside a character is the start of the character, one inside a CR LF
/// is the end of its line, and one after the end of the text is that end.
pub fn position_of(text: &str, offset: usize, encoding: Encoding) -> Position
    ensures { result ≡ position encoding (index_of_byte offset (chars text.now)) (chars text.now) }
{
    let start = Place {
        rest: text,
        left: offset,
        position: ORIGIN,
    };
    walk(start, encoding).position
}
