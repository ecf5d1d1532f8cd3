//! The byte offset of a position.

ghost use Rattle.lsp_text.specs.Positions as spec;
ghost use Rattle.lsp_text.specs.Positions.{first_line, front, lines_before, offset};
ghost use Rattle.std.specs.Prelude.{◌≡◌, ◌+◌, ◌<◌, ◌≤◌, ◌==◌, ◌||◌, ◌&&◌, not, chars, drop, length, slice_index, if◌then◌else◌};
ghost use Rattle.std.specs.Str.{IsCharBoundary};

use crate::position::{Encoding, Position, Range};
use crate::read::split_first;

/// Returns whether a byte ends a line: LF does, and CR if no LF follows.
fn is_line_end(bytes: &[u8], at: usize) -> bool
    requires { at < length bytes.now }
    ensures { result ≡ spec.ends_line (slice_index bytes.now at) (drop (at + 1) bytes.now) }
{
    let byte = bytes[at];
    byte == b'\n' || (byte == b'\r' && (at + 1 == bytes.len() || bytes[at + 1] != b'\n'))
}

/// Returns the place after some line ends from a place on: the end of the bytes, if fewer lines end.
fn after_ends(bytes: &[u8], from: usize, count: usize) -> usize
    requires { from ≤ length bytes.now }
    ensures bound { result ≤ length bytes.now }
    ensures rest { drop result bytes.now ≡ spec.from_line count (drop from bytes.now) }
{
    let mut at = from;
    let mut left = count;
    while left > 0 && at < bytes.len() {
        if is_line_end(bytes, at) {
            left -= 1;
        }
        at += 1;
    }
    at
}

/// Returns 1 if a byte ends a line, given the byte after it, and else 0.
fn line_ends(byte: u8, next: u8) -> u8
    ensures { result ≡ (if byte == 10 || (byte == 13 && not (next == 10)) then 1 else 0) }
{
    u8::from((byte == b'\n') | ((byte == b'\r') & (next != b'\n')))
}

/// Returns how many lines end within the 64 bytes from a place on, which more bytes follow. It tests each byte without a
/// branch, so that many are tested at once.
fn ends_in_block(bytes: &[u8], start: usize) -> u8
    requires { start + 64 < length bytes.now }
    ensures { result ≡ lines_before 64 (drop start bytes.now) }
{
    let mut count = 0;
    for i in 0..64 {
        count += line_ends(bytes[start + i], bytes[start + i + 1]);
    }
    count
}

/// Returns where a line starts: at the end of the bytes, if they have fewer lines.
fn line_start(bytes: &[u8], line: usize) -> usize
    ensures bound { result ≤ length bytes.now }
    ensures rest { drop result bytes.now ≡ spec.from_line line bytes.now }
{
    let mut at = 0;
    let mut left = line;
    while bytes.len() - at > 64 {
        let ends = usize::from(ends_in_block(bytes, at));
        if ends >= left {
            break;
        }
        at += 64;
        left -= ends;
    }
    after_ends(bytes, at, left)
}

/// Returns the text after its first line and the end of that line.
pub(crate) fn after_line(text: &str) -> &str
    ensures { chars result.now ≡ spec.after_line (chars text.now) }
{
    &text[after_ends(text.as_bytes(), 0, 1)..]
}

/// Returns the text from the start of a line on.
pub(crate) fn from_line(text: &str, line: usize) -> &str
    ensures { chars result.now ≡ spec.from_line line (chars text.now) }
{
    &text[line_start(text.as_bytes(), line)..]
}

/// Returns the text from a unit of its first line on.
fn from_unit(text: &str, character: usize, encoding: Encoding) -> &str
    ensures { chars result.now ≡ drop (length (front encoding character (first_line (chars text.now)))) (chars text.now) }
{
    let mut rest = text;
    let mut left = character;
    while let Some((c, next)) = split_first(rest) {
        let units = encoding.units(c);
        if c == '\n' || c == '\r' || units > left {
            break;
        }
        left -= units;
        rest = next;
    }
    rest
}

/// Returns the byte offset of a position, which is on a character boundary. After the end of its line a position is that
/// end, inside a character it is the start of the character, and after the last line it is the end of the text.
pub fn offset_of(text: &str, position: Position, encoding: Encoding) -> usize
    ensures offset { result ≡ offset encoding position (chars text.now) }
    ensures boundary { IsCharBoundary text.now result }
{
    let rest = from_unit(from_line(text, position.line), position.character, encoding);
    text.len() - rest.len()
}

/// Returns the text from the start of the line `to` on, given that from the start of the line `from` on.
fn from_line_on<'a>(text: &'a str, rest: &'a str, from: usize, to: usize) -> &'a str
    requires { chars rest.now ≡ spec.from_line from (chars text.now) }
    ensures { chars result.now ≡ spec.from_line to (chars text.now) }
{
    if to < from {
        from_line(text, to)
    } else {
        from_line(rest, to - from)
    }
}

/// Returns the byte offsets of the start and the end of a range, each as `offset_of` returns it.
pub(crate) fn offsets_of(text: &str, range: Range, encoding: Encoding) -> (usize, usize)
    ensures start { result.0 ≡ offset encoding range.start (chars text.now) }
    ensures end { result.1 ≡ offset encoding range.end (chars text.now) }
    ensures boundaries { IsCharBoundary text.now result.0 × IsCharBoundary text.now result.1 }
{
    let first = from_line(text, range.start.line);
    let last = from_line_on(text, first, range.start.line, range.end.line);
    let start = text.len() - from_unit(first, range.start.character, encoding).len();
    let end = text.len() - from_unit(last, range.end.character, encoding).len();
    (start, end)
}
