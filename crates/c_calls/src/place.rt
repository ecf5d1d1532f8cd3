//! Lines and columns of a text.

ghost use Rattle.kdl.specs.Words.{Text};
ghost use Rattle.c_calls.specs.Internal.Places.{IsAfter, Moved, column_of, line_of};
ghost use Rattle.c_calls.specs.Positions.{IsNoPosition, IsPosition};
ghost use Rattle.kdl_text.specs.Chars.{begins};
ghost use Rattle.std.specs.Prelude.{◌≡◌, ◌+◌, ◌<◌, ◌≤◌, ◌^◌, IfSome, IsNone, false};
ghost use Rattle.std.specs.Str.{chars};

use kdl_text::chars::is_newline_char;

/// A place in a text, by its line and its column.
#[derive(Clone, Copy)]
pub struct Place {
    /// The line, counted from 1.
    pub line: usize,
    /// The column, in characters, counted from 1.
    pub column: usize,
    /// Whether the character before is a carriage return. The line and the column do not count it as a newline yet: it
    /// is a newline of its own unless a line feed follows.
    returned: bool,
}

impl Place {
    /// Returns the place, given that no line feed follows: after a carriage return, the start of the next line.
    fn ended(self) -> Place
        requires { line_of self false < 2 ^ 64 }
        ensures line { result.line ≡ line_of self false }
        ensures column { result.column ≡ column_of self false }
        ensures returned { result.returned ≡ false }
    {
        if self.returned {
            return Place {
                line: self.line + 1,
                column: 1,
                returned: false,
            };
        }
        self
    }

    /// Returns the place after one more character.
    fn step(self, c: char) -> Place
        requires line { line_of self false + 1 < 2 ^ 64 }
        requires column { self.column + 1 < 2 ^ 64 }
        requires least { 1 ≤ self.column }
        ensures moved { (r : Text) → Moved self c r result }
        ensures line { line_of result false ≤ line_of self false + 1 }
        ensures column { result.column ≤ self.column + 1 }
        ensures least { 1 ≤ result.column }
    {
        if c == '\n' {
            return Place {
                line: self.line + 1,
                column: 1,
                returned: false,
            };
        }
        let place = self.ended();
        if c == '\r' {
            return Place {
                line: place.line,
                column: place.column + 1,
                returned: true,
            };
        }
        if is_newline_char(c) {
            return Place {
                line: place.line + 1,
                column: 1,
                returned: false,
            };
        }
        Place {
            line: place.line,
            column: place.column + 1,
            returned: false,
        }
    }
}

/// Returns the place at the end of a text.
fn place_after(text: &str) -> Place
    ensures after { (r : Text) → IsAfter (chars text.now) r result }
    ensures line { line_of result false < 2 ^ 64 }
{
    let mut place = Place {
        line: 1,
        column: 1,
        returned: false,
    };
    for c in text.chars() {
        place = place.step(c);
    }
    place
}

/// Returns whether the text begins with a line feed.
fn begins_with_feed(text: &str) -> bool
    ensures { result ≡ begins 10 (chars text.now) }
{
    match text.chars().next() {
        Some(c) => c == '\n',
        None => false,
    }
}

/// Returns the line and the column of the character at the offset, which is in bytes, or of the end of the text.
/// Returns `None` if the offset is after the end or inside a character.
pub fn position(text: &str, offset: usize) -> Option<Place>
    ensures found { IfSome result (λ p. IsPosition (chars text.now) offset p.line p.column) }
    ensures missing { IsNone result → IsNoPosition (chars text.now) offset }
{
    let Some((before, after)) = text.split_at_checked(offset) else {
        return None;
    };
    let place = place_after(before);
    if begins_with_feed(after) {
        Some(place)
    } else {
        Some(place.ended())
    }
}
