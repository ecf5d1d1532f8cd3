//! Positions and ranges of a text.

ghost use Rattle.lsp_text.specs.Positions.{units};
ghost use Rattle.std.specs.Prelude.{◌≡◌};

/// What the `character` of a position counts.
#[derive(Clone, Copy, PartialEq, Eq, Debug)]
pub enum Encoding {
    /// Bytes.
    Utf8,
    /// Units of 16 bits: a character from U+10000 on counts 2.
    Utf16,
    /// Characters.
    Utf32,
}

impl Encoding {
    /// Returns how many units a character takes.
    pub(crate) fn units(self, c: char) -> usize
        ensures { result ≡ units self c }
    {
        match self {
            Encoding::Utf8 => c.len_utf8(),
            Encoding::Utf16 => c.len_utf16(),
            Encoding::Utf32 => 1,
        }
    }
}

/// A place in a text.
#[derive(Clone, Copy, PartialEq, Eq, Debug)]
pub struct Position {
    /// The line, from 0. A line after the last one is the end of the text.
    pub line: usize,
    /// How many units of the line are before the place. A place after the end of the line is that end, and one inside a
    /// character is the start of the character.
    pub character: usize,
}

/// A part of a text.
#[derive(Clone, Copy, PartialEq, Eq, Debug)]
pub struct Range {
    /// The place where the part begins.
    pub start: Position,
    /// The place where the part ends. A part that ends before it begins is empty.
    pub end: Position,
}
