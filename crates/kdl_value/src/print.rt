//! Parts of printed text.

ghost use Rattle.std.specs.Char.{is_ascii};
ghost use Rattle.std.specs.Fmt.{WritesOnOk, signed_decimal};
ghost use Rattle.std.specs.List.{list_all};
ghost use Rattle.std.specs.Prelude.{◌≡◌, ◌∷◌, [], true};
ghost use Rattle.std.specs.Str.{chars, encode_utf8_all};

use std::fmt;
use std::fmt::{Formatter, Write};

/// Writes a text as it is.
///
/// ```
/// write_text("two words", f)?; // writes these nine characters, without quotes
/// ```
#[inline(always)]
pub fn write_text<W: Write>(text: &str, f: &mut Formatter<W>) -> fmt::Result
    ensures { WritesOnOk W.write_str_gives f.old result (encode_utf8_all (chars text.now)) f.new }
{
    match text.len() {
        0 => Ok(()),
        1 => f.write_str(&text[..1]),
        _ => f.write_str(text),
    }
}

/// Writes a word, which is ASCII.
#[inline]
pub(crate) fn write_word<W: Write>(word: &str, f: &mut Formatter<W>) -> fmt::Result
    requires { list_all is_ascii word.now ≡ true }
    ensures { WritesOnOk W.write_str_gives f.old result (encode_utf8_all word.now) f.new }
{
    f.write_str(word)
}

/// Writes a character.
///
/// ```
/// write_char('\n', f)?; // writes a newline, and no escape
/// ```
#[inline]
pub fn write_char<W: Write>(c: char, f: &mut Formatter<W>) -> fmt::Result
    ensures { WritesOnOk W.write_str_gives f.old result (encode_utf8_all (c ∷ [])) f.new }
{
    f.write_char(c)
}

/// Writes a whole number in base 10.
pub(crate) fn write_integer<W: Write>(x: i128, f: &mut Formatter<W>) -> fmt::Result
    ensures { WritesOnOk W.write_str_gives f.old result (encode_utf8_all (signed_decimal x)) f.new }
{
    write!(f, "{x}")
}
