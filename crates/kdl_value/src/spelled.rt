//! The spelling in which a string is printed.

ghost use Rattle.kdl_value.specs.Spelled as spec;
ghost use Rattle.kdl_value.specs.Spelled.{PlainRun};
ghost use Rattle.std.specs.Char.{IsScalar};
ghost use Rattle.std.specs.Fmt.{WritesOnOk};
ghost use Rattle.std.specs.Prelude.{◌≡◌, ◌++◌, ◌∷◌, [], ◌<◌, ◌≤◌, length, MatchOption, IfSome, codes, encode_utf8};
ghost use Rattle.std.specs.Str.{chars, bytes_eq, encode_utf8_all, IsUtf8};

use crate::print::write_text;
use kdl_text::chars::{after_plain, is_banned, is_newline_char};
use kdl_text::strings::is_bare;
use std::fmt;
use std::fmt::{Formatter, Write};

/// The first character, and the text after it.
#[inline]
fn next_char(s: &str) -> Option<(char, &str)>
    ensures cases { MatchOption result (chars s.now ≡ []) (λ p. chars s.now ≡ p.0 ∷ chars p.1.now) }
    ensures bytes { MatchOption result (s.now ≡ []) (λ p. s.now ≡ encode_utf8 p.0 ++ p.1.now) }
    ensures text { IfSome result (λ p. IsUtf8 p.1.now) }
    ensures scalar { IfSome result (λ p. IsScalar p.0) }
    ensures shorter { IfSome result (λ p. length p.1.now < length s.now) }
{
    let mut chars = s.chars();
    let c = chars.next()?;
    Some((c, chars.as_str()))
}

/// Whether the text is `-inf`.
fn is_negative_infinity(s: &str) -> bool
    ensures { result ≡ bytes_eq (chars s.now) (codes "-inf") }
{
    s == "-inf"
}

/// Whether the text is printed bare.
fn prints_bare(s: &str) -> bool
    ensures { result ≡ spec.prints_bare (chars s.now) }
{
    is_bare(s) && !is_negative_infinity(s)
}

/// The letter of the short escape of a character, or U+0000 if it has none.
fn escape_letter(c: char) -> char
    ensures { result ≡ spec.escape_letter c }
{
    match c {
        '\\' | '"' => c,
        '\n' => 'n',
        '\r' => 'r',
        '\t' => 't',
        '\u{8}' => 'b',
        '\u{c}' => 'f',
        _ => '\0',
    }
}

/// Writes a character as it is between quotes.
#[tactic(auto, unfolding(crate::specs::Spelled::char_text))]
fn write_char_text<W: Write>(c: char, f: &mut Formatter<W>) -> fmt::Result
    ensures { WritesOnOk W.write_str_gives f.old result (encode_utf8_all (spec.char_text c)) f.new }
{
    let letter = escape_letter(c);
    if letter != '\0' {
        f.write_str("\\")?;
        f.write_char(letter)
    } else if is_newline_char(c) || is_banned(c) {
        let code = u32::from(c);
        write!(f, "\\u{{{code:x}}}")
    } else {
        f.write_char(c)
    }
}

/// The text after its longest run of characters that are printed as they are between quotes.
fn skip_plain(s: &str) -> &str
    ensures run { PlainRun s.now result.now }
    ensures shorter { length result.now ≤ length s.now }
{
    after_plain(s)
}

/// The part of the text before its rest.
fn before<'a>(s: &'a str, rest: &str) -> &'a str
    requires { PlainRun s.now rest.now }
    ensures parts { chars s.now ≡ chars result.now ++ chars rest.now }
    ensures as_is { spec.escaped_text (chars result.now) ≡ chars result.now }
{
    &s[..s.len() - rest.len()]
}

/// Writes a text as it is between quotes.
fn write_escaped<W: Write>(s: &str, f: &mut Formatter<W>) -> fmt::Result
    ensures { WritesOnOk W.write_str_gives f.old result (encode_utf8_all (spec.escaped_text (chars s.now))) f.new }
{
    let mut rest = s;
    'runs: loop {
        let next = skip_plain(rest);
        write_text(before(rest, next), f)?;
        match next_char(next) {
            Some((c, following)) => {
                write_char_text(c, f)?;
                rest = following;
            }
            None => return Ok(()),
        }
    }
}

/// Writes a string as it is spelled: bare if that reads back, else between quotes (KDL 2.0.0, String).
///
/// ```
/// write_spelled("eu-west", f)?; // writes eu-west
/// write_spelled("two words", f)?; // writes "two words"
/// write_spelled("", f)?; // writes ""
/// ```
#[tactic(auto, unfolding(crate::specs::Spelled::spelled))]
pub fn write_spelled<W: Write>(s: &str, f: &mut Formatter<W>) -> fmt::Result
    ensures { WritesOnOk W.write_str_gives f.old result (encode_utf8_all (spec.spelled (chars s.now))) f.new }
{
    if prints_bare(s) {
        f.write_str(s)
    } else {
        f.write_str("\"")?;
        write_escaped(s, f)?;
        f.write_str("\"")
    }
}
