//! Characters: their classes, and the runs of one class at the start of a text.

ghost use Rattle.kdl_text.specs.Chars as class;
ghost use Rattle.kdl_text.specs.Chars.{begins, begins_two, starts};
ghost use Rattle.kdl_text.specs.Internal.Here.{first, in_class, is_plain, RunOf, AfterRun, AsciiOf, PastChar, PastTwo, Unmarked};
ghost use Rattle.kdl_text.specs.Internal.Marks.{is_passed};
ghost use Rattle.kdl_text.specs.Spans.{bytes};
ghost use Rattle.kdl_text.specs.Internal.DigitRuns.{DecimalsLen, DigitRun};
ghost use Rattle.kdl_text.specs.Internal.Tables.{TableOf};
ghost use Rattle.std.specs.Char.{len_utf8};
ghost use Rattle.std.specs.Prelude.{◌≡◌, ◌+◌, ◌<◌, ◌∷◌, [], false, length, MatchOption, IfSome, nat_lt, not, ◌&&◌};
ghost use Rattle.std.specs.Str.{chars, IsUtf8};

use crate::marks::{Marks, unmarked_len};
use crate::tables::{inside_len, is_inside};

/// Returns whether the character is one of the 18 spaces (KDL 2.0.0, Whitespace).
#[inline]
#[tactic(auto, unfolding(crate::specs::Chars::is_space))]
pub fn is_space(c: char) -> bool
    ensures { result ≡ class.is_space c }
{
    if c.is_ascii() {
        return matches!(c, '\t' | ' ');
    }
    matches!(
        c,
        '\u{a0}' | '\u{1680}' | '\u{2000}'..='\u{200a}' | '\u{202f}' | '\u{205f}' | '\u{3000}'
    )
}

/// Returns whether the character is part of a newline (KDL 2.0.0, Newline).
#[inline]
#[tactic(auto, unfolding(crate::specs::Chars::is_newline_char))]
pub fn is_newline_char(c: char) -> bool
    ensures { result ≡ class.is_newline_char c }
{
    if c.is_ascii() {
        return matches!(c, '\n'..='\r');
    }
    matches!(c, '\u{85}' | '\u{2028}' | '\u{2029}')
}

/// Returns whether KDL 2.0.0 bans the character from documents (Disallowed Literal Code Points). In
/// this grammar a comment may contain it.
#[inline]
#[tactic(auto, unfolding(crate::specs::Chars::is_banned))]
pub fn is_banned(c: char) -> bool
    ensures { result ≡ class.is_banned c }
{
    matches!(c, '\u{0}'..='\u{8}' | '\u{e}'..='\u{1f}' | '\u{7f}' | '\u{200e}'..='\u{200f}' | '\u{202a}'..='\u{202e}' | '\u{2066}'..='\u{2069}' | '\u{feff}')
}

/// Returns whether the character is one of `0` to `9`.
#[inline]
pub fn is_digit(c: char) -> bool
    ensures { result ≡ class.is_digit c }
{
    matches!(c, '0'..='9')
}

/// Returns whether the character is `+` or `-`.
#[inline]
pub fn is_sign(c: char) -> bool
    ensures { result ≡ class.is_sign c }
{
    matches!(c, '+' | '-')
}

/// Whether the character is one of `\ / ( ) { } [ ] ; " # =`.
#[inline]
#[tactic(auto, unfolding(crate::specs::Chars::is_punctuation))]
fn is_punctuation(c: char) -> bool
    ensures { result ≡ class.is_punctuation c }
{
    matches!(
        c,
        '\\' | '/' | '(' | ')' | '{' | '}' | '[' | ']' | ';' | '"' | '#' | '='
    )
}

/// Returns whether a bare string may contain the character (KDL 2.0.0, Identifier String).
#[inline]
#[tactic(auto, unfolding(crate::specs::Chars::is_identifier_char))]
pub fn is_identifier_char(c: char) -> bool
    ensures { result ≡ class.is_identifier_char c }
{
    if c.is_ascii() {
        return is_inside(c as u8, &IDENTIFIERS);
    }
    !(is_space(c) || is_newline_char(c) || is_banned(c) || is_punctuation(c))
}

/// Returns whether the character represents itself in a quoted string (KDL 2.0.0, Quoted String).
#[inline]
#[tactic(auto, unfolding(crate::specs::Chars::is_literal))]
pub fn is_literal(c: char) -> bool
    ensures { result ≡ class.is_literal c }
{
    if c.is_ascii() {
        return is_inside(c as u8, &LITERALS);
    }
    !(c == '\\' || c == '"' || is_newline_char(c) || is_banned(c))
}

/// Returns whether a line of a raw string may contain the character (KDL 2.0.0, Raw String).
#[inline]
#[tactic(auto, unfolding(crate::specs::Chars::is_raw))]
pub fn is_raw(c: char) -> bool
    ensures { result ≡ class.is_raw c }
{
    !(is_newline_char(c) || is_banned(c))
}

/// Whether a line of a raw string may contain the character, and it is not a quote.
#[inline]
#[tactic(auto, unfolding(crate::specs::Chars::is_unquoted))]
fn is_unquoted(c: char) -> bool
    ensures { result ≡ class.is_unquoted c }
{
    !(c == '"' || is_newline_char(c) || is_banned(c))
}

/// Whether the character represents itself in a quoted string, and is not a tab.
#[inline]
#[tactic(auto, unfolding(crate::specs::Internal::Here::is_plain))]
fn is_plain(c: char) -> bool
    ensures { result ≡ is_plain c }
{
    is_literal(c) && c != '\t'
}

/// A class of characters. A cursor reads a run of them by one call.
#[derive(Clone, Copy)]
pub enum Class {
    /// The 18 spaces.
    Space,
    /// The characters of bare strings and numbers.
    Identifier,
    /// The literal characters of a quoted string.
    Literal,
    /// All characters but those of newlines.
    Line,
    /// The characters that a line of a raw string may contain, except quotes.
    Unquoted,
    /// Number signs.
    NumberSign,
    /// Quotes.
    Quote,
    /// The literal characters of a quoted string, except tabs.
    Plain,
}

/// The ASCII characters of each class: bit h of entry l tells whether it contains the character 16
/// * h + l.
static SPACES: [u8; 16] = [
    0x04, 0x00, 0x00, 0x00, 0x00, 0x00, 0x00, 0x00, 0x00, 0x01, 0x00, 0x00, 0x00, 0x00, 0x00, 0x00,
];

static IDENTIFIERS: [u8; 16] = [
    0xf8, 0xfc, 0xf8, 0xf8, 0xfc, 0xfc, 0xfc, 0xfc, 0xf8, 0xf8, 0xfc, 0x54, 0xdc, 0x54, 0xfc, 0x78,
];

static LITERALS: [u8; 16] = [
    0xfc, 0xfc, 0xf8, 0xfc, 0xfc, 0xfc, 0xfc, 0xfc, 0xfc, 0xfd, 0xfc, 0xfc, 0xdc, 0xfc, 0xfc, 0x7c,
];

static LINES: [u8; 16] = [
    0xff, 0xff, 0xff, 0xff, 0xff, 0xff, 0xff, 0xff, 0xff, 0xff, 0xfe, 0xfe, 0xfe, 0xfe, 0xff, 0xff,
];

static UNQUOTEDS: [u8; 16] = [
    0xfc, 0xfc, 0xf8, 0xfc, 0xfc, 0xfc, 0xfc, 0xfc, 0xfc, 0xfd, 0xfc, 0xfc, 0xfc, 0xfc, 0xfc, 0x7c,
];

static NUMBER_SIGNS: [u8; 16] = [
    0x00, 0x00, 0x00, 0x04, 0x00, 0x00, 0x00, 0x00, 0x00, 0x00, 0x00, 0x00, 0x00, 0x00, 0x00, 0x00,
];

static QUOTES: [u8; 16] = [
    0x00, 0x00, 0x04, 0x00, 0x00, 0x00, 0x00, 0x00, 0x00, 0x00, 0x00, 0x00, 0x00, 0x00, 0x00, 0x00,
];

static PLAINS: [u8; 16] = [
    0xfc, 0xfc, 0xf8, 0xfc, 0xfc, 0xfc, 0xfc, 0xfc, 0xfc, 0xfc, 0xfc, 0xfc, 0xdc, 0xfc, 0xfc, 0x7c,
];

impl Class {
    /// The table of the class's ASCII characters.
    #[inline(always)]
    fn table(self) -> &'static [u8; 16]
        ensures { TableOf (in_class self) result.now }
    {
        match self {
            Class::Space => &SPACES,
            Class::Identifier => &IDENTIFIERS,
            Class::Literal => &LITERALS,
            Class::Line => &LINES,
            Class::Unquoted => &UNQUOTEDS,
            Class::NumberSign => &NUMBER_SIGNS,
            Class::Quote => &QUOTES,
            Class::Plain => &PLAINS,
        }
    }

    /// Whether the character is in the class and is not ASCII.
    #[inline]
    fn has_beyond(self, c: char) -> bool
        ensures { result ≡ (not (nat_lt c 128) && in_class self c) }
    {
        !c.is_ascii() && self.has(c)
    }

    /// Whether the character is in the class.
    #[inline(never)]
    fn has(self, c: char) -> bool
        ensures { result ≡ in_class self c }
    {
        match self {
            Class::Space => is_space(c),
            Class::Identifier => is_identifier_char(c),
            Class::Literal => is_literal(c),
            Class::Line => !is_newline_char(c),
            Class::Unquoted => is_unquoted(c),
            Class::NumberSign => c == '#',
            Class::Quote => c == '"',
            Class::Plain => is_plain(c),
        }
    }
}

/// Returns the text after its longest run of ASCII characters of the class, and the number of
/// characters in the run.
#[inline]
#[tactic(auto, using(crate::proofs::Looking::ClassTables::ascii_boundary))]
fn skip_ascii(text: &str, class: Class) -> (&str, u64)
    ensures { AsciiOf (in_class class) text.now result.0.now result.1 }
{
    let count = inside_len(text.as_bytes(), class.table());
    (&text[count..], count as u64)
}

/// The number of decimal digits at the front, their value, and whether digits or `_` may follow them.
/// The count ends where the value is 2^59 or more.
#[inline(always)]
fn decimals_len(bytes: &[u8]) -> (usize, u64, bool)
    ensures { DecimalsLen bytes.now result.0 result.1 result.2 }
{
    let mut count = 0;
    let mut value: u64 = 0;
    'digits: while count < bytes.len() && value < 1 << 59 {
        let byte = bytes[count];
        let digit = byte.wrapping_sub(b'0');
        if digit > 9 {
            return (count, value, byte == b'_');
        }
        value = value * 10 + u64::from(digit);
        count += 1;
    }
    (count, value, true)
}

/// Returns the text after the decimal digits at its front, their number, their value, and whether
/// digits or `_` may follow them.
#[inline(always)]
pub(crate) fn skip_decimals(text: &str) -> (&str, usize, u64, bool)
    ensures { DigitRun text.now result.0.now result.1 result.2 result.3 }
{
    let (count, value, more) = decimals_len(text.as_bytes());
    (&text[count..], count, value, more)
}

/// The first character, and the text after it.
#[inline]
pub(crate) fn split_first(text: &str) -> Option<(char, &str)>
    ensures parts { MatchOption result (chars text.now ≡ []) (λ (c, rest). (chars text.now ≡ c ∷ chars rest.now)
        × (length text.now ≡ len_utf8 c + length rest.now)) }
    ensures len { bytes (chars text.now) ≡ length text.now }
    ensures text { IfSome result (λ (c, rest). IsUtf8 rest.now) }
{
    let mut chars = text.chars();
    match chars.next() {
        Some(c) => Some((c, chars.as_str())),
        None => None,
    }
}

/// The first character.
#[inline]
pub(crate) fn first_char(text: &str) -> Option<char>
    ensures first { result ≡ first (chars text.now) }
    ensures len { bytes (chars text.now) ≡ length text.now }
{
    text.chars().next()
}

/// The text after its first character, if it is c.
#[inline(always)]
pub(crate) fn after_char(text: &str, c: char) -> Option<&str>
    ensures past { MatchOption result (begins c (chars text.now) ≡ false) (λ rest. PastChar c text.now rest.now) }
    ensures text { IfSome result (λ rest. IsUtf8 rest.now) }
{
    if c.is_ascii() {
        let bytes = text.as_bytes();
        if bytes.is_empty() || bytes[0] != c as u8 {
            return None;
        }
        return Some(&text[1..]);
    }
    match split_first(text) {
        Some((d, rest)) if d == c => Some(rest),
        _ => None,
    }
}

/// The text after its first two characters, if they are a and b.
#[inline(always)]
pub(crate) fn after_two(text: &str, a: char, b: char) -> Option<&str>
    ensures past { MatchOption result (begins_two a b (chars text.now) ≡ false) (λ rest. PastTwo a b text.now rest.now) }
    ensures text { IfSome result (λ rest. IsUtf8 rest.now) }
{
    match after_char(text, a) {
        Some(rest) => after_char(rest, b),
        None => None,
    }
}

/// The text from its first mark on.
#[inline(always)]
pub(crate) fn skip_unmarked(text: &str, marks: Marks) -> &str
    ensures { Unmarked (is_passed marks) text.now result.now }
{
    let count = unmarked_len(text.as_bytes(), marks);
    &text[count..]
}

/// Continues the longest run of the class where `skip_ascii` stopped after `read` characters.
/// Returns the text after the run, and the number of characters in it.
#[inline(never)]
#[tactic(auto, using(crate::proofs::Looking::Runs::runs))]
fn skip_beyond<'a>(text: &str, following: &'a str, read: u64, class: Class) -> (&'a str, u64)
    requires { AsciiOf (in_class class) text.now following.now read }
    ensures { RunOf (in_class class) text.now result.0.now result.1 }
{
    let _len = text.len();
    let mut rest = following;
    let mut count = read;
    'run: while let Some((c, next)) = split_first(rest) {
        if !class.has_beyond(c) {
            break;
        }
        let (following, more) = skip_ascii(next, class);
        rest = following;
        count += 1 + more;
    }
    (rest, count)
}

/// Returns the text after its longest run of characters that represent themselves in a quoted string
/// and are not tabs.
pub fn after_plain(text: &str) -> &str
    ensures { AfterRun is_plain text.now result.now }
{
    let (rest, _) = skip_class(text, Class::Plain);
    rest
}

/// Whether the text begins with a space.
#[inline(always)]
fn begins_space(text: &str) -> bool
    ensures { result ≡ starts class.is_space (chars text.now) }
{
    match first_char(text) {
        Some(c) => is_space(c),
        None => false,
    }
}

/// The text after the U+0020 with which the text begins, if no other space follows it.
#[inline(always)]
fn after_one_space(text: &str) -> Option<&str>
    ensures { IfSome result (λ rest. RunOf class.is_space text.now rest.now 1) }
{
    match split_first(text) {
        Some((c, rest)) if c == ' ' && !begins_space(rest) => Some(rest),
        _ => None,
    }
}

/// Returns the text after its longest run of characters of the class, and the number of characters
/// in the run. Most runs of spaces are one character.
#[inline(always)]
pub(crate) fn skip_class(text: &str, class: Class) -> (&str, u64)
    ensures { RunOf (in_class class) text.now result.0.now result.1 }
{
    if let Class::Space = class {
        if let Some(rest) = after_one_space(text) {
            return (rest, 1);
        }
    }
    let (rest, count) = skip_ascii(text, class);
    let Some(c) = first_char(rest) else {
        return (rest, count);
    };
    if c.is_ascii() {
        return (rest, count);
    }
    skip_beyond(text, rest, count, class)
}
