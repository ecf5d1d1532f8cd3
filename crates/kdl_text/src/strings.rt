//! Readers of strings (KDL 2.0.0, String).
//!
//! Each reader begins at the first character of the string, and leaves the cursor after its last
//! one.
#![tactic(auto, using(crate::proofs::Looking::Returns::advancing))]

ghost use Rattle.kdl_text.specs.Bare as bare;
ghost use Rattle.kdl_text.specs.Bare.{BareString};
ghost use Rattle.kdl_text.specs.Chars.{Text, is_digit, is_identifier_char, is_newline_char, within};
ghost use Rattle.kdl_text.specs.Internal.Here.{Looked, Stayed, first, in_class};
ghost use Rattle.kdl_text.specs.Internal.StringReading.{ReadsEscape, ReadsHex};
ghost use Rattle.kdl_text.specs.MultiLine.{IsQuoted};
ghost use Rattle.kdl_text.specs.Internal.Reading.{CutsRun, Moves, Costs, Past, Consumed};
ghost use Rattle.kdl_text.specs.Strings as spec;
ghost use Rattle.kdl_text.specs.Strings.{QuotedBody, StringUnit, IsUnit, Run, unit_value};
ghost use Rattle.kdl_text.specs.declared.strings.StringFault.TheVariants.{Newline, Banned};
ghost use Rattle.kdl_text.specs.declared.strings.StringFailure.TheVariants.{Memory, Fault};
ghost use Rattle.std.specs.Prelude.{◌≡◌, ◌&&◌, ◌||◌, true, false, ◌∷◌, ◌++◌, Some, MatchOption, MatchResult, IfSome, IfOk, IfErr, string_bytes, encode_utf8};
ghost use Rattle.std.specs.Char.{is_ascii_alphabetic};
ghost use Rattle.std.specs.List.{list_all};
ghost use Rattle.std.specs.Str.{chars, bytes_eq};

use self::multiline::many_lines;
use crate::chars::{Class, is_digit, is_newline_char, is_space};
use crate::cursor::{Cursor, Piece, Steps};
use std::alloc::{AllocError, Global};

mod dedent;
mod multiline;
mod raw;

pub use raw::raw_string;

/// Why a text is not a string.
#[derive(Clone, Copy, Drop)]
pub enum StringFault {
    /// The text does not begin with a quote, or for a raw string with number signs and then a
    /// quote.
    Unopened,
    /// The text ends before the closing quote.
    Unclosed,
    /// A backslash without an escape after it.
    BadEscape,
    /// A newline in a single-line string.
    Newline,
    /// A character that a document may not contain.
    Banned,
    /// No newline after the three quotes that begin a multi-line string.
    NoNewline,
    /// The last line of a multi-line string is not only spaces.
    BadLastLine,
    /// A line of a multi-line string neither begins with the last line's spaces nor is only spaces.
    NoPrefix,
    /// A single-line raw string whose content is one quote or begins with two.
    LooksMultiLine,
}

/// Why a string was not read.
#[derive(Clone, Copy, Drop)]
pub enum StringFailure {
    /// The text here is not a string.
    Fault(StringFault),
    /// The allocation for its value failed.
    Memory,
}

impl From<AllocError> for StringFailure {
    ghost from_gives = { λ _ e. e ≡ Memory };

    fn from(_: AllocError) -> Self {
        StringFailure::Memory
    }
}

impl From<StringFault> for StringFailure {
    ghost from_gives = { λ f e. e ≡ Fault f };

    fn from(fault: StringFault) -> Self {
        StringFailure::Fault(fault)
    }
}

/// Advances past the longest run of characters of the class, and returns it.
#[inline(always)]
fn run_of<'a>(class: Class, cursor: &mut Cursor<'a>) -> Piece<'a>
    ensures { Consumed 2 1 (CutsRun (in_class class) result) cursor.old cursor.new }
{
    let start = cursor.checkpoint();
    cursor.skip(class);
    cursor.slice(&start)
}

fn is_word(piece: &Piece, word: &str) -> bool
    requires { list_all (within 0 127) word.now ≡ true }
    ensures { result ≡ bytes_eq piece.now word.now }
{
    piece.is(word)
}

/// Whether the piece, which begins with the character c, is one of the words that may not be bare
/// strings.
#[inline(always)]
fn is_excluded(c: char, piece: &Piece) -> bool
    requires { first piece.now ≡ Some c }
    ensures { result ≡ bare.is_excluded piece.now }
{
    match c {
        't' => is_word(piece, "true"),
        'f' => is_word(piece, "false"),
        'n' => is_word(piece, "null") || is_word(piece, "nan"),
        'i' => is_word(piece, "inf"),
        _ => false,
    }
}

/// Whether the next character of the piece may follow a point in a bare string.
fn follows_point<'a>(unread: &mut Piece<'a>, cursor: &mut Cursor<'a>) -> bool
    ensures result { result ≡ bare.after_point unread.old }
    ensures stayed { Stayed 1 cursor.old cursor.new }
{
    match cursor.take_of(unread) {
        Some(c) => !is_digit(c),
        None => true,
    }
}

/// Whether the next characters of the piece may follow a sign in a bare string.
fn follows_sign<'a>(unread: &mut Piece<'a>, cursor: &mut Cursor<'a>) -> bool
    ensures result { result ≡ bare.after_sign unread.old }
    ensures looked { Looked 2 cursor.old cursor.new }
{
    match cursor.take_of(unread) {
        Some('.') => follows_point(unread, cursor),
        Some(c) => !is_digit(c),
        None => true,
    }
}

/// Whether identifier characters are a bare string. Looks at three of them at most.
#[inline(always)]
fn has_bare_form<'a>(word: &Piece<'a>, cursor: &mut Cursor<'a>) -> bool
    ensures result { result ≡ bare.bare_form word.now }
    ensures looked { Looked 3 cursor.old cursor.new }
{
    let mut unread = word.copied();
    match cursor.take_of(&mut unread) {
        Some('+' | '-') => follows_sign(&mut unread, cursor),
        Some('.') => follows_point(&mut unread, cursor),
        Some(c) => !is_digit(c) && !is_excluded(c, word),
        None => false,
    }
}

/// Advances past the longest run of identifier characters. Returns the run if it is a bare string
/// (KDL 2.0.0, Identifier String), and `None` if no bare string begins here.
#[inline(always)]
pub fn bare_string<'a>(cursor: &mut Cursor<'a>) -> Option<Piece<'a>>
    ensures found { IfSome result (λ p. BareString cursor.old.rest cursor.new.rest p) }
    ensures only { (r w : Text) → BareString cursor.old.rest r w
        → MatchOption result ⊥ (λ p. (r ≡ cursor.new.rest) × (w ≡ p)) }
    ensures run { Run is_identifier_char cursor.old.rest cursor.new.rest }
    ensures moves { Moves cursor.old cursor.new }
    ensures costs { Costs 2 4 cursor.old cursor.new }
    ensures cost { IfSome result (λ _. Costs 24 0 cursor.old cursor.new) }
{
    let word = run_of(Class::Identifier, cursor);
    let is_bare = has_bare_form(&word, cursor);
    if is_bare { Some(word) } else { None }
}

/// Whether the word, which begins with the ASCII letter c, is a bare string. Only the excluded words are none.
#[inline(always)]
#[tactic(auto, using(crate::proofs::Quoted::BareReads::letter_form))]
fn has_letter_form(c: char, word: &Piece) -> bool
    requires first { first word.now ≡ Some c }
    requires letter { is_ascii_alphabetic c ≡ true }
    ensures { result ≡ bare.bare_form word.now }
{
    !is_excluded(c, word)
}

/// Advances past the longest run of identifier characters, which begins with the ASCII letter c, as `bare_string` does,
/// and returns what that returns.
#[inline(always)]
pub fn letter_string<'a>(c: char, cursor: &mut Cursor<'a>) -> Option<Piece<'a>>
    requires first { first cursor.old.rest ≡ Some c }
    requires letter { is_ascii_alphabetic c ≡ true }
    ensures found { IfSome result (λ p. BareString cursor.old.rest cursor.new.rest p) }
    ensures only { (r w : Text) → BareString cursor.old.rest r w
        → MatchOption result ⊥ (λ p. (r ≡ cursor.new.rest) × (w ≡ p)) }
    ensures moves { Moves cursor.old cursor.new }
    ensures costs { Costs 2 4 cursor.old cursor.new }
{
    let word = run_of(Class::Identifier, cursor);
    let is_bare = has_letter_form(c, &word);
    if is_bare { Some(word) } else { None }
}

/// Returns whether the whole text is a bare string.
pub fn is_bare(text: &str) -> bool
    ensures { result ≡ bare.is_bare (chars text.now) }
{
    let mut cursor = Cursor::new(text, Steps::new());
    match bare_string(&mut cursor) {
        Some(_) => cursor.look().is_none(),
        None => false,
    }
}

fn is_blank(c: char) -> bool
    ensures { result ≡ spec.is_escaped_space c }
{
    is_space(c) || is_newline_char(c)
}

/// Advances past spaces and newlines.
fn skip_blanks(cursor: &mut Cursor)
    ensures { Consumed 1 1 (Run spec.is_escaped_space) cursor.old cursor.new }
{
    'blanks: while let Some(c) = cursor.look() {
        if !is_blank(c) {
            return;
        }
        cursor.step();
    }
}

/// After `\u{`: reads a hexadecimal number and `}`, and returns the character with that number.
fn hex_number(cursor: &mut Cursor) -> Option<char>
    ensures { ReadsHex result cursor.old cursor.new }
{
    let mut value = 0u32;
    let mut count = 0u8;
    'digits: loop {
        let Some(c) = cursor.take() else {
            return None;
        };
        if c == '}' {
            if count == 0 {
                return None;
            }
            return char::from_u32(value);
        }
        let Some(digit) = c.to_digit(16) else {
            return None;
        };
        if count == 6 {
            return None;
        }
        count += 1;
        value = value * 16 + digit;
    }
}

/// The character that a letter after a backslash denotes.
fn letter_escape(letter: char) -> Option<char>
    ensures { result ≡ spec.letter_escape letter }
{
    match letter {
        '\\' | '"' => Some(letter),
        'b' => Some('\u{8}'),
        'f' => Some('\u{c}'),
        'n' => Some('\n'),
        'r' => Some('\r'),
        't' => Some('\t'),
        's' => Some(' '),
        _ => None,
    }
}

/// Reads the rest of the escape that begins with this letter, and returns its character. After `u`
/// the number of the character follows, in braces.
fn escaped_char(letter: char, cursor: &mut Cursor) -> Option<char>
    ensures { ReadsEscape letter result cursor.old cursor.new }
{
    if letter != 'u' {
        return letter_escape(letter);
    }
    if !cursor.eat('{') {
        return None;
    }
    hex_number(cursor)
}

/// Reads what follows a backslash. Returns the character of an escape, or `None` for spaces and
/// newlines.
pub fn escaped_unit(cursor: &mut Cursor) -> Result<Option<char>, StringFault>
    ensures found { IfOk result (λ o. IsUnit (92 ∷ cursor.old.rest) cursor.new.rest (spec.escape_of o)) }
    ensures only { (r : Text) (u : StringUnit) → IsUnit (92 ∷ cursor.old.rest) r u → IfErr result (λ _. ⊥) }
    ensures moves { Moves cursor.old cursor.new }
    ensures costs { Costs 1 1 cursor.old cursor.new }
{
    let Some(letter) = cursor.take() else {
        return Err(StringFault::Unclosed);
    };
    if is_blank(letter) {
        skip_blanks(cursor);
        return Ok(None);
    }
    let Some(c) = escaped_char(letter, cursor) else {
        return Err(StringFault::BadEscape);
    };
    Ok(Some(c))
}

/// How many bytes to reserve in a short string after its first escape.
const ROOM: usize = 96;

/// Appends the character of an escape.
fn push_escaped(out: &mut String, c: char) -> Result<(), AllocError>
    ensures { IfOk result (λ _. string_bytes out.new ≡ string_bytes out.old ++ encode_utf8 c) }
{
    if out.capacity() < ROOM {
        out.reserve(ROOM)?;
    }
    out.push(c)?;
    Ok(())
}

/// Reads what follows a backslash, and appends its character, or nothing for spaces and newlines.
fn escape(cursor: &mut Cursor, out: &mut String) -> Result<(), StringFailure>
    ensures found { IfOk result (λ _. (u : StringUnit) × IsUnit (92 ∷ cursor.old.rest) cursor.new.rest u
        × (chars (string_bytes out.new) ≡ chars (string_bytes out.old) ++ unit_value u)) }
    ensures only { (r : Text) (u : StringUnit) → IsUnit (92 ∷ cursor.old.rest) r u → IfErr result (λ e. e ≡ Memory) }
    ensures past { Past 1 1 cursor.old cursor.new }
{
    match escaped_unit(cursor)? {
        Some(c) => {
            push_escaped(out, c)?;
            Ok(())
        }
        None => Ok(()),
    }
}

/// Why a quoted string may not contain the character.
fn fault_at(c: char) -> StringFault
    ensures newline { is_newline_char c ≡ true → result ≡ Newline }
    ensures banned { is_newline_char c ≡ false → result ≡ Banned }
{
    if is_newline_char(c) {
        StringFault::Newline
    } else {
        StringFault::Banned
    }
}

/// Reads the units of a quoted string and its closing quote.
fn quoted_body(alloc: Global, cursor: &mut Cursor) -> Result<String, StringFailure>
    ensures found { IfOk result (λ v. QuotedBody cursor.old.rest cursor.new.rest (chars (string_bytes v))) }
    ensures only { (r w : Text) → QuotedBody cursor.old.rest r w
        → MatchResult result (λ v. (r ≡ cursor.new.rest) × (w ≡ chars (string_bytes v))) (λ e. e ≡ Memory) }
    ensures past { Past 3 2 cursor.old cursor.new }
{
    let mut out = run_of(Class::Literal, cursor).to_string(alloc)?;
    'units: loop {
        match cursor.take() {
            Some('"') => return Ok(out),
            Some('\\') => escape(cursor, &mut out)?,
            Some(c) => return Err(StringFailure::Fault(fault_at(c))),
            None => return Err(StringFailure::Fault(StringFault::Unclosed)),
        }
        run_of(Class::Literal, cursor).push_to(&mut out)?;
    }
}

/// Reads a quoted string, single-line or multi-line (KDL 2.0.0, Quoted String and Multi-line
/// String). Advances past the closing quotes and returns the value. Fails with a fault if no quoted
/// string begins here, and with `Memory` if the allocation for the value fails.
pub fn quoted_string(alloc: Global, cursor: &mut Cursor) -> Result<String, StringFailure>
    ensures found { IfOk result (λ v. IsQuoted cursor.old.rest cursor.new.rest (chars (string_bytes v))) }
    ensures only { (r w : Text) → IsQuoted cursor.old.rest r w
        → MatchResult result (λ v. (r ≡ cursor.new.rest) × (w ≡ chars (string_bytes v))) (λ e. e ≡ Memory) }
    ensures moves { Moves cursor.old cursor.new }
    ensures costs { Costs 4 7 cursor.old cursor.new }
    ensures cost { IfOk result (λ _. Costs 24 0 cursor.old cursor.new) }
{
    if !cursor.eat('"') {
        return Err(StringFailure::Fault(StringFault::Unopened));
    }
    if cursor.eat_two('"', '"') {
        many_lines(alloc, cursor, 0)
    } else {
        quoted_body(alloc, cursor)
    }
}
