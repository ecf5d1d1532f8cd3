//! The lexemes of a text, including faulty ones, one at a time.
//!
//! Nothing is built: the reader finds where a string, a number or a keyword ends, and its fault.

ghost use Rattle.kdl_diagnostics.specs.Internal.Reading.{EndsIn, FindsAlso, IsLexeme, IsNext, Lexes, LiesIn, Passed, Past, Reads, ReadsFrom, Since, Stands, begins_sign};
ghost use Rattle.kdl_text.specs.Chars.{Text, begins, is_identifier_char, starts};
ghost use Rattle.kdl_text.specs.Internal.Here.{IsPart, Returned, first};
ghost use Rattle.kdl_text.specs.Spans.{bytes};
ghost use Rattle.kdl_text.specs.Internal.Reading.{Moves};
ghost use Rattle.std.specs.Prelude.{◌≡◌, ◌+◌, ◌-◌, ◌*◌, ◌≤◌, ◌++◌, [], true, Some, IfOk, IfSome};

use crate::ends::{ValueEnd, end_at_backslash, value_end};
use crate::kind::Kind;
use crate::strings::{Found, scan_string};
use kdl_syntax::{Phase, TokenKind};
use kdl_text::chars::{Class, is_identifier_char, is_newline_char, is_space};
use kdl_text::cursor::{Checkpoint, Cursor, Segment, newline};
use kdl_text::numbers::{
    Number, NumberFailure, NumberFault, Radix, begins_number, read_keyword, read_number,
};
use kdl_text::strings::bare_string;
use kdl_text::trivia::{SlashRead, slash};
use kdl_value::KdlValue;
use std::alloc::{AllocError, Global};

/// A lexeme of a text.
#[derive(Drop)]
pub(crate) struct Lexeme<'a> {
    /// Its token, without a value; `None` if no token begins with the character.
    pub token: Option<TokenKind>,
    /// Where it begins.
    pub start: Checkpoint<'a>,
    /// The next value end from its fault on, or the start of a lexeme that ends a value, or the place after a `(`.
    pub end: Checkpoint<'a>,
    /// The fault of a string, a number or a keyword.
    pub fault: Option<Kind>,
    /// The backslash before the end of a string's fault, if a block comment after it begins in the string and is not
    /// closed there.
    pub backslash: Option<Checkpoint<'a>>,
    /// The start of an unclosed block comment, which is the lexeme itself or in what begins as an escline after it. It
    /// ends with the text.
    pub comment: Option<Checkpoint<'a>>,
    /// Whether the text ended in the middle of a string.
    pub cut: bool,
}

impl<'a> Lexeme<'a> {
    /// Creates a lexeme without a fault, up to the end.
    fn new(token: Option<TokenKind>, start: Checkpoint<'a>, end: ValueEnd<'a>) -> Self
        requires { EndsIn start.rest end }
        ensures { Stands start.entry.rest result }
    {
        let (end, comment) = end;
        Lexeme {
            token,
            start,
            end,
            fault: None,
            backslash: None,
            comment,
            cut: false,
        }
    }
}

/// A lexeme that ends a value, or spaces.
fn plain<'a>(token: TokenKind, start: Checkpoint<'a>) -> Lexeme<'a>
    ensures { Stands start.entry.rest result }
{
    let end = (start.copied(), None);
    Lexeme::new(Some(token), start, end)
}

/// Advances past a character with which no lexeme begins, and on to the next value end.
fn other<'a>(cursor: &mut Cursor<'a>) -> Lexeme<'a>
    requires { cursor.old.rest ≡ [] → ⊥ }
    ensures { Lexes 24 12 cursor.old result cursor.new }
{
    let start = cursor.checkpoint();
    cursor.step();
    let end = value_end(cursor);
    Lexeme::new(None, start, end)
}

/// Advances past what begins with the slash here.
fn slash_lexeme<'a>(cursor: &mut Cursor<'a>) -> Lexeme<'a>
    requires { cursor.old.rest ≡ [] → ⊥ }
    ensures { Lexes 24 18 cursor.old result cursor.new }
{
    let start = cursor.checkpoint();
    match slash(cursor) {
        SlashRead::Block => plain(TokenKind::Space, start),
        SlashRead::Line => plain(TokenKind::Newline, start),
        SlashRead::Dash => plain(TokenKind::Slashdash, start),
        SlashRead::Unclosed => {
            let end = (start.copied(), Some(start.copied()));
            Lexeme::new(Some(TokenKind::Space), start, end)
        }
        SlashRead::Other => other(cursor),
    }
}

/// Advances past what begins with the backslash here: an escline, or an unclosed block comment after the backslash, or
/// else what is no lexeme, up to the next value end.
fn backslash_lexeme<'a>(cursor: &mut Cursor<'a>) -> Lexeme<'a>
    requires { begins 92 cursor.old.rest ≡ true }
    ensures { Lexes 24 12 cursor.old result cursor.new }
{
    let start = cursor.checkpoint();
    let Some(end) = end_at_backslash(cursor) else {
        let end = value_end(cursor);
        return Lexeme::new(None, start, end);
    };
    if end.1.is_some() || end.0.at() == start.at() {
        return Lexeme::new(Some(TokenKind::Space), start, end);
    }
    Lexeme::new(None, start, end)
}

/// A string, a number or a keyword that ends here. If no value end is here, that is its fault, unless it has another
/// one already. A number out of range has that fault only if a value end is here.
fn word<'a>(
    cursor: &mut Cursor<'a>,
    token: TokenKind,
    start: Checkpoint<'a>,
    fault: Option<Kind>,
    without_end: Kind,
) -> Lexeme<'a>
    requires { Past start cursor.old }
    ensures lexeme { IsLexeme start.entry.rest result cursor.new }
    ensures reads { Reads 24 12 cursor.old cursor.new }
{
    let here = cursor.at();
    let end = value_end(cursor);
    let is_ended = end.0.at() == here;
    let mut lexeme = Lexeme::new(Some(token), start, end);
    lexeme.fault = match fault {
        None | Some(Kind::Number(NumberFault::OutOfRange)) if !is_ended => Some(without_end),
        fault => fault,
    };
    lexeme
}

/// Advances by the given number of bytes, or to the end of the text. Returns the place before the last character that
/// it passes.
fn go_on<'a>(cursor: &mut Cursor<'a>, by: usize) -> Checkpoint<'a>
    ensures last { (p : Text) × (cursor.old.rest ≡ p ++ result.rest) }
    ensures moves { Moves cursor.old cursor.new }
    ensures most { cursor.new.steps ≤ cursor.old.steps + by }
{
    let start = cursor.at();
    let mut last = cursor.checkpoint();
    'chars: while cursor.at() - start < by {
        last = cursor.checkpoint();
        let Some(_) = cursor.take() else {
            return last;
        };
    }
    last
}

/// The first value end from the place on in the part of the text up to here, or its end; and the backslash before it,
/// if a block comment after it begins in that part and is not closed there.
fn end_within<'a>(
    cursor: &mut Cursor<'a>,
    from: &Checkpoint<'a>,
) -> (Checkpoint<'a>, Option<Checkpoint<'a>>)
    requires { Since from.now cursor.old }
    ensures place { LiesIn from.now.rest result.0 }
    ensures backslash { IfSome result.1 (LiesIn from.now.rest) }
    ensures back { Returned (26 * (bytes from.now.rest - bytes cursor.old.rest) + 12) cursor.old cursor.new }
{
    let here = cursor.enter(&from.up_to(&cursor.checkpoint()));
    let end = value_end(cursor);
    cursor.go_to(from);
    let last = go_on(cursor, end.0.at());
    let place = cursor.checkpoint();
    cursor.go_to(&here);
    (place, end.1.is_some().then_some(last))
}

/// The end of a fault in a string: the value end in the string, or else the one after it. A string that looks like a
/// multi-line string is faulty as a whole.
fn end_of_fault<'a>(
    kind: Kind,
    inside: Checkpoint<'a>,
    after: Checkpoint<'a>,
    end: Checkpoint<'a>,
) -> Checkpoint<'a>
    ensures { (s : Text) → LiesIn s inside.entry → LiesIn s after.entry → LiesIn s end.entry → LiesIn s result }
{
    match kind {
        Kind::RawQuotes => after,
        _ if inside.at() < after.at() => inside,
        _ => end,
    }
}

/// The fault to report if this one was found in the string that begins at the place. The fault of a type's name is the
/// type's. After the name the type is faulty from the string's start on.
fn fault_in_phase<'a>(
    phase: Phase,
    start: &Checkpoint<'a>,
    fault: Option<Found<'a>>,
) -> Option<Found<'a>>
    ensures { FindsAlso fault.entry start.now result }
{
    let kind = Kind::Type;
    match phase {
        Phase::TypeOpen(_) => Some(Found { kind, ..fault? }),
        Phase::TypeName(_) => Some(Found {
            kind,
            place: start.copied(),
            is_cut: matches!(&fault, Some(found) if found.is_cut),
        }),
        _ => fault,
    }
}

/// A faulty string that the cursor has passed. Its fault ends at the next value end from the fault on, and the cursor
/// advances to the value end after the string.
fn faulty_string<'a>(
    token: TokenKind,
    cursor: &mut Cursor<'a>,
    start: Checkpoint<'a>,
    found: Found<'a>,
) -> Lexeme<'a>
    requires start { Past start cursor.old }
    requires found { Passed start.rest found.place cursor.old.rest }
    ensures lexeme { IsLexeme start.entry.rest result cursor.new }
    ensures reads { ReadsFrom 26 24 start.entry cursor.old cursor.new }
{
    let (inside, backslash) = end_within(cursor, &found.place);
    let after = cursor.checkpoint();
    let (end, comment) = value_end(cursor);
    let end = end_of_fault(found.kind, inside, after, end);
    let mut lexeme = Lexeme::new(Some(token), start, (end, comment));
    lexeme.fault = Some(found.kind);
    lexeme.backslash = backslash;
    lexeme.cut = found.is_cut;
    lexeme
}

/// Advances past the string that begins at the place, whose opening quote is here, after this many number signs.
fn string_lexeme<'a>(
    alloc: Global,
    cursor: &mut Cursor<'a>,
    start: Checkpoint<'a>,
    signs: usize,
    phase: Phase,
) -> Result<Lexeme<'a>, AllocError>
    requires quote { begins 34 cursor.old.rest ≡ true }
    requires start { Since start cursor.old }
    ensures lexeme { IfOk result (λ p. IsLexeme start.entry.rest p cursor.new) }
    ensures reads { ReadsFrom 36 38 start.entry cursor.old cursor.new }
{
    let found = scan_string(alloc, cursor, &start, signs)?;
    let token = TokenKind::String(String::new(alloc));
    let without_end = match signs {
        0 => Kind::QuotedEnd,
        _ => Kind::RawEnd,
    };
    match fault_in_phase(phase, &start, found) {
        Some(found) => Ok(faulty_string(token, cursor, start, found)),
        None => Ok(word(cursor, token, start, None, without_end)),
    }
}

/// The base of the whole number that the segment begins with, by its prefix.
fn radix_of<'a>(number: &Segment<'a>, cursor: &mut Cursor<'a>) -> Radix
    requires { IsPart cursor.old.text number.now }
    ensures { Returned 4 cursor.old cursor.new }
{
    let place = cursor.enter(number);
    let _ = cursor.eat('-') || cursor.eat('+');
    let _ = cursor.eat('0');
    let letter = cursor.look();
    cursor.go_to(&place);
    match letter {
        Some('x' | 'X') => Radix::Hexadecimal,
        Some('o' | 'O') => Radix::Octal,
        Some('b' | 'B') => Radix::Binary,
        _ => Radix::Decimal,
    }
}

/// The fault of a number, all identifier characters at its place, and its fault if no value end follows it.
fn number_fault<'a>(
    alloc: Global,
    cursor: &mut Cursor<'a>,
    number: &Segment<'a>,
) -> Result<(Option<NumberFault>, NumberFault), AllocError>
    requires { IsPart cursor.old.text number.now }
    ensures { Returned (4 * bytes number.now + 16) cursor.old cursor.new }
{
    let place = cursor.enter(number);
    let answer = read_number(alloc, cursor);
    cursor.go_to(&place);
    let fault = match answer {
        Ok(Number::Decimal(_)) => return Ok((None, NumberFault::TrailingDecimal)),
        Ok(Number::Integer(_)) => None,
        Err(NumberFailure::Fault(fault)) => Some(fault),
        Err(NumberFailure::Memory) => return Err(AllocError),
    };
    Ok((fault, NumberFault::Trailing(radix_of(number, cursor))))
}

/// Advances past the number here.
fn number_lexeme<'a>(alloc: Global, cursor: &mut Cursor<'a>) -> Result<Lexeme<'a>, AllocError>
    requires { starts is_identifier_char cursor.old.rest ≡ true }
    ensures lexeme { IfOk result (λ p. IsLexeme cursor.old.rest p cursor.new) }
    ensures reads { Reads 24 29 cursor.old cursor.new }
{
    let start = cursor.checkpoint();
    cursor.skip(Class::Identifier);
    let number = start.up_to(&cursor.checkpoint());
    let (fault, without_end) = number_fault(alloc, cursor, &number)?;
    let fault = fault.map(Kind::Number);
    let token = TokenKind::Value(KdlValue::Null);
    Ok(word(cursor, token, start, fault, Kind::Number(without_end)))
}

/// Advances past the identifier characters here, which are not a number.
fn bare_lexeme<'a>(alloc: Global, cursor: &mut Cursor<'a>) -> Lexeme<'a>
    requires { starts is_identifier_char cursor.old.rest ≡ true }
    ensures { Lexes 24 16 cursor.old result cursor.new }
{
    let start = cursor.checkpoint();
    let fault = match bare_string(cursor) {
        Some(_) => None,
        None => Some(Kind::Bare),
    };
    let token = TokenKind::String(String::new(alloc));
    word(cursor, token, start, fault, Kind::BareEnd)
}

/// The fault of a keyword, by its number signs and all identifier characters after them.
fn keyword_fault<'a>(cursor: &mut Cursor<'a>, word: &Segment<'a>) -> Option<Kind>
    requires { IsPart cursor.old.text word.now }
    ensures { Returned (4 * bytes word.now + 4) cursor.old cursor.new }
{
    let place = cursor.enter(word);
    let answer = read_keyword(cursor);
    cursor.go_to(&place);
    match answer {
        Some(_) => None,
        None => Some(Kind::Keyword),
    }
}

/// Advances past the string or the keyword that begins with the quote or the number sign here.
fn sign_lexeme<'a>(
    alloc: Global,
    cursor: &mut Cursor<'a>,
    phase: Phase,
) -> Result<Lexeme<'a>, AllocError>
    requires { starts begins_sign cursor.old.rest ≡ true }
    ensures lexeme { IfOk result (λ p. IsLexeme cursor.old.rest p cursor.new) }
    ensures reads { Reads 37 40 cursor.old cursor.new }
{
    let start = cursor.checkpoint();
    cursor.skip(Class::NumberSign);
    let signs = cursor.at() - start.at();
    if cursor.look() == Some('"') {
        return string_lexeme(alloc, cursor, start, signs, phase);
    }
    cursor.skip(Class::Identifier);
    let text = start.up_to(&cursor.checkpoint());
    let fault = keyword_fault(cursor, &text);
    let token = TokenKind::Value(KdlValue::Null);
    Ok(word(cursor, token, start, fault, Kind::Keyword))
}

/// The token that is only this character, and neither a `(` nor a newline.
fn sign_token(c: char) -> Option<TokenKind> {
    match c {
        ')' => Some(TokenKind::Right),
        '{' => Some(TokenKind::Opening),
        '}' => Some(TokenKind::Closing),
        '=' => Some(TokenKind::Equals),
        ';' => Some(TokenKind::Semicolon),
        _ => None,
    }
}

/// Advances past the lexeme that begins with the character c here, which is neither one of `" # / \` nor an identifier
/// character.
fn plain_lexeme<'a>(c: char, cursor: &mut Cursor<'a>) -> Lexeme<'a>
    requires { first cursor.old.rest ≡ Some c }
    ensures { Lexes 24 12 cursor.old result cursor.new }
{
    let start = cursor.checkpoint();
    if is_space(c) {
        cursor.skip(Class::Space);
        return plain(TokenKind::Space, start);
    }
    if is_newline_char(c) {
        let _ = newline(cursor);
        return plain(TokenKind::Newline, start);
    }
    if c == '(' {
        cursor.step();
        let end = (cursor.checkpoint(), None);
        return Lexeme::new(Some(TokenKind::Left), start, end);
    }
    match sign_token(c) {
        Some(token) => {
            cursor.step();
            plain(token, start)
        }
        None => other(cursor),
    }
}

/// Returns the lexeme here and advances past it, and perhaps past spaces after a string, number or keyword. If that is
/// faulty, the cursor advances to the next value end. Returns `None` at the end of the text. The phase says whether a
/// string is in a type.
pub(crate) fn next_lexeme<'a>(
    alloc: Global,
    cursor: &mut Cursor<'a>,
    phase: Phase,
) -> Result<Option<Lexeme<'a>>, AllocError>
    ensures lexeme { IfOk result (λ o. IsNext cursor.old.rest o cursor.new) }
    ensures reads { Reads 37 41 cursor.old cursor.new }
{
    match cursor.look() {
        None => Ok(None),
        Some('"' | '#') => Ok(Some(sign_lexeme(alloc, cursor, phase)?)),
        Some('/') => Ok(Some(slash_lexeme(cursor))),
        Some('\\') => Ok(Some(backslash_lexeme(cursor))),
        Some(c) if is_identifier_char(c) => {
            if begins_number(cursor) {
                Ok(Some(number_lexeme(alloc, cursor)?))
            } else {
                Ok(Some(bare_lexeme(alloc, cursor)))
            }
        }
        Some(c) => Ok(Some(plain_lexeme(c, cursor))),
    }
}
