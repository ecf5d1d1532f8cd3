//! The lexer: the tokens of a text, one at a time.
//!
//! A token is known by its first character, and at most the one after it. A run of spaces is one token.
#![tactic(auto, using(crate::proofs::Rules::lexer))]

ghost use Rattle.kdl_value.specs.Data as data';
ghost use Rattle.kdl_syntax.specs.Pieces as spec;
ghost use Rattle.kdl_syntax.specs.Internal.Handed.{Lexed, LexCosts, LexedNext, NextCosts, ReadsAlone, AloneNext, ReturnsApart, ReadsKind, KindCosts, IsAfterSlash, IsOther, Passes, IsPunctuation};
ghost use Rattle.kdl_value.specs.Tree.{value_tree};
ghost use Rattle.kdl_syntax.specs.declared.lexer.LexFailure.TheVariants.{Memory};
ghost use Rattle.kdl_text.specs.Chars.{starts, is_digit, is_identifier_char, is_space};
ghost use Rattle.kdl_text.specs.Numbers as numbers;
ghost use Rattle.kdl_text.specs.Numbers.{FloatText};
ghost use Rattle.kdl_text.specs.Internal.Here.{Stayed, first, tail};
ghost use Rattle.kdl_text.specs.Internal.Reading.{Moves};
ghost use Rattle.std.specs.Prelude.{◌≡◌, ◌==◌, ◌||◌, true, false, Some, None, IfOk};
ghost use Rattle.std.specs.Str.{chars};

use crate::token_span::TokenSpan;
use kdl_text::chars::{Class, is_digit, is_identifier_char, is_newline_char, is_sign, is_space};
use kdl_text::cursor::{Cursor, Piece, newline};
use kdl_text::numbers::{Keyword, Number, NumberFailure, begins_number, read_keyword, read_number};
use kdl_text::strings::{StringFailure, bare_string, letter_string, quoted_string, raw_string};
use kdl_text::trivia::{SlashRead, escline, slash};
use kdl_value::{KdlValue, parsed_float};
use std::alloc::{AllocError, AllocFailed, Global};

/// Why no token was returned.
#[derive(Clone, Copy)]
pub enum LexFailure {
    /// No token begins here.
    Faulty,
    /// An allocation failed.
    Memory,
}

impl<T: Drop> From<AllocFailed<T>> for LexFailure {
    ghost from_gives = { λ _ e. e ≡ Memory };

    fn from(_: AllocFailed<T>) -> LexFailure {
        LexFailure::Memory
    }
}

impl From<AllocError> for LexFailure {
    ghost from_gives = { λ _ e. e ≡ Memory };

    fn from(_: AllocError) -> LexFailure {
        LexFailure::Memory
    }
}

/// What a token is.
#[derive(Drop)]
pub enum TokenKind {
    /// A run of spaces, a block comment or an escline.
    Space,
    /// A newline, or a line comment with the newline that ends it.
    Newline,
    /// `/-`.
    Slashdash,
    /// A bare, quoted or raw string.
    String(String),
    /// A number or a keyword.
    Value(KdlValue),
    /// `(`.
    Left,
    /// `)`.
    Right,
    /// `{`.
    Opening,
    /// `}`.
    Closing,
    /// `=`.
    Equals,
    /// `;`.
    Semicolon,
    /// U+FEFF.
    Bom,
}

/// A token, with its span.
#[derive(Drop)]
pub struct Token<'a> {
    pub kind: TokenKind,
    pub at: TokenSpan<'a>,
}

/// What is next in a text. The most common tokens are apart, so that a reader has no kind to look at.
#[derive(Drop)]
pub enum NextToken<'a> {
    /// A run of spaces or a block comment, with its span.
    Space(TokenSpan<'a>),
    /// A line feed, or a line comment with the newline that ends it, and its span.
    Newline(TokenSpan<'a>),
    /// A bare string that begins with an ASCII letter, as it is in the text, and its span.
    Word(Piece<'a>, TokenSpan<'a>),
    /// Another token. An escline is a token of the kind `Space`.
    Other(Token<'a>),
    /// The end of the text.
    End,
}

/// The failure of a token that is a string.
fn lex_failure(failure: StringFailure) -> LexFailure
    ensures { Passes failure result }
{
    match failure {
        StringFailure::Fault(_) => LexFailure::Faulty,
        StringFailure::Memory => LexFailure::Memory,
    }
}

/// Reads the token that is the bare string that begins here, where no number does.
fn bare_token(cursor: &mut Cursor, alloc: Global) -> Result<TokenKind, LexFailure>
    requires word { starts is_identifier_char cursor.old.rest ≡ true }
    requires no_number { numbers.begins_number cursor.old.rest ≡ false }
    ensures read { ReadsKind cursor.old.rest result cursor.new.rest }
    ensures moves { Moves cursor.old cursor.new }
    ensures costs { KindCosts 20 result cursor.old cursor.new }
{
    match bare_string(cursor) {
        Some(piece) => Ok(TokenKind::String(piece.to_string(alloc)?)),
        None => Err(LexFailure::Faulty),
    }
}

/// Reads the quoted string that begins here.
fn quoted_token(cursor: &mut Cursor, alloc: Global) -> Result<TokenKind, LexFailure>
    requires { first cursor.old.rest ≡ Some 34 }
    ensures read { ReadsKind cursor.old.rest result cursor.new.rest }
    ensures moves { Moves cursor.old cursor.new }
    ensures costs { KindCosts 22 result cursor.old cursor.new }
{
    match quoted_string(alloc, cursor) {
        Ok(value) => Ok(TokenKind::String(value)),
        Err(failure) => Err(lex_failure(failure)),
    }
}

/// Reads the raw string that begins here, at a number sign with another or a quote after it.
fn raw_token(cursor: &mut Cursor, alloc: Global) -> Result<TokenKind, LexFailure>
    requires sign { first cursor.old.rest ≡ Some 35 }
    requires second { starts (λ c. c == 34 || c == 35) (tail cursor.old.rest) ≡ true }
    ensures read { ReadsKind cursor.old.rest result cursor.new.rest }
    ensures moves { Moves cursor.old cursor.new }
    ensures costs { KindCosts 21 result cursor.old cursor.new }
{
    match raw_string(alloc, cursor) {
        Ok(value) => Ok(TokenKind::String(value)),
        Err(failure) => Err(lex_failure(failure)),
    }
}

/// The float of this text.
fn float_of(alloc: Global, text: &str) -> Result<KdlValue, AllocError>
    requires { FloatText (chars text.now) }
    ensures { IfOk result (λ v. value_tree v ≡ data'.float (chars text.now)) }
{
    Ok(KdlValue::Float(parsed_float(String::from_str(alloc, text)?)))
}

/// The value of a keyword.
fn keyword_value(alloc: Global, keyword: Keyword) -> Result<KdlValue, AllocError>
    ensures { IfOk result (λ v. value_tree v ≡ spec.keyword_value keyword) }
{
    match keyword {
        Keyword::True => Ok(KdlValue::Bool(true)),
        Keyword::False => Ok(KdlValue::Bool(false)),
        Keyword::Null => Ok(KdlValue::Null),
        Keyword::Infinity => float_of(alloc, "#inf"),
        Keyword::NegativeInfinity => float_of(alloc, "#-inf"),
        Keyword::NotANumber => float_of(alloc, "#nan"),
    }
}

/// Reads the keyword that begins here, at a number sign with neither another nor a quote after it.
fn keyword_token(cursor: &mut Cursor, alloc: Global) -> Result<TokenKind, LexFailure>
    requires sign { first cursor.old.rest ≡ Some 35 }
    requires second { starts (λ c. c == 34 || c == 35) (tail cursor.old.rest) ≡ false }
    ensures read { ReadsKind cursor.old.rest result cursor.new.rest }
    ensures moves { Moves cursor.old cursor.new }
    ensures costs { KindCosts 21 result cursor.old cursor.new }
{
    match read_keyword(cursor) {
        Some(keyword) => Ok(TokenKind::Value(keyword_value(alloc, keyword)?)),
        None => Err(LexFailure::Faulty),
    }
}

/// Whether another number sign or a quote comes after the character here.
fn looks_raw(cursor: &mut Cursor) -> bool
    ensures result { result ≡ starts (λ c. c == 34 || c == 35) (tail cursor.old.rest) }
    ensures stayed { Stayed 1 cursor.old cursor.new }
{
    matches!(cursor.look_second(), Some('"' | '#'))
}

/// Reads the raw string or the keyword that begins with the number sign here.
fn sign_token(cursor: &mut Cursor, alloc: Global) -> Result<TokenKind, LexFailure>
    requires { first cursor.old.rest ≡ Some 35 }
    ensures read { ReadsKind cursor.old.rest result cursor.new.rest }
    ensures moves { Moves cursor.old cursor.new }
    ensures costs { KindCosts 22 result cursor.old cursor.new }
{
    if looks_raw(cursor) {
        raw_token(cursor, alloc)
    } else {
        keyword_token(cursor, alloc)
    }
}

/// Reads the number that begins here.
#[inline(always)]
fn number_token(cursor: &mut Cursor, alloc: Global) -> Result<TokenKind, LexFailure>
    requires { numbers.begins_number cursor.old.rest ≡ true }
    ensures read { ReadsKind cursor.old.rest result cursor.new.rest }
    ensures moves { Moves cursor.old cursor.new }
    ensures costs { KindCosts 20 result cursor.old cursor.new }
{
    match read_number(alloc, cursor) {
        Ok(Number::Integer(n)) => Ok(TokenKind::Value(KdlValue::Integer(n))),
        Ok(Number::Decimal(text)) => Ok(TokenKind::Value(KdlValue::Float(parsed_float(text)))),
        Err(NumberFailure::Fault(_)) => Err(LexFailure::Faulty),
        Err(NumberFailure::Memory) => Err(LexFailure::Memory),
    }
}

/// Reads the number or the bare string that begins with the sign here.
fn signed_token(cursor: &mut Cursor, alloc: Global) -> Result<TokenKind, LexFailure>
    requires { starts is_identifier_char cursor.old.rest ≡ true }
    ensures read { ReadsKind cursor.old.rest result cursor.new.rest }
    ensures moves { Moves cursor.old cursor.new }
    ensures costs { KindCosts 22 result cursor.old cursor.new }
{
    if begins_number(cursor) {
        number_token(cursor, alloc)
    } else {
        bare_token(cursor, alloc)
    }
}

/// Reads the bare string or the signed number that begins with the identifier character c here, which is no digit.
fn word_token(c: char, cursor: &mut Cursor, alloc: Global) -> Result<TokenKind, LexFailure>
    requires first { first cursor.old.rest ≡ Some c }
    requires word { is_identifier_char c ≡ true }
    requires no_digit { is_digit c ≡ false }
    ensures read { ReadsKind cursor.old.rest result cursor.new.rest }
    ensures moves { Moves cursor.old cursor.new }
    ensures costs { KindCosts 22 result cursor.old cursor.new }
{
    if is_sign(c) {
        signed_token(cursor, alloc)
    } else {
        bare_token(cursor, alloc)
    }
}

/// What is next in a text, where the reader of slashes read this at the span.
#[inline(always)]
fn after_slash<'a>(read: SlashRead, at: TokenSpan<'a>) -> Result<NextToken<'a>, LexFailure>
    ensures { IsAfterSlash read at.entry result }
{
    match read {
        SlashRead::Block => Ok(NextToken::Space(at)),
        SlashRead::Line => Ok(NextToken::Newline(at)),
        SlashRead::Dash => Ok(NextToken::Other(Token {
            kind: TokenKind::Slashdash,
            at,
        })),
        SlashRead::Unclosed | SlashRead::Other => Err(LexFailure::Faulty),
    }
}

/// Reads the escline that begins with the backslash here.
fn escline_token(cursor: &mut Cursor) -> Result<TokenKind, LexFailure>
    requires { first cursor.old.rest ≡ Some 92 }
    ensures read { ReadsKind cursor.old.rest result cursor.new.rest }
    ensures moves { Moves cursor.old cursor.new }
    ensures costs { KindCosts 22 result cursor.old cursor.new }
{
    if escline(cursor) {
        Ok(TokenKind::Space)
    } else {
        Err(LexFailure::Faulty)
    }
}

/// The kind of a token that is only this character.
#[inline(always)]
fn single_kind(c: char) -> Option<TokenKind>
    ensures { IsPunctuation c result }
{
    match c {
        '(' => Some(TokenKind::Left),
        ')' => Some(TokenKind::Right),
        '{' => Some(TokenKind::Opening),
        '}' => Some(TokenKind::Closing),
        '=' => Some(TokenKind::Equals),
        ';' => Some(TokenKind::Semicolon),
        '\u{feff}' => Some(TokenKind::Bom),
        _ => None,
    }
}

/// Reads the token that begins with the character c here, which is no space, no digit, no slash, no token by itself, and
/// none of `" # \`.
fn plain_token(c: char, cursor: &mut Cursor, alloc: Global) -> Result<TokenKind, LexFailure>
    requires first { first cursor.old.rest ≡ Some c }
    requires plain { ((c == 34 || c == 35) || c == 92) ≡ false }
    requires other { IsOther c }
    ensures read { ReadsKind cursor.old.rest result cursor.new.rest }
    ensures moves { Moves cursor.old cursor.new }
    ensures costs { KindCosts 22 result cursor.old cursor.new }
{
    if is_identifier_char(c) {
        return word_token(c, cursor, alloc);
    }
    if is_newline_char(c) {
        let _ = newline(cursor);
        return Ok(TokenKind::Newline);
    }
    Err(LexFailure::Faulty)
}

/// Reads the token that begins with the character c here, which is no space, no digit, no slash and no token by itself.
fn other_token(c: char, cursor: &mut Cursor, alloc: Global) -> Result<TokenKind, LexFailure>
    requires first { first cursor.old.rest ≡ Some c }
    requires other { IsOther c }
    ensures read { ReadsKind cursor.old.rest result cursor.new.rest }
    ensures moves { Moves cursor.old cursor.new }
    ensures costs { KindCosts 22 result cursor.old cursor.new }
{
    match c {
        '"' => quoted_token(cursor, alloc),
        '#' => sign_token(cursor, alloc),
        '\\' => escline_token(cursor),
        _ => plain_token(c, cursor, alloc),
    }
}

/// Reads the token that begins with the character c here, which is no space and no slash, and returns its kind. The most
/// common ones are read where this is called: numbers that begin with a digit, and tokens of one character.
#[inline(always)]
fn token_kind(c: char, cursor: &mut Cursor, alloc: Global) -> Result<TokenKind, LexFailure>
    requires first { first cursor.old.rest ≡ Some c }
    requires no_space { is_space c ≡ false }
    requires no_slash { (c == 47) ≡ false }
    ensures read { ReadsKind cursor.old.rest result cursor.new.rest }
    ensures moves { Moves cursor.old cursor.new }
    ensures costs { KindCosts 22 result cursor.old cursor.new }
{
    if is_digit(c) {
        return number_token(cursor, alloc);
    }
    if let Some(kind) = single_kind(c) {
        let _ = cursor.take();
        return Ok(kind);
    }
    other_token(c, cursor, alloc)
}

/// Returns the token here and advances past it, or returns `None` at the end of the text.
///
/// Returns `Faulty` if no token begins here, and `Memory` if the allocation for the token's value fails. A token costs at
/// most 24 steps for each of its bytes, and the end of the text one. If no token begins here, each byte that was read costs
/// at most 24, and the fault itself 24.
///
/// ```
/// let mut cursor = Cursor::new("a }", Steps::new());
/// let name = lexer::next(&mut cursor, alloc)?; // the string `a`, with its start and end
/// let spaces = lexer::next(&mut cursor, alloc)?; // the run of spaces
/// let closing = lexer::next(&mut cursor, alloc)?; // the `}`: the lexer does not check whether it may be here
/// let none = lexer::next(&mut cursor, alloc)?; // `None`: the end of the text
/// ```
#[inline(always)]
pub fn next<'a>(cursor: &mut Cursor<'a>, alloc: Global) -> Result<Option<Token<'a>>, LexFailure>
    ensures lexed { Lexed cursor.old result cursor.new }
    ensures alone { ReadsAlone cursor.old result cursor.new }
    ensures moves { Moves cursor.old cursor.new }
    ensures costs { LexCosts result cursor.old cursor.new }
{
    match next_token(cursor, alloc)? {
        NextToken::Space(at) => Ok(Some(Token {
            kind: TokenKind::Space,
            at,
        })),
        NextToken::Newline(at) => Ok(Some(Token {
            kind: TokenKind::Newline,
            at,
        })),
        NextToken::Word(word, at) => Ok(Some(Token {
            kind: TokenKind::String(word.to_string(alloc)?),
            at,
        })),
        NextToken::Other(token) => Ok(Some(token)),
        NextToken::End => Ok(None),
    }
}

/// Advances as `next` does, at the same cost, and returns the most common tokens apart: a run of spaces, a line feed, a
/// comment, and a bare string that begins with an ASCII letter. Fails as `next` does.
///
/// ```
/// let mut cursor = Cursor::new("a }", Steps::new());
/// let word = lexer::next_token(&mut cursor, alloc)?; // `NextToken::Word`, the string `a`
/// let spaces = lexer::next_token(&mut cursor, alloc)?; // `NextToken::Space`, with its span
/// let closing = lexer::next_token(&mut cursor, alloc)?; // `NextToken::Other`, the `}`
/// ```
#[inline(always)]
pub fn next_token<'a>(cursor: &mut Cursor<'a>, alloc: Global) -> Result<NextToken<'a>, LexFailure>
    ensures lexed { LexedNext cursor.old result cursor.new }
    ensures alone { AloneNext cursor.old result cursor.new }
    ensures apart { ReturnsApart cursor.old result cursor.new }
    ensures moves { Moves cursor.old cursor.new }
    ensures costs { NextCosts result cursor.old cursor.new }
{
    let start = cursor.checkpoint();
    let Some(c) = cursor.look() else {
        return Ok(NextToken::End);
    };
    if is_space(c) {
        cursor.skip(Class::Space);
        return Ok(NextToken::Space(TokenSpan::new(start, cursor.checkpoint())));
    }
    if c == '\n' {
        let _ = cursor.take();
        return Ok(NextToken::Newline(TokenSpan::new(start, cursor.checkpoint())));
    }
    if c.is_ascii_alphabetic() {
        let Some(word) = letter_string(c, cursor) else {
            return Err(LexFailure::Faulty);
        };
        return Ok(NextToken::Word(word, TokenSpan::new(start, cursor.checkpoint())));
    }
    if c == '/' {
        let read = slash(cursor);
        return after_slash(read, TokenSpan::new(start, cursor.checkpoint()));
    }
    let kind = token_kind(c, cursor, alloc)?;
    Ok(NextToken::Other(Token {
        kind,
        at: TokenSpan::new(start, cursor.checkpoint()),
    }))
}
