//! Readers of spaces, names and types.
#![tactic(auto, using(crate::proofs::Rules::parse))]

ghost use Rattle.kdl_query.specs.Internal.QueryReading.{AteText, Closes, IsWord, OneChar, ReadsPiece, TypeRest};
ghost use Rattle.kdl_query.specs.QueryText.{IsName, IsOperatorWord, QuerySpace, Spaces};
ghost use Rattle.kdl_query.specs.Tree.{type_test_says};
ghost use Rattle.kdl_text.specs.Chars.{begins, starts};
ghost use Rattle.kdl_text.specs.Internal.Here.{IsPart};
ghost use Rattle.kdl_text.specs.Internal.Reading.{Longest, Moves, Reads};
ghost use Rattle.kdl_text.specs.Trivia.{Ws};
ghost use Rattle.kdl_value.specs.Tree.{text_of};
ghost use Rattle.std.specs.Prelude.{◌≡◌, ◌||◌, ◌==◌, ◌↔◌, IsTrue, false, true};

use crate::error::{Fault, Refusal};
use crate::tree::TypeTest;
use kdl_text::chars::is_space;
use kdl_text::cursor::{Checkpoint, Cursor, Piece, newline};
use kdl_text::strings::{StringFailure, bare_string, quoted_string, raw_string};
use kdl_text::trivia::{SlashRead, slash};
use std::alloc::Global;

/// Moves the cursor back to a place, and returns the fault there.
pub(super) fn refuse<'a>(fault: Fault, place: &Checkpoint<'a>, cursor: &mut Cursor<'a>) -> Refusal
    requires { IsPart cursor.old.text place.now.rest }
    ensures result { result ≡ Refusal.Fault fault }
    ensures moved { cursor.new ≡ record cursor.old { rest = place.now.rest; at = place.now.at } }
{
    cursor.go_to(place);
    Refusal::Fault(fault)
}

/// Advances past the character c. Fails with the fault if it is not here.
pub(super) fn expect(c: char, fault: Fault, cursor: &mut Cursor) -> Result<(), Refusal>
    ensures { ReadsPiece (OneChar c) (λ u. u) result cursor.old cursor.new }
{
    if cursor.eat(c) {
        Ok(())
    } else {
        Err(Refusal::Fault(fault))
    }
}

/// Advances past the ASCII text if it is here, and returns whether it is.
pub(super) fn eat_text(text: &str, cursor: &mut Cursor) -> bool
    ensures ate { AteText text.now result cursor.old cursor.new }
    ensures moves { Moves cursor.old cursor.new }
{
    let start = cursor.checkpoint();
    let mut rest = text.as_bytes();
    'bytes: while let Some((byte, after)) = rest.split_first() {
        if !cursor.eat(char::from(*byte)) {
            cursor.go_to(&start);
            return false;
        }
        rest = after;
    }
    true
}

/// Advances past what may be a space or a block comment that begins here, and returns whether it is one.
fn passes_ws(cursor: &mut Cursor) -> bool
    ensures reads { Reads Ws result cursor.old.rest cursor.new.rest }
    ensures moves { Moves cursor.old cursor.new }
{
    match cursor.look() {
        Some('/') => match slash(cursor) {
            SlashRead::Block => true,
            SlashRead::Line | SlashRead::Dash | SlashRead::Unclosed | SlashRead::Other => false,
        },
        Some(c) if is_space(c) => {
            cursor.step();
            true
        }
        _ => false,
    }
}

/// Advances past a space or a block comment if one begins here, and returns whether it does.
fn eat_ws(cursor: &mut Cursor) -> bool
    ensures reads { Reads Ws result cursor.old.rest cursor.new.rest }
    ensures stays { result ≡ false → cursor.new.rest ≡ cursor.old.rest }
    ensures moves { Moves cursor.old cursor.new }
{
    let start = cursor.checkpoint();
    let is_ws = passes_ws(cursor);
    if !is_ws {
        cursor.go_to(&start);
    }
    is_ws
}

/// Advances past all spaces and block comments here.
pub(super) fn skip_ws(cursor: &mut Cursor)
    ensures reads { Longest Ws cursor.old.rest cursor.new.rest }
    ensures moves { Moves cursor.old cursor.new }
{
    'ws: while eat_ws(cursor) {}
}

/// Advances past what may be an escline without a line comment whose backslash is here, and returns whether it is one.
fn passes_escline(cursor: &mut Cursor) -> bool
    requires { begins 92 cursor.old.rest ≡ true }
    ensures reads { Reads QuerySpace result cursor.old.rest cursor.new.rest }
    ensures moves { Moves cursor.old cursor.new }
{
    let _ = cursor.eat('\\');
    skip_ws(cursor);
    newline(cursor) || cursor.look().is_none()
}

/// Advances past what may be a space of a query that begins here, and returns whether it is one. `//` is none.
fn passes_space(cursor: &mut Cursor) -> bool
    ensures reads { Reads QuerySpace result cursor.old.rest cursor.new.rest }
    ensures moves { Moves cursor.old cursor.new }
{
    match cursor.look() {
        Some('\\') => passes_escline(cursor),
        _ => eat_ws(cursor) || newline(cursor),
    }
}

/// Advances past a space if one begins here, and returns whether it does.
fn eat_space(cursor: &mut Cursor) -> bool
    ensures reads { Reads QuerySpace result cursor.old.rest cursor.new.rest }
    ensures stays { result ≡ false → cursor.new.rest ≡ cursor.old.rest }
    ensures moves { Moves cursor.old cursor.new }
{
    let start = cursor.checkpoint();
    let is_space = passes_space(cursor);
    if !is_space {
        cursor.go_to(&start);
    }
    is_space
}

/// Advances past all spaces here.
pub(super) fn skip_spaces(cursor: &mut Cursor)
    ensures spaces { Spaces cursor.old.rest cursor.new.rest }
    ensures moves { Moves cursor.old cursor.new }
{
    'spaces: while eat_space(cursor) {}
}

/// Advances past spaces and the character c. Fails with the fault if it is not after them.
pub(super) fn close(c: char, fault: Fault, cursor: &mut Cursor) -> Result<(), Refusal>
    ensures { ReadsPiece (Closes c) (λ u. u) result cursor.old cursor.new }
{
    skip_spaces(cursor);
    expect(c, fault, cursor)
}

/// Whether the word is an operator.
fn is_operator(word: &Piece) -> bool
    ensures { IsTrue result ↔ IsOperatorWord word.now }
{
    if word.is(">") || word.is(">>") {
        return true;
    }
    if word.is("+") || word.is("++") {
        return true;
    }
    word.is("||")
}

/// Reads the bare string that begins here, which is no operator.
fn bare_name(alloc: Global, expected: Fault, cursor: &mut Cursor) -> Result<String, Refusal>
    requires { starts (λ c. c == 34 || c == 35) cursor.old.rest ≡ false }
    ensures { ReadsPiece IsWord text_of result cursor.old cursor.new }
{
    let Some(word) = bare_string(cursor) else {
        return Err(Refusal::Fault(expected));
    };
    if is_operator(&word) {
        return Err(Refusal::Fault(Fault::OperatorName));
    }
    Ok(word.to_string(alloc)?)
}

/// The refusal of a string that was not read.
fn string_refusal(expected: Fault, failure: StringFailure) -> Refusal
    ensures { (result ≡ Refusal.Memory) ↔ (failure ≡ StringFailure.Memory) }
{
    match failure {
        StringFailure::Fault(_) => Refusal::Fault(expected),
        StringFailure::Memory => Refusal::Memory,
    }
}

/// Reads the string that begins here, which is no operator.
fn string(alloc: Global, expected: Fault, cursor: &mut Cursor) -> Result<String, Refusal>
    ensures { ReadsPiece IsWord text_of result cursor.old cursor.new }
{
    match cursor.look() {
        Some('"') => match quoted_string(alloc, cursor) {
            Ok(value) => Ok(value),
            Err(failure) => Err(string_refusal(expected, failure)),
        },
        Some('#') => match raw_string(alloc, cursor) {
            Ok(value) => Ok(value),
            Err(failure) => Err(string_refusal(expected, failure)),
        },
        _ => bare_name(alloc, expected, cursor),
    }
}

/// Reads the name that begins here. On a fault the cursor is somewhere in it.
fn name_here(alloc: Global, expected: Fault, cursor: &mut Cursor) -> Result<String, Refusal>
    ensures { ReadsPiece IsName text_of result cursor.old cursor.new }
{
    let name = string(alloc, expected, cursor)?;
    if cursor.look() == Some('(') {
        return Err(Refusal::Fault(Fault::Function));
    }
    Ok(name)
}

/// Reads the name that begins here. Fails with `expected` where no string begins.
pub(super) fn read_name(
    alloc: Global,
    expected: Fault,
    cursor: &mut Cursor,
) -> Result<String, Refusal>
    ensures { ReadsPiece IsName text_of result cursor.old cursor.new }
{
    let start = cursor.checkpoint();
    match name_here(alloc, expected, cursor) {
        Ok(name) => Ok(name),
        Err(Refusal::Fault(fault)) => Err(refuse(fault, &start, cursor)),
        Err(Refusal::Memory) => Err(Refusal::Memory),
    }
}

/// Reads the rest of a type, after its `(`.
pub(super) fn read_type(alloc: Global, cursor: &mut Cursor) -> Result<TypeTest, Refusal>
    ensures { ReadsPiece TypeRest type_test_says result cursor.old cursor.new }
{
    skip_spaces(cursor);
    if cursor.eat(')') {
        return Ok(TypeTest::Any);
    }
    let name = read_name(alloc, Fault::Type, cursor)?;
    close(')', Fault::Parenthesis, cursor)?;
    Ok(TypeTest::Named(name))
}
