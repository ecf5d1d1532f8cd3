//! Readers of tests.
#![tactic(auto, using(crate::proofs::Rules::parse))]

ghost use Rattle.kdl_query.specs.Internal.QueryReading.{AfterWord, IndexOf, Joins, KeyPiece, ReadsPiece, TestRest, Word};
ghost use Rattle.kdl_query.specs.QueryText.{AfterAccessor, AreTests, IsAccessor, IsIndex, begins_comparison};
ghost use Rattle.kdl_query.specs.Tree.{accessor_says, test_says};
ghost use Rattle.kdl_text.specs.Chars as class;
ghost use Rattle.kdl_text.specs.Chars.{starts};
ghost use Rattle.kdl_text.specs.Internal.NumberReading.{number_value};
ghost use Rattle.kdl_text.specs.Internal.Reading.{Moves};
ghost use Rattle.kdl_text.specs.Numbers.{base_prefix};
ghost use Rattle.std.specs.Prelude.{◌≡◌, ◌&&◌, ◌||◌, ◌==◌, ◌↔◌, IsTrue, None, codes, map, true};
ghost use Rattle.std.specs.Str.{chars};

use crate::error::{Fault, Refusal};
use crate::parse::literals::{read_comparison, read_literal};
use crate::parse::names::{close, eat_text, read_name, refuse, skip_spaces};
use crate::tree::{Accessor, Test};
use kdl_text::chars::is_digit;
use kdl_text::cursor::Cursor;
use kdl_text::numbers::{Number, NumberFailure, read_number};
use std::alloc::Global;

/// Whether a digit is here, and no prefix of a base.
fn begins_index(cursor: &mut Cursor) -> bool
    ensures result { IsTrue result ↔ ((starts class.is_digit cursor.old.rest ≡ true) × (base_prefix cursor.old.rest ≡ None)) }
    ensures rest { cursor.new.rest ≡ cursor.old.rest }
    ensures moves { Moves cursor.old cursor.new }
{
    match cursor.look() {
        Some('0') => !matches!(
            cursor.look_second(),
            Some('x' | 'X' | 'o' | 'O' | 'b' | 'B')
        ),
        Some(c) => is_digit(c),
        None => false,
    }
}

/// The number as an index, if it is one.
fn index_of(number: Number) -> Option<usize>
    ensures { IndexOf (number_value number) result }
{
    match number {
        Number::Integer(n) if 0 <= n && n <= usize::MAX as i128 => Some(n as usize),
        _ => None,
    }
}

/// Reads an index. On a fault the cursor is somewhere in it.
fn index_here(alloc: Global, cursor: &mut Cursor) -> Result<usize, Refusal>
    ensures { ReadsPiece IsIndex (λ i. i) result cursor.old cursor.new }
{
    if !begins_index(cursor) {
        return Err(Refusal::Fault(Fault::Index));
    }
    match read_number(alloc, cursor) {
        Ok(number) => index_of(number).ok_or(Refusal::Fault(Fault::Index)),
        Err(NumberFailure::Fault(_)) => Err(Refusal::Fault(Fault::Index)),
        Err(NumberFailure::Memory) => Err(Refusal::Memory),
    }
}

/// Reads an index.
fn read_index(alloc: Global, cursor: &mut Cursor) -> Result<usize, Refusal>
    ensures { ReadsPiece IsIndex (λ i. i) result cursor.old cursor.new }
{
    let start = cursor.checkpoint();
    match index_here(alloc, cursor) {
        Ok(index) => Ok(index),
        Err(Refusal::Fault(fault)) => Err(refuse(fault, &start, cursor)),
        Err(Refusal::Memory) => Err(Refusal::Memory),
    }
}

/// Reads the rest of `val(i)`, after its `(`.
fn read_argument(alloc: Global, cursor: &mut Cursor) -> Result<Accessor, Refusal>
    ensures { ReadsPiece (AfterWord (codes "val(")) accessor_says result cursor.old cursor.new }
{
    skip_spaces(cursor);
    if cursor.eat(')') {
        return Ok(Accessor::Argument(0));
    }
    let index = read_index(alloc, cursor)?;
    close(')', Fault::Parenthesis, cursor)?;
    Ok(Accessor::Argument(index))
}

/// Reads the rest of `prop(k)`, after its `(`.
fn read_property(alloc: Global, cursor: &mut Cursor) -> Result<Accessor, Refusal>
    ensures { ReadsPiece (AfterWord (codes "prop(")) accessor_says result cursor.old cursor.new }
{
    skip_spaces(cursor);
    let name = read_name(alloc, Fault::Name, cursor)?;
    close(')', Fault::Parenthesis, cursor)?;
    Ok(Accessor::Property(name))
}

/// Whether a comparison of two characters begins with c.
fn begins_comparison(c: char) -> bool
    ensures { result ≡ begins_comparison c }
{
    matches!(c, '!' | '>' | '<' | '^' | '$' | '*')
}

/// Whether the name takes in the first character of a comparison, whose `=` is here.
fn is_joined(name: &str, cursor: &mut Cursor) -> bool
    ensures result { IsTrue result ↔ Joins (chars name.now) cursor.old.rest }
    ensures rest { cursor.new.rest ≡ cursor.old.rest }
    ensures moves { Moves cursor.old cursor.new }
{
    cursor.look() == Some('=')
        && match name.chars().next_back() {
            Some(last) => begins_comparison(last),
            None => false,
        }
}

/// Whether a quote or a number sign is here.
fn begins_quoted(cursor: &mut Cursor) -> bool
    ensures result { result ≡ starts (λ c. c == 34 || c == 35) cursor.old.rest }
    ensures rest { cursor.new.rest ≡ cursor.old.rest }
    ensures moves { Moves cursor.old cursor.new }
{
    matches!(cursor.look(), Some('"' | '#'))
}

/// Reads the name of a property.
fn read_key(alloc: Global, cursor: &mut Cursor) -> Result<Accessor, Refusal>
    ensures { ReadsPiece KeyPiece accessor_says result cursor.old cursor.new }
{
    let start = cursor.checkpoint();
    let is_quoted = begins_quoted(cursor);
    let name = read_name(alloc, Fault::Accessor, cursor)?;
    if is_quoted {
        return Ok(Accessor::Property(name));
    }
    if is_joined(name.as_str(), cursor) {
        return Err(refuse(Fault::JoinedComparison, &start, cursor));
    }
    Ok(Accessor::Property(name))
}

/// Reads the rest of an accessor with nothing in its parentheses, after its `(`.
fn read_word(accessor: Accessor, cursor: &mut Cursor) -> Result<Accessor, Refusal>
    ensures { ReadsPiece (Word (accessor_says accessor)) accessor_says result cursor.old cursor.new }
{
    close(')', Fault::Parenthesis, cursor)?;
    Ok(accessor)
}

/// Reads an accessor.
fn read_accessor(alloc: Global, cursor: &mut Cursor) -> Result<Accessor, Refusal>
    ensures { ReadsPiece IsAccessor accessor_says result cursor.old cursor.new }
{
    if eat_text("val(", cursor) {
        read_argument(alloc, cursor)
    } else if eat_text("prop(", cursor) {
        read_property(alloc, cursor)
    } else if eat_text("name(", cursor) {
        read_word(Accessor::Name, cursor)
    } else if eat_text("tag(", cursor) {
        read_word(Accessor::Type, cursor)
    } else if eat_text("values(", cursor) {
        read_word(Accessor::Arguments, cursor)
    } else if eat_text("props(", cursor) {
        read_word(Accessor::Properties, cursor)
    } else {
        read_key(alloc, cursor)
    }
}

/// Reads the rest of a test, after its accessor and spaces.
fn after_accessor(alloc: Global, accessor: Accessor, cursor: &mut Cursor) -> Result<Test, Refusal>
    ensures { ReadsPiece (AfterAccessor (accessor_says accessor)) test_says result cursor.old cursor.new }
{
    if cursor.eat(']') {
        return Ok(Test::Has(accessor));
    }
    let comparison = read_comparison(cursor)?;
    skip_spaces(cursor);
    let literal = read_literal(alloc, &accessor, comparison, cursor)?;
    close(']', Fault::Bracket, cursor)?;
    Ok(Test::Compares(accessor, comparison, literal))
}

/// Reads the rest of a test, after its `[`.
pub(super) fn read_test(alloc: Global, cursor: &mut Cursor) -> Result<Test, Refusal>
    ensures { ReadsPiece TestRest test_says result cursor.old cursor.new }
{
    skip_spaces(cursor);
    if cursor.eat(']') {
        return Ok(Test::Always);
    }
    let accessor = read_accessor(alloc, cursor)?;
    skip_spaces(cursor);
    after_accessor(alloc, accessor, cursor)
}

/// Reads all tests here.
pub(super) fn read_tests(alloc: Global, cursor: &mut Cursor) -> Result<Vec<Test>, Refusal>
    ensures { ReadsPiece AreTests (λ v. map test_says v.items) result cursor.old cursor.new }
{
    let mut tests = Vec::new(alloc);
    'tests: while cursor.eat('[') {
        tests.push(read_test(alloc, cursor)?)?;
    }
    Ok(tests)
}
