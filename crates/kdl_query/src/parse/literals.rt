//! Readers of comparisons and of what follows them.
#![tactic(auto, using(crate::proofs::Rules::parse))]

ghost use Rattle.kdl_query.specs.Internal.QueryReading.{Finds, FittingLiteral, ReadsPiece, ValuePiece, begins_keyword};
ghost use Rattle.kdl_query.specs.QueryText as text';
ghost use Rattle.kdl_query.specs.QueryText.{IsComparison, IsLiteral};
ghost use Rattle.kdl_query.specs.Tree.{accessor_says, literal_says};
ghost use Rattle.kdl_syntax.specs.Pieces as pieces;
ghost use Rattle.kdl_text.specs.Internal.Reading.{Moves};
ghost use Rattle.kdl_text.specs.Numbers as numbers;
ghost use Rattle.kdl_text.specs.Numbers.{FloatText};
ghost use Rattle.kdl_value.specs.Data as value';
ghost use Rattle.kdl_value.specs.Tree.{value_tree};
ghost use Rattle.std.specs.Prelude.{◌≡◌, IfOk, true};
ghost use Rattle.std.specs.Str.{chars};

use crate::error::{Fault, Refusal};
use crate::parse::names::{read_name, read_type, refuse};
use crate::tree::{Accessor, Comparison, Literal};
use kdl_text::cursor::Cursor;
use kdl_text::numbers::{Keyword, Number, NumberFailure, begins_number, read_keyword, read_number};
use kdl_value::{KdlValue, parsed_float};
use std::alloc::{AllocError, Global};

/// Advances past a comparison, the longest one here.
fn eat_comparison(cursor: &mut Cursor) -> Option<Comparison>
    ensures finds { Finds IsComparison (λ c. c) result cursor.old.rest cursor.new.rest }
    ensures moves { Moves cursor.old cursor.new }
{
    if cursor.eat('=') {
        Some(Comparison::Equal)
    } else if cursor.eat_two('!', '=') {
        Some(Comparison::NotEqual)
    } else if cursor.eat_two('>', '=') {
        Some(Comparison::GreaterOrEqual)
    } else if cursor.eat('>') {
        Some(Comparison::Greater)
    } else if cursor.eat_two('<', '=') {
        Some(Comparison::LessOrEqual)
    } else if cursor.eat('<') {
        Some(Comparison::Less)
    } else if cursor.eat_two('^', '=') {
        Some(Comparison::StartsWith)
    } else if cursor.eat_two('$', '=') {
        Some(Comparison::EndsWith)
    } else if cursor.eat_two('*', '=') {
        Some(Comparison::Contains)
    } else {
        None
    }
}

/// Reads a comparison.
pub(super) fn read_comparison(cursor: &mut Cursor) -> Result<Comparison, Refusal>
    ensures { ReadsPiece IsComparison (λ c. c) result cursor.old cursor.new }
{
    match eat_comparison(cursor) {
        Some(comparison) => Ok(comparison),
        None => Err(Refusal::Fault(Fault::Comparison)),
    }
}

/// The float of this text.
fn float_of(alloc: Global, text: &str) -> Result<KdlValue, AllocError>
    requires { FloatText (chars text.now) }
    ensures { IfOk result (λ v. value_tree v ≡ value'.float (chars text.now)) }
{
    Ok(KdlValue::Float(parsed_float(String::from_str(alloc, text)?)))
}

/// The value of a keyword.
fn keyword_value(alloc: Global, keyword: Keyword) -> Result<KdlValue, AllocError>
    ensures { IfOk result (λ v. value_tree v ≡ pieces.keyword_value keyword) }
{
    match keyword {
        Keyword::True => Ok(KdlValue::Bool(true)),
        Keyword::False => Ok(KdlValue::Bool(false)),
        Keyword::Null => Ok(KdlValue::Null),
        Keyword::Infinity => float_of(alloc, "#inf"),
        Keyword::NegativeInfinity => float_of(alloc, "#-inf"),
        Keyword::NotANumber => float_of(alloc, "#nan"),
    }
}

/// Whether a number sign is here, with neither another one nor a quote after it.
fn begins_keyword(cursor: &mut Cursor) -> bool
    ensures result { result ≡ begins_keyword cursor.old.rest }
    ensures rest { cursor.new.rest ≡ cursor.old.rest }
    ensures moves { Moves cursor.old cursor.new }
{
    match cursor.look() {
        Some('#') => !matches!(cursor.look_second(), Some('"' | '#')),
        _ => false,
    }
}

/// Reads the keyword that begins here.
fn keyword(alloc: Global, cursor: &mut Cursor) -> Result<KdlValue, Refusal>
    requires { begins_keyword cursor.old.rest ≡ true }
    ensures { ReadsPiece ValuePiece value_tree result cursor.old cursor.new }
{
    match read_keyword(cursor) {
        Some(keyword) => Ok(keyword_value(alloc, keyword)?),
        None => Err(Refusal::Fault(Fault::Value)),
    }
}

/// Reads the number that begins here.
fn number(alloc: Global, cursor: &mut Cursor) -> Result<KdlValue, Refusal>
    requires { numbers.begins_number cursor.old.rest ≡ true }
    ensures { ReadsPiece ValuePiece value_tree result cursor.old cursor.new }
{
    match read_number(alloc, cursor) {
        Ok(Number::Integer(n)) => Ok(KdlValue::Integer(n)),
        Ok(Number::Decimal(text)) => Ok(KdlValue::Float(parsed_float(text))),
        Err(NumberFailure::Fault(_)) => Err(Refusal::Fault(Fault::Value)),
        Err(NumberFailure::Memory) => Err(Refusal::Memory),
    }
}

/// Reads the string, the number or the keyword that begins here. On a fault the cursor is somewhere in it.
fn value_here(alloc: Global, cursor: &mut Cursor) -> Result<KdlValue, Refusal>
    ensures { ReadsPiece ValuePiece value_tree result cursor.old cursor.new }
{
    if begins_number(cursor) {
        return number(alloc, cursor);
    }
    if begins_keyword(cursor) {
        return keyword(alloc, cursor);
    }
    Ok(KdlValue::String(read_name(alloc, Fault::Value, cursor)?))
}

/// Reads the string, the number or the keyword that begins here.
fn read_value(alloc: Global, cursor: &mut Cursor) -> Result<KdlValue, Refusal>
    ensures { ReadsPiece ValuePiece value_tree result cursor.old cursor.new }
{
    let start = cursor.checkpoint();
    match value_here(alloc, cursor) {
        Ok(value) => Ok(value),
        Err(Refusal::Fault(fault)) => Err(refuse(fault, &start, cursor)),
        Err(Refusal::Memory) => Err(Refusal::Memory),
    }
}

/// Reads what a comparison has at its right. On a fault the cursor is somewhere in it.
fn literal_here(alloc: Global, cursor: &mut Cursor) -> Result<Literal, Refusal>
    ensures { ReadsPiece IsLiteral literal_says result cursor.old cursor.new }
{
    if cursor.eat('(') {
        return Ok(Literal::Type(read_type(alloc, cursor)?));
    }
    Ok(Literal::Value(read_value(alloc, cursor)?))
}

fn is_string(literal: &Literal) -> bool
    ensures { result ≡ text'.is_string (literal_says literal.now) }
{
    matches!(literal, Literal::Value(KdlValue::String(_)))
}

fn is_number(literal: &Literal) -> bool
    ensures { result ≡ text'.is_number (literal_says literal.now) }
{
    matches!(
        literal,
        Literal::Value(KdlValue::Integer(_) | KdlValue::Float(_))
    )
}

/// Whether the literal may follow the comparison.
fn fits(comparison: Comparison, literal: &Literal) -> bool
    ensures { result ≡ text'.fits comparison (literal_says literal.now) }
{
    match comparison {
        Comparison::Equal | Comparison::NotEqual => true,
        Comparison::StartsWith | Comparison::EndsWith | Comparison::Contains => is_string(literal),
        _ => is_number(literal),
    }
}

/// Whether the literal may follow the accessor and the comparison.
fn is_allowed(accessor: &Accessor, comparison: Comparison, literal: &Literal) -> bool
    ensures { result ≡ text'.is_allowed (accessor_says accessor.now) comparison (literal_says literal.now) }
{
    match accessor {
        Accessor::Name | Accessor::Type => is_string(literal) && fits(comparison, literal),
        _ => fits(comparison, literal),
    }
}

/// Reads a literal that may follow the accessor and the comparison.
pub(super) fn read_literal(
    alloc: Global,
    accessor: &Accessor,
    comparison: Comparison,
    cursor: &mut Cursor,
) -> Result<Literal, Refusal>
    ensures { ReadsPiece (FittingLiteral (accessor_says accessor.now) comparison) literal_says result cursor.old cursor.new }
{
    let start = cursor.checkpoint();
    let literal = literal_here(alloc, cursor)?;
    if !is_allowed(accessor, comparison, &literal) {
        return Err(refuse(Fault::Unfit, &start, cursor));
    }
    Ok(literal)
}
