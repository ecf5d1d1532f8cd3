//! Raw strings, single-line and multi-line.
#![tactic(auto, using(crate::proofs::Looking::Returns::advancing))]

ghost use Rattle.kdl_text.specs.Chars.{Text, times};
ghost use Rattle.kdl_text.specs.Internal.Here.{IsPart, Returned};
ghost use Rattle.kdl_text.specs.Internal.Lines.{ReadsOne};
ghost use Rattle.kdl_text.specs.Raw.{IsRaw, RawUnits, RawContent, closing, literals};
ghost use Rattle.kdl_text.specs.Internal.Reading.{AllOf, AtMost, Moves, Costs, Past, Consumed};
ghost use Rattle.kdl_text.specs.declared.strings.StringFailure.TheVariants.{Memory};
ghost use Rattle.std.specs.Prelude.{◌≡◌, ◌<◌, ◌++◌, ◌∷◌, string_bytes, IfOk, IfSome, IfNone, MatchResult};
ghost use Rattle.std.specs.Str.{chars};

use crate::chars::{Class, is_newline_char, is_raw};
use crate::cursor::{Checkpoint, Cursor, Piece};
use crate::strings::dedent::{Line, plain_line};
use crate::strings::multiline::{end_newline, many_lines};
use crate::strings::{StringFailure, StringFault, fault_at};
use std::alloc::Global;

/// Advances past all number signs, and counts them.
fn count_signs(cursor: &mut Cursor) -> usize
    ensures { Consumed 1 1 (AllOf 35 result) cursor.old cursor.new }
{
    let start = cursor.at();
    cursor.skip(Class::NumberSign);
    cursor.at() - start
}

/// Advances past all quotes, and counts them.
fn count_quotes(cursor: &mut Cursor) -> usize
    ensures { Consumed 1 1 (AllOf 34 result) cursor.old cursor.new }
{
    let start = cursor.at();
    cursor.skip(Class::Quote);
    cursor.at() - start
}

/// Advances past at most `most` number signs, and counts them.
fn eat_signs(cursor: &mut Cursor, most: usize) -> usize
    ensures { Consumed 1 1 (AtMost 35 most result) cursor.old cursor.new }
{
    let mut count: usize = 0;
    'signs: while count < most {
        if !cursor.eat('#') {
            return count;
        }
        count += 1;
    }
    count
}

/// Reads the line up to the first quote with `signs` number signs after it, and advances past
/// these. Returns the line.
fn line_content<'a>(cursor: &mut Cursor<'a>, signs: usize) -> Result<Piece<'a>, StringFault>
    requires { 0 < signs }
    ensures found { IfOk result (λ p. RawContent (closing 1 signs) cursor.old.rest cursor.new.rest (literals p)) }
    ensures only { (r w : Text) → RawContent (closing 1 signs) cursor.old.rest r (literals w) →
        MatchResult result (λ p. (r ≡ cursor.new.rest) × (w ≡ p)) (λ _. ⊥) }
    ensures past { Past 4 2 cursor.old cursor.new }
{
    let start = cursor.checkpoint();
    'parts: loop {
        let end = cursor.checkpoint();
        match cursor.take() {
            Some('"') => {
                if eat_signs(cursor, signs) == signs {
                    return Ok(cursor.slice_between(&start, &end));
                }
            }
            Some(c) if is_raw(c) => cursor.skip(Class::Unquoted),
            Some(c) => return Err(fault_at(c)),
            None => return Err(StringFault::Unclosed),
        }
    }
}

/// The place after this many of the quotes at a place.
fn after_quotes<'a>(place: &Checkpoint<'a>, count: usize, cursor: &mut Cursor<'a>) -> Checkpoint<'a>
    requires { IsPart cursor.old.text place.now.rest }
    ensures following { (t : Text) → place.now.rest ≡ times count 34 ++ t → result.rest ≡ t }
    ensures returned { Returned count cursor.old cursor.new }
{
    let here = cursor.checkpoint();
    cursor.go_to(place);
    for _ in 0..count {
        let _ = cursor.eat('"');
    }
    let following = cursor.checkpoint();
    cursor.go_to(&here);
    following
}

/// After the quote at a place: advances past the quotes that follow, and past the number signs if
/// these quotes are two or more. Returns where the closing begins, if there is one.
fn closing_place<'a>(
    quote: &Checkpoint<'a>,
    cursor: &mut Cursor<'a>,
    signs: usize,
) -> Option<Checkpoint<'a>>
    requires some { 0 < signs }
    requires quote { quote.now.rest ≡ 34 ∷ cursor.old.rest }
    requires part { IsPart cursor.old.text quote.now.rest }
    ensures found { IfSome result (λ place. (p : Text) × (quote.now.rest ≡ p ++ place.rest)
        × RawUnits (closing 3 signs) quote.now.rest place.rest (literals p)
        × (place.rest ≡ closing 3 signs ++ cursor.new.rest)) }
    ensures none { IfNone result ((p : Text) × (quote.now.rest ≡ p ++ cursor.new.rest)
        × RawUnits (closing 3 signs) quote.now.rest cursor.new.rest (literals p)) }
    ensures past { Past 2 1 cursor.old cursor.new }
{
    let more = count_quotes(cursor);
    if more < 2 {
        return None;
    }
    if eat_signs(cursor, signs) < signs {
        return None;
    }
    Some(after_quotes(quote, more - 2, cursor))
}

/// Reads a line, and the newline that ends it or the closing of three quotes and `signs` number
/// signs. Returns whether the closing ends it.
pub fn raw_line<'a>(
    cursor: &mut Cursor<'a>,
    signs: usize,
) -> Result<(Line<'a>, bool), StringFailure>
    requires { 0 < signs }
    ensures { ReadsOne (RawContent (closing 3 signs)) result cursor.old cursor.new }
{
    let start = cursor.checkpoint();
    'parts: loop {
        let end = cursor.checkpoint();
        match cursor.take() {
            Some('"') => {
                if let Some(place) = closing_place(&end, cursor, signs) {
                    return Ok((plain_line(cursor.line_between(&start, &place)), true));
                }
            }
            Some(c) if is_newline_char(c) => {
                end_newline(c, cursor);
                return Ok((plain_line(cursor.line_between(&start, &end)), false));
            }
            Some(c) if is_raw(c) => cursor.skip(Class::Unquoted),
            Some(_) => return Err(StringFailure::Fault(StringFault::Banned)),
            None => return Err(StringFailure::Fault(StringFault::Unclosed)),
        }
    }
}

/// Reads a raw string, single-line or multi-line (KDL 2.0.0, Raw String). Advances past the closing
/// and returns the value. Fails with a fault if no raw string begins here: `Unopened` if there are
/// no number signs with a quote after them. Fails with `Memory` if the allocation for the value
/// fails.
pub fn raw_string(alloc: Global, cursor: &mut Cursor) -> Result<String, StringFailure>
    ensures found { IfOk result (λ v. IsRaw cursor.old.rest cursor.new.rest (chars (string_bytes v))) }
    ensures only { (r w : Text) → IsRaw cursor.old.rest r w
        → MatchResult result (λ v. (r ≡ cursor.new.rest) × (w ≡ chars (string_bytes v))) (λ e. e ≡ Memory) }
    ensures moves { Moves cursor.old cursor.new }
    ensures costs { Costs 4 9 cursor.old cursor.new }
    ensures cost { IfOk result (λ _. Costs 24 0 cursor.old cursor.new) }
{
    let signs = count_signs(cursor);
    if signs == 0 {
        return Err(StringFailure::Fault(StringFault::Unopened));
    }
    if !cursor.eat('"') {
        return Err(StringFailure::Fault(StringFault::Unopened));
    }
    if cursor.eat_two('"', '"') {
        return many_lines(alloc, cursor, signs);
    }
    let body = line_content(cursor, signs)?;
    Ok(body.to_string(alloc)?)
}
