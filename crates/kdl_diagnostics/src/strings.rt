//! Quoted and raw strings, faulty or not, and the first fault in them.

ghost use Rattle.kdl_diagnostics.specs.Internal.Reading.{FindsAlso, FindsOn, GoesOn, OnFound, Reads, ReadsFrom, Since};
ghost use Rattle.kdl_text.specs.Chars.{begins};
ghost use Rattle.kdl_text.specs.Internal.Here.{Returned, first};
ghost use Rattle.kdl_text.specs.Spans.{bytes};
ghost use Rattle.std.specs.Prelude.{◌≡◌, ◌+◌, ◌-◌, ◌*◌, ◌<◌, None, Some, true, IfOk};

use crate::kind::Kind;
use kdl_text::chars::{Class, is_newline_char};
use kdl_text::cursor::{Checkpoint, Cursor, newline};
use kdl_text::strings::{StringFailure, StringFault, escaped_unit, quoted_string, raw_string};
use std::alloc::{AllocError, Global};

/// The first fault in a string, and its place.
#[derive(Drop)]
pub(crate) struct Found<'a> {
    pub kind: Kind,
    pub place: Checkpoint<'a>,
    /// Whether the text ended in the middle of the string.
    pub is_cut: bool,
}

/// The fault that was found already, if there is one, or else this one.
fn earlier<'a>(found: Option<Found<'a>>, kind: Kind, place: Checkpoint<'a>) -> Found<'a>
    ensures { FindsAlso found.entry place.entry (Some result) }
{
    match found {
        Some(found) => found,
        None => Found {
            kind,
            place,
            is_cut: false,
        },
    }
}

/// Advances past at most `most` number signs. Returns whether there were that many.
fn eat_signs(cursor: &mut Cursor, most: usize) -> bool
    ensures { Reads 1 1 cursor.old cursor.new }
{
    let mut count: usize = 0;
    'signs: while count < most {
        if !cursor.eat('#') {
            return false;
        }
        count += 1;
    }
    true
}

/// Advances past a quote here, and what may follow it. Returns whether that closes a string with `signs` number signs
/// and `quotes` quotes at each end.
fn closes(cursor: &mut Cursor, signs: usize, quotes: usize) -> bool
    requires { begins 34 cursor.old.rest ≡ true }
    ensures { GoesOn 3 cursor.old cursor.new }
{
    if quotes > 1 && signs > 0 {
        let start = cursor.at();
        cursor.skip(Class::Quote);
        return cursor.at() - start >= quotes && eat_signs(cursor, signs);
    }
    cursor.step();
    if quotes > 1 {
        cursor.eat_two('"', '"')
    } else {
        eat_signs(cursor, signs)
    }
}

/// The fault of a string that is unclosed, or has a character that it can't have.
fn fault_of(signs: usize) -> Kind {
    match signs {
        0 => Kind::Quoted,
        _ => Kind::Raw,
    }
}

/// Advances past a character that does not represent itself in a string: past an escape, or past a character that can't
/// be there. The fault of the string so far is the one that was found already, or else such a character.
fn odd_unit<'a>(
    cursor: &mut Cursor<'a>,
    c: char,
    kind: Kind,
    found: Option<Found<'a>>,
) -> Option<Found<'a>>
    requires here { first cursor.old.rest ≡ Some c }
    ensures fault { FindsOn 3 0 found.entry cursor.old result cursor.new }
    ensures went { bytes cursor.new.rest < bytes cursor.old.rest }
{
    let place = cursor.checkpoint();
    cursor.step();
    if c == '\\' && escaped_unit(cursor).is_ok() {
        return found;
    }
    Some(earlier(found, kind, place))
}

/// After its opening quotes: advances past a string, to a newline that it can't have, or to the end of the text. Its
/// fault is the one that was found already, or else the first one here.
fn units<'a>(
    cursor: &mut Cursor<'a>,
    signs: usize,
    quotes: usize,
    found: Option<Found<'a>>,
) -> Option<Found<'a>>
    ensures { FindsOn 5 2 found.entry cursor.old result cursor.new }
{
    let (class, newline_fault) = match signs {
        0 => (Class::Literal, Kind::QuotedNewline),
        _ => (Class::Unquoted, Kind::Raw),
    };
    let mut found = found;
    'units: loop {
        cursor.skip(class);
        let place = cursor.checkpoint();
        match cursor.look() {
            None => {
                let mut found = earlier(found, fault_of(signs), place);
                found.is_cut = true;
                return Some(found);
            }
            Some('"') => {
                if closes(cursor, signs, quotes) {
                    return found;
                }
            }
            Some(c) if is_newline_char(c) => {
                if quotes == 1 {
                    return Some(earlier(found, newline_fault, place));
                }
                let _ = newline(cursor);
            }
            Some(c) => found = odd_unit(cursor, c, fault_of(signs), found),
        }
    }
}

/// The kind of a fault in the lines of a string.
fn lines_fault(signs: usize, fault: StringFault) -> Kind {
    match (signs, fault) {
        (0, StringFault::NoPrefix) => Kind::Prefix,
        _ => fault_of(signs),
    }
}

/// Reads a string without faults in its units, for the faults in its lines.
fn read_string(alloc: Global, cursor: &mut Cursor, signs: usize) -> Result<String, StringFailure>
    ensures { Reads 4 9 cursor.old cursor.new }
{
    match signs {
        0 => quoted_string(alloc, cursor),
        _ => raw_string(alloc, cursor),
    }
}

/// The fault in the lines of a string that begins at the place, is closed, and has no fault in its units.
fn fault_of_lines<'a>(
    alloc: Global,
    cursor: &mut Cursor<'a>,
    start: &Checkpoint<'a>,
    signs: usize,
) -> Result<Option<Found<'a>>, AllocError>
    requires { Since start.now cursor.old }
    ensures fault { IfOk result (λ f. OnFound start.now.rest f cursor.new.rest) }
    ensures back { Returned (5 * (bytes start.now.rest - bytes cursor.old.rest) + 9) cursor.old cursor.new }
{
    let place = cursor.enter(&start.up_to(&cursor.checkpoint()));
    let answer = read_string(alloc, cursor, signs);
    cursor.go_to(&place);
    match answer {
        Ok(_) => Ok(None),
        Err(StringFailure::Fault(fault)) => Ok(Some(Found {
            kind: lines_fault(signs, fault),
            place,
            is_cut: false,
        })),
        Err(StringFailure::Memory) => Err(AllocError),
    }
}

/// After number signs and three quotes with no newline after them: advances past a single-line raw string. If it is
/// closed on its line, it looks like a multi-line string.
fn raw_quotes<'a>(cursor: &mut Cursor<'a>, signs: usize) -> Found<'a>
    ensures { FindsOn 5 3 None cursor.old (Some result) cursor.new }
{
    if eat_signs(cursor, signs) {
        return earlier(None, Kind::RawQuotes, cursor.checkpoint());
    }
    let found = units(cursor, signs, 1, None);
    earlier(found, Kind::RawQuotes, cursor.checkpoint())
}

/// Advances past the string that begins at the place, and returns its first fault. Its opening quote is here, after the
/// number signs of a raw string. With three quotes and no newline after them, a quoted string is faulty, and a raw one
/// is on one line.
pub(crate) fn scan_string<'a>(
    alloc: Global,
    cursor: &mut Cursor<'a>,
    start: &Checkpoint<'a>,
    signs: usize,
) -> Result<Option<Found<'a>>, AllocError>
    requires quote { begins 34 cursor.old.rest ≡ true }
    requires start { Since start.now cursor.old }
    ensures fault { IfOk result (λ f. OnFound start.now.rest f cursor.new.rest) }
    ensures reads { ReadsFrom 10 14 start.now cursor.old cursor.new }
    ensures went { bytes cursor.new.rest < bytes cursor.old.rest }
{
    cursor.step();
    if !cursor.eat_two('"', '"') {
        return Ok(units(cursor, signs, 1, None));
    }
    let place = cursor.checkpoint();
    if newline(cursor) {
        let found = units(cursor, signs, 3, None);
        if found.is_some() {
            return Ok(found);
        }
        return fault_of_lines(alloc, cursor, start, signs);
    }
    if signs > 0 {
        return Ok(Some(raw_quotes(cursor, signs)));
    }
    let opening = earlier(None, Kind::Opening, place);
    Ok(units(cursor, signs, 3, Some(opening)))
}
