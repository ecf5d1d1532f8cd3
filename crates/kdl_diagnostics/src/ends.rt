//! Value ends (KDL 2.0.0, Value): where a string, a number or a keyword may end.

ghost use Rattle.kdl_diagnostics.specs.Internal.Reading.{GoesOn, IsEnd, LiesIn, Reads};
ghost use Rattle.kdl_text.specs.Chars.{begins};
ghost use Rattle.kdl_text.specs.Internal.Here.{Looked, Returned};
ghost use Rattle.std.specs.Prelude.{◌≡◌, None, true, IfSome};

use kdl_text::chars::{Class, is_newline_char, is_space};
use kdl_text::cursor::{Checkpoint, Cursor, newline};
use kdl_text::trivia::{block_comment, line_comment, spaces};

/// A value end, and the start of an unclosed block comment in what begins as an escline there. It ends with the text.
pub(crate) type ValueEnd<'a> = (Checkpoint<'a>, Option<Checkpoint<'a>>);

/// Advances past spaces and block comments. If a comment is unclosed, returns its start; the cursor is then at the end
/// of the text.
fn ws_run<'a>(cursor: &mut Cursor<'a>) -> Option<Checkpoint<'a>>
    ensures comment { IfSome result (LiesIn cursor.old.rest) }
    ensures reads { Reads 12 4 cursor.old cursor.new }
{
    'run: loop {
        spaces(cursor);
        let start = cursor.checkpoint();
        if !cursor.looks_two('/', '*') {
            return None;
        }
        if !block_comment(cursor) {
            return Some(start);
        }
    }
}

/// Advances past what ends an escline if it is here, and returns whether it is.
fn escline_end(cursor: &mut Cursor) -> bool
    ensures { Reads 12 8 cursor.old cursor.new }
{
    if cursor.looks_two('/', '/') {
        line_comment(cursor);
        return true;
    }
    newline(cursor) || cursor.look().is_none()
}

/// Whether a comment or a `/-` begins here.
fn begins_slash_lexeme(cursor: &mut Cursor) -> bool
    ensures { Looked 6 cursor.old cursor.new }
{
    cursor.looks_two('/', '*') || cursor.looks_two('/', '/') || cursor.looks_two('/', '-')
}

/// Whether a value end is here, at the character c, which is not a backslash.
fn ends_here(cursor: &mut Cursor, c: char) -> bool
    ensures { Returned 6 cursor.old cursor.new }
{
    if c == '/' {
        return begins_slash_lexeme(cursor);
    }
    matches!(c, '=' | ')' | '{' | '}' | ';') || is_space(c) || is_newline_char(c)
}

/// Whether a value end is here that is not a backslash.
pub(crate) fn is_value_end(cursor: &mut Cursor) -> bool
    ensures { Returned 7 cursor.old cursor.new }
{
    match cursor.look() {
        None => true,
        Some(c) => ends_here(cursor, c),
    }
}

/// The value end at a backslash, if there is one: the backslash itself if it begins an escline, or the place after it
/// if spaces or a comment follow. A backslash before an unclosed block comment does not begin an escline. The cursor
/// advances past the escline, or past the spaces and comments. If the result is `None`, it is directly after the
/// backslash.
pub(crate) fn end_at_backslash<'a>(cursor: &mut Cursor<'a>) -> Option<ValueEnd<'a>>
    requires { begins 92 cursor.old.rest ≡ true }
    ensures end { IfSome result (IsEnd cursor.old) }
    ensures goes { GoesOn 12 cursor.old cursor.new }
{
    let backslash = cursor.checkpoint();
    cursor.step();
    let place = cursor.checkpoint();
    let comment = ws_run(cursor);
    if comment.is_some() {
        return Some((place, comment));
    }
    if escline_end(cursor) {
        return Some((backslash, None));
    }
    if cursor.at() == place.at() {
        return None;
    }
    Some((place, None))
}

/// Advances to the next value end. The cursor may also advance past an escline, or past spaces and comments, that begin
/// there.
pub(crate) fn value_end<'a>(cursor: &mut Cursor<'a>) -> ValueEnd<'a>
    ensures end { IsEnd cursor.old result }
    ensures reads { Reads 24 12 cursor.old cursor.new }
{
    'ends: loop {
        cursor.skip(Class::Identifier);
        let place = cursor.checkpoint();
        match cursor.look() {
            None => return (place, None),
            Some('\\') => {
                if let Some(end) = end_at_backslash(cursor) {
                    return end;
                }
                continue 'ends;
            }
            Some(c) => {
                if ends_here(cursor, c) {
                    return (place, None);
                }
                cursor.step();
            }
        }
    }
}
