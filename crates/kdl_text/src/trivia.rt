//! Trivia: comments, spaces, esclines, and `/-`.
#![tactic(auto, using(crate::proofs::Looking::Returns::advancing))]

ghost use Rattle.kdl_text.specs.Chars.{begins, begins_two, Space};
ghost use Rattle.kdl_text.specs.Internal.Reading.{Reads, Moves, Costs, Longest, Consumed};
ghost use Rattle.kdl_text.specs.Trivia.{Parts, BlockComment, Line, LineComment, EscEnd, Escline};
ghost use Rattle.kdl_text.specs.Internal.TriviaReading.{PieceCosts, RanWs, ReadsSlash, SlashCosts};
ghost use Rattle.std.specs.Prelude.{◌≡◌, true, false, []};

use crate::chars::{Class, is_newline_char};
use crate::cursor::{Cursor, newline};
use crate::marks::Marks;

/// What begins at a slash.
#[derive(Clone, Copy)]
pub enum SlashRead {
    /// A block comment. The cursor is after it.
    Block,
    /// A line comment. The cursor is after it and its newline.
    Line,
    /// `/-`. The cursor is after it.
    Dash,
    /// An unclosed block comment. The cursor is at the end of the text.
    Unclosed,
    /// None of these. The cursor has not moved.
    Other,
}

/// Advances past the rest of a block comment, after its `/*`. Returns false if the comment is
/// unclosed; the cursor is then at the end of the text.
fn block_end(cursor: &mut Cursor) -> bool
    ensures parts { Consumed 2 1 (Reads Parts result) cursor.old cursor.new }
    ensures ended { result ≡ false → cursor.new.rest ≡ [] }
{
    let mut here = cursor.take_over();
    let mut depth: u64 = 1;
    'parts: loop {
        match here.take_at(Marks::Comment) {
            None => {
                *cursor = here;
                return false;
            }
            Some('/') => {
                if here.eat('*') {
                    depth += 1;
                }
            }
            Some('*') => {
                if here.eat('/') {
                    depth -= 1;
                    if depth == 0 {
                        *cursor = here;
                        return true;
                    }
                }
            }
            Some(_) => {}
        }
    }
}

/// Advances past the block comment that begins here (KDL 2.0.0, Multi-line Comments). Returns false
/// if it is unclosed; the cursor is then at the end of the text.
pub fn block_comment(cursor: &mut Cursor) -> bool
    requires { begins_two 47 42 cursor.old.rest ≡ true }
    ensures reads { Reads BlockComment result cursor.old.rest cursor.new.rest }
    ensures ended { result ≡ false → cursor.new.rest ≡ [] }
    ensures moves { Moves cursor.old cursor.new }
    ensures costs { PieceCosts 9 cursor.old cursor.new }
{
    let _ = cursor.eat_two('/', '*');
    block_end(cursor)
}

/// Advances past the rest of a line, and past the newline that ends it, if one does.
#[inline(always)]
fn line_end(cursor: &mut Cursor)
    ensures { Consumed 2 2 (Reads Line true) cursor.old cursor.new }
{
    'line: loop {
        match cursor.take_at(Marks::Newline) {
            None => return,
            Some('\n') => return,
            Some('\r') => {
                let _ = cursor.eat('\n');
                return;
            }
            Some(c) if is_newline_char(c) => return,
            Some(_) => {}
        }
    }
}

/// Advances past the line comment that begins here, including its newline (KDL 2.0.0, Single-line
/// Comments).
pub fn line_comment(cursor: &mut Cursor)
    requires { begins_two 47 47 cursor.old.rest ≡ true }
    ensures reads { Reads LineComment true cursor.old.rest cursor.new.rest }
    ensures moves { Moves cursor.old cursor.new }
    ensures costs { PieceCosts 9 cursor.old cursor.new }
{
    let _ = cursor.eat_two('/', '/');
    line_end(cursor);
}

/// Advances past all spaces here (KDL 2.0.0, Whitespace).
#[inline]
pub fn spaces(cursor: &mut Cursor)
    ensures reads { Longest Space cursor.old.rest cursor.new.rest }
    ensures moves { Moves cursor.old cursor.new }
    ensures costs { Costs 1 1 cursor.old cursor.new }
{
    cursor.skip(Class::Space);
}

/// Advances past all spaces and block comments here. Returns false if one of the comments is
/// unclosed.
fn ws_run(cursor: &mut Cursor) -> bool
    ensures { RanWs result cursor.old cursor.new }
{
    'run: loop {
        spaces(cursor);
        if !cursor.eat_two('/', '*') {
            return true;
        }
        if !block_end(cursor) {
            return false;
        }
    }
}

/// Advances past what ends an escline: a line comment, a newline, or nothing at the end of the
/// text. Returns false if none of these is here.
fn escline_end(cursor: &mut Cursor) -> bool
    ensures { Consumed 2 4 (Reads EscEnd result) cursor.old cursor.new }
{
    if cursor.eat_two('/', '/') {
        line_end(cursor);
        return true;
    }
    if newline(cursor) {
        return true;
    }
    match cursor.look() {
        None => true,
        Some(_) => false,
    }
}

/// Advances past the escline whose backslash is here (KDL 2.0.0, Line Continuation). Returns false
/// if the backslash begins no escline: a block comment after it is unclosed, or something other
/// than a line comment, a newline or the end of the text follows.
pub fn escline(cursor: &mut Cursor) -> bool
    requires { begins 92 cursor.old.rest ≡ true }
    ensures reads { Reads Escline result cursor.old.rest cursor.new.rest }
    ensures moves { Moves cursor.old cursor.new }
    ensures costs { PieceCosts 8 cursor.old cursor.new }
{
    let _ = cursor.eat('\\');
    if !ws_run(cursor) {
        return false;
    }
    escline_end(cursor)
}

/// Advances past the block comment, the line comment or the `/-` that begins with the slash here,
/// if one of them does.
pub fn slash<'a>(cursor: &mut Cursor<'a>) -> SlashRead
    ensures reads { ReadsSlash result cursor.old cursor.new }
    ensures moves { Moves cursor.old cursor.new }
    ensures costs { SlashCosts result cursor.old cursor.new }
{
    let mut here = cursor.take_over();
    if here.eat_two('/', '*') {
        *cursor = here;
        if block_end(cursor) {
            SlashRead::Block
        } else {
            SlashRead::Unclosed
        }
    } else if here.eat_two('/', '/') {
        *cursor = here;
        line_end(cursor);
        SlashRead::Line
    } else if here.eat_two('/', '-') {
        *cursor = here;
        SlashRead::Dash
    } else {
        *cursor = here;
        SlashRead::Other
    }
}
