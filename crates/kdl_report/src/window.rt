//! The part of a line that is shown: a window around the start of its mark.

ghost use Rattle.kdl_report.specs.Places.{first_line};
ghost use Rattle.kdl_report.specs.Spots.{HasNoRoom, TakesFirst, TakesLast, excerpt_row};
ghost use Rattle.kdl_report.specs.Windows.{cut_row, end_in, front_in, rooms};
ghost use Rattle.std.specs.Prelude.{◌≡◌, ◌++◌, ◌==◌, ◌≤◌, ◌∷◌, [], IfSome, IsUtf8, List, MatchOption, chars, encode_utf8, if◌then◌else◌, length, ℕ};

use crate::places::{cut, split_first};
use crate::shown::room_of;
use kdl_text::chars::is_newline_char;

/// The columns of a line that are shown at most.
const COLUMNS: usize = 200;

/// The part of a line that is shown, and the part of it that a span marks.
#[derive(Clone, Copy)]
pub(crate) struct Excerpt<'a> {
    /// The number of the line, from 1.
    pub(crate) number: usize,
    /// `…` if the line is cut before the part, or nothing.
    pub(crate) before: &'a str,
    /// The part before the marked one.
    pub(crate) left: &'a str,
    /// The part from the marked one on.
    pub(crate) right: &'a str,
    /// `…` if the line is cut after the part, or nothing.
    pub(crate) after: &'a str,
    pub(crate) marked: &'a str,
}

/// A part of a text that has room in some columns.
#[derive(Clone, Copy)]
struct Part<'a> {
    text: &'a str,
    /// The columns that it takes.
    columns: usize,
    /// Whether it is all of the text.
    is_whole: bool,
}

/// The room of the character with which a line goes on, if it has room in the columns, and the text after it.
fn next_in(text: &str, columns: usize) -> Option<(usize, &str)>
    ensures { MatchOption result (front_in columns (first_line (chars text.now)) ≡ [])
        (λ (n, rest). TakesFirst columns (chars text.now) n rest.now) }
{
    let (c, rest) = split_first(text)?;
    if is_newline_char(c) {
        return None;
    }
    let room = room_of(c);
    if room > columns {
        return None;
    }
    Some((room, rest))
}

/// Whether the text is empty or begins with a newline.
fn ends_line(text: &str) -> bool
    ensures { result ≡ (length (first_line (chars text.now)) == 0) }
{
    match split_first(text) {
        Some((c, _)) => is_newline_char(c),
        None => true,
    }
}

/// The longest front of the line at the start of the text that has room in the columns.
fn front(text: &str, columns: usize) -> Part<'_>
    ensures text { chars result.text.now ≡ front_in columns (first_line (chars text.now)) }
    ensures columns { result.columns ≡ rooms (front_in columns (first_line (chars text.now))) }
    ensures fits { result.columns ≤ columns }
    ensures whole { result.is_whole ≡ (length (front_in columns (first_line (chars text.now))) == length (first_line (chars text.now))) }
{
    let mut rest = text;
    let mut taken = 0;
    while let Some((room, after)) = next_in(rest, columns - taken) {
        taken += room;
        rest = after;
    }
    Part {
        text: cut(text, rest),
        columns: taken,
        is_whole: ends_line(rest),
    }
}

/// The last character, and the text before it.
fn split_last(text: &str) -> Option<(&str, char)>
    ensures parts { MatchOption result (text.now ≡ []) (λ (rest, c). text.now ≡ rest.now ++ encode_utf8 c) }
    ensures utf8 { IfSome result (λ (rest, c). IsUtf8 rest.now) }
{
    let mut chars = text.chars();
    match chars.next_back() {
        Some(c) => Some((chars.as_str(), c)),
        None => None,
    }
}

/// The room of the last character of a text, if it has room in the columns, and the text before it.
fn previous_in(text: &str, columns: usize) -> Option<(usize, &str)>
    ensures { MatchOption result (HasNoRoom columns (chars text.now))
        (λ (n, rest). TakesLast columns text.now n rest.now) }
{
    match split_last(text) {
        Some((rest, c)) => {
            let room = room_of(c);
            if room > columns {
                return None;
            }
            Some((room, rest))
        }
        None => None,
    }
}

/// The text after its front.
fn after<'a>(text: &'a str, front: &str) -> &'a str
    requires { (rest : List ℕ) × (text.now ≡ front.now ++ rest) }
    ensures { text.now ≡ front.now ++ result.now }
{
    &text[front.len()..]
}

/// The longest end of the text that has room in the columns.
fn end(text: &str, columns: usize) -> Part<'_>
    ensures text { chars result.text.now ≡ end_in columns (chars text.now) }
    ensures columns { result.columns ≡ rooms (end_in columns (chars text.now)) }
    ensures fits { result.columns ≤ columns }
    ensures whole { result.is_whole ≡ (length (end_in columns (chars text.now)) == length (chars text.now)) }
{
    let mut rest = text;
    let mut taken = 0;
    while let Some((room, before)) = previous_in(rest, columns - taken) {
        taken += room;
        rest = before;
    }
    Part {
        text: after(text, rest),
        columns: taken,
        is_whole: rest.is_empty(),
    }
}

/// `…` for a part that is not all of a text.
fn dots(part: &Part<'_>) -> &'static str
    ensures { chars result.now ≡ (if part.now.is_whole then [] else 0x2026 ∷ []) }
{
    if part.is_whole { "" } else { "…" }
}

/// What is shown of a line: `left` is before the mark, the line goes on at the front of `text`, and `marked` begins there.
pub(crate) fn excerpt_of<'a>(
    number: usize,
    left: &'a str,
    text: &'a str,
    marked: &'a str,
) -> Excerpt<'a>
    ensures { excerpt_row result ≡ cut_row 200 (record {
      number = number;
      line = chars left.now ++ first_line (chars text.now);
      left = chars left.now;
      marked = first_line (chars marked.now);
    }) }
{
    let kept = front(text, COLUMNS / 2);
    let left = end(left, COLUMNS - kept.columns);
    let room = COLUMNS - left.columns;
    let right = front(text, room);
    let marked = front(marked, room);
    Excerpt {
        number,
        before: dots(&left),
        left: left.text,
        right: right.text,
        after: dots(&right),
        marked: marked.text,
    }
}
