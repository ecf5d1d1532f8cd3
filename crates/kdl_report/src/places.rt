//! Places of a text: lines and columns.
//!
//! Lines end at the newlines of KDL 2.0.0: CR LF, CR, LF, NEL, VT, FF, LS and PS. Lines and columns are counted from 1,
//! columns in characters.

ghost use Rattle.kdl_text.specs.Chars.{Text, begins};
ghost use Rattle.kdl_report.specs.Spots.{BeginsWith, IsNext, IsSpot, IsSpotAt, IsSpotOf, excerpt_row, spot_text};
ghost use Rattle.kdl_report.specs.Places.{before, column, from, last_line, line_number};
ghost use Rattle.kdl_report.specs.Windows.{first_shown, last_shown};
ghost use Rattle.std.specs.Prelude.{◌≡◌, ◌-◌, ◌≤◌, ◌++◌, ◌∷◌, [], false, chars, nat_lt, ◌&&◌, option_map, IfOk, IfSome, MatchOption};
ghost use Rattle.std.specs.Str.{IsUtf8};

use crate::window::{Excerpt, excerpt_of};
use kdl_text::chars::is_newline_char;
use kdl_text::span::SourceSpan;
use std::alloc::{AllocError, Global};
use std::marker::Model;

/// A place of a text.
#[derive(Clone, Copy, Debug, PartialEq, Eq)]
pub struct Place {
    /// The number of the line, from 1.
    pub line: usize,
    /// The number of the character within the line, from 1.
    pub column: usize,
}

/// A place, and the text around it.
#[derive(Clone, Copy)]
struct Spot<'a> {
    text: &'a str,
    /// The offset of the place, in bytes.
    at: usize,
    line: usize,
    column: usize,
    /// The text from the start of the line.
    line_text: &'a str,
    /// The text from the place.
    rest: &'a str,
}

/// One character, or a CR LF, at the front of a text.
#[derive(Clone, Copy)]
struct Unit<'a> {
    len: usize,
    is_newline: bool,
    rest: &'a str,
}

/// The first character, and the text after it.
pub(crate) fn split_first(text: &str) -> Option<(char, &str)>
    ensures parts { MatchOption result (chars text.now ≡ []) (λ (c, rest). chars text.now ≡ c ∷ chars rest.now) }
    ensures utf8 { IfSome result (λ (c, rest). IsUtf8 rest.now) }
{
    let mut chars = text.chars();
    match chars.next() {
        Some(c) => Some((c, chars.as_str())),
        None => None,
    }
}

/// The text after the LF that it begins with.
fn after_line_feed(text: &str) -> Option<&str>
    ensures parts { MatchOption result (begins 10 (chars text.now) ≡ false)
        (λ rest. chars text.now ≡ 10 ∷ chars rest.now) }
    ensures utf8 { IfSome result (λ rest. IsUtf8 rest.now) }
{
    match split_first(text) {
        Some(('\n', rest)) => Some(rest),
        _ => None,
    }
}

/// The unit that the text begins with.
fn first_unit(text: &str) -> Option<Unit<'_>>
    ensures { MatchOption result (chars text.now ≡ []) (BeginsWith (chars text.now)) }
{
    let (c, rest) = split_first(text)?;
    if c == '\r' {
        if let Some(rest) = after_line_feed(rest) {
            return Some(Unit {
                len: 2,
                is_newline: true,
                rest,
            });
        }
    }
    Some(Unit {
        len: c.len_utf8(),
        is_newline: is_newline_char(c),
        rest,
    })
}

/// The front of the text, before the rest.
pub(crate) fn cut<'a>(text: &'a str, rest: &str) -> &'a str
    requires { (p : Text) × (chars text.now ≡ p ++ chars rest.now) }
    ensures { chars text.now ≡ chars result.now ++ chars rest.now }
{
    &text[..text.len() - rest.len()]
}

/// The spot at the start of the text.
fn start(text: &str) -> Spot<'_>
    ensures { IsSpotAt 0 (chars text.now) result }
{
    Spot {
        text,
        at: 0,
        line: 1,
        column: 1,
        line_text: text,
        rest: text,
    }
}

/// The next spot, if it is at the offset or before it.
fn next<'a>(spot: Spot<'a>, offset: usize) -> Option<Spot<'a>>
    requires spot { IsSpot spot }
    requires within { spot.at ≤ offset }
    ensures { MatchOption result (before (offset - spot.entry.at) (from spot.entry.at (spot_text spot.entry)) ≡ [])
        (IsNext offset spot.entry) }
{
    let unit = first_unit(spot.rest)?;
    if unit.len > offset - spot.at {
        return None;
    }
    let (line, column, line_text) = if unit.is_newline {
        (spot.line + 1, 1, unit.rest)
    } else {
        (spot.line, spot.column + 1, spot.line_text)
    };
    Some(Spot {
        text: spot.text,
        at: spot.at + unit.len,
        line,
        column,
        line_text,
        rest: unit.rest,
    })
}

/// The spot at the offset. An offset inside a character or a CR LF counts as its start, one beyond the text as its end.
fn seek<'a>(spot: Spot<'a>, offset: usize) -> Spot<'a>
    requires spot { IsSpot spot }
    requires within { spot.at ≤ offset }
    ensures { IsSpotAt offset (spot_text spot.entry) result }
{
    let mut spot = spot;
    while let Some(next) = next(spot, offset) {
        spot = next;
    }
    spot
}

/// The text from the offset on.
pub(crate) fn rest_at(text: &str, offset: usize) -> &str
    ensures { chars result.now ≡ from offset (chars text.now) }
{
    seek(start(text), offset).rest
}

/// The part of the spot's line before the spot.
fn left_of<'a>(spot: &Spot<'a>) -> &'a str
    requires { IsSpot spot.now }
    ensures { chars result.now ≡ last_line (before spot.now.at (spot_text spot.now)) }
{
    cut(spot.line_text, spot.rest)
}

/// Whether the end is in a later line than the start, and not at its start.
fn goes_on(start: &Spot<'_>, end: &Spot<'_>) -> bool
    ensures { result ≡ (nat_lt start.now.line end.now.line && nat_lt 1 end.now.column) }
{
    start.line < end.line && 1 < end.column
}

/// How many bytes lie between two kept spots.
const STRIDE: usize = 1024;

/// A text whose places are looked up. It keeps a spot at each 1024 bytes, so a look-up reads at most that many.
#[derive(Drop)]
pub struct Lines<'a> {
    text: &'a str,
    spots: Vec<Spot<'a>>,
}

impl<'a> Model for Lines<'a> {
    ghost use Rattle.kdl_text.specs.Chars.{Text};
    ghost use Rattle.kdl_report.specs.Spots.{IsSpotOf};
    ghost use Rattle.std.specs.List.{All};
    ghost use Rattle.std.specs.Prelude.{chars};

    ghost Value = { Text };

    ghost view = { λ l. chars l.text.now };

    ghost invariant = { λ l. All (IsSpotOf (chars l.text.now)) l.spots.items };
}

impl<'a> Lines<'a> {
    /// Returns the places of a text.
    pub fn new(alloc: Global, text: &'a str) -> Result<Lines<'a>, AllocError>
        ensures { IfOk result (λ lines. lines ≡ chars text.now) }
    {
        let mut spots = Vec::new(alloc);
        let mut spot = start(text);
        spots.push(spot)?;
        for k in 0..text.len() / STRIDE {
            spot = seek(spot, (k + 1) * STRIDE);
            spots.push(spot)?;
        }
        Ok(Lines { text, spots })
    }

    /// Returns the line and the column of a byte of the text. An offset inside a character or a CR LF counts as its
    /// start, and one beyond the text as its end.
    pub fn place(&self, offset: usize) -> Place
        ensures line { result.line ≡ line_number offset self.now }
        ensures column { result.column ≡ column offset self.now }
    {
        let spot = self.seek(offset);
        Place {
            line: spot.line,
            column: spot.column,
        }
    }

    /// The text from the offset on.
    pub(crate) fn rest(&self, offset: usize) -> &'a str
        ensures { chars result.now ≡ from offset self.now }
    {
        self.seek(offset).rest
    }

    /// The spot at the offset.
    fn seek(&self, offset: usize) -> Spot<'a>
        ensures { IsSpotAt offset self.now result }
    {
        seek(self.spot_before(offset), offset)
    }

    /// A spot at the offset or before it.
    fn spot_before(&self, offset: usize) -> Spot<'a>
        ensures spot { IsSpotOf self.now result }
        ensures within { result.at ≤ offset }
    {
        let near = match self.spots.get(offset / STRIDE) {
            Some(spot) => Some(spot),
            None => self.spots.last(),
        };
        match near {
            Some(spot) if spot.at <= offset => *spot,
            _ => start(self.text),
        }
    }

    /// What is shown of the line in which the span begins, and of that in which it ends if it is a later one.
    pub(crate) fn excerpts(&self, span: SourceSpan) -> (Excerpt<'a>, Option<Excerpt<'a>>)
        ensures first { excerpt_row result.0 ≡ first_shown span self.now }
        ensures last { option_map excerpt_row result.1 ≡ last_shown span self.now }
    {
        let start = self.seek(span.offset);
        let end = self.seek(span.offset.saturating_add(span.len));
        let marked = cut(start.rest, end.rest);
        let first = excerpt_of(start.line, left_of(&start), start.rest, marked);
        if !goes_on(&start, &end) {
            return (first, None);
        }
        let last = excerpt_of(end.line, "", end.line_text, left_of(&end));
        (first, Some(last))
    }
}
