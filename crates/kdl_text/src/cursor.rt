//! The cursor through which every reader looks at a text, and the pieces that it cuts out of the
//! text.
//!
//! Readers look at a text only through a `Cursor`, which counts each look and each byte of a slice.
//! A slice is a `Piece`, which can be copied, or compared as a whole, or read again by the cursor, which
//! counts each look (`take_of`).
//! Text that is read again is a `Segment`: a cursor enters it and counts each look in it.
//!
//! A cursor has the text that it was created over, which no call changes. A place that it goes to, a
//! segment that it enters, and the place where a slice begins are parts of that text (`IsPart`). So a
//! cursor over another text can't read it, and what is read of a text is counted by its own cursor.

ghost use Rattle.kdl_text.specs.Chars as class;
ghost use Rattle.kdl_text.specs.Chars.{Text};
ghost use Rattle.kdl_text.specs.Internal.Here.{Ahead, Reached, IsPart, Skips, Took, TookAfter, Ate, AteTwo, Stayed, first, first_len, tail, looked, stepped, sliced, in_class};
ghost use Rattle.kdl_text.specs.Spans.{bytes, raise};
ghost use Rattle.kdl_text.specs.Internal.DigitRuns.{SkipsDigits};
ghost use Rattle.kdl_text.specs.Internal.Reading.{Moves, Costs, ReadsNewline};
ghost use Rattle.kdl_text.specs.Internal.Marks.{is_passed};
ghost use Rattle.kdl_text.specs.Spans as spans;
ghost use Rattle.std.specs.Prelude.{◌≡◌, ◌+◌, ◌<◌, ◌^◌, ◌++◌, ◌∷◌, [], length, MatchOption, IfOk, IsTrue, ◌↔◌, string_bytes};
ghost use Rattle.std.specs.Str.{chars};

use crate::chars::{
    Class, after_char, after_two, first_char, is_newline_char, skip_class, skip_decimals,
    skip_unmarked, split_first,
};
use crate::marks::Marks;
use crate::span::SourceSpan;
use std::alloc::{AllocError, Global};
use std::marker::Model;

/// A count of steps, which saturates at `u64::MAX`.
#[derive(Drop)]
pub struct Steps {
    count: u64,
}

impl Model for Steps {
    ghost use Rattle.std.specs.Prelude.{ℕ};

    ghost Value = { ℕ };

    ghost view = { λ s. s.count };
}

impl Steps {
    /// Creates a count of 0 steps.
    pub fn new() -> Self
        ensures { result ≡ 0 }
    {
        Steps { count: 0 }
    }

    /// Returns the number of steps counted so far.
    pub fn count(&self) -> u64
        ensures { result ≡ self.now }
    {
        self.count
    }

    /// Adds steps to the count, which saturates at `u64::MAX`.
    #[inline]
    fn raise(&mut self, by: u64)
        ensures { self.new ≡ raise self.old by }
    {
        self.count = self.count.saturating_add(by);
    }
}

impl From<u64> for Steps {
    /// Returns a count that continues from a number of steps.
    fn from(count: u64) -> Self
        ensures { result ≡ count }
    {
        Steps { count }
    }
}

/// The second character.
fn second_char(text: &str) -> Option<char>
    ensures { result ≡ first (tail (chars text.now)) }
{
    match split_first(text) {
        Some((_, rest)) => first_char(rest),
        None => None,
    }
}

/// The part of the text before its rest.
#[inline]
fn cut<'a>(text: &'a str, rest: &str) -> &'a str
    requires { (p : Text) × (chars text.now ≡ p ++ chars rest.now) }
    ensures parts { chars text.now ≡ chars result.now ++ chars rest.now }
    ensures len { bytes (chars result.now) ≡ length result.now }
{
    &text[..text.len() - rest.len()]
}

fn same_bytes(a: &str, b: &str) -> bool
    ensures { IsTrue result ↔ (a.now ≡ b.now) }
{
    a == b
}

pub(crate) fn same(a: &str, b: &str) -> bool
    ensures { IsTrue result ↔ (chars a.now ≡ chars b.now) }
{
    same_bytes(a, b)
}

/// The number of bytes of the text.
#[inline]
#[tactic(auto, using(crate::proofs::Looking::Texts::chars_bytes))]
fn byte_len(text: &str) -> usize
    ensures { result ≡ bytes (chars text.now) }
{
    text.len()
}

/// A place in a text, to which a slice can go back.
#[derive(Drop)]
pub struct Checkpoint<'a> {
    rest: &'a str,
    at: usize,
}

impl<'a> Model for Checkpoint<'a> {
    ghost use Rattle.kdl_text.specs.Internal.Here.{Position};
    ghost use Rattle.std.specs.Prelude.{◌+◌, ◌<◌, ◌^◌, length};
    ghost use Rattle.std.specs.Str.{chars};

    ghost Value = { Position };

    ghost view = { λ c. record { rest = chars c.rest.now; at = c.at } };

    ghost invariant = { λ c. c.at + length c.rest.now < 2 ^ 64 };
}

impl<'a> Checkpoint<'a> {
    /// Returns the byte offset of the place from the start of the text.
    #[inline]
    pub fn at(&self) -> usize
        ensures { result ≡ self.now.at }
    {
        self.at
    }

    /// Returns a copy of the place.
    #[inline]
    pub fn copied(&self) -> Checkpoint<'a>
        ensures { result ≡ self.now }
    {
        Checkpoint {
            rest: self.rest,
            at: self.at,
        }
    }

    /// Returns the text from the place to another one, for a cursor to enter. Costs no step.
    #[inline]
    pub fn up_to(&self, end: &Checkpoint<'a>) -> Segment<'a>
        requires { Ahead self.now end.now }
        ensures { self.now.rest ≡ result ++ end.now.rest }
    {
        Segment {
            text: cut(self.rest, end.rest),
        }
    }

    /// Returns the span of the character at the place, of length 0 at the end of the text.
    pub fn char_span(&self) -> SourceSpan
        ensures offset { result.offset ≡ self.now.at }
        ensures len { result.len ≡ first_len self.now.rest }
    {
        let len = match first_char(self.rest) {
            Some(c) => c.len_utf8(),
            None => 0,
        };
        SourceSpan {
            offset: self.at,
            len,
        }
    }

    /// Returns the span between two places, counted from this one.
    pub fn span_between(&self, from: &Checkpoint, to: &Checkpoint) -> SourceSpan
        ensures { result ≡ spans.span_between self.now.rest from.now.rest to.now.rest }
    {
        SourceSpan {
            offset: byte_len(self.rest).saturating_sub(byte_len(from.rest)),
            len: byte_len(from.rest).saturating_sub(byte_len(to.rest)),
        }
    }
}

/// A segment of a text, which a cursor over this text enters to read it again. The text can't be read
/// through the segment itself.
#[derive(Drop)]
pub struct Segment<'a> {
    text: &'a str,
}

impl<'a> Model for Segment<'a> {
    ghost use Rattle.kdl_text.specs.Chars.{Text};
    ghost use Rattle.std.specs.Str.{chars};

    ghost Value = { Text };

    ghost view = { λ s. chars s.text.now };
}

impl<'a> Segment<'a> {
    /// Returns the number of bytes of the segment. Costs no step.
    #[inline]
    pub fn byte_len(&self) -> usize
        ensures { result ≡ bytes self.now }
    {
        byte_len(self.text)
    }
}

/// A piece of a text, whose slice was counted. It can be copied, or compared as a whole. A cursor reads
/// its characters.
#[derive(Drop)]
pub struct Piece<'a> {
    text: &'a str,
}

impl<'a> Model for Piece<'a> {
    ghost use Rattle.kdl_text.specs.Chars.{Text};
    ghost use Rattle.std.specs.Str.{chars};

    ghost Value = { Text };

    ghost view = { λ p. chars p.text.now };
}

impl<'a> Piece<'a> {
    /// Returns the same piece, for a cursor to read.
    #[inline]
    pub(crate) fn copied(&self) -> Piece<'a>
        ensures { result ≡ self.now }
    {
        Piece { text: self.text }
    }

    /// Returns the text of the piece.
    #[inline]
    pub(crate) fn as_str(&self) -> &'a str
        ensures { chars result.now ≡ self.now }
    {
        self.text
    }

    /// Returns a copy of the piece. An empty piece does not allocate.
    #[inline]
    pub fn to_string(&self, alloc: Global) -> Result<String, AllocError>
        ensures { IfOk result (λ s. chars (string_bytes s) ≡ self.now) }
    {
        if self.text.len() == 1 {
            return String::from_str(alloc, &self.text[..1]);
        }
        String::from_str(alloc, self.text)
    }

    /// Appends the piece to the text. An empty piece does not allocate.
    #[inline]
    pub fn push_to(&self, out: &mut String) -> Result<(), AllocError>
        ensures { IfOk result (λ _. chars (string_bytes out.new) ≡ chars (string_bytes out.old) ++ self.now) }
    {
        out.push_str(self.text)
    }

    /// Returns whether the piece is this text.
    pub fn is(&self, text: &str) -> bool
        ensures { IsTrue result ↔ (self.now ≡ chars text.now) }
    {
        same(self.text, text)
    }
}

/// A reader of a text, character by character. Each look costs a step, and each byte of a slice
/// does. The text stays the one that the cursor was created over.
#[derive(Drop)]
pub struct Cursor<'a> {
    text: &'a str,
    rest: &'a str,
    at: usize,
    steps: Steps,
}

impl<'a> Model for Cursor<'a> {
    ghost use Rattle.kdl_text.specs.Internal.Here.{Here, IsPart};
    ghost use Rattle.std.specs.Prelude.{◌+◌, ◌<◌, ◌^◌, length};
    ghost use Rattle.std.specs.Str.{chars};

    ghost Value = { Here };

    ghost view = { λ c. record {
      text = chars c.text.now;
      rest = chars c.rest.now;
      at = c.at;
      steps = c.steps;
    } };

    ghost invariant = { λ c. (c.at + length c.rest.now < 2 ^ 64) × IsPart (chars c.text.now) (chars c.rest.now) };
}

impl<'a> Cursor<'a> {
    /// Creates a cursor at the start of the text, which adds to the given count.
    pub fn new(text: &'a str, steps: Steps) -> Self
        ensures { result ≡ record {
          text = chars text.now;
          rest = chars text.now;
          at = 0;
          steps = steps;
        } }
    {
        let _len = text.len();
        Cursor {
            text,
            rest: text,
            at: 0,
            steps,
        }
    }

    /// Moves the cursor out, and leaves one over the empty text, with a count of 0. A function that
    /// advances the cursor and then assigns it back can keep it in registers.
    #[inline(always)]
    pub(crate) fn take_over(&mut self) -> Cursor<'a>
        ensures result { result ≡ self.old }
        ensures left { self.new ≡ record { text = []; rest = []; at = 0; steps = 0 } }
    {
        std::mem::replace(self, Cursor::new("", Steps::new()))
    }

    /// Consumes the cursor and returns its count of steps.
    pub fn into_steps(self) -> Steps
        ensures { result ≡ self.entry.steps }
    {
        self.steps
    }

    /// Returns the byte offset of the cursor from the start of the text.
    #[inline]
    pub fn at(&self) -> usize
        ensures { result ≡ self.now.at }
    {
        self.at
    }

    /// Returns the start of the text.
    #[inline]
    pub fn start(&self) -> Checkpoint<'a>
        ensures { result ≡ record { rest = self.now.text; at = 0 } }
    {
        let _len = self.text.len();
        Checkpoint {
            rest: self.text,
            at: 0,
        }
    }

    /// Returns the place of the cursor, to slice from later.
    #[inline]
    pub fn checkpoint(&self) -> Checkpoint<'a>
        ensures rest { result.rest ≡ self.now.rest }
        ensures at { result.at ≡ self.now.at }
        ensures part { IsPart self.now.text result.rest }
    {
        Checkpoint {
            rest: self.rest,
            at: self.at,
        }
    }

    /// Moves the cursor back or forward to a place in its text. Costs no step.
    pub fn go_to(&mut self, place: &Checkpoint<'a>)
        requires { IsPart self.old.text place.now.rest }
        ensures { self.new ≡ record self.old { rest = place.now.rest; at = place.now.at } }
    {
        self.rest = place.rest;
        self.at = place.at;
    }

    /// Moves the cursor to the start of a segment of its text; what is to come then ends at the
    /// segment's end. Returns the place where the cursor was, for `go_to` to go back there. Costs
    /// no step.
    pub fn enter(&mut self, segment: &Segment<'a>) -> Checkpoint<'a>
        requires { IsPart self.old.text segment.now }
        ensures inside { self.new ≡ record self.old { rest = segment.now; at = 0 } }
        ensures rest { result.rest ≡ self.old.rest }
        ensures at { result.at ≡ self.old.at }
        ensures part { IsPart self.old.text result.rest }
    {
        let _len = segment.text.len();
        let place = self.checkpoint();
        self.rest = segment.text;
        self.at = 0;
        place
    }

    /// Returns the character here, or `None` at the end of the text. Costs a step.
    #[inline]
    pub fn look(&mut self) -> Option<char>
        ensures result { result ≡ first self.old.rest }
        ensures moved { self.new ≡ looked self.old }
        ensures room { self.old.at + bytes self.old.rest < 2 ^ 64 }
    {
        self.steps.raise(1);
        first_char(self.rest)
    }

    /// Returns the character after the one here, if there is one. Costs a step.
    pub fn look_second(&mut self) -> Option<char>
        ensures result { result ≡ first (tail self.old.rest) }
        ensures moved { self.new ≡ looked self.old }
    {
        self.steps.raise(1);
        second_char(self.rest)
    }

    /// Advances past the character here, if there is one.
    #[inline]
    pub fn step(&mut self)
        ensures { self.new ≡ stepped self.old }
    {
        if let Some((_, rest)) = split_first(self.rest) {
            self.at += self.rest.len() - rest.len();
            self.rest = rest;
        }
    }

    /// Returns the character here and advances past it, or returns `None` at the end of the text.
    /// Costs a step.
    #[inline]
    pub fn take(&mut self) -> Option<char>
        ensures took { Took result self.old self.new }
        ensures room { self.old.at + bytes self.old.rest < 2 ^ 64 }
    {
        let _end = self.rest.len();
        self.steps.raise(1);
        match split_first(self.rest) {
            Some((c, rest)) => {
                self.at += self.rest.len() - rest.len();
                self.rest = rest;
                Some(c)
            }
            None => None,
        }
    }

    /// Advances past the character c if it is here, and returns whether it is. Costs a step.
    #[inline]
    pub fn eat(&mut self, c: char) -> bool
        ensures { Ate c result self.old self.new }
    {
        self.steps.raise(1);
        match after_char(self.rest, c) {
            Some(rest) => {
                self.at += self.rest.len() - rest.len();
                self.rest = rest;
                true
            }
            None => false,
        }
    }

    /// Returns whether the characters a and b are here. Costs two steps.
    #[inline(always)]
    pub fn looks_two(&mut self, a: char, b: char) -> bool
        ensures result { result ≡ class.begins_two a b self.old.rest }
        ensures stayed { Stayed 2 self.old self.new }
    {
        self.steps.raise(2);
        after_two(self.rest, a, b).is_some()
    }

    /// Advances past the characters a and b if they are here, and returns whether they are. Costs
    /// two steps.
    #[inline(always)]
    pub fn eat_two(&mut self, a: char, b: char) -> bool
        ensures { AteTwo a b result self.old self.new }
    {
        self.steps.raise(2);
        match after_two(self.rest, a, b) {
            Some(rest) => {
                self.at += self.rest.len() - rest.len();
                self.rest = rest;
                true
            }
            None => false,
        }
    }

    /// Advances past the longest run of characters of a class. Costs a step for each, and one for
    /// the character after them.
    #[inline(always)]
    pub fn skip(&mut self, class: Class)
        ensures { Skips (in_class class) self.old self.new }
    {
        let (rest, count) = skip_class(self.rest, class);
        self.at += self.rest.len() - rest.len();
        self.rest = rest;
        self.steps.raise(count);
        self.steps.raise(1);
    }

    /// Advances to the first of the marks, and past the character there. Returns it, or `None` at the
    /// end of the text. Costs a step for each byte before it, and one for it.
    #[inline(always)]
    pub(crate) fn take_at(&mut self, marks: Marks) -> Option<char>
        ensures took { TookAfter (is_passed marks) result self.old self.new }
        ensures room { self.old.at + bytes self.old.rest < 2 ^ 64 }
    {
        let rest = skip_unmarked(self.rest, marks);
        let count = self.rest.len() - rest.len();
        self.at += count;
        self.rest = rest;
        self.steps.raise(count as u64 + 1);
        match split_first(rest) {
            Some((c, next)) => {
                self.at += rest.len() - next.len();
                self.rest = next;
                Some(c)
            }
            None => None,
        }
    }

    /// Advances past the decimal digits here, until their value is 2^59 or more. Returns their number,
    /// their value, and whether digits or `_` may follow them. Costs a step for each, and one for the
    /// character after them.
    #[inline(always)]
    pub(crate) fn skip_digits(&mut self) -> (usize, u64, bool)
        ensures { SkipsDigits result.0 result.1 result.2 self.old self.new }
    {
        let (rest, count, value, more) = skip_decimals(self.rest);
        self.at += count;
        self.rest = rest;
        self.steps.raise(count as u64 + 1);
        (count, value, more)
    }

    /// Returns the text from the checkpoint to here. Costs a step for each of its bytes.
    #[inline]
    pub fn slice(&mut self, from: &Checkpoint<'a>) -> Piece<'a>
        requires { Reached from.now self.old }
        ensures result { from.now.rest ≡ result ++ self.old.rest }
        ensures moved { self.new ≡ sliced result self.old }
    {
        let text = cut(from.rest, self.rest);
        self.steps.raise(text.len() as u64);
        Piece { text }
    }

    /// Returns the text from one checkpoint to a later one. Costs a step for each of its bytes.
    #[inline]
    pub fn slice_between(&mut self, from: &Checkpoint<'a>, to: &Checkpoint<'a>) -> Piece<'a>
        requires order { Ahead from.now to.now }
        requires part { IsPart self.old.text from.now.rest }
        ensures result { from.now.rest ≡ result ++ to.now.rest }
        ensures moved { self.new ≡ sliced result self.old }
    {
        let text = cut(from.rest, to.rest);
        self.steps.raise(text.len() as u64);
        Piece { text }
    }

    /// Returns the text from one checkpoint to a later one, for a reader that goes through it twice.
    /// Costs two steps for each of its bytes.
    #[inline]
    pub(crate) fn line_between(&mut self, from: &Checkpoint<'a>, to: &Checkpoint<'a>) -> &'a str
        requires order { Ahead from.now to.now }
        requires part { IsPart self.old.text from.now.rest }
        ensures result { from.now.rest ≡ chars result.now ++ to.now.rest }
        ensures moved { self.new ≡ sliced (chars result.now) (sliced (chars result.now) self.old) }
    {
        let line = cut(from.rest, to.rest);
        self.steps.raise(line.len() as u64);
        self.steps.raise(line.len() as u64);
        line
    }

    /// Takes the first character of the piece, if there is one. Costs a step.
    #[inline]
    pub(crate) fn take_of(&mut self, piece: &mut Piece<'a>) -> Option<char>
        ensures result { MatchOption result (piece.old ≡ []) (λ c. piece.old ≡ c ∷ piece.new) }
        ensures moved { self.new ≡ looked self.old }
    {
        self.steps.raise(1);
        match split_first(piece.text) {
            Some((c, rest)) => {
                piece.text = rest;
                Some(c)
            }
            None => None,
        }
    }
}

/// Advances past a newline if one begins here, and returns whether it does (KDL 2.0.0, Newline). CR
/// LF is one newline.
pub fn newline(cursor: &mut Cursor) -> bool
    ensures reads { ReadsNewline result cursor.old cursor.new }
    ensures moves { Moves cursor.old cursor.new }
    ensures costs { Costs 2 1 cursor.old cursor.new }
{
    match cursor.look() {
        Some('\r') => {
            cursor.step();
            let _ = cursor.eat('\n');
            true
        }
        Some(c) if is_newline_char(c) => {
            cursor.step();
            true
        }
        _ => false,
    }
}
