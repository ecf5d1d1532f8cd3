//! Multi-line strings, between three quotes.
#![tactic(auto, using(crate::proofs::Looking::Returns::advancing))]

ghost use Rattle.kdl_text.specs.Chars.{Newline, Text, is_newline_char};
ghost use Rattle.kdl_text.specs.Dedent.{lines_of, LineUnit};
ghost use Rattle.kdl_text.specs.Internal.Lines.{AreLines, BodyOf, IsLine, LinesOf, Paid, ReadPart, ReadsLine, ReadsOne};
ghost use Rattle.kdl_text.specs.MultiLine.{Content};
ghost use Rattle.kdl_text.specs.Raw.{literals};
ghost use Rattle.kdl_text.specs.Internal.Reading.{Consumed, Past};
ghost use Rattle.kdl_text.specs.declared.strings.StringFailure.TheVariants.{Memory};
ghost use Rattle.std.specs.Prelude.{◌≡◌, ◌∷◌, ◌++◌, List, ℕ, true, string_bytes, IfOk, IfErr, MatchResult};
ghost use Rattle.std.specs.Str.{chars};

use crate::chars::{Class, is_literal, is_newline_char};
use crate::cursor::{Cursor, newline};
use crate::strings::dedent::{Line, add_escape, add_line, dedent, escaped_line, plain_line};
use crate::strings::raw::raw_line;
use crate::strings::{StringFailure, StringFault, escaped_unit};
use std::alloc::Global;

/// After the first character c of a newline: advances past the rest of the newline.
pub fn end_newline(c: char, cursor: &mut Cursor)
    requires { is_newline_char c ≡ true }
    ensures { Consumed 1 1 (λ s rest. Newline (c ∷ s) rest) cursor.old cursor.new }
{
    if c == '\r' {
        let _ = cursor.eat('\n');
    }
}

/// Advances past literal characters, including quotes, and past what ends them in a multi-line
/// string. Returns whether three quotes do, or `None` for the backslash of an escape.
fn plain_part<'a>(cursor: &mut Cursor<'a>) -> Result<(&'a str, Option<bool>), StringFault>
    ensures found { IfOk result (λ (p, end). ReadPart end (chars p.now) cursor.old cursor.new) }
    ensures only { (r : Text) (us : List LineUnit) → Content cursor.old.rest r us → IfErr result (λ _. ⊥) }
    ensures past { Past 4 1 cursor.old cursor.new }
{
    let start = cursor.checkpoint();
    'runs: loop {
        let end = cursor.checkpoint();
        match cursor.take() {
            Some('"') => {
                if cursor.eat('"') && cursor.eat('"') {
                    return Ok((cursor.line_between(&start, &end), Some(true)));
                }
            }
            Some('\\') => return Ok((cursor.line_between(&start, &end), None)),
            Some(c) if is_newline_char(c) => {
                end_newline(c, cursor);
                return Ok((cursor.line_between(&start, &end), Some(false)));
            }
            Some(c) if is_literal(c) => cursor.skip(Class::Literal),
            Some(_) => return Err(StringFault::Banned),
            None => return Err(StringFault::Unclosed),
        }
    }
}

/// After the backslash of the first escape of a line, which begins with `front`: reads the rest of the line.
/// Returns whether three quotes end it.
fn line_escapes<'a>(
    alloc: Global,
    cursor: &mut Cursor<'a>,
    front: &str,
) -> Result<(Line<'a>, bool), StringFailure>
    ensures found { IfOk result (λ (line, closed). (us : List LineUnit)
        × IsLine line (literals (chars front.now) ++ us)
        × ReadsLine Content closed (92 ∷ cursor.old.rest) us cursor.new.rest) }
    ensures paid { IfOk result (λ _. Paid cursor.old cursor.new) }
    ensures only { (r : Text) (us : List LineUnit) → Content (92 ∷ cursor.old.rest) r us
        → IfErr result (λ e. e ≡ Memory) }
    ensures past { Past 4 1 cursor.old cursor.new }
{
    let mut text = String::from_str(alloc, front)?;
    let mut literal = front.len();
    'escapes: loop {
        let value = escaped_unit(cursor)?;
        let (after, end) = plain_part(cursor)?;
        literal = add_escape(&mut text, literal, value, after)?;
        if let Some(closed) = end {
            return Ok((escaped_line(text, literal), closed));
        }
    }
}

/// Reads a line, and the newline or the three quotes that end it. Returns whether three quotes do.
fn quoted_line<'a>(
    alloc: Global,
    cursor: &mut Cursor<'a>,
) -> Result<(Line<'a>, bool), StringFailure>
    ensures { ReadsOne Content result cursor.old cursor.new }
{
    let (text, end) = plain_part(cursor)?;
    match end {
        Some(closed) => Ok((plain_line(text), closed)),
        None => line_escapes(alloc, cursor, text),
    }
}

/// Reads a line, and the newline that ends it or the closing, which has so many number signs. Returns
/// whether the closing ends it.
fn read_line<'a>(
    alloc: Global,
    cursor: &mut Cursor<'a>,
    signs: usize,
) -> Result<(Line<'a>, bool), StringFailure>
    ensures { ReadsOne (LinesOf signs) result cursor.old cursor.new }
{
    if signs == 0 {
        return quoted_line(alloc, cursor);
    }
    raw_line(cursor, signs)
}

/// Reads the lines up to the closing, and the closing.
fn content<'a>(
    alloc: Global,
    cursor: &mut Cursor<'a>,
    signs: usize,
) -> Result<Vec<Line<'a>>, StringFailure>
    ensures found { IfOk result (λ ls. (us : List LineUnit) × LinesOf signs cursor.old.rest cursor.new.rest us
        × AreLines ls.items (lines_of us)) }
    ensures only { (r : Text) (us : List LineUnit) → LinesOf signs cursor.old.rest r us
        → IfErr result (λ e. e ≡ Memory) }
    ensures past { Past 4 1 cursor.old cursor.new }
{
    let mut lines = Vec::new(alloc);
    'lines: loop {
        let (line, closed) = read_line(alloc, cursor, signs)?;
        add_line(&mut lines, line)?;
        if closed {
            return Ok(lines);
        }
    }
}

/// After the three quotes that begin it: reads the rest of a multi-line string, which has so many
/// number signs, and returns its value.
pub fn many_lines(alloc: Global, cursor: &mut Cursor, signs: usize) -> Result<String, StringFailure>
    ensures found { IfOk result (λ v. BodyOf signs cursor.old.rest cursor.new.rest (chars (string_bytes v))) }
    ensures only { (r w : List ℕ) → BodyOf signs cursor.old.rest r w
        → MatchResult result (λ v. (r ≡ cursor.new.rest) × (w ≡ chars (string_bytes v))) (λ e. e ≡ Memory) }
    ensures past { Past 4 4 cursor.old cursor.new }
{
    if !newline(cursor) {
        return Err(StringFailure::Fault(match signs {
            0 => StringFault::NoNewline,
            _ => StringFault::LooksMultiLine,
        }));
    }
    let lines = content(alloc, cursor, signs)?;
    dedent(alloc, &lines)
}
