//! Dedent: the value of the lines of a multi-line string.

ghost use Rattle.kdl_text.specs.Chars.{Text, is_space};
ghost use Rattle.kdl_text.specs.Dedent as spec;
ghost use Rattle.kdl_text.specs.Dedent.{LineUnit, LineValue, LineValues, joined, lines_of};
ghost use Rattle.kdl_text.specs.Internal.Lines.{AreLines, Dedented, IsLine, Spells, lines_room};
ghost use Rattle.kdl_text.specs.MultiLine.{kept};
ghost use Rattle.kdl_text.specs.Raw.{literals};
ghost use Rattle.kdl_text.specs.Strings.{escape_of};
ghost use Rattle.kdl_text.specs.declared.strings.StringFailure.TheVariants.{Memory};
ghost use Rattle.std.specs.Prelude.{◌≡◌, ◌++◌, ◌∷◌, [], ◌≤◌, List, string_bytes, IfOk, IfErr, OnOk, MatchOption};
ghost use Rattle.std.specs.List.{list_all};
ghost use Rattle.std.specs.Str.{chars};

use crate::chars::is_space;
use crate::strings::{StringFailure, StringFault};
use std::alloc::{AllocError, Global};
use std::borrow::CowStr;

/// A line of a multi-line string, without its newline.
#[derive(Drop)]
pub struct Line<'a> {
    /// Its characters, also those of escapes.
    pub text: CowStr<'a, Global>,
    /// How many bytes come before the first escape that is a character.
    pub literal: usize,
}

/// A line without escapes.
#[inline]
pub fn plain_line(text: &str) -> Line<'_>
    ensures { IsLine result (literals (chars text.now)) }
{
    Line {
        text: CowStr::Borrowed(text),
        literal: text.len(),
    }
}

/// A line with escapes, of this text. `literal` bytes come before the first escape that is a character.
pub fn escaped_line<'a>(text: String, literal: usize) -> Line<'a>
    ensures { (us : List LineUnit) → Spells (string_bytes text) literal us → IsLine result us }
{
    Line {
        text: CowStr::Owned(text),
        literal,
    }
}

/// How many lines to reserve for a string at first.
const LINES: usize = 16;

/// Appends a line.
pub fn add_line<'a>(lines: &mut Vec<Line<'a>>, line: Line<'a>) -> Result<(), AllocError>
    ensures { IfOk result (λ _. lines.new.items ≡ lines.old.items ++ line.entry ∷ []) }
{
    if lines.capacity() < LINES {
        lines.reserve(LINES)?;
    }
    lines.push(line)?;
    Ok(())
}

/// Appends an escape and the characters after it to the text of a line. Returns how many bytes of the
/// text come before the first escape that is a character.
pub fn add_escape(
    text: &mut String,
    literal: usize,
    value: Option<char>,
    after: &str,
) -> Result<usize, AllocError>
    ensures { IfOk result (λ n. (us : List LineUnit) → Spells (string_bytes text.old) literal us
        → Spells (string_bytes text.new) n (us ++ (kept (escape_of value) ++ literals (chars after.now)))) }
{
    let Some(c) = value else {
        let is_literal = literal == text.len();
        text.push_str(after)?;
        return Ok(if is_literal { text.len() } else { literal });
    };
    text.push(c)?;
    text.push_str(after)?;
    Ok(literal)
}

/// Whether the text is only spaces.
fn is_all_space(text: &str) -> bool
    ensures { result ≡ list_all is_space (chars text.now) }
{
    text.chars().all(|c| is_space(c))
}

/// Whether the line is only spaces. An escape is not a space.
fn is_blank(line: &Line) -> bool
    ensures { (us : List LineUnit) → IsLine line.now us → result ≡ spec.is_blank_line us }
{
    let text = line.text.as_str();
    let is_literal = line.literal == text.len();
    is_literal && is_all_space(text)
}

/// The text of the line after the prefix, if the line begins with it.
fn after_prefix<'b>(line: &'b Line, prefix: &str) -> Option<&'b str>
    ensures { (us : List LineUnit) → IsLine line.now us → MatchOption result
        ((m : List LineUnit) → us ≡ literals (chars prefix.now) ++ m → ⊥)
        (λ rest. (m : List LineUnit) × (us ≡ literals (chars prefix.now) ++ m) × (chars rest.now ≡ spec.line_text m)) }
{
    let text = line.text.as_str();
    if line.literal < prefix.len() {
        return None;
    }
    text.strip_prefix(prefix)
}

/// Appends the value of a line.
fn push_line(out: &mut String, prefix: &str, line: &Line) -> Result<(), StringFailure>
    ensures done { OnOk result ((us : List LineUnit) → IsLine line.now us
        → (v : Text) × LineValue (literals (chars prefix.now)) us v
        × (chars (string_bytes out.new) ≡ chars (string_bytes out.old) ++ v)) }
    ensures failed { IfErr result (λ e. (e ≡ Memory → ⊥) → (us : List LineUnit) (v : Text) → IsLine line.now us
        → LineValue (literals (chars prefix.now)) us v → ⊥) }
{
    if is_blank(line) {
        return Ok(());
    }
    let Some(rest) = after_prefix(line, prefix) else {
        return Err(StringFailure::Fault(StringFault::NoPrefix));
    };
    out.push_str(rest)?;
    Ok(())
}

/// Appends the values of the lines, joined by line feeds.
fn push_lines(out: &mut String, prefix: &str, lines: &[Line]) -> Result<(), StringFailure>
    requires { string_bytes out.old ≡ [] }
    ensures found { OnOk result ((uss : List (List LineUnit)) → AreLines lines.now uss
        → (vs : List Text) × LineValues (literals (chars prefix.now)) uss vs
        × (chars (string_bytes out.new) ≡ joined vs)) }
    ensures only { (uss : List (List LineUnit)) (vs : List Text) → AreLines lines.now uss
        → LineValues (literals (chars prefix.now)) uss vs → IfErr result (λ e. e ≡ Memory) }
{
    for line in lines {
        match push_line(out, prefix, line) {
            Ok(()) => {}
            Err(e) => return Err(e),
        }
        out.push('\n')?;
    }
    let _ = out.pop();
    Ok(())
}

/// The number of bytes to reserve before the values of the lines after the prefix are appended, each
/// with a line feed.
fn room_for(lines: &[Line], prefix: usize) -> usize
    ensures { result ≤ lines_room lines.now }
{
    let mut room: usize = 0;
    for line in lines {
        room = room
            .saturating_add(line.text.len().saturating_sub(prefix))
            .saturating_add(1);
    }
    room
}

/// Returns the value of the lines but the last, whose spaces are removed from the front of the
/// others (KDL 2.0.0, Multi-line String). Fails if the last line is not only spaces, or if another
/// line neither begins with these spaces nor is only spaces.
pub fn dedent(alloc: Global, lines: &[Line]) -> Result<String, StringFailure>
    ensures { (us : List LineUnit) → AreLines lines.now (lines_of us) → Dedented us result }
{
    let Some((last, front)) = lines.split_last() else {
        return Ok(String::new(alloc));
    };
    if !is_blank(last) {
        return Err(StringFailure::Fault(StringFault::BadLastLine));
    }
    let prefix = last.text.as_str();
    let mut out = String::with_capacity(alloc, room_for(front, prefix.len()))?;
    match push_lines(&mut out, prefix, front) {
        Ok(()) => Ok(out),
        Err(e) => Err(e),
    }
}
