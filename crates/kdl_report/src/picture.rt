//! The picture of a fault, as rustc and miette draw it.

ghost use Rattle.kdl_report.specs.Hints.{hint_of};
ghost use Rattle.kdl_report.specs.Picture as picture;
ghost use Rattle.kdl_report.specs.Picture.{arrow, caret_line, empty_line, gap, head, location, marked_line, marked_lines, notes, paint, source_line, spaced};
ghost use Rattle.kdl_report.specs.Shown.{Appends, text_of};
ghost use Rattle.kdl_report.specs.Spots.{excerpt_row};
ghost use Rattle.std.specs.Prelude.{◌≡◌, ◌==◌, ◌++◌, IfOk, None, chars, length, option_map};

use crate::hints::hint_on;
use crate::places::{Lines, Place};
use crate::shown::{
    digits, put, put_carets, put_char, put_columns, put_number, put_shown, put_times,
};
use crate::window::Excerpt;
use crate::words::{label_of, message_of, optional, word_of};
use kdl_text::error::KdlDiagnostic;
use kdl_text::span::Severity;
use std::alloc::{AllocError, Global};

/// Bold text.
const BOLD: &str = "\u{1b}[1m";

/// Bold blue text.
const BLUE: &str = "\u{1b}[1;34m";

/// Plain text.
const PLAIN: &str = "\u{1b}[0m";

/// The style of the margin: its width in digits, and whether there are colours.
#[derive(Clone, Copy)]
struct Margin {
    width: usize,
    color: bool,
}

/// Draws a fault of the text, in lines that each end with a newline.
///
/// It shows the line in which the span begins and, if it ends in another one, that line too: at most 200 columns around
/// the start of the span, with `…` where the line is cut. Carets mark the characters of the span in them, and an empty
/// span by one caret. A tab is shown as four spaces, and a control character, like any
/// other that KDL bans, as U+FFFD, in the text, the name and the messages. Columns are those of `unicode_width`, by
/// character. The help of the diagnostic and a `hint` follow. With `color`, the picture has escapes for a terminal.
pub fn render(
    alloc: Global,
    name: &str,
    lines: &Lines<'_>,
    fault: &KdlDiagnostic,
    color: bool,
) -> Result<String, AllocError>
    ensures { IfOk result (λ out. text_of out ≡ picture.picture color (chars name.now) lines.now
        fault.now (option_map chars (hint_of lines.now fault.now))) }
{
    let mut out = String::new(alloc);
    let hint = hint_on(lines.rest(fault.span.offset));
    draw(&mut out, name, lines, fault, hint, color)?;
    Ok(out)
}

/// Draws a fault of a text that is no document, such as a query: as `render` does, but without a hint.
pub fn render_without_hint(
    alloc: Global,
    name: &str,
    lines: &Lines<'_>,
    fault: &KdlDiagnostic,
    color: bool,
) -> Result<String, AllocError>
    ensures { IfOk result (λ out. text_of out ≡ picture.picture color (chars name.now) lines.now fault.now None) }
{
    let mut out = String::new(alloc);
    draw(&mut out, name, lines, fault, None, color)?;
    Ok(out)
}

/// Appends the picture of the fault.
fn draw(
    out: &mut String,
    name: &str,
    lines: &Lines<'_>,
    fault: &KdlDiagnostic,
    hint: Option<&str>,
    color: bool,
) -> Result<(), AllocError>
    ensures { Appends result out.old out.new
        (picture.picture color (chars name.now) lines.now fault.now (option_map (λ s. chars s.now) hint.entry)) }
{
    let place = lines.place(fault.span.offset);
    let (first, last) = lines.excerpts(fault.span);
    let margin = Margin {
        width: margin_width(&first, &last),
        color,
    };
    put_head(out, fault, color)?;
    put_arrow(out, margin, name, place)?;
    put_empty_line(out, margin)?;
    put_excerpts(out, margin, fault, &first, &last)?;
    put_notes(out, margin, optional(&fault.help), hint)
}

/// The digits of the number of the last line that is shown.
fn margin_width(first: &Excerpt<'_>, last: &Option<Excerpt<'_>>) -> usize
    ensures { result ≡ picture.margin_width (excerpt_row first.now) (option_map excerpt_row last.now) }
{
    match last {
        Some(last) => digits(last.number),
        None => digits(first.number),
    }
}

/// The style of a severity.
fn style_of(severity: Severity) -> &'static str
    ensures { result.now ≡ picture.style_of severity }
{
    match severity {
        Severity::Error => "\u{1b}[1;31m",
        Severity::Warning => "\u{1b}[1;33m",
        Severity::Advice => "\u{1b}[1;36m",
    }
}

/// Appends an escape, if there are colours.
fn put_paint(out: &mut String, color: bool, style: &str) -> Result<(), AllocError>
    ensures { Appends result out.old out.new (paint color style.now) }
{
    if color { put(out, style) } else { Ok(()) }
}

/// Appends the severity and the message.
fn put_head(out: &mut String, fault: &KdlDiagnostic, color: bool) -> Result<(), AllocError>
    ensures { Appends result out.old out.new (head color fault.now) }
{
    put_paint(out, color, style_of(fault.severity))?;
    put(out, word_of(fault.severity))?;
    put_paint(out, color, PLAIN)?;
    put_paint(out, color, BOLD)?;
    put(out, ": ")?;
    put_shown(out, message_of(fault))?;
    put_paint(out, color, PLAIN)?;
    put_char(out, '\n')
}

/// Appends the name, the line and the column.
pub(crate) fn put_location(out: &mut String, name: &str, place: Place) -> Result<(), AllocError>
    ensures { Appends result out.old out.new (location (chars name.now) place) }
{
    put_shown(out, name)?;
    put_char(out, ':')?;
    put_number(out, place.line)?;
    put_char(out, ':')?;
    put_number(out, place.column)
}

/// Appends the line with the place of the fault.
fn put_arrow(out: &mut String, margin: Margin, name: &str, place: Place) -> Result<(), AllocError>
    ensures { Appends result out.old out.new (arrow margin.color margin.width (chars name.now) place) }
{
    put_times(out, margin.width, ' ')?;
    put_paint(out, margin.color, BLUE)?;
    put(out, "-->")?;
    put_paint(out, margin.color, PLAIN)?;
    put_char(out, ' ')?;
    put_location(out, name, place)?;
    put_char(out, '\n')
}

/// Appends the margin of a line without a number.
fn put_margin(out: &mut String, margin: Margin, bar: char) -> Result<(), AllocError>
    ensures { Appends result out.old out.new (picture.margin margin.color margin.width bar) }
{
    put_times(out, margin.width, ' ')?;
    put_char(out, ' ')?;
    put_paint(out, margin.color, BLUE)?;
    put_char(out, bar)?;
    put_paint(out, margin.color, PLAIN)
}

/// Appends a line with a margin alone.
fn put_empty_line(out: &mut String, margin: Margin) -> Result<(), AllocError>
    ensures { Appends result out.old out.new (empty_line margin.color margin.width) }
{
    put_margin(out, margin, '|')?;
    put_char(out, '\n')
}

/// Appends what is shown for the text after a space, and nothing for the empty text.
fn put_spaced(out: &mut String, text: &str) -> Result<(), AllocError>
    ensures { Appends result out.old out.new (spaced (chars text.now)) }
{
    if text.is_empty() {
        return Ok(());
    }
    put_char(out, ' ')?;
    put_shown(out, text)
}

/// Appends what is shown of a line after a space, and nothing for an empty line.
fn put_line(out: &mut String, excerpt: &Excerpt<'_>) -> Result<(), AllocError>
    ensures { Appends result out.old out.new (spaced (excerpt_row excerpt.now).line) }
{
    if is_blank(excerpt) {
        return Ok(());
    }
    put_char(out, ' ')?;
    put_shown(out, excerpt.before)?;
    put_shown(out, excerpt.left)?;
    put_shown(out, excerpt.right)?;
    put_shown(out, excerpt.after)
}

/// Whether nothing is shown of a line.
fn is_blank(excerpt: &Excerpt<'_>) -> bool
    ensures { result ≡ (length (excerpt_row excerpt.now).line == 0) }
{
    are_empty(excerpt.before, excerpt.left) & are_empty(excerpt.right, excerpt.after)
}

/// Whether both texts are empty.
fn are_empty(a: &str, b: &str) -> bool
    ensures { result ≡ (length (chars a.now ++ chars b.now) == 0) }
{
    a.is_empty() & b.is_empty()
}

/// Appends a line of the text, with its number.
fn put_source(out: &mut String, margin: Margin, excerpt: &Excerpt<'_>) -> Result<(), AllocError>
    ensures { Appends result out.old out.new (source_line margin.color margin.width (excerpt_row excerpt.now)) }
{
    let blanks = margin.width.saturating_sub(digits(excerpt.number));
    put_paint(out, margin.color, BLUE)?;
    put_number(out, excerpt.number)?;
    put_times(out, blanks, ' ')?;
    put(out, " |")?;
    put_paint(out, margin.color, PLAIN)?;
    put_line(out, excerpt)?;
    put_char(out, '\n')
}

/// Appends the carets for the marked part of a line, and the label.
fn put_marks(
    out: &mut String,
    margin: Margin,
    severity: Severity,
    excerpt: &Excerpt<'_>,
    label: &str,
) -> Result<(), AllocError>
    ensures { Appends result out.old out.new
        (caret_line margin.color margin.width severity (excerpt_row excerpt.now) (chars label.now)) }
{
    put_margin(out, margin, '|')?;
    put_char(out, ' ')?;
    let _ = put_columns(out, excerpt.before, ' ')?;
    let _ = put_columns(out, excerpt.left, ' ')?;
    put_paint(out, margin.color, style_of(severity))?;
    put_carets(out, excerpt.marked)?;
    put_spaced(out, label)?;
    put_paint(out, margin.color, PLAIN)?;
    put_char(out, '\n')
}

/// Appends a line of the text with its marks.
fn put_excerpt(
    out: &mut String,
    margin: Margin,
    severity: Severity,
    excerpt: &Excerpt<'_>,
    label: &str,
) -> Result<(), AllocError>
    ensures { Appends result out.old out.new
        (marked_line margin.color margin.width severity (excerpt_row excerpt.now) (chars label.now)) }
{
    put_source(out, margin, excerpt)?;
    put_marks(out, margin, severity, excerpt, label)
}

/// Appends dots, if the lines do not follow each other.
fn put_gap(out: &mut String, first: &Excerpt<'_>, last: &Excerpt<'_>) -> Result<(), AllocError>
    ensures { Appends result out.old out.new (gap (excerpt_row first.now) (excerpt_row last.now)) }
{
    if last.number.saturating_sub(first.number) > 1 {
        put(out, "...\n")
    } else {
        Ok(())
    }
}

/// Appends the lines of the text with their marks, and the label at the last one.
fn put_excerpts(
    out: &mut String,
    margin: Margin,
    fault: &KdlDiagnostic,
    first: &Excerpt<'_>,
    last: &Option<Excerpt<'_>>,
) -> Result<(), AllocError>
    ensures { Appends result out.old out.new (marked_lines margin.color margin.width fault.now
        (excerpt_row first.now) (option_map excerpt_row last.now)) }
{
    let label = label_of(fault);
    match last {
        Some(last) => {
            put_excerpt(out, margin, fault.severity, first, "")?;
            put_gap(out, first, last)?;
            put_excerpt(out, margin, fault.severity, last, label)
        }
        None => put_excerpt(out, margin, fault.severity, first, label),
    }
}

/// Appends a line with a note, if there is one.
fn put_note(
    out: &mut String,
    margin: Margin,
    kind: &str,
    note: Option<&str>,
) -> Result<(), AllocError>
    ensures { Appends result out.old out.new
        (picture.note margin.color margin.width kind.now (option_map (λ s. chars s.now) note.entry)) }
{
    let Some(text) = note else {
        return Ok(());
    };
    put_margin(out, margin, '=')?;
    put_char(out, ' ')?;
    put(out, kind)?;
    put(out, ": ")?;
    put_shown(out, text)?;
    put_char(out, '\n')
}

/// Appends the notes, after an empty line.
fn put_notes(
    out: &mut String,
    margin: Margin,
    help: Option<&str>,
    hint: Option<&str>,
) -> Result<(), AllocError>
    ensures { Appends result out.old out.new (notes margin.color margin.width
        (option_map (λ s. chars s.now) help.entry) (option_map (λ s. chars s.now) hint.entry)) }
{
    if help.is_some() || hint.is_some() {
        put_empty_line(out, margin)?;
    }
    put_note(out, margin, "help", help)?;
    put_note(out, margin, "hint", hint)
}
