//! A fault as a JSON object.

ghost use Rattle.kdl_report.specs.Object.{Puts, fault_json, number_member, place_members, text_member, word_members};
ghost use Rattle.std.specs.Prelude.{◌≡◌, IfOk, option_map, string_bytes};

use crate::hints::hint_on;
use crate::places::Lines;
use crate::words::{optional, word_of};
use json::Writer;
use kdl_text::error::KdlDiagnostic;
use std::alloc::{AllocError, Global};

/// Returns a fault of the text as a JSON object on one line, and a newline.
///
/// Its members are, in this order: `file`, the name; `line` and `column`, from 1; `offset` and `length`, the span in bytes;
/// `severity`, one of `error`, `warning` and `advice`; `message`, `label` and `help`, which are null if the diagnostic has
/// none; and `hint`, which is null if there is none.
pub fn json(
    alloc: Global,
    name: &str,
    lines: &Lines<'_>,
    fault: &KdlDiagnostic,
) -> Result<String, AllocError>
    ensures { IfOk result (λ out. string_bytes out ≡ fault_json name.now lines.now fault.now) }
{
    let mut out = Writer::new(Vec::new(alloc));
    out.begin_object()?;
    out.key("file")?;
    out.string(name)?;
    put_place(&mut out, lines, fault)?;
    put_words(&mut out, fault)?;
    put_optional(&mut out, "hint", hint_on(lines.rest(fault.span.offset)))?;
    out.end_object()?;
    let mut text = String::from_utf8(out.into_inner()).unwrap();
    text.push('\n')?;
    Ok(text)
}

/// Writes where the fault is.
fn put_place(
    out: &mut Writer<Global>,
    lines: &Lines<'_>,
    fault: &KdlDiagnostic,
) -> Result<(), AllocError>
    ensures { Puts result out.old out.new (place_members lines.now fault.now) }
{
    let place = lines.place(fault.span.offset);
    put_number(out, "line", place.line)?;
    put_number(out, "column", place.column)?;
    put_number(out, "offset", fault.span.offset)?;
    put_number(out, "length", fault.span.len)
}

/// Writes what the diagnostic says.
fn put_words(out: &mut Writer<Global>, fault: &KdlDiagnostic) -> Result<(), AllocError>
    ensures { Puts result out.old out.new (word_members fault.now) }
{
    out.key("severity")?;
    out.string(word_of(fault.severity))?;
    put_optional(out, "message", optional(&fault.message))?;
    put_optional(out, "label", optional(&fault.label))?;
    put_optional(out, "help", optional(&fault.help))
}

/// Writes a member that is a number.
fn put_number(out: &mut Writer<Global>, key: &str, n: usize) -> Result<(), AllocError>
    ensures { Puts result out.old out.new (number_member key.now n) }
{
    out.key(key)?;
    out.u64(n as u64)
}

/// Writes a member that is a text, or null.
fn put_optional(out: &mut Writer<Global>, key: &str, text: Option<&str>) -> Result<(), AllocError>
    ensures { Puts result out.old out.new
        (text_member key.now (option_map (λ s. s.now) text.entry)) }
{
    out.key(key)?;
    match text {
        Some(text) => out.string(text),
        None => out.null(),
    }
}
