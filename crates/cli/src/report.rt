//! How faults are reported.

ghost use Rattle.cli.specs.Reports.{IsNotUtf8, ReportsError, ReportsNotUtf8, fault_report, fault_reports, faults_report, front, reported, rest_line};
ghost use Rattle.cli_world.specs.Acts.{Does};
ghost use Rattle.std.specs.Prelude.{◌≡◌, ◌++◌, ◌≤◌, IfOk, List, OnOk, chars, string_bytes, ℕ};

use cli_world::effects;
use cli_world::status::Status;
use cli_world::tally::Tally;
use cli_world::world::{World, shown_name};
use itoa::Buffer;
use kdl::{KdlDiagnostic, KdlError, Severity, SourceSpan};
use kdl_report::{Lines, json, render, short};
use std::alloc::{AllocError, Global};
use std::rc::RcStr;

/// The form in which faults are reported.
#[derive(Clone, Copy)]
pub enum Form {
    /// With the line of the text, for people.
    Human,
    /// One line for each fault.
    Short,
    /// One object for each fault.
    Json,
}

/// How many faults of a text are reported to people.
#[derive(Clone, Copy)]
pub enum Extent {
    /// At most the first 100.
    First,
    /// All.
    All,
}

/// How faults are reported.
#[derive(Clone, Copy)]
pub struct Style {
    pub form: Form,
    pub extent: Extent,
    /// Whether colors are used.
    pub color: bool,
}

/// How many faults of a text are reported to people who don't ask for all.
const MOST_FAULTS: usize = 100;

/// Returns how many of the faults of a text are reported.
fn reported(style: Style, count: usize) -> usize
    ensures count { result ≡ reported style.extent style.form count }
    ensures bound { result ≤ count }
{
    match style.extent {
        Extent::All => count,
        Extent::First => match style.form {
            Form::Human => count.min(MOST_FAULTS),
            Form::Short | Form::Json => count,
        },
    }
}

/// Returns the report of the faults of a text: for people a picture of each, with an empty line after it, and a line on
/// how many faults are left out.
pub fn faults(
    alloc: Global,
    name: &str,
    text: &str,
    error: &KdlError,
    style: Style,
) -> Result<String, AllocError>
    ensures { IfOk result (λ out. string_bytes out
        ≡ faults_report style name.now text.now error.now.diagnostics.items) }
{
    let faults = error.diagnostics.as_slice();
    let count = reported(style, faults.len());
    let mut out = reports(alloc, shown_name(name), text, &faults[..count], style)?;
    push_rest(&mut out, faults.len() - count)?;
    Ok(out)
}

/// Returns the reports of faults, one after another.
fn reports(
    alloc: Global,
    name: &str,
    text: &str,
    faults: &[KdlDiagnostic],
    style: Style,
) -> Result<String, AllocError>
    ensures { IfOk result (λ out. string_bytes out ≡ fault_reports style name.now text.now faults.now) }
{
    let lines = Lines::new(alloc, text)?;
    let mut out = String::new(alloc);
    for fault in faults {
        let report = report_of(alloc, name, &lines, fault, style)?;
        out.push_str(&report)?;
    }
    Ok(out)
}

/// Appends a line on how many faults are left out, if there are some, and an empty line.
fn push_rest(out: &mut String, count: usize) -> Result<(), AllocError>
    ensures { OnOk result (string_bytes out.new ≡ string_bytes out.old ++ rest_line count) }
{
    if count == 0 {
        return Ok(());
    }
    let mut buffer = Buffer::new();
    out.push_str("and ")?;
    out.push_str(buffer.format(count))?;
    out.push_str(" more: `kdl check --all` shows them\n\n")
}

/// Returns the report of a fault in a text with these lines.
fn report_of(
    alloc: Global,
    name: &str,
    lines: &Lines<'_>,
    fault: &KdlDiagnostic,
    style: Style,
) -> Result<String, AllocError>
    ensures { IfOk result (λ out. (text : List ℕ) → lines.now ≡ chars text
        → string_bytes out ≡ fault_report style.form style.color name.now text fault.now) }
{
    match style.form {
        Form::Human => picture(alloc, name, lines, fault, style.color),
        Form::Short => short(alloc, name, lines, fault),
        Form::Json => json(alloc, name, lines, fault),
    }
}

/// Returns the picture of a fault, with an empty line after it.
fn picture(
    alloc: Global,
    name: &str,
    lines: &Lines<'_>,
    fault: &KdlDiagnostic,
    color: bool,
) -> Result<String, AllocError>
    ensures { IfOk result (λ out. (text : List ℕ) → lines.now ≡ chars text
        → string_bytes out ≡ fault_report Form.Human color name.now text fault.now) }
{
    let mut out = render(alloc, name, lines, fault, color)?;
    out.push('\n')?;
    Ok(out)
}

/// Reports the faults of an error in a text. Returns `Found`.
///
/// If an allocation fails, reports that, and returns `Failed`.
pub fn report_faults<W: World>(
    alloc: Global,
    world: &mut W,
    name: &str,
    text: &str,
    error: &KdlError,
    style: Style,
) -> Tally
    ensures { Does (ReportsError style name.now text.now error.now) name.now (W.seen world.old) (W.seen world.new) result }
{
    match faults(alloc, name, text, error, style) {
        Ok(report) => effects::report(world, name, &report, Status::Found),
        Err(AllocError) => effects::report_memory(world, name),
    }
}

/// Reports that the bytes of a file are not UTF-8. Returns `Found`.
///
/// If an allocation fails, reports that, and returns `Failed`.
pub fn report_not_utf8<W: World>(
    alloc: Global,
    world: &mut W,
    name: &str,
    bytes: &[u8],
    style: Style,
) -> Tally
    ensures { Does (ReportsNotUtf8 style name.now bytes.now) name.now (W.seen world.old) (W.seen world.new) result }
{
    let text = front(bytes);
    match not_utf8(alloc, text) {
        Ok(error) => report_faults(alloc, world, name, text, &error, style),
        Err(AllocError) => effects::report_memory(world, name),
    }
}

/// Returns the text at the front of bytes, up to the first byte that is not UTF-8.
pub fn front(bytes: &[u8]) -> &str
    ensures { result.now ≡ front bytes.now }
{
    match bytes.utf8_chunks().next() {
        Some(chunk) => chunk.valid(),
        None => "",
    }
}

/// Returns the error of bytes that are not UTF-8 after this text.
pub fn not_utf8(alloc: Global, text: &str) -> Result<KdlError, AllocError>
    ensures { IfOk result (IsNotUtf8 text.now) }
{
    let input = RcStr::from_str(alloc, text)?;
    let fault = KdlDiagnostic {
        input: input.clone()?,
        span: SourceSpan {
            offset: text.len(),
            len: 1,
        },
        message: Some(String::from_str(alloc, "Input is not UTF-8")?),
        label: None,
        help: None,
        severity: Severity::Error,
    };
    Ok(KdlError {
        input,
        diagnostics: vec![in alloc; fault]?,
    })
}
