//! The error of a refused text.

ghost use Rattle.kdl_diagnostics.specs.Internal.Noted.{Counted, IsFrontOf, Noted, OnRefused};
ghost use Rattle.kdl_diagnostics.specs.Internal.Outsets.{IsStopped};
ghost use Rattle.kdl_diagnostics.specs.TextControl.{Accepts};
ghost use Rattle.kdl_text.specs.Failures.{IsToldOf, Tells, TellsOf};
ghost use Rattle.kdl_text.specs.Spans.{InText, raise};
ghost use Rattle.std.specs.Prelude.{◌≡◌, ◌↔◌, ◌+◌, ◌*◌, ◌<◌, ◌≤◌, [], false, length, true, IfOk, OnOk};
ghost use Rattle.std.specs.Rc.{rc_str_bytes};
ghost use Rattle.std.specs.Str.{chars};

use crate::front::Prefix;
use crate::notes::Fault;
use crate::reader::Reader;
use crate::whole::Whole;
use kdl_text::cursor::{Cursor, Steps};
use kdl_text::error::{KdlDiagnostic, KdlError, ParseFailure};
use kdl_text::span::Severity;
use std::alloc::{AllocError, Global};
use std::mem;
use std::rc::RcStr;

/// The diagnostic of a fault in the text.
fn diagnostic(alloc: Global, input: &RcStr, fault: Fault) -> Result<KdlDiagnostic, AllocError>
    requires { InText (chars (rc_str_bytes input.now)) fault.span }
    ensures { IfOk result (IsToldOf (rc_str_bytes input.now)) }
{
    let (message, label) = fault.kind.message();
    let help = match fault.kind.help() {
        Some(help) => Some(String::from_str(alloc, help)?),
        None => None,
    };
    Ok(KdlDiagnostic {
        input: input.clone()?,
        span: fault.span,
        message: Some(String::from_str(alloc, message)?),
        label: Some(String::from_str(alloc, label)?),
        help,
        severity: Severity::Error,
    })
}

/// The error of a text with these faults, in this order.
fn error_of(alloc: Global, text: &str, faults: &[Fault]) -> Result<KdlError, AllocError>
    requires some { 0 < length faults.now }
    requires noted { Noted (chars text.now) faults.now }
    ensures { IfOk result (Tells text.now) }
{
    let input = RcStr::from_str(alloc, text)?;
    let mut diagnostics = Vec::new(alloc);
    for fault in faults {
        diagnostics.push(diagnostic(alloc, &input, *fault)?)?;
    }
    Ok(KdlError { input, diagnostics })
}

/// Reads a text up to its first fault. Adds the steps to the count.
fn read_front<'a>(
    alloc: Global,
    text: &'a str,
    whole: Whole,
    steps: &mut Steps,
) -> Result<Prefix<'a>, AllocError>
    ensures front { IfOk result (IsFrontOf (chars text.now)) }
    ensures exact { IfOk result (λ f. f.is_accepted ≡ true ↔ Accepts whole (chars text.now)) }
    ensures stopped { IfOk result (λ f. f.is_accepted ≡ false → IsStopped f) }
    ensures most { OnOk result (steps.new ≤ steps.old + (24 * length text.now + 25)) }
    ensures raised { raise steps.old 0 ≤ raise steps.new 0 }
{
    let mut cursor = Cursor::new(text, mem::replace(steps, Steps::new()));
    let mut front = Prefix::new(alloc, whole, cursor.checkpoint());
    let answer = front.read(&mut cursor);
    *steps = cursor.into_steps();
    answer?;
    Ok(front)
}

/// The faults of a refused text from its front on. Adds the steps of reading to the count.
fn recovered(text: &str, front: Prefix<'_>, steps: &mut Steps) -> Result<Vec<Fault>, AllocError>
    requires front { IsFrontOf (chars text.now) front }
    requires stopped { IsStopped front }
    ensures some { IfOk result (λ fs. 0 < length fs.items) }
    ensures noted { IfOk result (λ fs. Noted (chars text.now) fs.items) }
    ensures counted { Counted (128 * length text.now + 111) steps.old steps.new }
{
    let mut reader = Reader::new(text, front, mem::replace(steps, Steps::new()));
    let answer = reader.find();
    let Reader { cursor, notes, .. } = reader;
    *steps = cursor.into_steps();
    answer?;
    Ok(notes.faults)
}

/// Returns the faults of the text, in the order in which reading meets them. A text has none exactly if it is accepted.
/// Adds the steps of reading to the count.
pub fn faults(
    alloc: Global,
    text: &str,
    whole: Whole,
    steps: &mut Steps,
) -> Result<Vec<Fault>, AllocError>
    ensures exact { IfOk result (λ fs. (fs.items ≡ []) ↔ Accepts whole (chars text.now)) }
    ensures noted { IfOk result (λ fs. Noted (chars text.now) fs.items) }
    ensures most { OnOk result (steps.new ≤ steps.old + 152 * (length text.now + 1)) }
    ensures raised { raise steps.old 0 ≤ raise steps.new 0 }
{
    let front = read_front(alloc, text, whole, steps)?;
    if front.is_accepted {
        return Ok(Vec::new(alloc));
    }
    recovered(text, front, steps)
}

/// Returns the failure for a refused text, or for an allocation that failed.
pub fn failure(alloc: Global, text: &str, whole: Whole, steps: &mut Steps) -> ParseFailure
    requires { Accepts whole (chars text.now) → ⊥ }
    ensures tells { TellsOf text.now result }
    ensures most { OnRefused result (steps.new ≤ steps.old + 152 * (length text.now + 1)) }
    ensures raised { raise steps.old 0 ≤ raise steps.new 0 }
{
    let Ok(faults) = faults(alloc, text, whole, steps) else {
        return ParseFailure::Memory;
    };
    match error_of(alloc, text, &faults) {
        Ok(error) => ParseFailure::Syntax(error),
        Err(_) => ParseFailure::Memory,
    }
}
