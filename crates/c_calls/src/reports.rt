//! The faults of a text, with their labels and helps, as rows.

ghost use Rattle.kdl.specs.Words.{IsToldOf};
ghost use Rattle.c_calls.specs.Strings.{HasPut, words_of};
ghost use Rattle.c_calls.specs.Listed.{AreReportsListed, fault_of, report_row};
ghost use Rattle.c_calls.specs.Reports.{AreReported};
ghost use Rattle.std.specs.Prelude.{◌≡◌, ◌+◌, ◌++◌, ◌∷◌, [], ℕ, All, List, length, map, slice_set};

use crate::text::put_words;
use kdl::KdlDiagnostic;

/// A fault: the bytes of the text that it concerns, and the places of its message, its label and its help in the
/// strings. The length of a text that the fault does not have is 0.
#[repr(C)]
#[derive(Clone, Copy)]
pub struct KdlReport {
    /// The offset of the span of the fault in the text, in bytes.
    pub start: usize,
    /// The length of that span, in bytes.
    pub len: usize,
    /// Where the message starts in the strings.
    pub message_start: usize,
    /// The length of the message in bytes.
    pub message_len: usize,
    /// Where the label starts in the strings.
    pub label_start: usize,
    /// The length of the label in bytes.
    pub label_len: usize,
    /// Where the help starts in the strings.
    pub help_start: usize,
    /// The length of the help in bytes.
    pub help_len: usize,
}

/// Writes the report of a fault at the index, and appends its message, its label and its help to the strings, each if
/// there is room.
fn put_report(
    fault: &KdlDiagnostic,
    at: usize,
    out: &mut [KdlReport],
    strings: &mut [u8],
    used: &mut usize,
)
    ensures told { (text : List ℕ) → IsToldOf text fault.now
        → AreReported text out.old at strings.old used.old
        → AreReported text out.new (at + 1) strings.new used.new }
    ensures row { out.new ≡ slice_set out.old at (report_row used.old (fault_of fault.now)) }
    ensures put { (before : List ℕ) (ts : List (List ℕ)) → HasPut before ts strings.old used.old
        → HasPut before (ts ++ words_of fault.now.message ∷ words_of fault.now.label
        ∷ words_of fault.now.help ∷ []) strings.new used.new }
{
    let message = put_words(fault.message.as_ref(), strings, used);
    let label = put_words(fault.label.as_ref(), strings, used);
    let help = put_words(fault.help.as_ref(), strings, used);
    let report = KdlReport {
        start: fault.span.offset,
        len: fault.span.len,
        message_start: message.start,
        message_len: message.len,
        label_start: label.start,
        label_len: label.len,
        help_start: help.start,
        help_len: help.len,
    };
    if at < out.len() {
        out[at] = report;
    }
}

/// Writes the reports of the faults, and their messages, labels and helps from the start of the strings, as far as
/// there is room.
///
/// Sets `count` to the number of faults, and `used` to the number of bytes of all these texts, whether or not they fit.
pub fn put_reports(
    found: &[KdlDiagnostic],
    out: &mut [KdlReport],
    count: &mut usize,
    strings: &mut [u8],
    used: &mut usize,
)
    ensures counted { count.new ≡ length found.now }
    ensures told { (text : List ℕ) → All (IsToldOf text) found.now
        → AreReported text out.new count.new strings.new used.new }
    ensures listed { AreReportsListed (map fault_of found.now)
        out.old out.new count.new strings.old strings.new used.new }
{
    *used = 0;
    for at in 0..found.len() {
        put_report(&found[at], at, out, strings, used);
    }
    *count = found.len();
}
