//! The faults of a text, as rows.

ghost use Rattle.kdl.specs.Words.{IsToldOf};
ghost use Rattle.c_calls.specs.Strings.{HasPut, words_of};
ghost use Rattle.c_calls.specs.Listed.{AreListed, fault_of, fault_row};
ghost use Rattle.c_calls.specs.Rows.{AreTold};
ghost use Rattle.std.specs.Prelude.{◌≡◌, ◌+◌, ◌++◌, ◌∷◌, [], ℕ, All, List, length, map, slice_set};

use crate::text::put_words;
use kdl::KdlDiagnostic;

/// A fault: the bytes of the text that it concerns, and the place of its message in the strings.
#[repr(C)]
#[derive(Clone, Copy)]
pub struct KdlFault {
    /// The offset of the span of the fault in the text, in bytes.
    pub start: usize,
    /// The length of that span, in bytes.
    pub len: usize,
    /// Where the message starts in the strings.
    pub message_start: usize,
    /// The length of the message in bytes.
    pub message_len: usize,
}

/// Writes the row of a fault at the index, and appends its message to the strings, each if there is room.
fn put_fault(
    fault: &KdlDiagnostic,
    at: usize,
    out: &mut [KdlFault],
    strings: &mut [u8],
    used: &mut usize,
)
    ensures told { (text : List ℕ) → IsToldOf text fault.now
        → AreTold text out.old at strings.old used.old
        → AreTold text out.new (at + 1) strings.new used.new }
    ensures row { out.new ≡ slice_set out.old at (fault_row used.old (fault_of fault.now)) }
    ensures put { (before : List ℕ) (ts : List (List ℕ)) → HasPut before ts strings.old used.old
        → HasPut before (ts ++ words_of fault.now.message ∷ []) strings.new used.new }
{
    let place = put_words(fault.message.as_ref(), strings, used);
    let row = KdlFault {
        start: fault.span.offset,
        len: fault.span.len,
        message_start: place.start,
        message_len: place.len,
    };
    if at < out.len() {
        out[at] = row;
    }
}

/// Writes the rows of the faults, and their messages from the start of the strings, as far as there is room.
///
/// Sets `count` to the number of faults, and `used` to the number of bytes of all messages, whether or not they fit.
pub fn put_faults(
    found: &[KdlDiagnostic],
    out: &mut [KdlFault],
    count: &mut usize,
    strings: &mut [u8],
    used: &mut usize,
)
    ensures counted { count.new ≡ length found.now }
    ensures told { (text : List ℕ) → All (IsToldOf text) found.now
        → AreTold text out.new count.new strings.new used.new }
    ensures listed { AreListed (map fault_of found.now)
        out.old out.new count.new strings.old strings.new used.new }
{
    *used = 0;
    for at in 0..found.len() {
        put_fault(&found[at], at, out, strings, used);
    }
    *count = found.len();
}
