//! The faults of a text that is read as a document, a node, an entry or a value.

ghost use Rattle.c_calls.specs.Listed.{AreListed};
ghost use Rattle.c_calls.specs.Reading.{Outcome, not_value};
ghost use Rattle.c_calls.specs.Rows.{AreTold};
ghost use Rattle.std.specs.Prelude.{◌≡◌, ◌≤◌, ◌∷◌, [], IsNone, IfSome};

use crate::faults::KdlFault;
use crate::text::put_string;
use crate::value::is_value;
use kdl::{KdlDocument, KdlEntry, KdlError, KdlNode, ParseFailure};
use std::alloc::Global;

/// The kind of a text that is read as a document.
pub const AS_DOCUMENT: u32 = 0;

/// The kind of a text that is read as one node.
pub const AS_NODE: u32 = 1;

/// The kind of a text that is read as one entry.
pub const AS_ENTRY: u32 = 2;

/// The kind of a text that is read as a value: an entry without a key, a type, spaces and comments.
pub const AS_VALUE: u32 = 3;

/// The result of reading a text as one of the kinds.
#[derive(Drop)]
pub enum Reading {
    /// The text is of the kind.
    Read,
    /// The kind is `AS_VALUE`, and the text is an entry, but more than a value.
    NotValue,
    /// The text is refused.
    Refused(KdlError),
    /// An allocation failed.
    Memory,
}

/// Reads a text as an entry.
fn read_entry(alloc: Global, text: &str) -> Reading
    ensures { Outcome 2 text.now result }
{
    match KdlEntry::parse(alloc, text) {
        Err(ParseFailure::Syntax(error)) => Reading::Refused(error),
        Err(ParseFailure::Memory) => Reading::Memory,
        Ok(_) => Reading::Read,
    }
}

/// Reads a text as a value.
fn read_value(alloc: Global, text: &str) -> Reading
    ensures { Outcome 3 text.now result }
{
    match KdlEntry::parse(alloc, text) {
        Err(ParseFailure::Syntax(error)) => Reading::Refused(error),
        Err(ParseFailure::Memory) => Reading::Memory,
        Ok(entry) => {
            if is_value(&entry) {
                Reading::Read
            } else {
                Reading::NotValue
            }
        }
    }
}

/// Reads a text as a node.
fn read_node(alloc: Global, text: &str) -> Reading
    ensures { Outcome 1 text.now result }
{
    match KdlNode::parse(alloc, text) {
        Err(ParseFailure::Syntax(error)) => Reading::Refused(error),
        Err(ParseFailure::Memory) => Reading::Memory,
        Ok(_) => Reading::Read,
    }
}

/// Reads a text as a document.
fn read_document(alloc: Global, text: &str) -> Reading
    ensures { Outcome 0 text.now result }
{
    match KdlDocument::check(alloc, text) {
        Err(ParseFailure::Syntax(error)) => Reading::Refused(error),
        Err(ParseFailure::Memory) => Reading::Memory,
        Ok(()) => Reading::Read,
    }
}

/// Reads a text as one of the kinds: a document, a node, an entry or a value. Returns `None` if there is no such kind.
pub fn read(alloc: Global, kind: u32, text: &str) -> Option<Reading>
    ensures some { IfSome result (λ r. Outcome kind text.now r) }
    ensures none { IsNone result → 4 ≤ kind }
{
    match kind {
        AS_DOCUMENT => Some(read_document(alloc, text)),
        AS_NODE => Some(read_node(alloc, text)),
        AS_ENTRY => Some(read_entry(alloc, text)),
        AS_VALUE => Some(read_value(alloc, text)),
        _ => None,
    }
}

/// Writes the fault of an entry that is not a value, as far as there is room. It concerns the whole text.
///
/// Sets `count` to 1, and `used` to the number of bytes of the message.
pub fn put_not_value(
    text: &str,
    out: &mut [KdlFault],
    count: &mut usize,
    strings: &mut [u8],
    used: &mut usize,
)
    ensures counted { count.new ≡ 1 }
    ensures told { AreTold text.now out.new count.new strings.new used.new }
    ensures listed { AreListed (not_value text.now ∷ [])
        out.old out.new count.new strings.old strings.new used.new }
{
    *used = 0;
    let place = put_string(
        "Expected value without key, type, space or comment",
        strings,
        used,
    );
    let row = KdlFault {
        start: 0,
        len: text.len(),
        message_start: place.start,
        message_len: place.len,
    };
    if !out.is_empty() {
        out[0] = row;
    }
    *count = 1;
}
