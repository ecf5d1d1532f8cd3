//! Changes of a text.

ghost use Rattle.lsp_text.specs.Positions as spec;
ghost use Rattle.lsp_text.specs.Positions.{all_changed, change_of, edited};
ghost use Rattle.std.specs.Prelude.{◌≡◌, IfOk, chars, map, string_bytes};

use crate::offset::offsets_of;
use crate::position::{Encoding, Range};
use std::alloc::{AllocError, Global};

/// A change of a text, as `TextDocumentContentChangeEvent` of the protocol.
#[derive(Drop)]
pub struct Change {
    /// The part that is replaced. `None` is the whole text.
    pub range: Option<Range>,
    /// The new text.
    pub text: String,
}

/// Returns the text with the range replaced. The error is that memory is short.
pub fn replaced(
    alloc: Global,
    text: &str,
    range: Range,
    new: &str,
    encoding: Encoding,
) -> Result<String, AllocError>
    ensures { IfOk result (λ out. chars (string_bytes out) ≡ edited encoding range (chars new.now) (chars text.now)) }
{
    let (start, end) = offsets_of(text, range, encoding);
    let end = end.max(start);
    let mut out = String::with_capacity(alloc, start + new.len() + (text.len() - end))?;
    out.push_str(&text[..start])?;
    out.push_str(new)?;
    out.push_str(&text[end..])?;
    Ok(out)
}

/// Returns the text after a change. The error is that memory is short.
fn changed(
    alloc: Global,
    text: &str,
    change: &Change,
    encoding: Encoding,
) -> Result<String, AllocError>
    ensures { IfOk result (λ out. chars (string_bytes out) ≡ spec.changed encoding (change_of change.now) (chars text.now)) }
{
    match change.range {
        Some(range) => replaced(alloc, text, range, change.text.as_str(), encoding),
        None => String::from_str(alloc, change.text.as_str()),
    }
}

/// Returns the text after the changes, each of the text that those before it leave. The error is that memory is short.
pub fn replaced_all(
    alloc: Global,
    text: String,
    changes: &[Change],
    encoding: Encoding,
) -> Result<String, AllocError>
    ensures { IfOk result (λ out. chars (string_bytes out)
        ≡ all_changed encoding (map change_of changes.now) (chars (string_bytes text))) }
{
    let mut text = text;
    for change in changes {
        text = changed(alloc, text.as_str(), change, encoding)?;
    }
    Ok(text)
}
