//! Places in a text that a request names, as byte offsets.

use json::Value;
use kdl_text::span::SourceSpan;
use lsp_documents::params::{position, range};
use lsp_text::{Cursor, Encoding, Range, offset_of};

/// Returns the byte offset of a position of the protocol.
pub(crate) fn offset_at(value: &Value<'_>, text: &str, encoding: Encoding) -> Option<usize> {
    Some(offset_of(text, position(value)?, encoding))
}

/// Returns the byte offset of the position of a request.
pub(crate) fn place(params: &Value<'_>, text: &str, encoding: Encoding) -> Option<usize> {
    offset_at(params.get("position")?, text, encoding)
}

/// Returns the span of the range of a request.
pub(crate) fn span(params: &Value<'_>, text: &str, encoding: Encoding) -> Option<SourceSpan> {
    let range = range(params)?;
    let offset = offset_of(text, range.start, encoding);
    let end = offset_of(text, range.end, encoding);
    Some(SourceSpan {
        offset,
        len: end.saturating_sub(offset),
    })
}

/// Returns the range of a span.
pub(crate) fn range_of(text: &str, span: SourceSpan, encoding: Encoding) -> Range {
    Cursor::new(text, encoding).range(span.offset, span.len)
}
