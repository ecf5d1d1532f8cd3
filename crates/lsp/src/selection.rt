//! The ranges around a place: value, entry, node, block, document.

ghost use Rattle.lsp.specs.Internal.Nesting.{Members, Nesting, WritesItems, in_objects, nesting};
ghost use Rattle.lsp.specs.Replies.{IsSomeJson};
ghost use Rattle.std.specs.Prelude.{◌≡◌, ◌+◌, ◌≤◌, IfOk, IsTrue, OnOk};

use crate::layout::document_of;
use crate::locate::{block_span, end_of, entry_at, nodes_at, part_at, touches};
use crate::place::offset_at;
use crate::write::{Out, Wrong, begin, end, null_json, put_range};
use json::Value;
use kdl::KdlDocument;
use kdl_text::span::SourceSpan;
use lsp_text::{Cursor, Encoding, Position, Range};
use std::alloc::{AllocError, Global};

/// Returns the ranges around each position of a request: null if the text is no document.
pub(crate) fn selections(
    alloc: Global,
    params: &Value<'_>,
    text: &str,
    encoding: Encoding,
) -> Result<String, Wrong>
    ensures { IfOk result IsSomeJson }
{
    let Some(Value::Array(places)) = params.get("positions") else {
        return Err(Wrong::Params);
    };
    let Some(document) = document_of(alloc, text)? else {
        return Ok(null_json(alloc)?);
    };
    let mut out = begin(alloc);
    out.begin_array()?;
    for place in places {
        let Some(offset) = offset_at(place, text, encoding) else {
            return Err(Wrong::Params);
        };
        let spans = spans_around(alloc, &document, text, offset)?;
        put_selection(alloc, &mut out, &spans, Cursor::new(text, encoding))?;
    }
    out.end_array()?;
    Ok(end(alloc, out))
}

/// Returns the spans around a place, each in the one before it. The first is the whole text.
fn spans_around(
    alloc: Global,
    document: &KdlDocument,
    text: &str,
    offset: usize,
) -> Result<Vec<SourceSpan>, AllocError> {
    let whole = SourceSpan {
        offset: 0,
        len: text.len(),
    };
    let mut spans = vec![in alloc; whole]?;
    for site in &nodes_at(alloc, document, offset)? {
        push_inner(&mut spans, site.node.span(), offset)?;
        if let Some((_, entry)) = entry_at(site.node, offset) {
            push_inner(&mut spans, entry.span(), offset)?;
        }
        if let Some((_, span)) = part_at(site.node, offset) {
            push_inner(&mut spans, span, offset)?;
        } else if let Some(span) = block_span(site.node) {
            push_inner(&mut spans, span, offset)?;
        }
    }
    Ok(spans)
}

/// Adds a span, if the place is in it and it is a smaller part of the last one.
fn push_inner(
    spans: &mut Vec<SourceSpan>,
    span: SourceSpan,
    offset: usize,
) -> Result<(), AllocError> {
    match spans.last() {
        Some(last) if *last != span && touches(span, offset) && contains(*last, span) => {
            Ok(spans.push(span)?)
        }
        _ => Ok(()),
    }
}

/// Returns whether a span is in another one.
fn contains(outer: SourceSpan, inner: SourceSpan) -> bool
    ensures { IsTrue result → (outer.offset ≤ inner.offset)
        × (inner.offset + inner.len ≤ outer.offset + outer.len) }
{
    match inner.offset.checked_sub(outer.offset) {
        Some(before) => before <= outer.len && inner.len <= outer.len - before,
        None => false,
    }
}

/// Writes spans as a selection: the last one, with the one before it as its parent, and so on.
fn put_selection(
    alloc: Global,
    out: &mut Out,
    spans: &[SourceSpan],
    cursor: Cursor<'_>,
) -> Result<(), AllocError>
    ensures { OnOk result (WritesItems out.old out.new) }
{
    // Starts grow from the first span to the last, and ends from the last to the first.
    let mut ends = cursor;
    let mut around = with_starts(alloc, spans, cursor)?;
    let mut depth = 0usize;
    while let Some((span, start)) = around.pop() {
        let end = ends.position(end_of(span));
        begin_range(out, depth)?;
        put_range(out, "range", Range { start, end })?;
        depth += 1;
    }
    while depth > 0 {
        out.end_object()?;
        depth -= 1;
    }
    Ok(())
}

/// Begins a range: the first one, or the parent of the last one.
fn begin_range(out: &mut Out, depth: usize) -> Result<(), AllocError>
    ensures { (n : Nesting) → nesting out.old ≡ in_objects depth n → OnOk result (nesting out.new ≡ Members (in_objects depth n)) }
{
    if depth == 0 {
        return out.begin_object();
    }
    out.key("parent")?;
    out.begin_object()
}

/// Returns spans with their starts, which grow.
fn with_starts(
    alloc: Global,
    spans: &[SourceSpan],
    cursor: Cursor<'_>,
) -> Result<Vec<(SourceSpan, Position)>, AllocError> {
    let mut starts = cursor;
    let mut around = Vec::with_capacity(alloc, spans.len())?;
    for span in spans {
        around.push((*span, starts.position(span.offset)))?;
    }
    Ok(around)
}
