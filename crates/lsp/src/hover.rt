//! What is at a place: a value, a key, a type or a node, and its PATH.

ghost use Rattle.lsp.specs.Internal.Nesting.{WritesMembers};
ghost use Rattle.lsp.specs.Replies.{IsSomeJson};
ghost use Rattle.std.specs.Prelude.{IfOk, OnOk};

use crate::layout::document_of;
use crate::locate::{Part, nodes_at, part_at};
use crate::path::{Target, path_to};
use crate::place::{place, range_of};
use crate::write::{Out, Wrong, begin, end, null_json, put_range, put_text};
use json::Value;
use kdl::{KdlDocument, KdlEntry, KdlNode, KdlValue};
use kdl_text::span::SourceSpan;
use lsp_text::Encoding;
use std::alloc::{AllocError, Global};

/// Returns what is at the position of a request: null if that is nothing with a value or a name, or the text
/// is no document.
pub(crate) fn hover(
    alloc: Global,
    params: &Value<'_>,
    text: &str,
    encoding: Encoding,
) -> Result<String, Wrong>
    ensures { IfOk result IsSomeJson }
{
    let Some(offset) = place(params, text, encoding) else {
        return Err(Wrong::Params);
    };
    let Some((content, span)) = told(alloc, text, offset)? else {
        return Ok(null_json(alloc)?);
    };
    let mut out = begin(alloc);
    out.begin_object()?;
    put_content(&mut out, &content)?;
    put_range(&mut out, "range", range_of(text, span, encoding))?;
    out.end_object()?;
    Ok(end(alloc, out))
}

/// Writes a text in Markdown.
fn put_content(out: &mut Out, content: &str) -> Result<(), AllocError>
    ensures { OnOk result (WritesMembers out.old out.new) }
{
    out.key("contents")?;
    out.begin_object()?;
    put_text(out, "kind", "markdown")?;
    put_text(out, "value", content)?;
    out.end_object()
}

/// Returns what is said of what is at a place, and its span.
fn told(
    alloc: Global,
    text: &str,
    offset: usize,
) -> Result<Option<(String, SourceSpan)>, AllocError> {
    let Some(document) = document_of(alloc, text)? else {
        return Ok(None);
    };
    told_in(alloc, &document, offset)
}

/// Returns what is said of what is at a place of a document, and its span.
fn told_in(
    alloc: Global,
    document: &KdlDocument,
    offset: usize,
) -> Result<Option<(String, SourceSpan)>, AllocError> {
    let sites = nodes_at(alloc, document, offset)?;
    let Some(site) = sites.last() else {
        return Ok(None);
    };
    let Some((part, span)) = part_at(site.node, offset) else {
        return Ok(None);
    };
    let mut content = String::new(alloc);
    push_part(&mut content, site.node, part)?;
    if let Some(target) = target_of(site.node, part) {
        content.push_str("\n\n")?;
        push_code(&mut content, &path_to(alloc, &sites, target)?)?;
    }
    Ok(Some((content, span)))
}

/// Appends what is said of a part of a node.
fn push_part(out: &mut String, node: &KdlNode, part: Part<'_>) -> Result<(), AllocError> {
    match part {
        Part::Name => out.push_str("node"),
        Part::Type => out.push_str("type"),
        Part::Key(index, entry) if is_last(node, index, entry) => out.push_str("property"),
        Part::Key(..) => out.push_str("property; a later one of the same name replaces it"),
        Part::Value(_, entry) => push_value(out, entry.value()),
    }
}

/// Appends what is said of a value.
fn push_value(out: &mut String, value: &KdlValue) -> Result<(), AllocError> {
    let alloc = *out.allocator();
    match value {
        KdlValue::Integer(n) => {
            let sign = if *n < 0 { "-" } else { "" };
            let size = n.unsigned_abs();
            let text = format!(in alloc; "whole number `{n}`, `{sign}0x{size:x}`")?;
            out.push_str(&text)
        }
        KdlValue::Float(float) => {
            out.push_str("decimal ")?;
            push_code(out, float.as_str())
        }
        KdlValue::Bool(true) => out.push_str("boolean `#true`"),
        KdlValue::Bool(false) => out.push_str("boolean `#false`"),
        KdlValue::Null => out.push_str("no value: `#null`"),
        KdlValue::String(text) => push_string(out, text),
    }
}

/// Appends the length of a string and the string.
fn push_string(out: &mut String, text: &str) -> Result<(), AllocError> {
    let alloc = *out.allocator();
    let count = text.chars().count();
    let end = if count == 1 { "" } else { "s" };
    let head = format!(in alloc; "string, {count} character{end}")?;
    out.push_str(&head)?;
    if text.is_empty() {
        return Ok(());
    }
    let fence = "`".repeat(alloc, longest_run(text).saturating_add(1).max(3))?;
    for part in ["\n\n", fence.as_str(), "\n", text, "\n", fence.as_str()] {
        out.push_str(part)?;
    }
    Ok(())
}

/// Appends a text as code of Markdown, on the same line.
fn push_code(out: &mut String, text: &str) -> Result<(), AllocError> {
    let alloc = *out.allocator();
    let longest = longest_run(text);
    let fence = "`".repeat(alloc, longest.saturating_add(1))?;
    let space = if longest == 0 { "" } else { " " };
    for part in [fence.as_str(), space, text, space, fence.as_str()] {
        out.push_str(part)?;
    }
    Ok(())
}

/// Returns how many backticks follow each other in a text, at most.
fn longest_run(text: &str) -> usize {
    let mut longest = 0usize;
    let mut run = 0usize;
    for c in text.chars() {
        run = if c == '`' { run.saturating_add(1) } else { 0 };
        longest = longest.max(run);
    }
    longest
}

/// Returns what a PATH names of the node for a part, if a PATH names it.
fn target_of<'d>(node: &'d KdlNode, part: Part<'d>) -> Option<Target<'d>> {
    let (index, entry) = match part {
        Part::Name => return Some(Target::Node),
        Part::Type => return None,
        Part::Key(index, entry) | Part::Value(index, entry) => (index, entry),
    };
    match entry.name() {
        Some(key) => is_last(node, index, entry).then_some(Target::Property(key.value())),
        None => match arguments_before(node, index) {
            0 => Some(Target::Node),
            count => Some(Target::Argument(count)),
        },
    }
}

/// Returns how many arguments are before an entry.
fn arguments_before(node: &KdlNode, index: usize) -> usize {
    let entries = node.entries().iter().take(index);
    entries.filter(|entry| entry.name().is_none()).count()
}

/// Returns whether no entry after an index has the key of this one.
fn is_last(node: &KdlNode, index: usize, entry: &KdlEntry) -> bool {
    let Some(key) = entry.name() else {
        return true;
    };
    let mut later = node.entries().iter().skip(index.saturating_add(1));
    !later.any(|later| later.name().is_some_and(|name| name.value() == key.value()))
}
