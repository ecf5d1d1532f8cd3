//! Blocks on one line: which ones are, and the texts that are printed in them.

ghost use Rattle.kdl_entry.specs.Tree.{entry_format_tree, entry_tree, identifier_tree};
ghost use Rattle.kdl_layout.specs.Formatted.{or_empty};
ghost use Rattle.kdl_layout.specs.OneLine.{braces_on_line, end_on_line, entry_on_line, formats_in_line, line_on_line, maybe_form_on_line, maybe_on_line, name_on_line, node_in_line};
ghost use Rattle.kdl_layout.specs.Plain.{no_newline};
ghost use Rattle.kdl_parts.specs.Formats.{document_texts, node_format_tree, node_texts};
ghost use Rattle.std.specs.List.{list_all};
ghost use Rattle.std.specs.Prelude.{◌≡◌, ◌==◌, IfOk, map, option_map};
ghost use Rattle.std.specs.Str.{chars};

use crate::config::is_kdl_space;
use crate::written::push_text;
use kdl_entry::{KdlEntry, KdlEntryFormat, KdlIdentifier};
use kdl_parts::{KdlDocumentFormat, KdlNodeFormat};
use kdl_text::chars::is_newline_char;
use std::alloc::{AllocError, Global};

/// Returns whether the text contains no newline.
pub(crate) fn has_no_newline(text: &str) -> bool
    ensures { result ≡ no_newline (chars text.now) }
{
    text.chars().all(|c| !is_newline_char(c))
}

/// Returns whether the name can be printed on one line.
pub fn name_on_line(name: &KdlIdentifier) -> bool
    ensures { result ≡ name_on_line (identifier_tree name.now) }
{
    match name.repr() {
        Some(repr) => has_no_newline(repr),
        None => true,
    }
}

/// Returns the same for a key or a type. Returns `true` if there is none.
pub fn maybe_on_line(name: Option<&KdlIdentifier>) -> bool
    ensures { result ≡ maybe_on_line (option_map (λ i. identifier_tree i.now) name.entry) }
{
    match name {
        Some(name) => name_on_line(name),
        None => true,
    }
}

/// Returns whether only spaces are around the parts of an entry with this format, and the spelling of its value
/// contains no newline. Returns `true` if there is no format.
fn maybe_form_on_line(format: Option<&KdlEntryFormat>) -> bool
    ensures { result ≡ maybe_form_on_line (option_map (λ f. entry_format_tree f.now) format.entry) }
{
    let Some(format) = format else {
        return true;
    };
    is_kdl_space(format.leading.as_str())
        && is_kdl_space(format.trailing.as_str())
        && is_kdl_space(format.after_ty.as_str())
        && is_kdl_space(format.before_ty_name.as_str())
        && is_kdl_space(format.after_ty_name.as_str())
        && is_kdl_space(format.after_key.as_str())
        && is_kdl_space(format.after_eq.as_str())
        && has_no_newline(format.value_repr.as_str())
}

/// Returns whether the entry can be printed on one line, without comments.
fn entry_on_line(entry: &KdlEntry) -> bool
    ensures { result ≡ entry_on_line (entry_tree entry.now) }
{
    maybe_on_line(entry.name()) && maybe_on_line(entry.ty()) && maybe_form_on_line(entry.format())
}

/// Returns whether each of the entries can be printed on one line, without comments.
pub fn entries_on_line(entries: &[KdlEntry]) -> bool
    ensures { result ≡ list_all (λ e. entry_on_line (entry_tree e)) entries.now }
{
    entries.iter().all(|entry| entry_on_line(entry))
}

/// Returns whether each character of the text is a `;`.
fn is_semicolons(text: &str) -> bool
    ensures { result ≡ list_all (λ c. c == 59) (chars text.now) }
{
    text.chars().all(|c| c == ';')
}

/// Returns whether the terminator of a node that so many nodes follow is a `;`, or empty after the last node.
fn end_on_line(terminator: &str, following: usize) -> bool
    ensures { result ≡ end_on_line (following == 0) (chars terminator.now) }
{
    if terminator.is_empty() {
        return following == 0;
    }
    is_semicolons(terminator)
}

/// Returns whether only spaces are around the parts of a node that so many nodes follow, and a `;` ends it, or nothing
/// if it is the last one. A node without a format has no texts around its parts.
pub fn line_on_line(format: &Option<KdlNodeFormat>, following: usize) -> bool
    ensures { result ≡ line_on_line (following == 0) (or_empty (node_texts format.now)) }
{
    let Some(format) = format else {
        return following == 0;
    };
    is_kdl_space(format.leading.as_str())
        && is_kdl_space(format.before_ty_name.as_str())
        && is_kdl_space(format.after_ty_name.as_str())
        && is_kdl_space(format.after_ty.as_str())
        && is_kdl_space(format.before_terminator.as_str())
        && is_kdl_space(format.trailing.as_str())
        && end_on_line(format.terminator.as_str(), following)
}

/// Returns whether only spaces are after the `{` of a block and before its `}`.
pub fn braces_on_line(format: &Option<KdlDocumentFormat>) -> bool
    ensures { result ≡ braces_on_line (document_texts format.now) }
{
    match format {
        Some(format) => {
            is_kdl_space(format.leading.as_str()) && is_kdl_space(format.trailing.as_str())
        }
        None => false,
    }
}

/// Returns the texts around a node that so many nodes follow, on the line of its block: a space before it and a `;`
/// after it, or a space after it if it is the last one.
fn node_in_line(alloc: Global, following: usize) -> Result<KdlNodeFormat, AllocError>
    ensures { IfOk result (λ f. node_format_tree f ≡ node_in_line (following == 0)) }
{
    let mut format = KdlNodeFormat::new(alloc);
    push_text(&mut format.leading, " ")?;
    push_text(&mut format.before_children, " ")?;
    if following == 0 {
        push_text(&mut format.before_terminator, " ")?;
    } else {
        push_text(&mut format.terminator, ";")?;
    }
    Ok(format)
}

/// Returns these texts for each of `count` nodes, in order.
pub fn formats_in_line(alloc: Global, count: usize) -> Result<Vec<KdlNodeFormat>, AllocError>
    ensures { IfOk result (λ v. map node_format_tree v.items ≡ formats_in_line count) }
{
    let mut formats = Vec::new(alloc);
    let mut left = count;
    while left > 0 {
        left -= 1;
        formats.push(node_in_line(alloc, left)?)?;
    }
    Ok(formats)
}
