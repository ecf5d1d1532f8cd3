//! The newlines that nodes, and the texts between them, lack at their ends for others to follow.

ghost use Rattle.kdl.specs.Internal.Ends.{EndFewest, EndSays, EndsReadAs, FewestBefore, GapFewest, GapSays, IsEndedExactly, IsLacking, IsNodeEnded, Lacks, PlaceFewest, PlaceSays, block_if, formless_count, newline_count, with_newlines};
ghost use Rattle.kdl.specs.Nodes.{newlines, printed_format};
ghost use Rattle.kdl_entry.specs.Tree.{entry_tree};
ghost use Rattle.kdl_layout.specs.Internal.Reading.{place_view};
ghost use Rattle.kdl_layout.specs.Kept.{last_place, without_bom};
ghost use Rattle.kdl_grammar.specs.Print.{before_block};
ghost use Rattle.kdl_grammar.specs.ReadsBack.{terminator_text};
ghost use Rattle.kdl_grammar.specs.Tree.{NodeFormat};
ghost use Rattle.kdl_parts.specs.Formats.{node_format_tree, node_texts};
ghost use Rattle.kdl_value.specs.Tree.{text_of};
ghost use Rattle.std.specs.Prelude.{◌≡◌, ◌≢◌, ◌≤◌, ◌+◌, ◌++◌, ◌∷◌, [], IfOk, MatchBool, None, OnOk, Some, is_some, map, unwrap_or};
ghost use Rattle.std.specs.Str.{chars};

use crate::document::KdlDocument;
use kdl_entry::KdlEntry;
use kdl_layout::layout::without_bom;
use kdl_layout::{Place, gap_lacks, place_lacks, push_text, terminator_lacks};
use kdl_parts::KdlNodeFormat;
use kdl_parts::print::ends_formatted;
use std::alloc::{AllocError, Global};

/// What follows a node, or a document.
#[derive(Clone, Copy)]
pub(crate) enum Rest {
    /// The end of the text.
    End,
    /// The `}` of a block.
    Brace,
    /// Any text.
    Text,
}

/// Appends that many newlines to the text.
pub(crate) fn push_newlines(text: &mut String, count: usize) -> Result<(), AllocError>
    ensures { OnOk result (text_of text.new ≡ text_of text.old ++ newlines count) }
{
    for _newline in 0..count {
        push_text(text, "\n")?;
    }
    Ok(())
}

/// How many newlines a text between nodes lacks; 0 if it is not such a text.
pub(crate) fn gap_newlines(alloc: Global, text: &str) -> Result<usize, AllocError>
    ensures { IfOk result (IsLacking 2
        (GapSays (without_bom (chars text.now))) (GapFewest (without_bom (chars text.now)))) }
{
    let lacks = gap_lacks(alloc, without_bom(text))?;
    Ok(lacks.unwrap_or(0))
}

/// One newline, if the text before a terminator lacks it; 0 if it is not such a text.
fn newline_count(lacks: Option<bool>) -> usize
    ensures { result ≡ newline_count lacks }
{
    match lacks {
        Some(true) => 1,
        _ => 0,
    }
}

/// The place before the terminator of a node with this block, or without one.
pub(crate) fn last_place(children: &Option<KdlDocument>) -> Place
    ensures { place_view result ≡ last_place (is_some children.now) }
{
    match children {
        Some(_) => Place::AfterBlock,
        None => Place::BeforeBlock,
    }
}

/// How many newlines the text before a terminator lacks: one if it ends in an open escline.
pub(crate) fn place_newlines(
    alloc: Global,
    children: &Option<KdlDocument>,
    text: &str,
) -> Result<usize, AllocError>
    ensures { IfOk result (IsLacking 1
        (PlaceSays (block_if (is_some children.now)) (chars text.now))
        (PlaceFewest (block_if (is_some children.now)) (chars text.now))) }
{
    let lacks = place_lacks(alloc, last_place(children), text)?;
    Ok(newline_count(lacks))
}

/// How many newlines a terminator lacks, with the text after it.
fn end_newlines(alloc: Global, terminator: &str, trailing: &str) -> Result<usize, AllocError>
    ensures { IfOk result (IsLacking 2 (EndSays (chars terminator.now ++ chars trailing.now))
        (EndFewest (chars terminator.now ++ chars trailing.now))) }
{
    let mut end = String::new(alloc);
    push_text(&mut end, terminator)?;
    push_text(&mut end, trailing)?;
    let lacks = terminator_lacks(alloc, &end)?;
    Ok(lacks.unwrap_or(0))
}

/// Whether the text has no characters.
pub(crate) fn is_empty(text: &str) -> bool
    ensures { MatchBool result (chars text.now ≡ []) (chars text.now ≢ []) }
{
    text.is_empty()
}

/// Whether a node has a terminator, or text after it.
fn has_end(format: &KdlNodeFormat) -> bool
    ensures { MatchBool result (terminator_text (node_format_tree format.now) ≡ [] → ⊥)
        (terminator_text (node_format_tree format.now) ≡ []) }
{
    if is_empty(&format.terminator) {
        return !is_empty(&format.trailing);
    }
    true
}

/// How many newlines the terminator of a node needs before the rest, if it has none.
fn terminator_newlines(rest: Rest) -> usize
    ensures is { result ≡ formless_count rest }
    ensures few { result ≤ 1 }
{
    match rest {
        Rest::Text => 1,
        _ => 0,
    }
}

/// How many newlines a node lacks: before its terminator, and at its end.
fn newlines(
    alloc: Global,
    format: &KdlNodeFormat,
    children: &Option<KdlDocument>,
    rest: Rest,
) -> Result<(usize, usize), AllocError>
    ensures lacks { IfOk result (λ (b, e). Lacks (node_format_tree format.now) b e) }
    ensures reads { IfOk result (λ (b, e). EndsReadAs rest (block_if (is_some children.now))
        (node_format_tree format.now) (with_newlines (node_format_tree format.now) b e)) }
    ensures fewest { IfOk result (λ (b, e). FewestBefore rest (block_if (is_some children.now))
        (node_format_tree format.now) (b + e)) }
{
    if has_end(format) {
        let end = end_newlines(alloc, &format.terminator, &format.trailing)?;
        return Ok((0, end));
    }
    let before = place_newlines(alloc, children, &format.before_terminator)?;
    Ok((before, terminator_newlines(rest)))
}

/// The format with newlines before its terminator and at its end.
fn with_newlines(
    format: &KdlNodeFormat,
    before: usize,
    end: usize,
) -> Result<KdlNodeFormat, AllocError>
    ensures { IfOk result (λ f. node_format_tree f ≡
        with_newlines (node_format_tree format.now) before end) }
{
    let mut format = format.clone()?;
    push_newlines(&mut format.before_terminator, before)?;
    if is_empty(&format.trailing) {
        push_newlines(&mut format.terminator, end)?;
    } else {
        push_newlines(&mut format.trailing, end)?;
    }
    Ok(format)
}

/// The format of a node with the newlines that it lacks before the rest, or `None` if it lacks none.
fn ended(
    alloc: Global,
    format: &KdlNodeFormat,
    children: &Option<KdlDocument>,
    rest: Rest,
) -> Result<Option<KdlNodeFormat>, AllocError>
    ensures reads { IfOk result (λ o. EndsReadAs rest (block_if (is_some children.now))
        (node_format_tree format.now) (unwrap_or (node_texts o) (node_format_tree format.now))) }
    ensures exact { IfOk result (λ o. IsEndedExactly rest (block_if (is_some children.now))
        (node_format_tree format.now) (node_texts o)) }
{
    let (before, end) = newlines(alloc, format, children, rest)?;
    if before == 0 && end == 0 {
        return Ok(None);
    }
    Ok(Some(with_newlines(format, before, end)?))
}

/// What a node of these entries prints before its block if it has no format.
fn space_before_block(alloc: Global, entries: &[KdlEntry]) -> Result<String, AllocError>
    ensures { IfOk result (λ s. text_of s ≡ before_block None (map entry_tree entries.now)) }
{
    let mut before = String::new(alloc);
    if !ends_formatted(entries) {
        push_text(&mut before, " ")?;
    }
    Ok(before)
}

/// The texts that a node of these entries prints if it has no format, and a newline at its end.
fn ended_formless(alloc: Global, entries: &[KdlEntry]) -> Result<KdlNodeFormat, AllocError>
    ensures { IfOk result (λ f. node_format_tree f ≡
        record (printed_format (map entry_tree entries.now)) { terminator = 10 ∷ [] }) }
{
    let before_children = space_before_block(alloc, entries)?;
    let mut terminator = String::new(alloc);
    push_text(&mut terminator, "\n")?;
    let mut format = KdlNodeFormat::new(alloc);
    format.before_children = before_children;
    format.terminator = terminator;
    Ok(format)
}

/// The format that a node needs before the rest, or `None` if it keeps its own.
pub(crate) fn ended_format(
    alloc: Global,
    format: &Option<KdlNodeFormat>,
    entries: &[KdlEntry],
    children: &Option<KdlDocument>,
    rest: Rest,
) -> Result<Option<KdlNodeFormat>, AllocError>
    ensures reads { IfOk result (λ o. (f : NodeFormat) → node_texts format.now ≡ Some f
        → EndsReadAs rest (block_if (is_some children.now)) f (unwrap_or (node_texts o) f)) }
    ensures last { rest ≡ Rest.End → IfOk result (λ o. o ≡ None) }
    ensures exact { IfOk result (λ o. IsNodeEnded rest (block_if (is_some children.now))
        (node_texts format.now) (printed_format (map entry_tree entries.now)) (node_texts o)) }
{
    if let Rest::End = rest {
        return Ok(None);
    }
    match format {
        Some(format) => ended(alloc, format, children, rest),
        None => match rest {
            Rest::Text => Ok(Some(ended_formless(alloc, entries)?)),
            _ => Ok(None),
        },
    }
}
