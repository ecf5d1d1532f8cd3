//! The nodes of a document as symbols.

ghost use Rattle.kdl.specs.Internal.Count.{count_nodes};
ghost use Rattle.lsp.specs.Internal.Nesting.{Members, Nesting, WritesValue, after_value, nesting};
ghost use Rattle.lsp.specs.Internal.Levels.{in_level, in_levels, in_owner};
ghost use Rattle.lsp.specs.Replies.{IsSomeJson};
ghost use Rattle.std.specs.List.{sum_by};
ghost use Rattle.std.specs.Prelude.{◌≡◌, ◌+◌, ◌<◌, IfOk, OnOk};

use crate::layout::document_of;
use crate::write::{Out, Wrong, begin, end, null_json, put_number, put_range, put_text};
use kdl::{KdlDocument, KdlNode};
use lsp_text::{Cursor, Encoding, Position, Range};
use std::alloc::{AllocError, Global};

/// A list of nodes that is being written: the nodes that are left, and the node whose block it is, with its start.
#[derive(Clone, Copy)]
struct Level<'d> {
    left: &'d [KdlNode],
    owner: Option<(&'d KdlNode, Position)>,
}

/// Returns the nodes of a text as a tree: null if the text is no document.
pub(crate) fn symbols(alloc: Global, text: &str, encoding: Encoding) -> Result<String, Wrong>
    ensures { IfOk result IsSomeJson }
{
    let Some(document) = document_of(alloc, text)? else {
        return Ok(null_json(alloc)?);
    };
    let mut out = begin(alloc);
    let mut cursor = Cursor::new(text, encoding);
    put_nodes(alloc, &mut out, &mut cursor, &document)?;
    Ok(end(alloc, out))
}

/// Writes the nodes of a document.
fn put_nodes(
    alloc: Global,
    out: &mut Out,
    cursor: &mut Cursor<'_>,
    document: &KdlDocument,
) -> Result<(), AllocError>
    ensures { OnOk result (WritesValue out.old out.new) }
{
    let mut levels: Vec<Level<'_>> = Vec::new(alloc);
    out.begin_array()?;
    levels.push(Level {
        left: document.nodes(),
        owner: None,
    })?;
    while let Some(level) = levels.pop() {
        put_next(out, cursor, level, &mut levels)?;
    }
    Ok(())
}

/// Writes the next node of a list up to its block, or the end of the list.
fn put_next<'d>(
    out: &mut Out,
    cursor: &mut Cursor<'_>,
    level: Level<'d>,
    levels: &mut Vec<Level<'d>>,
) -> Result<(), AllocError>
    // Less is left to be written, where the end of a list counts as a node does.
    ensures less { OnOk result (sum_by (λ l. 1 + count_nodes l.left.now) levels.new.items
        < 1 + count_nodes level.entry.left.now + sum_by (λ l. 1 + count_nodes l.left.now) levels.old.items) }
    ensures nesting { (n : Nesting) → nesting out.old ≡ in_level (in_levels n levels.old.items) level.entry
        → OnOk result (nesting out.new ≡ in_levels n levels.new.items) }
{
    let Some((node, left)) = level.left.split_first() else {
        return put_list_end(out, cursor, level.owner);
    };
    levels.push(Level {
        left,
        owner: level.owner,
    })?;
    let start = cursor.position(node.span().offset);
    put_head(out, cursor, node)?;
    match node.children() {
        Some(block) => {
            out.key("children")?;
            out.begin_array()?;
            levels.push(Level {
                left: block.nodes(),
                owner: Some((node, start)),
            })?;
            Ok(())
        }
        None => put_end(out, cursor, node, start),
    }
}

/// Writes the end of a list of nodes, and of the node whose block it is.
fn put_list_end(
    out: &mut Out,
    cursor: &mut Cursor<'_>,
    owner: Option<(&KdlNode, Position)>,
) -> Result<(), AllocError>
    ensures { (n : Nesting) → nesting out.old ≡ in_owner n owner.entry → OnOk result (nesting out.new ≡ n) }
{
    out.end_array()?;
    match owner {
        Some((node, start)) => put_end(out, cursor, node, start),
        None => Ok(()),
    }
}

/// Writes a node up to its block.
fn put_head(out: &mut Out, cursor: &mut Cursor<'_>, node: &KdlNode) -> Result<(), AllocError>
    ensures { OnOk result (nesting out.new ≡ Members (after_value (nesting out.old))) }
{
    let name = node.name().value();
    out.begin_object()?;
    put_text(out, "name", if name.is_empty() { "\"\"" } else { name })?;
    put_number(out, "kind", kind(node))?;
    let name = node.name().span();
    put_range(out, "selectionRange", cursor.range(name.offset, name.len))
}

/// Returns the kind of symbol: an object, or a property.
fn kind(node: &KdlNode) -> usize {
    if node.children().is_some() { 19 } else { 7 }
}

/// Writes the end of a node.
fn put_end(
    out: &mut Out,
    cursor: &mut Cursor<'_>,
    node: &KdlNode,
    start: Position,
) -> Result<(), AllocError>
    ensures { OnOk result ((n : Nesting) → nesting out.old ≡ Members n → nesting out.new ≡ n) }
{
    let span = node.span();
    let end = cursor.position(span.offset.saturating_add(span.len));
    put_range(out, "range", Range { start, end })?;
    out.end_object()
}
