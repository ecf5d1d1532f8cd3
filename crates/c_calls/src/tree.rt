//! The rows of a whole document, or of one node with its block.

ghost use Rattle.kdl.specs.Words.{document_says, node_says};
ghost use Rattle.c_calls.specs.Flat.{Item, RowsSay, flattened, head_items, listed, node_items};
ghost use Rattle.c_calls.specs.Rows.{AreWithin};
ghost use Rattle.c_calls.specs.Says.{IsWithin};
ghost use Rattle.std.specs.Prelude.{◌≡◌, ◌≤◌, ◌+◌, ◌++◌, List, OnOk, length, map, slice_set};

use crate::row::{END, KdlRow, NO_VALUE, put_entry, put_node};
use kdl::{KdlDocument, KdlNode};
use std::alloc::{AllocError, Global};
use std::slice;

/// Returns the row that ends a block.
fn end_row() -> KdlRow
    ensures within { IsWithin 0 result }
    ensures kind { result.kind ≡ 4 }
{
    KdlRow {
        kind: END,
        value: NO_VALUE,
        has_type: 0,
        has_block: 0,
        integer: 0,
        name_start: 0,
        name_len: 0,
        type_start: 0,
        type_len: 0,
        text_start: 0,
        text_len: 0,
        start: 0,
        len: 0,
    }
}

/// Appends a row, if there is room, and counts it in any case.
fn put_row(row: KdlRow, rows: &mut [KdlRow], count: &mut usize)
    ensures more { count.old ≤ count.new }
    ensures counted { count.new ≤ length rows.old → count.new ≡ count.old + 1 }
    ensures written { count.new ≤ length rows.old → rows.new ≡ slice_set rows.old count.old row }
{
    if *count < rows.len() {
        rows[*count] = row;
    }
    *count = count.saturating_add(1);
}

/// Appends the rows of a node and of its entries. Returns an error if an allocation fails.
fn put_node_rows(
    alloc: Global,
    node: &KdlNode,
    rows: &mut [KdlRow],
    count: &mut usize,
    strings: &mut [u8],
    used: &mut usize,
) -> Result<(), AllocError>
    ensures within { OnOk result (AreWithin rows.old count.old strings.old used.old
        → AreWithin rows.new count.new strings.new used.new) }
    ensures says { OnOk result ((items : List Item)
        → RowsSay rows.old count.old strings.old used.old items
        → RowsSay rows.new count.new strings.new used.new
        (items ++ head_items (node_says node.now))) }
{
    put_row(put_node(node, strings, used), rows, count);
    let entries = node.entries();
    for entry in entries {
        put_row(put_entry(alloc, entry, strings, used)?, rows, count);
    }
    Ok(())
}

/// Appends the rows of nodes: for each node its row, the rows of its entries and, if it has a block, the rows of its
/// children and a row that ends the block.
///
/// Rows and texts that do not fit are not written, but counted in `count` and `used`.
///
/// Uses a stack on the heap instead of recursion, so that no depth of blocks overflows the call stack. Returns an error
/// if an allocation fails.
fn put_nodes(
    alloc: Global,
    nodes: &[KdlNode],
    rows: &mut [KdlRow],
    count: &mut usize,
    strings: &mut [u8],
    used: &mut usize,
) -> Result<(), AllocError>
    ensures within { OnOk result (AreWithin rows.old count.old strings.old used.old
        → AreWithin rows.new count.new strings.new used.new) }
    ensures says { count.old ≡ 0 → used.old ≡ 0 → OnOk result (RowsSay rows.new count.new
        strings.new used.new (listed (map node_says nodes.now))) }
{
    let mut above: Vec<&[KdlNode]> = Vec::new(alloc);
    let mut rest = nodes;
    'left: loop {
        if let Some((node, after)) = rest.split_first() {
            put_node_rows(alloc, node, rows, count, strings, used)?;
            rest = match node.children() {
                Some(block) => {
                    above.push(after)?;
                    block.nodes()
                }
                None => after,
            };
        } else {
            let Some(after) = above.pop() else {
                return Ok(());
            };
            put_row(end_row(), rows, count);
            rest = after;
        }
    }
}

/// Appends the rows of all nodes of a document, as `put_nodes` does.
pub fn put_tree(
    alloc: Global,
    document: &KdlDocument,
    rows: &mut [KdlRow],
    count: &mut usize,
    strings: &mut [u8],
    used: &mut usize,
) -> Result<(), AllocError>
    ensures within { OnOk result (AreWithin rows.old count.old strings.old used.old
        → AreWithin rows.new count.new strings.new used.new) }
    ensures says { count.old ≡ 0 → used.old ≡ 0 → OnOk result (RowsSay rows.new count.new
        strings.new used.new (flattened (document_says document.now))) }
{
    put_nodes(alloc, document.nodes(), rows, count, strings, used)
}

/// Appends the rows of one node, as `put_nodes` does.
pub fn put_node_tree(
    alloc: Global,
    node: &KdlNode,
    rows: &mut [KdlRow],
    count: &mut usize,
    strings: &mut [u8],
    used: &mut usize,
) -> Result<(), AllocError>
    ensures within { OnOk result (AreWithin rows.old count.old strings.old used.old
        → AreWithin rows.new count.new strings.new used.new) }
    ensures says { count.old ≡ 0 → used.old ≡ 0 → OnOk result (RowsSay rows.new count.new
        strings.new used.new (node_items (node_says node.now))) }
{
    put_nodes(alloc, slice::from_ref(node), rows, count, strings, used)
}
