//! The rows of a document, all at once and one at a time.

ghost use Rattle.kdl.specs.Words.{document_says, entries_of, entry_data, entry_tree, node_says, node_span_of, nodes_of};
ghost use Rattle.c_calls.specs.Answers.{IsAmong};
ghost use Rattle.c_calls.specs.Flat.{SayAll, flattened, node_items};
ghost use Rattle.c_calls.specs.Paths.{node_at, nodes_at};
ghost use Rattle.c_calls.specs.Says.{IsWithin, SaysEntry, SaysNode};
ghost use Rattle.std.specs.Prelude.{◌≡◌, ◌≤◌, ◌<◌, ◌∷◌, [], All, IfSome, IsNone, IsSome, IsSomeAnd, length, slice_get, take};

use c_calls::held::Handle;
use c_calls::path::{node_at, nodes_at};
use c_calls::row::{KdlRow, put_found, put_node};
use c_calls::status::{NO_DOCUMENT, NOT_FOUND, OK, OUT_OF_MEMORY, room};
use c_calls::tree::{put_node_tree, put_tree};
use std::alloc::Global;

/// Writes the whole document as rows. Each node has its own row, and a row for each entry. If the node has a block, the
/// rows of its children follow, and a row that ends the block.
///
/// Sets `row_count` and `string_len` to the whole counts of rows and bytes. If one of them exceeds its room, the rows
/// and strings are incomplete, and the status is `TOO_SMALL`.
#[unsafe(no_mangle)]
pub extern "C" fn kdl_tree(
    alloc: Global,
    document: &mut Handle,
    rows: &mut [KdlRow],
    row_count: &mut usize,
    strings: &mut [u8],
    string_len: &mut usize,
) -> u32
    ensures same { document.new.held.document ≡ document.old.held.document }
    ensures rows { result ≡ 0 → row_count.new ≤ length rows.old }
    ensures within { result ≡ 0 → All (IsWithin string_len.new) (take row_count.new rows.new) }
    ensures strings { result ≡ 0 → string_len.new ≤ length strings.old }
    ensures small { result ≡ 4 → row_count.new ≤ length rows.old
        → string_len.new ≤ length strings.old → ⊥ }
    ensures says { result ≡ 0 → IfSome document.old.held.document (λ d.
        SayAll (take string_len.new strings.new) (take row_count.new rows.new)
        (flattened (document_says d))) }
    ensures held { IsAmong (0 ∷ 4 ∷ []) result → IsSome document.old.held.document }
    ensures missing { result ≡ 5 → IsNone document.old.held.document }
    ensures statuses { IsAmong (0 ∷ 3 ∷ 4 ∷ 5 ∷ []) result }
{
    *row_count = 0;
    *string_len = 0;
    let Some(held) = document.take(alloc) else {
        return NO_DOCUMENT;
    };
    let status = match put_tree(alloc, &held, rows, row_count, strings, string_len) {
        Err(_) => OUT_OF_MEMORY,
        Ok(()) => room(rows.len(), *row_count, strings.len(), *string_len),
    };
    document.put(held);
    status
}

/// Writes the node at the path with its block as rows, as `kdl_tree` does for a whole document.
#[unsafe(no_mangle)]
pub extern "C" fn kdl_node_tree(
    alloc: Global,
    document: &mut Handle,
    path: &[usize],
    rows: &mut [KdlRow],
    row_count: &mut usize,
    strings: &mut [u8],
    string_len: &mut usize,
) -> u32
    ensures same { document.new.held.document ≡ document.old.held.document }
    ensures rows { result ≡ 0 → row_count.new ≤ length rows.old }
    ensures within { result ≡ 0 → All (IsWithin string_len.new) (take row_count.new rows.new) }
    ensures strings { result ≡ 0 → string_len.new ≤ length strings.old }
    ensures small { result ≡ 4 → row_count.new ≤ length rows.old
        → string_len.new ≤ length strings.old → ⊥ }
    ensures says { result ≡ 0 → IfSome document.old.held.document (λ d.
        IfSome (node_at path.now (nodes_of d)) (λ n. SayAll (take string_len.new strings.new)
        (take row_count.new rows.new) (node_items (node_says n)))) }
    ensures there { IsAmong (0 ∷ 3 ∷ 4 ∷ []) result → IsSomeAnd document.old.held.document (λ d.
        IsSome (node_at path.now (nodes_of d))) }
    ensures absent { result ≡ 6 → IsSomeAnd document.old.held.document (λ d.
        IsNone (node_at path.now (nodes_of d))) }
    ensures missing { result ≡ 5 → IsNone document.old.held.document }
    ensures statuses { IsAmong (0 ∷ 3 ∷ 4 ∷ 5 ∷ 6 ∷ []) result }
{
    *row_count = 0;
    *string_len = 0;
    let Some(held) = document.take(alloc) else {
        return NO_DOCUMENT;
    };
    let status = match node_at(&held, path) {
        None => NOT_FOUND,
        Some(node) => match put_node_tree(alloc, node, rows, row_count, strings, string_len) {
            Err(_) => OUT_OF_MEMORY,
            Ok(()) => room(rows.len(), *row_count, strings.len(), *string_len),
        },
    };
    document.put(held);
    status
}

/// Counts the nodes in the block of the node at the path, or in the document if the path is empty.
#[unsafe(no_mangle)]
pub extern "C" fn kdl_node_count(
    alloc: Global,
    document: &mut Handle,
    path: &[usize],
    count: &mut usize,
) -> u32
    ensures counted { result ≡ 0 → IsSomeAnd document.old.held.document (λ d.
        IsSomeAnd (nodes_at path.now (nodes_of d)) (λ ns. count.new ≡ length ns)) }
    ensures absent { result ≡ 6 → IsSomeAnd document.old.held.document (λ d.
        IsNone (nodes_at path.now (nodes_of d))) }
    ensures cleared { (result ≡ 0 → ⊥) → count.new ≡ 0 }
    ensures same { document.new.held.document ≡ document.old.held.document }
    ensures missing { result ≡ 5 → IsNone document.old.held.document }
    ensures statuses { IsAmong (0 ∷ 5 ∷ 6 ∷ []) result }
{
    *count = 0;
    let Some(held) = document.take(alloc) else {
        return NO_DOCUMENT;
    };
    let status = match nodes_at(&held, path) {
        None => NOT_FOUND,
        Some(nodes) => {
            *count = nodes.len();
            OK
        }
    };
    document.put(held);
    status
}

/// Writes the row of the node at the path, and sets `entries` to the number of its entries.
#[unsafe(no_mangle)]
pub extern "C" fn kdl_node(
    alloc: Global,
    document: &mut Handle,
    path: &[usize],
    entries: &mut usize,
    row: &mut KdlRow,
    strings: &mut [u8],
    string_len: &mut usize,
) -> u32
    ensures there { IsAmong (0 ∷ 4 ∷ []) result → IsSomeAnd document.old.held.document (λ d.
        IsSomeAnd (node_at path.now (nodes_of d)) (λ n. entries.new ≡ length (entries_of n))) }
    ensures absent { result ≡ 6 → IsSomeAnd document.old.held.document (λ d.
        IsNone (node_at path.now (nodes_of d))) }
    ensures span { IsAmong (0 ∷ 4 ∷ []) result → IfSome document.old.held.document (λ d.
        IfSome (node_at path.now (nodes_of d)) (λ n.
        (row.new.start ≡ (node_span_of n).offset) × (row.new.len ≡ (node_span_of n).len))) }
    ensures within { result ≡ 0 → IsWithin string_len.new row.new }
    ensures says { result ≡ 0 → IfSome document.old.held.document (λ d.
        IfSome (node_at path.now (nodes_of d)) (λ n.
        SaysNode (take string_len.new strings.new) row.new (node_says n))) }
    ensures same { document.new.held.document ≡ document.old.held.document }
    ensures strings { result ≡ 0 → string_len.new ≤ length strings.old }
    ensures small { result ≡ 4 → length strings.old < string_len.new }
    ensures missing { result ≡ 5 → IsNone document.old.held.document }
    ensures statuses { IsAmong (0 ∷ 4 ∷ 5 ∷ 6 ∷ []) result }
{
    *entries = 0;
    *string_len = 0;
    let Some(held) = document.take(alloc) else {
        return NO_DOCUMENT;
    };
    let status = match node_at(&held, path) {
        None => NOT_FOUND,
        Some(node) => {
            *entries = node.len();
            *row = put_node(node, strings, string_len);
            room(0, 0, strings.len(), *string_len)
        }
    };
    document.put(held);
    status
}

/// Writes the row of the entry at the index in the node at the path.
#[unsafe(no_mangle)]
pub extern "C" fn kdl_entry(
    alloc: Global,
    document: &mut Handle,
    path: &[usize],
    index: usize,
    row: &mut KdlRow,
    strings: &mut [u8],
    string_len: &mut usize,
) -> u32
    ensures there { IsAmong (0 ∷ 4 ∷ []) result → IsSomeAnd document.old.held.document (λ d.
        IsSomeAnd (node_at path.now (nodes_of d)) (λ n. index < length (entries_of n))) }
    ensures within { result ≡ 0 → IsWithin string_len.new row.new }
    ensures says { result ≡ 0 → IfSome document.old.held.document (λ d.
        IfSome (node_at path.now (nodes_of d)) (λ n. IfSome (slice_get (entries_of n) index) (λ e.
        SaysEntry (take string_len.new strings.new) row.new (entry_data (entry_tree e))))) }
    ensures absent { result ≡ 6 → IsSomeAnd document.old.held.document (λ d.
        IfSome (node_at path.now (nodes_of d)) (λ n. length (entries_of n) ≤ index)) }
    ensures same { document.new.held.document ≡ document.old.held.document }
    ensures strings { result ≡ 0 → string_len.new ≤ length strings.old }
    ensures small { result ≡ 4 → length strings.old < string_len.new }
    ensures missing { result ≡ 5 → IsNone document.old.held.document }
    ensures statuses { IsAmong (0 ∷ 3 ∷ 4 ∷ 5 ∷ 6 ∷ []) result }
{
    *string_len = 0;
    let Some(held) = document.take(alloc) else {
        return NO_DOCUMENT;
    };
    let status = match node_at(&held, path) {
        None => NOT_FOUND,
        Some(node) => match node.entries().get(index) {
            None => NOT_FOUND,
            Some(entry) => put_found(alloc, entry, row, strings, string_len),
        },
    };
    document.put(held);
    status
}
