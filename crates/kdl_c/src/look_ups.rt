//! Look-ups of nodes by name, and of entries by key.

ghost use Rattle.kdl.specs.Words.{argument, argument_named, entry_data, entry_tree, is_node_named, node_says, nodes_of, property_place, said_entry};
ghost use Rattle.c_calls.specs.Answers.{IsAmong};
ghost use Rattle.c_calls.specs.Paths.{node_at, nodes_at};
ghost use Rattle.c_calls.specs.Says.{IsWithin, SaysEntry};
ghost use Rattle.std.specs.Prelude.{◌≡◌, ◌≤◌, ◌<◌, ◌∷◌, [], IfSome, IsNone, IsSome, IsSomeAnd, None, Some, length, option_and_then, position, take};
ghost use Rattle.std.specs.Str.{IsUtf8};

use c_calls::entries::last_property;
use c_calls::held::Handle;
use c_calls::names::{first_argument, first_named, put_index};
use c_calls::path::{node_at, nodes_at};
use c_calls::row::{KdlRow, put_found};
use c_calls::status::{NO_DOCUMENT, NOT_FOUND, NOT_UTF8};
use kdl::NodeKey;
use std::alloc::Global;

/// Writes the row of the first argument of the first node of that name in the document. Names are compared by value,
/// not by spelling.
#[unsafe(no_mangle)]
pub extern "C" fn kdl_get(
    alloc: Global,
    document: &mut Handle,
    name: &[u8],
    row: &mut KdlRow,
    strings: &mut [u8],
    string_len: &mut usize,
) -> u32
    ensures there { IsAmong (0 ∷ 4 ∷ []) result → IsSomeAnd document.old.held.document (λ d.
        IsSome (argument_named name.now d)) }
    ensures absent { result ≡ 6 → IsSomeAnd document.old.held.document (λ d.
        IsNone (argument_named name.now d)) }
    ensures says { result ≡ 0 → IfSome document.old.held.document (λ d.
        IfSome (argument_named name.now d) (λ e.
        SaysEntry (take string_len.new strings.new) row.new (entry_data (entry_tree e)))) }
    ensures within { result ≡ 0 → IsWithin string_len.new row.new }
    ensures strings { result ≡ 0 → string_len.new ≤ length strings.old }
    ensures small { result ≡ 4 → length strings.old < string_len.new }
    ensures same { document.new.held.document ≡ document.old.held.document }
    ensures missing { result ≡ 5 → IsNone document.old.held.document }
    ensures utf8 { result ≡ 2 → IsUtf8 name.now → ⊥ }
    ensures statuses { IsAmong (0 ∷ 2 ∷ 3 ∷ 4 ∷ 5 ∷ 6 ∷ []) result }
{
    *string_len = 0;
    let Ok(name) = std::str::from_utf8(name) else {
        return NOT_UTF8;
    };
    let Some(held) = document.take(alloc) else {
        return NO_DOCUMENT;
    };
    let status = match first_argument(&held, name) {
        None => NOT_FOUND,
        Some(entry) => put_found(alloc, entry, row, strings, string_len),
    };
    document.put(held);
    status
}

/// Writes the row of an argument of the node at the path. Arguments alone are counted, from 0.
#[unsafe(no_mangle)]
pub extern "C" fn kdl_argument(
    alloc: Global,
    document: &mut Handle,
    path: &[usize],
    number: usize,
    row: &mut KdlRow,
    strings: &mut [u8],
    string_len: &mut usize,
) -> u32
    ensures there { IsAmong (0 ∷ 4 ∷ []) result → IsSomeAnd document.old.held.document (λ d.
        IsSomeAnd (node_at path.now (nodes_of d)) (λ n.
        IsSome (said_entry (argument number) (node_says n)))) }
    ensures says { result ≡ 0 → IfSome document.old.held.document (λ d.
        IfSome (node_at path.now (nodes_of d)) (λ n.
        IfSome (said_entry (argument number) (node_says n)) (λ e.
        SaysEntry (take string_len.new strings.new) row.new e))) }
    ensures absent { result ≡ 6 → IsSomeAnd document.old.held.document (λ d.
        IfSome (node_at path.now (nodes_of d)) (λ n.
        IsNone (said_entry (argument number) (node_says n)))) }
    ensures within { result ≡ 0 → IsWithin string_len.new row.new }
    ensures strings { result ≡ 0 → string_len.new ≤ length strings.old }
    ensures small { result ≡ 4 → length strings.old < string_len.new }
    ensures same { document.new.held.document ≡ document.old.held.document }
    ensures missing { result ≡ 5 → IsNone document.old.held.document }
    ensures statuses { IsAmong (0 ∷ 3 ∷ 4 ∷ 5 ∷ 6 ∷ []) result }
{
    *string_len = 0;
    let Some(held) = document.take(alloc) else {
        return NO_DOCUMENT;
    };
    let status = match node_at(&held, path) {
        None => NOT_FOUND,
        Some(node) => match node.entry(NodeKey::Index(number)) {
            None => NOT_FOUND,
            Some(entry) => put_found(alloc, entry, row, strings, string_len),
        },
    };
    document.put(held);
    status
}

/// Finds the index of the first node of that name in the block of the node at the path, or in the document if the path
/// is empty. Names are compared by value, not by spelling.
#[unsafe(no_mangle)]
pub extern "C" fn kdl_find(
    alloc: Global,
    document: &mut Handle,
    path: &[usize],
    name: &[u8],
    index: &mut usize,
) -> u32
    ensures found { result ≡ 0 → IsSomeAnd document.old.held.document (λ d.
        option_and_then (position (is_node_named name.now)) (nodes_at path.now (nodes_of d))
        ≡ Some index.new) }
    ensures absent { result ≡ 6 → IsSomeAnd document.old.held.document (λ d.
        option_and_then (position (is_node_named name.now)) (nodes_at path.now (nodes_of d))
        ≡ None) }
    ensures same { document.new.held.document ≡ document.old.held.document }
    ensures utf8 { result ≡ 2 → IsUtf8 name.now → ⊥ }
    ensures missing { result ≡ 5 → IsNone document.old.held.document }
    ensures statuses { IsAmong (0 ∷ 2 ∷ 5 ∷ 6 ∷ []) result }
{
    *index = 0;
    let Ok(name) = std::str::from_utf8(name) else {
        return NOT_UTF8;
    };
    let Some(held) = document.take(alloc) else {
        return NO_DOCUMENT;
    };
    let status = match nodes_at(&held, path) {
        None => NOT_FOUND,
        Some(nodes) => put_index(first_named(nodes, name), index),
    };
    document.put(held);
    status
}

/// Finds the index of the last property of that name among the entries of the node at the path. In KDL, the last
/// property of a name is the one that counts.
#[unsafe(no_mangle)]
pub extern "C" fn kdl_find_entry(
    alloc: Global,
    document: &mut Handle,
    path: &[usize],
    name: &[u8],
    index: &mut usize,
) -> u32
    ensures found { result ≡ 0 → IsSomeAnd document.old.held.document (λ d.
        option_and_then (property_place name.now) (node_at path.now (nodes_of d))
        ≡ Some index.new) }
    ensures absent { result ≡ 6 → IsSomeAnd document.old.held.document (λ d.
        option_and_then (property_place name.now) (node_at path.now (nodes_of d)) ≡ None) }
    ensures same { document.new.held.document ≡ document.old.held.document }
    ensures utf8 { result ≡ 2 → IsUtf8 name.now → ⊥ }
    ensures missing { result ≡ 5 → IsNone document.old.held.document }
    ensures statuses { IsAmong (0 ∷ 2 ∷ 5 ∷ 6 ∷ []) result }
{
    *index = 0;
    let Ok(name) = std::str::from_utf8(name) else {
        return NOT_UTF8;
    };
    let Some(held) = document.take(alloc) else {
        return NO_DOCUMENT;
    };
    let status = match node_at(&held, path) {
        None => NOT_FOUND,
        Some(node) => put_index(last_property(node.entries(), name), index),
    };
    document.put(held);
    status
}
