//! Edits of nodes: names, insertion and removal.

ghost use Rattle.kdl.specs.Words.{IsNodeText, NodeData, nodes_of};
ghost use Rattle.c_calls.specs.Answers.{Each, IsAmong};
ghost use Rattle.c_calls.specs.Changes.{AtNode, SameTree};
ghost use Rattle.c_calls.specs.Edits.{NoPlaceFor, NodeAbsent, NodeInserted, NodeNamed, NodeRemoved};
ghost use Rattle.c_calls.specs.Paths.{node_at};
ghost use Rattle.std.specs.Prelude.{◌≡◌, ◌∷◌, [], IfSome, IsNone};
ghost use Rattle.std.specs.Str.{IsUtf8, chars};

use c_calls::at_path::change_held;
use c_calls::first::{insert_first, remove_first};
use c_calls::given;
use c_calls::held::Handle;
use c_calls::node_change::NodeChange;
use std::alloc::Global;

/// Sets the name of the node at the path to a copy of the bytes. The name is printed in the library's spelling.
#[unsafe(no_mangle)]
pub extern "C" fn kdl_set_name(
    alloc: Global,
    document: &mut Handle,
    path: &[usize],
    name: &[u8],
) -> u32
    ensures done { result ≡ 0 → Each (AtNode path.now (NodeNamed (chars name.now)))
        document.old.held.document document.new.held.document }
    ensures utf8 { result ≡ 2 → IsUtf8 name.now → ⊥ }
    ensures kept { (result ≡ 0 → ⊥)
        → Each SameTree document.old.held.document document.new.held.document }
    ensures missing { result ≡ 5 → IsNone document.old.held.document }
    ensures absent { result ≡ 6 → IfSome document.old.held.document (λ d.
        IsNone (node_at path.now (nodes_of d))) }
    ensures statuses { IsAmong (0 ∷ 2 ∷ 3 ∷ 5 ∷ 6 ∷ []) result }
{
    let name = match given::identifier(alloc, name) {
        Ok(name) => name,
        Err(unread) => return unread.status(),
    };
    change_held(alloc, document, path, NodeChange::SetName(name))
}

/// Inserts a node, given as a text, into the block of the node at the path, or into the document if the path is empty.
/// The node is inserted before the one at the index, or after the last one if the index is the number of nodes.
///
/// Creates the block if there is none. Adds the newlines that are missing between the nodes, so that no node joins
/// another.
#[unsafe(no_mangle)]
pub extern "C" fn kdl_insert_node(
    alloc: Global,
    document: &mut Handle,
    path: &[usize],
    index: usize,
    node: &[u8],
) -> u32
    ensures done { result ≡ 0 → Each (NodeInserted path.now (chars node.now) index)
        document.old.held.document document.new.held.document }
    ensures refused { result ≡ 1 → (x : NodeData)
        → IsNodeText (chars node.now) x → ⊥ }
    ensures utf8 { result ≡ 2 → IsUtf8 node.now → ⊥ }
    ensures kept { (result ≡ 0 → ⊥)
        → Each SameTree document.old.held.document document.new.held.document }
    ensures missing { result ≡ 5 → IsNone document.old.held.document }
    ensures absent { result ≡ 6 → IfSome document.old.held.document
        (NoPlaceFor path.now index) }
    ensures statuses { IsAmong (0 ∷ 1 ∷ 2 ∷ 3 ∷ 5 ∷ 6 ∷ []) result }
{
    let node = match given::node(alloc, node) {
        Ok(node) => node,
        Err(unread) => return unread.status(),
    };
    if path.is_empty() {
        insert_first(alloc, document, index, node)
    } else {
        change_held(alloc, document, path, NodeChange::InsertChild(index, node))
    }
}

/// Removes the node at the index from the block of the node at the path, or from the document if the path is empty.
#[unsafe(no_mangle)]
pub extern "C" fn kdl_remove_node(
    alloc: Global,
    document: &mut Handle,
    path: &[usize],
    index: usize,
) -> u32
    ensures done { result ≡ 0 → Each (NodeRemoved path.now index)
        document.old.held.document document.new.held.document }
    ensures kept { (result ≡ 0 → ⊥)
        → Each SameTree document.old.held.document document.new.held.document }
    ensures missing { result ≡ 5 → IsNone document.old.held.document }
    ensures absent { result ≡ 6 → IfSome document.old.held.document
        (NodeAbsent path.now index) }
    ensures statuses { IsAmong (0 ∷ 3 ∷ 5 ∷ 6 ∷ []) result }
{
    if path.is_empty() {
        remove_first(alloc, document, index)
    } else {
        change_held(alloc, document, path, NodeChange::RemoveChild(index))
    }
}
