//! Nodes inserted among others and removed.

ghost use Rattle.kdl.specs.Change.{with_nodes};
ghost use Rattle.kdl.specs.DocumentLookups.{nodes_of};
ghost use Rattle.kdl.specs.Exact.{IsPutExactly};
ghost use Rattle.kdl.specs.Fields.{held_nodes};
ghost use Rattle.kdl.specs.Nodes.{PrintsWithout};
ghost use Rattle.std.specs.List.{remove};
ghost use Rattle.std.specs.Prelude.{◌≡◌, ◌<◌, OnOk, Some, length, slice_get};

use kdl::{KdlDocument, KdlNode};
use std::alloc::AllocError;

/// `KdlDocument::push_node`: the newlines that are lacking, and no more.
pub fn push_node(document: &mut KdlDocument, node: KdlNode) -> Result<(), (KdlNode, AllocError)>
    ensures { OnOk result
        (IsPutExactly (length (nodes_of document.old)) node document.old document.new) }
{
    document.push_node(node)
}

/// `KdlDocument::remove_node`: the nodes afterwards, the one that is returned, and what is printed.
pub fn remove_node(document: &mut KdlDocument, index: usize) -> KdlNode
    requires { index < length (nodes_of document.old) }
    ensures nodes { nodes_of document.new ≡ remove (nodes_of document.old) index }
    ensures rest { document.new ≡ with_nodes document.old (held_nodes document.new) }
    ensures value { slice_get (nodes_of document.old) index ≡ Some result }
    ensures prints { PrintsWithout index result document.old document.new }
{
    document.remove_node(index)
}
