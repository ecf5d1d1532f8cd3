//! Edits of a node's entries.

ghost use Rattle.kdl.specs.Lookups.{entries_of, entry_there};
ghost use Rattle.kdl_entry.specs.Tree.{entry_tree};
ghost use Rattle.kdl_parts.specs.Edits.{GoesUnder, HasArgumentAt, HasRoomAt, IsInserted, removed};
ghost use Rattle.kdl_parts.specs.EntryLists.{removed_place, sought};
ghost use Rattle.std.specs.List.Sorted.{IsPermutation, IsStableByClosure};
ghost use Rattle.std.specs.Prelude.{◌≡◌, OnOk};

use kdl::{KdlEntry, KdlNode, NodeKey};
use std::alloc::AllocError;
use std::cmp::Ordering;

/// `KdlNode::insert`: the entries afterwards.
pub fn insert(
    node: &mut KdlNode,
    key: NodeKey,
    entry: KdlEntry,
) -> Result<Option<KdlEntry>, (KdlEntry, AllocError)>
    requires fits { GoesUnder (sought key) (entry_tree entry) }
    requires room { HasRoomAt (sought key) (entries_of node.old) }
    ensures items { OnOk result (IsInserted key entry (entries_of node.old) (entries_of node.new)) }
{
    node.insert(key, entry)
}

/// `KdlNode::remove`: the entries afterwards, and the one that is returned.
pub fn remove(node: &mut KdlNode, key: NodeKey) -> Option<KdlEntry>
    requires { HasArgumentAt (sought key) (entries_of node.old) }
    ensures items { entries_of node.new ≡ removed key (entries_of node.old) }
    ensures value { result ≡ entry_there (removed_place key (entries_of node.old)) node.old }
{
    node.remove(key)
}

/// `KdlNode::sort_by`: the same entries, of which equal ones keep their order.
pub fn sort_by<F: FnMut(&KdlEntry, &KdlEntry) -> Ordering>(
    node: &mut KdlNode,
    compare: F,
) -> Result<(), AllocError>
    requires { F.IsAlwaysCallable compare }
    ensures permutation { IsPermutation (entries_of node.old) (entries_of node.new) }
    ensures stable { IsStableByClosure F.FnMut compare
        (entries_of node.old) (entries_of node.new) }
{
    node.sort_by(compare)
}
