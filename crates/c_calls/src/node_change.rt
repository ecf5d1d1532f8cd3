//! Changes to one node.

ghost use Rattle.kdl.specs.Words.{ChildPut, child_nodes, entries_of, node_tree};
ghost use Rattle.c_calls.specs.Changes.{AtEntry};
ghost use Rattle.c_calls.specs.Edits.{ChildRemoved};
ghost use Rattle.c_calls.specs.Internal.Done.{EntryPut, IsDone, Lacks, changed_entry};
ghost use Rattle.c_calls.specs.declared.status.Refused.TheVariants.{NotFound};
ghost use Rattle.std.specs.Prelude.{◌≡◌, ◌<◌, ◌≤◌, IfErr, OnErr, OnOk, length};

use crate::entries::remove_entry;
use crate::entry_change::EntryChange;
use crate::status::Refused;
use kdl::{KdlEntry, KdlIdentifier, KdlNode};
use std::alloc::Global;

/// A change to one node.
#[derive(Drop)]
pub enum NodeChange {
    /// Sets the name.
    SetName(KdlIdentifier),
    /// Sets the type, or removes it for `None`.
    SetType(Option<KdlIdentifier>),
    /// Changes the entry at the index.
    ChangeEntry(usize, EntryChange),
    /// Inserts an entry before the one at the index, or after the last one.
    InsertEntry(usize, KdlEntry),
    /// Removes the entry at the index.
    RemoveEntry(usize),
    /// Inserts a node into the block, before the one at the index, or after the last one.
    InsertChild(usize, KdlNode),
    /// Removes the node at the index of the block.
    RemoveChild(usize),
}

impl NodeChange {
    /// Applies the change.
    ///
    /// Fails if the index of the change is too large, or if an allocation fails. The node is then unchanged.
    pub fn make(self, alloc: Global, node: &mut KdlNode) -> Result<(), Refused>
        ensures done { OnOk result (IsDone self node.old node.new) }
        ensures refused { OnErr result (node_tree node.new ≡ node_tree node.old) }
        ensures absent { IfErr result (λ r. r ≡ NotFound → Lacks self node.old) }
    {
        match self {
            NodeChange::SetName(name) => {
                node.set_name(name);
                Ok(())
            }
            NodeChange::SetType(ty) => {
                *node.ty_mut() = ty;
                Ok(())
            }
            NodeChange::ChangeEntry(index, change) => change_entry(alloc, node, index, change),
            NodeChange::InsertEntry(index, entry) => insert_entry(node, index, entry),
            NodeChange::RemoveEntry(index) => remove_entry(node, index),
            NodeChange::InsertChild(index, child) => insert_child(node, index, child),
            NodeChange::RemoveChild(index) => remove_child(node, index),
        }
    }
}

/// Applies the change to the entry at the index. Fails if there is none.
fn change_entry(
    alloc: Global,
    node: &mut KdlNode,
    index: usize,
    change: EntryChange,
) -> Result<(), Refused>
    ensures done { OnOk result
        (AtEntry index (λ e f. f ≡ changed_entry change e) node.old node.new) }
    ensures refused { OnErr result (node.new ≡ node.old) }
    ensures absent { IfErr result (λ r. r ≡ NotFound → length (entries_of node.old) ≤ index) }
{
    match node.entries_mut().get_mut(index) {
        Some(entry) => {
            change.make(alloc, entry);
            Ok(())
        }
        None => {
            drop(change);
            Err(Refused::NotFound)
        }
    }
}

/// Inserts the entry before the one at the index, or after the last one. Fails if the index is greater than the number
/// of entries, or if an allocation fails.
fn insert_entry(node: &mut KdlNode, index: usize, entry: KdlEntry) -> Result<(), Refused>
    ensures done { OnOk result (EntryPut index entry node.old node.new) }
    ensures refused { OnErr result (node_tree node.new ≡ node_tree node.old) }
    ensures absent { IfErr result (λ r. r ≡ NotFound → length (entries_of node.old) < index) }
{
    let entries = node.entries_mut();
    if entries.len() < index {
        drop(entry);
        return Err(Refused::NotFound);
    }
    match entries.insert(index, entry) {
        Ok(()) => Ok(()),
        Err(refused) => {
            drop(refused.value);
            Err(Refused::Memory)
        }
    }
}

/// Inserts the node into the block, before the one at the index, or after the last one. Creates the block if there is
/// none. Fails if the index is greater than the number of nodes in the block, or if an allocation fails.
fn insert_child(node: &mut KdlNode, index: usize, child: KdlNode) -> Result<(), Refused>
    ensures done { OnOk result (ChildPut index child node.old node.new) }
    ensures refused { OnErr result (node_tree node.new ≡ node_tree node.old) }
    ensures absent { IfErr result (λ r. r ≡ NotFound → length (child_nodes node.old) < index) }
{
    let count = match node.children() {
        Some(block) => block.nodes().len(),
        None => 0,
    };
    if count < index {
        drop(child);
        return Err(Refused::NotFound);
    }
    match node.insert_child(index, child) {
        Ok(()) => Ok(()),
        Err((child, _)) => {
            drop(child);
            Err(Refused::Memory)
        }
    }
}

/// Removes the node at the index of the block. Fails if there is none.
fn remove_child(node: &mut KdlNode, index: usize) -> Result<(), Refused>
    ensures done { OnOk result (ChildRemoved index node.old node.new) }
    ensures refused { OnErr result (node_tree node.new ≡ node_tree node.old) }
    ensures absent { IfErr result (λ r. r ≡ NotFound → length (child_nodes node.old) ≤ index) }
{
    match node.children_mut() {
        Some(block) if index < block.nodes().len() => {
            drop(block.remove_node(index));
            Ok(())
        }
        _ => Err(Refused::NotFound),
    }
}
