//! Changes to the node at the end of a path of indices.

ghost use Rattle.kdl.specs.Words.{ChildPut, NodeReadsBack, ReadsAs, child_nodes, entry_tree, value_tree};
ghost use Rattle.c_calls.specs.Changes.{AtNode};
ghost use Rattle.kdl_path.specs.Internal.Changed.{IsChildPushed, IsChildRemoved, IsEntryPushed, IsMade, IsMadeIn, IsTaken, IsTakenFrom, IsValueSet, with_format, with_spelled};
ghost use Rattle.kdl_path.specs.Internal.Laid.{IsBlockLaid, IsLaid};
ghost use Rattle.kdl_value.specs.Tree.{text_of};
ghost use Rattle.std.specs.Prelude.{◌≡◌, IfOk, OnOk, length};

use crate::laid::{begin_line, end_line, spaces};
use crate::layout::begins_line;
use crate::value::Spelled;
use c_calls::entries;
use c_calls::entries::remove_entry;
use c_calls::opened::Opened;
use c_calls::status::Refused;
use kdl::{KdlDocument, KdlEntry, KdlEntryFormat, KdlNode};
use std::alloc::{AllocError, Global};

/// A change to one node.
#[derive(Drop)]
pub(crate) enum Change {
    /// Sets the value of the entry at that place, in its spelling.
    SetValue(usize, Spelled),
    /// Appends the entry.
    PushEntry(KdlEntry),
    /// Removes the entry at that place.
    RemoveEntry(usize),
    /// Appends the node to the block, which is made if there is none.
    PushChild(KdlNode),
    /// Removes the node at that place of the block.
    RemoveChild(usize),
}

impl Change {
    /// Applies the change.
    fn make(self, alloc: Global, node: &mut KdlNode) -> Result<(), Refused>
        ensures { OnOk result (IsMade self node.old node.new) }
    {
        match self {
            Change::SetValue(at, value) => set_value_at(alloc, node, at, value),
            Change::PushEntry(entry) => push_entry(node, entry),
            Change::RemoveEntry(at) => remove_entry(node, at),
            Change::PushChild(child) => push_child(alloc, node, child),
            Change::RemoveChild(at) => remove_child(alloc, node, at),
        }
    }
}

/// Sets the value of the entry at that place, in its spelling.
fn set_value_at(alloc: Global, node: &mut KdlNode, at: usize, value: Spelled) -> Result<(), Refused>
    ensures { OnOk result
        (IsValueSet at (value_tree value.value) (text_of value.spelling) node.old node.new) }
{
    match node.entries_mut().get_mut(at) {
        Some(entry) => match set_spelled(alloc, entry, value) {
            Ok(()) => Ok(()),
            Err(_) => Err(Refused::Memory),
        },
        None => {
            drop(value);
            Err(Refused::NotFound)
        }
    }
}

/// Sets the value of the entry, in its spelling. An entry without a format gets one, of the texts that it prints.
pub(crate) fn set_spelled(
    alloc: Global,
    entry: &mut KdlEntry,
    value: Spelled,
) -> Result<(), AllocError>
    ensures { OnOk result (entry_tree entry.new
        ≡ with_spelled (value_tree value.value) (text_of value.spelling) (entry_tree entry.old)) }
{
    let Spelled { value, spelling } = value;
    give_format(alloc, entry)?;
    entries::set_spelled(entry, value, spelling);
    Ok(())
}

/// Gives the entry a format of a space, if it has none.
fn give_format(alloc: Global, entry: &mut KdlEntry) -> Result<(), AllocError>
    ensures { OnOk result (entry_tree entry.new ≡ with_format (entry_tree entry.old)) }
{
    if entry.format().is_some() {
        return Ok(());
    }
    let mut format = KdlEntryFormat::new(alloc);
    format.leading = String::from_str(alloc, " ")?;
    entry.set_format(format);
    Ok(())
}

/// Appends the entry.
pub(crate) fn push_entry(node: &mut KdlNode, entry: KdlEntry) -> Result<(), Refused>
    ensures { OnOk result (IsEntryPushed entry node.old node.new) }
{
    match node.push(entry) {
        Ok(()) => Ok(()),
        Err((entry, _)) => {
            drop(entry);
            Err(Refused::Memory)
        }
    }
}

/// Appends the node to the block, which is made if there is none.
pub(crate) fn push_child(alloc: Global, node: &mut KdlNode, child: KdlNode) -> Result<(), Refused>
    ensures { OnOk result (IsChildPushed child node.old node.new) }
{
    match make_room(alloc, node) {
        Ok(()) => put_child(node, child),
        Err(_) => {
            drop(child);
            Err(Refused::Memory)
        }
    }
}

/// Appends the node to the block.
fn put_child(node: &mut KdlNode, child: KdlNode) -> Result<(), Refused>
    ensures put { OnOk result
        (ChildPut (length (child_nodes node.old)) child node.old node.new) }
    ensures reads { NodeReadsBack child → ReadsAs node.old node.new }
{
    match node.push_child(child) {
        Ok(()) => Ok(()),
        Err(_) => Err(Refused::Memory),
    }
}

/// Makes room for one more node in the block: its last node gets a `;` where only spaces follow it, and a node without a
/// block gets a space before its end.
fn make_room(alloc: Global, node: &mut KdlNode) -> Result<(), AllocError>
    ensures { OnOk result (IsLaid node.old node.new) }
{
    match node.children_mut() {
        Some(block) => end_last(alloc, block),
        None => space_before_block(alloc, node),
    }
}

/// Ends the last node of the block with a `;`, if only spaces follow it.
fn end_last(alloc: Global, block: &mut KdlDocument) -> Result<(), AllocError>
    ensures { OnOk result (IsBlockLaid block.old block.new) }
{
    let Some(last) = block.nodes().len().checked_sub(1) else {
        return Ok(());
    };
    match block.nodes_mut().get_mut(last) {
        Some(last) => end_line(alloc, last, ";", 0, false),
        None => Ok(()),
    }
}

/// Puts a space before the end of a node without a block, if no text is there.
fn space_before_block(alloc: Global, node: &mut KdlNode) -> Result<(), AllocError>
    ensures { OnOk result (IsLaid node.old node.new) }
{
    let space = spaces(alloc, 1, false)?;
    let Some(format) = node.format_mut() else {
        return Ok(());
    };
    if !format.before_terminator.is_empty() {
        return Ok(());
    }
    format.before_terminator = space;
    Ok(())
}

/// Removes the node at that place of the block.
fn remove_child(alloc: Global, node: &mut KdlNode, at: usize) -> Result<(), Refused>
    ensures { OnOk result (IsChildRemoved at node.old node.new) }
{
    match node.children_mut() {
        Some(block) => remove_from(alloc, block, at),
        None => Err(Refused::NotFound),
    }
}

/// Removes the node at that place. With the first node, the next one gets the newline before it.
fn remove_from(alloc: Global, block: &mut KdlDocument, at: usize) -> Result<(), Refused>
    ensures { OnOk result (IsTaken at block.old block.new) }
{
    if begin_next(alloc, block, at).is_err() {
        return Err(Refused::Memory);
    }
    take(block, at)
}

/// Removes the node at that place.
fn take(block: &mut KdlDocument, at: usize) -> Result<(), Refused>
    ensures { OnOk result (IsTakenFrom at block.old block.new) }
{
    if at < block.nodes().len() {
        drop(block.remove_node(at));
        return Ok(());
    }
    Err(Refused::NotFound)
}

/// Begins a line before the second node, if the first one, which is at that place, begins a line.
fn begin_next(alloc: Global, block: &mut KdlDocument, at: usize) -> Result<(), AllocError>
    ensures { OnOk result (IsBlockLaid block.old block.new) }
{
    let Some(first) = block.nodes().first() else {
        return Ok(());
    };
    if at > 0 || !begins_line(first) {
        return Ok(());
    }
    match block.nodes_mut().get_mut(1) {
        Some(next) => begin_line(alloc, next),
        None => Ok(()),
    }
}

/// Applies the change to the node at the index.
pub(crate) fn change_in(
    alloc: Global,
    block: &mut KdlDocument,
    index: usize,
    change: Change,
) -> Result<(), Refused>
    ensures { OnOk result (IsMadeIn index change block.old block.new) }
{
    match block.nodes_mut().get_mut(index) {
        Some(node) => change.make(alloc, node),
        None => {
            drop(change);
            Err(Refused::NotFound)
        }
    }
}

/// Returns the document with the change made to the node at the end of the path.
pub(crate) fn change_at(
    alloc: Global,
    document: KdlDocument,
    path: &[usize],
    change: Change,
) -> Result<KdlDocument, Refused>
    ensures { IfOk result (λ d. AtNode path.now (IsMade change) document d) }
{
    let Some((last, above)) = path.split_last() else {
        drop(change);
        return Err(Refused::NotFound);
    };
    let mut opened = match Opened::open(alloc, document, above) {
        Ok(opened) => opened,
        Err((_, refused)) => return Err(refused),
    };
    change_in(alloc, &mut opened.block, *last, change)?;
    Ok(opened.close())
}
