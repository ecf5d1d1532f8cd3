//! Nodes that are inserted into the document itself, and removed from it.

ghost use Rattle.kdl.specs.Words.{nodes_of};
ghost use Rattle.c_calls.specs.Answers.{Each, IsAmong};
ghost use Rattle.c_calls.specs.Changes.{SameTree};
ghost use Rattle.c_calls.specs.Edits.{FirstRemoved};
ghost use Rattle.c_calls.specs.Internal.Done.{NodePut};
ghost use Rattle.c_calls.specs.declared.status.Refused.TheVariants.{NotFound};
ghost use Rattle.std.specs.Prelude.{◌≡◌, ◌<◌, ◌≤◌, ◌∷◌, [], IfErr, IfSome, IsNone, OnErr, OnOk, length};

use crate::held::Handle;
use crate::status::{NO_DOCUMENT, NOT_FOUND, OK, Refused};
use kdl::{KdlDocument, KdlNode};
use std::alloc::Global;

/// Inserts the node into the document that C keeps, before the node at the index, or after the last one.
///
/// Returns `NO_DOCUMENT` if there is no document, `NOT_FOUND` if the index is greater than the number of nodes, and
/// `OUT_OF_MEMORY` if an allocation fails. The document is then unchanged.
pub fn insert_first(alloc: Global, document: &mut Handle, index: usize, node: KdlNode) -> u32
    ensures done { result ≡ 0 → Each (NodePut index node)
        document.old.held.document document.new.held.document }
    ensures kept { (result ≡ 0 → ⊥)
        → Each SameTree document.old.held.document document.new.held.document }
    ensures missing { result ≡ 5 → IsNone document.old.held.document }
    ensures absent { result ≡ 6 → IfSome document.old.held.document (λ d.
        length (nodes_of d) < index) }
    ensures statuses { IsAmong (0 ∷ 3 ∷ 5 ∷ 6 ∷ []) result }
{
    let Some(mut held) = document.take(alloc) else {
        drop(node);
        return NO_DOCUMENT;
    };
    let status = match insert_into(&mut held, index, node) {
        Ok(()) => OK,
        Err(refused) => refused.status(),
    };
    document.put(held);
    status
}

/// Inserts the node before the one at the index, or after the last one. Fails if the index is greater than the number
/// of nodes, or if an allocation fails. The document is then unchanged.
fn insert_into(document: &mut KdlDocument, index: usize, node: KdlNode) -> Result<(), Refused>
    ensures done { OnOk result (NodePut index node document.old document.new) }
    ensures refused { OnErr result (SameTree document.old document.new) }
    ensures absent { IfErr result (λ r. r ≡ NotFound → length (nodes_of document.old) < index) }
{
    if document.nodes().len() < index {
        drop(node);
        return Err(Refused::NotFound);
    }
    match document.insert_node(index, node) {
        Ok(()) => Ok(()),
        Err((node, _)) => {
            drop(node);
            Err(Refused::Memory)
        }
    }
}

/// Removes the node at the index from the document that C keeps.
///
/// Returns `NO_DOCUMENT` if there is no document, and `NOT_FOUND` if there is no node at the index. The document is
/// then unchanged.
pub fn remove_first(alloc: Global, document: &mut Handle, index: usize) -> u32
    ensures done { result ≡ 0 → Each (FirstRemoved index)
        document.old.held.document document.new.held.document }
    ensures kept { (result ≡ 0 → ⊥)
        → Each SameTree document.old.held.document document.new.held.document }
    ensures missing { result ≡ 5 → IsNone document.old.held.document }
    ensures absent { result ≡ 6 → IfSome document.old.held.document (λ d.
        length (nodes_of d) ≤ index) }
    ensures statuses { IsAmong (0 ∷ 5 ∷ 6 ∷ []) result }
{
    let Some(mut held) = document.take(alloc) else {
        return NO_DOCUMENT;
    };
    let status = remove_from(&mut held, index);
    document.put(held);
    status
}

/// Removes the node at the index. Returns `NOT_FOUND` if there is none.
fn remove_from(document: &mut KdlDocument, index: usize) -> u32
    ensures done { result ≡ 0 → FirstRemoved index document.old document.new }
    ensures kept { (result ≡ 0 → ⊥) → SameTree document.old document.new }
    ensures absent { result ≡ 6 → length (nodes_of document.old) ≤ index }
    ensures statuses { IsAmong (0 ∷ 6 ∷ []) result }
{
    if document.nodes().len() <= index {
        return NOT_FOUND;
    }
    drop(document.remove_node(index));
    OK
}
