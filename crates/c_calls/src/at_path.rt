//! Changes to the node at a path.

ghost use Rattle.kdl.specs.Words.{nodes_of};
ghost use Rattle.c_calls.specs.Answers.{Each, IsAmong};
ghost use Rattle.c_calls.specs.Changes.{AtNode, SameTree};
ghost use Rattle.c_calls.specs.Internal.Done.{IsDone, IsDoneIn, Lacks};
ghost use Rattle.c_calls.specs.Paths.{node_at};
ghost use Rattle.c_calls.specs.declared.status.Refused.TheVariants.{NotFound};
ghost use Rattle.std.specs.Prelude.{◌≡◌, ◌∷◌, [], IfErr, IfSome, IsNone, OnErr, OnOk, slice_get};

use crate::held::Handle;
use crate::node_change::NodeChange;
use crate::opened::Opened;
use crate::status::{NO_DOCUMENT, OK, Refused};
use kdl::KdlDocument;
use std::alloc::Global;
use std::mem;

/// Applies the change to the node at the index. If this fails, the block is unchanged.
fn change_in(
    alloc: Global,
    block: &mut KdlDocument,
    index: usize,
    change: NodeChange,
) -> Result<(), Refused>
    ensures done { OnOk result (IsDoneIn index change block.old block.new) }
    ensures refused { OnErr result (SameTree block.old block.new) }
    ensures absent { IfErr result (λ r. r ≡ NotFound
        → IfSome (slice_get (nodes_of block.old) index) (Lacks change)) }
{
    match block.nodes_mut().get_mut(index) {
        Some(node) => change.make(alloc, node),
        None => {
            drop(change);
            Err(Refused::NotFound)
        }
    }
}

/// Applies the change to the node at the path.
///
/// Fails if there is no such node, or if the change fails. The document is then unchanged.
pub fn change_at(
    alloc: Global,
    document: &mut KdlDocument,
    path: &[usize],
    change: NodeChange,
) -> Result<(), Refused>
    ensures done { OnOk result (AtNode path.now (IsDone change) document.old document.new) }
    ensures refused { OnErr result (SameTree document.old document.new) }
    ensures absent { IfErr result (λ r. r ≡ NotFound
        → IfSome (node_at path.now (nodes_of document.old)) (Lacks change)) }
{
    let Some((last, above)) = path.split_last() else {
        drop(change);
        return Err(Refused::NotFound);
    };
    let whole = mem::replace(document, KdlDocument::new(alloc));
    match Opened::open(alloc, whole, above) {
        Ok(mut opened) => {
            let outcome = change_in(alloc, &mut opened.block, *last, change);
            *document = opened.close();
            outcome
        }
        Err((whole, refused)) => {
            *document = whole;
            drop(change);
            Err(refused)
        }
    }
}

/// Applies the change to the node at the path in the document that C keeps.
///
/// Returns `NO_DOCUMENT` if there is no document, `NOT_FOUND` if there is no node at the path or if the index of the
/// change is too large, and `OUT_OF_MEMORY` if an allocation fails. The document is then unchanged.
pub fn change_held(alloc: Global, document: &mut Handle, path: &[usize], change: NodeChange) -> u32
    ensures done { result ≡ 0 → Each (AtNode path.now (IsDone change))
        document.old.held.document document.new.held.document }
    ensures kept { (result ≡ 0 → ⊥)
        → Each SameTree document.old.held.document document.new.held.document }
    ensures missing { result ≡ 5 → IsNone document.old.held.document }
    ensures statuses { IsAmong (0 ∷ 3 ∷ 5 ∷ 6 ∷ []) result }
    ensures absent { result ≡ 6 → IfSome document.old.held.document (λ d.
        IfSome (node_at path.now (nodes_of d)) (Lacks change)) }
{
    let Some(mut held) = document.take(alloc) else {
        drop(change);
        return NO_DOCUMENT;
    };
    let status = match change_at(alloc, &mut held, path, change) {
        Ok(()) => OK,
        Err(refused) => refused.status(),
    };
    document.put(held);
    status
}
