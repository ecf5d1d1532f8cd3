//! Edits of nodes by their paths.

ghost use Rattle.kdl.specs.DocumentLookups.{nodes_of};
ghost use Rattle.kdl.specs.Tree.{document_says};
ghost use Rattle.kdl_query.specs.Edits.{AtNode, IsEditedAt, SameTree};
ghost use Rattle.kdl_query.specs.Selects.{node_at};
ghost use Rattle.std.specs.Fn.{FnOnceReturnsAtMut};
ghost use Rattle.std.specs.Prelude.{◌≡◌, ◌∷◌, [], IfOk, MatchOption, None, OnErr, slice_get};

use c_calls::opened::Opened;
use c_calls::status::Refused;
use kdl::{KdlDocument, KdlNode};
use std::alloc::{AllocError, Global};
use std::mem;

/// Calls `edit` with the node at a path, and returns what it returns, or `None` if there is no node at the path. All else
/// of the document is unchanged, and so are all bytes of the printed text before and after those of the node. Returns an
/// error if an allocation fails. Without a call of `edit`, the document is unchanged. `edit` has to take any node.
///
/// ```
/// let mut document = KdlDocument::parse(alloc, "a { b 1; c }")?;
/// let name = KdlIdentifier::from_text(alloc, "d")?;
/// edit_at(alloc, &mut document, &[0, 1], |node| node.set_name(name))?; // prints "a { b 1; d }"
/// ```
pub fn edit_at<R, F: FnOnce(&mut KdlNode) -> R + Drop>(
    alloc: Global,
    document: &mut KdlDocument,
    path: &[usize],
    edit: F,
) -> Result<Option<R>, AllocError>
    requires { F.IsAlwaysCallable edit }
    ensures edited { IfOk result (λ o. MatchOption o
        ((node_at path.now (document_says document.old) ≡ None)
        × SameTree document.old document.new)
        (λ r. IsEditedAt path.now (λ n m. FnOnceReturnsAtMut F.FnOnce edit n r m)
        document.old document.new)) }
    ensures kept { OnErr result (SameTree document.old document.new) }
{
    let Some((last, above)) = path.split_last() else {
        drop(edit);
        return Ok(None);
    };
    let whole = mem::replace(document, KdlDocument::new(alloc));
    match Opened::open(alloc, whole, above) {
        Ok(mut opened) => {
            let outcome = edit_in(&mut opened.block, *last, edit);
            *document = opened.close();
            Ok(outcome)
        }
        Err((whole, refused)) => {
            *document = whole;
            drop(edit);
            match refused {
                Refused::NotFound => Ok(None),
                Refused::Memory => Err(AllocError),
            }
        }
    }
}

/// Calls `edit` with the node at that place in the block, and returns what it returns, or `None` if there is none.
fn edit_in<R, F: FnOnce(&mut KdlNode) -> R + Drop>(
    block: &mut KdlDocument,
    index: usize,
    edit: F,
) -> Option<R>
    requires { F.IsAlwaysCallable edit }
    ensures { MatchOption result
        ((slice_get (nodes_of block.old) index ≡ None) × SameTree block.old block.new)
        (λ r. AtNode (index ∷ []) (λ n m. FnOnceReturnsAtMut F.FnOnce edit n r m)
        block.old block.new) }
{
    match block.nodes_mut().get_mut(index) {
        Some(node) => Some(edit(node)),
        None => {
            drop(edit);
            None
        }
    }
}
