//! A document that is taken apart along a path, so that the block at the end of the path can be changed in place.
//!
//! The functions use loops, and keep the documents above the block on the heap, so that no depth overflows the stack.

ghost use Rattle.kdl.specs.Words.{document_tree, nodes_of};
ghost use Rattle.c_calls.specs.Internal.Opened.{HasEntered, IsOpened, block_in, plugged, with_kids_at};
ghost use Rattle.c_calls.specs.Paths.{nodes_at};
ghost use Rattle.c_calls.specs.declared.status.Refused.TheVariants.{NotFound};
ghost use Rattle.kdl_grammar.specs.Tree.{children, no_children};
ghost use Rattle.std.specs.Prelude.{◌≡◌, IfErr, IfOk, None, OnErr, OnOk};

use crate::status::Refused;
use kdl::KdlDocument;
use std::alloc::Global;
use std::mem;

/// A document above the block.
#[derive(Drop)]
pub struct Above {
    /// The document, without the block of the node at the index.
    pub document: KdlDocument,
    /// The index of the node whose block is taken out.
    pub index: usize,
}

/// The block at the end of a path, and the documents above it.
#[derive(Drop)]
pub struct Opened {
    /// The documents above the block, the outermost first.
    pub above: Vec<Above>,
    /// The block at the end of the path: the document itself if the path is empty.
    pub block: KdlDocument,
}

/// Takes the block out of the node at the index. Returns `None` if there is no such node, or if it has no block.
pub fn take_block(document: &mut KdlDocument, index: usize) -> Option<KdlDocument>
    ensures value { result ≡ block_in index document.old }
    ensures tree { document_tree document.new ≡ with_kids_at index no_children
        (document_tree document.old) }
{
    match document.nodes_mut().get_mut(index) {
        Some(node) => node.children_mut().take(),
        None => None,
    }
}

/// Puts the block into the node at the index. Drops the block if there is no such node.
pub fn put_block(document: &mut KdlDocument, index: usize, block: KdlDocument)
    ensures { document_tree document.new
        ≡ with_kids_at index (children (document_tree block)) (document_tree document.old) }
{
    if let Some(node) = document.nodes_mut().get_mut(index) {
        node.set_children(block);
    }
}

impl Opened {
    /// Takes the document apart along the path, and opens the block of the node at the path.
    ///
    /// Fails if there is no node at the path, if a node on the way or at the end has no block, or if an allocation
    /// fails. The error then contains the document, unchanged.
    pub fn open(
        alloc: Global,
        document: KdlDocument,
        path: &[usize],
    ) -> Result<Opened, (KdlDocument, Refused)>
        ensures opened { IfOk result (λ o. IsOpened path.now document o) }
        ensures back { IfErr result (λ e. document_tree e.0 ≡ document_tree document) }
        ensures absent { IfErr result (λ e. e.1 ≡ NotFound
            → nodes_at path.now (nodes_of document) ≡ None) }
    {
        let mut opened = Opened {
            above: Vec::new(alloc),
            block: document,
        };
        for index in path {
            if let Err(refused) = opened.enter(*index) {
                return Err((opened.close(), refused));
            }
        }
        Ok(opened)
    }

    /// Takes the block out of the node at the index. That block becomes the current one.
    ///
    /// Fails if there is no such node, if it has no block, or if an allocation fails. The whole document is then
    /// unchanged.
    fn enter(&mut self, index: usize) -> Result<(), Refused>
        ensures entered { OnOk result (HasEntered index self.old self.new) }
        ensures kept { OnErr result (plugged self.new.above.items (document_tree self.new.block)
            ≡ plugged self.old.above.items (document_tree self.old.block)) }
        ensures absent { IfErr result (λ r. r ≡ NotFound
            → block_in index self.old.block ≡ None) }
    {
        if self.above.reserve(1).is_err() {
            return Err(Refused::Memory);
        }
        let Some(block) = take_block(&mut self.block, index) else {
            return Err(Refused::NotFound);
        };
        let document = mem::replace(&mut self.block, block);
        drop(self.above.push(Above { document, index }));
        Ok(())
    }

    /// Puts each block back into the document above it, and returns the whole document.
    pub fn close(self) -> KdlDocument
        ensures { document_tree result ≡ plugged self.above.items (document_tree self.block) }
    {
        let Opened {
            mut above,
            mut block,
        } = self;
        while let Some(last) = above.pop() {
            let Above {
                mut document,
                index,
            } = last;
            put_block(&mut document, index, block);
            block = document;
        }
        block
    }
}
