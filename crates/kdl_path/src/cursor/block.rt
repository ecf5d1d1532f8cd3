//! A block whose last nodes are apart, so that a node before them is removed at an end.

ghost use Rattle.kdl.specs.Words.{document_tree, held_nodes, nodes_of, said_nodes, said_without, with_nodes};
ghost use Rattle.kdl_grammar.specs.Tree.{document_data};
ghost use Rattle.kdl_path.specs.Internal.Cursor.{Becomes, IsMoved, rejoined};
ghost use Rattle.kdl_path.specs.Internal.Failing.{MissesIf};
ghost use Rattle.std.specs.Option.{option_to_list};
ghost use Rattle.std.specs.Prelude.{◌≡◌, ◌<◌, ◌+◌, ◌++◌, ◌∷◌, [], IfErr, IfOk, MatchBool, None, OnOk, length, slice_get, suc};

use crate::failure::{EditFailure, Missing};
use crate::laid::begin_line;
use crate::layout::begins_line;
use kdl::{KdlDocument, KdlNode};
use std::alloc::{AllocError, AllocFailed, Global};

/// A block.
#[derive(Drop)]
pub(crate) struct Block {
    /// The block, with its first nodes.
    pub(crate) document: KdlDocument,
    /// The nodes after those, the last one first.
    pub(crate) after: Vec<KdlNode>,
}

/// Appends the node as it is.
fn push_node(document: &mut KdlDocument, node: KdlNode) -> Result<(), AllocFailed<KdlNode>>
    ensures nodes { OnOk result (nodes_of document.new ≡ nodes_of document.old ++ node ∷ []) }
    ensures rest { document.new ≡ with_nodes document.old (held_nodes document.new) }
{
    document.nodes_mut().push(node)
}

/// Removes the last node, and returns it.
fn pop_node(document: &mut KdlDocument) -> Option<KdlNode>
    ensures nodes { nodes_of document.old ≡ nodes_of document.new ++ option_to_list result }
    ensures none { result ≡ None → length (nodes_of document.old) ≡ 0 }
    ensures rest { document.new ≡ with_nodes document.old (held_nodes document.new) }
{
    document.nodes_mut().pop()
}

impl Block {
    /// Creates a block with no node apart.
    pub(super) fn new(alloc: Global, document: KdlDocument) -> Block
        ensures whole { rejoined result ≡ document_tree document }
    {
        Block {
            document,
            after: Vec::new(alloc),
        }
    }

    /// Puts the first of the nodes that are apart back. Returns whether there was one.
    fn put_back(&mut self) -> Result<bool, AllocError>
        ensures moved { OnOk result (IsMoved self.old self.new) }
        ensures one { IfOk result (λ b. MatchBool b
            (suc (length self.new.after.items) ≡ length self.old.after.items)
            ((self.old.after.items ≡ []) × (self.new.after.items ≡ []))) }
    {
        let Some(node) = self.after.pop() else {
            return Ok(false);
        };
        push_node(&mut self.document, node)?;
        Ok(true)
    }

    /// Puts all nodes back, and returns the block.
    pub(super) fn close(self) -> Result<KdlDocument, AllocError>
        ensures { IfOk result (λ d. document_tree d ≡ rejoined self) }
    {
        let mut block = self;
        while block.put_back()? {}
        let Block { document, after } = block;
        drop(after);
        Ok(document)
    }

    /// Puts nodes back, up to the one at the index. Fails with `Missing` if there is none.
    pub(super) fn reach(&mut self, index: usize) -> Result<(), EditFailure>
        ensures same { OnOk result (rejoined self.new ≡ rejoined self.old) }
        ensures there { OnOk result (index < length (nodes_of self.new.document)) }
        ensures missing { IfErr result (MissesIf
            (slice_get (said_nodes (document_data (rejoined self.old))) index ≡ None)) }
    {
        while self.document.nodes().len() <= index {
            if !self.put_back()? {
                return Err(EditFailure::Missing(Missing::Selection));
            }
        }
        Ok(())
    }

    /// Takes the nodes after the one at the index apart.
    fn part(&mut self, index: usize) -> Result<(), AllocError>
        requires there { index < length (nodes_of self.old.document) }
        ensures moved { OnOk result (IsMoved self.old self.new) }
        ensures last { OnOk result (length (nodes_of self.new.document) ≡ suc index) }
    {
        while self.document.nodes().len() - 1 > index {
            let Some(node) = pop_node(&mut self.document) else {
                return Ok(());
            };
            self.after.push(node)?;
        }
        Ok(())
    }

    /// Removes the node at the index. With the first node of the block of a node, the next one gets the newline before it.
    pub(super) fn remove(
        &mut self,
        alloc: Global,
        index: usize,
        is_inside: bool,
    ) -> Result<(), AllocError>
        requires there { index < length (nodes_of self.old.document) }
        ensures { OnOk result (Becomes (said_without index) (rejoined self.old) (rejoined self.new)) }
    {
        self.part(index)?;
        self.begin_next(alloc, is_inside && index == 0)?;
        if let Some(node) = pop_node(&mut self.document) {
            drop(node);
        }
        Ok(())
    }

    /// Begins a line before the first of the nodes that are apart, if the first node of the block, which is the one before
    /// it, begins a line.
    fn begin_next(&mut self, alloc: Global, is_first: bool) -> Result<(), AllocError>
        ensures same { self.new.document ≡ self.old.document }
        ensures laid { OnOk result (Becomes (λ x. x) (rejoined self.old) (rejoined self.new)) }
    {
        let Some(first) = self.document.nodes().first() else {
            return Ok(());
        };
        if !is_first || !begins_line(first) {
            return Ok(());
        }
        match self.after.last_mut() {
            Some(next) => begin_line(alloc, next),
            None => Ok(()),
        }
    }
}
