//! A document that is open at one node after another, so that each is edited in place.
//!
//! The functions use loops, and keep the blocks around a node on the heap, so that no depth overflows the stack. On the way
//! from one node to the next, only what is between them is taken apart and put together.

ghost use Rattle.kdl.specs.Words.{document_tree, nodes_of, said_without};
ghost use Rattle.kdl_grammar.specs.Tree.{document_data};
ghost use Rattle.kdl_path.specs.Internal.Cursor.{Becomes, indices, path_of, rejoined, whole};
ghost use Rattle.kdl_path.specs.Internal.Failing.{MissesIf};
ghost use Rattle.kdl_query.specs.Selects.{Path, node_at};
ghost use Rattle.kdl_query.specs.Turns.{turned};
ghost use Rattle.std.specs.Option.{option_to_list};
ghost use Rattle.std.specs.Prelude.{◌≡◌, ℕ, ◌<◌, ◌-◌, ◌++◌, ◌∷◌, [], IfErr, IfOk, MatchBool, None, OnOk, Some, length, take};

mod above;
mod block;

use self::above::Above;
use self::block::Block;
use crate::failure::{EditFailure, Missing};
use c_calls::opened::{put_block, take_block};
use kdl::KdlDocument;
use kdl_query::Turn;
use std::alloc::{AllocError, Global};
use std::mem;

/// A document that is open along a path.
#[derive(Drop)]
pub(crate) struct Cursor {
    /// The blocks around the innermost one, the outermost first: their indices are the first ones of the path.
    above: Vec<Above>,
    /// The innermost block.
    pub(crate) block: Block,
    /// The last index of the path, if it is not that of a block.
    last: Option<usize>,
}

impl Cursor {
    /// Opens the document at the empty path.
    pub(crate) fn over(alloc: Global, document: KdlDocument) -> Cursor
        ensures whole { whole result ≡ document_tree document }
        ensures path { path_of result ≡ [] }
    {
        Cursor {
            above: Vec::new(alloc),
            block: Block::new(alloc, document),
            last: None,
        }
    }

    /// Puts the document together, and returns it.
    pub(crate) fn close(self) -> Result<KdlDocument, AllocError>
        ensures { IfOk result (λ d. document_tree d ≡ whole self) }
    {
        let mut cursor = self;
        while cursor.leave()?.is_some() {}
        let Cursor {
            above,
            block,
            last: _,
        } = cursor;
        drop(above);
        block.close()
    }

    /// Turns to the path that follows. Fails with `Missing` only if there is no node at it.
    pub(crate) fn turn(&mut self, alloc: Global, turn: &Turn) -> Result<(), EditFailure>
        ensures whole { OnOk result (whole self.new ≡ whole self.old) }
        ensures path { OnOk result (path_of self.new ≡ turned (path_of self.old) turn.now) }
        ensures missing { IfErr result (MissesIf (node_at (turned (path_of self.old) turn.now)
            (document_data (whole self.old)) ≡ None)) }
    {
        while self.is_past(turn.kept) {
            self.up()?;
        }
        for index in &turn.rest {
            self.down(alloc, *index)?;
        }
        Ok(())
    }

    /// The index of the node at the path, in the innermost block. Fails with `Missing` only if there is no such node.
    pub(crate) fn node(&mut self) -> Result<usize, EditFailure>
        ensures whole { OnOk result (whole self.new ≡ whole self.old) }
        ensures path { OnOk result (path_of self.new ≡ path_of self.old) }
        ensures last { IfOk result (λ i. self.new.last ≡ Some i) }
        ensures there { IfOk result (λ i. i < length (nodes_of self.new.block.document)) }
        ensures missing { IfErr result (MissesIf (node_at (path_of self.old)
            (document_data (whole self.old)) ≡ None)) }
    {
        let Some(index) = self.last_index()? else {
            return Err(EditFailure::Missing(Missing::Selection));
        };
        self.last = Some(index);
        self.block.reach(index)?;
        Ok(index)
    }

    /// The last index of the path. If it is that of a block, this is put back.
    fn last_index(&mut self) -> Result<Option<usize>, AllocError>
        ensures whole { OnOk result (whole self.new ≡ whole self.old) }
        ensures path { IfOk result (λ o. path_of self.old
            ≡ indices self.new.above.items ++ option_to_list o) }
        ensures none { IfOk result (λ o. o ≡ None → path_of self.old ≡ []) }
    {
        match self.last {
            Some(index) => Ok(Some(index)),
            None => self.leave(),
        }
    }

    /// Removes the node at the index of the innermost block. With the first node of the block of a node, the next one gets
    /// the newline before it.
    pub(crate) fn remove(&mut self, alloc: Global, index: usize) -> Result<(), AllocError>
        requires there { index < length (nodes_of self.old.block.document) }
        ensures above { self.new.above ≡ self.old.above }
        ensures last { self.new.last ≡ self.old.last }
        ensures removed { OnOk result (Becomes (said_without index)
            (rejoined self.old.block) (rejoined self.new.block)) }
    {
        let is_inside = !self.above.is_empty();
        self.block.remove(alloc, index, is_inside)
    }

    /// Whether the path has more indices.
    fn is_past(&self, count: usize) -> bool
        ensures { MatchBool result (count < length (path_of self.now))
            (count < length (path_of self.now) → ⊥) }
    {
        match self.last {
            Some(_) => self.above.len() >= count,
            None => self.above.len() > count,
        }
    }

    /// Takes the last index off the path.
    fn up(&mut self) -> Result<(), AllocError>
        ensures whole { OnOk result (whole self.new ≡ whole self.old) }
        ensures path { OnOk result (path_of self.new
            ≡ take (length (path_of self.old) - 1) (path_of self.old)) }
    {
        if self.last.take().is_none() {
            self.leave()?;
        }
        Ok(())
    }

    /// Appends the index to the path. Fails with `Missing` only if there is no node at a path that goes on from it.
    fn down(&mut self, alloc: Global, index: usize) -> Result<(), EditFailure>
        ensures whole { OnOk result (whole self.new ≡ whole self.old) }
        ensures path { OnOk result (path_of self.new ≡ path_of self.old ++ index ∷ []) }
        ensures missing { IfErr result (MissesIf ((rest : Path) →
            node_at (path_of self.old ++ index ∷ rest) (document_data (whole self.old)) ≡ None)) }
    {
        if let Some(last) = mem::replace(&mut self.last, Some(index)) {
            self.enter(alloc, last)?;
        }
        Ok(())
    }

    /// Takes the block out of the node at the index. That block is then the innermost one. Fails with `Missing` only if
    /// there is no node in it.
    fn enter(&mut self, alloc: Global, index: usize) -> Result<(), EditFailure>
        ensures whole { OnOk result (whole self.new ≡ whole self.old) }
        ensures above { OnOk result
            (indices self.new.above.items ≡ indices self.old.above.items ++ index ∷ []) }
        ensures last { self.new.last ≡ self.old.last }
        ensures missing { IfErr result (MissesIf ((below : Path) → (i : ℕ) →
            node_at (index ∷ i ∷ below) (document_data (rejoined self.old.block)) ≡ None)) }
    {
        self.block.reach(index)?;
        let Some(document) = take_block(&mut self.block.document, index) else {
            return Err(EditFailure::Missing(Missing::Selection));
        };
        let inner = Block::new(alloc, document);
        let block = mem::replace(&mut self.block, inner);
        self.above.push(Above { block, index })?;
        Ok(())
    }

    /// Puts the innermost block back into its node, and returns the index of that node. The block around it is then the
    /// innermost one. Returns `None` if there is none.
    fn leave(&mut self) -> Result<Option<usize>, AllocError>
        ensures whole { OnOk result (whole self.new ≡ whole self.old) }
        ensures above { IfOk result (λ o. indices self.old.above.items
            ≡ indices self.new.above.items ++ option_to_list o) }
        ensures none { IfOk result (λ o. o ≡ None
            → (self.old.above.items ≡ []) × (self.new.above.items ≡ [])) }
        ensures last { self.new.last ≡ self.old.last }
    {
        let Some(Above { block, index }) = self.above.pop() else {
            return Ok(None);
        };
        let inner = mem::replace(&mut self.block, block).close()?;
        put_block(&mut self.block.document, index, inner);
        Ok(Some(index))
    }
}
