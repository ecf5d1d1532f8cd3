//! A block around the innermost one.

ghost use Rattle.kdl.specs.Words.{nodes_of};
ghost use Rattle.std.specs.Prelude.{◌<◌, length};

use super::block::Block;

/// A block, without the block of the node at the index.
#[derive(Drop)]
pub(crate) struct Above {
    /// The block.
    pub(crate) block: Block,
    /// The index of the node whose block is taken out.
    pub(crate) index: usize,
    ghost there: { index < length (nodes_of block.document) },
}
