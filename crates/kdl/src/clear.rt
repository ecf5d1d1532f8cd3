//! How formats and spellings are dropped: one node at a time, without recursion and without allocating, however deep
//! the blocks are.
//!
//! A node that is due to be cleared has a format, and the others have none. While the block of a node is cleared, the
//! node holds the document that contains it, in place of its block. In that document it is the last node that isn't
//! due.

ghost use Rattle.kdl.specs.Cleared.{cleared_document, cleared_node};
ghost use Rattle.kdl.specs.Internal.Due.{AreDueFrom, BecomesDue, ExchangedAt, HasInstead, IsAlone, due};
ghost use Rattle.kdl.specs.Tree.{document_tree, node_tree};
ghost use Rattle.kdl.specs.declared.document.KdlDocument.{out-KdlDocument};
ghost use Rattle.std.specs.Prelude.{◌≡◌, ◌<◌, length, map};

use crate::document::KdlDocument;
use crate::node::KdlNode;
use kdl_parts::KdlNodeFormat;
use kdl_parts::edit::clear_formats;
use std::mem;

impl KdlNode {
    /// Drops the node's format, the spelling of its name, the formats and spellings of its entries, and likewise those
    /// of all nodes below it and the formats of the child documents. The spellings of types are kept, at each depth.
    ///
    /// ```
    /// let mut node = KdlNode::parse(alloc, "\"a\"  0x1 { /* b */ b; }")?;
    /// node.clear_format_recursive(); // its data are unchanged: the name `a`, the argument 1, the child `b`
    /// ```
    pub fn clear_format_recursive(&mut self)
        ensures { node_tree self.new ≡ cleared_node (node_tree self.old) }
    {
        if let Some(mut block) = self.clear_alone() {
            clear_all(&mut block);
            self.set_children(block);
        }
    }

    /// Gives the node an empty format, if it has none.
    pub(crate) fn make_due(&mut self)
        ensures { node_tree self.new ≡ due (node_tree self.old) }
    {
        if self.format.is_none() {
            self.format = Some(KdlNodeFormat::new(*self.entries.allocator()));
        }
    }

    /// Drops the node's format, the spelling of its name, and the formats and spellings of its entries, and takes its
    /// block, which is unchanged.
    pub(crate) fn clear_alone(&mut self) -> Option<KdlDocument>
        ensures { IsAlone result self.old self.new }
    {
        self.clear_format();
        self.name.clear_format();
        clear_formats(&mut self.entries);
        self.exchange_children(None)
    }
}

impl KdlDocument {
    /// Drops the document's own format, and sets each of its nodes as due.
    pub(crate) fn set_due(&mut self)
        ensures { BecomesDue self.old self.new }
    {
        self.clear_format();
        set_nodes_due(&mut self.nodes);
    }

    /// Drops the format and the spellings of the node at the place, and takes its block, which is unchanged.
    pub(crate) fn clear_at(&mut self, at: usize) -> Option<KdlDocument>
        requires { at < length (out-KdlDocument self.old).nodes.items }
        ensures { ExchangedAt self.old self.new at (IsAlone result) }
    {
        self.nodes[at].clear_alone()
    }

    /// Replaces the block of the node at the place, and returns the old one.
    pub(crate) fn exchange_block(
        &mut self,
        at: usize,
        block: Option<KdlDocument>,
    ) -> Option<KdlDocument>
        requires { at < length (out-KdlDocument self.old).nodes.items }
        ensures { ExchangedAt self.old self.new at (HasInstead block result) }
    {
        self.nodes[at].exchange_children(block)
    }

    /// The place of the first node that is due. All nodes after it have to be due, and none before it.
    pub(crate) fn due_from(&self) -> usize
        ensures { AreDueFrom self.now result }
    {
        self.nodes.partition_point(|node| node.format().is_none())
    }
}

/// Sets each node as due.
fn set_nodes_due(nodes: &mut Vec<KdlNode>)
    ensures { map node_tree nodes.new.items ≡ map due (map node_tree nodes.old.items) }
{
    for node in nodes.iter_mut() {
        node.make_due();
    }
}

/// Drops the formats and spellings of a document, at each depth.
pub(crate) fn clear_all(here: &mut KdlDocument)
    ensures { document_tree here.new ≡ cleared_document (document_tree here.old) }
{
    here.set_due();
    let mut above: Option<KdlDocument> = None;
    let mut at = 0;
    'due: loop {
        if at < here.nodes().len() {
            if let Some(mut block) = here.clear_at(at) {
                block.set_due();
                here.exchange_block(at, above);
                above = Some(mem::replace(here, block));
                at = 0;
            } else {
                at += 1;
            }
        } else {
            let Some(parent) = above else {
                return;
            };
            let block = mem::replace(here, parent);
            at = here.due_from();
            above = here.exchange_block(at - 1, Some(block));
        }
    }
}
