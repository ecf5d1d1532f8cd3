//! Children added to the block of a node.

ghost use Rattle.kdl.specs.Internal.Ends.{BeginsFewest, BlockBegins, BlockSays, EndsAs, EndsExactly, end_with};
ghost use Rattle.kdl.specs.Exact.{ChildPutExactly};
ghost use Rattle.kdl.specs.Iterators.{child_nodes};
ghost use Rattle.kdl.specs.Nodes.{ChildPut};
ghost use Rattle.kdl.specs.ReadsBack.{NodeReadsBack, ReadsAs};
ghost use Rattle.kdl.specs.Tree.{node_tree};
ghost use Rattle.kdl.specs.declared.node.KdlNode.{out-KdlNode};
ghost use Rattle.kdl_parts.specs.Formats.{node_texts};
ghost use Rattle.kdl_value.specs.Tree.{text_of};
ghost use Rattle.std.specs.Prelude.{◌≡◌, ◌≤◌, IfErr, IfOk, OnErr, OnOk, None, length, option_map};

use crate::document::KdlDocument;
use crate::ends::{Rest, ended_format, place_newlines, push_newlines};
use crate::node::KdlNode;
use kdl_parts::KdlNodeFormat;
use std::alloc::AllocError;
use std::mem;

impl KdlNode {
    /// Appends the node to the children, in a new block if there is none.
    ///
    /// Adds newlines as `KdlDocument::push_node` does: to the text before the new child, and to the new child before a
    /// trailing text, and before an indented `}` (a block without a format has one). Directly before a `}`, one is added
    /// to the new child only after a line comment or a line continuation without its newline.
    ///
    /// The text before the node's terminator is moved before a new block, with a newline if it ends in a line
    /// continuation without one.
    ///
    /// If the child reads back, the node reads back before each text before which it did.
    ///
    /// If an allocation fails, returns the child in the error, and leaves the node unchanged.
    ///
    /// ```
    /// let mut node = KdlNode::parse(alloc, "a { b; c }")?;
    /// let pushed = node.push_child(KdlNode::parse(alloc, "d")?); // prints "a { b; c \nd}"
    /// ```
    pub fn push_child(&mut self, node: KdlNode) -> Result<(), (KdlNode, AllocError)>
        ensures nodes { OnOk result
            (ChildPut (length (child_nodes self.old)) node self.old self.new) }
        // With a child that reads back, the node reads back wherever it did before.
        ensures reads { NodeReadsBack node → ReadsAs self.old self.new }
        ensures exact { OnOk result
            (ChildPutExactly (length (child_nodes self.old)) node self.old self.new) }
        ensures back { IfErr result (λ e. e.0 ≡ node) }
        ensures refused { OnErr result (node_tree self.new ≡ node_tree self.old) }
    {
        match &mut self.children {
            Some(children) => {
                let index = children.nodes().len();
                children.put(index, node, Rest::Brace)
            }
            None => self.put_in_new_block(node),
        }
    }

    /// Inserts the node before the child at the index, or after the last one. The index has to be at most the number of
    /// children, which is 0 without a block. All else is as in `push_child`.
    ///
    /// If an allocation fails, returns the child in the error, and leaves the node unchanged.
    ///
    /// ```
    /// let mut node = KdlNode::parse(alloc, "a { b; c }")?;
    /// let inserted = node.insert_child(1, KdlNode::parse(alloc, "d")?); // prints "a { b;d\n c }"
    /// ```
    pub fn insert_child(&mut self, index: usize, node: KdlNode) -> Result<(), (KdlNode, AllocError)>
        requires { index ≤ length (child_nodes self.old) }
        ensures nodes { OnOk result (ChildPut index node self.old self.new) }
        // With a child that reads back, the node reads back wherever it did before.
        ensures reads { NodeReadsBack node → ReadsAs self.old self.new }
        ensures exact { OnOk result (ChildPutExactly index node self.old self.new) }
        ensures back { IfErr result (λ e. e.0 ≡ node) }
        ensures refused { OnErr result (node_tree self.new ≡ node_tree self.old) }
    {
        match &mut self.children {
            Some(children) => children.put(index, node, Rest::Brace),
            None => self.put_in_new_block(node),
        }
    }

    /// Puts the node into a new block, if there is no block.
    fn put_in_new_block(&mut self, node: KdlNode) -> Result<(), (KdlNode, AllocError)>
        requires { (out-KdlNode self.old).children ≡ None }
        ensures nodes { OnOk result (ChildPut 0 node self.old self.new) }
        // With a child that reads back, the node reads back wherever it did before.
        ensures reads { NodeReadsBack node → ReadsAs self.old self.new }
        ensures exact { OnOk result (ChildPutExactly 0 node self.old self.new) }
        ensures back { IfErr result (λ e. e.0 ≡ node) }
        ensures refused { OnErr result (self.new ≡ self.old) }
    {
        let before = match self.before_new_block() {
            Ok(before) => before,
            Err(error) => return Err((node, error)),
        };
        let mut block = KdlDocument::new(*self.entries.allocator());
        block.put(0, node, Rest::Brace)?;
        self.begin_block(before);
        self.children = Some(block);
        Ok(())
    }

    /// The text before a new block, or `None` if it is the text before the terminator.
    fn before_new_block(&self) -> Result<Option<String>, AllocError>
        ensures says { IfOk result (λ o. BlockSays
            (node_texts (out-KdlNode self.now).format) (option_map text_of o)) }
        ensures fewest { IfOk result (λ o. BeginsFewest
            (node_texts (out-KdlNode self.now).format) (option_map text_of o)) }
    {
        let Some(format) = &self.format else {
            return Ok(None);
        };
        let alloc = *self.entries.allocator();
        let lacks = place_newlines(alloc, &None, &format.before_terminator)?;
        if lacks == 0 {
            return Ok(None);
        }
        let mut before = format.before_terminator.clone()?;
        push_newlines(&mut before, lacks)?;
        Ok(Some(before))
    }

    /// Moves the text before the terminator to the place before the block, or puts the given text there.
    fn begin_block(&mut self, before: Option<String>)
        ensures { BlockBegins (option_map text_of before) self.old self.new }
    {
        let alloc = *self.entries.allocator();
        if let Some(format) = &mut self.format {
            let place = mem::replace(&mut format.before_terminator, String::new(alloc));
            format.before_children = before.unwrap_or(place);
        }
    }

    /// The format that the node needs before the rest, or `None` if it keeps its own.
    pub(crate) fn ended(&self, rest: Rest) -> Result<Option<KdlNodeFormat>, AllocError>
        ensures reads { IfOk result (λ o. EndsAs rest self.now (end_with o self.now)) }
        ensures exact { IfOk result (λ o. EndsExactly rest self.now o) }
    {
        ended_format(
            *self.entries.allocator(),
            &self.format,
            &self.entries,
            &self.children,
            rest,
        )
    }

    /// Sets the format, if one is given.
    pub(crate) fn end(&mut self, format: Option<KdlNodeFormat>)
        ensures { self.new ≡ end_with format self.old }
    {
        if format.is_some() {
            self.format = format;
        }
    }
}
