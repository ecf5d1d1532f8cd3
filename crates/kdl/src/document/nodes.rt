//! Nodes added to a document, and removed from it.

ghost use Rattle.kdl.specs.DocumentLookups.{nodes_of};
ghost use Rattle.kdl.specs.Change.{with_nodes};
ghost use Rattle.kdl.specs.Exact.{IsPutExactly, NodesMayFollow};
ghost use Rattle.kdl.specs.Fields.{held_nodes};
ghost use Rattle.kdl.specs.Internal.Ends.{LeadsExactly, PutAfter, PutExactly, PutFirst, end_with, led_with, IsRestAt, ReadsIn, is_text};
ghost use Rattle.kdl.specs.Nodes.{IsPut, PrintsPut, PrintsWithout, said_with, said_without, texts_around};
ghost use Rattle.kdl.specs.ReadsBack.{DocumentReadsBack, NodeReadsBack};
ghost use Rattle.kdl.specs.Tree.{document_prints, document_says, document_tree, node_prints, node_says, node_tree};
ghost use Rattle.kdl.specs.declared.document.KdlDocument.{out-KdlDocument};
ghost use Rattle.kdl_grammar.specs.Print.{trailing_text};
ghost use Rattle.kdl_value.specs.Tree.{text_of};
ghost use Rattle.std.specs.Fn.{CalledAt};
ghost use Rattle.std.specs.List.{insert, remove};
ghost use Rattle.std.specs.List.Retain.{IsFiltered};
ghost use Rattle.std.specs.Prelude.{◌≡◌, ◌≢◌, ◌<◌, ◌≤◌, ◌++◌, [], IfErr, IfOk, MatchBool, OnErr, OnOk, Some, if◌then◌else◌, is_ok, length, option_map, slice_get};

use crate::document::KdlDocument;
use crate::ends::{Rest, gap_newlines, is_empty, push_newlines};
use crate::node::KdlNode;
use kdl_parts::KdlNodeFormat;
use std::alloc::AllocError;

impl KdlDocument {
    /// Appends the node.
    ///
    /// Adds a newline if the printed text would not read back without it, and no superfluous one: after a line comment
    /// or a line continuation without its newline, and at the end of a node without a terminator. It is added to the text
    /// before the new node, which is the last node or the document's leading text, and to the new node itself only if the
    /// document has a trailing text. No other text changes. A node without a format that needs a newline gets a format,
    /// of the texts that it prints at depth 0.
    ///
    /// For a block use `KdlNode::push_child`, since a `}` follows there.
    ///
    /// If an allocation fails, returns the node in the error, and leaves the document unchanged.
    ///
    /// ```
    /// let mut document = KdlDocument::parse(alloc, "a // one")?;
    /// let pushed = document.push_node(KdlNode::parse(alloc, "b 2")?); // prints "a // one\nb 2"
    /// ```
    pub fn push_node(&mut self, node: KdlNode) -> Result<(), (KdlNode, AllocError)>
        ensures nodes { OnOk result
            (IsPut (length (nodes_of self.old)) (node_tree node) self.old self.new) }
        ensures prints { OnOk result
            (PrintsPut (length (nodes_of self.old)) node self.old self.new) }
        ensures exact { OnOk result
            (IsPutExactly (length (nodes_of self.old)) node self.old self.new) }
        ensures appended { OnOk result (NodesMayFollow self.old
            → document_prints self.new ≡ document_prints self.old ++ node_prints node) }
        ensures data { OnOk result (document_says self.new ≡
            said_with (length (nodes_of self.old)) (node_says node) (document_says self.old)) }
        ensures reads { OnOk result (DocumentReadsBack self.old → NodeReadsBack node
            → DocumentReadsBack self.new) }
        ensures back { IfErr result (λ e. e.0 ≡ node) }
        ensures refused { OnErr result (document_tree self.new ≡ document_tree self.old) }
    {
        let index = self.nodes.len();
        self.insert_node(index, node)
    }

    /// Inserts the node before the one at the index, or after the last one. The index has to be at most the number of
    /// nodes. At index 0 the node is inserted before the comments at the head of the document, which belong to the
    /// first node, and after U+FEFF.
    ///
    /// Adds newlines as `push_node` does: at the end of the text before the node, and of the node itself if anything
    /// follows it.
    ///
    /// If an allocation fails, returns the node in the error, and leaves the document unchanged.
    ///
    /// ```
    /// let mut document = KdlDocument::parse(alloc, "// one\na")?;
    /// let inserted = document.insert_node(0, KdlNode::parse(alloc, "b")?); // prints "b\n// one\na"
    /// ```
    pub fn insert_node(&mut self, index: usize, node: KdlNode) -> Result<(), (KdlNode, AllocError)>
        requires { index ≤ length (nodes_of self.old) }
        ensures nodes { OnOk result (IsPut index (node_tree node) self.old self.new) }
        ensures prints { OnOk result (PrintsPut index node self.old self.new) }
        ensures exact { OnOk result (IsPutExactly index node self.old self.new) }
        ensures data { OnOk result (document_says self.new ≡
            said_with index (node_says node) (document_says self.old)) }
        ensures reads { OnOk result (DocumentReadsBack self.old → NodeReadsBack node
            → DocumentReadsBack self.new) }
        ensures back { IfErr result (λ e. e.0 ≡ node) }
        ensures refused { OnErr result (document_tree self.new ≡ document_tree self.old) }
    {
        self.put(index, node, Rest::End)
    }

    /// Removes and returns the node at the index, which has to exist. Everything that the node prints is removed,
    /// including the comments before it, and no other text.
    ///
    /// ```
    /// let mut document = KdlDocument::parse(alloc, "a // one\n// two\nb\nc")?;
    /// let b = document.remove_node(1); // prints "// two\nb\n", and what is left prints "a // one\nc"
    /// ```
    pub fn remove_node(&mut self, index: usize) -> KdlNode
        requires { index < length (nodes_of self.old) }
        ensures nodes { nodes_of self.new ≡ remove (nodes_of self.old) index }
        ensures rest { self.new ≡ with_nodes self.old (held_nodes self.new) }
        ensures value { slice_get (nodes_of self.old) index ≡ Some result }
        ensures prints { PrintsWithout index result self.old self.new }
        ensures data { document_says self.new ≡ said_without index (document_says self.old) }
        ensures reads { DocumentReadsBack self.old
            → DocumentReadsBack self.new × NodeReadsBack result }
    {
        self.nodes.remove(index)
    }

    /// Retains, in order, the nodes for which `keep` returns true, in one pass. `keep` is called exactly once for each
    /// node, in order. All that the other nodes print is removed, as by `remove_node`, and no other text.
    ///
    /// ```
    /// let mut document = KdlDocument::parse(alloc, "a 1\nb\n// two\na 2\n")?;
    /// document.retain_nodes(|node| node.name().value() == "a"); // prints "a 1\n// two\na 2\n"
    /// ```
    pub fn retain_nodes<F: FnMut(&KdlNode) -> bool>(&mut self, keep: F)
        requires { F.IsAlwaysCallable keep }
        ensures nodes { IsFiltered (CalledAt F.FnMut) keep
            (nodes_of self.old) (nodes_of self.new) }
        ensures rest { self.new ≡ with_nodes self.old (held_nodes self.new) }
        ensures reads { DocumentReadsBack self.old → DocumentReadsBack self.new }
    {
        self.nodes.retain(keep);
    }

    /// Inserts the node before the one at the index, or after the last one. The document is a whole text, if its end
    /// follows it, or else the block of a node.
    pub(crate) fn put(
        &mut self,
        index: usize,
        node: KdlNode,
        end: Rest,
    ) -> Result<(), (KdlNode, AllocError)>
        requires { index ≤ length (nodes_of self.old) }
        ensures nodes { OnOk result (IsPut index (node_tree node) self.old self.new) }
        ensures reads { OnOk result (ReadsIn (is_text end) self.old → NodeReadsBack node
            → ReadsIn (is_text end) self.new) }
        ensures exact { OnOk result (PutExactly (is_text end) index node self.old self.new) }
        ensures back { IfErr result (λ e. e.0 ≡ node) }
        ensures refused { OnErr result (document_tree self.new ≡ document_tree self.old) }
    {
        let own = match node.ended(self.rest_at(index, end)) {
            Ok(own) => own,
            Err(error) => return Err((node, error)),
        };
        match index.checked_sub(1) {
            Some(last) => self.put_after(last, node, own),
            None => self.put_first(node, own),
        }
    }

    /// Whether the document has a text after its nodes.
    fn has_trailing(&self) -> bool
        ensures { MatchBool result (trailing_text (texts_around self.now) ≢ [])
            (trailing_text (texts_around self.now) ≡ []) }
    {
        match &self.format {
            Some(format) => !is_empty(&format.trailing),
            None => false,
        }
    }

    /// What follows a node that is inserted at the index.
    fn rest_at(&self, index: usize, end: Rest) -> Rest
        ensures { IsRestAt (is_text end) index self.now result }
    {
        if index < self.nodes.len() || self.has_trailing() {
            return Rest::Text;
        }
        match (end, &self.format) {
            (Rest::End, _) => Rest::End,
            (_, Some(_)) => Rest::Brace,
            (_, None) => Rest::Text,
        }
    }

    /// Inserts the node, with its new format, after the one at `last`, which gets the newlines that it lacks.
    fn put_after(
        &mut self,
        last: usize,
        node: KdlNode,
        own: Option<KdlNodeFormat>,
    ) -> Result<(), (KdlNode, AllocError)>
        requires { last < length (nodes_of self.old) }
        ensures put { OnOk result (PutAfter last (end_with own node) self.old self.new) }
        ensures back { IfErr result (λ e. e.0 ≡ node) }
        ensures refused { OnErr result (document_tree self.new ≡ document_tree self.old) }
    {
        let before = match self.nodes[last].ended(Rest::Text) {
            Ok(before) => before,
            Err(error) => return Err((node, error)),
        };
        self.put_at(last + 1, node, own)?;
        self.nodes[last].end(before);
        Ok(())
    }

    /// Inserts the node, with its new format, before the others. The leading text before it gets the newlines that it
    /// lacks.
    fn put_first(
        &mut self,
        node: KdlNode,
        own: Option<KdlNodeFormat>,
    ) -> Result<(), (KdlNode, AllocError)>
        ensures put { OnOk result (PutFirst (end_with own node) self.old self.new) }
        ensures back { IfErr result (λ e. e.0 ≡ node) }
        ensures refused { OnErr result (document_tree self.new ≡ document_tree self.old) }
    {
        let leading = match self.ended_leading() {
            Ok(leading) => leading,
            Err(error) => return Err((node, error)),
        };
        self.put_at(0, node, own)?;
        self.lead_with(leading);
        Ok(())
    }

    /// The leading text with the newlines that it lacks, or `None` if it lacks none.
    fn ended_leading(&self) -> Result<Option<String>, AllocError>
        ensures { IfOk result (λ o.
            LeadsExactly (texts_around self.now) (option_map text_of o)) }
    {
        let Some(format) = &self.format else {
            return Ok(None);
        };
        let lacks = gap_newlines(*self.nodes.allocator(), &format.leading)?;
        if lacks == 0 {
            return Ok(None);
        }
        let mut leading = format.leading.clone()?;
        push_newlines(&mut leading, lacks)?;
        Ok(Some(leading))
    }

    /// Sets the leading text, if one is given and the document has a format.
    fn lead_with(&mut self, leading: Option<String>)
        ensures nodes { (out-KdlDocument self.new).nodes ≡ (out-KdlDocument self.old).nodes }
        ensures texts { texts_around self.new ≡
            led_with (option_map text_of leading) (texts_around self.old) }
        ensures span { (out-KdlDocument self.new).span ≡ (out-KdlDocument self.old).span }
    {
        let Some(leading) = leading else {
            return;
        };
        if let Some(format) = &mut self.format {
            format.leading = leading;
        }
    }

    /// Inserts the node at the index, with that format if one is given.
    fn put_at(
        &mut self,
        index: usize,
        node: KdlNode,
        own: Option<KdlNodeFormat>,
    ) -> Result<(), (KdlNode, AllocError)>
        requires { index ≤ length (nodes_of self.old) }
        ensures nodes { nodes_of self.new ≡ (if is_ok result
            then insert (nodes_of self.old) index (end_with own node) else nodes_of self.old) }
        ensures rest { self.new ≡ with_nodes self.old (out-KdlDocument self.new).nodes }
        ensures back { IfErr result (λ e. e.0 ≡ node) }
    {
        match self.nodes.insert(index, node) {
            Ok(()) => {
                self.nodes[index].end(own);
                Ok(())
            }
            Err(refused) => Err((refused.value, AllocError)),
        }
    }
}
