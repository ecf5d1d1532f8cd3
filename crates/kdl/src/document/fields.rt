//! Setters of a document's parts and mutable references to them, and its printed length.

ghost use Rattle.kdl.specs.Change.{with_nodes, with_document_format, nodes_row};
ghost use Rattle.kdl.specs.Cleared.{cleared_document};
ghost use Rattle.kdl.specs.DocumentLookups.{nodes_of};
ghost use Rattle.kdl.specs.Fields.{document_format_of, held_nodes};
ghost use Rattle.kdl_grammar.specs.Print.{print_document};
ghost use Rattle.kdl.specs.Tree.{document_tree};
ghost use Rattle.kdl.specs.contracts.document.KdlDocument.{the_row};
ghost use Rattle.kdl_parts.specs.contracts.format.KdlDocumentFormat.{the_row as format_row};
ghost use Rattle.kdl_text.specs.Spans.{bytes};
ghost use Rattle.std.specs.Borrow.{Lends, LendsIf, sem};
ghost use Rattle.std.specs.Prelude.{◌≡◌, ◌↔◌, IfOk, IsTrue, [], None, Some, option_map};
ghost use Rattle.std.specs.Vec.Iter.{into_iter_items};

use crate::clear::clear_all;
use crate::document::KdlDocument;
use crate::node::KdlNode;
use kdl_parts::KdlDocumentFormat;
use std::alloc::{AllocError, Global};
use std::vec::IntoIter;

impl KdlDocument {
    /// Returns a mutable reference to the nodes.
    ///
    /// No newline is added between the nodes: a node that follows one without a terminator is joined to it in the
    /// printed text. To add and remove nodes use `push_node`, `insert_node` and `remove_node`.
    ///
    /// ```
    /// let mut document = KdlDocument::parse(alloc, "a\nb\nc\n")?;
    /// let b = document.nodes_mut().remove(1); // what is left prints "a\nc\n"
    /// ```
    pub fn nodes_mut(&mut self) -> &mut Vec<KdlNode>
        ensures* writes_back { sem 𝓛 (Lends the_row nodes_row self.entry result
            (with_nodes self.old)) }
        ensures value { result.now ≡ held_nodes self.old }
    {
        &mut self.nodes
    }

    /// Returns a mutable reference to the texts around the nodes, if the document keeps them.
    ///
    /// ```
    /// let mut document = KdlDocument::parse(alloc, "a\n")?;
    /// if let Some(format) = document.format_mut() {
    ///     format.trailing = String::from_str(alloc, "// the end")?;
    /// }
    /// ```
    pub fn format_mut(&mut self) -> Option<&mut KdlDocumentFormat>
        ensures* writes_back { sem 𝓛 (LendsIf the_row format_row self.entry result
            (λ f. with_document_format self.old (Some f)) self.old) }
        ensures value { option_map (λ f. f.now) result ≡ document_format_of self.old }
    {
        self.format.as_mut()
    }

    /// Sets the texts around the nodes, and nothing else.
    ///
    /// ```
    /// let mut document = KdlDocument::new(alloc);
    /// document.set_format(KdlDocumentFormat::new(alloc));
    /// ```
    pub fn set_format(&mut self, format: KdlDocumentFormat)
        ensures { self.new ≡ with_document_format self.old (Some format) }
    {
        self.format = Some(format);
    }

    /// Drops the document's own format, and nothing else: its nodes are unchanged.
    ///
    /// ```
    /// let mut document = KdlDocument::parse(alloc, "a // one\n// two")?;
    /// document.clear_format(); // prints "a // one\n"
    /// ```
    pub fn clear_format(&mut self)
        ensures { self.new ≡ with_document_format self.old None }
    {
        self.format = None;
    }

    /// Drops the document's format, and all that `clear_format_recursive` of each node drops.
    ///
    /// ```
    /// let mut document = KdlDocument::parse(alloc, "a   0x10 { b /* none */; }")?;
    /// document.clear_format_recursive(); // no node keeps a space, a comment or a spelling
    /// ```
    pub fn clear_format_recursive(&mut self)
        ensures { document_tree self.new ≡ cleared_document (document_tree self.old) }
    {
        clear_all(self);
    }

    /// Returns the length of the printed text, in bytes. This prints the document, so it returns an error if an
    /// allocation fails.
    ///
    /// ```
    /// let document = KdlDocument::parse(alloc, "naïve")?;
    /// let bytes = document.len(alloc)?; // 6
    /// ```
    pub fn len(&self, alloc: Global) -> Result<usize, AllocError>
        ensures { IfOk result (λ n. n ≡ bytes (print_document (document_tree self.now) 0)) }
    {
        Ok(self.to_string(alloc)?.len())
    }

    /// Returns whether the printed text is empty. This prints the document, so it returns an error if an allocation
    /// fails.
    ///
    /// ```
    /// let document = KdlDocument::parse(alloc, "// a comment")?;
    /// let nothing = document.is_empty(alloc)?; // false: the comment is printed
    /// ```
    pub fn is_empty(&self, alloc: Global) -> Result<bool, AllocError>
        ensures { IfOk result (λ b. IsTrue b ↔ (print_document (document_tree self.now) 0 ≡ [])) }
    {
        Ok(self.to_string(alloc)?.is_empty())
    }
}

/// Iterates over the nodes, in order. The document's format and span are dropped.
///
/// ```
/// let document = KdlDocument::parse(alloc, "a; b")?;
/// for node in document {
///     let name = node.name().value(); // "a", then "b"
/// }
/// ```
impl IntoIterator for KdlDocument {
    type Item = KdlNode;

    type IntoIter = IntoIter<KdlNode>;

    ghost into_iter_gives = { λ d r. into_iter_items r ≡ nodes_of d };

    fn into_iter(self) -> IntoIter<KdlNode> {
        self.into_nodes().into_iter()
    }
}
