//! Documents.
#![tactic(auto, using(crate::proofs::Rules::document))]

ghost use Rattle.kdl.specs.Said.{said_nodes};
ghost use Rattle.kdl.specs.Tree.{document_of, document_says, document_tree, node_says, node_tree};
ghost use Rattle.kdl.specs.ReadsBack.{BlockReadsBack, DocumentReadsBack};
ghost use Rattle.kdl_parser.specs.Internal.Parts.{document_by};
ghost use Rattle.kdl_grammar.specs.Print.{print_document};
ghost use Rattle.kdl.specs.Change.{with_document_span};
ghost use Rattle.kdl.specs.Cleared.{new_document};
ghost use Rattle.kdl.specs.DocumentLookups.{nodes_of};
ghost use Rattle.kdl.specs.Fields.{document_format_of, document_span_of};
ghost use Rattle.kdl.specs.Same.{same_document};
ghost use Rattle.kdl.specs.declared.document.KdlDocument.{out-KdlDocument};
ghost use Rattle.std.specs.Prelude.{◌≡◌, IfOk, None, Some, map, option_map, true};
ghost use Rattle.std.specs.Str.{encode_utf8_all};

pub mod args;
mod fields;
mod layout;
mod lookup;
mod nodes;

use crate::clone::copy_nodes;
use crate::drop::dismantle;
use crate::node::KdlNode;
use crate::print::write_nodes;
use kdl_parser::DocumentParts;
use kdl_parts::KdlDocumentFormat;
use kdl_parts::print::{write_leading, write_trailing};
use kdl_text::span::SourceSpan;
use std::alloc::{AllocError, Global};
use std::fmt;

/// A document: nodes, and the texts around them (KDL 2.0.0, Document).
///
/// ```kdl
/// // the leading text of the first node, or of the document where it has no nodes
/// first 1; second 2
/// // a trailing text
/// ```
///
/// Two documents are equal if they agree in everything but their spans.
#[cycle(tree)]
#[derive(Debug)]
#[derive_where(PartialEq, Eq, Hash)]
pub struct KdlDocument {
    pub(crate) nodes: Vec<KdlNode>,
    pub(crate) format: Option<KdlDocumentFormat>,
    #[derive_where(skip(EqHashOrd))]
    span: SourceSpan,
}

/// A document is dropped without recursion and without allocating, however deep its blocks are.
impl Drop for KdlDocument {
    fn drop(self) {
        dismantle(self.into_nodes())
    }
}

impl KdlDocument {
    /// The nodes, without the texts around them.
    pub(crate) fn into_nodes(self) -> Vec<KdlNode>
        ensures { result ≡ (out-KdlDocument self).nodes }
    {
        let KdlDocument {
            nodes,
            format: _,
            span: _,
        } = self;
        nodes
    }

    /// Creates a document of these nodes, without a format.
    pub(crate) fn bare(nodes: Vec<KdlNode>) -> KdlDocument
        ensures { (out-KdlDocument result).nodes ≡ nodes }
    {
        KdlDocument {
            nodes,
            format: None,
            span: SourceSpan { offset: 0, len: 0 },
        }
    }

    /// Creates a document without nodes and without a format. Does not allocate.
    ///
    /// ```
    /// let mut document = KdlDocument::new(alloc);
    /// let name = KdlIdentifier::from_text(alloc, "server")?;
    /// let pushed = document.push_node(KdlNode::new(name)?); // prints `server` and a newline
    /// ```
    #[tactic(auto, using(crate::proofs::Rules::new_document))]
    pub fn new(alloc: Global) -> KdlDocument
        ensures made { document_tree result ≡ new_document }
        ensures reads { DocumentReadsBack result }
        ensures reads_block { BlockReadsBack result }
    {
        KdlDocument::empty(alloc)
    }

    #[inline]
    fn empty(alloc: Global) -> KdlDocument
        ensures { document_tree result ≡ new_document }
    {
        KdlDocument {
            nodes: Vec::new(alloc),
            format: None,
            span: SourceSpan { offset: 0, len: 0 },
        }
    }

    /// Creates a document from its parsed parts.
    pub(crate) fn from_parts(parts: DocumentParts<KdlNode>) -> KdlDocument
        ensures { document_tree result ≡ document_by node_tree parts }
    {
        let format = KdlDocumentFormat {
            leading: parts.leading,
            trailing: parts.trailing,
        };
        KdlDocument {
            nodes: parts.nodes,
            format: Some(format),
            span: parts.span,
        }
    }

    /// Returns the nodes, in order.
    ///
    /// ```
    /// let document = KdlDocument::parse(alloc, "a; /-b; c")?;
    /// let names = document.nodes().iter().map(|node| node.name().value()); // "a", "c"
    /// ```
    pub fn nodes(&self) -> &[KdlNode]
        ensures value { result.now ≡ nodes_of self.now }
        ensures said { map node_says result.now ≡ said_nodes (document_says self.now) }
    {
        self.nodes.as_slice()
    }

    /// Returns the texts around the nodes, if the document keeps them.
    ///
    /// ```
    /// let document = KdlDocument::parse(alloc, "// nothing yet\n")?;
    /// if let Some(format) = document.format() {
    ///     let comment = format.leading.as_str(); // "// nothing yet\n"
    /// }
    /// ```
    pub fn format(&self) -> Option<&KdlDocumentFormat>
        ensures { option_map (λ f. f.now) result ≡ document_format_of self.now }
    {
        self.format.as_ref()
    }

    /// Returns the span of the document in the text that it was parsed from, in bytes: from its first node to the end
    /// of its last one.
    ///
    /// ```
    /// let document = KdlDocument::parse(alloc, "\n\ta 1\n")?;
    /// let span = document.span(); // from the node `a` on: offset 2
    /// ```
    pub fn span(&self) -> SourceSpan
        ensures { result ≡ document_span_of self.now }
    {
        self.span
    }

    /// Sets the span, and nothing else. Equality ignores the span.
    ///
    /// ```
    /// let mut document = KdlDocument::new(alloc);
    /// document.set_span(SourceSpan { offset: 0, len: 12 });
    /// ```
    pub fn set_span(&mut self, span: SourceSpan)
        ensures same { same_document self.old self.new ≡ true }
        ensures rest { self.new ≡ with_document_span self.old span }
    {
        self.span = span;
    }

    /// Returns a document with these nodes, and copies of the texts around the nodes and of the span.
    pub(crate) fn with_nodes(&self, nodes: Vec<KdlNode>) -> Result<KdlDocument, AllocError>
        ensures { IfOk result (λ d. document_tree d ≡
            document_of self.now (map node_tree nodes.items)) }
    {
        let format = self.format.clone()?;
        Ok(KdlDocument {
            nodes,
            format,
            span: self.span,
        })
    }
}

/// Prints the nodes one after another, with the texts around them.
///
/// ```
/// let document = KdlDocument::parse(alloc, "a  0x1\n\nb // last")?;
/// let text = document.to_string(alloc)?; // "a  0x1\n\nb // last"
/// ```
impl fmt::Display for KdlDocument {
    ghost output = { λ d. Some (encode_utf8_all (print_document (document_tree d) 0)) };

    fn fmt<W: fmt::Write>(&self, f: &mut fmt::Formatter<W>) -> fmt::Result {
        write_leading(&self.format, f)?;
        write_nodes(*self.nodes.allocator(), &self.nodes, f)?;
        write_trailing(&self.format, f)
    }
}

/// Returns a copy with the same texts and spans, at each depth, or an error if an allocation fails.
impl Clone for KdlDocument {
    ghost is_clone = { λ v w. document_tree w ≡ document_tree v };

    fn clone(&self) -> Result<KdlDocument, AllocError> {
        let nodes = copy_nodes(*self.nodes.allocator(), &self.nodes)?;
        let copy = self.with_nodes(nodes)?;
        Ok(copy)
    }
}
