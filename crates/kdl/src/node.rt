//! Nodes.
#![tactic(auto, using(crate::proofs::Rules::node))]

ghost use Rattle.kdl.specs.Said.{said_children, said_entries, said_name, said_type};
ghost use Rattle.kdl.specs.Tree.{document_says, node_says, node_tree};
ghost use Rattle.kdl_grammar.specs.Print.{print_node};
ghost use Rattle.kdl.specs.Internal.Copied.{with_children};
ghost use Rattle.kdl.specs.Change.{with_span};
ghost use Rattle.kdl.specs.Fields.{block_of, name_of, node_format_of, node_span_of, ty_of};
ghost use Rattle.kdl.specs.Lookups.{entries_of};
ghost use Rattle.kdl.specs.Same.{same_node};
ghost use Rattle.kdl.specs.declared.node.KdlNode.{out-KdlNode};
ghost use Rattle.kdl_entry.specs.Tree.{entry_data, entry_tree, identifier_tree};
ghost use Rattle.std.specs.Prelude.{◌≡◌, IfOk, None, Some, map, is_some, option_map, true};
ghost use Rattle.std.specs.Str.{encode_utf8_all};

mod children;
mod edit;
mod fields;
mod from_parts;
pub mod iter;
mod layout;
mod lookup;

use crate::document::KdlDocument;
use crate::print::write_nodes;
use kdl_entry::{KdlEntry, KdlIdentifier};
use kdl_parts::KdlNodeFormat;
use kdl_text::span::SourceSpan;
use std::alloc::{AllocError, Global};
use std::{fmt, mem, slice};

/// A node: a name, an optional type, entries, optional children, and the texts around them (KDL 2.0.0, Node).
///
/// ```kdl
/// // a leading text, a type, a name, an argument, a property, a block of children, a terminator
/// (published)book "The Rust Book" pages=0x1F0 { chapter 1; };
/// ```
///
/// Two nodes are equal if they agree in everything but their spans.
#[cycle(tree)]
#[derive(Debug, Drop)]
#[derive_where(PartialEq, Eq, Hash)]
pub struct KdlNode {
    pub(crate) ty: Option<KdlIdentifier>,
    pub(crate) name: KdlIdentifier,
    pub(crate) entries: Vec<KdlEntry>,
    pub(crate) children: Option<KdlDocument>,
    pub(crate) format: Option<KdlNodeFormat>,
    #[derive_where(skip(EqHashOrd))]
    span: SourceSpan,
}

impl KdlNode {
    /// Returns only the children.
    pub(crate) fn into_children(self) -> Option<KdlDocument>
        ensures { result ≡ (out-KdlNode self).children }
    {
        let KdlNode { children, .. } = self;
        children
    }

    /// Replaces the children, and returns the old ones.
    pub(crate) fn exchange_children(&mut self, children: Option<KdlDocument>) -> Option<KdlDocument>
        ensures had { result ≡ (out-KdlNode self.old).children }
        ensures has { out-KdlNode self.new ≡ record (out-KdlNode self.old) { children = children } }
    {
        mem::replace(&mut self.children, children)
    }

    /// Returns the name.
    ///
    /// ```
    /// let node = KdlNode::parse(alloc, "\"a\\tb\"")?;
    /// let name = node.name().value(); // an `a`, a tab and a `b`
    /// ```
    pub fn name(&self) -> &KdlIdentifier
        ensures value { result.now ≡ name_of self.now }
        ensures said { (identifier_tree result.now).value ≡ said_name (node_says self.now) }
    {
        &self.name
    }

    /// Returns the type, if the node has one.
    ///
    /// ```
    /// let node = KdlNode::parse(alloc, "(date)today")?;
    /// let ty = node.ty(); // the identifier `date`
    /// ```
    pub fn ty(&self) -> Option<&KdlIdentifier>
        ensures value { option_map (λ t. t.now) result ≡ ty_of self.now }
        ensures said { option_map (λ t. (identifier_tree t.now).value) result ≡
            said_type (node_says self.now) }
    {
        self.ty.as_ref()
    }

    /// Returns the entries, in order.
    ///
    /// ```
    /// let node = KdlNode::parse(alloc, "a 1 /-2 b=3")?;
    /// let count = node.entries().len(); // 2: a slashdashed entry does not count
    /// ```
    pub fn entries(&self) -> &[KdlEntry]
        ensures value { result.now ≡ entries_of self.now }
        ensures said { map (λ e. entry_data (entry_tree e)) result.now ≡
            said_entries (node_says self.now) }
    {
        self.entries.as_slice()
    }

    /// Returns the children, if the node has a child block.
    ///
    /// ```
    /// let none = KdlNode::parse(alloc, "a")?.children().is_none(); // true
    /// let some = KdlNode::parse(alloc, "a {}")?.children().is_some(); // true: an empty block differs from none
    /// ```
    pub fn children(&self) -> Option<&KdlDocument>
        ensures value { option_map (λ d. d.now) result ≡ block_of self.now }
        ensures said { option_map (λ d. document_says d.now) result ≡
            said_children (node_says self.now) }
    {
        self.children.as_ref()
    }

    /// Returns the texts around the parts, if the node keeps them.
    ///
    /// ```
    /// let node = KdlNode::parse(alloc, "a 1 ; ")?;
    /// if let Some(format) = node.format() {
    ///     let ends = format.terminator.as_str(); // ";"
    /// }
    /// ```
    pub fn format(&self) -> Option<&KdlNodeFormat>
        ensures value { option_map (λ f. f.now) result ≡ node_format_of self.now }
        ensures has { is_some result ≡ is_some (node_format_of self.now) }
    {
        self.format.as_ref()
    }

    /// Returns the span of the node in the text that it was parsed from, in bytes: from its type or name up to its
    /// terminator, or the whole text if `KdlNode::parse` read it.
    ///
    /// ```
    /// let document = KdlDocument::parse(alloc, "é 1\nb")?;
    /// let span = document.nodes()[1].span(); // offset 5, since `é` has two bytes
    /// ```
    pub fn span(&self) -> SourceSpan
        ensures { result ≡ node_span_of self.now }
    {
        self.span
    }

    /// Sets the span, and nothing else. Equality ignores the span.
    ///
    /// ```
    /// let mut node = KdlNode::parse(alloc, "a")?;
    /// node.set_span(SourceSpan { offset: 7, len: 1 });
    /// ```
    pub fn set_span(&mut self, span: SourceSpan)
        ensures same { same_node self.old self.new ≡ true }
        ensures rest { self.new ≡ with_span self.old span }
    {
        self.span = span;
    }

    /// Returns a copy with these children in place of the node's.
    pub(crate) fn with_children(&self, children: Option<KdlDocument>) -> Result<KdlNode, AllocError>
        ensures { IfOk result (λ n. node_tree n ≡ with_children self.now children) }
    {
        let ty = self.ty.clone()?;
        let name = self.name.clone()?;
        let entries = self.entries.clone()?;
        let format = self.format.clone()?;
        Ok(KdlNode {
            ty,
            name,
            entries,
            children,
            format,
            span: self.span,
        })
    }
}

/// Prints the node with the texts around its parts. A node without a format is printed after four spaces for each
/// depth, with one space before its `{` if the last entry has no format, and without a terminator. An entry without a
/// format follows one space.
///
/// ```
/// let node = KdlNode::parse(alloc, "a  0x1 { b; }")?;
/// let text = node.to_string(alloc)?; // "a  0x1 { b; }"
/// ```
impl fmt::Display for KdlNode {
    ghost output = { λ n. Some (encode_utf8_all (print_node (node_tree n) 0)) };

    fn fmt<W: fmt::Write>(&self, f: &mut fmt::Formatter<W>) -> fmt::Result {
        write_nodes(*self.entries.allocator(), slice::from_ref(self), f)
    }
}

/// Returns a copy with the same texts and spans, at each depth, or an error if an allocation fails.
impl Clone for KdlNode {
    ghost is_clone = { λ v w. node_tree w ≡ node_tree v };

    fn clone(&self) -> Result<KdlNode, AllocError> {
        let children = match &self.children {
            Some(children) => Some(children.clone()?),
            None => None,
        };
        self.with_children(children)
    }
}
