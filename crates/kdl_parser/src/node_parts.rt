//! What the parser makes of a text: the parts of documents and nodes.

ghost use Rattle.kdl_grammar.specs.Laid.{node_span};
ghost use Rattle.kdl_grammar.specs.Tree.{Node};
ghost use Rattle.kdl_parser.specs.Internal.NodeText.{with_text_after};
ghost use Rattle.kdl_parser.specs.Internal.Parts.{node_by};
ghost use Rattle.kdl_value.specs.Tree.{text_of};
ghost use Rattle.std.specs.Prelude.{◌≡◌};

use kdl_entry::parsing::parts::TypeParts;
use kdl_entry::{KdlEntry, KdlIdentifier};
use kdl_text::span::SourceSpan;
use std::alloc::Global;

/// A document: its nodes, and the texts around them.
#[derive(Drop)]
pub struct DocumentParts<N> {
    /// Text before the nodes. Empty with nodes, since each node holds the text before it; without nodes the whole text.
    pub leading: String,
    /// The nodes that are not slashdashed, in order.
    pub nodes: Vec<N>,
    /// Text after the last node: line-spaces and slashdashed nodes. Empty without nodes.
    pub trailing: String,
    /// The span from the first node to the last one, in bytes of the text; without nodes it is empty, at the end.
    pub span: SourceSpan,
}

/// A node: its content, and the texts around its parts.
#[derive(Drop)]
pub struct NodeParts<N> {
    /// Text before the node: line-spaces and slashdashed nodes.
    pub leading: String,
    /// The type, if the node has one.
    pub ty: Option<TypeParts>,
    /// The name.
    pub name: KdlIdentifier,
    /// The entries, in order.
    pub entries: Vec<KdlEntry>,
    /// Text between the name or the last entry and the `{` of the children: slashdashed entries, then slashdashed
    /// blocks and node-spaces. Empty without children.
    pub before_children: String,
    /// The children, if the node has a child block.
    pub children: Option<DocumentParts<N>>,
    /// Text before the terminator. After the `}` of the children: slashdashed blocks and node-spaces. Without children,
    /// after the name or the last entry: slashdashed entries, then slashdashed blocks and node-spaces.
    pub before_terminator: String,
    /// What ends the node: `;`, a newline, a line comment, or nothing if the text ends or a `}` follows.
    pub terminator: String,
    /// The span of the node in the text, in bytes.
    pub span: SourceSpan,
}

/// A node that is made of its parts, once each, when its terminator has been read.
pub trait ParsedNode: Drop {
    ghost tree: { Self → Node };

    /// Creates the node from these parts.
    fn from_parts(alloc: Global, parts: NodeParts<Self>) -> Self
        ensures { tree result ≡ node_by tree parts };

    /// Returns the node as one that is a whole text, of this span, with the text after its terminator.
    fn with_text_after(self, trailing: String, span: SourceSpan) -> Self
        ensures { tree result ≡ with_text_after (tree self) (text_of trailing) span };

    /// The span of the node in the text, in bytes.
    fn span(&self) -> SourceSpan
        ensures { result ≡ node_span (tree self.now) };
}
