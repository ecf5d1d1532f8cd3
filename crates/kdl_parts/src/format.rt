//! The texts around nodes and documents.
#![tactic(auto, using(crate::proofs::Utf8Parts::writes))]

ghost use Rattle.kdl_parts.specs.Formats.{document_format_tree, empty_node_format, ended_format, node_format_tree};
ghost use Rattle.std.specs.Prelude.{◌≡◌, [], IfOk};

use std::alloc::{AllocError, Global};

/// The texts around the parts of a node. The fields describe a node that was parsed.
#[derive(PartialEq, Eq, Hash, Debug, Drop)]
pub struct KdlNodeFormat {
    /// Text before the node: line-spaces (spaces, newlines, comments and line continuations) and slashdashed nodes.
    pub leading: String,
    /// Node-spaces (spaces, block comments and line continuations) between the `(` of the type and its name. Empty
    /// without a type.
    pub before_ty_name: String,
    /// Node-spaces between the name of the type and its `)`. Empty without a type.
    pub after_ty_name: String,
    /// Node-spaces between the `)` of the type and the node's name. Empty without a type.
    pub after_ty: String,
    /// Text between the name or the last entry and the `{` of the children: slashdashed entries, then slashdashed
    /// blocks and node-spaces. Empty without children.
    pub before_children: String,
    /// Text before the terminator. After the `}` of the children: slashdashed blocks and node-spaces. Without children,
    /// after the name or the last entry: slashdashed entries, then slashdashed blocks and node-spaces.
    pub before_terminator: String,
    /// What ends the node: `;`, a newline, a line comment, or nothing if the text ends or a `}` follows.
    pub terminator: String,
    /// Text after the terminator: line-spaces, if the node is a whole text. Empty in a document, where that text
    /// belongs to the next node, or to the document after the last node.
    pub trailing: String,
}

impl KdlNodeFormat {
    /// Creates a format whose texts are empty. Does not allocate.
    ///
    /// ```
    /// let mut format = KdlNodeFormat::new(alloc); // nothing ends the node: the next one would be on the same line
    /// format.terminator = String::from_str(alloc, "\n")?;
    /// ```
    pub fn new(alloc: Global) -> KdlNodeFormat
        ensures { node_format_tree result ≡ empty_node_format }
    {
        KdlNodeFormat {
            leading: String::new(alloc),
            before_ty_name: String::new(alloc),
            after_ty_name: String::new(alloc),
            after_ty: String::new(alloc),
            before_children: String::new(alloc),
            before_terminator: String::new(alloc),
            terminator: String::new(alloc),
            trailing: String::new(alloc),
        }
    }
}

/// Returns a copy with the same texts, or an error if an allocation fails.
impl Clone for KdlNodeFormat {
    ghost is_clone = { λ v w. node_format_tree w ≡ node_format_tree v };

    fn clone(&self) -> Result<KdlNodeFormat, AllocError> {
        Ok(KdlNodeFormat {
            leading: self.leading.clone()?,
            before_ty_name: self.before_ty_name.clone()?,
            after_ty_name: self.after_ty_name.clone()?,
            after_ty: self.after_ty.clone()?,
            before_children: self.before_children.clone()?,
            before_terminator: self.before_terminator.clone()?,
            terminator: self.terminator.clone()?,
            trailing: self.trailing.clone()?,
        })
    }
}

/// Creates the format of a new node: a newline as its terminator, and nothing else.
pub fn new_format(alloc: Global) -> Result<KdlNodeFormat, AllocError>
    ensures { IfOk result (λ f. node_format_tree f ≡ ended_format) }
{
    let mut trailing = String::new(alloc);
    trailing.push('\n')?;
    let mut format = KdlNodeFormat::new(alloc);
    format.trailing = trailing;
    Ok(format)
}

/// The texts around the nodes of a document or of a child block. The fields describe one that was parsed.
#[derive(PartialEq, Eq, Hash, Debug, Drop)]
pub struct KdlDocumentFormat {
    /// Text before the nodes. With nodes: U+FEFF at the start of the text or nothing, since each node holds the text
    /// before it. Without nodes: the whole text.
    pub leading: String,
    /// Text after the last node: line-spaces and slashdashed nodes. Empty without nodes.
    pub trailing: String,
}

impl KdlDocumentFormat {
    /// Creates a format whose texts are empty. Does not allocate.
    ///
    /// ```
    /// let mut format = KdlDocumentFormat::new(alloc);
    /// format.trailing = String::from_str(alloc, "// the end\n")?; // printed after the last node
    /// ```
    pub fn new(alloc: Global) -> KdlDocumentFormat
        ensures { document_format_tree result ≡ record { leading = []; trailing = [] } }
    {
        KdlDocumentFormat {
            leading: String::new(alloc),
            trailing: String::new(alloc),
        }
    }
}

/// Returns a copy with the same texts, or an error if an allocation fails.
impl Clone for KdlDocumentFormat {
    ghost is_clone = { λ v w. document_format_tree w ≡ document_format_tree v };

    fn clone(&self) -> Result<KdlDocumentFormat, AllocError> {
        Ok(KdlDocumentFormat {
            leading: self.leading.clone()?,
            trailing: self.trailing.clone()?,
        })
    }
}
