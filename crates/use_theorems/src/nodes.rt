//! Nodes that are added and removed.

ghost use Rattle.kdl.specs.Words.{DocumentReadsBack, IsDocument, IsNodeText, LaidDocument, NodeData, NodeEnds, NodeReadsBack, Nodes, NodesMayFollow, document_prints, document_says, document_tree, node_prints, node_says, nodes_of, said_child_nodes, said_node, said_nodes, said_with, said_without};
ghost use Rattle.kdl.specs.declared.document.KdlDocument.{KdlDocument};
ghost use Rattle.std.specs.Prelude.{[], ◌++◌, ◌∷◌, ◌≡◌, IfOk, IfSome, OnOk, length, option_map, slice_get};
ghost use Rattle.std.specs.Str.{chars};

use kdl::{KdlDocument, KdlNode, ParseFailure};
use kdl_laws::reading_back::{ended_reads_back, last_ends, pushed_reads_back};
use kdl_laws::said::pushed_is_said_last;
use std::alloc::{AllocError, Global};

/// Removes and returns the first node, if there is one. The document still reads back, and so does the node.
pub fn remove_first(document: &mut KdlDocument) -> Option<KdlNode>
    requires { DocumentReadsBack document.old }
    ensures first { result ≡ slice_get (nodes_of document.old) 0 }
    ensures document { DocumentReadsBack document.new }
    ensures node { IfSome result NodeReadsBack }
    ensures says { IfSome result (λ _.
        document_says document.new ≡ said_without 0 (document_says document.old)) }
{
    if document.nodes().is_empty() {
        return None;
    }
    Some(document.remove_node(0))
}

/// Adds a node after the others. The document's data have one more node. If the document and the node read back, the
/// document still does, whether the call succeeds or not.
pub fn add(document: &mut KdlDocument, node: KdlNode) -> Result<(), AllocError>
    ensures says { OnOk result (document_says document.new ≡
        said_with (length (nodes_of document.old)) (node_says node) (document_says document.old)) }
    ensures reads { DocumentReadsBack document.old → NodeReadsBack node
        → DocumentReadsBack document.new }
{
    match document.push_node(node) {
        Ok(()) => Ok(()),
        Err(_) => Err(AllocError),
    }
}

/// Pushes a node to the list of nodes itself if the last one ends in `;` or a newline. Otherwise adds it with the newline
/// that is missing.
pub fn push_to_list(document: &mut KdlDocument, node: KdlNode) -> Result<(), AllocError>
    requires document { DocumentReadsBack document.old }
    requires node { NodeEnds node }
    ensures reads { DocumentReadsBack document.new }
    ensures says { OnOk result (document_says document.new ≡
        said_with (length (nodes_of document.old)) (node_says node) (document_says document.old)) }
{
    if !last_ends(document) {
        ended_reads_back();
        return add(document, node);
    }
    pushed_reads_back(document, &node);
    match document.nodes_mut().push(node) {
        Ok(()) => Ok(()),
        Err(_) => Err(AllocError),
    }
}

/// Parses a text and adds a node after its nodes. The document has the data of the text, and then the node.
pub fn push_to_text(alloc: Global, text: &str, node: KdlNode) -> Result<KdlDocument, ParseFailure>
    requires { NodeEnds node }
    ensures reads { IfOk result DocumentReadsBack }
    ensures says { IfOk result (λ d. (x : Nodes) → IsDocument (chars text.now) x
        → said_nodes (document_says d) ≡ said_nodes x ++ (node_says node ∷ [])) }
{
    pushed_is_said_last();
    let mut document = KdlDocument::parse(alloc, text)?;
    push_to_list(&mut document, node)?;
    Ok(document)
}

/// Adds a child after the others in the first node of a name, if there is one. The document reads back, whether the call
/// succeeds or not.
pub fn add_child(document: &mut KdlDocument, name: &str, child: KdlNode) -> Result<(), AllocError>
    requires document { DocumentReadsBack document.old }
    requires child { NodeReadsBack child }
    ensures reads { DocumentReadsBack document.new }
    ensures says { OnOk result (option_map said_child_nodes
        (said_node (chars name.now) (document_says document.new)) ≡
        option_map (λ n. said_child_nodes n ++ (node_says child ∷ []))
        (said_node (chars name.now) (document_says document.old))) }
{
    let Some(node) = document.get_mut(name) else {
        return Ok(());
    };
    let Ok(()) = node.push_child(child) else {
        return Err(AllocError);
    };
    Ok(())
}

/// Parses a text, and adds the node of another text as the last child of the first node of a name. The document reads
/// back.
pub fn with_child(
    alloc: Global,
    text: &str,
    name: &str,
    child: &str,
) -> Result<KdlDocument, ParseFailure>
    ensures reads { IfOk result DocumentReadsBack }
    ensures says { IfOk result (λ d. (x : Nodes) (y : NodeData) → IsDocument (chars text.now) x
        → IsNodeText (chars child.now) y
        → option_map said_child_nodes (said_node (chars name.now) (document_says d)) ≡
        option_map (λ n. said_child_nodes n ++ (y ∷ [])) (said_node (chars name.now) x)) }
{
    let mut document = KdlDocument::parse(alloc, text)?;
    add_child(&mut document, name, KdlNode::parse(alloc, child)?)?;
    Ok(document)
}

/// Adds a node to a document that ends its last line. The document prints what it printed before, and then the node.
pub fn append(document: &mut KdlDocument, node: KdlNode) -> Result<(), AllocError>
    requires { NodesMayFollow document.old }
    ensures { IfOk result (λ _.
        document_prints document.new ≡ document_prints document.old ++ node_prints node) }
{
    match document.push_node(node) {
        Ok(()) => Ok(()),
        Err(_) => Err(AllocError),
    }
}

/// Parses a text, and adds a node after the others. If the text ends its last line, the document prints the text, and
/// then the node.
pub fn append_to_text(alloc: Global, text: &str, node: KdlNode) -> Result<KdlDocument, ParseFailure>
    ensures { IfOk result (λ out. ((d : KdlDocument)
        → LaidDocument (document_tree d) (chars text.now) → NodesMayFollow d)
        → document_prints out ≡ chars text.now ++ node_prints node) }
{
    let mut longer = KdlDocument::parse(alloc, text)?;
    match longer.push_node(node) {
        Ok(()) => Ok(longer),
        Err(_) => Err(ParseFailure::Memory),
    }
}
