//! Documents that are built by calls. What they print reads back.

ghost use Rattle.kdl.specs.Words.{ChildPut, DocumentReadsBack, IsDocument, NodeEnds, NodeReadsBack, Nodes, child_nodes, document_says, integer, node_says, said_argument, said_entries, said_name, said_nodes, said_property, text_of, value_tree};
ghost use Rattle.std.specs.Prelude.{[], ◌++◌, ◌∷◌, ◌≡◌, IfOk, Some, chars, codes, length, map, pos};

use crate::reads_back::{add_argument, insert_property, printed};
use kdl::{KdlDocument, KdlIdentifier, KdlNode, KdlValue};
use kdl_laws::reading_back::ended_reads_back;
use kdl_laws::said::pushed_is_said_last;
use std::alloc::{AllocError, Global};

/// Adds a node after the others. The document still reads back, and the node is the last in its data.
pub fn add_last(document: &mut KdlDocument, node: KdlNode) -> Result<(), AllocError>
    requires document { DocumentReadsBack document.old }
    requires node { NodeReadsBack node }
    ensures reads { IfOk result (λ _. DocumentReadsBack document.new) }
    ensures says { IfOk result (λ _. said_nodes (document_says document.new) ≡
        said_nodes (document_says document.old) ++ (node_says node ∷ [])) }
{
    pushed_is_said_last();
    let Ok(()) = document.push_node(node) else {
        return Err(AllocError);
    };
    Ok(())
}

/// Creates a node with an argument and a property. The node reads back before any text.
pub fn one_node(
    alloc: Global,
    name: &str,
    property: &str,
    one: KdlValue,
    other: KdlValue,
) -> Result<KdlNode, AllocError>
    ensures ends { IfOk result NodeEnds }
    ensures name { IfOk result (λ n. said_name (node_says n) ≡ chars name.now) }
    ensures argument { IfOk result (λ n.
        said_argument 0 (node_says n) ≡ Some (value_tree one)) }
    ensures property { IfOk result (λ n.
        said_property (chars property.now) (node_says n) ≡ Some (value_tree other)) }
{
    let mut node = KdlNode::new(KdlIdentifier::from_text(alloc, name)?)?;
    add_argument(&mut node, one)?;
    insert_property(alloc, &mut node, property, other)?;
    Ok(node)
}

/// Builds a document of two nodes, and returns its text. The data of the text are these two nodes.
pub fn two_nodes(alloc: Global, one: KdlNode, other: KdlNode) -> Result<String, AllocError>
    requires one { NodeReadsBack one }
    requires other { NodeReadsBack other }
    ensures { IfOk result (λ out. (x : Nodes) × IsDocument (text_of out) x
        × (said_nodes x ≡ node_says one ∷ node_says other ∷ [])) }
{
    let mut document = KdlDocument::new(alloc);
    add_last(&mut document, one)?;
    add_last(&mut document, other)?;
    printed(alloc, &document)
}

/// Adds a child to a node, after its other children. The node still reads back before any text, and its name and
/// entries do not change.
pub fn with_block(mut node: KdlNode, child: KdlNode) -> Result<KdlNode, AllocError>
    requires node { NodeEnds node }
    requires child { NodeReadsBack child }
    ensures ends { IfOk result NodeEnds }
    ensures child { IfOk result (ChildPut (length (child_nodes node)) child node) }
    ensures name { IfOk result (λ n. said_name (node_says n) ≡ said_name (node_says node)) }
    ensures entries { IfOk result (λ n.
        said_entries (node_says n) ≡ said_entries (node_says node)) }
{
    match node.push_child(child) {
        Ok(()) => Ok(node),
        Err(_) => Err(AllocError),
    }
}

/// Returns the text of two nodes, the first of which has a child. Each node has an argument and a property. The data of
/// the text have both names and both ports.
pub fn servers(alloc: Global, one: &str, other: &str) -> Result<String, AllocError>
    ensures { IfOk result (λ out. (x : Nodes) × IsDocument (text_of out) x
        × (map said_name (said_nodes x) ≡ chars one.now ∷ chars other.now ∷ [])
        × (map (said_property (chars (codes "port"))) (said_nodes x) ≡
        Some (integer (pos 8080)) ∷ Some (integer (pos 8081)) ∷ [])) }
{
    ended_reads_back();
    let first = one_node(alloc, one, "port", KdlValue::from(1), KdlValue::from(8080))?;
    let second = one_node(
        alloc,
        other,
        "port",
        KdlValue::from(2),
        KdlValue::from(8081),
    )?;
    let child = one_node(
        alloc,
        "limits",
        "cpu",
        KdlValue::from(4),
        KdlValue::from(true),
    )?;
    two_nodes(alloc, with_block(first, child)?, second)
}
