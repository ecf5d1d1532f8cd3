//! A node that is inserted.

ghost use Rattle.kdl.specs.Words.{DocumentReadsBack, IsDocument, IsNodeText, NodeData, NodeReadsBack, Nodes, document_says, node_says, nodes_of};
ghost use Rattle.kdl_path.specs.Edits.{HasPlace, IsInsertedAt};
ghost use Rattle.kdl_path.specs.Internal.Failing.{MissesIf, NoNodeIf};
ghost use Rattle.kdl_path.specs.Failures.{InsertFails};
ghost use Rattle.kdl_path.specs.Internal.Done.{IsPutAt, LeadsTo};
ghost use Rattle.kdl_path.specs.declared.failure.EditFailure.TheVariants.{Memory};
ghost use Rattle.kdl_path.specs.declared.path.Step.{Step};
ghost use Rattle.kdl_value.specs.Tree.{text_of};
ghost use Rattle.std.specs.Prelude.{◌≡◌, IfErr, IfOk, List};
ghost use Rattle.std.specs.Str.{chars};

use crate::change::{Change, change_at};
use crate::failure::EditFailure;
use crate::laid::{laid, push};
use crate::layout::layout_at;
use crate::locate::{is_node, locate, lost_failure};
use crate::path::Path;
use kdl::{KdlDocument, KdlNode, ParseFailure};
use std::alloc::Global;

/// Returns the text with NODE as the last node of the block of the node at the PATH, which gets a block if it has none,
/// or as the last node of the document for `/`.
///
/// In a block on several lines NODE has a line of its own, with the indentation of the other nodes. In a block on one
/// line it follows after a `;`. The text of NODE is kept as it is.
///
/// Fails with `NotNode` if the PATH names an argument or a property, with `Node` if NODE is not one node, with `Text` if
/// the text is not a document, with `Missing` if it has no node at the PATH, and with `Memory` if an allocation fails.
///
/// ```
/// let path = Path::parse(alloc, "server")?;
/// let text = insert(alloc, "server {\n    port 80\n}\n", &path, "tls #true")?;
/// // "server {\n    port 80\n    tls #true\n}\n"
/// ```
pub fn insert(alloc: Global, text: &str, path: &Path, node: &str) -> Result<String, EditFailure>
    // NODE is one node, and the result is a document with the data of the text, and with that node at the end of the
    // block that the PATH names,
    ensures inserted { IfOk result (λ out.
        IsInsertedAt path.now (chars node.now) (chars text.now) (text_of out)) }
    // which is there.
    ensures found { IfOk result (λ out. (x : Nodes) × IsDocument (chars text.now) x
        × HasPlace path.now.steps.items x) }
    // A failure is `NotNode` only if the PATH names an argument or a property, `Node` only if NODE is not a node, `Text`
    // with the faults of the text only if it is not a document, `Missing` only if it is one without a node at the PATH, or
    // else `Memory`.
    ensures fails { IfErr result (InsertFails path.now node.now text.now) }
{
    if !is_node(&path.target) {
        return Err(EditFailure::NotNode);
    }
    let node = read_node(alloc, node)?;
    let document = KdlDocument::parse(alloc, text)?;
    let changed = insert_in(alloc, document, path, node)?;
    Ok(changed.to_string(alloc)?)
}

/// Reads a text as a node.
fn read_node(alloc: Global, text: &str) -> Result<KdlNode, EditFailure>
    ensures found { IfOk result (λ n. IsNodeText (chars text.now) (node_says n)) }
    ensures reads { IfOk result (λ n. NodeReadsBack n) }
    ensures refused { IfErr result (λ e.
        NoNodeIf ((y : NodeData) → IsNodeText (chars text.now) y → ⊥) e) }
{
    match KdlNode::parse(alloc, text) {
        Ok(node) => Ok(node),
        Err(ParseFailure::Syntax(error)) => Err(EditFailure::Node(error)),
        Err(ParseFailure::Memory) => Err(EditFailure::Memory),
    }
}

/// Returns the document with the node.
fn insert_in(
    alloc: Global,
    document: KdlDocument,
    path: &Path,
    node: KdlNode,
) -> Result<KdlDocument, EditFailure>
    ensures put { IfOk result (λ d. NodeReadsBack node → DocumentReadsBack document
        → IsPutAt path.now.steps.items (node_says node) document d) }
    ensures found { IfOk result (λ d. HasPlace path.now.steps.items (document_says document)) }
    ensures missing { IfErr result (λ e.
        MissesIf (HasPlace path.now.steps.items (document_says document) → ⊥) e) }
{
    let indices = place_of(alloc, &document, path)?;
    put_node(alloc, document, &indices, node)
}

/// The indices that lead to the node of the PATH; none for the document.
fn place_of(alloc: Global, document: &KdlDocument, path: &Path) -> Result<Vec<usize>, EditFailure>
    ensures leads { IfOk result (λ is.
        LeadsTo path.now.steps.items is.items (nodes_of document.now)) }
    ensures missing { IfErr result (λ e.
        MissesIf (HasPlace path.now.steps.items (document_says document.now) → ⊥) e) }
{
    if path.is_document() {
        return Ok(Vec::new(alloc));
    }
    match locate(alloc, document, &path.steps) {
        Ok(located) => Ok(located.indices),
        Err(lost) => Err(lost_failure(alloc, lost, path)),
    }
}

/// Returns the document with the node at the end of the block of the node at the indices, or of the document.
pub(crate) fn put_node(
    alloc: Global,
    document: KdlDocument,
    indices: &[usize],
    node: KdlNode,
) -> Result<KdlDocument, EditFailure>
    ensures put { IfOk result (λ d. (ss : List Step)
        → LeadsTo ss indices.now (nodes_of document) → NodeReadsBack node
        → DocumentReadsBack document → IsPutAt ss (node_says node) document d) }
    ensures memory { IfErr result (λ e. e ≡ Memory) }
{
    let layout = layout_at(&document, indices);
    let node = laid(alloc, node, layout)?;
    if indices.is_empty() {
        let mut document = document;
        push(&mut document, node)?;
        return Ok(document);
    }
    Ok(change_at(alloc, document, indices, Change::PushChild(node))?)
}
