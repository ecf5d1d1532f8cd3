//! A node, an argument or a property that is removed.

ghost use Rattle.kdl.specs.Words.{DocumentReadsBack, IsDocument, Nodes, document_says, entries_of, nodes_of, said_without};
ghost use Rattle.kdl.specs.declared.node.KdlNode.{KdlNode};
ghost use Rattle.kdl_path.specs.Edits.{named_at, without};
ghost use Rattle.kdl_path.specs.Internal.Failing.{MissesIf};
ghost use Rattle.kdl_path.specs.Failures.{RemoveFails};
ghost use Rattle.kdl_path.specs.Internal.Done.{IsNamed, IsNodeRemoved, IsRemovedAt};
ghost use Rattle.kdl_path.specs.Internal.Located.{Leads, place_of_target};
ghost use Rattle.kdl_path.specs.declared.failure.EditFailure.TheVariants.{Memory};
ghost use Rattle.kdl_path.specs.declared.path.Step.{Step};
ghost use Rattle.kdl_path.specs.declared.path.Target.{Target};
ghost use Rattle.kdl_path.specs.declared.path.Target.TheVariants.{Node};
ghost use Rattle.kdl_value.specs.Tree.{text_of};
ghost use Rattle.std.specs.Prelude.{◌≡◌, IfErr, IfOk, IsSome, List, None};
ghost use Rattle.std.specs.Str.{chars};

use crate::change::{Change, change_at};
use crate::failure::EditFailure;
use crate::locate::{entry_place, is_node, locate, lost_failure, missing_entry};
use crate::path::{Path, Target};
use kdl::{KdlDocument, KdlNode};
use std::alloc::Global;

/// Returns the text without what the PATH names: the node, or its argument or its property, the last one of that name.
/// With a node, the comments before it are removed.
///
/// Fails with `Text` if the text is not a document, with `Missing` if it does not have what the PATH names, and with
/// `Memory` if an allocation fails.
///
/// ```
/// let path = Path::parse(alloc, "server/@host")?;
/// let text = remove(alloc, "server host=a port=80", &path)?; // "server port=80"
/// ```
pub fn remove(alloc: Global, text: &str, path: &Path) -> Result<String, EditFailure>
    // The result is a document with the data of the text, without what the PATH names,
    ensures removed { IfOk result (λ out. (x : Nodes) → IsDocument (chars text.now) x
        → IsDocument (text_of out) (without path.now x)) }
    // which is there.
    ensures found { IfOk result (λ out. (x : Nodes) × IsDocument (chars text.now) x
        × IsSome (named_at path.now x)) }
    // A failure is `Text` with the faults of the text only if it is not a document, `Missing` only if it is one without
    // what the PATH names, or else `Memory`.
    ensures fails { IfErr result (RemoveFails path.now text.now) }
{
    let document = KdlDocument::parse(alloc, text)?;
    let changed = remove_in(alloc, document, path)?;
    Ok(changed.to_string(alloc)?)
}

/// Returns the document without what the PATH names.
fn remove_in(alloc: Global, document: KdlDocument, path: &Path) -> Result<KdlDocument, EditFailure>
    ensures removed { IfOk result (λ d. DocumentReadsBack document
        → IsRemovedAt path.now.steps.items path.now.target document d) }
    ensures found { IfOk result (λ d. IsSome (named_at path.now (document_says document))) }
    ensures missing { IfErr result (λ e.
        MissesIf (named_at path.now (document_says document) ≡ None) e) }
{
    let located = match locate(alloc, &document, &path.steps) {
        Ok(located) => located,
        Err(lost) => return Err(lost_failure(alloc, lost, path)),
    };
    let place = named_place(alloc, located.node, &path.target)?;
    let indices = located.indices;
    remove_at(alloc, document, &indices, place)
}

/// The place of the entry that the target names, or `None` for the node itself.
pub(crate) fn named_place(
    alloc: Global,
    node: &KdlNode,
    target: &Target,
) -> Result<Option<usize>, EditFailure>
    ensures named { IfOk result (λ o. IsNamed target.now node.now o) }
    ensures missing { IfErr result (λ e.
        MissesIf ((target.now ≡ Node → ⊥) × (place_of_target target.now (entries_of node.now) ≡ None)) e) }
{
    if is_node(target) {
        return Ok(None);
    }
    match entry_place(node.entries(), target) {
        Some(at) => Ok(Some(at)),
        None => Err(EditFailure::Missing(missing_entry(alloc, node, target)?)),
    }
}

/// Returns the document without the entry at the place, of the node at the indices, or without that node.
fn remove_at(
    alloc: Global,
    document: KdlDocument,
    indices: &[usize],
    place: Option<usize>,
) -> Result<KdlDocument, EditFailure>
    ensures removed { IfOk result (λ d. (ss : List Step) (t : Target) (n : KdlNode)
        → Leads ss indices.now (nodes_of document) None n → IsNamed t n place
        → DocumentReadsBack document → IsRemovedAt ss t document d) }
    ensures memory { IfErr result (λ e. e ≡ Memory) }
{
    match place {
        Some(at) => Ok(change_at(alloc, document, indices, Change::RemoveEntry(at))?),
        None => remove_node(alloc, document, indices),
    }
}

/// Returns the document without the node at the indices.
fn remove_node(
    alloc: Global,
    document: KdlDocument,
    indices: &[usize],
) -> Result<KdlDocument, EditFailure>
    ensures removed { IfOk result (λ d. (ss : List Step) (n : KdlNode)
        → Leads ss indices.now (nodes_of document) None n → DocumentReadsBack document
        → IsNodeRemoved ss document d) }
    ensures memory { IfErr result (λ e. e ≡ Memory) }
{
    let Some((last, above)) = indices.split_last() else {
        return Ok(document);
    };
    if above.is_empty() {
        return Ok(remove_top(document, *last));
    }
    Ok(change_at(alloc, document, above, Change::RemoveChild(*last))?)
}

/// Returns the document without the node at the index, if there is one.
fn remove_top(mut document: KdlDocument, index: usize) -> KdlDocument
    ensures says { document_says result ≡ said_without index (document_says document) }
    ensures reads { DocumentReadsBack document → DocumentReadsBack result }
{
    if index < document.nodes().len() {
        drop(document.remove_node(index));
    }
    document
}
