//! Edits at each node that a query selects.

ghost use Rattle.kdl.specs.Words.{DocumentReadsBack, IsDocument, Nodes, document_data, document_says, document_tree, entries_of, nodes_of, value_tree};
ghost use Rattle.kdl.specs.declared.node.KdlNode.{KdlNode};
ghost use Rattle.kdl_grammar.specs.ReadsBack.{DocumentReads};
ghost use Rattle.c_calls.specs.Entries.{IsValueText};
ghost use Rattle.kdl_query.specs.Selects.{IsBefore, IsSelected, IsSelection, Path};
ghost use Rattle.kdl_query.specs.Tree.{query_says};
ghost use Rattle.kdl_query.specs.Turns.{paths_from};
ghost use Rattle.kdl_path.specs.Each.{IsRemovedAtEach, IsSetAtEach, RemoveEachFails, SetEachFails, named_node, value_at};
ghost use Rattle.kdl_path.specs.Internal.Cursor.{path_of, whole};
ghost use Rattle.kdl_path.specs.Internal.Failing.{MissesIf};
ghost use Rattle.kdl_path.specs.Internal.Located.{place_of_target};
ghost use Rattle.kdl_path.specs.Internal.OnEach.{IsRemovedOnEach, IsSetOn, IsSetOnEach, paths_back};
ghost use Rattle.kdl_value.specs.Tree.{text_of};
ghost use Rattle.std.specs.List.{AllPairs};
ghost use Rattle.std.specs.Prelude.{◌≡◌, ◌<◌, [], ◌∷◌, Contains, IfErr, IfOk, None, OnOk, Some, length, slice_get};
ghost use Rattle.std.specs.Str.{chars};

use crate::change::{Change, change_in};
use crate::cursor::Cursor;
use crate::failure::{EditFailure, Missing};
use crate::locate::{entry_place, missing_entry};
use crate::path::Target;
use crate::removal::named_place;
use crate::value::{Spelled, read_value};
use kdl::KdlDocument;
use kdl_query::{Query, Turn, query_turns};
use std::alloc::{AllocError, Global};

/// Returns the text with VALUE in place of the value that the target names in each node that the query selects. VALUE is
/// written as it is given, and every byte outside the former values is unchanged.
///
/// Fails with `Value` if VALUE is not one value without a type, with `Text` if the text is not a document, with
/// `Missing` if the query selects nothing in it, or a node without the entry, and with `Memory` if an allocation fails.
///
/// ```
/// let query = Query::parse(alloc, "server > port")?;
/// let text = "server { port 80 /* here */; }; server { port 81; }";
/// let changed = set_each(alloc, text, &query, &Target::Node, "0x1F")?;
/// // "server { port 0x1F /* here */; }; server { port 0x1F; }"
/// ```
pub fn set_each(
    alloc: Global,
    text: &str,
    query: &Query,
    target: &Target,
    value: &str,
) -> Result<String, EditFailure>
    // The values in the nodes that the query selects, one at least, are replaced, and no other byte.
    ensures set { IfOk result (λ out. (x : Nodes) × IsDocument (chars text.now) x
        × IsSetAtEach x (query_says query.now) target.now (chars value.now) (chars text.now)
        (text_of out)) }
    // A failure is `Value` only if VALUE is not a value, `Text` with the faults of the text only if it is not a document,
    // `Missing` only if the query selects nothing in it, or a node without the value, or else `Memory`.
    ensures fails { IfErr result
        (SetEachFails (query_says query.now) target.now value.now text.now) }
{
    let value = read_value(alloc, value)?;
    let document = KdlDocument::parse(alloc, text)?;
    let turns = selected(alloc, &document, query)?;
    let changed = set_at_paths(alloc, document, turns, target, &value)?;
    Ok(changed.to_string(alloc)?)
}

/// Returns the text without each node that the query selects, or without the argument or the property that the target
/// names in each, the last one of that name. With a node, the comments before it are removed.
///
/// Fails with `Text` if the text is not a document, with `Missing` if the query selects nothing in it, or a node without
/// the entry, and with `Memory` if an allocation fails.
///
/// ```
/// let query = Query::parse(alloc, "[off]")?;
/// let text = remove_each(alloc, "a off=1\nb\nc off=2\n", &query, &Target::Node)?; // "b\n"
/// ```
pub fn remove_each(
    alloc: Global,
    text: &str,
    query: &Query,
    target: &Target,
) -> Result<String, EditFailure>
    // The result is a document with the data of the text, without what the target names in the nodes that the query
    // selects, which are one at least.
    ensures removed { IfOk result (λ out. (x : Nodes) × IsDocument (chars text.now) x
        × IsRemovedAtEach x (query_says query.now) target.now (text_of out)) }
    // A failure is `Text` with the faults of the text only if it is not a document, `Missing` only if the query selects
    // nothing in it, or a node without what the target names, or else `Memory`.
    ensures fails { IfErr result (RemoveEachFails (query_says query.now) target.now text.now) }
{
    let document = KdlDocument::parse(alloc, text)?;
    let turns = selected(alloc, &document, query)?;
    let changed = remove_at_paths(alloc, document, turns, target)?;
    Ok(changed.to_string(alloc)?)
}

/// Returns the turns to the paths that the query selects, from the last path to the first, so that no edit moves a node that
/// is edited later. They are taken from the end of the list. Fails with `Missing` if the query selects nothing.
fn selected(alloc: Global, document: &KdlDocument, query: &Query) -> Result<Vec<Turn>, EditFailure>
    ensures selection { IfOk result (λ ts. IsSelection (document_says document.now)
        (query_says query.now) (paths_back ts.items)) }
    ensures some { IfOk result (λ ts. paths_back ts.items ≡ [] → ⊥) }
    ensures missing { IfErr result (λ e. MissesIf ((p : Path)
        → ¬ IsSelected (document_says document.now) (query_says query.now) p) e) }
{
    let turns = query_turns(alloc, document, query)?;
    let Some((first, others)) = turns.split_first() else {
        return Err(EditFailure::Missing(Missing::Selection));
    };
    Ok(backward(alloc, first, others)?)
}

/// Returns the turns to the same paths from the last one to the first.
fn backward(alloc: Global, first: &Turn, others: &[Turn]) -> Result<Vec<Turn>, AllocError>
    ensures { IfOk result (λ ts.
        paths_back ts.items ≡ paths_from [] (first.now ∷ others.now)) }
{
    let mut path = first.rest.clone()?;
    let mut back = Vec::new(alloc);
    for turn in others {
        let kept = turn.kept.min(path.len());
        let rest = path.split_off(kept)?;
        path.extend_from_slice(&turn.rest)?;
        back.push(Turn { kept, rest })?;
    }
    back.push(Turn {
        kept: 0,
        rest: path,
    })?;
    Ok(back)
}

/// Returns the document with the value at each of the paths.
fn set_at_paths(
    alloc: Global,
    document: KdlDocument,
    turns: Vec<Turn>,
    target: &Target,
    value: &Spelled,
) -> Result<KdlDocument, EditFailure>
    requires ordered { AllPairs IsBefore (paths_back turns.items) }
    requires reads { DocumentReadsBack document }
    requires value { IsValueText (text_of value.now.spelling) (value_tree value.now.value) }
    ensures set { IfOk result (λ e. IsSetOnEach (paths_back turns.items) target.now
        (value_tree value.now.value) (text_of value.now.spelling)
        (document_tree document) (document_tree e)) }
    ensures missing { IfErr result (λ e. MissesIf ((p : Path) × Contains (paths_back turns.items) p
        × (value_at target.now (document_says document) p ≡ None)) e) }
{
    let mut cursor = Cursor::over(alloc, document);
    let mut turns = turns;
    while let Some(turn) = turns.pop() {
        cursor.turn(alloc, &turn)?;
        set_value(alloc, &mut cursor, target, value)?;
    }
    Ok(cursor.close()?)
}

/// Sets the value in the node at the path of the cursor.
fn set_value(
    alloc: Global,
    cursor: &mut Cursor,
    target: &Target,
    value: &Spelled,
) -> Result<(), EditFailure>
    requires reads { DocumentReads (whole cursor.old) }
    requires value { IsValueText (text_of value.now.spelling) (value_tree value.now.value) }
    ensures path { OnOk result (path_of cursor.new ≡ path_of cursor.old) }
    ensures set { OnOk result (IsSetOn (path_of cursor.old) target.now (value_tree value.now.value)
        (text_of value.now.spelling) (whole cursor.old) (whole cursor.new)) }
    ensures missing { IfErr result (MissesIf (value_at target.now
        (document_data (whole cursor.old)) (path_of cursor.old) ≡ None)) }
{
    let index = cursor.node()?;
    let at = value_place(alloc, &cursor.block.document, index, target)?;
    let change = Change::SetValue(at, value.clone()?);
    Ok(change_in(alloc, &mut cursor.block.document, index, change)?)
}

/// The place of the entry that the target names in the node at the index.
fn value_place(
    alloc: Global,
    block: &KdlDocument,
    index: usize,
    target: &Target,
) -> Result<usize, EditFailure>
    requires there { index < length (nodes_of block.now) }
    ensures found { IfOk result (λ i. (n : KdlNode) × (slice_get (nodes_of block.now) index ≡ Some n)
        × (place_of_target target.now (entries_of n) ≡ Some i)) }
    ensures missing { IfErr result (MissesIf ((n : KdlNode)
        × (slice_get (nodes_of block.now) index ≡ Some n)
        × (place_of_target target.now (entries_of n) ≡ None))) }
{
    let node = &block.nodes()[index];
    match entry_place(node.entries(), target) {
        Some(at) => Ok(at),
        None => Err(EditFailure::Missing(missing_entry(alloc, node, target)?)),
    }
}

/// Returns the document without what the target names at each of the paths.
fn remove_at_paths(
    alloc: Global,
    document: KdlDocument,
    turns: Vec<Turn>,
    target: &Target,
) -> Result<KdlDocument, EditFailure>
    requires ordered { AllPairs IsBefore (paths_back turns.items) }
    requires reads { DocumentReadsBack document }
    ensures removed { IfOk result (λ e. IsRemovedOnEach (paths_back turns.items) target.now
        (document_tree document) (document_tree e)) }
    ensures missing { IfErr result (λ e. MissesIf ((p : Path) × Contains (paths_back turns.items) p
        × (named_node target.now (document_says document) p ≡ None)) e) }
{
    let mut cursor = Cursor::over(alloc, document);
    let mut turns = turns;
    while let Some(turn) = turns.pop() {
        cursor.turn(alloc, &turn)?;
        remove_target(alloc, &mut cursor, target)?;
    }
    Ok(cursor.close()?)
}

/// Removes the node at the path of the cursor, or the entry of it that the target names.
fn remove_target(alloc: Global, cursor: &mut Cursor, target: &Target) -> Result<(), EditFailure>
    requires reads { DocumentReads (whole cursor.old) }
    ensures path { OnOk result (path_of cursor.new ≡ path_of cursor.old) }
    ensures removed { OnOk result (IsRemovedOnEach (path_of cursor.old ∷ []) target.now
        (whole cursor.old) (whole cursor.new)) }
    ensures missing { IfErr result (MissesIf (named_node target.now
        (document_data (whole cursor.old)) (path_of cursor.old) ≡ None)) }
{
    let index = cursor.node()?;
    let node = &cursor.block.document.nodes()[index];
    match named_place(alloc, node, target)? {
        Some(at) => {
            let change = Change::RemoveEntry(at);
            Ok(change_in(alloc, &mut cursor.block.document, index, change)?)
        }
        None => Ok(cursor.remove(alloc, index)?),
    }
}
