//! The node, the entry and the values at a PATH.

ghost use Rattle.kdl.specs.Words.{child_nodes, document_says, entry_data, entry_tree, is_node_named, node_says, nodes_of, said_nodes, value_tree};
ghost use Rattle.kdl_path.specs.Failures.{IsMissing};
ghost use Rattle.kdl_path.specs.Internal.Located.{IsNowhere, named_in};
ghost use Rattle.c_calls.specs.Paths.{node_at as indexed_node};
ghost use Rattle.kdl_path.specs.Paths.{AreIndices, all_at, at_path, entry_at, entry_in, node_at, nodes_at, value_in};
ghost use Rattle.std.specs.List.{filter, flat_map};
ghost use Rattle.std.specs.Prelude.{◌≡◌, ◌++◌, IfErr, IfOk, IfSome, None, OnOk, Some, map, option_map};

use crate::failure::{GetFailure, Missing};
use crate::locate::{
    Located, Lost, child_nodes, entry_place, is_named, locate, missing_entry, missing_node,
    step_index,
};
use crate::path::{Path, Step, Target};
use kdl::{KdlDocument, KdlEntry, KdlNode, KdlValue};
use std::alloc::{AllocError, Global};

/// Returns the node that the PATH leads to, and its indices, or `None` if the document has no such node. Returns an error
/// if an allocation fails.
///
/// ```
/// let document = KdlDocument::parse(alloc, "a; b { c; }")?;
/// let found = find(alloc, &document, &Path::parse(alloc, "b/c")?)?; // the node `c`, and the indices 1 and 0
/// ```
pub fn find<'a>(
    alloc: Global,
    document: &'a KdlDocument,
    path: &Path,
) -> Result<Option<Located<'a>>, AllocError>
    // The node is the one to which the steps lead in the data of the document,
    ensures said { IfOk result (λ o. option_map (λ l. node_says l.node.now) o
        ≡ node_at path.now.steps.items (said_nodes (document_says document.now))) }
    // the indices are its places there, and they lead to it.
    ensures places { IfOk result (λ o. IfSome o (λ l. AreIndices path.now.steps.items
        l.indices.items (said_nodes (document_says document.now)))) }
    ensures there { IfOk result (λ o. IfSome o (λ l.
        indexed_node l.indices.items (nodes_of document.now) ≡ Some l.node.now)) }
{
    match locate(alloc, document, &path.steps) {
        Ok(located) => Ok(Some(located)),
        Err(Lost::Document) => Ok(None),
        Err(Lost::Step(_, _)) => Ok(None),
        Err(Lost::Memory) => Err(AllocError),
    }
}

/// Returns the entry that the PATH names, or argument 0 of its node; `None` if the document has no such entry. Returns an
/// error if an allocation fails.
///
/// ```
/// let document = KdlDocument::parse(alloc, "a 1 k=2 3")?;
/// let found = find_entry(alloc, &document, &Path::parse(alloc, "a#1")?)?; // the argument `3`
/// ```
pub fn find_entry<'a>(
    alloc: Global,
    document: &'a KdlDocument,
    path: &Path,
) -> Result<Option<&'a KdlEntry>, AllocError>
    ensures { IfOk result (λ o. option_map (λ e. entry_data (entry_tree e.now)) o
        ≡ entry_at path.now (document_says document.now)) }
{
    match find(alloc, document, path)? {
        Some(found) => Ok(entry_of(found.node, &path.target)),
        None => Ok(None),
    }
}

/// Returns the value at the PATH: of the argument or the property that it names, or of argument 0 of its node.
///
/// Fails with `Missing` if the document has no such value, and with `Memory` if an allocation fails.
///
/// ```
/// let document = KdlDocument::parse(alloc, "server host=a host=b { port 80; }")?;
/// let port = get(alloc, &document, &Path::parse(alloc, "server/port")?)?; // 80
/// let host = get(alloc, &document, &Path::parse(alloc, "server/@host")?)?; // "b"
/// ```
pub fn get<'a>(
    alloc: Global,
    document: &'a KdlDocument,
    path: &Path,
) -> Result<&'a KdlValue, GetFailure>
    // The value is the one that the data of the document have there,
    ensures found { IfOk result (λ v.
        at_path path.now (document_says document.now) ≡ Some (value_tree v.now)) }
    // and a missing value is one that they do not have.
    ensures missing { IfErr result (λ e. IsMissing e
        → at_path path.now (document_says document.now) ≡ None) }
{
    let node = match locate(alloc, document, &path.steps) {
        Ok(located) => located.node,
        Err(lost) => return Err(not_located(alloc, lost, path)),
    };
    match value_of(node, &path.target) {
        Some(value) => Ok(value),
        None => Err(GetFailure::Missing(missing_entry(alloc, node, &path.target)?)),
    }
}

/// The failure for a node that was not located.
fn not_located<'a>(alloc: Global, lost: Lost<'a>, path: &Path) -> GetFailure
    ensures { IsMissing result → IsNowhere lost.entry }
{
    match lost {
        Lost::Document => missing_failure(missing_node(alloc, &[], path, 0)),
        Lost::Step(indices, nodes) => {
            missing_failure(missing_node(alloc, nodes, path, indices.len()))
        }
        Lost::Memory => GetFailure::Memory,
    }
}

/// The failure for what is missing.
fn missing_failure(missing: Result<Missing, AllocError>) -> GetFailure {
    match missing {
        Ok(missing) => GetFailure::Missing(missing),
        Err(_) => GetFailure::Memory,
    }
}

/// The entry that a target names in a node.
fn entry_of<'a>(node: &'a KdlNode, target: &Target) -> Option<&'a KdlEntry>
    ensures { option_map (λ e. entry_data (entry_tree e.now)) result
        ≡ entry_in target.now (node_says node.now) }
{
    let entries = node.entries();
    let Some(at) = entry_place(entries, target) else {
        return None;
    };
    match entries.get(at) {
        Some(entry) => Some(entry),
        None => None,
    }
}

/// The value that a target names in a node.
fn value_of<'a>(node: &'a KdlNode, target: &Target) -> Option<&'a KdlValue>
    ensures { option_map (λ v. value_tree v.now) result ≡ value_in target.now (node_says node.now) }
{
    match entry_of(node, target) {
        Some(entry) => Some(entry.value()),
        None => None,
    }
}

/// Returns the value at the PATH of every node that the PATH leads to, in the order of the document. A step without an
/// index leads to every node of its name. A node that has no such value gives none.
///
/// ```
/// let document = KdlDocument::parse(alloc, "a { b 1; b 2; }; a { b 3; }")?;
/// let values = get_all(alloc, &document, &Path::parse(alloc, "a/b")?)?; // 1, 2, 3
/// ```
pub fn get_all<'a>(
    alloc: Global,
    document: &'a KdlDocument,
    path: &Path,
) -> Result<Vec<&'a KdlValue>, AllocError>
    ensures { IfOk result (λ vs. map (λ v. value_tree v.now) vs.items
        ≡ all_at path.now (document_says document.now)) }
{
    let mut values = Vec::new(alloc);
    let nodes = all_nodes(alloc, document, &path.steps)?;
    for node in &nodes {
        if let Some(value) = value_of(*node, &path.target) {
            values.push(value)?;
        }
    }
    Ok(values)
}

/// Returns every node that the steps lead to, in the order of the document.
fn all_nodes<'a>(
    alloc: Global,
    document: &'a KdlDocument,
    steps: &[Step],
) -> Result<Vec<&'a KdlNode>, AllocError>
    ensures { IfOk result (λ ns. map (λ n. node_says n.now) ns.items
        ≡ nodes_at steps.now (said_nodes (document_says document.now))) }
{
    let Some((first, below)) = steps.split_first() else {
        return Ok(Vec::new(alloc));
    };
    let mut nodes = Vec::new(alloc);
    push_named(&mut nodes, document.nodes(), first)?;
    for step in below {
        nodes = nodes_inside(alloc, &nodes, step)?;
    }
    Ok(nodes)
}

/// Returns the nodes that a step leads to from each of these nodes.
fn nodes_inside<'a>(
    alloc: Global,
    nodes: &[&'a KdlNode],
    step: &Step,
) -> Result<Vec<&'a KdlNode>, AllocError>
    ensures { IfOk result (λ ns. map (λ n. n.now) ns.items
        ≡ flat_map (λ n. named_in step.now (child_nodes n)) (map (λ n. n.now) nodes.now)) }
{
    let mut inside = Vec::new(alloc);
    for node in nodes {
        push_named(&mut inside, child_nodes(*node), step)?;
    }
    Ok(inside)
}

/// Appends the nodes that a step leads to.
fn push_named<'a>(
    out: &mut Vec<&'a KdlNode>,
    nodes: &'a [KdlNode],
    step: &Step,
) -> Result<(), AllocError>
    ensures { OnOk result (map (λ n. n.now) out.new.items
        ≡ map (λ n. n.now) out.old.items ++ named_in step.now nodes.now) }
{
    if step.index.is_none() {
        return push_each(out, nodes, &step.name);
    }
    if let Some(index) = step_index(nodes, step) {
        if let Some(node) = nodes.get(index) {
            out.push(node)?;
        }
    }
    Ok(())
}

/// Appends each node of that name.
fn push_each<'a>(
    out: &mut Vec<&'a KdlNode>,
    nodes: &'a [KdlNode],
    name: &str,
) -> Result<(), AllocError>
    ensures { OnOk result (map (λ n. n.now) out.new.items
        ≡ map (λ n. n.now) out.old.items ++ filter (is_node_named name.now) nodes.now) }
{
    for node in nodes {
        if is_named(node, name) {
            out.push(node)?;
        }
    }
    Ok(())
}
