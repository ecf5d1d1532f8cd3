//! The calls that allocate, on each part of a document: copies, and lengths of printed texts.

use kdl::{KdlDocument, KdlEntry, KdlNode, KdlValue, NodeKey, ParseFailure};
use std::alloc::{AllocError, Global};

/// A text with three faults.
pub const FAULTS: &str = "a #treu\nb 0x\nc {\n";

/// Whether a copy of the item equals it.
fn is_copied<T: Clone + PartialEq>(item: &T) -> Result<bool, AllocError> {
    Ok(item.clone()? == *item)
}

/// Whether a copy of the item equals it, if there is one.
fn is_copied_if_there<T: Clone + PartialEq>(item: Option<&T>) -> Result<bool, AllocError> {
    match item {
        Some(item) => is_copied(item),
        None => Ok(true),
    }
}

/// Whether copies of the value, and of its float, equal them.
fn value_is_copied(value: &KdlValue) -> Result<bool, AllocError> {
    Ok(is_copied(value)? & is_copied_if_there(value.as_float())?)
}

/// Whether copies of the entry and of its parts equal them.
fn entry_is_copied(entry: &KdlEntry) -> Result<bool, AllocError> {
    let mut all = is_copied(entry)? & is_copied_if_there(entry.format())?;
    all &= is_copied_if_there(entry.name())? & is_copied_if_there(entry.ty())?;
    Ok(all & value_is_copied(entry.value())?)
}

/// Whether copies of the node and of its parts equal them.
fn node_is_copied(node: &KdlNode) -> Result<bool, AllocError> {
    let mut all = is_copied(node)? & is_copied_if_there(node.format())?;
    all &= is_copied(node.name())? & is_copied_if_there(node.ty())?;
    for entry in node.entries() {
        all &= entry_is_copied(entry)?;
    }
    Ok(all)
}

/// Whether copies of two keys equal them.
fn keys_are_copied(alloc: Global) -> Result<bool, AllocError> {
    Ok(is_copied(&NodeKey::from_text(alloc, "a key")?)? & is_copied(&NodeKey::Index(7))?)
}

/// Copies the parts of the document: nodes, entries, names, types, values and formats.
pub fn copied(alloc: Global, document: &KdlDocument) -> Result<String, AllocError> {
    let mut all = is_copied_if_there(document.format())? & keys_are_copied(alloc)?;
    for node in document.nodes() {
        all &= node_is_copied(node)?;
    }
    format!(in alloc; "copies are equal: {all}")
}

/// Copies an error, with its diagnostics.
pub fn error_copied(alloc: Global) -> Result<String, AllocError> {
    let Err(failure) = KdlDocument::parse(alloc, FAULTS) else {
        return String::from_str(alloc, "a document");
    };
    let all = failure_is_copied(&failure)?;
    format!(in alloc; "copies of errors are equal: {all}")
}

/// Whether copies of the failure and of its parts equal them.
fn failure_is_copied(failure: &ParseFailure) -> Result<bool, AllocError> {
    let ParseFailure::Syntax(error) = failure else {
        return Err(AllocError);
    };
    let mut all = is_copied(failure)? & is_copied(error)?;
    for diagnostic in &error.diagnostics {
        all &= is_copied(diagnostic)?;
    }
    Ok(all)
}

/// The lengths of what the entries and the names of the nodes print, and whether one prints nothing.
pub fn lengths(alloc: Global, document: &KdlDocument) -> Result<String, AllocError> {
    let mut bytes: usize = 0;
    let mut is_empty = false;
    for node in document.nodes() {
        bytes = bytes.saturating_add(node.name().len(alloc)?);
        is_empty |= node.name().is_empty(alloc)?;
        for entry in node.entries() {
            bytes = bytes.saturating_add(entry.len(alloc)?);
            is_empty |= entry.is_empty(alloc)?;
        }
    }
    format!(in alloc; "names and entries: {bytes} bytes, one is empty: {is_empty}")
}
