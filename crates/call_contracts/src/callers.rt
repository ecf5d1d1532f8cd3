//! What a caller proves for the edits with a `requires`.

use kdl::{KdlEntry, KdlIdentifier, KdlNode, KdlValue, NodeKey};
use std::alloc::AllocError;

/// Returns the value of the last property of that name, if there is one.
pub fn property<'a>(node: &'a KdlNode, name: &str) -> Option<&'a KdlValue> {
    if node.has_property(name) {
        Some(&node[name])
    } else {
        None
    }
}

/// Inserts the value before all arguments: 0 is a valid index for an insertion in any node.
pub fn insert_first(
    node: &mut KdlNode,
    value: KdlValue,
) -> Result<Option<KdlEntry>, (KdlEntry, AllocError)> {
    node.insert(NodeKey::Index(0), KdlEntry::new(value))
}

/// Sets a property with a type: the entry has no name, so it takes the key.
pub fn set_typed(
    node: &mut KdlNode,
    key: KdlIdentifier,
    ty: KdlIdentifier,
    value: KdlValue,
) -> Result<Option<KdlEntry>, (KdlEntry, AllocError)> {
    let mut entry = KdlEntry::new(value);
    entry.set_ty(ty);
    node.insert(NodeKey::Key(key), entry)
}

/// Inserts the value before the argument at the index, or last, if there are at least that many
/// arguments. Returns whether there are.
pub fn insert_argument(
    node: &mut KdlNode,
    index: usize,
    value: KdlValue,
) -> Result<bool, (KdlEntry, AllocError)> {
    if node.argument_count() < index {
        return Ok(false);
    }
    node.insert(NodeKey::Index(index), KdlEntry::new(value))?;
    Ok(true)
}

/// Removes the argument at the index, if it exists.
pub fn remove_argument(node: &mut KdlNode, index: usize) -> Option<KdlEntry> {
    if node.argument_count() <= index {
        return None;
    }
    node.remove(NodeKey::Index(index))
}
