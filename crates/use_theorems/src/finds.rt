//! What look-ups find after an entry is inserted, pushed or removed.

ghost use Rattle.kdl.specs.declared.node.KdlNode.{KdlNode};
ghost use Rattle.kdl.specs.Words.{IsAdded, IsPutIn, IsSet, IsTakenOut, IsTakenOutAt, argument_count, entries_of, entry_there, has_name, value_at, value_of, value_tree};
ghost use Rattle.std.specs.Prelude.{◌<◌, ◌≡◌, IfOk, OnOk, Some, option_map, position, string_bytes};

use crate::reads_back::add_argument;
use kdl::{KdlEntry, KdlIdentifier, KdlNode, KdlValue, NodeKey};
use std::alloc::{AllocError, Global};

/// Sets a property. Its name then finds the value, and other look-ups find what they found before.
pub fn set_property(
    alloc: Global,
    node: &mut KdlNode,
    name: &str,
    value: KdlValue,
) -> Result<(), AllocError>
    ensures { IfOk result (λ _. IsSet name.now (value_tree value) node.old node.new) }
{
    let key = NodeKey::from_text(alloc, name)?;
    match node.insert(key, KdlEntry::new(value)) {
        Ok(_) => Ok(()),
        Err(_) => Err(AllocError),
    }
}

/// Sets a property, looks it up by another key of the same name, and returns a copy of the found value. That is the
/// value that was set.
pub fn set_and_get(
    alloc: Global,
    node: &mut KdlNode,
    name: &str,
    value: KdlValue,
) -> Result<Option<KdlValue>, AllocError>
    ensures sets { OnOk result (IsSet name.now (value_tree value) node.old node.new) }
    ensures found { IfOk result (λ found. option_map value_tree found ≡ Some (value_tree value)) }
{
    set_property(alloc, node, name, value)?;
    let again = NodeKey::from_text(alloc, name)?;
    match node.get(again) {
        Some(found) => Ok(Some(found.clone()?)),
        None => Ok(None),
    }
}

/// Pushes two arguments to a node that has none, and returns a copy of the first argument.
pub fn first_of_two(
    node: &mut KdlNode,
    first: KdlValue,
    second: KdlValue,
) -> Result<Option<KdlValue>, AllocError>
    requires { argument_count node.old ≡ 0 }
    ensures first { IfOk result (λ found. option_map value_tree found ≡ Some (value_tree first)) }
    ensures second { OnOk result (value_at 1 node.new ≡ Some (value_tree second)) }
{
    add_argument(node, first)?;
    add_argument(node, second)?;
    match node.get(NodeKey::Index(0)) {
        Some(found) => Ok(Some(found.clone()?)),
        None => Ok(None),
    }
}

/// Pushes an argument, then removes and returns the first one. The node then has as many arguments as before.
pub fn push_and_shift(node: &mut KdlNode, value: KdlValue) -> Result<Option<KdlEntry>, AllocError>
    ensures count { OnOk result (argument_count node.new ≡ argument_count node.old) }
    // With m for the node in between.
    ensures shifts { IfOk result (λ first. (m : KdlNode) × IsAdded (value_tree value) node.old m
        × IsTakenOutAt 0 m node.new × (value_of first ≡ value_at 0 m)) }
{
    add_argument(node, value)?;
    Ok(node.remove(NodeKey::Index(0)))
}

/// Inserts an argument before the others. The index of each other argument is then one higher.
pub fn put_first(node: &mut KdlNode, value: KdlValue) -> Result<(), AllocError>
    ensures { OnOk result (IsPutIn 0 (value_tree value) node.old node.new) }
{
    match node.insert(NodeKey::Index(0), KdlEntry::new(value)) {
        Ok(_) => Ok(()),
        Err(_) => Err(AllocError),
    }
}

/// Removes and returns the first property of that name. If there was no other one, the name then finds nothing.
pub fn remove_property(
    alloc: Global,
    node: &mut KdlNode,
    name: &str,
) -> Result<Option<KdlEntry>, AllocError>
    ensures first { IfOk result (λ first. first ≡
        entry_there (position (has_name name.now) (entries_of node.old)) node.old) }
    ensures taken { IfOk result (λ _. IsTakenOut name.now node.old node.new) }
{
    let key = NodeKey::from_text(alloc, name)?;
    Ok(node.remove(key))
}

/// Removes and returns the first property of that name. The name is a string, so the call does not allocate.
pub fn remove_named(node: &mut KdlNode, name: String) -> Option<KdlEntry>
    ensures first { result ≡
        entry_there (position (has_name (string_bytes name)) (entries_of node.old)) node.old }
    ensures taken { IsTakenOut (string_bytes name) node.old node.new }
{
    node.remove(NodeKey::from(name))
}

/// Removes and returns an argument. The index of each later argument is then one lower.
pub fn remove_argument(node: &mut KdlNode, index: usize) -> Option<KdlEntry>
    requires { index < argument_count node.old }
    ensures value { value_of result ≡ value_at index node.old }
    ensures taken { IsTakenOutAt index node.old node.new }
{
    node.remove(NodeKey::from(index))
}

/// Pushes a property, and returns whether that succeeds. If so, the name finds the value.
#[tactic(auto, using(crate::proofs::Bytes::text_bytes))]
pub fn push_property(
    alloc: Global,
    node: &mut KdlNode,
    name: &str,
    value: KdlValue,
) -> Result<(), AllocError>
    ensures { OnOk result (IsSet name.now (value_tree value) node.old node.new) }
{
    let key = KdlIdentifier::from_text(alloc, name)?;
    match node.push(KdlEntry::new_prop(key, value)) {
        Ok(()) => Ok(()),
        Err(_) => Err(AllocError),
    }
}
