//! What look-ups find after a value is written through a loan.

ghost use Rattle.kdl.specs.Words.{IsArgumentSet, IsSet, IsSetIn, property_value, value_at, value_named, value_tree};
ghost use Rattle.std.specs.Prelude.{◌≡◌, IfOk, IfSome, OnSome, is_some, true};

use kdl::{KdlDocument, KdlNode, KdlValue, NodeKey};
use std::alloc::{AllocError, Global};

/// Writes the value of a property, or pushes the property if there is none of that name.
pub fn put_property(node: &mut KdlNode, name: &str, value: KdlValue) -> Result<(), AllocError>
    ensures { IfOk result (λ _. IsSet name.now (value_tree value) node.old node.new) }
{
    *node.get_or_null_mut(name)? = value;
    Ok(())
}

/// Writes the value of a property, and returns whether the property is there.
pub fn write_property(
    alloc: Global,
    node: &mut KdlNode,
    name: &str,
    value: KdlValue,
) -> Result<bool, AllocError>
    ensures there { IfOk result (λ there.
        there ≡ is_some (property_value name.now node.old)) }
    ensures sets { IfOk result (λ there.
        there ≡ true → IsSet name.now (value_tree value) node.old node.new) }
{
    let key = NodeKey::from_text(alloc, name)?;
    let Some(place) = node.get_mut(key) else {
        return Ok(false);
    };
    *place = value;
    Ok(true)
}

/// Writes the value of an argument, and returns whether the argument is there.
pub fn write_argument(node: &mut KdlNode, index: usize, value: KdlValue) -> bool
    ensures there { result ≡ is_some (value_at index node.old) }
    ensures sets { result ≡ true → IsArgumentSet index (value_tree value) node.old node.new }
{
    let Some(place) = node.get_mut(NodeKey::Index(index)) else {
        return false;
    };
    *place = value;
    true
}

/// Writes the value of a property through the loan of its entry, and returns whether the property is there.
pub fn write_entry(
    alloc: Global,
    node: &mut KdlNode,
    name: &str,
    value: KdlValue,
) -> Result<bool, AllocError>
    ensures there { IfOk result (λ there.
        there ≡ is_some (property_value name.now node.old)) }
    ensures sets { IfOk result (λ there.
        there ≡ true → IsSet name.now (value_tree value) node.old node.new) }
{
    let key = NodeKey::from_text(alloc, name)?;
    let Some(entry) = node.entry_mut(key) else {
        return Ok(false);
    };
    entry.set_value(value);
    Ok(true)
}

/// Writes the value of the first argument of the first node of that name, and returns whether the argument is there.
pub fn write_setting(document: &mut KdlDocument, name: &str, value: KdlValue) -> bool
    ensures there { result ≡ is_some (value_named name.now document.old) }
    ensures sets { result ≡ true → IsSetIn name.now (value_tree value) document.old document.new }
{
    let Some(place) = document.get_arg_mut(name) else {
        return false;
    };
    *place = value;
    true
}

/// Writes a setting, looks it up and returns a copy of it, or `None` if the setting is not there.
pub fn write_and_get(
    document: &mut KdlDocument,
    name: &str,
    value: KdlValue,
) -> Result<Option<KdlValue>, AllocError>
    ensures there { IfOk result (λ found.
        is_some found ≡ is_some (value_named name.now document.old)) }
    ensures found { IfOk result (λ found. IfSome found (λ v. value_tree v ≡ value_tree value)) }
    ensures sets { IfOk result (λ found. OnSome found
        (IsSetIn name.now (value_tree value) document.old document.new)) }
{
    if !write_setting(document, name, value) {
        return Ok(None);
    }
    match document.get_arg(name) {
        Some(found) => Ok(Some(found.clone()?)),
        None => Ok(None),
    }
}
