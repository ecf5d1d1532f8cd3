//! Edited entries and documents. What they print reads back.

ghost use Rattle.kdl.specs.declared.node.KdlNode.{KdlNode};
ghost use Rattle.kdl.specs.ReadsBack.{DocumentReadsBack, ReadsAs};
ghost use Rattle.kdl.specs.Words.{IsAdded, IsDocument, IsSet, IsTakenOut, Nodes, argument_named, document_says, entry_tree, node_named, node_says, print_value, property_value, respelled, said_args, said_entries, said_name, said_node, text_of, truth, value_tree, with_node_named};
ghost use Rattle.kdl_laws.specs.ClientWords.{with_said_arg};
ghost use Rattle.std.specs.Prelude.{[], ◌++◌, ◌∷◌, ◌≡◌, All, IfOk, IfSome, IsSome, OnOk, Some, chars, true};
ghost use Rattle.use_theorems.specs.Edits.{InBlock, InNode, IsEdited, IsFirstSet};

use kdl::{KdlDocument, KdlEntry, KdlIdentifier, KdlNode, KdlValue, NodeKey, ParseFailure};
use kdl_laws::reading_back::{
    named_entries_are_unformed, new_entries_are_unformed, printed_reads_back, printed_reads_once,
};
use kdl_laws::sets::argument_is_set;
use kdl_laws::values::values_are_well_formed;
use std::alloc::{AllocError, Global};

/// Sets the value, and its spelling if the entry has a format.
pub fn respell(entry: &mut KdlEntry, value: KdlValue, spelling: String)
    requires { text_of spelling ≡ print_value (value_tree value) }
    ensures { entry_tree entry.new ≡ respelled (value_tree value) (entry_tree entry.old) }
{
    entry.set_value(value);
    if let Some(format) = entry.format_mut() {
        format.value_repr = spelling;
    }
}

/// Pushes an argument to the first node of a name.
pub fn push_argument(
    document: &mut KdlDocument,
    name: &str,
    value: KdlValue,
) -> Result<(), AllocError>
    requires { DocumentReadsBack document.old }
    ensures reads { DocumentReadsBack document.new }
    ensures says { OnOk result (IsSome (said_node (chars name.now) (document_says document.old))
        → said_args (chars name.now) (document_says document.new) ≡
        said_args (chars name.now) (document_says document.old) ++ (value_tree value ∷ [])) }
{
    values_are_well_formed(&value);
    new_entries_are_unformed();
    let Some(node) = document.get_mut(name) else {
        return Ok(());
    };
    let Ok(_) = node.push(KdlEntry::new(value)) else {
        return Err(AllocError);
    };
    Ok(())
}

/// Removes the first property of a name from the first node of a name.
pub fn remove_property(
    alloc: Global,
    document: &mut KdlDocument,
    name: &str,
    property: &str,
) -> Result<(), AllocError>
    requires { DocumentReadsBack document.old }
    ensures reads { DocumentReadsBack document.new }
    ensures takes { OnOk result (IfSome (node_named name.now document.old) (λ n. (m : KdlNode)
        × (document.new ≡ with_node_named name.now document.old m)
        × IsTakenOut property.now n m)) }
{
    let key = NodeKey::from_text(alloc, property)?;
    let Some(node) = document.get_mut(name) else {
        return Ok(());
    };
    node.remove(key);
    Ok(())
}

/// Pushes a property with a type to a node. The node reads back as before.
pub fn push_typed(
    alloc: Global,
    node: &mut KdlNode,
    name: &str,
    ty: &str,
    value: KdlValue,
) -> Result<(), AllocError>
    ensures reads { ReadsAs node.old node.new }
    ensures says { OnOk result (said_entries (node_says node.new) ≡
        said_entries (node_says node.old) ++ (record {
          key = Some (chars name.now);
          ty = Some (chars ty.now);
          value = value_tree value;
        } ∷ [])) }
{
    values_are_well_formed(&value);
    new_entries_are_unformed();
    named_entries_are_unformed();
    let mut entry = KdlEntry::new(value);
    entry.set_name(Some(KdlIdentifier::from_text(alloc, name)?));
    entry.set_ty(KdlIdentifier::from_text(alloc, ty)?);
    let Ok(()) = node.push(entry) else {
        return Err(AllocError);
    };
    Ok(())
}

/// Returns the text of a document that reads back. The text is a document with the same data, and with no others.
pub fn printed(alloc: Global, document: &KdlDocument) -> Result<String, AllocError>
    requires { DocumentReadsBack document.now }
    ensures document { IfOk result (λ out.
        IsDocument (text_of out) (document_says document.now)) }
    ensures only { IfOk result (λ out. (y : Nodes)
        → IsDocument (text_of out) y → y ≡ document_says document.now) }
{
    printed_reads_back();
    printed_reads_once();
    Ok(document.to_string(alloc)?)
}

/// Pushes an argument to the first node of a name in a text, and returns the new text, which is a document. Its data have
/// that argument after the others.
pub fn push_in_text(
    alloc: Global,
    text: &str,
    name: &str,
    value: KdlValue,
) -> Result<String, ParseFailure>
    ensures document { IfOk result (λ out. (y : Nodes) × IsDocument (text_of out) y) }
    ensures says { IfOk result (λ out. (x y : Nodes)
        → IsDocument (chars text.now) x → IsDocument (text_of out) y
        → IsSome (said_node (chars name.now) x)
        → said_args (chars name.now) y ≡ said_args (chars name.now) x ++ (value_tree value ∷ [])) }
{
    let mut document = KdlDocument::parse(alloc, text)?;
    push_argument(&mut document, name, value)?;
    Ok(printed(alloc, &document)?)
}

/// Adds an argument at the end of a node. If the node read back before, it still does.
pub fn add_argument(node: &mut KdlNode, value: KdlValue) -> Result<(), AllocError>
    ensures adds { OnOk result (IsAdded (value_tree value) node.old node.new) }
    ensures name { said_name (node_says node.new) ≡ said_name (node_says node.old) }
    ensures reads { ReadsAs node.old node.new }
{
    values_are_well_formed(&value);
    new_entries_are_unformed();
    match node.push(KdlEntry::new(value)) {
        Ok(()) => Ok(()),
        Err(_) => Err(AllocError),
    }
}

/// Sets a property of a node, with a new entry. If the node read back before, it still does.
pub fn insert_property(
    alloc: Global,
    node: &mut KdlNode,
    name: &str,
    value: KdlValue,
) -> Result<(), AllocError>
    ensures sets { OnOk result (IsSet name.now (value_tree value) node.old node.new) }
    ensures name { said_name (node_says node.new) ≡ said_name (node_says node.old) }
    ensures reads { ReadsAs node.old node.new }
{
    values_are_well_formed(&value);
    new_entries_are_unformed();
    let key = NodeKey::from_text(alloc, name)?;
    match node.insert(key, KdlEntry::new(value)) {
        Ok(_) => Ok(()),
        Err(_) => Err(AllocError),
    }
}

/// Sets a property of the first node of a name. The document still reads back.
pub fn set_property(
    alloc: Global,
    document: &mut KdlDocument,
    name: &str,
    property: &str,
    value: KdlValue,
) -> Result<(), AllocError>
    requires { DocumentReadsBack document.old }
    ensures sets { OnOk result (InNode name.now
        (IsSet property.now (value_tree value)) document.old document.new) }
    ensures reads { DocumentReadsBack document.new }
{
    let Some(node) = document.get_mut(name) else {
        return Ok(());
    };
    insert_property(alloc, node, property, value)
}

/// Replaces the first argument of a node by a new entry. If the node read back before, it still does.
pub fn replace_first(node: &mut KdlNode, value: KdlValue)
    ensures sets { IsFirstSet (value_tree value) node.old node.new }
    ensures reads { ReadsAs node.old node.new }
{
    values_are_well_formed(&value);
    new_entries_are_unformed();
    let Some(entry) = node.entry_mut(NodeKey::Index(0)) else {
        return;
    };
    *entry = KdlEntry::new(value);
}

/// Makes three edits of a node: removes a property, pushes an argument and replaces the first argument.
pub fn edit(
    alloc: Global,
    node: &mut KdlNode,
    property: &str,
    one: KdlValue,
    other: KdlValue,
) -> Result<(), AllocError>
    ensures edits { OnOk result (IsEdited property.now
        (value_tree one) (value_tree other) node.old node.new) }
    ensures reads { ReadsAs node.old node.new }
{
    node.remove(NodeKey::from_text(alloc, property)?);
    add_argument(node, one)?;
    replace_first(node, other);
    Ok(())
}

/// Makes the same edits of the first child of a name.
pub fn edit_child(
    alloc: Global,
    node: &mut KdlNode,
    name: &str,
    property: &str,
    one: KdlValue,
    other: KdlValue,
) -> Result<(), AllocError>
    ensures edits { OnOk result (InBlock (InNode name.now (IsEdited property.now
        (value_tree one) (value_tree other))) node.old node.new) }
    ensures reads { ReadsAs node.old node.new }
{
    let Some(block) = node.children_mut() else {
        return Ok(());
    };
    let Some(child) = block.get_mut(name) else {
        return Ok(());
    };
    edit(alloc, child, property, one, other)
}

/// Makes the same edits of the first child of a name, in the block of the first node of a name.
pub fn edit_in_block(
    alloc: Global,
    document: &mut KdlDocument,
    outer: &str,
    inner: &str,
    property: &str,
    one: KdlValue,
    other: KdlValue,
) -> Result<(), AllocError>
    requires { DocumentReadsBack document.old }
    ensures edits { OnOk result (InNode outer.now (InBlock (InNode inner.now
        (IsEdited property.now (value_tree one) (value_tree other))))
        document.old document.new) }
    ensures reads { DocumentReadsBack document.new }
{
    let Some(node) = document.get_mut(outer) else {
        return Ok(());
    };
    edit_child(alloc, node, inner, property, one, other)
}

/// Sets the first argument of the first node of a name to a value with its spelling. Nothing else in the document's
/// data changes.
pub fn set_argument(document: &mut KdlDocument, name: &str, value: KdlValue, spelling: String)
    requires reads { DocumentReadsBack document.old }
    requires spells { text_of spelling ≡ print_value (value_tree value) }
    ensures reads { DocumentReadsBack document.new }
    ensures says { IsSome (argument_named name.now document.old) → document_says document.new ≡
        with_said_arg (chars name.now) (value_tree value) (document_says document.old) }
{
    values_are_well_formed(&value);
    argument_is_set();
    let Some(node) = document.get_mut(name) else {
        return;
    };
    let Some(entry) = node.entry_mut(NodeKey::Index(0)) else {
        return;
    };
    respell(entry, value, spelling);
}

/// Sets each property of these names in a node to true. If the node read back before, it still does.
pub fn insert_each(alloc: Global, node: &mut KdlNode, names: &[&str]) -> Result<(), AllocError>
    ensures sets { OnOk result
        (All (λ name. property_value name.now node.new ≡ Some (truth true)) names.now) }
    ensures reads { ReadsAs node.old node.new }
{
    for name in names {
        insert_property(alloc, node, *name, KdlValue::from(true))?;
    }
    Ok(())
}

/// Sets each property of these names in the first node of a name to true. The document still reads back.
pub fn set_each(
    alloc: Global,
    document: &mut KdlDocument,
    node: &str,
    names: &[&str],
) -> Result<(), AllocError>
    requires { DocumentReadsBack document.old }
    ensures sets { OnOk result (InNode node.now (λ _ m.
        All (λ name. property_value name.now m ≡ Some (truth true)) names.now)
        document.old document.new) }
    ensures reads { DocumentReadsBack document.new }
{
    let Some(found) = document.get_mut(node) else {
        return Ok(());
    };
    insert_each(alloc, found, names)
}
