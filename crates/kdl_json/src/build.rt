//! Identifiers, values, entries, nodes and documents of given data.

ghost use Rattle.kdl.specs.Said.{said_nodes};
ghost use Rattle.kdl.specs.Words.{DocumentKeepsNoForm, IsWellFormed, NodeKeepsNoForm, Value, document_says, entry_data, entry_tree, identifier_tree, node_says, none, value_tree};
ghost use Rattle.kdl_grammar.specs.Data.{no_children, node};
ghost use Rattle.kdl_json.specs.Heads.{with_block, with_more};
ghost use Rattle.kdl_json.specs.Reading.{EntryKeepsNoForm};
ghost use Rattle.kdl_json.specs.Values.{IsFloatOf, IsNumberOf, IsTextOf};
ghost use Rattle.kdl_json.specs.declared.failure.JsonFailure.TheVariants.{Memory, Unexpected};
ghost use Rattle.std.specs.Prelude.{◌≡◌, ◌⊎◌, [], ◌∷◌, ◌++◌, IfErr, IfOk, MatchResult, option_map};
ghost use Rattle.std.specs.Str.{encode_utf8_all};

use crate::failure::{Expected, JsonFailure};
use crate::number::{number, other_float};
use kdl::{KdlDocument, KdlEntry, KdlIdentifier, KdlNode, KdlValue};
use std::alloc::Global;

/// Creates the identifier of a text.
pub fn identifier_of(alloc: Global, text: &str) -> Result<KdlIdentifier, JsonFailure>
    ensures { MatchResult result (λ i. encode_utf8_all (identifier_tree i).value ≡ text.now)
        (λ e. e ≡ Memory) }
{
    Ok(KdlIdentifier::from_text(alloc, text)?)
}

/// Creates the value of a text.
pub fn text_value(alloc: Global, text: &str) -> Result<KdlValue, JsonFailure>
    ensures { MatchResult result (λ v. IsTextOf text.now (value_tree v)) (λ e. e ≡ Memory) }
{
    Ok(KdlValue::from_text(alloc, text)?)
}

/// Creates the value that is written as this number of JSON, which is at that place.
pub fn number_value(alloc: Global, text: &str, at: usize) -> Result<KdlValue, JsonFailure>
    ensures written { IfOk result (λ v. IsNumberOf text.now (value_tree v)) }
    ensures found { (x : Value) → IsWellFormed x → IsNumberOf text.now x
        → MatchResult result (λ v. value_tree v ≡ x) (λ e. e ≡ Memory) }
    ensures refused { IfErr result (λ e. (e ≡ Memory) ⊎ (e ≡ Unexpected at Expected.Number)) }
{
    match number(alloc, text)? {
        Some(value) => Ok(value),
        None => Err(JsonFailure::Unexpected {
            at,
            expected: Expected::Number,
        }),
    }
}

/// Creates the float that is written as this string in an object, which is at that place.
pub fn float_value(alloc: Global, text: &str, at: usize) -> Result<KdlValue, JsonFailure>
    ensures written { IfOk result (λ v. IsFloatOf text.now (value_tree v)) }
    ensures found { (x : Value) → IsWellFormed x → IsFloatOf text.now x
        → MatchResult result (λ v. value_tree v ≡ x) (λ e. e ≡ Memory) }
    ensures refused { IfErr result (λ e. (e ≡ Memory) ⊎ (e ≡ Unexpected at Expected.Float)) }
{
    match other_float(alloc, text)? {
        Some(value) => Ok(value),
        None => Err(JsonFailure::Unexpected {
            at,
            expected: Expected::Float,
        }),
    }
}

/// Creates an entry.
pub fn built(name: Option<KdlIdentifier>, ty: Option<KdlIdentifier>, value: KdlValue) -> KdlEntry
    ensures plain { EntryKeepsNoForm result }
    ensures data { entry_data (entry_tree result)
        ≡ record { key = option_map (λ i. (identifier_tree i).value) name; ty = option_map (λ i. (identifier_tree i).value) ty; value = value_tree value } }
{
    let mut entry = KdlEntry::new(value);
    entry.set_name(name);
    if let Some(ty) = ty {
        entry.set_ty(ty);
    }
    entry
}

/// Creates a node without entries and children.
pub fn bare(name: KdlIdentifier, ty: Option<KdlIdentifier>) -> Result<KdlNode, JsonFailure>
    ensures plain { IfOk result NodeKeepsNoForm }
    ensures data { MatchResult result (λ n. node_says n
        ≡ node (option_map (λ i. (identifier_tree i).value) ty) (identifier_tree name).value [] no_children)
        (λ e. e ≡ Memory) }
{
    let mut node = KdlNode::new(name)?;
    if let Some(ty) = ty {
        node.set_ty(ty);
    }
    Ok(node)
}

/// Appends the entry to the node.
pub fn pushed(mut node: KdlNode, entry: KdlEntry) -> Result<KdlNode, JsonFailure>
    ensures plain { NodeKeepsNoForm node → EntryKeepsNoForm entry → IfOk result NodeKeepsNoForm }
    ensures data { MatchResult result (λ m. node_says m
        ≡ with_more (node_says node) (entry_data (entry_tree entry) ∷ [])) (λ e. e ≡ Memory) }
{
    match node.push(entry) {
        Ok(()) => Ok(node),
        Err((_, error)) => Err(JsonFailure::from(error)),
    }
}

/// Creates a document without nodes.
pub fn empty(alloc: Global) -> KdlDocument
    ensures plain { DocumentKeepsNoForm result }
    ensures data { document_says result ≡ none }
{
    KdlDocument::new(alloc)
}

/// Gives the node a block.
pub fn enclosed(mut node: KdlNode, block: KdlDocument) -> KdlNode
    ensures plain { NodeKeepsNoForm node → DocumentKeepsNoForm block → NodeKeepsNoForm result }
    ensures data { node_says result ≡ with_block (node_says node) (document_says block) }
{
    node.set_children(block);
    node
}

/// Appends the node to the nodes.
pub fn appended(mut nodes: KdlDocument, node: KdlNode) -> Result<KdlDocument, JsonFailure>
    ensures plain { DocumentKeepsNoForm nodes → NodeKeepsNoForm node → IfOk result DocumentKeepsNoForm }
    ensures data { MatchResult result (λ d. said_nodes (document_says d)
        ≡ said_nodes (document_says nodes) ++ node_says node ∷ []) (λ e. e ≡ Memory) }
{
    match nodes.push_node(node) {
        Ok(()) => Ok(nodes),
        Err((_, error)) => Err(JsonFailure::from(error)),
    }
}
