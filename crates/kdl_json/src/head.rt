//! Reading a node up to its children: its name, its type and its entries.

ghost use Rattle.json.specs.Token.{Token as Spec, begin_object, end_array, string};
ghost use Rattle.kdl.specs.Words.{EntryData, IsWellFormed, NodeKeepsNoForm, Text, Value, entry_data, entry_tree, identifier_tree, node_says, value_tree};
ghost use Rattle.kdl_layout.specs.WellFormed.{AreWellFormedEntries, IsWellFormedEntry};
ghost use Rattle.kdl_grammar.specs.Data.{no_children, node};
ghost use Rattle.kdl_json.specs.Form.{entries_tokens, entry_tokens, head_tokens, member_tokens, name_tokens, value_tokens};
ghost use Rattle.kdl_json.specs.Heads.{HasTaken, IsHead, IsNamed, with_more};
ghost use Rattle.kdl_json.specs.Reading.{EntryKeepsNoForm, Gives, left};
ghost use Rattle.kdl_json.specs.Keys.{NotKey};
ghost use Rattle.std.specs.Prelude.{◌≡◌, [], ◌∷◌, IfOk, List, codes, Option, option_map};
ghost use Rattle.std.specs.Str.{encode_utf8_all};

use crate::build::{bare, built, float_value, identifier_of, number_value, pushed, text_value};
use crate::failure::{Expected, JsonFailure};
use crate::source::Source;
use json::Token;
use kdl::{KdlEntry, KdlIdentifier, KdlNode, KdlValue};
use std::alloc::Global;

/// Reads the string after a key.
fn identifier(alloc: Global, source: &mut Source<'_>) -> Result<KdlIdentifier, JsonFailure>
    ensures sound { IfOk result (λ i. left source.old
        ≡ string (encode_utf8_all (identifier_tree i).value) ∷ left source.new) }
    ensures reads { (s : Text) (rest : List Spec) → left source.old ≡ string (encode_utf8_all s) ∷ rest
        → Gives (λ i. (identifier_tree i).value) result (left source.new) s rest }
{
    let text = source.string(Expected::Text)?;
    identifier_of(alloc, text)
}

/// Reads the key and the string after it, if the key is next.
fn member(
    alloc: Global,
    source: &mut Source<'_>,
    key: &str,
) -> Result<Option<KdlIdentifier>, JsonFailure>
    ensures sound { IfOk result (λ o. left source.old
        ≡ member_tokens key.now (option_map (λ i. (identifier_tree i).value) o) (left source.new)) }
    ensures reads { (o : Option Text) (rest : List Spec) → NotKey key.now rest
        → left source.old ≡ member_tokens key.now o rest
        → Gives (option_map (λ i. (identifier_tree i).value)) result (left source.new) o rest }
{
    if !source.take_key(key) {
        return Ok(None);
    }
    Ok(Some(identifier(alloc, source)?))
}

/// Reads what follows the `{` of a float.
fn float(alloc: Global, source: &mut Source<'_>) -> Result<KdlValue, JsonFailure>
    ensures sound { IfOk result (λ v. begin_object ∷ left source.old
        ≡ value_tokens (value_tree v) (left source.new)) }
    ensures reads { (x : Value) (rest : List Spec) → IsWellFormed x
        → begin_object ∷ left source.old ≡ value_tokens x rest
        → Gives value_tree result (left source.new) x rest }
{
    if !source.take_key("float") {
        return Err(source.unexpected(Expected::Value));
    }
    let at = source.at();
    let text = source.string(Expected::Float)?;
    let value = float_value(alloc, text, at)?;
    source.end_object(Expected::End)?;
    Ok(value)
}

/// Reads a value.
fn value(alloc: Global, source: &mut Source<'_>) -> Result<KdlValue, JsonFailure>
    ensures sound { IfOk result (λ v. left source.old
        ≡ value_tokens (value_tree v) (left source.new)) }
    ensures reads { (x : Value) (rest : List Spec) → IsWellFormed x
        → left source.old ≡ value_tokens x rest
        → Gives value_tree result (left source.new) x rest }
{
    let at = source.at();
    match source.take() {
        Some(Token::String(text)) => text_value(alloc, text),
        Some(Token::Number(text)) => number_value(alloc, text, at),
        Some(Token::Bool(b)) => Ok(KdlValue::Bool(b)),
        Some(Token::Null) => Ok(KdlValue::Null),
        Some(Token::BeginObject) => float(alloc, source),
        _ => Err(JsonFailure::Unexpected {
            at,
            expected: Expected::Value,
        }),
    }
}

/// Reads an entry.
fn entry(alloc: Global, source: &mut Source<'_>) -> Result<KdlEntry, JsonFailure>
    ensures sound { IfOk result (λ e. left source.old
        ≡ entry_tokens (entry_data (entry_tree e)) (left source.new)) }
    ensures reads { (x : EntryData) (rest : List Spec) → IsWellFormedEntry x
        → left source.old ≡ entry_tokens x rest
        → Gives (λ e. entry_data (entry_tree e)) result (left source.new) x rest }
    ensures plain { IfOk result EntryKeepsNoForm }
{
    source.begin_object(Expected::Entry)?;
    let name = member(alloc, source, "name")?;
    let ty = member(alloc, source, "type")?;
    if !source.take_key("value") {
        return Err(source.unexpected(Expected::ValueKey));
    }
    let value = value(alloc, source)?;
    source.end_object(Expected::End)?;
    Ok(built(name, ty, value))
}

/// Reads the name and the type of a node, after its `{`.
fn named(alloc: Global, source: &mut Source<'_>) -> Result<KdlNode, JsonFailure>
    ensures sound { IfOk result (λ n. IsNamed (node_says n) (left source.old) (left source.new)) }
    ensures reads { (ty : Option Text) (name : Text) (rest : List Spec) → NotKey (codes "type") rest
        → left source.old ≡ name_tokens ty name rest
        → Gives node_says result (left source.new) (node ty name [] no_children) rest }
    ensures plain { IfOk result NodeKeepsNoForm }
{
    if !source.take_key("name") {
        return Err(source.unexpected(Expected::NodeName));
    }
    let name = identifier(alloc, source)?;
    let ty = member(alloc, source, "type")?;
    bare(name, ty)
}

/// Reads entries up to the `]` after them, and pushes them to the node.
fn entries(
    alloc: Global,
    source: &mut Source<'_>,
    mut node: KdlNode,
) -> Result<KdlNode, JsonFailure>
    ensures sound { IfOk result (λ n. HasTaken (node_says node) (node_says n) (left source.old)
        (end_array ∷ left source.new)) }
    ensures reads { (es : List EntryData) (rest : List Spec) → AreWellFormedEntries es
        → left source.old ≡ entries_tokens es (end_array ∷ rest)
        → Gives node_says result (left source.new) (with_more (node_says node) es) rest }
    ensures plain { NodeKeepsNoForm node → IfOk result NodeKeepsNoForm }
{
    'tokens: while !source.take_end_array() {
        let entry = entry(alloc, source)?;
        node = pushed(node, entry)?;
    }
    Ok(node)
}

/// Reads a node up to its entries: its name, its type, its entries.
pub fn head(alloc: Global, source: &mut Source<'_>) -> Result<KdlNode, JsonFailure>
    ensures sound { IfOk result (λ n. IsHead (node_says n) (left source.old) (left source.new)) }
    ensures reads { (ty : Option Text) (name : Text) (es : List EntryData) (rest : List Spec)
        → AreWellFormedEntries es
        → left source.old ≡ head_tokens ty name es rest
        → Gives node_says result (left source.new) (node ty name es no_children) rest }
    ensures plain { IfOk result NodeKeepsNoForm }
{
    source.begin_object(Expected::Node)?;
    let node = named(alloc, source)?;
    if !source.take_key("entries") {
        return Err(source.unexpected(Expected::Entries));
    }
    source.begin_array(Expected::EntryList)?;
    entries(alloc, source, node)
}
