//! Nodes, entries, values and names in the texts that C gives.
//!
//! Each function returns an error if the text is not UTF-8, or if an allocation fails. Those that parse return
//! `Unread::Faults` if the text is refused.

ghost use Rattle.kdl.specs.Words.{EntryData, IsEntryText, IsNodeText, LaidEntryText, LaidNodeText, NodeData, Value, entry_data, entry_tree, identifier_tree, node_tree, plain_identifier, value_tree};
ghost use Rattle.c_calls.specs.Entries.{IsValueText};
ghost use Rattle.c_calls.specs.Internal.Values.{is_value};
ghost use Rattle.c_calls.specs.Edits.{text_if};
ghost use Rattle.c_calls.specs.Internal.Given.{IsCleared, IsPlain, IsSpelled};
ghost use Rattle.kdl_value.specs.Tree.{text_of};
ghost use Rattle.c_calls.specs.declared.status.Unread.TheVariants.{Faults, NotUtf8};
ghost use Rattle.std.specs.Prelude.{◌≡◌, IfErr, IfOk, IfSome, false, option_map};
ghost use Rattle.std.specs.Str.{IsUtf8, chars};

use crate::status::Unread;
use crate::value::is_value;
use kdl::{KdlEntry, KdlIdentifier, KdlNode, KdlValue, ParseFailure};
use std::alloc::{AllocError, Global};

/// Parses a text as a node.
pub fn node(alloc: Global, text: &[u8]) -> Result<KdlNode, Unread>
    ensures laid { IfOk result (λ n. LaidNodeText (chars text.now) (node_tree n)) }
    ensures refused { IfErr result (λ r. r ≡ Faults → (x : NodeData)
        → IsNodeText (chars text.now) x → ⊥) }
    ensures utf8 { IfErr result (λ r. r ≡ NotUtf8 → IsUtf8 text.now → ⊥) }
{
    let Ok(text) = std::str::from_utf8(text) else {
        return Err(Unread::NotUtf8);
    };
    match KdlNode::parse(alloc, text) {
        Ok(node) => Ok(node),
        Err(ParseFailure::Syntax(_)) => Err(Unread::Faults),
        Err(ParseFailure::Memory) => Err(Unread::Memory),
    }
}

/// Parses a text as an entry.
fn entry(alloc: Global, text: &[u8]) -> Result<KdlEntry, Unread>
    ensures laid { IfOk result (λ e. LaidEntryText (chars text.now) (entry_tree e)) }
    ensures only { IfOk result (λ e. (x : EntryData) → IsEntryText (chars text.now) x
        → x ≡ entry_data (entry_tree e)) }
    ensures refused { IfErr result (λ r. r ≡ Faults → (x : EntryData)
        → IsEntryText (chars text.now) x → ⊥) }
    ensures utf8 { IfErr result (λ r. r ≡ NotUtf8 → IsUtf8 text.now → ⊥) }
{
    let Ok(text) = std::str::from_utf8(text) else {
        return Err(Unread::NotUtf8);
    };
    match KdlEntry::parse(alloc, text) {
        Ok(entry) => Ok(entry),
        Err(ParseFailure::Syntax(_)) => Err(Unread::Faults),
        Err(ParseFailure::Memory) => Err(Unread::Memory),
    }
}

/// Parses a text as an entry, and removes its format and spellings. A node prints such an entry after one space.
pub fn plain_entry(alloc: Global, text: &[u8]) -> Result<KdlEntry, Unread>
    ensures cleared { IfOk result (λ e. IsCleared (chars text.now) (entry_tree e)) }
    ensures refused { IfErr result (λ r. r ≡ Faults → (x : EntryData)
        → IsEntryText (chars text.now) x → ⊥) }
    ensures utf8 { IfErr result (λ r. r ≡ NotUtf8 → IsUtf8 text.now → ⊥) }
{
    let mut entry = entry(alloc, text)?;
    entry.clear_format();
    Ok(entry)
}

/// Parses a text as a value: an entry with neither a key nor a type, and with no space, comment or slashdashed entry
/// around it. Returns the value and its spelling, which is the text.
///
/// Returns `Unread::Faults` if the entry is more than a value.
pub fn value(alloc: Global, text: &[u8]) -> Result<(KdlValue, String), Unread>
    ensures spelled { IfOk result (λ v. IsSpelled (chars text.now) v.0 v.1) }
    ensures refused { IfErr result (λ r. r ≡ Faults → (v : Value)
        → IsValueText (chars text.now) v → ⊥) }
    ensures utf8 { IfErr result (λ r. r ≡ NotUtf8 → IsUtf8 text.now → ⊥) }
{
    let entry = entry(alloc, text)?;
    let value = plain(alloc, &entry);
    drop(entry);
    value
}

/// Returns the value of the entry and its spelling, or `Unread::Faults` if the entry is more than a value.
fn plain(alloc: Global, entry: &KdlEntry) -> Result<(KdlValue, String), Unread>
    ensures plain { IfOk result (λ v. IsPlain (entry_tree entry.now) v.0 v.1) }
    ensures refused { IfErr result (λ r. r ≡ Faults → is_value (entry_tree entry.now) ≡ false) }
    ensures utf8 { IfErr result (λ r. r ≡ NotUtf8 → ⊥) }
{
    if !is_value(entry) {
        return Err(Unread::Faults);
    }
    match spelled(alloc, entry) {
        Ok(value) => Ok(value),
        Err(_) => Err(Unread::Memory),
    }
}

/// Returns copies of the value of the entry and of its spelling.
fn spelled(alloc: Global, entry: &KdlEntry) -> Result<(KdlValue, String), AllocError>
    ensures value { IfOk result (λ v. value_tree v.0 ≡ (entry_tree entry.now).value) }
    ensures spelling { IfOk result (λ v. IfSome (entry_tree entry.now).format (λ f.
        text_of v.1 ≡ f.value_repr)) }
{
    let spelling = match entry.format() {
        Some(format) => format.value_repr.clone()?,
        None => entry.value().to_string(alloc)?,
    };
    Ok((entry.value().clone()?, spelling))
}

/// Creates an identifier whose value is the text. The text is not parsed.
pub fn identifier(alloc: Global, text: &[u8]) -> Result<KdlIdentifier, Unread>
    ensures plain { IfOk result (λ i. identifier_tree i ≡ plain_identifier (chars text.now)) }
    ensures utf8 { IfErr result (λ r. r ≡ NotUtf8 → IsUtf8 text.now → ⊥) }
    ensures parses_nothing { IfErr result (λ r. r ≡ Faults → ⊥) }
{
    let Ok(text) = std::str::from_utf8(text) else {
        return Err(Unread::NotUtf8);
    };
    match KdlIdentifier::from_text(alloc, text) {
        Ok(identifier) => Ok(identifier),
        Err(_) => Err(Unread::Memory),
    }
}

/// Creates an identifier as `identifier` does, or returns `None` without reading the text if the flag is 0.
pub fn identifier_if(alloc: Global, has: u32, text: &[u8]) -> Result<Option<KdlIdentifier>, Unread>
    ensures plain { IfOk result (λ o. option_map identifier_tree o
        ≡ option_map plain_identifier (text_if has (chars text.now))) }
    ensures utf8 { IfErr result (λ r. r ≡ NotUtf8 → IsUtf8 text.now → ⊥) }
    ensures parses_nothing { IfErr result (λ r. r ≡ Faults → ⊥) }
{
    if has == 0 {
        return Ok(None);
    }
    Ok(Some(identifier(alloc, text)?))
}
