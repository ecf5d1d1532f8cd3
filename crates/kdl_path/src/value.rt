//! Values that are read alone, with their spelling.

ghost use Rattle.kdl.specs.Words.{EntryData, IsEntryText, LaidEntryText, Value, entry_tree, value_tree};
ghost use Rattle.c_calls.specs.Entries.{IsValueText};
ghost use Rattle.kdl_path.specs.Internal.Failing.{NoValueIf};
ghost use Rattle.kdl_value.specs.Tree.{text_of};
ghost use Rattle.std.specs.Prelude.{◌≡◌, IfErr, IfOk};
ghost use Rattle.std.specs.Str.{chars};

use crate::failure::EditFailure;
use c_calls::value::is_value;
use kdl::{KdlEntry, KdlValue, ParseFailure};
use std::alloc::{AllocError, Global};

/// A value, and how it is written.
#[derive(Drop)]
pub(crate) struct Spelled {
    pub(crate) value: KdlValue,
    pub(crate) spelling: String,
}

impl Clone for Spelled {
    ghost is_clone = { λ v w. (value_tree w.value ≡ value_tree v.value)
        × (text_of w.spelling ≡ text_of v.spelling) };

    fn clone(&self) -> Result<Spelled, AllocError> {
        Ok(Spelled {
            value: self.value.clone()?,
            spelling: self.spelling.clone()?,
        })
    }
}

/// Reads a text as an entry.
fn read_entry(alloc: Global, text: &str) -> Result<KdlEntry, EditFailure>
    ensures laid { IfOk result (λ e. LaidEntryText (chars text.now) (entry_tree e)) }
    ensures refused { IfErr result (λ e.
        NoValueIf ((x : EntryData) → IsEntryText (chars text.now) x → ⊥) e) }
{
    match KdlEntry::parse(alloc, text) {
        Ok(entry) => Ok(entry),
        Err(ParseFailure::Syntax(_)) => Err(EditFailure::Value),
        Err(ParseFailure::Memory) => Err(EditFailure::Memory),
    }
}

/// Reads a text as one value without a type.
pub(crate) fn read_value(alloc: Global, text: &str) -> Result<Spelled, EditFailure>
    ensures reads { IfOk result (λ s. IsValueText (chars text.now) (value_tree s.value)) }
    ensures spelling { IfOk result (λ s. text_of s.spelling ≡ chars text.now) }
    ensures refused { IfErr result (λ e.
        NoValueIf ((v : Value) → IsValueText (chars text.now) v → ⊥) e) }
{
    let entry = read_entry(alloc, text)?;
    if !is_value(&entry) {
        return Err(EditFailure::Value);
    }
    Ok(Spelled {
        value: entry.value().clone()?,
        spelling: String::from_str(alloc, text)?,
    })
}
