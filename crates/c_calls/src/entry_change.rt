//! Changes to one entry.

ghost use Rattle.kdl.specs.Words.{entry_format_tree, entry_tree, identifier_tree, value_tree};
ghost use Rattle.c_calls.specs.Internal.Done.{changed_entry};
ghost use Rattle.std.specs.Prelude.{◌≡◌, None, option_map};

use crate::entries::set_spelled;
use kdl::{KdlEntry, KdlEntryFormat, KdlIdentifier, KdlValue};
use std::alloc::Global;
use std::mem;

/// A change to one entry.
#[derive(Drop)]
pub enum EntryChange {
    /// Sets the key, or removes it for `None`.
    SetKey(Option<KdlIdentifier>),
    /// Sets the type, or removes it for `None`.
    SetType(Option<KdlIdentifier>),
    /// Sets the value, and its spelling if the entry has a format.
    SetValue(KdlValue, String),
}

impl EntryChange {
    /// Applies the change.
    pub fn make(self, alloc: Global, entry: &mut KdlEntry)
        ensures { entry_tree entry.new ≡ changed_entry self (entry_tree entry.old) }
    {
        match self {
            EntryChange::SetKey(key) => entry.set_name(key),
            EntryChange::SetType(Some(ty)) => entry.set_ty(ty),
            EntryChange::SetType(None) => drop_type(alloc, entry),
            EntryChange::SetValue(value, spelling) => set_spelled(entry, value, spelling),
        }
    }
}

/// Takes the key out, and leaves an empty one in its place. Returns `None` if there is no key.
fn take_name(alloc: Global, entry: &mut KdlEntry) -> Option<KdlIdentifier>
    ensures name { option_map identifier_tree result ≡ (entry_tree entry.old).name }
    ensures format { (entry_tree entry.new).format ≡ (entry_tree entry.old).format }
    ensures span { (entry_tree entry.new).span ≡ (entry_tree entry.old).span }
{
    match entry.name_mut() {
        Some(name) => Some(mem::replace(name, KdlIdentifier::from(String::new(alloc)))),
        None => None,
    }
}

/// Takes the format out, and leaves an empty one in its place. Returns `None` if there is no format.
fn take_format(alloc: Global, entry: &mut KdlEntry) -> Option<KdlEntryFormat>
    ensures format { option_map entry_format_tree result ≡ (entry_tree entry.old).format }
    ensures span { (entry_tree entry.new).span ≡ (entry_tree entry.old).span }
{
    match entry.format_mut() {
        Some(format) => Some(mem::replace(format, KdlEntryFormat::new(alloc))),
        None => None,
    }
}

/// Takes the value out, and leaves null in its place.
fn take_value(entry: &mut KdlEntry) -> KdlValue
    ensures value { value_tree result ≡ (entry_tree entry.old).value }
    ensures name { (entry_tree entry.new).name ≡ (entry_tree entry.old).name }
    ensures format { (entry_tree entry.new).format ≡ (entry_tree entry.old).format }
    ensures span { (entry_tree entry.new).span ≡ (entry_tree entry.old).span }
{
    mem::replace(entry.value_mut(), KdlValue::Null)
}

/// Removes the type. Nothing else changes.
fn drop_type(alloc: Global, entry: &mut KdlEntry)
    ensures { entry_tree entry.new ≡ record (entry_tree entry.old) { ty = None } }
{
    let value = take_value(entry);
    let mut untyped = match take_name(alloc, entry) {
        Some(name) => KdlEntry::new_prop(name, value),
        None => KdlEntry::new(value),
    };
    if let Some(format) = take_format(alloc, entry) {
        untyped.set_format(format);
    }
    untyped.set_span(entry.span());
    *entry = untyped;
}
