//! Look-ups among the entries of a node, by the name of a property or by the place of an argument. A key finds the last
//! property whose name has its value, or the argument at its place among the arguments.

ghost use Rattle.kdl_parts.specs.EntryLists.{argument_at, found, has_name, held_value, is_argument, last_place, nth_place, property_named, value_of};
ghost use Rattle.kdl_parts.specs.Written.{entries_row, set_value_at, with_argument_value, with_found, with_found_value, HasProperty};
ghost use Rattle.kdl_value.specs.Tree.{value_tree};
ghost use Rattle.kdl_entry.specs.Fields.{entry_value_of};
ghost use Rattle.kdl_entry.specs.contracts.entry.KdlEntry.{the_row as entry_row};
ghost use Rattle.kdl_value.specs.contracts.value.KdlValue.{the_row as value_row};
ghost use Rattle.std.specs.Borrow.{Lends, LendsIf, sem};
ghost use Rattle.std.specs.Prelude.{◌≡◌, ◌<◌, IfOk, IsNone, IsOk, IsSome, OnErr, Some, is_some, length, option_map, slice_get};

use crate::key::NodeKey;
use crate::places::{last_property, nth_argument, place};
use kdl_entry::{KdlEntry, KdlIdentifier, KdlValue};
use std::alloc::AllocError;

/// Returns the entry that the key finds.
pub fn entry(entries: &[KdlEntry], key: NodeKey) -> Option<&KdlEntry>
    ensures { option_map (λ e. e.now) result ≡ found key entries.now }
{
    let at = place(entries, &key);
    drop(key);
    Some(&entries[at?])
}

/// Returns the value of the entry that the key finds.
pub fn value(entries: &[KdlEntry], key: NodeKey) -> Option<&KdlValue>
    ensures { option_map (λ v. value_tree v.now) result ≡ value_of (found key entries.now) }
{
    Some(entry(entries, key)?.value())
}

/// Returns a mutable reference to the entry that the key finds. All else is unchanged.
pub fn entry_mut(entries: &mut Vec<KdlEntry>, key: NodeKey) -> Option<&mut KdlEntry>
    ensures* writes_back { sem 𝓛 (LendsIf entries_row entry_row entries.entry result
        (with_found key entries.old) entries.old) }
    ensures value { option_map (λ e. e.now) result ≡ found key entries.old.items }
{
    let at = place(entries, &key);
    drop(key);
    let at = at?;
    Some(&mut entries[at])
}

/// Returns a mutable reference to the value of the entry that the key finds. All else is unchanged.
pub fn value_mut(entries: &mut Vec<KdlEntry>, key: NodeKey) -> Option<&mut KdlValue>
    ensures* writes_back { sem 𝓛 (LendsIf entries_row value_row entries.entry result
        (with_found_value key entries.old) entries.old) }
    ensures value { option_map (λ v. v.now) result ≡ held_value (found key entries.old.items) }
{
    let at = place(entries, &key);
    drop(key);
    let at = at?;
    Some(value_at_mut(entries, at))
}

/// Returns a mutable reference to the value of the entry at that place. All else is unchanged.
pub fn value_at_mut(entries: &mut Vec<KdlEntry>, at: usize) -> &mut KdlValue
    requires { at < length entries.old.items }
    ensures* writes_back { sem 𝓛 (Lends entries_row value_row entries.entry result
        (set_value_at entries.old at)) }
    ensures value { option_map entry_value_of (slice_get entries.old.items at) ≡ Some result.now }
{
    entries[at].value_mut()
}

/// Returns the value of the argument at that place among the arguments, counted from 0. It has to exist.
pub fn argument(entries: &[KdlEntry], n: usize) -> &KdlValue
    requires { IsSome (nth_place is_argument entries.now n) }
    ensures { value_of (argument_at n entries.now) ≡ Some (value_tree result.now) }
{
    match nth_argument(entries, n) {
        Some(at) => entries[at].value(),
        None => unreachable!(),
    }
}

/// Returns the value of the last property of that name. It has to exist.
pub fn property<'a>(entries: &'a [KdlEntry], name: &str) -> &'a KdlValue
    requires { IsSome (last_place (has_name name.now) entries.now) }
    ensures { value_of (property_named name.now entries.now) ≡ Some (value_tree result.now) }
{
    match last_property(entries, name) {
        Some(last) => entries[last].value(),
        None => unreachable!(),
    }
}

/// Returns whether there is a property of that name. Names are compared by their values, not by their spellings.
pub fn has_property(entries: &[KdlEntry], name: &str) -> bool
    ensures { result ≡ is_some (last_place (has_name name.now) entries.now) }
{
    last_property(entries, name).is_some()
}

/// Returns the place of the last property of that name. If there is none, first appends one with the value null; only
/// this allocates. If an allocation fails, returns an error and leaves the entries unchanged.
pub fn property_or_null(entries: &mut Vec<KdlEntry>, name: &str) -> Result<usize, AllocError>
    ensures found { IfOk result (λ i. HasProperty (last_place (has_name name.now) entries.old.items)
        name.now entries.old i entries.new) }
    ensures bound { IfOk result (λ i. i < length entries.new.items) }
    ensures answers { IsSome (last_place (has_name name.now) entries.old.items) → IsOk result }
    ensures missing { OnErr result (IsNone (last_place (has_name name.now) entries.old.items)) }
    ensures refused { OnErr result (entries.new.items ≡ entries.old.items) }
{
    if let Some(at) = last_property(entries, name) {
        return Ok(at);
    }
    let alloc = *entries.allocator();
    let key = KdlIdentifier::from_text(alloc, name)?;
    let at = entries.len();
    entries.push(KdlEntry::new_prop(key, KdlValue::Null))?;
    Ok(at)
}

/// Returns a mutable reference to the value that `argument` returns. All else is unchanged.
pub fn argument_mut(entries: &mut Vec<KdlEntry>, n: usize) -> &mut KdlValue
    requires { IsSome (nth_place is_argument entries.old.items n) }
    ensures* writes_back { sem 𝓛 (Lends entries_row value_row entries.entry result
        (with_argument_value n entries.old)) }
    ensures value { held_value (argument_at n entries.old.items) ≡ Some result.now }
{
    match nth_argument(entries, n) {
        Some(at) => value_at_mut(entries, at),
        None => unreachable!(),
    }
}
