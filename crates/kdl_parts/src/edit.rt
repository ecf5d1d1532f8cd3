//! Edits of the entries of a node. The calls of `KdlNode` that make them have examples.

ghost use Rattle.kdl_parts.specs.Edits.{IsInserted, removed, replaced, replaced_place, taken_out, under};
ghost use Rattle.kdl_parts.specs.EntryLists.{property, sought};
ghost use Rattle.kdl_entry.specs.Tree.{cleared, entry_tree, identifier_tree};
ghost use Rattle.std.specs.Prelude.{◌≡◌, ◌<◌, ◌+◌, [], ◌∷◌, ◌++◌, if◌then◌else◌, IfErr, IfOk, IsSome, IsOk, OnErr, OnOk, None, Some, drop, is_ok, map};

use crate::key::NodeKey;
use crate::places::{place, place_to_remove};
use kdl_entry::{KdlEntry, KdlIdentifier};
use std::alloc::AllocError;
use std::mem;

/// Appends the entry. If an allocation fails, returns the entry in the error, and leaves the entries unchanged.
pub fn push(entries: &mut Vec<KdlEntry>, entry: KdlEntry) -> Result<(), (KdlEntry, AllocError)>
    ensures items { entries.new.items ≡
        (if is_ok result then entries.old.items ++ (entry ∷ []) else entries.old.items) }
    ensures back { IfErr result (λ e. e.0 ≡ entry) }
{
    match entries.push(entry) {
        Ok(()) => Ok(()),
        Err(refused) => Err((refused.value, AllocError)),
    }
}

/// Inserts the entry under the key, as `KdlNode::insert` does: in place of the last property of that name, which is
/// returned, or before that argument; last if there is none. A replacement does not allocate. If an allocation fails,
/// returns the entry in the error, with the key for its name if it had none, and leaves the entries unchanged.
pub fn insert(
    entries: &mut Vec<KdlEntry>,
    key: NodeKey,
    entry: KdlEntry,
) -> Result<Option<KdlEntry>, (KdlEntry, AllocError)>
    ensures items { OnOk result (IsInserted key entry entries.old.items entries.new.items) }
    ensures replaced { IfOk result (λ e. e ≡ replaced key entries.old.items) }
    ensures succeeds { IsSome (replaced_place key entries.old.items) → IsOk result }
    ensures back { IfErr result (λ e. entry_tree e.0 ≡ under (sought key) (entry_tree entry)) }
    ensures refused { OnErr result (entries.new.items ≡ entries.old.items) }
{
    let at = place(entries, &key);
    match key {
        NodeKey::Key(name) => {
            let entry = named(entry, name);
            match at {
                Some(at) => Ok(Some(mem::replace(&mut entries[at], entry))),
                None => {
                    push(entries, entry)?;
                    Ok(None)
                }
            }
        }
        NodeKey::Index(_) => {
            let at = at.unwrap_or(entries.len());
            match entries.insert(at, entry) {
                Ok(()) => Ok(None),
                Err(refused) => Err((refused.value, AllocError)),
            }
        }
    }
}

/// Removes and returns the first property whose name has the key's value, or the argument at the key's place among the
/// arguments. Returns `None` if there is none.
pub fn remove(entries: &mut Vec<KdlEntry>, key: NodeKey) -> Option<KdlEntry>
    ensures items { entries.new.items ≡ removed key entries.old.items }
    ensures value { result ≡ taken_out key entries.old.items }
{
    let at = place_to_remove(entries, &key);
    drop(key);
    Some(entries.remove(at?))
}

/// Drops the formats and spellings of the entries.
pub fn clear_formats(entries: &mut Vec<KdlEntry>)
    ensures { map entry_tree entries.new.items ≡ map cleared (map entry_tree entries.old.items) }
{
    for entry in entries.iter_mut() {
        entry.clear_format();
    }
}

/// The entry, with the key for its name if it has none.
fn named(mut entry: KdlEntry, key: KdlIdentifier) -> KdlEntry
    ensures { entry_tree result ≡ under (property (identifier_tree key)) (entry_tree entry) }
{
    let has_name = entry.name().is_some();
    if has_name {
        return entry;
    }
    entry.set_name(Some(key));
    entry
}
