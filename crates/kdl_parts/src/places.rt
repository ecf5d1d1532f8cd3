//! The places of the entries that a key names.

ghost use Rattle.kdl_parts.specs.EntryLists.{IsFoundAt, has_name, is_argument, last_place, nth_place, place_of, removed_place};
ghost use Rattle.std.specs.Prelude.{◌≡◌, ◌<◌, IfSome, length, position};

use crate::key::NodeKey;
use kdl_entry::KdlEntry;

/// Whether the entry is a property of that name.
fn is_property(entry: &KdlEntry, name: &str) -> bool
    ensures { result ≡ has_name name.now entry.now }
{
    match entry.name() {
        Some(key) => key.value() == name,
        None => false,
    }
}

/// Returns whether the entry is an argument.
pub fn is_unnamed(entry: &KdlEntry) -> bool
    ensures { result ≡ is_argument entry.now }
{
    entry.name().is_none()
}

/// The place of the last property of that name.
pub(crate) fn last_property(entries: &[KdlEntry], name: &str) -> Option<usize>
    ensures { IsFoundAt (last_place (has_name name.now) entries.now) entries.now result }
{
    let mut found = None;
    for (i, entry) in entries.iter().enumerate() {
        if is_property(entry, name) {
            found = Some(i);
        }
    }
    found
}

/// The place of the argument that is at `n` among the arguments, counted from 0.
pub(crate) fn nth_argument(entries: &[KdlEntry], n: usize) -> Option<usize>
    ensures { IsFoundAt (nth_place is_argument entries.now n) entries.now result }
{
    let mut left = n;
    for (i, entry) in entries.iter().enumerate() {
        if is_unnamed(entry) {
            if left == 0 {
                return Some(i);
            }
            left -= 1;
        }
    }
    None
}

/// The place of the first property of that name.
fn first_property(entries: &[KdlEntry], name: &str) -> Option<usize>
    ensures place { result ≡ position (has_name name.now) entries.now }
    ensures bound { IfSome result (λ i. i < length entries.now) }
{
    entries.iter().position(|entry| is_property(entry, name))
}

/// The place of the entry that the key finds.
pub(crate) fn place(entries: &[KdlEntry], key: &NodeKey) -> Option<usize>
    ensures { IsFoundAt (place_of key.now entries.now) entries.now result }
{
    match key {
        NodeKey::Key(name) => last_property(entries, name.value()),
        NodeKey::Index(n) => nth_argument(entries, *n),
    }
}

/// The place of the entry that a removal removes: the first property of that name, or that argument.
pub(crate) fn place_to_remove(entries: &[KdlEntry], key: &NodeKey) -> Option<usize>
    ensures { IsFoundAt (removed_place key.now entries.now) entries.now result }
{
    match key {
        NodeKey::Key(name) => first_property(entries, name.value()),
        NodeKey::Index(n) => nth_argument(entries, *n),
    }
}
