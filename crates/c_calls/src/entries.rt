//! Entries of a node: the last property with a key, another value of an entry, and an entry that is removed.

ghost use Rattle.kdl.specs.Words.{entries_of, entry_tree, has_name, node_tree, value_tree};
ghost use Rattle.c_calls.specs.Entries.{EntryRemoved, respelled};
ghost use Rattle.c_calls.specs.declared.status.Refused.TheVariants.{NotFound};
ghost use Rattle.kdl_parts.specs.EntryLists.{last_place};
ghost use Rattle.std.specs.Prelude.{◌≡◌, ◌≤◌, IfErr, OnErr, OnOk, length, option_map};

use crate::status::Refused;
use kdl::{KdlEntry, KdlNode, KdlValue};

/// Returns whether the entry is a property with that key.
fn is_property(entry: &KdlEntry, name: &str) -> bool
    ensures { result ≡ has_name name.now entry.now }
{
    match entry.name() {
        Some(key) => key.value() == name,
        None => false,
    }
}

/// Returns the index of the last property with that key.
pub fn last_property(entries: &[KdlEntry], name: &str) -> Option<usize>
    ensures { result ≡ last_place (has_name name.now) entries.now }
{
    let mut found = None;
    for (index, entry) in entries.iter().enumerate() {
        if is_property(entry, name) {
            found = Some(index);
        }
    }
    found
}

/// Sets the value, and its spelling if the entry has a format. Nothing else changes.
pub fn set_spelled(entry: &mut KdlEntry, value: KdlValue, spelling: String)
    ensures { entry_tree entry.new ≡ record (entry_tree entry.old) {
      value = value_tree value;
      format = option_map (respelled spelling) (entry_tree entry.old).format;
    } }
{
    entry.set_value(value);
    if let Some(format) = entry.format_mut() {
        format.value_repr = spelling;
    }
}

/// Removes the entry at the index. Fails if there is none.
pub fn remove_entry(node: &mut KdlNode, index: usize) -> Result<(), Refused>
    ensures done { OnOk result (EntryRemoved index node.old node.new) }
    ensures refused { OnErr result (node_tree node.new ≡ node_tree node.old) }
    ensures absent { IfErr result (λ r. r ≡ NotFound → length (entries_of node.old) ≤ index) }
{
    let entries = node.entries_mut();
    if entries.len() <= index {
        return Err(Refused::NotFound);
    }
    drop(entries.remove(index));
    Ok(())
}
