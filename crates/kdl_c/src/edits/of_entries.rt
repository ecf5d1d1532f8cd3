//! Edits of the entries of a node.

ghost use Rattle.kdl.specs.Words.{EntryData, IsEntryText, Value, entries_of, nodes_of};
ghost use Rattle.c_calls.specs.Answers.{Each, IsAmong};
ghost use Rattle.c_calls.specs.Changes.{AtEntry, AtNode, SameTree};
ghost use Rattle.c_calls.specs.Entries.{EntryRemoved, IsValueText};
ghost use Rattle.c_calls.specs.Edits.{EntryInserted, KeySet, TypeSetAt, ValueSet, text_if};
ghost use Rattle.c_calls.specs.Paths.{node_at};
ghost use Rattle.std.specs.Prelude.{◌≡◌, ◌<◌, ◌≤◌, ◌-◌, ◌^◌, ◌∷◌, [], IfSome, IsNone, length};
ghost use Rattle.std.specs.Str.{IsUtf8, chars};

use c_calls::at_path::change_held;
use c_calls::entry_change::EntryChange;
use c_calls::given;
use c_calls::held::Handle;
use c_calls::node_change::NodeChange;
use std::alloc::Global;

/// Sets the value of the entry at the index, and its spelling, from a text such as `"a b"`, `0x10` or `#true`. The text
/// is only a value, without a key, a type, a space or a comment. The key and the type of the entry, and the texts around
/// its value, do not change.
#[unsafe(no_mangle)]
pub extern "C" fn kdl_set_value(
    alloc: Global,
    document: &mut Handle,
    path: &[usize],
    index: usize,
    value: &[u8],
) -> u32
    ensures done { result ≡ 0
        → Each (AtNode path.now (AtEntry index (ValueSet (chars value.now))))
        document.old.held.document document.new.held.document }
    ensures refused { result ≡ 1 → (v : Value)
        → IsValueText (chars value.now) v → ⊥ }
    ensures utf8 { result ≡ 2 → IsUtf8 value.now → ⊥ }
    ensures kept { (result ≡ 0 → ⊥)
        → Each SameTree document.old.held.document document.new.held.document }
    ensures missing { result ≡ 5 → IsNone document.old.held.document }
    ensures absent { result ≡ 6 → IfSome document.old.held.document (λ d.
        IfSome (node_at path.now (nodes_of d)) (λ n. length (entries_of n) ≤ index)) }
    ensures statuses { IsAmong (0 ∷ 1 ∷ 2 ∷ 3 ∷ 5 ∷ 6 ∷ []) result }
{
    let (value, spelling) = match given::value(alloc, value) {
        Ok(value) => value,
        Err(unread) => return unread.status(),
    };
    let change = NodeChange::ChangeEntry(index, EntryChange::SetValue(value, spelling));
    change_held(alloc, document, path, change)
}

/// Sets the key of the entry at the index to a copy of the bytes. If `has_key` is 0, removes the key, and the entry
/// becomes an argument. The key is printed in the library's spelling.
#[unsafe(no_mangle)]
pub extern "C" fn kdl_set_key(
    alloc: Global,
    document: &mut Handle,
    path: &[usize],
    index: usize,
    has_key: u32,
    key: &[u8],
) -> u32
    ensures done { result ≡ 0
        → Each (AtNode path.now (AtEntry index (KeySet (text_if has_key (chars key.now)))))
        document.old.held.document document.new.held.document }
    ensures utf8 { result ≡ 2 → IsUtf8 key.now → ⊥ }
    ensures kept { (result ≡ 0 → ⊥)
        → Each SameTree document.old.held.document document.new.held.document }
    ensures missing { result ≡ 5 → IsNone document.old.held.document }
    ensures absent { result ≡ 6 → IfSome document.old.held.document (λ d.
        IfSome (node_at path.now (nodes_of d)) (λ n. length (entries_of n) ≤ index)) }
    ensures statuses { IsAmong (0 ∷ 2 ∷ 3 ∷ 5 ∷ 6 ∷ []) result }
{
    let key = match given::identifier_if(alloc, has_key, key) {
        Ok(key) => key,
        Err(unread) => return unread.status(),
    };
    let change = NodeChange::ChangeEntry(index, EntryChange::SetKey(key));
    change_held(alloc, document, path, change)
}

/// Sets the type of the entry at the index to a copy of the bytes. If the index is `usize::MAX`, sets the type of the
/// node instead. If `has_type` is 0, removes the type. The type is printed in the library's spelling.
#[unsafe(no_mangle)]
pub extern "C" fn kdl_set_type(
    alloc: Global,
    document: &mut Handle,
    path: &[usize],
    index: usize,
    has_type: u32,
    ty: &[u8],
) -> u32
    ensures done { result ≡ 0
        → Each (AtNode path.now (TypeSetAt index (text_if has_type (chars ty.now))))
        document.old.held.document document.new.held.document }
    ensures utf8 { result ≡ 2 → IsUtf8 ty.now → ⊥ }
    ensures kept { (result ≡ 0 → ⊥)
        → Each SameTree document.old.held.document document.new.held.document }
    ensures missing { result ≡ 5 → IsNone document.old.held.document }
    ensures absent { result ≡ 6 → IfSome document.old.held.document (λ d.
        IfSome (node_at path.now (nodes_of d)) (λ n. (index ≡ 2 ^ 64 - 1 → ⊥) × (length (entries_of n) ≤ index))) }
    ensures statuses { IsAmong (0 ∷ 2 ∷ 3 ∷ 5 ∷ 6 ∷ []) result }
{
    let ty = match given::identifier_if(alloc, has_type, ty) {
        Ok(ty) => ty,
        Err(unread) => return unread.status(),
    };
    if index == usize::MAX {
        change_held(alloc, document, path, NodeChange::SetType(ty))
    } else {
        let change = NodeChange::ChangeEntry(index, EntryChange::SetType(ty));
        change_held(alloc, document, path, change)
    }
}

/// Inserts an entry, given as a text, before the entry at the index, or after the last entry if the index is the number
/// of entries. The entry is printed after one space, in the library's spelling.
#[unsafe(no_mangle)]
pub extern "C" fn kdl_insert_entry(
    alloc: Global,
    document: &mut Handle,
    path: &[usize],
    index: usize,
    entry: &[u8],
) -> u32
    ensures done { result ≡ 0 → Each (AtNode path.now (EntryInserted (chars entry.now) index))
        document.old.held.document document.new.held.document }
    ensures refused { result ≡ 1 → (x : EntryData)
        → IsEntryText (chars entry.now) x → ⊥ }
    ensures utf8 { result ≡ 2 → IsUtf8 entry.now → ⊥ }
    ensures kept { (result ≡ 0 → ⊥)
        → Each SameTree document.old.held.document document.new.held.document }
    ensures missing { result ≡ 5 → IsNone document.old.held.document }
    ensures absent { result ≡ 6 → IfSome document.old.held.document (λ d.
        IfSome (node_at path.now (nodes_of d)) (λ n. length (entries_of n) < index)) }
    ensures statuses { IsAmong (0 ∷ 1 ∷ 2 ∷ 3 ∷ 5 ∷ 6 ∷ []) result }
{
    let entry = match given::plain_entry(alloc, entry) {
        Ok(entry) => entry,
        Err(unread) => return unread.status(),
    };
    change_held(alloc, document, path, NodeChange::InsertEntry(index, entry))
}

/// Removes the entry at the index.
#[unsafe(no_mangle)]
pub extern "C" fn kdl_remove_entry(
    alloc: Global,
    document: &mut Handle,
    path: &[usize],
    index: usize,
) -> u32
    ensures done { result ≡ 0 → Each (AtNode path.now (EntryRemoved index))
        document.old.held.document document.new.held.document }
    ensures kept { (result ≡ 0 → ⊥)
        → Each SameTree document.old.held.document document.new.held.document }
    ensures missing { result ≡ 5 → IsNone document.old.held.document }
    ensures absent { result ≡ 6 → IfSome document.old.held.document (λ d.
        IfSome (node_at path.now (nodes_of d)) (λ n. length (entries_of n) ≤ index)) }
    ensures statuses { IsAmong (0 ∷ 3 ∷ 5 ∷ 6 ∷ []) result }
{
    change_held(alloc, document, path, NodeChange::RemoveEntry(index))
}
