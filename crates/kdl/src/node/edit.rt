//! Edits of a node's entries.
#![tactic(auto, using(crate::proofs::Rules::node_edit))]

ghost use Rattle.kdl.specs.Bytes.{IsExchangedInNode, piece_of};
ghost use Rattle.kdl.specs.Change.{with_entries};
ghost use Rattle.kdl.specs.EditLaw.{PrintsAtPlace};
ghost use Rattle.kdl.specs.Fields.{held_entries, node_format_of};
ghost use Rattle.kdl.specs.Found.{IsAdded, IsPutIn, IsSet, IsTakenOut, IsTakenOutAt};
ghost use Rattle.kdl.specs.Lookups.{entries_of, entry_there};
ghost use Rattle.kdl_parts.specs.Edits.{GoesUnder, HasArgumentAt, HasRoomAt, IsInserted, removed, replaced_place, under};
ghost use Rattle.kdl_parts.specs.EntryLists.{is_argument, key_index, key_name, removed_place, sought};
ghost use Rattle.kdl_parts.specs.Written.{entries_row};
ghost use Rattle.kdl.specs.ReadsBack.{EntryReadsBack, IsUnformed, ReadsAs};
ghost use Rattle.kdl.specs.Tree.{node_tree};
ghost use Rattle.kdl.specs.contracts.node.KdlNode.{the_row};
ghost use Rattle.kdl_entry.specs.Tree.{entry_tree};
ghost use Rattle.kdl_grammar.specs.ReadsBack.{EntryReads};
ghost use Rattle.kdl_grammar.specs.Print.{print_piece};
ghost use Rattle.std.specs.Borrow.{Lends, sem};
ghost use Rattle.kdl_entry.specs.declared.entry.KdlEntry.{KdlEntry};
ghost use Rattle.std.specs.Fn.{CalledAt};
ghost use Rattle.std.specs.declared.alloc.Global.{Global};
ghost use Rattle.std.specs.List.{All, count_by};
ghost use Rattle.std.specs.List.Retain.{IsFiltered};
ghost use Rattle.std.specs.List.Sorted.{IsPermutation, IsSortedByClosure, IsSortedByKeyClosure, IsStableByClosure, IsStableByKeyClosure};
ghost use Rattle.std.specs.Prelude.{◌≡◌, ◌==◌, [], ◌∷◌, ◌++◌, if◌then◌else◌, IfErr, IfNone, IfOk, IfSome, IsSome, IsOk, OnErr, OnOk, is_ok, length, Vec};
ghost use Rattle.std.specs.Str.{encode_utf8_all};

use crate::node::KdlNode;
use kdl_entry::KdlEntry;
use kdl_parts::places::is_unnamed;
use kdl_parts::{NodeKey, edit};
use std::alloc::AllocError;
use std::cmp::Ordering;

impl KdlNode {
    /// Returns the number of entries.
    ///
    /// ```
    /// let node = KdlNode::parse(alloc, "a 1 2 b=3")?;
    /// let count = node.len(); // 3
    /// ```
    pub fn len(&self) -> usize
        ensures { result ≡ length (entries_of self.now) }
    {
        self.entries.len()
    }

    /// Returns the number of arguments among the entries. `remove` takes an index below this number, and `insert` one
    /// up to it.
    ///
    /// ```
    /// let node = KdlNode::parse(alloc, "a 1 2 b=3")?;
    /// let count = node.argument_count(); // 2
    /// ```
    pub fn argument_count(&self) -> usize
        ensures { result ≡ count_by is_argument (entries_of self.now) }
    {
        let entries = self.entries();
        let mut count = 0;
        for entry in entries {
            if is_unnamed(entry) {
                count += 1;
            }
        }
        count
    }

    /// Returns whether there are no entries.
    ///
    /// ```
    /// let node = KdlNode::parse(alloc, "a { b 1; }")?;
    /// let none = node.is_empty(); // true: the argument is that of `b`
    /// ```
    pub fn is_empty(&self) -> bool
        ensures { result ≡ (length (entries_of self.now) == 0) }
    {
        self.entries.is_empty()
    }

    /// Returns a mutable reference to the entries. All else is unchanged. A node with a format prints the same text
    /// before its entries, and after them.
    ///
    /// ```
    /// let mut node = KdlNode::parse(alloc, "a 1 2 3 // kept")?;
    /// node.entries_mut().truncate(1); // prints "a 1 // kept"
    /// ```
    pub fn entries_mut(&mut self) -> &mut Vec<KdlEntry>
        ensures* writes_back { sem 𝓛 (Lends the_row entries_row self.entry result
            (with_entries self.old)) }
        ensures value { result.now ≡ held_entries self.old }
        // With entries that read back where the old ones did, the node reads back as before.
        ensures reads { (v : Vec KdlEntry Global)
            → (All EntryReadsBack (entries_of self.old) → All EntryReadsBack v.items)
            → ReadsAs self.old (with_entries self.old v) }
    {
        &mut self.entries
    }

    /// Drops all entries. All else is unchanged.
    ///
    /// ```
    /// let mut node = KdlNode::parse(alloc, "a 1 b=2 // kept")?;
    /// node.clear(); // prints "a // kept"
    /// ```
    pub fn clear(&mut self)
        ensures items { entries_of self.new ≡ [] }
        ensures rest { self.new ≡ with_entries self.old (held_entries self.new) }
        // The node reads back as before.
        ensures reads { ReadsAs self.old self.new }
    {
        self.entries.clear();
    }

    /// Appends the entry. If an allocation fails, returns the entry in the error, and leaves the node unchanged.
    ///
    /// ```
    /// let mut node = KdlNode::parse(alloc, "a 1 // kept")?;
    /// let pushed = node.push(KdlEntry::new(KdlValue::from(2))); // prints "a 1 2 // kept"
    /// ```
    pub fn push(&mut self, entry: KdlEntry) -> Result<(), (KdlEntry, AllocError)>
        ensures items { entries_of self.new ≡
            (if is_ok result then entries_of self.old ++ (entry ∷ []) else entries_of self.old) }
        ensures rest { self.new ≡ with_entries self.old (held_entries self.new) }
        ensures back { IfErr result (λ e. e.0 ≡ entry) }
        ensures refused { OnErr result (node_tree self.new ≡ node_tree self.old) }
        ensures bytes { OnOk result (IsSome (node_format_of self.old) →
            IsExchangedInNode [] (print_piece (entry_tree entry)) self.old self.new) }
        ensures adds { OnOk result (IfNone (entry_tree entry).name
            (IsAdded (entry_tree entry).value self.old self.new)) }
        ensures sets { OnOk result (IfSome (entry_tree entry).name (λ name.
            IsSet (encode_utf8_all name.value) (entry_tree entry).value self.old self.new)) }
        // With an entry that reads back, or is without format and spelling, the node reads back as before.
        ensures reads { EntryReadsBack entry → ReadsAs self.old self.new }
        ensures reads_unformed { IsUnformed (entry_tree entry) → ReadsAs self.old self.new }
    {
        edit::push(&mut self.entries, entry)
    }

    /// Inserts the entry under the key.
    ///
    /// Under a name, an entry without a name gets this name. The entry replaces the last property of that name, which
    /// is returned, or is appended if there is none. Under an index, the entry is inserted directly before the argument
    /// at that place among the arguments, or appended if the index is the number of arguments.
    ///
    /// The entry must have no name, or, under a name, one of equal value. The index must be at most the number of
    /// arguments.
    ///
    /// A replacement does not allocate. If an allocation fails, returns the entry in the error, with the key as its
    /// name if it had none, and leaves the node unchanged.
    ///
    /// ```
    /// let mut node = KdlNode::parse(alloc, "a b=1 // kept")?;
    /// let key = NodeKey::from_text(alloc, "b")?;
    /// let replaced = node.insert(key, KdlEntry::new(KdlValue::from(2))); // prints "a b=2 // kept"
    /// ```
    pub fn insert(
        &mut self,
        key: NodeKey,
        entry: KdlEntry,
    ) -> Result<Option<KdlEntry>, (KdlEntry, AllocError)>
        requires fits { GoesUnder (sought key) (entry_tree entry) }
        requires room { HasRoomAt (sought key) (entries_of self.old) }
        ensures items { OnOk result
            (IsInserted key entry (entries_of self.old) (entries_of self.new)) }
        ensures rest { self.new ≡ with_entries self.old (held_entries self.new) }
        ensures replaced { IfOk result (λ e.
            e ≡ entry_there (replaced_place key (entries_of self.old)) self.old) }
        ensures prints { OnOk result (IsSome (node_format_of self.old)
            → IfSome (replaced_place key (entries_of self.old)) (λ i.
            PrintsAtPlace (node_tree self.old) i (under (sought key) (entry_tree entry))
            (node_tree self.new))) }
        ensures succeeds { IsSome (replaced_place key (entries_of self.old)) → IsOk result }
        ensures back { IfErr result (λ e. entry_tree e.0 ≡ under (sought key) (entry_tree entry)) }
        ensures refused { OnErr result (node_tree self.new ≡ node_tree self.old) }
        ensures bytes { IfOk result (λ o. IsSome (node_format_of self.old) →
            IsExchangedInNode (piece_of o) (print_piece (under (sought key) (entry_tree entry)))
            self.old self.new) }
        ensures sets { OnOk result (IfSome (key_name key) (λ name.
            IsSet name (entry_tree entry).value self.old self.new)) }
        ensures puts { OnOk result (IfSome (key_index key) (λ i.
            IsPutIn i (entry_tree entry).value self.old self.new)) }
        // With an entry that reads back, or is without format and spelling, the node reads back as before.
        ensures reads { EntryReads (under (sought key) (entry_tree entry))
            → ReadsAs self.old self.new }
        ensures reads_unformed { IsUnformed (under (sought key) (entry_tree entry))
            → ReadsAs self.old self.new }
    {
        edit::insert(&mut self.entries, key, entry)
    }

    /// Removes and returns the first property whose name has the key's value, or the argument at the key's place among
    /// the arguments, which has to exist. All else is unchanged.
    ///
    /// ```
    /// let mut node = KdlNode::parse(alloc, "a 1 b=2 b=3")?;
    /// let first = node.remove(NodeKey::from_text(alloc, "b")?); // the property `b=2`; prints "a 1 b=3"
    /// ```
    pub fn remove(&mut self, key: NodeKey) -> Option<KdlEntry>
        requires { HasArgumentAt (sought key) (entries_of self.old) }
        ensures items { entries_of self.new ≡ removed key (entries_of self.old) }
        ensures rest { self.new ≡ with_entries self.old (held_entries self.new) }
        ensures value { result ≡
            entry_there (removed_place key (entries_of self.old)) self.old }
        ensures bytes { IsSome (node_format_of self.old) →
            IsExchangedInNode (piece_of result) [] self.old self.new }
        ensures takes { IfSome (key_name key) (λ name. IsTakenOut name self.old self.new) }
        ensures takes_at { IfSome (key_index key) (λ i. IsTakenOutAt i self.old self.new) }
        // The node reads back as before.
        ensures reads { ReadsAs self.old self.new }
    {
        edit::remove(&mut self.entries, key)
    }

    /// Retains, in order, the entries for which `keep` returns true. `keep` is called exactly once for each entry, in
    /// order. All else is unchanged.
    ///
    /// ```
    /// let mut node = KdlNode::parse(alloc, "a 1 b=2 3")?;
    /// node.retain(|entry| entry.name().is_none()); // prints "a 1 3"
    /// ```
    pub fn retain<F: FnMut(&KdlEntry) -> bool>(&mut self, keep: F)
        requires { F.IsAlwaysCallable keep }
        ensures items { IsFiltered (CalledAt F.FnMut) keep
            (entries_of self.old) (entries_of self.new) }
        ensures rest { self.new ≡ with_entries self.old (held_entries self.new) }
        // The node reads back as before.
        ensures reads { ReadsAs self.old self.new }
    {
        self.entries.retain(keep);
    }

    /// Sorts the entries by `compare`, which has to be a total preorder; entries that compare as equal keep their
    /// order. If an allocation fails, returns an error, and the entries are in an unspecified order.
    ///
    /// ```
    /// let mut node = KdlNode::parse(alloc, "a 3 1 2")?;
    /// node.sort_by(|one, other| one.value().cmp(other.value()))?; // prints "a 1 2 3"
    /// ```
    pub fn sort_by<F: FnMut(&KdlEntry, &KdlEntry) -> Ordering>(
        &mut self,
        compare: F,
    ) -> Result<(), AllocError>
        requires { F.IsAlwaysCallable compare }
        ensures permutation { IsPermutation (entries_of self.old) (entries_of self.new) }
        ensures sorted { OnOk result (IsSortedByClosure F.FnMut compare (entries_of self.new)) }
        ensures stable { IsStableByClosure F.FnMut compare
            (entries_of self.old) (entries_of self.new) }
        ensures rest { self.new ≡ with_entries self.old (held_entries self.new) }
        // The node reads back as before.
        ensures reads { ReadsAs self.old self.new }
    {
        self.entries.sort_by(compare)
    }

    /// Sorts the entries by the key that `f` returns for each; entries with equal keys keep their order. If an
    /// allocation fails, returns an error, and the entries are in an unspecified order.
    ///
    /// ```
    /// let mut node = KdlNode::parse(alloc, "a b=1 2 c=3 4")?;
    /// node.sort_by_key(|entry| entry.name().is_some())?; // prints "a 2 4 b=1 c=3"
    /// ```
    pub fn sort_by_key<K: Ord, F: FnMut(&KdlEntry) -> K>(&mut self, f: F) -> Result<(), AllocError>
    where
        K: Drop,
        requires { F.IsAlwaysCallable f }
        ensures permutation { IsPermutation (entries_of self.old) (entries_of self.new) }
        ensures sorted { OnOk result (IsSortedByKeyClosure F.FnMut K.cmp f (entries_of self.new)) }
        ensures stable { IsStableByKeyClosure F.FnMut K.cmp f
            (entries_of self.old) (entries_of self.new) }
        ensures rest { self.new ≡ with_entries self.old (held_entries self.new) }
        // The node reads back as before.
        ensures reads { ReadsAs self.old self.new }
    {
        self.entries.sort_by_key(f)
    }
}
