//! Look-ups of entries by the name of a property, or by the place of an argument.
#![tactic(auto, using(crate::proofs::Rules::node_lookup))]

ghost use Rattle.kdl.specs.Bytes.{IsExchangedInNode};
ghost use Rattle.kdl.specs.Fields.{node_format_of};
ghost use Rattle.kdl.specs.Finds.{GivesArgument, GivesProperty};
ghost use Rattle.kdl.specs.Found.{IsArgumentSet, IsSet, value_at};
ghost use Rattle.kdl.specs.Lookups.{entry_there, found_entry, found_value, held_value, key_place, property_place, property_value, with_found_entry, with_found_value, HasSameEntries, HasWritten};
ghost use Rattle.kdl.specs.Said.{said_entry, said_property, said_value};
ghost use Rattle.kdl.specs.Tree.{node_says};
ghost use Rattle.kdl_entry.specs.Tree.{entry_data, entry_tree};
ghost use Rattle.kdl_grammar.specs.Print.{print_piece};
ghost use Rattle.kdl_parts.specs.EntryLists.{key_index, key_name, sought};
ghost use Rattle.kdl.specs.ReadsBack.{EntryReadsBack, IsUnformed, ReadsAs, respelled};
ghost use Rattle.kdl_entry.specs.declared.entry.KdlEntry.{KdlEntry};
ghost use Rattle.kdl_parts.specs.declared.key.NodeKey.TheVariants.{Index as at_index};
ghost use Rattle.kdl_value.specs.Data.{Value};
ghost use Rattle.kdl_value.specs.Tree.{or_null, value_tree};
ghost use Rattle.kdl_value.specs.WellFormed.{IsWellFormed};
ghost use Rattle.std.specs.Borrow.{Lends, LendsIf, LendsSoOk, sem};
ghost use Rattle.std.specs.Prelude.{◌≡◌, IfOk, IfSome, IsNone, IsOk, IsSome, OnErr, Some, is_some, option_map};
ghost use Rattle.std.specs.Str.{chars};

use crate::node::KdlNode;
use kdl_entry::{KdlEntry, KdlValue};
use kdl_parts::lookup::value_at_mut;
use kdl_parts::{NodeKey, lookup};
use std::alloc::AllocError;
use std::ops::{Index, IndexMut};

impl KdlNode {
    /// Returns the entry that the key finds: the last property whose name has the key's value, or the argument at the
    /// key's place among the arguments.
    ///
    /// ```
    /// let node = KdlNode::parse(alloc, "a 1 b=2 3")?;
    /// let three = node.entry(NodeKey::from(1)); // the argument 3, the second one
    /// ```
    pub fn entry(&self, key: NodeKey) -> Option<&KdlEntry>
        ensures value { option_map (λ e. e.now) result ≡ found_entry key self.now }
        ensures said { option_map (λ e. entry_data (entry_tree e.now)) result ≡
            said_entry (sought key) (node_says self.now) }
        ensures by_name { IfSome (key_name key) (λ name. option_map (λ e. e.now) result ≡
            entry_there (property_place name self.now) self.now) }
    {
        lookup::entry(&self.entries, key)
    }

    /// Returns the value of the entry that the key finds: the last property whose name has the key's value, or the
    /// argument at the key's place among the arguments.
    ///
    /// ```
    /// let node = KdlNode::parse(alloc, "a b=1 b=2")?;
    /// let two = node.get(NodeKey::from_text(alloc, "b")?); // 2: the last one counts
    /// ```
    pub fn get(&self, key: NodeKey) -> Option<&KdlValue>
        ensures value { option_map (λ v. value_tree v.now) result ≡ found_value key self.now }
        ensures said { option_map (λ v. value_tree v.now) result ≡
            said_value (sought key) (node_says self.now) }
        ensures by_name { IfSome (key_name key) (λ name.
            option_map (λ v. value_tree v.now) result ≡ property_value name self.now) }
        ensures by_index { IfSome (key_index key) (λ i.
            option_map (λ v. value_tree v.now) result ≡ value_at i self.now) }
    {
        lookup::value(&self.entries, key)
    }

    /// Returns whether the node has a property of that name. Names are compared by their values, not by their
    /// spellings. If it has one, `node[name]` may be used.
    ///
    /// ```
    /// let node = KdlNode::parse(alloc, "a b=1 c")?;
    /// let both = (node.has_property("b"), node.has_property("c")); // true and false: `c` is an argument
    /// ```
    pub fn has_property(&self, name: &str) -> bool
        ensures value { result ≡ is_some (property_place name.now self.now) }
        ensures said { result ≡ is_some (said_property (chars name.now) (node_says self.now)) }
    {
        lookup::has_property(&self.entries, name)
    }
}

impl KdlNode {
    ghost use Rattle.kdl.specs.contracts.node.KdlNode.{the_row};
    ghost use Rattle.kdl_entry.specs.contracts.entry.KdlEntry.{the_row as entry_row};
    ghost use Rattle.kdl_value.specs.contracts.value.KdlValue.{the_row as value_row};

    /// Returns a mutable reference to the entry that `entry` returns. All else is unchanged. In the printed text of a
    /// node with a format, all bytes before and after those of the entry are unchanged too.
    ///
    /// ```
    /// let mut node = KdlNode::parse(alloc, "a 0x10")?;
    /// if let Some(entry) = node.entry_mut(NodeKey::from(0)) {
    ///     entry.clear_format(); // prints "a 16"
    /// }
    /// ```
    pub fn entry_mut(&mut self, key: NodeKey) -> Option<&mut KdlEntry>
        ensures* writes_back { sem 𝓛 (LendsIf the_row entry_row self.entry result
            (with_found_entry key self.old) self.old) }
        ensures value { option_map (λ e. e.now) result ≡ found_entry key self.old }
        ensures bytes { IfSome result (λ e. (w : KdlEntry) → IsSome (node_format_of self.old) →
            IsExchangedInNode (print_piece (entry_tree e.now)) (print_piece (entry_tree w))
            self.old (with_found_entry key self.old w)) }
        ensures sets { IfSome result (λ e. IfSome (key_name key) (λ name. (w : KdlEntry) →
            (entry_tree w).name ≡ (entry_tree e.now).name →
            IsSet name (entry_tree w).value self.old (with_found_entry key self.old w))) }
        ensures sets_at { IfSome result (λ e. IfSome (key_index key) (λ i. (w : KdlEntry) →
            (entry_tree w).name ≡ (entry_tree e.now).name →
            IsArgumentSet i (entry_tree w).value self.old (with_found_entry key self.old w))) }
        // With an entry in its place that reads back where the old one did, the node reads back as before.
        ensures reads { IfSome result (λ e. (f : KdlEntry)
            → (EntryReadsBack e.now → EntryReadsBack f)
            → ReadsAs self.old (with_found_entry key self.old f)) }
        ensures reads_unformed { IfSome result (λ e. (f : KdlEntry) → IsUnformed (entry_tree f)
            → ReadsAs self.old (with_found_entry key self.old f)) }
        ensures reads_respelled { IfSome result (λ e. (f : KdlEntry) (v : Value) → IsWellFormed v
            → entry_tree f ≡ respelled v (entry_tree e.now)
            → ReadsAs self.old (with_found_entry key self.old f)) }
    {
        lookup::entry_mut(&mut self.entries, key)
    }

    /// Returns a mutable reference to the value that `get` returns. The entry's format, with the spelling of the value,
    /// and all else are unchanged.
    ///
    /// ```
    /// let mut node = KdlNode::parse(alloc, "a b=1")?;
    /// if let Some(value) = node.get_mut(NodeKey::from_text(alloc, "b")?) {
    ///     *value = KdlValue::from(true); // the entry's format keeps the spelling "1"
    /// }
    /// ```
    pub fn get_mut(&mut self, key: NodeKey) -> Option<&mut KdlValue>
        ensures* writes_back { sem 𝓛 (LendsIf the_row value_row self.entry result
            (with_found_value key self.old) self.old) }
        ensures value { option_map (λ v. v.now) result ≡ held_value (found_entry key self.old) }
        ensures sets { IsSome result → IfSome (key_name key) (λ name. (w : KdlValue) →
            IsSet name (value_tree w) self.old (with_found_value key self.old w)) }
        ensures sets_at { IsSome result → IfSome (key_index key) (λ i. (w : KdlValue) →
            IsArgumentSet i (value_tree w) self.old (with_found_value key self.old w)) }
    {
        lookup::value_mut(&mut self.entries, key)
    }

    /// Returns a mutable reference to the value of the last property of that name. If there is none, first appends a
    /// property of that name with the value null; only this allocates. If an allocation fails, returns an error and
    /// leaves the entries unchanged.
    ///
    /// ```
    /// let mut node = KdlNode::parse(alloc, "a")?;
    /// *node.get_or_null_mut("b")? = KdlValue::from(1); // prints "a b=1"
    /// ```
    pub fn get_or_null_mut(&mut self, name: &str) -> Result<&mut KdlValue, AllocError>
        ensures* writes_back { sem 𝓛 (LendsSoOk the_row value_row self.entry result
            (λ n w. HasWritten (property_place name.now self.old) name.now self.old w n)
            (λ n. HasSameEntries self.old n)) }
        ensures value { IfOk result (λ v.
            value_tree v.now ≡ or_null (property_value name.now self.old)) }
        ensures answers { IsSome (property_place name.now self.old) → IsOk result }
        ensures missing { OnErr result (IsNone (property_place name.now self.old)) }
        ensures sets { (w : KdlValue) (n : KdlNode) →
            HasWritten (property_place name.now self.old) name.now self.old w n →
            IsSet name.now (value_tree w) self.old n }
    {
        let at = lookup::property_or_null(&mut self.entries, name)?;
        Ok(value_at_mut(&mut self.entries, at))
    }
}

/// Returns the value of the argument at that place among the arguments, counted from 0. It has to exist: `get` returns
/// it then.
///
/// ```
/// let node = KdlNode::parse(alloc, "a b=1 2")?;
/// let two = &node[0];
/// ```
impl Index<usize> for KdlNode {
    type Output = KdlValue;

    ghost can_index = { λ n i. IsSome (key_place (at_index i) n) };

    ghost index_gives = { λ n i v. GivesArgument i (value_tree v) n };

    fn index(&self, index: usize) -> &KdlValue {
        lookup::argument(&self.entries, index)
    }
}

/// Returns the value of the last property of that name. It has to exist: `has_property` returns true then.
///
/// ```
/// let node = KdlNode::parse(alloc, "a b=1 2")?;
/// let one = &node["b"];
/// ```
impl<'q> Index<&'q str> for KdlNode {
    type Output = KdlValue;

    ghost can_index = { λ n name. IsSome (property_place name.now n) };

    ghost index_gives = { λ n name v. GivesProperty name.now (value_tree v) n };

    fn index(&self, name: &'q str) -> &KdlValue {
        lookup::property(&self.entries, name)
    }
}

/// Returns a mutable reference to the value that `node[index]` returns. All else is unchanged.
///
/// ```
/// let mut node = KdlNode::parse(alloc, "a 1")?;
/// node[0] = KdlValue::from(2);
/// ```
impl IndexMut<usize> for KdlNode {
    ghost use Rattle.kdl.specs.contracts.node.KdlNode.{the_row};
    ghost use Rattle.kdl_value.specs.contracts.value.KdlValue.{the_row as value_row};

    fn index_mut(&mut self, index: usize) -> &mut KdlValue
        requires { IsSome (key_place (at_index index) self.old) }
        ensures* writes_back { sem 𝓛 (Lends the_row value_row self.entry result
            (with_found_value (at_index index) self.old)) }
        ensures value { held_value (found_entry (at_index index) self.old) ≡ Some result.now }
        ensures sets { (w : KdlValue) → IsArgumentSet index (value_tree w) self.old
            (with_found_value (at_index index) self.old w) }
    {
        lookup::argument_mut(&mut self.entries, index)
    }
}
