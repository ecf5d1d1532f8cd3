//! The iterators over the entries of a node, and over the values of its arguments.

ghost use Rattle.kdl_parts.specs.EntryLists.{arguments};
ghost use Rattle.kdl_parts.specs.Iterators.{entries_left, entries_name};
ghost use Rattle.kdl_parts.specs.Written.{entries_row};
ghost use Rattle.kdl_value.specs.Tree.{value_tree};
ghost use Rattle.kdl_entry.specs.contracts.entry.KdlEntry.{the_row as entry_row};
ghost use Rattle.std.specs.Borrow.{Array, follows, sem};
ghost use Rattle.std.specs.Iterator.{UpTo, at_most};
ghost use Rattle.std.specs.Iterator.SizeHint.{IsWithinCount};
ghost use Rattle.std.specs.Map.Iter.{TakesFirst};
ghost use Rattle.std.specs.Prelude.{◌≡◌, IfSome, IsSome, Some, length};
ghost use Rattle.std.specs.Slice.Iter.{iter_rest};
ghost use Rattle.std.specs.Vec.{with_items};

use crate::places::is_unnamed;
use kdl_entry::{KdlEntry, KdlValue};
use std::marker::Model;
use std::slice;

/// Returns an iterator over these entries.
pub fn entry_iter(entries: &[KdlEntry]) -> EntryIter<'_>
    ensures { result ≡ entries.now }
{
    EntryIter(entries.iter())
}

/// Returns a mutable iterator over these entries.
pub fn entry_iter_mut(entries: &mut Vec<KdlEntry>) -> EntryIterMut<'_>
    ensures* writes_back { sem 𝓛 (follows entries_row (Array entry_row 0) entries.entry.ghost_name
        (entries_name result) (λ es. with_items entries.old es)) }
    ensures left { entries_left result ≡ entries.old.items }
{
    EntryIterMut(entries.iter_mut())
}

/// Returns an iterator over the values of the arguments among these entries.
pub fn args_iter(entries: &[KdlEntry]) -> ArgsIter<'_>
    ensures { result ≡ arguments entries.now }
{
    ArgsIter {
        entries: entries.iter(),
    }
}

/// The value of the next argument.
fn next_argument<'a>(entries: &mut slice::Iter<'a, KdlEntry>) -> Option<&'a KdlValue>
    ensures { TakesFirst (λ v. value_tree v.now) (arguments (iter_rest entries.old)) result
        (arguments (iter_rest entries.new)) }
{
    while let Some(entry) = entries.next() {
        if is_unnamed(entry) {
            return Some(entry.value());
        }
    }
    None
}

/// An iterator over the entries of a node, in order.
#[derive(Debug, Drop)]
pub struct EntryIter<'a>(slice::Iter<'a, KdlEntry>);

impl<'a> Model for EntryIter<'a> {
    ghost use Rattle.std.specs.Prelude.{List};
    ghost use Rattle.std.specs.Slice.Iter.{iter_rest};
    ghost use Rattle.kdl_entry.specs.declared.entry.KdlEntry.{KdlEntry};

    ghost Value = { List KdlEntry };

    ghost view = { λ a. iter_rest a.0 };
}

impl<'a> Iterator for EntryIter<'a> {
    ghost use Rattle.std.specs.Map.Iter.{TakesFirst, deref};

    type Item = &'a KdlEntry;

    ghost next_gives = { TakesFirst deref };

    ghost remaining = { λ s. at_most (length s) };

    fn next(&mut self) -> Option<&'a KdlEntry> {
        self.0.next()
    }

    /// The exact number of entries that are left.
    fn size_hint(&self) -> (usize, Option<usize>)
        ensures lower { IsWithinCount result.0 (at_most (length self.now)) }
        ensures upper { IfSome result.1 (UpTo (at_most (length self.now))) }
        ensures value { result ≡ (length self.now, Some (length self.now)) }
    {
        let len = self.0.len();
        (len, Some(len))
    }
}

/// A mutable iterator over the entries of a node, in order.
#[derive(Debug, Drop)]
pub struct EntryIterMut<'a>(slice::IterMut<'a, KdlEntry>);

impl<'a> Iterator for EntryIterMut<'a> {
    type Item = &'a mut KdlEntry;

    ghost next_gives = { λ s r t. TakesFirst (λ e. e.now) (entries_left s) r (entries_left t) };

    ghost remaining = { λ s. at_most (length (entries_left s)) };

    fn next(&mut self) -> Option<&'a mut KdlEntry> {
        self.0.next()
    }

    /// The exact number of entries that are left.
    fn size_hint(&self) -> (usize, Option<usize>)
        ensures lower { IsWithinCount result.0 (at_most (length (entries_left self.now))) }
        ensures upper { IfSome result.1 (UpTo (at_most (length (entries_left self.now)))) }
        ensures value { result ≡
            (length (entries_left self.now), Some (length (entries_left self.now))) }
    {
        let left = self.0.len();
        (left, Some(left))
    }
}

/// An iterator over the values of a node's arguments, in order.
#[derive(Drop)]
pub struct ArgsIter<'a> {
    entries: slice::Iter<'a, KdlEntry>,
}

impl<'a> Model for ArgsIter<'a> {
    ghost use Rattle.kdl_parts.specs.EntryLists.{arguments};
    ghost use Rattle.kdl_value.specs.Data.{Value as Data};
    ghost use Rattle.std.specs.Prelude.{List};
    ghost use Rattle.std.specs.Slice.Iter.{iter_rest};

    ghost Value = { List Data };

    ghost view = { λ a. arguments (iter_rest a.entries) };
}

impl<'a> Iterator for ArgsIter<'a> {
    type Item = &'a KdlValue;

    ghost next_gives = { TakesFirst (λ v. value_tree v.now) };

    ghost remaining = { λ s. at_most (length s) };

    fn next(&mut self) -> Option<&'a KdlValue> {
        next_argument(&mut self.entries)
    }

    /// From 0 up to the number of entries that are left.
    fn size_hint(&self) -> (usize, Option<usize>)
        ensures lower { IsWithinCount result.0 (at_most (length self.now)) }
        ensures upper { IfSome result.1 (UpTo (at_most (length self.now))) }
        ensures bounded { IsSome result.1 }
    {
        (0, Some(self.entries.len()))
    }
}
