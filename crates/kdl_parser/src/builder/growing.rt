//! Lists being read.

ghost use Rattle.std.specs.Prelude.{◌≡◌, ◌<◌, [], OnOk};
ghost use Rattle.std.specs.Vec.{vec_capacity, vec_len};

use std::alloc::{AllocError, Global};
use std::mem;

/// The number of items up to which a list is copied out of the memory in which it grew. A longer one is cut there.
const COPIED: usize = 64;

/// A list being read. It ends in memory of its own size.
///
/// The first item gets memory for itself alone, since most lists have no other; after two lists of one length it gets
/// memory for that length. Where this does not suffice the list moves into memory that an earlier list has left, and is
/// copied from there once, when it ends.
#[derive(Drop)]
pub(super) struct Growing<T> {
    pub(super) items: Vec<T>,
    /// The memory that an earlier list has left.
    spare: Vec<T>,
    /// The length of the last list.
    last: usize,
    /// For how many items the next list gets room at first.
    first: usize,
}

impl<T: Drop> Growing<T> {
    /// Creates an empty list. Does not allocate.
    pub(super) fn new(alloc: Global) -> Self
        ensures { result.items.items ≡ [] }
    {
        Growing {
            items: Vec::new(alloc),
            spare: Vec::new(alloc),
            last: 0,
            first: 1,
        }
    }

    /// Makes room for one more item.
    #[inline(always)]
    pub(super) fn make_room(&mut self) -> Result<(), AllocError>
        ensures items { self.new.items.items ≡ self.old.items.items }
        ensures room { OnOk result (vec_len self.new.items < vec_capacity self.new.items) }
    {
        if self.items.len() < self.items.capacity() {
            return Ok(());
        }
        if self.items.is_empty() {
            return self.items.reserve_exact(self.first.max(1));
        }
        self.grow()
    }

    /// Makes room in a full list that is not empty.
    #[inline(never)]
    fn grow(&mut self) -> Result<(), AllocError>
        ensures items { self.new.items.items ≡ self.old.items.items }
        ensures room { OnOk result (vec_len self.new.items < vec_capacity self.new.items) }
    {
        let len = self.items.len();
        if self.spare.capacity() <= len {
            return self.items.reserve_exact(len.max(3));
        }
        self.spare.clear();
        self.spare.append(&mut self.items)?;
        mem::swap(&mut self.items, &mut self.spare);
        self.spare.shrink_to_fit();
        Ok(())
    }

    /// Ends the list: cuts off the room that it does not need.
    #[inline(always)]
    pub(super) fn fit(&mut self) -> Result<(), AllocError>
        ensures { self.new.items.items ≡ self.old.items.items }
    {
        let len = self.items.len();
        self.first = if len > 2 && len == self.last { len } else { 1 };
        self.last = len;
        if len == self.items.capacity() {
            return Ok(());
        }
        self.cut()
    }

    /// Cuts off the room of a list that has more than it needs. Its memory becomes the spare one if it is copied.
    #[inline(never)]
    fn cut(&mut self) -> Result<(), AllocError>
        ensures { self.new.items.items ≡ self.old.items.items }
    {
        if self.items.len() > COPIED {
            self.items.shrink_to_fit();
            return Ok(());
        }
        let copy = self.items.split_off(0)?;
        let left = mem::replace(&mut self.items, copy);
        if self.spare.capacity() < left.capacity() {
            self.spare = left;
        }
        Ok(())
    }
}
