//! The iterators over the entries and the children of a node.
#![tactic(auto, using(crate::proofs::Rules::node_iter))]

ghost use Rattle.kdl.specs.Change.{children_row};
ghost use Rattle.kdl.specs.Fields.{block_of};
ghost use Rattle.kdl.specs.Iterators.{block_left, block_name, child_nodes, nodes_in, nodes_left, with_written_block, with_written_entries};
ghost use Rattle.kdl.specs.Lookups.{entries_of};
ghost use Rattle.kdl.specs.Said.{said_child_nodes, said_entries};
ghost use Rattle.kdl.specs.Tree.{node_says};
ghost use Rattle.kdl.specs.contracts.node.KdlNode.{the_row as node_row};
ghost use Rattle.kdl_entry.specs.Tree.{entry_data, entry_tree};
ghost use Rattle.kdl_parts.specs.Iterators.{entries_left, entries_name};
ghost use Rattle.std.specs.Borrow.{Array, follows, sem};
ghost use Rattle.std.specs.Iterator.{UpTo, at_most};
ghost use Rattle.std.specs.Iterator.SizeHint.{IsWithinCount};
ghost use Rattle.std.specs.Map.Iter.{TakesFirst};
ghost use Rattle.std.specs.Prelude.{◌≡◌, [], ◌∷◌, IfSome, Some, length, map};
ghost use Rattle.std.specs.Slice.Iter.{iter_mut_rest};

use crate::document::KdlDocument;
use crate::node::KdlNode;
use kdl_parts::iter::{EntryIter, EntryIterMut, entry_iter, entry_iter_mut};
use std::marker::Model;
use std::{fmt, slice};

impl KdlNode {
    ghost use Rattle.kdl_entry.specs.contracts.entry.KdlEntry.{the_row as entry_row};

    /// Returns an iterator over the entries, arguments and properties, in order.
    ///
    /// ```
    /// let node = KdlNode::parse(alloc, "a 1 b=2")?;
    /// for entry in node.iter() {
    ///     let value = entry.value(); // 1, then 2
    /// }
    /// ```
    pub fn iter(&self) -> EntryIter<'_>
        ensures value { result ≡ entries_of self.now }
        ensures said { map (λ e. entry_data (entry_tree e)) result ≡
            said_entries (node_says self.now) }
    {
        entry_iter(&self.entries)
    }

    /// Returns a mutable iterator over the entries, in order.
    ///
    /// ```
    /// let mut node = KdlNode::parse(alloc, "a 0x1 0x2")?;
    /// for entry in node.iter_mut() {
    ///     entry.clear_format(); // prints "a 1 2"
    /// }
    /// ```
    pub fn iter_mut(&mut self) -> EntryIterMut<'_>
        ensures* writes_back { sem 𝓛 (follows node_row (Array entry_row 0) self.entry.ghost_name
            (entries_name result) (with_written_entries self.old)) }
        ensures left { entries_left result ≡ entries_of self.old }
    {
        entry_iter_mut(&mut self.entries)
    }

    /// Returns an iterator over the children, in order. It is empty without a child block.
    ///
    /// ```
    /// let node = KdlNode::parse(alloc, "a { b; c; }")?;
    /// for child in node.iter_children() {
    ///     let name = child.name().value(); // "b", then "c"
    /// }
    /// ```
    pub fn iter_children(&self) -> ChildrenIter<'_>
        ensures value { result ≡ child_nodes self.now }
        ensures said { map node_says result ≡ said_child_nodes (node_says self.now) }
    {
        match &self.children {
            Some(children) => ChildrenIter(Some(children.nodes().iter())),
            None => ChildrenIter(None),
        }
    }

    /// Returns a mutable iterator over the children, in order. It is empty without a child block. All else of the node
    /// is unchanged.
    ///
    /// ```
    /// let mut node = KdlNode::parse(alloc, "a { b 1; c 2; }")?;
    /// for child in node.iter_children_mut() {
    ///     child.clear(); // prints "a { b; c; }"
    /// }
    /// ```
    pub fn iter_children_mut(&mut self) -> ChildrenIterMut<'_>
        ensures* writes_back { sem 𝓛 (follows node_row (Array children_row 0) self.entry.ghost_name
            (block_name result) (with_written_block self.old)) }
        ensures block { block_left result ≡ block_of self.old ∷ [] }
        ensures left { nodes_left result ≡ child_nodes self.old }
    {
        ChildrenIterMut {
            block: slice::from_mut(&mut self.children).iter_mut(),
            nodes: None,
        }
    }
}

/// Returns a mutable iterator over the nodes of a child block, in order. It is empty without a block.
fn lent_nodes(children: &mut Option<KdlDocument>) -> slice::IterMut<'_, KdlNode>
    ensures { iter_mut_rest result ≡ nodes_in children.old }
{
    match children {
        Some(children) => children.nodes_mut().iter_mut(),
        None => [].iter_mut(),
    }
}

/// An iterator over the children of a node, in order.
#[derive(Debug, Drop)]
pub struct ChildrenIter<'a>(Option<slice::Iter<'a, KdlNode>>);

impl<'a> Model for ChildrenIter<'a> {
    ghost use Rattle.std.specs.Prelude.{List, [], option_map, unwrap_or};
    ghost use Rattle.std.specs.Slice.Iter.{iter_rest};
    ghost use Rattle.std.specs.Coded.{codes};
    ghost use Rattle.kdl.specs.contracts.node.KdlNode as node;
    ghost use Rattle.kdl.specs.declared.node.KdlNode.{KdlNode};

    ghost Value = { List KdlNode };

    ghost coded = { Prim.hlevel (codes, node.the_row.coded) };

    ghost view = { λ a. unwrap_or (option_map iter_rest a.0) [] };
}

impl<'a> Iterator for ChildrenIter<'a> {
    ghost use Rattle.std.specs.Map.Iter.{TakesFirst, deref};

    type Item = &'a KdlNode;

    ghost next_gives = { TakesFirst deref };

    ghost remaining = { λ s. at_most (length s) };

    fn next(&mut self) -> Option<&'a KdlNode> {
        self.0.as_mut()?.next()
    }

    /// The exact number of children that are left.
    fn size_hint(&self) -> (usize, Option<usize>)
        ensures lower { IsWithinCount result.0 (at_most (length self.now)) }
        ensures upper { IfSome result.1 (UpTo (at_most (length self.now))) }
        ensures value { result ≡ (length self.now, Some (length self.now)) }
    {
        let left = match &self.0 {
            Some(nodes) => nodes.len(),
            None => 0,
        };
        (left, Some(left))
    }
}

/// A mutable iterator over the children of a node, in order.
///
/// The iterator borrows the node's child block, and the first call of `next` enters it. So the contract of
/// `iter_children_mut` can say that all else of the node is unchanged.
#[derive(Drop)]
pub struct ChildrenIterMut<'a> {
    /// The block as a list of one, until it is entered.
    block: slice::IterMut<'a, Option<KdlDocument>>,
    /// The children that are left, once the block is entered.
    nodes: Option<slice::IterMut<'a, KdlNode>>,
}

impl ChildrenIterMut<'_> {
    /// The children that are left.
    fn left(&self) -> &[KdlNode]
        ensures { result.now ≡ nodes_left self.now }
    {
        match &self.nodes {
            Some(nodes) => nodes.as_slice(),
            None => match self.block.as_slice().first() {
                Some(Some(children)) => children.nodes(),
                _ => &[],
            },
        }
    }
}

/// Shows the children that are left.
impl fmt::Debug for ChildrenIterMut<'_> {
    fn fmt<W: fmt::Write>(&self, f: &mut fmt::Formatter<W>) -> fmt::Result {
        f.debug_tuple("ChildrenIterMut")
            .field(&self.left())
            .finish()
    }
}

impl<'a> Iterator for ChildrenIterMut<'a> {
    type Item = &'a mut KdlNode;

    ghost next_gives = { λ s r t. TakesFirst (λ n. n.now) (nodes_left s) r (nodes_left t) };

    ghost remaining = { λ s. at_most (length (nodes_left s)) };

    fn next(&mut self) -> Option<&'a mut KdlNode> {
        if self.nodes.is_none() {
            let block = self.block.next()?;
            self.nodes = Some(lent_nodes(block));
        }
        self.nodes.as_mut()?.next()
    }

    /// The exact number of children that are left.
    fn size_hint(&self) -> (usize, Option<usize>)
        ensures lower { IsWithinCount result.0 (at_most (length (nodes_left self.now))) }
        ensures upper { IfSome result.1 (UpTo (at_most (length (nodes_left self.now)))) }
        ensures value { result ≡
            (length (nodes_left self.now), Some (length (nodes_left self.now))) }
    {
        let left = self.left().len();
        (left, Some(left))
    }
}
