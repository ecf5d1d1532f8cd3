//! The iterators over the arguments of a node, and of its children named `-`.
#![tactic(auto, using(crate::proofs::Rules::document_args))]

ghost use Rattle.kdl.specs.DocumentLookups.{arguments_of, dash_arguments, dash_arguments_of, node_named};
ghost use Rattle.kdl.specs.Iterators.{child_nodes};
ghost use Rattle.kdl.specs.Said.{said_args, said_dash_args};
ghost use Rattle.kdl.specs.Tree.{document_says};
ghost use Rattle.kdl_value.specs.Tree.{value_tree};
ghost use Rattle.std.specs.Iterator.{UpTo, at_most};
ghost use Rattle.std.specs.Iterator.SizeHint.{IsWithinCount};
ghost use Rattle.std.specs.Map.Iter.{TakesFirst};
ghost use Rattle.std.specs.Prelude.{◌≡◌, IfSome, IsSome, length};
ghost use Rattle.std.specs.Slice.Iter.{iter_rest};
ghost use Rattle.std.specs.Str.{chars};

use crate::document::KdlDocument;
use crate::document::lookup::is_named;
use crate::node::KdlNode;
use kdl_entry::KdlValue;
use kdl_parts::NodeKey;
use kdl_parts::iter::{ArgsIter, args_iter};
use std::marker::Model;
use std::slice;

impl KdlDocument {
    /// Returns an iterator over the values of the arguments of the first node of that name, in order. It is empty if
    /// there is no such node.
    ///
    /// ```
    /// let document = KdlDocument::parse(alloc, "ports 80 tls=#true 443")?;
    /// for port in document.iter_args("ports") {
    ///     let number = port.as_integer(); // 80, then 443
    /// }
    /// ```
    pub fn iter_args(&self, name: &str) -> ArgsIter<'_>
        ensures value { result ≡ arguments_of (node_named name.now self.now) }
        ensures said { result ≡ said_args (chars name.now) (document_says self.now) }
    {
        match self.get(name) {
            Some(node) => args_iter(node.entries()),
            None => args_iter(&[]),
        }
    }

    /// Returns an iterator over the values of the first arguments of the children named `-` of the first node of that
    /// name, in order. A child without arguments is skipped. The iterator is empty if there is no such node.
    ///
    /// ```
    /// let document = KdlDocument::parse(alloc, "list { - 1; - 2 3; other 4; - }")?;
    /// for value in document.iter_dash_args("list") {
    ///     let number = value.as_integer(); // 1, then 2
    /// }
    /// ```
    pub fn iter_dash_args(&self, name: &str) -> DashArgsIter<'_>
        ensures value { result ≡ dash_arguments_of (node_named name.now self.now) }
        ensures said { result ≡ said_dash_args (chars name.now) (document_says self.now) }
    {
        match self.get(name) {
            Some(node) => DashArgsIter {
                nodes: children(node).iter(),
            },
            None => DashArgsIter { nodes: [].iter() },
        }
    }
}

/// The children of a node, or none without a child block.
fn children(node: &KdlNode) -> &[KdlNode]
    ensures { result.now ≡ child_nodes node.now }
{
    match node.children() {
        Some(children) => children.nodes(),
        None => &[],
    }
}

/// The value of the first argument of the next node that is named `-` and has one.
fn next_dash_argument<'a>(nodes: &mut slice::Iter<'a, KdlNode>) -> Option<&'a KdlValue>
    ensures { TakesFirst (λ v. value_tree v.now) (dash_arguments (iter_rest nodes.old)) result
        (dash_arguments (iter_rest nodes.new)) }
{
    while let Some(node) = nodes.next() {
        if is_named(node, "-") {
            if let Some(value) = node.get(NodeKey::Index(0)) {
                return Some(value);
            }
        }
    }
    None
}

/// An iterator over the values of the first arguments of a node's children named `-`, in order.
#[derive(Drop)]
pub struct DashArgsIter<'a> {
    nodes: slice::Iter<'a, KdlNode>,
}

impl<'a> Model for DashArgsIter<'a> {
    ghost use Rattle.kdl.specs.DocumentLookups.{dash_arguments};
    ghost use Rattle.kdl_value.specs.Data.{Value as Data};
    ghost use Rattle.std.specs.Prelude.{List};
    ghost use Rattle.std.specs.Slice.Iter.{iter_rest};

    ghost Value = { List Data };

    ghost view = { λ a. dash_arguments (iter_rest a.nodes) };
}

impl<'a> Iterator for DashArgsIter<'a> {
    type Item = &'a KdlValue;

    ghost next_gives = { TakesFirst (λ v. value_tree v.now) };

    ghost remaining = { λ s. at_most (length s) };

    fn next(&mut self) -> Option<&'a KdlValue> {
        next_dash_argument(&mut self.nodes)
    }

    /// From 0 up to the number of children that are left.
    fn size_hint(&self) -> (usize, Option<usize>)
        ensures lower { IsWithinCount result.0 (at_most (length self.now)) }
        ensures upper { IfSome result.1 (UpTo (at_most (length self.now))) }
        ensures bounded { IsSome result.1 }
    {
        (0, Some(self.nodes.len()))
    }
}
