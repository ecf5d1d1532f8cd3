//! Nodes by their paths.
#![tactic(auto, using(crate::proofs::Holds::found_says))]

ghost use Rattle.kdl.specs.Iterators.{child_nodes};
ghost use Rattle.kdl.specs.Tree.{document_says, node_says};
ghost use Rattle.kdl_query.specs.Held.{held_at, held_below};
ghost use Rattle.kdl_query.specs.Selects.{node_at};
ghost use Rattle.std.specs.Prelude.{◌≡◌, option_map, slice_get};

use kdl::{KdlDocument, KdlNode};

/// Returns the node at a path, if there is one. A path is the index of a top-level node, then that of a node in its block,
/// and so on. There is no node at the empty path.
pub fn node_at<'a>(document: &'a KdlDocument, path: &[usize]) -> Option<&'a KdlNode>
    ensures value { option_map (λ n. n.now) result ≡ held_at path.now document.entry.now }
    ensures said { option_map (λ n. node_says n.now) result
        ≡ node_at path.now (document_says document.entry.now) }
{
    let Some((index, below)) = path.split_first() else {
        return None;
    };
    match nth(document.nodes(), *index) {
        Some(node) => node_below(node, below),
        None => None,
    }
}

/// Returns the node at a path that begins in the block of the node. The empty path is that of the node itself.
fn node_below<'a>(node: &'a KdlNode, path: &[usize]) -> Option<&'a KdlNode>
    ensures { option_map (λ n. n.now) result ≡ held_below path.now node.entry.now }
{
    let mut node = node;
    let mut rest = path;
    while let Some((index, below)) = rest.split_first() {
        match child_at(node, *index) {
            Some(child) => node = child,
            None => return None,
        }
        rest = below;
    }
    Some(node)
}

/// Returns the node at that place in the block of the node, if there is one.
fn child_at(node: &KdlNode, index: usize) -> Option<&KdlNode>
    ensures { option_map (λ n. n.now) result ≡ slice_get (child_nodes node.now) index }
{
    match node.children() {
        Some(block) => nth(block.nodes(), index),
        None => None,
    }
}

/// Returns the node at that place, if there is one.
fn nth(nodes: &[KdlNode], index: usize) -> Option<&KdlNode>
    ensures { option_map (λ n. n.now) result ≡ slice_get nodes.now index }
{
    nodes.get(index)
}
