//! Look-ups of nodes by their name.

ghost use Rattle.kdl.specs.Words.{argument_named, is_node_named};
ghost use Rattle.std.specs.Prelude.{◌≡◌, None, Some, option_map, position};

use crate::status::{NOT_FOUND, OK};
use kdl::{KdlDocument, KdlEntry, KdlNode, NodeKey};

/// Returns whether the node has that name.
fn is_named(node: &KdlNode, name: &str) -> bool
    ensures { result ≡ is_node_named name.now node.now }
{
    node.name().value() == name
}

/// Returns the index of the first node with that name.
pub fn first_named(nodes: &[KdlNode], name: &str) -> Option<usize>
    ensures { result ≡ position (is_node_named name.now) nodes.now }
{
    nodes.iter().position(|node| is_named(node, name))
}

/// Returns the first argument of the first node with that name.
pub fn first_argument<'a>(document: &'a KdlDocument, name: &str) -> Option<&'a KdlEntry>
    ensures { option_map (λ e. e.now) result ≡ argument_named name.now document.now }
{
    match document.get(name) {
        Some(node) => node.entry(NodeKey::Index(0)),
        None => None,
    }
}

/// Writes the index that was found and returns `OK`, or returns `NOT_FOUND` if there is none.
pub fn put_index(found: Option<usize>, index: &mut usize) -> u32
    ensures found { result ≡ 0 → found ≡ Some index.new }
    ensures missing { result ≡ 6 → found ≡ None }
    ensures either { (result ≡ 0 → ⊥) → result ≡ 6 }
{
    match found {
        None => NOT_FOUND,
        Some(at) => {
            *index = at;
            OK
        }
    }
}
