//! Look-ups of nodes by their path: the index of a node in the document, then the index of a node in the block of that
//! one, and so on.

ghost use Rattle.kdl.specs.Words.{nodes_of};
ghost use Rattle.c_calls.specs.Paths.{node_at, nodes_at};
ghost use Rattle.std.specs.Prelude.{◌≡◌, option_map};

use kdl::{KdlDocument, KdlNode};

/// Returns the nodes in the block of the node at the path, or the nodes of the document if the path is empty. Returns
/// `None` if there is no node at the path, or if that node has no block.
pub fn nodes_at<'a>(document: &'a KdlDocument, path: &[usize]) -> Option<&'a [KdlNode]>
    ensures { option_map (λ ns. ns.now) result ≡ nodes_at path.now (nodes_of document.now) }
{
    let mut nodes = document.nodes();
    for index in path {
        let Some(node) = nodes.get(*index) else {
            return None;
        };
        let Some(block) = node.children() else {
            return None;
        };
        nodes = block.nodes();
    }
    Some(nodes)
}

/// Returns the node at the path, or `None` if there is none. There is no node at the empty path.
pub fn node_at<'a>(document: &'a KdlDocument, path: &[usize]) -> Option<&'a KdlNode>
    ensures { option_map (λ n. n.now) result ≡ node_at path.now (nodes_of document.now) }
{
    let Some((last, above)) = path.split_last() else {
        return None;
    };
    let Some(nodes) = nodes_at(document, above) else {
        return None;
    };
    let Some(node) = nodes.get(*last) else {
        return None;
    };
    Some(node)
}
