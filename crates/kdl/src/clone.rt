//! How nodes are copied: with a stack on the heap and without recursion, however deep their blocks are.

ghost use Rattle.kdl.specs.Internal.Copied.{closed};
ghost use Rattle.kdl.specs.Tree.{node_tree};
ghost use Rattle.std.specs.Prelude.{◌≡◌, map, IfOk};

use crate::document::KdlDocument;
use crate::node::KdlNode;
use crate::print::NodeFrame;
use std::alloc::{AllocError, Global};
use std::mem;

/// Returns the copies of the nodes before that of an open block, and that of its node, whose block has the nodes.
fn close(
    open: NodeFrame<'_>,
    mut before: Vec<KdlNode>,
    nodes: Vec<KdlNode>,
) -> Result<Vec<KdlNode>, AllocError>
    ensures { IfOk result (λ v. map node_tree v.items ≡
        closed (open.entry, before) (map node_tree nodes.items)) }
{
    let children = open.block.with_nodes(nodes)?;
    before.push(open.node.with_children(Some(children))?)?;
    Ok(before)
}

/// Returns copies of the nodes, in order. The open blocks, with the copies of the nodes before each, are kept on the
/// heap.
pub(crate) fn copy_nodes(alloc: Global, nodes: &[KdlNode]) -> Result<Vec<KdlNode>, AllocError>
    ensures { IfOk result (λ v. map node_tree v.items ≡ map node_tree nodes.now) }
{
    let mut above: Vec<(NodeFrame, Vec<KdlNode>)> = Vec::new(alloc);
    let mut made = Vec::with_capacity(alloc, nodes.len())?;
    let mut rest = nodes;
    'left: loop {
        if let Some((node, following)) = rest.split_first() {
            if let Some(block) = node.children() {
                let inner = Vec::with_capacity(alloc, block.nodes().len())?;
                let before = mem::replace(&mut made, inner);
                let open = NodeFrame {
                    node,
                    block,
                    following,
                };
                above.push((open, before))?;
                rest = block.nodes();
            } else {
                made.push(node.with_children(None)?)?;
                rest = following;
            }
        } else {
            let Some((open, before)) = above.pop() else {
                return Ok(made);
            };
            rest = open.following;
            made = close(open, before, made)?;
        }
    }
}
