//! How a document is dropped: one node at a time, without recursion, however deep its blocks are.

ghost use Rattle.kdl.specs.Internal.Count.{count_nodes, count_option};
ghost use Rattle.std.specs.Prelude.{◌≡◌, ◌+◌, ◌<◌, vec_len};

use crate::document::KdlDocument;
use crate::node::KdlNode;
use std::mem;

/// Replaces the children of the last node, and returns the old ones.
fn exchange_last(nodes: &mut Vec<KdlNode>, children: Option<KdlDocument>) -> Option<KdlDocument>
    requires { 0 < vec_len nodes.old }
    ensures kept { count_nodes nodes.new.items + count_option result ≡
        count_nodes nodes.old.items + count_option children }
    ensures less { count_option result < count_nodes nodes.old.items }
{
    let last = nodes.len() - 1;
    nodes[last].exchange_children(children)
}

/// The number of dropped nodes after which a long list gives memory back.
const BATCH: usize = 256;

/// The least capacity of a long list.
const LONG: usize = 64;

/// Gives back the memory in which a long list has no nodes any more, if a batch of nodes was dropped since the last time.
/// Returns the number of nodes dropped since then, and one.
///
/// When a large block is freed, malloc joins the small blocks that were freed before it. This is faster while they are few
/// and in the cache.
fn give_back(nodes: &mut Vec<KdlNode>, dropped: usize) -> usize
    ensures { nodes.new.items ≡ nodes.old.items }
{
    if dropped < BATCH || nodes.capacity() < LONG || nodes.is_empty() {
        return dropped.saturating_add(1);
    }
    nodes.shrink_to_fit();
    1
}

/// Drops nodes, one at a time. While the children of a node are dropped, the node holds the nodes above it in their
/// place.
pub(crate) fn dismantle(mut nodes: Vec<KdlNode>) {
    let mut up: Option<KdlDocument> = None;
    let mut dropped = 0usize;
    loop {
        if nodes.is_empty() {
            let Some(parent) = up else {
                return nodes.destroy_empty();
            };
            mem::replace(&mut nodes, parent.into_nodes()).destroy_empty();
        } else if let Some(child) = exchange_last(&mut nodes, up) {
            let above = mem::replace(&mut nodes, child.into_nodes());
            up = Some(KdlDocument::bare(above));
            continue;
        }
        let Some(node) = nodes.pop() else {
            return nodes.destroy_empty();
        };
        up = node.into_children();
        dropped = give_back(&mut nodes, dropped);
    }
}
