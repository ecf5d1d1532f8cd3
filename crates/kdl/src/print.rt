//! How nodes are printed: with a stack on the heap and without recursion, however deep their blocks are.
#![tactic(auto, using(kdl_parts::proofs::Utf8Parts::writes))]

ghost use Rattle.kdl.specs.Internal.Left.{Prints, closing, front, line, opening};
ghost use Rattle.kdl.specs.Tree.{nodes_tree};
ghost use Rattle.kdl_grammar.specs.Print.{print_nodes};

use crate::document::KdlDocument;
use crate::node::KdlNode;
use kdl_parts::print::{
    write_before_block, write_block_end, write_block_start, write_end, write_head, write_pieces,
};
use std::alloc::Global;
use std::fmt;

/// An open block: its node, its document, and the nodes after that node.
#[derive(Clone, Copy)]
pub(crate) struct NodeFrame<'a> {
    pub node: &'a KdlNode,
    pub block: &'a KdlDocument,
    pub following: &'a [KdlNode],
}

/// Writes a node at the given depth, up to its last entry.
fn write_front<W: fmt::Write>(
    node: &KdlNode,
    depth: usize,
    f: &mut fmt::Formatter<W>,
) -> fmt::Result
    ensures { Prints W.write_str_gives f.old result (front node.now depth) f.new }
{
    write_head(&node.ty, &node.name, &node.format, depth, f)?;
    write_pieces(&node.entries, f)
}

/// Writes a node without children, at the given depth.
fn write_line<W: fmt::Write>(node: &KdlNode, depth: usize, f: &mut fmt::Formatter<W>) -> fmt::Result
    ensures { Prints W.write_str_gives f.old result (line node.now depth) f.new }
{
    write_front(node, depth, f)?;
    write_end(&node.format, f)
}

/// Writes a node at the given depth up to the first node in its block.
fn write_opening<W: fmt::Write>(
    node: &KdlNode,
    block: &KdlDocument,
    depth: usize,
    f: &mut fmt::Formatter<W>,
) -> fmt::Result
    ensures { Prints W.write_str_gives f.old result (opening node.now block.now depth) f.new }
{
    write_front(node, depth, f)?;
    write_before_block(&node.format, &node.entries, f)?;
    write_block_start(&block.format, f)
}

/// Writes what follows the last node in a block: the rest of the block, and the end of its node, which is at the given
/// depth.
fn write_closing<W: fmt::Write>(
    node: &KdlNode,
    block: &KdlDocument,
    depth: usize,
    f: &mut fmt::Formatter<W>,
) -> fmt::Result
    ensures { Prints W.write_str_gives f.old result (closing node.now block.now depth) f.new }
{
    write_block_end(&block.format, depth, f)?;
    write_end(&node.format, f)
}

/// Writes nodes one after another, at depth 0. The open blocks are kept on the heap; if an allocation fails, writing
/// fails.
pub(crate) fn write_nodes<W: fmt::Write>(
    alloc: Global,
    nodes: &[KdlNode],
    f: &mut fmt::Formatter<W>,
) -> fmt::Result
    ensures { Prints W.write_str_gives f.old result (print_nodes (nodes_tree nodes.now) 0) f.new }
{
    let mut above: Vec<NodeFrame> = Vec::new(alloc);
    let mut rest = nodes;
    'left: loop {
        if let Some((node, following)) = rest.split_first() {
            if let Some(block) = node.children() {
                write_opening(node, block, above.len(), f)?;
                if above
                    .push(NodeFrame {
                        node,
                        block,
                        following,
                    })
                    .is_err()
                {
                    return Err(fmt::Error);
                }
                rest = block.nodes();
            } else {
                write_line(node, above.len(), f)?;
                rest = following;
            }
        } else {
            let Some(open) = above.pop() else {
                return Ok(());
            };
            write_closing(open.node, open.block, above.len(), f)?;
            rest = open.following;
        }
    }
}
