//! How nodes are laid out: with a stack on the heap and without recursion, however deep their blocks are.

ghost use Rattle.kdl.specs.Internal.Spacing.{NodesAreSpaced, GoesOn, IsUnderWay, StayAs, StepStays, whole, with_formats};
ghost use Rattle.kdl.specs.Tree.{node_tree, nodes_tree};
ghost use Rattle.kdl_layout.specs.Config.{IndentsBySpaces, indentation, settings};
ghost use Rattle.kdl_layout.specs.Formatted.{bare_node};
ghost use Rattle.kdl_layout.specs.OneLine.{nodes_on_line};
ghost use Rattle.kdl_layout.specs.Plain.{newline_if};
ghost use Rattle.kdl_layout.specs.Spaced.{PassesNodes};
ghost use Rattle.kdl_layout.specs.declared.blank.Before.{Before};
ghost use Rattle.kdl_layout.specs.declared.config.Layout.{Layout};
ghost use Rattle.kdl.specs.declared.layout.LayoutFrame.{LayoutFrame};
ghost use Rattle.kdl_layout.specs.Formatted.{newline_if_none};
ghost use Rattle.kdl_grammar.specs.Tree.{Node};
ghost use Rattle.kdl_parts.specs.Formats.{node_format_tree};
ghost use Rattle.kdl_value.specs.Tree.{text_of};
ghost use Rattle.std.specs.Prelude.{◌≡◌, ◌+◌, ◌<◌, ◌≤◌, ◌++◌, ◌∷◌, [], ℕ, IfOk, List, OnOk, is_none, map, unwrap_or, vec_len, vec_capacity};

use crate::node::KdlNode;
use kdl_layout::layout::{further, indentation};
use kdl_layout::{Before, Layout};
use kdl_parts::{KdlDocumentFormat, KdlNodeFormat};
use std::alloc::AllocError;
use std::mem;

/// The texts that are set around the nodes of a block once they are laid out: those after its `{` and before its `}`,
/// and those around each node if the block stays on one line. Otherwise `line` is empty.
#[derive(Drop)]
pub(crate) struct Around {
    pub braces: KdlDocumentFormat,
    pub line: Vec<KdlNodeFormat>,
}

/// The nodes of a block that is being laid out: those before `at` are laid out. In a block above, the node at `at` is
/// laid out except for its own block, whose nodes are taken out: `around` are the texts around these, which are set when
/// they are laid out. `next` is what comes before the next node, which is not laid out.
#[derive(Drop)]
struct LayoutFrame {
    nodes: Vec<KdlNode>,
    at: usize,
    level: usize,
    before: String,
    next: Before,
    around: Option<Around>,
}

impl LayoutFrame {
    /// Returns the level of the next node's block, and the indentation there, and reserves room for one more block
    /// above.
    fn next_level(
        &self,
        above: &mut Vec<LayoutFrame>,
        layout: &Layout,
    ) -> Result<(usize, String), AllocError>
        ensures above { above.new.items ≡ above.old.items }
        ensures room { OnOk result (vec_len above.new < vec_capacity above.new) }
        ensures level { IfOk result (λ (l, _). l ≡ self.now.level + 1) }
        ensures before { IfOk result (λ (l, before). text_of self.now.before
            ≡ indentation (settings layout.now.config) self.now.level
            → text_of before ≡ indentation (settings layout.now.config) l) }
    {
        let Some(level) = self.level.checked_add(1) else {
            return Err(AllocError);
        };
        let alloc = *above.allocator();
        let before = further(alloc, &layout.config, self.before.as_str())?;
        above.reserve(1)?;
        Ok((level, before))
    }

    /// Lays out the next node, but not the nodes in its block. Those come next, or else what follows the node.
    fn lay_out_next(
        &mut self,
        above: &mut Vec<LayoutFrame>,
        layout: &Layout,
    ) -> Result<(), AllocError>
        requires { self.old.at < vec_len self.old.nodes }
        ensures stays { IndentsBySpaces (settings layout.now.config)
            → StepStays layout.now above.old.items self.old above.new.items self.new }
        ensures kept { map bare_node (whole above.new.items self.new) ≡
            map bare_node (whole above.old.items self.old) }
        ensures goes_on { OnOk result
            (GoesOn layout.now above.old.items self.old above.new.items self.new) }
    {
        let LayoutFrame {
            nodes,
            at,
            level,
            before,
            next,
            around,
        } = self;
        let node = &mut nodes[*at];
        let (following, first, texts) = node.lay_out_own(layout, *level, before.as_str(), *next)?;
        *next = following;
        if !node.has_nodes() {
            node.set_around(texts);
            *at += 1;
            return Ok(());
        }
        *around = texts;
        let (level, before) = self.next_level(above, layout)?;
        let alloc = *above.allocator();
        let at = self.at;
        let nodes = self.nodes[at].exchange_nodes(Vec::new(alloc));
        let block = LayoutFrame {
            nodes,
            at: 0,
            level,
            before,
            next: first,
            around: None,
        };
        let outer = mem::replace(self, block);
        above.push_reserved(outer);
        Ok(())
    }

    /// Puts the nodes of the block back into the node that it belongs to, and sets the texts around them. They are laid
    /// out, so the node is laid out as well. What follows it comes next.
    fn leave(&mut self, outer: LayoutFrame)
        ensures kept { (above : List LayoutFrame) → map bare_node (whole above self.new) ≡
            map bare_node (whole (above ++ outer ∷ []) self.old) }
        ensures goes_on { vec_len self.old.nodes ≤ self.old.at
            → (l : Layout) (above : List LayoutFrame)
            → GoesOn l (above ++ outer ∷ []) self.old above self.new }
        ensures stays { vec_len self.old.nodes ≤ self.old.at → (l : Layout)
            → IndentsBySpaces (settings l.config) → (above : List LayoutFrame)
            → StepStays l (above ++ outer ∷ []) self.old above self.new }
    {
        let done = mem::replace(self, outer);
        let at = self.at;
        let around = self.around.take();
        if let Some(node) = self.nodes.get_mut(at) {
            let _ = node.exchange_nodes(done.nodes);
            node.set_around(around);
            self.at = at + 1;
        }
    }

    /// Puts the nodes of the block back into the node that it belongs to, laid out or not. The texts around them do not
    /// change.
    fn close(&mut self, outer: LayoutFrame)
        ensures { (above : List LayoutFrame) → whole above self.new ≡
            whole (above ++ outer ∷ []) self.old }
    {
        let done = mem::replace(self, outer);
        let at = self.at;
        if let Some(node) = self.nodes.get_mut(at) {
            let _ = node.exchange_nodes(done.nodes);
        }
    }

    /// Lays out all that is left of the block, and of those above it.
    fn lay_out(&mut self, above: &mut Vec<LayoutFrame>, layout: &Layout) -> Result<(), AllocError>
        ensures stays { IndentsBySpaces (settings layout.now.config)
            → StepStays layout.now above.old.items self.old above.new.items self.new }
        ensures kept { map bare_node (whole above.new.items self.new) ≡
            map bare_node (whole above.old.items self.old) }
        ensures spaced { OnOk result ((level : ℕ) (c : Before) (olds : List Node)
            → IsUnderWay layout.now level c olds above.old.items self.old
            → (above.new.items ≡ [])
            × NodesAreSpaced layout.now level c olds (map node_tree self.new.nodes.items)) }
    {
        'steps: loop {
            if self.at < self.nodes.len() {
                self.lay_out_next(above, layout)?;
            } else if let Some(outer) = above.pop() {
                self.leave(outer);
            } else {
                return Ok(());
            }
        }
    }

    /// The outermost nodes, with all blocks in their places: this one, and those above it.
    fn into_nodes(mut self, mut above: Vec<LayoutFrame>) -> Vec<KdlNode>
        ensures { map node_tree result.items ≡ whole above.items self }
    {
        'closing: while let Some(outer) = above.pop() {
            self.close(outer);
        }
        let LayoutFrame {
            nodes,
            at: _,
            level: _,
            before: _,
            next: _,
            around: _,
        } = self;
        nodes
    }
}

/// Sets the formats of the nodes, in order. A node for which there is no format keeps its own.
pub(crate) fn set_formats(nodes: &mut Vec<KdlNode>, formats: Vec<KdlNodeFormat>)
    ensures { map node_tree nodes.new.items ≡
        with_formats (map node_format_tree formats.items) (map node_tree nodes.old.items) }
{
    let mut formats = formats.into_iter();
    for node in nodes.iter_mut() {
        let Some(format) = formats.next() else {
            return;
        };
        node.set_format(format);
    }
}

/// Returns whether each of the nodes can be printed on one line, and has no block.
pub(crate) fn nodes_on_line(nodes: &[KdlNode]) -> bool
    ensures { result ≡ nodes_on_line (nodes_tree nodes.now) }
{
    for (i, node) in nodes.iter().enumerate() {
        if !node.is_on_line(nodes.len() - i - 1) {
            return false;
        }
    }
    true
}

/// Returns what comes before the text after the nodes, which are not laid out, or `None` if there are no nodes.
pub(crate) fn before_trailing(
    nodes: &[KdlNode],
    layout: &Layout,
) -> Result<Option<Before>, AllocError>
    ensures end { IfOk result (λ o. newline_if (is_none o) ≡ newline_if_none (nodes_tree nodes.now)) }
    ensures passes { IfOk result (λ o. (b : Before)
        → PassesNodes layout.now.blank_lines (settings layout.now.config) b
        (nodes_tree nodes.now) (unwrap_or o b)) }
{
    match nodes.last() {
        Some(node) => Ok(Some(node.before_next(layout)?)),
        None => Ok(None),
    }
}

/// Lays out nodes at a level, the first one after what comes before it. The level does not matter if there are no
/// nodes. Returns an error if an allocation fails, or if a level would exceed `usize::MAX`. Each node is then in its
/// place, and some of them are laid out: they still read back.
pub(crate) fn lay_out_nodes(
    nodes: &mut Vec<KdlNode>,
    layout: &Layout,
    level: usize,
    first: Before,
) -> Result<(), AllocError>
    ensures kept { map bare_node (map node_tree nodes.new.items) ≡
        map bare_node (map node_tree nodes.old.items) }
    ensures stays { IndentsBySpaces (settings layout.now.config)
        → StayAs (settings layout.now.config)
        (map node_tree nodes.old.items) (map node_tree nodes.new.items) }
    ensures spaced { OnOk result (NodesAreSpaced layout.now level first
        (map node_tree nodes.old.items) (map node_tree nodes.new.items)) }
{
    if nodes.is_empty() {
        return Ok(());
    }
    let alloc = *nodes.allocator();
    let before = indentation(alloc, &layout.config, level)?;
    let mut above = Vec::new(alloc);
    let mut inner = LayoutFrame {
        nodes: mem::replace(nodes, Vec::new(alloc)),
        at: 0,
        level,
        before,
        next: first,
        around: None,
    };
    let outcome = inner.lay_out(&mut above, layout);
    *nodes = inner.into_nodes(above);
    outcome
}
