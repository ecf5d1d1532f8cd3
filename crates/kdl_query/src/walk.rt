//! One walk over the nodes of a document, in its order.

ghost use Rattle.kdl.specs.Tree.{document_says, node_says};
ghost use Rattle.kdl.specs.declared.document.KdlDocument.{KdlDocument};
ghost use Rattle.kdl_query.specs.Counts.{part_count};
ghost use Rattle.kdl_query.specs.Held.{held_at};
ghost use Rattle.kdl_query.specs.Internal.Parts.{ends, part_says};
ghost use Rattle.kdl_query.specs.Internal.Turns.{Keeps, unkept};
ghost use Rattle.kdl_query.specs.Internal.Visits.{IsOver, Passes, all_visits, came_to, copies, inside_last, last_parts, level_at, level_due, level_left, level_says, level_steps_left, levels_of, next_parts, path_of, steps_left, steps_of, walk_due, walk_left};
ghost use Rattle.kdl_query.specs.Selects.{Path};
ghost use Rattle.kdl_query.specs.Tree.{query_says};
ghost use Rattle.kdl_query.specs.Turns.{turned};
ghost use Rattle.kdl_text.specs.Spans.{raise};
ghost use Rattle.std.specs.Option.{option_map_or};
ghost use Rattle.std.specs.Prelude.{◌≡◌, ◌++◌, ◌∷◌, [], ◌<◌, ◌≤◌, IfOk, IsSome, MatchOption, OnOk, Some, drop, false, length, map, min, option_map, slice_get, suc, take, ◌-◌};

use crate::find::Turn;
use crate::part::{Part, enter, has_block, parts_of, visit};
use crate::tree::Query;
use kdl::{KdlDocument, KdlNode};
use std::alloc::{AllocError, Global};

/// The nodes of a block that the walk is in.
#[derive(Drop)]
struct Level<'a, 'q> {
    nodes: &'a [KdlNode],
    /// The index of the next node.
    next: usize,
    /// The index of the node that was visited last.
    current: usize,
    parts: Vec<Part<'q>>,
}

/// A walk over a document: the blocks that it is in, the outermost one first.
#[derive(Drop)]
pub(crate) struct Walk<'a, 'q> {
    levels: Vec<Level<'a, 'q>>,
    /// The lists of blocks that it has left, to be used again.
    spare: Vec<Vec<Part<'q>>>,
    /// How many of the outermost indices are as they were at the last turn.
    kept: usize,
    /// The steps that it took: a look at each node for each part, a copy of each part for each block, and a copy of each
    /// index of a path.
    pub(crate) steps: u64,
}

/// A node that the walk came to, and whether the query selects it.
#[derive(Drop)]
pub(crate) struct Visit<'a> {
    pub(crate) node: &'a KdlNode,
    pub(crate) is_selected: bool,
}

impl<'a, 'q> Level<'a, 'q> {
    /// Before the first of the nodes.
    fn new(nodes: &'a [KdlNode], parts: Vec<Part<'q>>) -> Level<'a, 'q>
        ensures says { level_says result ≡ record {
          nodes = map node_says nodes.entry.now;
          next = 0;
          current = 0;
          parts = map part_says parts.entry.items;
        } }
        ensures nodes { result.nodes.now ≡ nodes.entry.now }
    {
        Level {
            nodes,
            next: 0,
            current: 0,
            parts,
        }
    }

    /// The next node, if there is one.
    fn next_node(&self) -> Option<&'a KdlNode>
        ensures node { option_map (λ n. node_says n.now) result
            ≡ slice_get (level_says self.now).nodes self.now.next }
        ensures value { option_map (λ n. n.now) result ≡ slice_get self.now.nodes.now self.now.next }
        ensures bound { IsSome result → self.now.next < length self.now.nodes.now }
    {
        self.nodes.get(self.next)
    }

    /// Goes on to the next node, which is this one, and returns whether a selector ends there. Counts a look for each part.
    fn visit(&mut self, node: &KdlNode, count: &mut u64) -> bool
        requires { self.old.next < length self.old.nodes.now }
        ensures level { level_says self.new ≡ record {
          nodes = (level_says self.old).nodes;
          next = suc self.old.next;
          current = self.old.next;
          parts = next_parts (node_says node.now) (level_says self.old).parts;
        } }
        ensures kept { self.new.nodes ≡ self.old.nodes }
        ensures ends { result ≡ ends (node_says node.now) false (level_says self.old).parts }
        ensures counted { raise count.new 0 ≡ raise count.old (length (level_says self.old).parts) }
    {
        self.current = self.next;
        self.next += 1;
        *count = count.saturating_add(self.parts.len() as u64);
        visit(self.parts.as_mut_slice(), node)
    }

    /// Goes on to the next node that is selected or has a block, or to the end of the nodes. Counts a look at each node for
    /// each part.
    fn advance(&mut self, count: &mut u64) -> Option<Visit<'a>>
        ensures due { (q : Path) → MatchOption result (Passes (level_due q (level_says self.old)) []) (λ v.
            Passes (level_due q (level_says self.old)) (level_at q v (level_says self.new) ∷ level_left q v (level_says self.new))) }
        ensures kept { self.new.nodes ≡ self.old.nodes }
        ensures node { MatchOption result (Unit {0}) (λ v.
            slice_get self.new.nodes.now self.new.current ≡ Some v.node.now) }
        ensures counted { (q : Path) → raise count.new (option_map_or (λ v. level_steps_left q v (level_says self.new)) result 0)
            ≡ raise count.old (steps_of (level_due q (level_says self.old))) }
    {
        while let Some(node) = self.next_node() {
            let is_selected = self.visit(node, count);
            if is_selected || has_block(node) {
                return Some(Visit { node, is_selected });
            }
        }
        None
    }
}

/// The index of the node that was visited last in each level after some of the outermost ones.
fn indices(alloc: Global, levels: &[Level<'_, '_>], after: usize) -> Result<Vec<usize>, AllocError>
    ensures { IfOk result (λ p. p.items ≡ map (λ l. l.current) (drop after levels.now)) }
{
    match levels.get(after..) {
        Some(rest) => rest.iter().map(|level| level.current).collect(alloc),
        None => Ok(Vec::new(alloc)),
    }
}

impl<'a, 'q> Walk<'a, 'q> {
    /// Begins a walk.
    pub(crate) fn new(
        alloc: Global,
        document: &'a KdlDocument,
        query: &'q Query,
    ) -> Result<Walk<'a, 'q>, AllocError>
        ensures due { IfOk result (λ w.
            walk_due w ≡ all_visits (query_says query.now) (document_says document.now)) }
        ensures over { IfOk result (IsOver document.now) }
        ensures kept { IfOk result (λ w. Keeps [] w × (unkept w ≡ 0)) }
        ensures counted { IfOk result (λ w. w.steps ≡ part_count (query_says query.now)) }
    {
        let mut levels = Vec::new(alloc);
        let parts = parts_of(alloc, query)?;
        let steps = parts.len() as u64;
        levels.push(Level::new(document.nodes(), parts))?;
        Ok(Walk {
            levels,
            spare: Vec::new(alloc),
            kept: 0,
            steps,
        })
    }

    /// Goes on to the next node that is selected or has a block, or returns `None` if there is none. The nodes in its block
    /// come next once it is entered.
    pub(crate) fn visit(&mut self) -> Result<Option<Visit<'a>>, AllocError>
        ensures due { IfOk result (λ o. MatchOption o (Passes (walk_due self.old) []) (λ v.
            Passes (walk_due self.old) (came_to v self.new ∷ walk_left v self.new))) }
        ensures over { IfOk result (λ o. (d : KdlDocument) → IsOver d self.old → IsOver d self.new) }
        ensures held { IfOk result (λ o. (d : KdlDocument) → IsOver d self.old → MatchOption o (Unit {0}) (λ v.
            held_at (path_of (levels_of self.new)) d ≡ Some v.node.now)) }
        ensures counted { IfOk result (λ o. raise self.new.steps (option_map_or (λ v. steps_left v self.new) o 0)
            ≡ raise self.old.steps (steps_of (walk_due self.old))) }
        ensures kept { IfOk result (λ o. (p : Path) → Keeps p self.old → Keeps p self.new) }
        ensures unkept { IfOk result (λ o. IsSome o
            → length self.new.levels.items - self.new.kept ≤ suc (unkept self.old)) }
    {
        while let Some(level) = self.levels.last_mut() {
            if let Some(visit) = level.advance(&mut self.steps) {
                self.kept = self.kept.min(self.levels.len() - 1);
                return Ok(Some(visit));
            }
            self.leave()?;
        }
        Ok(None)
    }

    /// Leaves the innermost block.
    fn leave(&mut self) -> Result<(), AllocError>
        ensures levels { OnOk result (self.new.levels.items
            ≡ take (length self.old.levels.items - 1) self.old.levels.items) }
        ensures kept { OnOk result (self.new.kept ≡ min self.old.kept (length self.new.levels.items)) }
        ensures counted { OnOk result (self.new.steps ≡ self.old.steps) }
    {
        if let Some(Level { parts, .. }) = self.levels.pop() {
            self.spare.push(parts)?;
        }
        self.kept = self.kept.min(self.levels.len());
        Ok(())
    }

    /// Enters the block of the node that was visited last.
    pub(crate) fn enter(&mut self, alloc: Global, node: &'a KdlNode) -> Result<(), AllocError>
        ensures due { OnOk result (walk_due self.new
            ≡ inside_last (levels_of self.old) (node_says node.entry.now) ++ walk_due self.old) }
        ensures over { OnOk result ((d : KdlDocument) → IsOver d self.old
            → held_at (path_of (levels_of self.old)) d ≡ Some node.entry.now → IsOver d self.new) }
        ensures kept { OnOk result ((p : Path) → Keeps p self.old → Keeps p self.new) }
        ensures unkept { OnOk result (unkept self.new ≤ length self.old.levels.items - self.old.kept) }
        ensures counted { OnOk result (raise self.new.steps 0
            ≡ raise self.old.steps (copies (length (last_parts (levels_of self.old))) (node_says node.entry.now))) }
    {
        let Some(block) = node.children() else {
            return Ok(());
        };
        let Some(level) = self.levels.last() else {
            return Ok(());
        };
        let mut parts = self.spare.pop().unwrap_or(Vec::new(alloc));
        enter(&mut parts, &level.parts)?;
        self.steps = self.steps.saturating_add(parts.len() as u64);
        self.levels.push(Level::new(block.nodes(), parts))?;
        Ok(())
    }

    /// The path of the node that was visited last, before its block is entered.
    pub(crate) fn path(&mut self, alloc: Global) -> Result<Vec<usize>, AllocError>
        ensures path { IfOk result (λ p. p.items ≡ path_of (levels_of self.old)) }
        ensures levels { self.new.levels ≡ self.old.levels }
        ensures counted { IfOk result (λ p. raise self.new.steps 0 ≡ raise self.old.steps (length p.items)) }
    {
        let path = indices(alloc, &self.levels, 0)?;
        self.steps = self.steps.saturating_add(path.len() as u64);
        Ok(path)
    }

    /// The turn to the path of the node that was visited last, before its block is entered, from that of the last turn.
    pub(crate) fn turn(&mut self, alloc: Global) -> Result<Turn, AllocError>
        ensures turned { IfOk result (λ t. (p : Path) → Keeps p self.old → turned p t ≡ path_of (levels_of self.old)) }
        ensures short { IfOk result (λ t. length t.rest.items ≡ length self.old.levels.items - self.old.kept) }
        ensures levels { self.new.levels ≡ self.old.levels }
        ensures kept { OnOk result (self.new.kept ≡ length self.old.levels.items) }
    {
        let rest = indices(alloc, &self.levels, self.kept)?;
        let kept = self.kept;
        self.kept = self.levels.len();
        Ok(Turn { kept, rest })
    }
}
