//! The blocks that a path goes through, with the ranks of their nodes, and the texts of its steps.

ghost use Rattle.kdl.specs.Words.{NodeData, node_says, said_name};
ghost use Rattle.std.specs.Prelude.{◌≡◌, ◌<◌, ◌≤◌, ℕ, List, [], ◌∷◌, ◌++◌, IfOk, OnOk, Some, get_or, length, map, slice_get};
ghost use Rattle.cli_shown.specs.Internal.Trail.{AreFirst, AreRanks, AreRanksAlong, IsAt, IsTrail, step_texts, trail_ranks, trail_steps};
ghost use Rattle.cli_shown.specs.Names.{index_bytes, name_bytes};
ghost use Rattle.kdl_query.specs.Selects.{Path};

use crate::names::step_text;
use kdl::KdlNode;
use std::alloc::{AllocError, Global};
use std::collections::BTreeMap;

/// The ranks of the nodes in blocks that a path goes through, the outermost one first, and the texts of its first steps. The
/// rank of a node is how many nodes of its name are before it in its block.
#[derive(Drop)]
pub(crate) struct Trail {
    blocks: Vec<Vec<usize>>,
    steps: Vec<String>,
}

impl Trail {
    /// Before any block.
    pub(crate) fn new(alloc: Global) -> Trail
        ensures { (p : Path) (xs : List NodeData) → IsTrail result p xs }
    {
        Trail {
            blocks: Vec::new(alloc),
            steps: Vec::new(alloc),
        }
    }

    /// Keeps these first steps, and the blocks that all paths with them go through.
    pub(crate) fn turn(&mut self, kept: &[usize])
        ensures { (p q : Path) (xs : List NodeData)
            → IsTrail self.old (kept.now ++ p) xs → IsTrail self.new (kept.now ++ q) xs }
    {
        self.blocks.truncate(kept.len() + 1);
        self.steps.truncate(kept.len());
    }

    /// Makes the ranks in the block at a depth of a path known. The block has these nodes.
    pub(crate) fn reach(
        &mut self,
        alloc: Global,
        depth: usize,
        nodes: &[KdlNode],
    ) -> Result<(), AllocError>
        ensures at { OnOk result ((index : ℕ) (below whole : Path) (top : List NodeData)
            → IsAt (trail_ranks self.old) depth (index ∷ below) (map node_says nodes.now) whole top
            → IsAt (trail_ranks self.new) depth (index ∷ below) (map node_says nodes.now) whole top) }
        ensures known { OnOk result (depth ≤ length (trail_ranks self.old) → depth < length (trail_ranks self.new)) }
        ensures steps { OnOk result (trail_steps self.new ≡ trail_steps self.old) }
    {
        if depth == self.blocks.len() {
            self.blocks.push(ranks(alloc, nodes)?)?;
        }
        Ok(())
    }

    /// Makes the text of the step at a depth of a path known. The step goes to this node, at an index in its block.
    pub(crate) fn reach_step(
        &mut self,
        alloc: Global,
        depth: usize,
        index: usize,
        node: &KdlNode,
    ) -> Result<(), AllocError>
        ensures first { OnOk result ((all : List (List ℕ)) → slice_get all depth ≡ Some (name_bytes (said_name (node_says node.now))
            ++ index_bytes (get_or (get_or (trail_ranks self.old) depth []) index 0))
            → AreFirst (trail_steps self.old) all → AreFirst (trail_steps self.new) all) }
        ensures known { OnOk result (depth ≤ length (trail_steps self.old) → depth < length (trail_steps self.new)) }
        ensures ranks { OnOk result (trail_ranks self.new ≡ trail_ranks self.old) }
    {
        if depth == self.steps.len() {
            let text = step_text(alloc, node, self.rank(depth, index))?;
            self.steps.push(text)?;
        }
        Ok(())
    }

    /// Returns the text of the step at a depth, if it is known, or an empty text.
    pub(crate) fn step(&self, depth: usize) -> &str
        ensures { result.now ≡ get_or (trail_steps self.now) depth [] }
    {
        match self.steps.get(depth) {
            Some(text) => text,
            None => "",
        }
    }

    /// Returns the rank of the node at an index in the block at a depth, if it is known, or 0.
    fn rank(&self, depth: usize, index: usize) -> usize
        ensures { result ≡ get_or (get_or (trail_ranks self.now) depth []) index 0 }
    {
        match self.blocks.get(depth) {
            Some(block) => block.get(index).copied().unwrap_or(0),
            None => 0,
        }
    }
}

/// Returns the ranks of the nodes of a block.
pub(crate) fn ranks(alloc: Global, nodes: &[KdlNode]) -> Result<Vec<usize>, AllocError>
    ensures { IfOk result (λ r. AreRanks r.items (map node_says nodes.now)) }
{
    let mut counts: BTreeMap<&str, usize> = BTreeMap::new(alloc);
    let mut ranks = Vec::new(alloc);
    for node in nodes {
        let name = node.name().value();
        let rank = counts.get(&name).copied().unwrap_or(0);
        ranks.push(rank)?;
        counts.insert(name, rank + 1)?;
    }
    Ok(ranks)
}

/// What ranks are not: the first node of a block has rank 0, a path without steps goes through one block and has no text,
/// and no depth is below the ranks that are known.
pub(crate) fn ranks_are_not_so()
    ensures first { (n : NodeData) → AreRanks (1 ∷ []) (n ∷ []) → ⊥ }
    ensures missing { (n : NodeData) → AreRanks [] (n ∷ []) → ⊥ }
    ensures along { (p : Path) (n : NodeData) → AreRanksAlong ((1 ∷ []) ∷ []) p (n ∷ []) → ⊥ }
    ensures longer { (xs : List NodeData) → AreRanksAlong ([] ∷ [] ∷ []) [] xs → ⊥ }
    ensures text { (xs : List NodeData) → AreFirst ([] ∷ []) (step_texts [] xs) → ⊥ }
    ensures deeper { (p whole : Path) (xs top : List NodeData) → IsAt [] 1 p xs whole top → ⊥ }
{}
