//! The nodes that a query selects.

ghost use Rattle.kdl.specs.Tree.{document_says, node_says};
ghost use Rattle.kdl_query.specs.Counts.{block_count, node_count, part_count};
ghost use Rattle.kdl_query.specs.Held.{AreHeld};
ghost use Rattle.kdl_query.specs.Selects.{AreSelected, IsFirstSelected, IsSelected, IsSelection, Path};
ghost use Rattle.kdl_query.specs.Tree.{query_says};
ghost use Rattle.kdl_query.specs.Turns.{paths_from};
ghost use Rattle.kdl_text.specs.Spans.{raise};
ghost use Rattle.std.specs.Prelude.{◌≡◌, ◌+◌, ◌*◌, ◌≤◌, [], IfOk, MatchOption, OnErr, length, map, sum_by};

use crate::tree::Query;
use crate::walk::Walk;
use kdl::{KdlDocument, KdlNode};
use kdl_text::cursor::Steps;
use std::alloc::{AllocError, Global};

/// The step from one path that a query selects to the next one. The first step is from the empty path.
#[derive(Debug, Drop)]
pub struct Turn {
    /// How many indices the next path begins with alike.
    pub kept: usize,
    /// The indices of the next path after these.
    pub rest: Vec<usize>,
}

/// Returns the paths that `query_paths` returns, each by what it has beyond the one before it: together they have no more
/// indices than the document has nodes. Returns an error if an allocation fails.
pub fn query_turns(
    alloc: Global,
    document: &KdlDocument,
    query: &Query,
) -> Result<Vec<Turn>, AllocError>
    ensures selected { IfOk result (λ ts. IsSelection (document_says document.now)
        (query_says query.now) (paths_from [] ts.items)) }
    ensures short { IfOk result (λ ts. sum_by (λ t. length t.rest.items) ts.items
        ≤ node_count (document_says document.now)) }
{
    let mut turns = Vec::new(alloc);
    let mut walk = Walk::new(alloc, document, query)?;
    while let Some(visit) = walk.visit()? {
        if visit.is_selected {
            turns.push(walk.turn(alloc)?)?;
        }
        walk.enter(alloc, visit.node)?;
    }
    Ok(turns)
}

/// Returns the paths of the nodes that the query selects, in the order of the document: a path is the index of a
/// top-level node, then that of a node in its block, and so on. Returns an error if an allocation fails.
pub fn query_paths(
    alloc: Global,
    document: &KdlDocument,
    query: &Query,
) -> Result<Vec<Vec<usize>>, AllocError>
    ensures { IfOk result (λ ps. IsSelection (document_says document.now) (query_says query.now)
        (map (λ p. p.items) ps.items)) }
{
    query_paths_counted(alloc, document, query, &mut Steps::new())
}

/// Returns the paths as `query_paths` does, and adds the steps to the count, which saturates at `u64::MAX`. A step is one
/// look at a node for one part of the query, which is `top()` or a test of a node, one part in the list of a block, or one
/// index in a path: each node is looked at once for each part, and each block, the document too, has a list of all parts. A
/// node is tested only where the result depends on it. If an allocation fails, the count is as it was.
///
/// ```
/// let mut steps = Steps::new();
/// let paths = query_paths_counted(alloc, &document, &query, &mut steps)?;
/// let taken = steps.count(); // 20 for `a { b; c; d; }` and `a > b + c`: 3 parts for 4 nodes and 2 blocks, and a path of 2
/// ```
pub fn query_paths_counted(
    alloc: Global,
    document: &KdlDocument,
    query: &Query,
    steps: &mut Steps,
) -> Result<Vec<Vec<usize>>, AllocError>
    ensures selected { IfOk result (λ ps. IsSelection (document_says document.now)
        (query_says query.now) (map (λ p. p.items) ps.items)) }
    ensures counted { IfOk result (λ ps. steps.new ≡ raise steps.old (part_count (query_says query.now)
        * (node_count (document_says document.now) + block_count (document_says document.now))
        + sum_by (λ p. length p.items) ps.items)) }
    ensures kept { OnErr result (steps.new ≡ steps.old) }
{
    let mut found = Vec::new(alloc);
    let mut walk = Walk::new(alloc, document, query)?;
    while let Some(visit) = walk.visit()? {
        if visit.is_selected {
            found.push(walk.path(alloc)?)?;
        }
        walk.enter(alloc, visit.node)?;
    }
    *steps = Steps::from(steps.count().saturating_add(walk.steps));
    Ok(found)
}

/// Returns the nodes that the query selects, in the order of the document, or an error if an allocation fails. Takes less
/// memory than their paths.
pub fn query_all<'a>(
    alloc: Global,
    document: &'a KdlDocument,
    query: &Query,
) -> Result<Vec<&'a KdlNode>, AllocError>
    ensures held { IfOk result (λ ns. AreHeld document.entry.now (query_says query.now)
        (map (λ n. n.now) ns.items)) }
    ensures selected { IfOk result (λ ns. AreSelected (document_says document.entry.now)
        (query_says query.now) (map (λ n. node_says n.now) ns.items)) }
{
    let mut found = Vec::new(alloc);
    let mut walk = Walk::new(alloc, document, query)?;
    while let Some(visit) = walk.visit()? {
        if visit.is_selected {
            found.push(visit.node)?;
        }
        walk.enter(alloc, visit.node)?;
    }
    Ok(found)
}

/// Returns the first node that the query selects, in the order of the document, or `None` if it selects none. Returns an
/// error if an allocation fails.
pub fn query<'a>(
    alloc: Global,
    document: &'a KdlDocument,
    query: &Query,
) -> Result<Option<&'a KdlNode>, AllocError>
    ensures { IfOk result (λ o. MatchOption o
        ((p : Path) → ¬ IsSelected (document_says document.entry.now) (query_says query.now) p)
        (λ n. IsFirstSelected (document_says document.entry.now) (query_says query.now)
        (node_says n.now))) }
{
    let mut walk = Walk::new(alloc, document, query)?;
    while let Some(visit) = walk.visit()? {
        if visit.is_selected {
            return Ok(Some(visit.node));
        }
        walk.enter(alloc, visit.node)?;
    }
    Ok(None)
}
