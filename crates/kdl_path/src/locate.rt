//! The node that the steps of a PATH lead to, and the entry that its target names.

ghost use Rattle.kdl.specs.Words.{child_nodes, document_says, entries_of, is_argument, is_node_named, nodes_of, said_nodes};
ghost use Rattle.kdl_parts.specs.EntryLists.{nth_place};
ghost use Rattle.kdl_path.specs.Internal.Failing.{MissesIf};
ghost use Rattle.kdl_path.specs.Failures.{is_next, makes_at};
ghost use Rattle.kdl_path.specs.Internal.Located.{IsNowhere, Leads, Loses, Stops, makes_named, makes_there, place_of_step, place_of_target};
ghost use Rattle.kdl_path.specs.Paths.{node_at};
ghost use Rattle.kdl_path.specs.declared.locate.Lost.TheVariants.{Memory};
ghost use Rattle.kdl_path.specs.declared.path.Target.{Target};
ghost use Rattle.kdl_path.specs.declared.path.Target.TheVariants.{Node};
ghost use Rattle.std.specs.Prelude.{◌≡◌, IfErr, IfOk, MatchBool, None};

use crate::failure::{EditFailure, Missing};
use crate::nearest::Nearest;
use crate::path::{Path, Step, Target};
use c_calls::entries::last_property;
use kdl::{KdlDocument, KdlEntry, KdlNode};
use std::alloc::{AllocError, AllocFailed, Global};

/// A node, and the indices that lead to it.
#[derive(Drop)]
pub struct Located<'a> {
    /// The node.
    pub node: &'a KdlNode,
    /// The index of a node in the document, then that of a node in the block of that one, and so on.
    pub indices: Vec<usize>,
}

/// Why a node was not located.
#[derive(Drop)]
pub(crate) enum Lost<'a> {
    /// The steps are none.
    Document,
    /// None of these nodes is the one of the step after those of the indices.
    Step(Vec<usize>, &'a [KdlNode]),
    /// An allocation failed.
    Memory,
}

impl<'a, T: Drop> From<AllocFailed<T>> for Lost<'a> {
    ghost from_gives = { λ _ e. e ≡ Memory };

    fn from(_error: AllocFailed<T>) -> Lost<'a> {
        Lost::Memory
    }
}

/// The index of the node of that name that is at `number` among the nodes of that name.
fn nth_named(nodes: &[KdlNode], name: &str, number: usize) -> Option<usize>
    ensures { result ≡ nth_place (is_node_named name.now) nodes.now number }
{
    let mut left = number;
    for (i, node) in nodes.iter().enumerate() {
        if is_named(node, name) {
            if left == 0 {
                return Some(i);
            }
            left -= 1;
        }
    }
    None
}

/// Whether the node has that name.
pub(crate) fn is_named(node: &KdlNode, name: &str) -> bool
    ensures { result ≡ is_node_named name.now node.now }
{
    node.name().value() == name
}

/// The nodes in the block of a node.
pub(crate) fn child_nodes(node: &KdlNode) -> &[KdlNode]
    ensures { result.now ≡ child_nodes node.now }
{
    match node.children() {
        Some(block) => block.nodes(),
        None => &[],
    }
}

/// The index of the node that a step names.
pub(crate) fn step_index(nodes: &[KdlNode], step: &Step) -> Option<usize>
    ensures { result ≡ place_of_step step.now nodes.now }
{
    let number = step.index.unwrap_or(0);
    nth_named(nodes, &step.name, number)
}

/// Whether the node of the step, which is missing, can be made: its index is 0, or the one before it has a node.
pub(crate) fn is_next_node(nodes: &[KdlNode], step: &Step) -> bool
    ensures { result ≡ makes_named step.now nodes.now }
{
    let number = step.index.unwrap_or(0);
    if number == 0 {
        return true;
    }
    nth_named(nodes, &step.name, number - 1).is_some()
}

/// Locates the node at the end of the steps.
pub(crate) fn locate<'a>(
    alloc: Global,
    document: &'a KdlDocument,
    steps: &[Step],
) -> Result<Located<'a>, Lost<'a>>
    ensures leads { IfOk result (λ l.
        Leads steps.now l.indices.items (nodes_of document.now) None l.node.now) }
    ensures nowhere { IfErr result (λ e. IsNowhere e
        → node_at steps.now (said_nodes (document_says document.now)) ≡ None) }
    ensures makes { IfOk result (λ l. (t : Target)
        → makes_at steps.now t (said_nodes (document_says document.now))
        ≡ makes_there t (entries_of l.node.now)) }
    ensures loses { IfErr result (Loses steps.now (document_says document.now)) }
    ensures stops { IfErr result (Stops steps.now (nodes_of document.now)) }
{
    let mut nodes = document.nodes();
    let mut located = None;
    let mut indices = Vec::new(alloc);
    for step in steps {
        let Some(index) = step_index(nodes, step) else {
            return Err(Lost::Step(indices, nodes));
        };
        let Some(node) = nodes.get(index) else {
            return Err(Lost::Step(indices, nodes));
        };
        indices.push(index)?;
        located = Some(node);
        nodes = child_nodes(node);
    }
    match located {
        Some(node) => Ok(Located { node, indices }),
        None => Err(Lost::Document),
    }
}

/// The place of the argument that is at `number` among the arguments.
fn nth_argument(entries: &[KdlEntry], number: usize) -> Option<usize>
    ensures { result ≡ nth_place is_argument entries.now number }
{
    let mut left = number;
    for (i, entry) in entries.iter().enumerate() {
        if entry.name().is_none() {
            if left == 0 {
                return Some(i);
            }
            left -= 1;
        }
    }
    None
}

/// The place of the entry that a target names.
pub(crate) fn entry_place(entries: &[KdlEntry], target: &Target) -> Option<usize>
    ensures { result ≡ place_of_target target.now entries.now }
{
    match target {
        Target::Node => nth_argument(entries, 0),
        Target::Argument(number) => nth_argument(entries, *number),
        Target::Property(name) => last_property(entries, name),
    }
}

/// Whether the entry of the target, which is missing, can be made: it is the next argument, or a property.
pub(crate) fn is_next_entry(entries: &[KdlEntry], target: &Target) -> bool
    ensures { result ≡ makes_there target.now entries.now }
{
    match target {
        Target::Argument(number) => is_next_argument(entries, *number),
        _ => true,
    }
}

/// Whether the number of an argument, which is missing, is 0 or follows one that is there.
fn is_next_argument(entries: &[KdlEntry], number: usize) -> bool
    ensures { result ≡ is_next number (nth_place is_argument entries.now) }
{
    if number == 0 {
        return true;
    }
    nth_argument(entries, number - 1).is_some()
}

/// Whether the target is the node itself.
pub(crate) fn is_node(target: &Target) -> bool
    ensures { MatchBool result (target.now ≡ Node) (target.now ≡ Node → ⊥) }
{
    match target {
        Target::Node => true,
        _ => false,
    }
}

/// The failure for a node that was not located.
pub(crate) fn lost_failure<'a>(alloc: Global, lost: Lost<'a>, path: &Path) -> EditFailure
    ensures { MissesIf (IsNowhere lost.entry) result }
{
    let missing = match lost {
        Lost::Document => missing_node(alloc, &[], path, 0),
        Lost::Step(indices, nodes) => missing_node(alloc, nodes, path, indices.len()),
        Lost::Memory => return EditFailure::Memory,
    };
    match missing {
        Ok(missing) => EditFailure::Missing(missing),
        Err(_) => EditFailure::Memory,
    }
}

/// Why there is no node at the end of the steps.
pub(crate) fn missing_node(
    alloc: Global,
    nodes: &[KdlNode],
    path: &Path,
    number: usize,
) -> Result<Missing, AllocError> {
    let Some(step) = path.steps.get(number) else {
        return Ok(Missing::Document);
    };
    let count = nodes
        .iter()
        .filter(|node| is_named(*node, &step.name))
        .count();
    let name = step.name.clone()?;
    if let Some(index) = step.index {
        if count > 0 {
            return Ok(Missing::Index {
                step: number,
                name,
                index,
                count,
            });
        }
    }
    let mut nearest = Nearest::to(&step.name);
    for node in nodes {
        nearest.offer(alloc, node.name().value())?;
    }
    Ok(Missing::Node {
        step: number,
        name,
        nearest: nearest.into_name(alloc)?,
    })
}

/// Why the target names no entry of the node.
pub(crate) fn missing_entry(
    alloc: Global,
    node: &KdlNode,
    target: &Target,
) -> Result<Missing, AllocError> {
    let index = match target {
        Target::Node => 0,
        Target::Argument(index) => *index,
        Target::Property(name) => return missing_property(alloc, node, name),
    };
    Ok(Missing::Argument {
        index,
        count: node.argument_count(),
    })
}

/// Why the node has no property of that name.
fn missing_property(alloc: Global, node: &KdlNode, name: &str) -> Result<Missing, AllocError> {
    let mut nearest = Nearest::to(name);
    for entry in node.entries() {
        if let Some(key) = entry.name() {
            nearest.offer(alloc, key.value())?;
        }
    }
    Ok(Missing::Property {
        name: String::from_str(alloc, name)?,
        nearest: nearest.into_name(alloc)?,
    })
}
