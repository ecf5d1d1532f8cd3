//! Entries and nodes that are made for a value.

ghost use Rattle.kdl.specs.Words.{EntryReadsBack, NodeReadsBack, entry_data, entry_tree, node_says, value_tree};
ghost use Rattle.c_calls.specs.Entries.{IsValueText};
ghost use Rattle.kdl_path.specs.Edits.{new_node, node_with_child, node_with_entry};
ghost use Rattle.kdl_path.specs.Failures.{is_first};
ghost use Rattle.kdl_path.specs.Internal.Located.{makes_new};
ghost use Rattle.kdl_path.specs.Internal.Made.{IsNewEntry, IsNewNode, IsNullEntry};
ghost use Rattle.kdl_path.specs.declared.failure.EditFailure.TheVariants.{Memory};
ghost use Rattle.kdl_value.specs.Tree.{text_of};
ghost use Rattle.std.specs.List.{list_all};
ghost use Rattle.std.specs.Prelude.{◌≡◌, ◌∷◌, ◌++◌, [], IfErr, IfOk};

use crate::change::{push_child, push_entry, set_spelled};
use crate::failure::EditFailure;
use crate::laid::laid;
use crate::layout::line_at;
use crate::locate::{is_next_entry, is_next_node};
use crate::path::{Step, Target};
use crate::value::Spelled;
use kdl::{KdlEntry, KdlIdentifier, KdlNode, KdlNodeFormat, KdlValue};
use std::alloc::{AllocError, Global};

/// Returns the entry that the target names, with the value.
pub(crate) fn new_entry(
    alloc: Global,
    target: &Target,
    value: Spelled,
) -> Result<KdlEntry, AllocError>
    ensures { IfOk result (λ e. IsValueText (text_of value.spelling) (value_tree value.value)
        → IsNewEntry target.now (value_tree value.value) e) }
{
    let mut entry = null_entry(alloc, target)?;
    set_spelled(alloc, &mut entry, value)?;
    Ok(entry)
}

/// Returns the entry that the target names, with the value `#null` and no format.
fn null_entry(alloc: Global, target: &Target) -> Result<KdlEntry, AllocError>
    ensures { IfOk result (λ e. IsNullEntry target.now e) }
{
    match target {
        Target::Property(name) => {
            let name = KdlIdentifier::from_text(alloc, name)?;
            Ok(KdlEntry::new_prop(name, KdlValue::Null))
        }
        Target::Node => Ok(KdlEntry::new(KdlValue::Null)),
        Target::Argument(_) => Ok(KdlEntry::new(KdlValue::Null)),
    }
}

/// Whether the node of the first step, which is missing, can be made after the nodes: it is the next one of its name,
/// and the other steps and the target name the first ones in it.
pub(crate) fn is_next(nodes: &[KdlNode], steps: &[Step], target: &Target) -> bool
    ensures { result ≡ makes_new steps.now target.now nodes.now }
{
    let Some((first, below)) = steps.split_first() else {
        return false;
    };
    if !is_next_node(nodes, first) {
        return false;
    }
    if !are_first(below) {
        return false;
    }
    is_next_entry(&[], target)
}

/// Whether each step names the first node of its name.
fn are_first(steps: &[Step]) -> bool
    ensures { result ≡ list_all is_first steps.now }
{
    for step in steps {
        if step.index.unwrap_or(0) != 0 {
            return false;
        }
    }
    true
}

/// Returns the node of the first step, which is at that depth, with a node for each other step in its block. The entry is
/// in the node of the last step, which is given apart from those above it.
pub(crate) fn new_node(
    alloc: Global,
    above: &[Step],
    last: &Step,
    entry: KdlEntry,
    depth: usize,
) -> Result<KdlNode, EditFailure>
    ensures made { IfOk result (λ n. EntryReadsBack entry
        → IsNewNode [] (above.now ++ last.now ∷ []) (node_with_entry (entry_data (entry_tree entry))) n) }
    ensures memory { IfErr result (λ e. e ≡ Memory) }
{
    let mut node = with_entry(alloc, last, entry)?;
    let mut left = above;
    'steps: while let Some((step, rest)) = left.split_last() {
        node = with_child(alloc, step, node, depth.saturating_add(left.len()))?;
        left = rest;
    }
    Ok(node)
}

/// Returns a node of the name of the step, with the entry.
fn with_entry(alloc: Global, step: &Step, entry: KdlEntry) -> Result<KdlNode, EditFailure>
    ensures says { IfOk result (λ n. node_says n
        ≡ node_with_entry (entry_data (entry_tree entry)) (new_node step.now)) }
    ensures reads { IfOk result (λ n. EntryReadsBack entry → NodeReadsBack n) }
    ensures memory { IfErr result (λ e. e ≡ Memory) }
{
    let mut node = new_named(alloc, step)?;
    push_entry(&mut node, entry)?;
    Ok(node)
}

/// Returns a node of the name of the step, with the child, which is at that depth, on a line of its own in its block.
fn with_child(
    alloc: Global,
    step: &Step,
    child: KdlNode,
    depth: usize,
) -> Result<KdlNode, EditFailure>
    ensures says { IfOk result (λ n.
        node_says n ≡ node_with_child (node_says child) (new_node step.now)) }
    ensures reads { IfOk result (λ n. NodeReadsBack child → NodeReadsBack n) }
    ensures memory { IfErr result (λ e. e ≡ Memory) }
{
    let mut node = new_named(alloc, step)?;
    let child = laid(alloc, child, line_at(depth))?;
    push_child(alloc, &mut node, child)?;
    Ok(node)
}

/// Returns a node of the name of the step, with empty texts around its parts.
fn new_named(alloc: Global, step: &Step) -> Result<KdlNode, AllocError>
    ensures says { IfOk result (λ n. node_says n ≡ new_node step.now) }
    ensures reads { IfOk result (λ n. NodeReadsBack n) }
{
    let mut node = KdlNode::new(KdlIdentifier::from_text(alloc, &step.name)?)?;
    let format = KdlNodeFormat::new(alloc);
    node.set_format(format);
    Ok(node)
}
