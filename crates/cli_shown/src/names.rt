//! The PATH of a node.

ghost use Rattle.cli_shown.specs.Names.{begins_with_at, index_bytes, name_bytes, path_bytes, separator};
ghost use Rattle.cli_shown.specs.Internal.Trail.{IsTrail};
ghost use Rattle.kdl.specs.Words.{document_says, node_says, said_child_nodes, said_name, said_nodes};
ghost use Rattle.std.specs.Prelude.{◌≡◌, ◌∷◌, ◌++◌, [], if◌then◌else◌, IfOk, OnOk, chars, map, option_map, slice_get, string_bytes};

use crate::trail::Trail;
use itoa::Buffer;
use kdl::{KdlDocument, KdlIdentifier, KdlNode};
use std::alloc::{AllocError, Global};

/// Appends a line with the PATH of the node at the path of a trail.
pub(crate) fn push_path(
    alloc: Global,
    out: &mut String,
    document: &KdlDocument,
    trail: &mut Trail,
    path: &[usize],
) -> Result<(), AllocError>
    requires { IsTrail trail.old path.now (said_nodes (document_says document.now)) }
    ensures line { OnOk result (string_bytes out.new
        ≡ string_bytes out.old ++ path_bytes path.now (said_nodes (document_says document.now)) ++ 10 ∷ []) }
    ensures trail { OnOk result (IsTrail trail.new path.now (said_nodes (document_says document.now))) }
{
    push_steps(alloc, out, document.nodes(), trail, path)?;
    out.push('\n')
}

/// Appends the PATH of the node at the path, which begins among these nodes.
fn push_steps(
    alloc: Global,
    out: &mut String,
    nodes: &[KdlNode],
    trail: &mut Trail,
    path: &[usize],
) -> Result<(), AllocError>
    requires { IsTrail trail.old path.now (map node_says nodes.now) }
    ensures path { OnOk result (string_bytes out.new
        ≡ string_bytes out.old ++ path_bytes path.now (map node_says nodes.now)) }
    ensures trail { OnOk result (IsTrail trail.new path.now (map node_says nodes.now)) }
{
    let mut nodes = nodes;
    let mut rest = path;
    let mut depth = 0usize;
    while let Some((index, below)) = rest.split_first() {
        let Some(node) = nth(nodes, *index) else {
            return Ok(());
        };
        trail.reach(alloc, depth, nodes)?;
        trail.reach_step(alloc, depth, *index, node)?;
        out.push_str(trail.step(depth))?;
        push_separator(out, below)?;
        nodes = inside(node);
        rest = below;
        depth += 1;
    }
    Ok(())
}

/// Returns the node at that place, if there is one.
fn nth(nodes: &[KdlNode], index: usize) -> Option<&KdlNode>
    ensures { option_map (λ n. n.now) result ≡ slice_get nodes.now index }
{
    nodes.get(index)
}

/// Returns the nodes in the block of a node.
fn inside(node: &KdlNode) -> &[KdlNode]
    ensures { map node_says result.now ≡ said_child_nodes (node_says node.now) }
{
    match node.children() {
        Some(block) => block.nodes(),
        None => &[],
    }
}

/// Appends `/`, if the path goes on.
fn push_separator(out: &mut String, path: &[usize]) -> Result<(), AllocError>
    ensures { OnOk result (string_bytes out.new ≡ string_bytes out.old ++ separator path.now) }
{
    if path.is_empty() {
        Ok(())
    } else {
        out.push('/')
    }
}

/// Returns the text of the step to a node: its name, and its rank.
pub(crate) fn step_text(alloc: Global, node: &KdlNode, rank: usize) -> Result<String, AllocError>
    ensures { IfOk result (λ s. string_bytes s ≡ name_bytes (said_name (node_says node.now)) ++ index_bytes rank) }
{
    let mut text = String::new(alloc);
    push_name(alloc, &mut text, node.name().value())?;
    push_index(&mut text, rank)?;
    Ok(text)
}

/// Appends an index between brackets, or nothing for 0.
fn push_index(out: &mut String, index: usize) -> Result<(), AllocError>
    ensures { OnOk result (string_bytes out.new ≡ string_bytes out.old ++ index_bytes index) }
{
    if index == 0 {
        return Ok(());
    }
    let mut buffer = Buffer::new();
    out.push('[')?;
    out.push_str(buffer.format(index))?;
    out.push(']')
}

/// Appends a name as it is printed, between quotes if it begins with `@`: no bare string has another character of PATHs.
fn push_name(alloc: Global, out: &mut String, name: &str) -> Result<(), AllocError>
    ensures { OnOk result (string_bytes out.new ≡ string_bytes out.old ++ name_bytes (chars name.now)) }
{
    let printed = KdlIdentifier::from_text(alloc, name)?.to_string(alloc)?;
    push_quoted(out, &printed, begins_with_at(&printed))
}

/// Whether the text begins with `@`.
fn begins_with_at(text: &str) -> bool
    ensures { result ≡ begins_with_at text.now }
{
    match text.as_bytes().first() {
        Some(first) => *first == b'@',
        None => false,
    }
}

/// Appends a text, between quotes if that is said.
fn push_quoted(out: &mut String, text: &str, is_quoted: bool) -> Result<(), AllocError>
    ensures { OnOk result (string_bytes out.new
        ≡ string_bytes out.old ++ (if is_quoted then 34 ∷ text.now ++ 34 ∷ [] else text.now)) }
{
    if !is_quoted {
        return out.push_str(text);
    }
    out.push('"')?;
    out.push_str(text)?;
    out.push('"')
}
