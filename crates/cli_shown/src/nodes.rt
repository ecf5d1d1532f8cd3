//! The nodes that a query selects, as a view shows them.

ghost use Rattle.cli_shown.specs.Nodes.{ShowsSelected, ended, ends_line, node_text, part_shown, shown, shown_at};
ghost use Rattle.cli_shown.specs.Internal.Trail.{IsTrail};
ghost use Rattle.cli_shown.specs.Values.{line_of};
ghost use Rattle.cli_shown.specs.declared.nodes.View.TheVariants.{Paths};
ghost use Rattle.kdl.specs.Words.{NodeData, document_says, node_prints, node_says, node_tree, said_argument, said_nodes};
ghost use Rattle.kdl_json.specs.Form.{node_json_text};
ghost use Rattle.kdl.specs.declared.document.KdlDocument.{KdlDocument};
ghost use Rattle.kdl_query.specs.Held.{held_at};
ghost use Rattle.kdl_query.specs.Selects.{Path};
ghost use Rattle.kdl_query.specs.Tree.{query_says};
ghost use Rattle.kdl_query.specs.Turns.{paths_from, turned};
ghost use Rattle.std.specs.List.{flat_map};
ghost use Rattle.std.specs.Option.{option_map_or};
ghost use Rattle.std.specs.Prelude.{◌≡◌, ◌∷◌, ◌++◌, [], IfOk, List, OnOk, Some, decimal, encode_utf8_all, map, string_bytes, true};

use crate::names::push_path;
use crate::trail::Trail;
use crate::values::push_value;
use itoa::Buffer;
use kdl::{KdlDocument, KdlNode, NodeKey};
use kdl_json::node_to_json;
use kdl_query::{Query, Turn, node_at, query_all, query_turns};
use std::alloc::{AllocError, Global};

/// What is shown of nodes.
#[derive(Clone, Copy)]
pub enum View {
    /// Each node as it is in the text, from its type or name to the end of its terminator, with a newline at the end.
    Text,
    /// The first argument of each node that has one, on a line: a string without quotes and escapes.
    Raw,
    /// The data of each node as JSON, on a line.
    Json,
    /// The number of nodes, on a line.
    Count,
    /// The PATH of each node, on a line.
    Paths,
}

/// Returns what a view shows of the nodes that the query selects, in the order of the document, and how many they are.
/// Returns an error if an allocation fails.
pub fn shown(
    alloc: Global,
    document: &KdlDocument,
    query: &Query,
    view: View,
) -> Result<(String, usize), AllocError>
    ensures { IfOk result (λ r. ShowsSelected view (query_says query.now) document.now
        (string_bytes r.0) r.1) }
{
    match view {
        View::Paths => shown_paths(alloc, document, query),
        _ => shown_nodes(alloc, document, query, view),
    }
}

/// Returns the PATHs of the nodes that the query selects, and how many they are.
fn shown_paths(
    alloc: Global,
    document: &KdlDocument,
    query: &Query,
) -> Result<(String, usize), AllocError>
    ensures { IfOk result (λ r. ShowsSelected Paths (query_says query.now) document.now
        (string_bytes r.0) r.1) }
{
    let turns = query_turns(alloc, document, query)?;
    Ok((path_lines(alloc, document, &turns)?, turns.len()))
}

/// Returns what a view other than `View::Paths` shows of the nodes that the query selects, and how many they are.
fn shown_nodes(
    alloc: Global,
    document: &KdlDocument,
    query: &Query,
    view: View,
) -> Result<(String, usize), AllocError>
    requires { view ≡ Paths → ⊥ }
    ensures { IfOk result (λ r. ShowsSelected view (query_says query.now) document.now
        (string_bytes r.0) r.1) }
{
    let nodes = query_all(alloc, document, query)?;
    Ok((shown_of(alloc, &nodes, view)?, nodes.len()))
}

/// Returns what a view other than `View::Paths` shows of these nodes.
fn shown_of(alloc: Global, nodes: &[&KdlNode], view: View) -> Result<String, AllocError>
    requires { view ≡ Paths → ⊥ }
    ensures { IfOk result (λ s. (d : KdlDocument) (ps : List Path)
        → map (λ p. held_at p d) ps ≡ map Some (map (λ n. n.now) nodes.now)
        → string_bytes s ≡ shown view d ps) }
{
    match view {
        View::Count => count_line(alloc, nodes.len()),
        _ => lines(alloc, nodes, view),
    }
}

/// Returns a line with a number.
fn count_line(alloc: Global, count: usize) -> Result<String, AllocError>
    ensures { IfOk result (λ s. string_bytes s ≡ decimal count ++ 10 ∷ []) }
{
    let mut buffer = Buffer::new();
    let mut line = String::from_str(alloc, buffer.format(count))?;
    line.push('\n')?;
    Ok(line)
}

/// Returns the lines with the PATHs of the nodes at the paths of these turns.
fn path_lines(alloc: Global, document: &KdlDocument, turns: &[Turn]) -> Result<String, AllocError>
    ensures { IfOk result (λ s. string_bytes s
        ≡ flat_map (shown_at Paths document.now) (paths_from [] turns.now)) }
{
    let mut out = String::new(alloc);
    let mut path = Vec::new(alloc);
    let mut trail = Trail::new(alloc);
    for turn in turns {
        take_turn(&mut path, &mut trail, turn)?;
        push_line(alloc, &mut out, document, &mut trail, &path)?;
    }
    Ok(out)
}

/// Goes on to the next path.
fn take_turn(path: &mut Vec<usize>, trail: &mut Trail, turn: &Turn) -> Result<(), AllocError>
    ensures path { OnOk result (path.new.items ≡ turned path.old.items turn.now) }
    ensures trail { OnOk result ((xs : List NodeData)
        → IsTrail trail.old path.old.items xs → IsTrail trail.new path.new.items xs) }
{
    path.truncate(turn.kept);
    trail.turn(path);
    path.extend_from_slice(&turn.rest)?;
    Ok(())
}

/// Appends a line with the PATH of the node at the path of a trail, if there is one.
fn push_line(
    alloc: Global,
    out: &mut String,
    document: &KdlDocument,
    trail: &mut Trail,
    path: &[usize],
) -> Result<(), AllocError>
    requires { IsTrail trail.old path.now (said_nodes (document_says document.now)) }
    ensures shown { OnOk result (string_bytes out.new
        ≡ string_bytes out.old ++ shown_at Paths document.now path.now) }
    ensures trail { OnOk result (IsTrail trail.new path.now (said_nodes (document_says document.now))) }
{
    match node_at(document, path) {
        Some(_) => push_path(alloc, out, document, trail, path),
        None => Ok(()),
    }
}

/// Returns what a view shows of each of the nodes, without PATHs.
fn lines(alloc: Global, nodes: &[&KdlNode], view: View) -> Result<String, AllocError>
    ensures { IfOk result (λ s. string_bytes s ≡ flat_map (part_shown view) (map (λ n. n.now) nodes.now)) }
{
    let mut out = String::new(alloc);
    for node in nodes {
        push_node(alloc, &mut out, *node, view)?;
    }
    Ok(out)
}

/// Appends what a view shows of a node, without its PATH.
fn push_node(alloc: Global, out: &mut String, node: &KdlNode, view: View) -> Result<(), AllocError>
    ensures { OnOk result (string_bytes out.new ≡ string_bytes out.old ++ part_shown view node.now) }
{
    match view {
        View::Text => push_text(alloc, out, node),
        View::Raw => push_argument(alloc, out, node),
        View::Json => push_json(alloc, out, node),
        View::Count | View::Paths => Ok(()),
    }
}

/// Appends the text of a node after its leading text, and a newline if it does not end in one.
fn push_text(alloc: Global, out: &mut String, node: &KdlNode) -> Result<(), AllocError>
    ensures { OnOk result (string_bytes out.new
        ≡ string_bytes out.old ++ ended (encode_utf8_all (node_text (node_tree node.now)))) }
{
    let printed = node.to_string(alloc)?;
    push_ended(out, without_leading(&printed, node))
}

/// Returns what the node prints, without its leading text.
fn without_leading<'a>(printed: &'a str, node: &KdlNode) -> &'a str
    requires { printed.now ≡ encode_utf8_all (node_prints node.now) }
    ensures { result.now ≡ encode_utf8_all (node_text (node_tree node.now)) }
{
    let Some(format) = node.format() else {
        return printed;
    };
    match printed.strip_prefix(format.leading.as_str()) {
        Some(text) => text,
        None => printed,
    }
}

/// Appends a text, and a newline if it does not end in one.
fn push_ended(out: &mut String, text: &str) -> Result<(), AllocError>
    ensures { OnOk result (string_bytes out.new ≡ string_bytes out.old ++ ended text.now) }
{
    out.push_str(text)?;
    if ends_line(text) {
        return Ok(());
    }
    out.push('\n')
}

/// Whether the text ends in a newline.
fn ends_line(text: &str) -> bool
    ensures { result ≡ ends_line text.now }
{
    match text.as_bytes().last() {
        Some(last) => *last == b'\n',
        None => false,
    }
}

/// Appends a line with the first argument of a node, if there is one.
fn push_argument(alloc: Global, out: &mut String, node: &KdlNode) -> Result<(), AllocError>
    ensures { OnOk result (string_bytes out.new
        ≡ string_bytes out.old ++ option_map_or (line_of true) (said_argument 0 (node_says node.now)) []) }
{
    match node.get(NodeKey::Index(0)) {
        Some(value) => push_value(alloc, out, value, true),
        None => Ok(()),
    }
}

/// Appends a line with the JSON of a node.
fn push_json(alloc: Global, out: &mut String, node: &KdlNode) -> Result<(), AllocError>
    ensures { OnOk result (string_bytes out.new
        ≡ string_bytes out.old ++ node_json_text (node_says node.now) ++ 10 ∷ []) }
{
    let json = node_to_json(alloc, node)?;
    out.push_str(&json)?;
    out.push('\n')
}
