//! Where a node that is put into a block goes.

use kdl::{KdlDocument, KdlNode, KdlNodeFormat};

/// What ends a new node.
#[derive(Clone, Copy)]
pub(crate) enum End {
    /// A newline, and that many spaces or tabs before the `}`: the node has a line of its own.
    Newline(usize),
    /// A `;`: the node is in a block on one line.
    Semicolon,
    /// A space: the node is before the `}` of a block on one line.
    Space,
    /// Nothing: the node is the last one of a text without a newline at its end, or before a `}`.
    Nothing,
}

/// The layout of a new node at the end of a block.
#[derive(Clone, Copy)]
pub(crate) struct Layout {
    /// The number of spaces or tabs before the node.
    pub(crate) indent: usize,
    /// Whether they are tabs.
    pub(crate) is_tab: bool,
    /// What ends the node.
    pub(crate) end: End,
}

/// The block of the node at the end of the path, if it has one. For the empty path, the document.
fn block_at<'a>(document: &'a KdlDocument, path: &[usize]) -> Option<&'a KdlDocument> {
    let mut block = document;
    for index in path {
        let Some(node) = block.nodes().get(*index) else {
            return None;
        };
        let Some(inner) = node.children() else {
            return None;
        };
        block = inner;
    }
    Some(block)
}

/// The layout of a new node in the block of the node at the end of the path, or in the document if the path is empty.
///
/// In a block on several lines, or in a new block, the node has a line of its own: after the spaces of the other nodes,
/// or after four for each level. In a block on one line it stays on that line.
pub(crate) fn layout_at(document: &KdlDocument, path: &[usize]) -> Layout {
    let depth = path.len();
    let Some(block) = block_at(document, path) else {
        return line_at(depth);
    };
    let nodes = block.nodes();
    let (Some(first), Some(last)) = (nodes.first(), nodes.last()) else {
        return in_empty(leading(block), depth);
    };
    if ends_in(last, '\n') {
        return line_after(first, last, depth);
    }
    if depth == 0 {
        return in_line(if ends_in(last, ';') { 1 } else { 0 }, End::Nothing);
    }
    if ends_in(last, ';') {
        return in_line(1, End::Semicolon);
    }
    match last.format() {
        Some(format) if is_bare(format) => in_line(1, end_like(format)),
        _ => line_at(depth),
    }
}

/// The layout of the first node of a block, after the text at the start of the block.
fn in_empty(leading: &str, depth: usize) -> Layout {
    if depth == 0 {
        return line_at(0);
    }
    let Some((_, line)) = leading.rsplit_once('\n') else {
        return in_line(if leading.is_empty() { 1 } else { 0 }, End::Space);
    };
    let is_tab = line.starts_with('\t');
    Layout {
        indent: if is_tab { 1 } else { 4 },
        is_tab,
        end: End::Newline(spaces_in(line)),
    }
}

/// A line of its own, after the spaces of the other nodes of the block.
fn line_after(first: &KdlNode, last: &KdlNode, depth: usize) -> Layout {
    if let Some((_, line)) = leading_of(first).rsplit_once('\n') {
        return line_of(line);
    }
    if depth == 0 {
        return line_of(leading_of(first));
    }
    line_at(depth)
}

/// A line of its own, after four spaces for each level.
pub(crate) fn line_at(depth: usize) -> Layout {
    Layout {
        indent: depth.saturating_mul(4),
        is_tab: false,
        end: End::Newline(0),
    }
}

/// The line of the other nodes.
fn in_line(indent: usize, end: End) -> Layout {
    Layout {
        indent,
        is_tab: false,
        end,
    }
}

/// A line of its own, after these spaces or tabs.
fn line_of(spaces: &str) -> Layout {
    Layout {
        indent: spaces_in(spaces),
        is_tab: spaces.starts_with('\t'),
        end: End::Newline(0),
    }
}

/// The number of spaces, or of tabs, of a text of nothing else; else 0.
fn spaces_in(text: &str) -> usize {
    let other = if text.starts_with('\t') {
        text.trim_start_matches('\t')
    } else {
        text.trim_start_matches(' ')
    };
    if other.is_empty() { text.len() } else { 0 }
}

/// The text before the nodes of a block.
fn leading(block: &KdlDocument) -> &str {
    match block.format() {
        Some(format) => &format.leading,
        None => "",
    }
}

/// The text before a node.
fn leading_of(node: &KdlNode) -> &str {
    match node.format() {
        Some(format) => &format.leading,
        None => "",
    }
}

/// Whether the node begins a line: at most spaces are before the newline in the text before it.
pub(crate) fn begins_line(node: &KdlNode) -> bool {
    leading_of(node).trim_start_matches(' ').starts_with('\n')
}

/// Whether the end of the node has the character.
fn ends_in(node: &KdlNode, character: char) -> bool {
    match node.format() {
        Some(format) => {
            format.terminator.contains(character) || format.trailing.contains(character)
        }
        None => false,
    }
}

/// Whether at most spaces follow the last entry or the block of the node.
pub(crate) fn is_bare(format: &KdlNodeFormat) -> bool {
    format.terminator.is_empty()
        && format.trailing.is_empty()
        && format.before_terminator.trim_start_matches(' ').is_empty()
}

/// A space at the end, if the node has one there.
fn end_like(format: &KdlNodeFormat) -> End {
    if format.before_terminator.is_empty() {
        End::Nothing
    } else {
        End::Space
    }
}
