//! The nodes at a place of a document, and their parts.

ghost use Rattle.kdl.specs.Iterators.{child_nodes};
ghost use Rattle.kdl.specs.declared.node.KdlNode.{KdlNode};
ghost use Rattle.std.specs.Prelude.{◌≡◌, ◌+◌, ◌++◌, ◌∷◌, ◌≤◌, IfSome, IsTrue, List};

use kdl::{KdlDocument, KdlEntry, KdlIdentifier, KdlNode};
use kdl_text::span::SourceSpan;
use std::alloc::{AllocError, Global};

/// A node, and the nodes before it in its block.
#[derive(Clone, Copy)]
pub(crate) struct Site<'d> {
    pub(crate) before: &'d [KdlNode],
    pub(crate) node: &'d KdlNode,
}

/// A part of a node.
#[derive(Clone, Copy)]
pub(crate) enum Part<'d> {
    /// The name.
    Name,
    /// The type of the node, or of an entry.
    Type,
    /// The key of the entry at an index.
    Key(usize, &'d KdlEntry),
    /// The value of the entry at an index.
    Value(usize, &'d KdlEntry),
}

/// Returns whether a place is in a span or at its end.
pub(crate) fn touches(span: SourceSpan, offset: usize) -> bool
    ensures { IsTrue result → (span.offset ≤ offset) × (offset ≤ span.offset + span.len) }
{
    match offset.checked_sub(span.offset) {
        Some(len) => len <= span.len,
        None => false,
    }
}

/// Returns the end of a span.
pub(crate) fn end_of(span: SourceSpan) -> usize {
    span.offset.saturating_add(span.len)
}

/// Returns the nodes that are at a place, each in the block of the one before it.
pub(crate) fn nodes_at(
    alloc: Global,
    document: &KdlDocument,
    offset: usize,
) -> Result<Vec<Site<'_>>, AllocError> {
    let mut sites = Vec::new(alloc);
    let mut nodes = document.nodes();
    while let Some(site) = site_in(nodes, offset) {
        nodes = nodes_in(site.node);
        sites.push(site)?;
    }
    Ok(sites)
}

/// Returns the nodes in the block of a node, or none if it has no block.
fn nodes_in(node: &KdlNode) -> &[KdlNode]
    ensures { result.now ≡ child_nodes node.now }
{
    match node.children() {
        Some(block) => block.nodes(),
        None => &[],
    }
}

/// Returns the node of a block that is at a place: no later one begins before it.
fn site_in(nodes: &[KdlNode], offset: usize) -> Option<Site<'_>>
    ensures { IfSome result (λ site. (after : List KdlNode)
        × (nodes.now ≡ site.before.now ++ (site.node.now ∷ after))) }
{
    let count = nodes
        .iter()
        .take_while(|node| node.span().offset <= offset)
        .count();
    let (nodes, _) = nodes.split_at_checked(count)?;
    let (node, before) = nodes.split_last()?;
    touches(node.span(), offset).then_some(Site { before, node })
}

/// Returns the entry of a node that is at a place, and its index.
pub(crate) fn entry_at(node: &KdlNode, offset: usize) -> Option<(usize, &KdlEntry)> {
    node.entries()
        .iter()
        .enumerate()
        .find(|(_, entry)| touches(entry.span(), offset))
}

/// Returns the part of a node that is at a place, and its span.
pub(crate) fn part_at(node: &KdlNode, offset: usize) -> Option<(Part<'_>, SourceSpan)> {
    let name = node.name().span();
    if touches(name, offset) {
        return Some((Part::Name, name));
    }
    if let Some(found) = type_at(node.ty(), offset) {
        return Some(found);
    }
    let (index, entry) = entry_at(node, offset)?;
    if let Some(key) = entry.name().filter(|key| touches(key.span(), offset)) {
        return Some((Part::Key(index, entry), key.span()));
    }
    if let Some(found) = type_at(entry.ty(), offset) {
        return Some(found);
    }
    let value = value_span(entry);
    touches(value, offset).then_some((Part::Value(index, entry), value))
}

/// Returns the type, if it is at a place, and its span.
fn type_at(ty: Option<&KdlIdentifier>, offset: usize) -> Option<(Part<'_>, SourceSpan)> {
    let ty = ty.filter(|ty| touches(ty.span(), offset))?;
    Some((Part::Type, ty.span()))
}

/// Returns the span of the value of an entry: the end of the entry.
fn value_span(entry: &KdlEntry) -> SourceSpan {
    let span = entry.span();
    let len = match entry.format() {
        Some(format) => format.value_repr.len().min(span.len),
        None => span.len,
    };
    SourceSpan {
        offset: end_of(span).saturating_sub(len),
        len,
    }
}

/// Returns the span of the block of a node, from its `{` to its `}`.
pub(crate) fn block_span(node: &KdlNode) -> Option<SourceSpan> {
    node.children()?;
    let format = node.format()?;
    let head = match node.entries().last() {
        Some(entry) => entry.span(),
        None => node.name().span(),
    };
    let offset = end_of(head).saturating_add(format.before_children.len());
    let end = end_of(node.span()).saturating_sub(format.before_terminator.len());
    Some(SourceSpan {
        offset,
        len: end.saturating_sub(offset),
    })
}
