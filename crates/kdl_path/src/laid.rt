//! A node after spaces, and with an end.

ghost use Rattle.kdl.specs.Words.{DocumentReadsBack, NodeReadsBack, document_says, node_says};
ghost use Rattle.kdl_path.specs.Edits.{with_last};
ghost use Rattle.kdl_path.specs.Internal.Laid.{EndsLine, IsEnd, IsIndented, IsLaid, IsSpaces};
ghost use Rattle.kdl_value.specs.Tree.{text_of};
ghost use Rattle.std.specs.Prelude.{◌≡◌, ◌∷◌, ◌++◌, [], IfOk, OnOk};
ghost use Rattle.std.specs.Str.{chars};

use crate::layout::{End, Layout, begins_line, is_bare};
use kdl::{KdlDocument, KdlNode};
use kdl_layout::push_text;
use std::alloc::{AllocError, Global};

/// The texts at the end of a node.
#[derive(Drop)]
pub(crate) struct Ends {
    before: String,
    terminator: String,
    after: String,
}

/// Returns the node after the spaces of the layout, and with its end.
pub(crate) fn laid(alloc: Global, mut node: KdlNode, layout: Layout) -> Result<KdlNode, AllocError>
    ensures { IfOk result (λ m. IsLaid node m) }
{
    indent(alloc, &mut node, layout)?;
    end(alloc, &mut node, layout)?;
    Ok(node)
}

/// Puts the spaces of the layout before the node.
fn indent(alloc: Global, node: &mut KdlNode, layout: Layout) -> Result<(), AllocError>
    ensures { OnOk result (IsLaid node.old node.new) }
{
    let Some(format) = node.format_mut() else {
        return Ok(());
    };
    format.leading = indented(alloc, &format.leading, layout)?;
    Ok(())
}

/// Puts a newline before the node, if it does not begin a line.
pub(crate) fn begin_line(alloc: Global, node: &mut KdlNode) -> Result<(), AllocError>
    ensures { OnOk result (IsLaid node.old node.new) }
{
    if begins_line(node) {
        return Ok(());
    }
    let Some(format) = node.format_mut() else {
        return Ok(());
    };
    format.leading = on_line(alloc, &format.leading)?;
    Ok(())
}

/// The text after a newline.
fn on_line(alloc: Global, text: &str) -> Result<String, AllocError>
    ensures { IfOk result (λ s. text_of s ≡ chars (10 ∷ []) ++ chars text.now) }
{
    let mut out = String::new(alloc);
    push_text(&mut out, "\n")?;
    push_text(&mut out, text)?;
    Ok(out)
}

/// Ends the node as the layout says, if at most spaces follow its last entry or its block.
fn end(alloc: Global, node: &mut KdlNode, layout: Layout) -> Result<(), AllocError>
    ensures { OnOk result (IsLaid node.old node.new) }
{
    match layout.end {
        End::Newline(count) => end_line(alloc, node, "\n", count, layout.is_tab),
        End::Semicolon => end_line(alloc, node, ";", 0, false),
        End::Space => end_space(alloc, node),
        End::Nothing => Ok(()),
    }
}

/// Ends the node with a newline or a `;`, and that many spaces or tabs after it, if at most spaces follow its last entry
/// or its block.
pub(crate) fn end_line(
    alloc: Global,
    node: &mut KdlNode,
    terminator: &str,
    count: usize,
    is_tab: bool,
) -> Result<(), AllocError>
    ensures { EndsLine (chars terminator.now) → OnOk result (IsLaid node.old node.new) }
{
    let ends = make_ends(alloc, terminator, count, is_tab)?;
    end_with(node, ends);
    Ok(())
}

/// A newline or a `;`, and that many spaces or tabs after it.
fn make_ends(
    alloc: Global,
    terminator: &str,
    count: usize,
    is_tab: bool,
) -> Result<Ends, AllocError>
    ensures { EndsLine (chars terminator.now) → IfOk result (λ e. IsEnd e) }
{
    Ok(Ends {
        before: spaces(alloc, 0, false)?,
        terminator: String::from_str(alloc, terminator)?,
        after: spaces(alloc, count, is_tab)?,
    })
}

/// Ends the node with the texts, if at most spaces follow its last entry or its block.
fn end_with(node: &mut KdlNode, ends: Ends)
    ensures { IsEnd ends → IsLaid node.old node.new }
{
    let Ends {
        before,
        terminator,
        after,
    } = ends;
    let Some(format) = node.format_mut() else {
        return;
    };
    if !is_bare(format) {
        return;
    }
    format.before_terminator = before;
    format.terminator = terminator;
    format.trailing = after;
}

/// Ends the node with a space, if at most spaces follow its last entry or its block.
fn end_space(alloc: Global, node: &mut KdlNode) -> Result<(), AllocError>
    ensures { OnOk result (IsLaid node.old node.new) }
{
    let space = spaces(alloc, 1, false)?;
    let Some(format) = node.format_mut() else {
        return Ok(());
    };
    if !is_bare(format) {
        return Ok(());
    }
    format.before_terminator = space;
    Ok(())
}

/// The text after the spaces of the layout.
fn indented(alloc: Global, text: &str, layout: Layout) -> Result<String, AllocError>
    ensures { IfOk result (λ s. IsIndented (chars text.now) (text_of s)) }
{
    let mut out = spaces(alloc, layout.indent, layout.is_tab)?;
    push_text(&mut out, text)?;
    Ok(out)
}

/// That many spaces, or tabs.
pub(crate) fn spaces(alloc: Global, count: usize, is_tab: bool) -> Result<String, AllocError>
    ensures { IfOk result (λ s. IsSpaces (text_of s)) }
{
    let mut out = String::new(alloc);
    for _space in 0..count {
        push_text(&mut out, space(is_tab))?;
    }
    Ok(out)
}

/// A space, or a tab.
fn space(is_tab: bool) -> &'static str
    ensures { IsSpaces (chars result.now) }
{
    if is_tab { "\t" } else { " " }
}

/// Appends the node to the document.
pub(crate) fn push(document: &mut KdlDocument, node: KdlNode) -> Result<(), AllocError>
    ensures says { OnOk result (document_says document.new
        ≡ with_last (node_says node) (document_says document.old)) }
    ensures reads { OnOk result (DocumentReadsBack document.old → NodeReadsBack node
        → DocumentReadsBack document.new) }
{
    match document.push_node(node) {
        Ok(()) => Ok(()),
        Err((node, error)) => {
            drop(node);
            Err(error)
        }
    }
}
