//! Parts of the printed text.
#![tactic(auto, using(crate::proofs::Rules::printed))]

ghost use Rattle.kdl_grammar.specs.Print.{end_text, last_has_format, print_piece, spaces};
ghost use Rattle.kdl_parts.specs.Formats.{node_texts};
ghost use Rattle.kdl_parts.specs.Printed.{Prints, before_block, block_end, block_start, document_end, document_start, head_text, pieces};
ghost use Rattle.kdl_entry.specs.Tree.{entry_tree};
ghost use Rattle.std.specs.Prelude.{◌≡◌, map};

use crate::format::{KdlDocumentFormat, KdlNodeFormat};
use kdl_entry::{KdlEntry, KdlIdentifier, write_text, write_type};
use std::fmt;
use std::fmt::Display;

/// Writes the indentation at a depth: four spaces for each level.
fn write_spaces<W: fmt::Write>(depth: usize, f: &mut fmt::Formatter<W>) -> fmt::Result
    ensures { Prints W.write_str_gives f.old result (spaces depth) f.new }
{
    for _level in 0..depth {
        f.write_str("    ")?;
    }
    Ok(())
}

/// Writes what comes before the entries of a node at a depth: the leading text, the type and the name.
pub fn write_head<W: fmt::Write>(
    ty: &Option<KdlIdentifier>,
    name: &KdlIdentifier,
    format: &Option<KdlNodeFormat>,
    depth: usize,
    f: &mut fmt::Formatter<W>,
) -> fmt::Result
    ensures { Prints W.write_str_gives f.old result
        (head_text ty.now name.now format.now depth) f.new }
{
    match format {
        Some(format) => {
            write_text(&format.leading, f)?;
            write_type(ty, &format.before_ty_name, &format.after_ty_name, f)?;
            write_text(&format.after_ty, f)?;
            name.fmt(f)
        }
        None => {
            write_spaces(depth, f)?;
            write_type(ty, "", "", f)?;
            name.fmt(f)
        }
    }
}

/// Writes the entries of a node.
pub fn write_pieces<W: fmt::Write>(entries: &[KdlEntry], f: &mut fmt::Formatter<W>) -> fmt::Result
    ensures { Prints W.write_str_gives f.old result (pieces entries.now) f.new }
{
    for entry in entries {
        write_piece(entry, f)?;
    }
    Ok(())
}

/// Writes an entry of a node. An entry without a format follows one space.
fn write_piece<W: fmt::Write>(entry: &KdlEntry, f: &mut fmt::Formatter<W>) -> fmt::Result
    ensures { Prints W.write_str_gives f.old result (print_piece (entry_tree entry.now)) f.new }
{
    if entry.format().is_none() {
        f.write_str(" ")?;
    }
    entry.fmt(f)
}

/// Returns whether the last entry has a format.
pub fn ends_formatted(entries: &[KdlEntry]) -> bool
    ensures { result ≡ last_has_format (map entry_tree entries.now) }
{
    match entries.last() {
        Some(last) => last.format().is_some(),
        None => false,
    }
}

/// Writes what comes before the `{` of a child block.
pub fn write_before_block<W: fmt::Write>(
    format: &Option<KdlNodeFormat>,
    entries: &[KdlEntry],
    f: &mut fmt::Formatter<W>,
) -> fmt::Result
    ensures { Prints W.write_str_gives f.old result (before_block format.now entries.now) f.new }
{
    match format {
        Some(format) => write_text(&format.before_children, f),
        None => {
            if ends_formatted(entries) {
                Ok(())
            } else {
                f.write_str(" ")
            }
        }
    }
}

/// Writes what comes after the last entry, or after the child block.
#[inline(always)]
pub fn write_end<W: fmt::Write>(
    format: &Option<KdlNodeFormat>,
    f: &mut fmt::Formatter<W>,
) -> fmt::Result
    ensures { Prints W.write_str_gives f.old result (end_text (node_texts format.now)) f.new }
{
    match format {
        Some(format) => {
            write_text(&format.before_terminator, f)?;
            write_text(&format.terminator, f)?;
            write_text(&format.trailing, f)
        }
        None => Ok(()),
    }
}

/// Writes what comes before the first node.
pub fn write_leading<W: fmt::Write>(
    format: &Option<KdlDocumentFormat>,
    f: &mut fmt::Formatter<W>,
) -> fmt::Result
    ensures { Prints W.write_str_gives f.old result (document_start format.now) f.new }
{
    match format {
        Some(format) => write_text(&format.leading, f),
        None => Ok(()),
    }
}

/// Writes what comes after the last node.
pub fn write_trailing<W: fmt::Write>(
    format: &Option<KdlDocumentFormat>,
    f: &mut fmt::Formatter<W>,
) -> fmt::Result
    ensures { Prints W.write_str_gives f.old result (document_end format.now) f.new }
{
    match format {
        Some(format) => write_text(&format.trailing, f),
        None => Ok(()),
    }
}

/// Writes a child block from its `{` up to its first node.
pub fn write_block_start<W: fmt::Write>(
    format: &Option<KdlDocumentFormat>,
    f: &mut fmt::Formatter<W>,
) -> fmt::Result
    ensures { Prints W.write_str_gives f.old result (block_start format.now) f.new }
{
    match format {
        Some(format) => {
            f.write_str("{")?;
            write_text(&format.leading, f)
        }
        None => f.write_str("{\n"),
    }
}

/// Writes a child block from its last node up to its `}`. Its node is at the depth, to which the `}` is indented if the
/// block has no format.
pub fn write_block_end<W: fmt::Write>(
    format: &Option<KdlDocumentFormat>,
    depth: usize,
    f: &mut fmt::Formatter<W>,
) -> fmt::Result
    ensures { Prints W.write_str_gives f.old result (block_end format.now depth) f.new }
{
    match format {
        Some(format) => {
            write_text(&format.trailing, f)?;
            f.write_str("}")
        }
        None => {
            write_spaces(depth, f)?;
            f.write_str("}")
        }
    }
}
