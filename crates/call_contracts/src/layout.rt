//! Layout of documents and nodes.

ghost use Rattle.kdl.specs.Layout.{DocumentKeepsNoForm, DocumentLaidOut, DocumentSpaced};
ghost use Rattle.kdl.specs.Tree.{document_prints, document_says, document_tree};
ghost use Rattle.kdl_layout.specs.Canonical.{Canonical, canonical_text};
ghost use Rattle.kdl_layout.specs.Config.{defaults, without_comments};
ghost use Rattle.kdl_layout.specs.Formatted.{DocumentLevelsFit};
ghost use Rattle.std.specs.Prelude.{◌≡◌, OnOk};

use kdl::{FormatConfig, KdlDocument, Layout};
use std::alloc::AllocError;

/// `KdlDocument::autoformat`: what it makes of the document.
pub fn autoformat(document: &mut KdlDocument) -> Result<(), AllocError>
    ensures formatted { OnOk result (DocumentLaidOut defaults document.old document.new) }
{
    document.autoformat()
}

/// `KdlDocument::autoformat_config`: the levels of the layout.
pub fn autoformat_config(
    document: &mut KdlDocument,
    config: &FormatConfig,
) -> Result<(), AllocError>
    ensures levels { OnOk result
        (DocumentLevelsFit config.now.indent_level (document_tree document.old)) }
{
    document.autoformat_config(config)
}

/// `KdlDocument::autoformat_layout`: what it makes of the document, with its blank lines.
pub fn autoformat_layout(document: &mut KdlDocument, layout: &Layout) -> Result<(), AllocError>
    ensures formatted { OnOk result (DocumentSpaced layout.now document.old document.new) }
{
    document.autoformat_layout(layout)
}

/// `KdlDocument::autoformat_no_comments`: the document prints the canonical text of its data, which reads back.
pub fn autoformat_no_comments(document: &mut KdlDocument) -> Result<(), AllocError>
    ensures prints { OnOk result (DocumentKeepsNoForm document.old
        → document_prints document.new ≡ canonical_text (document_says document.old)) }
    ensures reads { OnOk result
        (Canonical without_comments.indent 0 (document_says document.old)) }
{
    document.autoformat_no_comments()
}
