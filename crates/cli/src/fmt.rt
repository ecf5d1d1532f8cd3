//! What layout makes of a text.

ghost use Rattle.cli.specs.Formatted.{IsFormatted};
ghost use Rattle.kdl.specs.Words.{IsDocument, IsSyntax, Nodes, TellsOnSyntax, text_of};
ghost use Rattle.std.specs.Prelude.{IfOk, chars};

use crate::disposal::Disposal;
use crate::settings::Settings;
use kdl::{FormatConfig, KdlDocument, Layout, ParseFailure};
use kdl_laws::layout::second_spaced_layout;
use kdl_laws::reading_back::printed_reads_once;
use std::alloc::Global;

/// Returns the document of the text, laid out, and disposes of the document.
///
/// Returns `Syntax` with the faults of the text if it is not a document, and `Memory` if an allocation fails.
pub fn formatted(
    alloc: Global,
    text: &str,
    settings: &Settings,
    disposal: Disposal,
) -> Result<String, ParseFailure>
    // The output is a document with the data of the text, and no others.
    ensures says { IfOk result (λ out. (x : Nodes) → IsDocument (chars text.now) x
        → IsDocument (text_of out) x) }
    // It is what layout makes of the text's document: all its comments are kept, and a second layout changes nothing.
    ensures laid_out { IfOk result (λ out. IsFormatted settings.now (chars text.now) (text_of out)) }
    // A refused text is not a document, and the error has its faults.
    ensures refused { IsSyntax result → (x : Nodes) → IsDocument (chars text.now) x → ⊥ }
    ensures told { TellsOnSyntax text.now result }
{
    printed_reads_once();
    second_spaced_layout();
    let mut document = KdlDocument::parse(alloc, text)?;
    let indent = settings.indent.text(alloc)?;
    let layout = Layout {
        config: FormatConfig::builder().indent(&indent).build(),
        blank_lines: settings.blank_lines,
        keep_spelling: !settings.respell,
        keep_inner_comments: true,
        keep_one_line: !settings.expand,
        compact_empty: true,
    };
    document.autoformat_layout(&layout)?;
    let out = document.to_string(alloc)?;
    disposal.dispose(document);
    Ok(out)
}
