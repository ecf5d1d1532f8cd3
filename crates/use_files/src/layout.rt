//! Formats documents, with their comments and groups.

ghost use Rattle.kdl.specs.Words.{IsDocument, IsSyntax, Nodes, TellsOnSyntax, nothing, text_of};
ghost use Rattle.kdl_laws.specs.ClientWords.{IsSpacedOut};
ghost use Rattle.std.specs.Prelude.{IfOk, chars, false};

use crate::faults::report;
use kdl::{KdlDocument, Layout, ParseFailure};
use kdl_laws::layout::{defaults_indent_by_spaces, texts_are_spaced_out};
use kdl_laws::reading_back::printed_reads_once;
use std::alloc::Global;
use std::io;

/// Returns the document of the text, formatted.
fn laid_out(alloc: Global, text: &str) -> Result<String, ParseFailure>
    // The output is a document with the data of the text.
    ensures says { IfOk result (λ out. (x : Nodes) → IsDocument (chars text.now) x
        → IsDocument (text_of out) x) }
    // It is the text laid out, with at most one blank line between two nodes or comments: its comments are kept, and a
    // second layout changes nothing.
    ensures laid_out { IfOk result (λ out. IsSpacedOut nothing false false 1 (chars text.now) (text_of out)) }
    // A refused text is not a document, and the error has its faults.
    ensures refused { IsSyntax result → (x : Nodes) → IsDocument (chars text.now) x → ⊥ }
    ensures told { TellsOnSyntax text.now result }
{
    defaults_indent_by_spaces();
    texts_are_spaced_out();
    printed_reads_once();
    let mut document = KdlDocument::parse(alloc, text)?;
    let layout = Layout {
        blank_lines: 1,
        ..Layout::new()
    };
    document.autoformat_layout(&layout)?;
    Ok(document.to_string(alloc)?)
}

/// Writes the text of the file, formatted, or reports its faults, and returns whether it has none.
pub fn show(rt: &HostRuntime, file: &str, text: &str) -> io::Result<bool> {
    match laid_out(rt.alloc(), text) {
        Ok(text) => {
            print!(rt; "{text}")?;
            Ok(true)
        }
        Err(failure) => report(rt, file, &failure),
    }
}
