//! Documents and their layout.

ghost use Rattle.kdl.specs.Words.{IsSyntax};
ghost use Rattle.lsp.specs.Formatting.{IsLaidOut, IsNoDocument, indent_bytes};
ghost use Rattle.std.specs.Prelude.{◌≡◌, IfOk, MatchOption, string_bytes};

use kdl::{FormatConfig, KdlDocument, Layout, ParseFailure};
use std::alloc::{AllocError, Global};

/// Returns the document of a text, or `None` if the text is none.
pub(crate) fn document_of(alloc: Global, text: &str) -> Result<Option<KdlDocument>, AllocError> {
    match KdlDocument::parse(alloc, text) {
        Ok(document) => Ok(Some(document)),
        Err(ParseFailure::Syntax(_error)) => Ok(None),
        Err(ParseFailure::Memory) => Err(AllocError),
    }
}

/// Returns the document of the text, laid out as `kdl fmt` does, or `None` if the text is none. A level is indented by so
/// many spaces, or by a tab.
pub(crate) fn laid_out(
    alloc: Global,
    text: &str,
    indent: Option<usize>,
) -> Result<Option<String>, AllocError>
    ensures { IfOk result (λ o. MatchOption o (IsNoDocument text.now) (λ new. IsLaidOut indent text.now (string_bytes new))) }
{
    match formatted(alloc, text, indent) {
        Ok(new) => Ok(Some(new)),
        Err(ParseFailure::Syntax(_error)) => Ok(None),
        Err(ParseFailure::Memory) => Err(AllocError),
    }
}

/// Returns the document of the text, laid out.
fn formatted(alloc: Global, text: &str, indent: Option<usize>) -> Result<String, ParseFailure>
    ensures laid_out { IfOk result (λ new. IsLaidOut indent text.now (string_bytes new)) }
    ensures refused { IsSyntax result → IsNoDocument text.now }
{
    let mut document = KdlDocument::parse(alloc, text)?;
    let indent = indent_text(alloc, indent)?;
    let layout = Layout {
        config: FormatConfig::builder().indent(&indent).build(),
        blank_lines: 1,
        keep_spelling: true,
        keep_inner_comments: true,
        keep_one_line: true,
        compact_empty: true,
    };
    document.autoformat_layout(&layout)?;
    Ok(document.to_string(alloc)?)
}

/// Returns so many spaces, or a tab.
fn indent_text(alloc: Global, indent: Option<usize>) -> Result<String, AllocError>
    ensures { IfOk result (λ s. string_bytes s ≡ indent_bytes indent) }
{
    match indent {
        Some(count) => " ".repeat(alloc, count),
        None => String::from_str(alloc, "\t"),
    }
}
