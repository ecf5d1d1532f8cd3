//! The piece of a refused text that a diagnostic points at.

ghost use Rattle.kdl.specs.Words.{IsDocument, Nodes, Tells};
ghost use Rattle.std.specs.Prelude.{◌+◌, ◌≡◌, IfNone, IfOk, IfSome, OnSome, chars, map, slice_get, slice_range};

use kdl::{KdlDocument, KdlError, ParseFailure};
use kdl_laws::spans::spans_are_pieces;
use std::alloc::{AllocError, Global};

/// Returns the piece of the text at each fault.
pub fn pieces<'a>(
    alloc: Global,
    text: &'a str,
    error: &KdlError,
) -> Result<Vec<&'a str>, AllocError>
    requires { Tells text.now error.now }
    ensures { IfOk result (λ found. map (λ p. p.now) found.items ≡
        map (λ d. slice_range text.now d.span.offset (d.span.offset + d.span.len))
        error.now.diagnostics.items) }
{
    spans_are_pieces(text, error);
    let mut found = Vec::new(alloc);
    for diagnostic in &error.diagnostics {
        let at = diagnostic.span;
        found.push(&text[at.offset..at.offset + at.len])?;
    }
    Ok(found)
}

/// Returns the piece of the text at the first fault.
pub fn first_piece<'a>(text: &'a str, error: &KdlError) -> &'a str
    requires { Tells text.now error.now }
    ensures { IfSome (slice_get error.now.diagnostics.items 0) (λ d.
        result.now ≡ slice_range text.now d.span.offset (d.span.offset + d.span.len)) }
{
    spans_are_pieces(text, error);
    let at = error.diagnostics[0].span;
    &text[at.offset..at.offset + at.len]
}

/// Returns the piece of the text at the first fault, or `None` if the text is a document.
pub fn refusal<'a>(alloc: Global, text: &'a str) -> Result<Option<&'a str>, AllocError>
    ensures accepted { IfOk result (λ o.
        IfNone o ((x : Nodes) × IsDocument (chars text.now) x)) }
    ensures refused { IfOk result (λ o.
        OnSome o ((x : Nodes) → IsDocument (chars text.now) x → ⊥)) }
{
    match KdlDocument::parse(alloc, text) {
        Ok(_) => Ok(None),
        Err(ParseFailure::Syntax(error)) => Ok(Some(first_piece(text, &error))),
        Err(ParseFailure::Memory) => Err(AllocError),
    }
}
