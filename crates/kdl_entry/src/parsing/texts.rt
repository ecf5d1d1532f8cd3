//! The pieces of a text that its tree keeps: copies of them, their spans, and the identifiers that they spell.
#![tactic(auto, using(crate::proofs::Rules::texts))]

ghost use Rattle.kdl_entry.specs.Internal.Counted.{EndsIn, Opens, Slices};
ghost use Rattle.kdl_entry.specs.Internal.Parts.{identifier_at};
ghost use Rattle.kdl_entry.specs.Places.{between, span_of};
ghost use Rattle.kdl_entry.specs.Tree.{identifier_tree};
ghost use Rattle.kdl_text.specs.Internal.Here.{Ahead};
ghost use Rattle.kdl_value.specs.Tree.{text_of};
ghost use Rattle.std.specs.Prelude.{◌≡◌, [], ◌↔◌, IfOk, IsTrue};

use super::parts::empty;
use crate::identifier::{KdlIdentifier, sliced_identifier};
use kdl_syntax::TokenSpan;
use kdl_text::cursor::{Checkpoint, Cursor};
use kdl_text::span::SourceSpan;
use std::alloc::{AllocError, Global};

/// Whether there is no text between two places.
#[inline]
fn is_nothing<'a>(from: &Checkpoint<'a>, to: &Checkpoint<'a>) -> bool
    requires { Ahead from.now to.now }
    ensures { IsTrue result ↔ (between from.now.rest to.now.rest ≡ []) }
{
    from.up_to(to).byte_len() == 0
}

/// Returns a copy of the text between two places. Costs a step for each of its bytes.
///
/// ```
/// let mut cursor = Cursor::new("ab=1", Steps::new());
/// let token = lexer::next(&mut cursor, alloc)?; // the string `ab`
/// let (start, end) = (cursor.start(), cursor.checkpoint());
/// let text = text_between(&mut cursor, alloc, &start, &end)?; // "ab"
/// ```
pub fn text_between<'a>(
    cursor: &mut Cursor<'a>,
    alloc: Global,
    from: &Checkpoint<'a>,
    to: &Checkpoint<'a>,
) -> Result<String, AllocError>
    requires { Opens cursor.old from.now to.now }
    ensures text { IfOk result (λ s. text_of s ≡ between from.now.rest to.now.rest) }
    ensures slices { Slices from.now to.now cursor.old cursor.new }
{
    let piece = cursor.slice_between(from, to);
    if is_nothing(from, to) {
        return Ok(empty(alloc));
    }
    piece.to_string(alloc)
}

/// Returns a copy of the text of a token. Costs a step for each of its bytes. `text_between` does the same, but looks first
/// whether there is any text, and a token is rarely empty.
///
/// ```
/// let mut cursor = Cursor::new("\"ab\"=1", Steps::new());
/// if let Some(Token { at, .. }) = lexer::next(&mut cursor, alloc)? {
///     let repr = token_text(&mut cursor, alloc, &at)?; // "\"ab\""
/// }
/// ```
#[inline]
pub fn token_text<'a>(
    cursor: &mut Cursor<'a>,
    alloc: Global,
    at: &TokenSpan<'a>,
) -> Result<String, AllocError>
    requires { EndsIn cursor.old.text at.now.start.rest }
    ensures text { IfOk result (λ s. text_of s ≡ between at.now.start.rest at.now.end.rest) }
    ensures slices { Slices at.now.start at.now.end cursor.old cursor.new }
{
    cursor.slice_between(&at.start, &at.end).to_string(alloc)
}

/// Returns the span between two places of the cursor's text.
///
/// ```
/// let mut cursor = Cursor::new("ab=1", Steps::new());
/// let token = lexer::next(&mut cursor, alloc)?; // the string `ab`
/// let span = span_between(&cursor, &cursor.start(), &cursor.checkpoint()); // offset 0 and length 2
/// ```
#[inline]
#[tactic(auto, unfolding(crate::specs::Places::span_of))]
pub fn span_between(cursor: &Cursor, start: &Checkpoint, end: &Checkpoint) -> SourceSpan
    ensures { result ≡ span_of cursor.now.text start.now.rest end.now.rest }
{
    cursor.start().span_between(start, end)
}

/// Returns the identifier that a token is.
///
/// ```
/// let mut cursor = Cursor::new("\"ab\"=1", Steps::new());
/// if let Some(Token { kind: TokenKind::String(value), at }) = lexer::next(&mut cursor, alloc)? {
///     let name = token_identifier(&mut cursor, alloc, value, &at)?; // prints "\"ab\""
/// }
/// ```
#[inline(always)]
pub fn token_identifier<'a>(
    cursor: &mut Cursor<'a>,
    alloc: Global,
    value: String,
    at: &TokenSpan<'a>,
) -> Result<KdlIdentifier, AllocError>
    requires { EndsIn cursor.old.text at.now.start.rest }
    ensures is { IfOk result
        (λ i. identifier_tree i ≡ identifier_at cursor.old.text (text_of value)
        at.now.start.rest at.now.end.rest) }
    ensures slices { Slices at.now.start at.now.end cursor.old cursor.new }
{
    let piece = cursor.slice_between(&at.start, &at.end);
    let span = span_between(cursor, &at.start, &at.end);
    sliced_identifier(alloc, value, &piece, span)
}
