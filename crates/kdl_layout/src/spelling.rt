//! Whether a text is a spelling of a string or of a value.

ghost use Rattle.kdl_entry.specs.Entries.{IsIdentifierText};
ghost use Rattle.kdl_layout.specs.Internal.Whole.{Spelled, whole_view};
ghost use Rattle.kdl_layout.specs.Respelled.{IsSpelling};
ghost use Rattle.kdl_syntax.specs.Internal.Handed.{Cuts, LexedNext, kind_view};
ghost use Rattle.kdl_text.specs.Chars.{Text};
ghost use Rattle.kdl_text.specs.Internal.Here.{Here};
ghost use Rattle.kdl_value.specs.Data as data';
ghost use Rattle.kdl_value.specs.Tree.{value_tree};
ghost use Rattle.std.specs.Prelude.{◌≡◌, ◌↔◌, [], IfOk, IsTrue, Ok};
ghost use Rattle.std.specs.Str.{chars};

use kdl_entry::KdlValue;
use kdl_syntax::{LexFailure, NextToken, Token, TokenKind, lexer};
use kdl_text::cursor::{Checkpoint, Cursor, Piece, Steps};
use std::alloc::{AllocError, Global};

/// The string, number or keyword that a whole text is.
#[derive(Drop)]
enum WholeText<'a> {
    /// A bare string that begins with an ASCII letter, as it is in the text.
    Word(Piece<'a>),
    /// Another string, a number or a keyword.
    Value(KdlValue),
}

impl WholeText<'_> {
    /// Returns whether this is the string.
    fn is_text(&self, text: &str) -> bool
        ensures { IsTrue result ↔ (whole_view self.now ≡ data'.text (chars text.now)) }
    {
        match self {
            WholeText::Word(word) => word.is(text),
            WholeText::Value(value) => match value.as_string() {
                Some(read) => same(read, text),
                None => false,
            },
        }
    }

    /// Returns whether this is the value.
    fn is(&self, value: &KdlValue) -> bool
        ensures { IsTrue result ↔ (whole_view self.now ≡ value_tree value.now) }
    {
        match self {
            WholeText::Word(word) => match value.as_string() {
                Some(text) => word.is(text),
                None => false,
            },
            WholeText::Value(read) => read == value,
        }
    }
}

/// Returns whether the texts are equal.
fn same(a: &str, b: &str) -> bool
    ensures { IsTrue result ↔ (chars a.now ≡ chars b.now) }
{
    a == b
}

/// Returns whether the text ends at the place.
fn is_end(place: &Checkpoint) -> bool
    ensures { IsTrue result ↔ (place.now.rest ≡ []) }
{
    place.char_span().len == 0
}

/// Returns the string, number or keyword that the token is, if the text ends after it.
fn of_token(token: Token) -> Option<WholeText<'static>>
    ensures { (s : Text) → Cuts s (kind_view token.entry.kind) token.entry.at.end.rest → Spelled s result }
{
    if !is_end(&token.at.end) {
        return None;
    }
    match token.kind {
        TokenKind::String(text) => Some(WholeText::Value(KdlValue::String(text))),
        TokenKind::Value(value) => Some(WholeText::Value(value)),
        _ => None,
    }
}

/// Returns the string, number or keyword that is next in a text, if the text ends after it.
fn of_next(next: NextToken<'_>) -> Option<WholeText<'_>>
    ensures { (s : Text) (old new : Here) → old.rest ≡ s → LexedNext old (Ok next.entry) new
        → Spelled s result }
{
    match next {
        NextToken::Word(word, at) => is_end(&at.end).then_some(WholeText::Word(word)),
        NextToken::Other(token) => of_token(token),
        _ => None,
    }
}

/// Returns the string, number or keyword that the whole text is.
fn read_whole(alloc: Global, text: &str) -> Result<Option<WholeText<'_>>, AllocError>
    ensures { IfOk result (λ o. Spelled (chars text.now) o) }
{
    let mut cursor = Cursor::new(text, Steps::new());
    match lexer::next_token(&mut cursor, alloc) {
        Ok(next) => Ok(of_next(next)),
        Err(LexFailure::Faulty) => Ok(None),
        Err(LexFailure::Memory) => Err(AllocError),
    }
}

/// Returns whether the text is one string that represents `value`, in any spelling.
pub fn spells_text(alloc: Global, text: &str, value: &str) -> Result<bool, AllocError>
    ensures { IfOk result
        (λ b. IsTrue b ↔ IsIdentifierText (chars text.now) (chars value.now)) }
{
    match read_whole(alloc, text)? {
        Some(whole) => Ok(whole.is_text(value)),
        None => Ok(false),
    }
}

/// Returns whether the text is one string, number or keyword that represents the value.
pub fn spells_value(alloc: Global, text: &str, value: &KdlValue) -> Result<bool, AllocError>
    ensures { IfOk result (λ b. IsTrue b ↔ IsSpelling (value_tree value.now) (chars text.now)) }
{
    match read_whole(alloc, text)? {
        Some(whole) => Ok(whole.is(value)),
        None => Ok(false),
    }
}
