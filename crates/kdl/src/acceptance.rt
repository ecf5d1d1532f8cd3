//! Whether a text is a document.

ghost use Rattle.kdl.specs.Internal.Kinds.{ReadsNext};
ghost use Rattle.kdl_diagnostics.specs.TextControl.{AcceptsDocument, Takes, text_start};
ghost use Rattle.kdl_diagnostics.specs.declared.whole.Whole.TheVariants.{Document};
ghost use Rattle.kdl_text.specs.Failures.{IsSyntax, TellsOnSyntax};
ghost use Rattle.std.specs.Prelude.{◌≡◌, ◌↔◌, true, IfOk};
ghost use Rattle.std.specs.Str.{chars};

use kdl_diagnostics::{Whole, failure};
use kdl_syntax::{Control, LexFailure, NextToken, Phase, TokenKind, lexer};
use kdl_text::cursor::{Cursor, Steps};
use kdl_text::error::ParseFailure;
use std::alloc::{AllocError, Global};

/// Advances past the next token, and returns its kind for a control, to which the value of a string makes no difference:
/// that of a bare string is empty here, so that it is not copied.
#[inline(always)]
fn next_kind(cursor: &mut Cursor<'_>, alloc: Global) -> Result<Option<TokenKind>, LexFailure>
    ensures { ReadsNext cursor.old.rest result cursor.new.rest }
{
    match lexer::next_token(cursor, alloc)? {
        NextToken::Space(_) => Ok(Some(TokenKind::Space)),
        NextToken::Newline(_) => Ok(Some(TokenKind::Newline)),
        NextToken::Word(_, _) => Ok(Some(TokenKind::String(String::new(alloc)))),
        NextToken::Other(token) => Ok(Some(token.kind)),
        NextToken::End => Ok(None),
    }
}

/// Advances past the U+FEFF that a document may begin with.
fn skip_bom(cursor: &mut Cursor<'_>)
    ensures { Takes (text_start Document) cursor.new.rest ↔ AcceptsDocument cursor.old.rest }
{
    let _ = cursor.eat('\u{feff}');
}

/// Returns whether the text is accepted as a document. Nothing of it is kept.
fn is_accepted(alloc: Global, text: &str) -> Result<bool, AllocError>
    ensures { IfOk result (λ b. b ≡ true ↔ AcceptsDocument (chars text.now)) }
{
    let mut cursor = Cursor::new(text, Steps::new());
    skip_bom(&mut cursor);
    let mut control = Control::new(alloc, Phase::Gap);
    'tokens: loop {
        let kind = match next_kind(&mut cursor, alloc) {
            Ok(Some(kind)) => kind,
            Ok(None) => return Ok(control.may_end()),
            Err(LexFailure::Faulty) => return Ok(false),
            Err(LexFailure::Memory) => return Err(AllocError),
        };
        let is_taken = control.take(&kind)?;
        drop(kind);
        if !is_taken {
            return Ok(false);
        }
    }
}

/// Checks whether the text is accepted as a document. Returns `Syntax` with the faults of a refused text, which is read
/// again for them, and `Memory` if an allocation fails.
pub(crate) fn check(alloc: Global, text: &str) -> Result<(), ParseFailure>
    ensures accepted { IfOk result (λ _. AcceptsDocument (chars text.now)) }
    ensures refused { IsSyntax result → AcceptsDocument (chars text.now) → ⊥ }
    ensures told { TellsOnSyntax text.now result }
{
    if is_accepted(alloc, text)? {
        return Ok(());
    }
    Err(failure(alloc, text, Whole::Document, &mut Steps::new()))
}
