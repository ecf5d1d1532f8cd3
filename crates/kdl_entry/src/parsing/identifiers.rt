//! Identifiers that are a whole text.
#![tactic(auto, using(crate::proofs::Rules::identifiers))]

ghost use Rattle.kdl_entry.specs.Internal.IdentifierReading.{AnswersIdentifierText};
ghost use Rattle.std.specs.Prelude.{◌≡◌, ◌↔◌, IsTrue, []};
ghost use Rattle.std.specs.Str.{chars};

use super::texts::token_identifier;
use crate::identifier::KdlIdentifier;
use kdl_diagnostics::{Whole, failure};
use kdl_syntax::{LexFailure, Token, TokenKind, lexer};
use kdl_text::cursor::{Checkpoint, Cursor, Steps};
use kdl_text::error::ParseFailure;
use std::alloc::Global;

/// Whether the text ends at the place.
fn is_end(place: &Checkpoint) -> bool
    ensures { IsTrue result ↔ (place.now.rest ≡ []) }
{
    place.char_span().len == 0
}

/// Reads the identifier that the text is; the cursor is at its start.
fn read_token(cursor: &mut Cursor, alloc: Global) -> Result<KdlIdentifier, LexFailure>
    requires { cursor.old.rest ≡ cursor.old.text }
    ensures { AnswersIdentifierText cursor.old.text result }
{
    let Token { kind, at } = match lexer::next(cursor, alloc) {
        Ok(Some(token)) => token,
        Ok(None) => return Err(LexFailure::Faulty),
        Err(failure) => return Err(failure),
    };
    let TokenKind::String(value) = kind else {
        return Err(LexFailure::Faulty);
    };
    if !is_end(&at.end) {
        return Err(LexFailure::Faulty);
    }
    Ok(token_identifier(cursor, alloc, value, &at)?)
}

impl KdlIdentifier {
    ghost use Rattle.kdl_entry.specs.Entries.{IsIdentifierText};
    ghost use Rattle.kdl_entry.specs.Laid.{LaidIdentifierText};
    ghost use Rattle.kdl_entry.specs.Print.{print_identifier};
    ghost use Rattle.kdl_entry.specs.Tree.{identifier_tree};
    ghost use Rattle.kdl_text.specs.Chars.{Text};
    ghost use Rattle.kdl_text.specs.Failures.{IsSyntax, TellsOnSyntax};
    ghost use Rattle.std.specs.Prelude.{IfOk};

    /// Parses a text that is exactly one identifier: one string in any spelling (KDL 2.0.0, String), with nothing
    /// before or after it. Its spelling and its span are the whole text. Returns `Syntax` if the text is not an
    /// identifier; its error reports the fault in the string, or the place of what is not part of one. Returns `Memory`
    /// if an allocation fails.
    ///
    /// ```
    /// let name = KdlIdentifier::parse(alloc, "\"two words\"")?; // the string `two words`, which prints its quotes
    /// let refused = KdlIdentifier::parse(alloc, "two words"); // `Syntax`: these are two strings
    /// ```
    pub fn parse(alloc: Global, text: &str) -> Result<KdlIdentifier, ParseFailure>
        // The result is what the grammar derives,
        ensures found { IfOk result
            (λ i. IsIdentifierText (chars text.now) (identifier_tree i).value) }
        // and it derives nothing else.
        ensures only { IfOk result
            (λ i. (v : Text) → IsIdentifierText (chars text.now) v
            → v ≡ (identifier_tree i).value) }
        // The identifier is located in the text: its spelling and its span are the whole text, which it prints.
        ensures laid { IfOk result
            (λ i. LaidIdentifierText (identifier_tree i) (chars text.now)) }
        ensures prints { IfOk result (λ i. print_identifier (identifier_tree i) ≡ chars text.now) }
        // A refused text is not derived, and the error has the spans of its faults.
        ensures refused { IsSyntax result → (v : Text) → IsIdentifierText (chars text.now) v
            → ⊥ }
        ensures told { TellsOnSyntax text.now result }
    {
        match read_token(&mut Cursor::new(text, Steps::new()), alloc) {
            Ok(identifier) => Ok(identifier),
            Err(LexFailure::Faulty) => {
                Err(failure(alloc, text, Whole::Identifier, &mut Steps::new()))
            }
            Err(LexFailure::Memory) => Err(ParseFailure::Memory),
        }
    }
}
