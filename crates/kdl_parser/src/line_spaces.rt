//! Line-spaces up to the end of a text.
#![tactic(auto, using(crate::proofs::Rules::line_spaces))]

ghost use Rattle.kdl_parser.specs.Internal.LineSpaces as lines;
ghost use Rattle.kdl_parser.specs.Internal.LineSpaces.{AreLineSpaces};
ghost use Rattle.std.specs.Prelude.{◌≡◌};
ghost use Rattle.std.specs.Str.{chars};

use kdl_syntax::{LexFailure, TokenKind, lexer};
use kdl_text::cursor::{Cursor, Steps};
use std::alloc::Global;

/// Whether the token is made of line-spaces.
fn is_line_space(kind: &TokenKind) -> bool
    ensures { result ≡ lines.is_line_space kind.now }
{
    matches!(kind, TokenKind::Space | TokenKind::Newline)
}

/// Reads line-spaces to the end of the text. Returns `Faulty` at the first token that is not part of a line-space, or at
/// the first character with which no token begins, and `Memory` if an allocation fails.
pub(crate) fn line_spaces(alloc: Global, text: &str) -> Result<(), LexFailure>
    ensures { AreLineSpaces (chars text.now) result }
{
    let mut cursor = Cursor::new(text, Steps::new());
    'tokens: while let Some(token) = lexer::next(&mut cursor, alloc)? {
        if !is_line_space(&token.kind) {
            // Dropped by a call, since that is one step of the proof; the end of its scope would be many.
            drop(token);
            return Err(LexFailure::Faulty);
        }
        drop(token);
    }
    Ok(())
}
