//! The pieces of a refused text to which its error points.

ghost use Rattle.kdl_laws.specs.Pieces.{IsPiece};
ghost use Rattle.kdl_text.specs.Failures.{Tells};
ghost use Rattle.std.specs.Prelude.{All};

use kdl::KdlError;

/// The span of each diagnostic of a refused text selects a piece of it: it ends within the text, and it begins and ends
/// between two characters. So `&text[span.offset..span.offset + span.len]` is that piece.
pub fn spans_are_pieces(text: &str, error: &KdlError)
    requires { Tells text.now error.now }
    ensures { All (λ d. IsPiece text.now d.span) error.now.diagnostics.items }
{}
