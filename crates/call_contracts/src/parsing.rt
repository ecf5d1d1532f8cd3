//! Parsed texts.

ghost use Rattle.kdl.specs.Tree.{document_says, document_tree};
ghost use Rattle.kdl_entry.specs.Entries.{IsIdentifierText};
ghost use Rattle.kdl_entry.specs.Tree.{identifier_tree};
ghost use Rattle.kdl_grammar.specs.Data.{Nodes};
ghost use Rattle.kdl_grammar.specs.Grammar.{IsDocument};
ghost use Rattle.kdl_grammar.specs.Laid.{LaidDocument};
ghost use Rattle.kdl_text.specs.Chars.{Text};
ghost use Rattle.kdl_text.specs.Failures.{IsSyntax, TellsOnSyntax};
ghost use Rattle.kdl_text.specs.Spans.{raise};
ghost use Rattle.std.specs.Prelude.{◌+◌, ◌*◌, ◌≤◌, IfOk, OnOk, length};
ghost use Rattle.std.specs.Str.{chars};

use kdl::{KdlDocument, KdlIdentifier, ParseFailure, Steps};
use std::alloc::Global;

/// `KdlDocument::parse`: what it returns is derived and located in the text; what it refuses is not derived, and the
/// error has its faults.
pub fn parse(alloc: Global, text: &str) -> Result<KdlDocument, ParseFailure>
    ensures found { IfOk result (λ d. IsDocument (chars text.now) (document_says d)) }
    ensures laid { IfOk result (λ d. LaidDocument (document_tree d) (chars text.now)) }
    ensures refused { IsSyntax result → (x : Nodes) → IsDocument (chars text.now) x → ⊥ }
    ensures told { TellsOnSyntax text.now result }
{
    KdlDocument::parse(alloc, text)
}

/// `KdlDocument::parse_counted`: the steps that are added to the count.
pub fn parse_counted(
    alloc: Global,
    text: &str,
    steps: &mut Steps,
) -> Result<KdlDocument, ParseFailure>
    ensures least { OnOk result (raise steps.old (length (chars text.now)) ≤ steps.new) }
    ensures most { OnOk result (steps.new ≤ steps.old + 32 * (length text.now + 1)) }
    ensures told_most { IsSyntax result → steps.new ≤ steps.old + 184 * (length text.now + 1) }
    ensures raised { raise steps.old 1 ≤ steps.new }
{
    KdlDocument::parse_counted(alloc, text, steps)
}

/// `KdlIdentifier::parse`: the same for an identifier.
pub fn parse_identifier(alloc: Global, text: &str) -> Result<KdlIdentifier, ParseFailure>
    ensures found { IfOk result
        (λ i. IsIdentifierText (chars text.now) (identifier_tree i).value) }
    ensures refused { IsSyntax result → (v : Text) → IsIdentifierText (chars text.now) v
        → ⊥ }
    ensures told { TellsOnSyntax text.now result }
{
    KdlIdentifier::parse(alloc, text)
}
