//! Documents that are a whole text.
#![tactic(auto, using(crate::proofs::Rules::document_text))]

ghost use Rattle.kdl_grammar.specs.Internal.Machine.{AnswersDocument};
ghost use Rattle.kdl_parser.specs.Internal.Steps.{CountedOn, Parses};
ghost use Rattle.kdl_parser.specs.Internal.Parts.{document_by};
ghost use Rattle.kdl_parser.specs.Internal.Whole.{AnswersDocumentText};
ghost use Rattle.kdl_text.specs.Spans.{raise};
ghost use Rattle.kdl_value.specs.Tree.{text_of};
ghost use Rattle.std.specs.Prelude.{◌≡◌, ◌≤◌, ◌∷◌, IfOk};
ghost use Rattle.std.specs.Str.{chars};

use crate::builder::Builder;
use crate::node_parts::{DocumentParts, ParsedNode};
use crate::token_loop::build;
use kdl_diagnostics::{Whole, failure};
use kdl_syntax::LexFailure;
use kdl_text::cursor::{Cursor, Steps};
use kdl_text::error::ParseFailure;
use std::alloc::{AllocError, Global};
use std::mem;

/// Returns the text with U+FEFF before it.
fn after_bom(alloc: Global, text: &str) -> Result<String, AllocError>
    ensures { IfOk result (λ s. text_of s ≡ 0xFEFF ∷ chars text.now) }
{
    let mut whole = String::new(alloc);
    whole.push('\u{feff}')?;
    whole.push_str(text)?;
    Ok(whole)
}

/// Returns the machine's result on the text, and adds the steps to the count.
fn read_counted<N: ParsedNode>(
    alloc: Global,
    text: &str,
    steps: &mut Steps,
) -> Result<DocumentParts<N>, LexFailure>
    ensures answers { AnswersDocumentText N.tree (chars text.now) result }
    ensures counted { CountedOn result (chars text.now) steps.old steps.new }
    ensures raised { raise steps.old 1 ≤ steps.new }
{
    let mut cursor = Cursor::new(text, mem::replace(steps, Steps::new()));
    let has_bom = cursor.eat('\u{feff}');
    let mut builder = Builder::new(cursor, alloc);
    let read = build(&mut builder);
    *steps = builder.cursor.into_steps();
    let mut parts = read?;
    if has_bom {
        parts.leading = after_bom(alloc, &parts.leading)?;
    }
    Ok(parts)
}

/// Parses a document (KDL 2.0.0, Document), and adds the steps of parsing to the count, which saturates at `u64::MAX`.
/// Each place and each spelling that the document keeps is sliced once, except a U+FEFF, which is not; values are
/// decoded by the lexer, which slices what it needs for that, even of what is slashdashed. Returns `Syntax` if the text
/// is not a document; its error has a diagnostic for each fault, and at least one. The text is then read again to find
/// them. Returns `Memory` if an allocation fails.
pub fn read_document<N: ParsedNode>(
    alloc: Global,
    text: &str,
    steps: &mut Steps,
) -> Result<DocumentParts<N>, ParseFailure>
    // The result is the machine's result on the text.
    ensures found { IfOk result (λ d. AnswersDocument (chars text.now) (document_by N.tree d)) }
    ensures parses { Parses text.now result steps.old steps.new }
{
    match read_counted(alloc, text, steps) {
        Ok(document) => Ok(document),
        Err(LexFailure::Faulty) => Err(failure(alloc, text, Whole::Document, steps)),
        Err(LexFailure::Memory) => Err(ParseFailure::Memory),
    }
}
