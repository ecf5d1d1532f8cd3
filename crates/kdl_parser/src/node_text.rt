//! Nodes that are a whole text.
#![tactic(auto, using(crate::proofs::Rules::node_text))]

ghost use Rattle.kdl_grammar.specs.Laid.{LaidNodeText};
ghost use Rattle.kdl_parser.specs.Internal.NodeText.{ReadsOne, IsOnly, AnswersNodeText};
ghost use Rattle.kdl_parser.specs.Internal.Steps.{ParsesNode};
ghost use Rattle.kdl_value.specs.Tree.{text_of};
ghost use Rattle.std.specs.Prelude.{IfOk};
ghost use Rattle.std.specs.Str.{chars};

use crate::builder::Builder;
use crate::line_spaces::line_spaces;
use crate::node_parts::ParsedNode;
use crate::token_loop::build;
use kdl_diagnostics::{Whole, failure};
use kdl_syntax::LexFailure;
use kdl_text::cursor::{Cursor, Steps};
use kdl_text::error::ParseFailure;
use kdl_text::span::SourceSpan;
use std::alloc::Global;

/// Returns the only node, or `None` if there are more or none.
fn only_node<N: Drop>(nodes: Vec<N>) -> Option<N>
    ensures { IsOnly nodes.items result }
{
    let mut rest = nodes.into_iter();
    let Some(node) = rest.next() else {
        return None;
    };
    if let Some(second) = rest.next() {
        drop(second);
        drop(node);
        drop(rest);
        return None;
    }
    drop(rest);
    Some(node)
}

/// Returns the only node of a text if only line-spaces come after it. Fails at anything else.
fn with_line_spaces<N: ParsedNode>(
    alloc: Global,
    text: &str,
    node: N,
    trailing: String,
) -> Result<N, LexFailure>
    requires { ReadsOne (chars text.now) (N.tree node) (text_of trailing) }
    ensures { AnswersNodeText N.tree (chars text.now) result }
{
    match line_spaces(alloc, trailing.as_str()) {
        Ok(()) => {
            let len = text.len();
            Ok(node.with_text_after(trailing, SourceSpan { offset: 0, len }))
        }
        Err(failure) => {
            drop(node);
            drop(trailing);
            Err(failure)
        }
    }
}

/// Reads the node that the text is.
fn read_whole<N: ParsedNode>(alloc: Global, text: &str) -> Result<N, LexFailure>
    ensures { AnswersNodeText N.tree (chars text.now) result }
{
    let cursor = Cursor::new(text, Steps::new());
    match build(&mut Builder::new(cursor, alloc)) {
        Ok(document) => match only_node(document.nodes) {
            Some(node) => with_line_spaces(alloc, text, node, document.trailing),
            None => Err(LexFailure::Faulty),
        },
        Err(failure) => Err(failure),
    }
}

/// Parses a text that is exactly one node: line-spaces and slashdashed nodes before it, and only line-spaces after its
/// terminator (KDL 2.0.0, Node). Returns `Syntax` if the text is not a node; its error has a diagnostic for each fault,
/// and at least one. Returns `Memory` if an allocation fails.
pub fn read_node_text<N: ParsedNode>(alloc: Global, text: &str) -> Result<N, ParseFailure>
    // The node that is returned is located in the text, which it is.
    ensures found { IfOk result (λ n. LaidNodeText (chars text.now) (N.tree n)) }
    ensures parses { ParsesNode text.now result }
{
    match read_whole(alloc, text) {
        Ok(node) => Ok(node),
        Err(LexFailure::Faulty) => Err(failure(alloc, text, Whole::Node, &mut Steps::new())),
        Err(LexFailure::Memory) => Err(ParseFailure::Memory),
    }
}
