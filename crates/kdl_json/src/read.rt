//! Reading a document from JSON.

ghost use Rattle.json.specs.Token.{end_array};
ghost use Rattle.kdl.specs.Words.{DocumentKeepsNoForm, Nodes, document_says};
ghost use Rattle.kdl_layout.specs.WellFormed.{AreWellFormed};
ghost use Rattle.kdl_json.specs.Form.{IsJsonOf, nodes_tokens};
ghost use Rattle.kdl_json.specs.Reading.{left};
ghost use Rattle.kdl_json.specs.declared.failure.JsonFailure.TheVariants.{Memory};
ghost use Rattle.std.specs.Prelude.{◌≡◌, [], ◌∷◌, IfOk, MatchResult};

use crate::build::{appended, empty, enclosed};
use crate::failure::{Expected, JsonFailure};
use crate::head::head;
use crate::source::Source;
use json::{Reader, Scratch};
use kdl::{KdlDocument, KdlNode};
use std::alloc::Global;

/// A node whose block is being read, and the nodes before it.
#[derive(Drop)]
struct Open {
    before: KdlDocument,
    node: KdlNode,
}

/// Reads what follows the `[` of the nodes, up to the end of the text.
fn nodes(alloc: Global, source: &mut Source<'_>) -> Result<KdlDocument, JsonFailure>
    ensures sound { IfOk result (λ d. left source.old
        ≡ nodes_tokens (document_says d) (end_array ∷ [])) }
    ensures reads { (x : Nodes) → AreWellFormed x
        → left source.old ≡ nodes_tokens x (end_array ∷ [])
        → MatchResult result (λ d. document_says d ≡ x) (λ e. e ≡ Memory) }
    ensures plain { IfOk result DocumentKeepsNoForm }
{
    let mut open: Vec<Open> = Vec::new(alloc);
    let mut nodes = empty(alloc);
    'tokens: loop {
        if source.take_end_array() {
            let Some(Open { before, node }) = open.pop() else {
                source.end()?;
                return Ok(nodes);
            };
            source.end_object(Expected::End)?;
            nodes = appended(before, enclosed(node, nodes))?;
        } else {
            let node = head(alloc, source)?;
            if source.take_key("children") {
                source.begin_array(Expected::Nodes)?;
                open.push(Open {
                    before: nodes,
                    node,
                })?;
                nodes = empty(alloc);
            } else {
                source.end_object(Expected::Children)?;
                nodes = appended(nodes, node)?;
            }
        }
    }
}

/// Reads a document from its JSON, in the form that `to_json` writes, with any spaces between its tokens.
///
/// No entry of the document is flagged to keep its form, so that `KdlDocument::autoformat_no_comments` gives it the
/// canonical text of its data.
///
/// If the text is not such a JSON, returns the place and what is expected there. Returns `Memory` if an allocation
/// fails.
pub fn from_json(alloc: Global, text: &str) -> Result<KdlDocument, JsonFailure>
    ensures sound { IfOk result (λ d. IsJsonOf text.now (document_says d)) }
    ensures reads { (x : Nodes) → AreWellFormed x → IsJsonOf text.now x
        → MatchResult result (λ d. document_says d ≡ x) (λ e. e ≡ Memory) }
    ensures plain { IfOk result DocumentKeepsNoForm }
{
    let mut scratch = Scratch::new(alloc);
    let reader = Reader::new(text, &mut scratch)?;
    let mut source = Source::new(reader);
    source.begin_array(Expected::Nodes)?;
    nodes(alloc, &mut source)
}
