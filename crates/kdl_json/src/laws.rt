//! What the JSON of a document says of its data.

ghost use Rattle.kdl.specs.Words.{Nodes, document_says};
ghost use Rattle.kdl_layout.specs.WellFormed.{AreWellFormed};
ghost use Rattle.kdl_json.specs.Form.{IsJsonOf, json_text};
ghost use Rattle.kdl_json.specs.declared.failure.JsonFailure.TheVariants.{Memory};
ghost use Rattle.std.specs.Prelude.{◌≡◌, ◌↔◌, List, MatchResult, ℕ};

use crate::failure::JsonFailure;
use crate::read::from_json;
use crate::write::to_json;
use kdl::KdlDocument;
use std::alloc::Global;

/// The JSON of a document reads back as a document with the same data, unless an allocation fails.
pub fn json_reads_back(alloc: Global, document: &KdlDocument) -> Result<KdlDocument, JsonFailure>
    ensures { MatchResult result (λ d. document_says d ≡ document_says document.now)
        (λ e. e ≡ Memory) }
{
    let text = to_json(alloc, document)?;
    from_json(alloc, &text)
}

/// The text that is written for data is a JSON of them.
#[tactic(auto, using(crate::proofs::Printable::text_is_json))]
pub fn json_text_is_json()
    ensures { (x : Nodes) → AreWellFormed x → IsJsonOf (json_text x) x }
{}

/// A text is the JSON of at most one document's data.
#[tactic(auto, using(crate::proofs::Unique::one_document))]
pub fn json_is_of_one_document()
    ensures { (t : List ℕ) (x y : Nodes) → AreWellFormed x → AreWellFormed y → IsJsonOf t x
        → IsJsonOf t y → x ≡ y }
{}

/// The same text is written for data exactly if they are the same.
#[tactic(auto, using(crate::proofs::Printable::same_text))]
pub fn same_json_is_same_data()
    ensures { (x y : Nodes) → AreWellFormed x → AreWellFormed y
        → (json_text x ≡ json_text y) ↔ (x ≡ y) }
{}
