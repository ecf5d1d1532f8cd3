//! What equal documents, and equal nodes, have in common: the text that they print, and their data.

ghost use Rattle.kdl.specs.Same.{same_document, same_node};
ghost use Rattle.kdl.specs.Tree.{document_prints, document_says, node_prints, node_says};
ghost use Rattle.std.specs.Prelude.{◌≡◌, IsTrue};

use kdl::{KdlDocument, KdlNode};

/// Documents that are equal by `==` print the same text, and have the same data.
#[tactic(auto, using(crate::proofs::EqualDocuments::equal_print, crate::proofs::EqualDocuments::equal_say))]
pub fn equal_documents_agree(one: &KdlDocument, other: &KdlDocument)
    ensures prints { IsTrue (same_document one.now other.now)
        → document_prints one.now ≡ document_prints other.now }
    ensures says { IsTrue (same_document one.now other.now)
        → document_says one.now ≡ document_says other.now }
{}

/// Nodes that are equal by `==` print the same text, and have the same data.
#[tactic(auto, using(crate::proofs::EqualDocuments::equal_nodes_print, crate::proofs::EqualDocuments::equal_nodes_say))]
pub fn equal_nodes_agree(one: &KdlNode, other: &KdlNode)
    ensures prints { IsTrue (same_node one.now other.now)
        → node_prints one.now ≡ node_prints other.now }
    ensures says { IsTrue (same_node one.now other.now) → node_says one.now ≡ node_says other.now }
{}
