//! Equal documents have equal printed texts and equal data.

ghost use Rattle.kdl.specs.Words.{document_prints, document_says, same_document};
ghost use Rattle.std.specs.Prelude.{◌≡◌, IsTrue};

use kdl::KdlDocument;
use kdl_laws::equal::equal_documents_agree;

/// Returns whether two documents are equal. Equal documents print the same text, and have the same data.
pub fn equal(one: &KdlDocument, other: &KdlDocument) -> bool
    ensures same { result ≡ same_document one.now other.now }
    ensures prints { IsTrue result → document_prints one.now ≡ document_prints other.now }
    ensures says { IsTrue result → document_says one.now ≡ document_says other.now }
{
    equal_documents_agree(one, other);
    one == other
}
