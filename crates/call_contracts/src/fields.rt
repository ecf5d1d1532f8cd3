//! Equality and hashes of documents.

ghost use Rattle.kdl.specs.Same.{same_document};
ghost use Rattle.std.specs.Prelude.{◌≡◌, fold};

use kdl::KdlDocument;
use std::hash::{Hash, Hasher};

/// `==` of documents.
pub fn equal(one: &KdlDocument, other: &KdlDocument) -> bool
    ensures { result ≡ same_document one.now other.now }
{
    one == other
}

/// `hash` of a document.
pub fn hash<H: Hasher>(document: &KdlDocument, state: &mut H)
    ensures { state.new ≡ fold H.write state.old
        (⟦<KdlDocument as Hash>⟧.hash_input document.now) }
{
    document.hash(state);
}
