//! When `==` of formats is true; equal ones have equal hashes.
#![tactic(auto, using(crate::proofs::Rules::formats))]

ghost use Rattle.kdl_parts.specs.Formats.{document_format_tree, node_format_tree};
ghost use Rattle.kdl_laws.specs.Hashes.{WritesBoth};
ghost use Rattle.std.specs.Prelude.{◌≡◌, ◌↔◌, IsTrue};

use kdl_parts::{KdlDocumentFormat, KdlNodeFormat};
use std::hash::{Hash, Hasher};

/// Two formats of nodes are equal exactly if all their texts are equal.
pub fn equal_node_formats(a: &KdlNodeFormat, b: &KdlNodeFormat) -> bool
    ensures { IsTrue result ↔ (node_format_tree a.now ≡ node_format_tree b.now) }
{
    a == b
}

/// Two formats of documents are equal exactly if both their texts are equal.
pub fn equal_document_formats(a: &KdlDocumentFormat, b: &KdlDocumentFormat) -> bool
    ensures { IsTrue result ↔ (document_format_tree a.now ≡ document_format_tree b.now) }
{
    a == b
}

/// Equal formats leave equal hashers equal: their hashes write the same bytes.
pub fn hash_node_formats<H: Hasher>(
    a: &KdlNodeFormat,
    b: &KdlNodeFormat,
    one: &mut H,
    other: &mut H,
)
    requires { node_format_tree a.now ≡ node_format_tree b.now }
    ensures { WritesBoth H.write (⟦<KdlNodeFormat as Hash>⟧.hash_input a.now)
        one.old one.new other.old other.new }
{
    a.hash(one);
    b.hash(other);
}

/// Equal formats leave equal hashers equal: their hashes write the same bytes.
pub fn hash_document_formats<H: Hasher>(
    a: &KdlDocumentFormat,
    b: &KdlDocumentFormat,
    one: &mut H,
    other: &mut H,
)
    requires { document_format_tree a.now ≡ document_format_tree b.now }
    ensures { WritesBoth H.write (⟦<KdlDocumentFormat as Hash>⟧.hash_input a.now)
        one.old one.new other.old other.new }
{
    a.hash(one);
    b.hash(other);
}
