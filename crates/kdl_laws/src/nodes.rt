//! When `==` of nodes and documents is true; equal ones have equal hashes, and items of one tree, such as an item and
//! its clone, are equal.
#![tactic(auto, using(crate::proofs::Rules::nodes))]

ghost use Rattle.kdl.specs.Cleared.{node_without_spans, document_without_spans};
ghost use Rattle.kdl.specs.Same.{same_node, same_document};
ghost use Rattle.kdl.specs.Tree.{node_tree, document_tree};
ghost use Rattle.kdl_laws.specs.Hashes.{WritesBoth};
ghost use Rattle.std.specs.Prelude.{◌≡◌, ◌↔◌, IsTrue, true};

use kdl::{KdlDocument, KdlNode};
use std::hash::{Hash, Hasher};

/// Two nodes are equal exactly if all their parts except their spans are equal, at each depth.
pub fn equal_nodes(a: &KdlNode, b: &KdlNode) -> bool
    ensures { IsTrue result
        ↔ (node_without_spans (node_tree a.now) ≡ node_without_spans (node_tree b.now)) }
{
    a == b
}

/// Two documents are equal exactly if all their parts except their spans are equal, at each depth.
pub fn equal_documents(a: &KdlDocument, b: &KdlDocument) -> bool
    ensures { IsTrue result
        ↔ (document_without_spans (document_tree a.now)
        ≡ document_without_spans (document_tree b.now)) }
{
    a == b
}

/// Equal nodes, of any spans, leave equal hashers equal: their hashes write the same bytes.
pub fn hash_nodes<H: Hasher>(a: &KdlNode, b: &KdlNode, one: &mut H, other: &mut H)
    requires { node_without_spans (node_tree a.now) ≡ node_without_spans (node_tree b.now) }
    ensures { WritesBoth H.write (⟦<KdlNode as Hash>⟧.hash_input a.now)
        one.old one.new other.old other.new }
{
    a.hash(one);
    b.hash(other);
}

/// Equal documents, of any spans, leave equal hashers equal: their hashes write the same bytes.
pub fn hash_documents<H: Hasher>(a: &KdlDocument, b: &KdlDocument, one: &mut H, other: &mut H)
    requires { document_without_spans (document_tree a.now)
        ≡ document_without_spans (document_tree b.now) }
    ensures { WritesBoth H.write (⟦<KdlDocument as Hash>⟧.hash_input a.now)
        one.old one.new other.old other.new }
{
    a.hash(one);
    b.hash(other);
}

/// Nodes of one tree, as a node and its clone, are equal.
pub fn same_nodes(a: &KdlNode, b: &KdlNode)
    requires { node_tree a.now ≡ node_tree b.now }
    ensures { same_node a.now b.now ≡ true }
{}

/// Documents of one tree, as a document and its clone, are equal.
pub fn same_documents(a: &KdlDocument, b: &KdlDocument)
    requires { document_tree a.now ≡ document_tree b.now }
    ensures { same_document a.now b.now ≡ true }
{}
