//! An edit of an entry, also in a nested block, changes one piece of the printed text, and no byte outside it.

ghost use Rattle.kdl.specs.Words.{IsExchanged, IsExchangedInDocument, IsExchangedInNode, block_of, document_prints, document_tree, entry_tree, node_named, node_tree, print_piece, value_of};
ghost use Rattle.std.specs.Prelude.{◌≡◌, IfNone, IfSome, option_and_then};
ghost use Rattle.use_theorems.specs.Edits.{formed_value_at};

use kdl::{KdlDocument, KdlEntry, KdlNode, NodeKey};
use std::mem::replace;

/// Replaces an argument of a node with a format, and returns the old one. If the node has no format or no such
/// argument, returns `None` and leaves the node unchanged.
pub fn exchange_entry(node: &mut KdlNode, index: usize, entry: KdlEntry) -> Option<KdlEntry>
    ensures bytes { IfSome result (λ old. IsExchangedInNode
        (print_piece (entry_tree old)) (print_piece (entry_tree entry)) node.old node.new) }
    ensures old { value_of result ≡ formed_value_at index node.old }
    ensures stays { IfNone result (node_tree node.new ≡ node_tree node.old) }
{
    node.format()?;
    let Some(place) = node.entry_mut(NodeKey::Index(index)) else {
        return None;
    };
    let old = replace(place, entry);
    Some(old)
}

/// Replaces an argument of the first node of a name, as `exchange_entry` does.
pub fn exchange_in_document(
    document: &mut KdlDocument,
    name: &str,
    index: usize,
    entry: KdlEntry,
) -> Option<KdlEntry>
    ensures bytes { IfSome result (λ old. IsExchangedInDocument
        (print_piece (entry_tree old)) (print_piece (entry_tree entry)) document.old document.new) }
    ensures old { value_of result ≡
        option_and_then (formed_value_at index) (node_named name.now document.old) }
    ensures stays { IfNone result (document_tree document.new ≡ document_tree document.old) }
{
    let Some(node) = document.get_mut(name) else {
        return None;
    };
    exchange_entry(node, index, entry)
}

/// Replaces an argument of the first child of a name, as `exchange_entry` does.
#[tactic(auto, using(kdl::proofs::PiecesExchanged::block_exchanges))]
pub fn exchange_in_block(
    node: &mut KdlNode,
    name: &str,
    index: usize,
    entry: KdlEntry,
) -> Option<KdlEntry>
    ensures bytes { IfSome result (λ old. IsExchangedInNode
        (print_piece (entry_tree old)) (print_piece (entry_tree entry)) node.old node.new) }
    ensures old { value_of result ≡ option_and_then (formed_value_at index)
        (option_and_then (node_named name.now) (block_of node.old)) }
    ensures stays { IfNone result (node_tree node.new ≡ node_tree node.old) }
{
    let Some(block) = node.children_mut() else {
        return None;
    };
    exchange_in_document(block, name, index, entry)
}

/// Replaces an argument of the first child of a name, in the block of the first node of a name, as `exchange_entry`
/// does. In the printed text, only the piece of that argument changes.
pub fn exchange_nested(
    document: &mut KdlDocument,
    outer: &str,
    inner: &str,
    index: usize,
    entry: KdlEntry,
) -> Option<KdlEntry>
    ensures bytes { IfSome result (λ old. IsExchanged
        (print_piece (entry_tree old)) (print_piece (entry_tree entry))
        (document_prints document.old) (document_prints document.new)) }
    ensures old { value_of result ≡ option_and_then (formed_value_at index)
        (option_and_then (node_named inner.now)
        (option_and_then block_of (node_named outer.now document.old))) }
    ensures stays { IfNone result (document_tree document.new ≡ document_tree document.old) }
{
    let Some(node) = document.get_mut(outer) else {
        return None;
    };
    exchange_in_block(node, inner, index, entry)
}
