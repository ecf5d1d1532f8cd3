//! Which bytes of the printed text an edit changes: those of its own piece, whatever was changed through `entries_mut`,
//! `entry_mut` or `nodes_mut`.

ghost use Rattle.kdl.specs.Bytes.{piece_of};
ghost use Rattle.kdl.specs.DocumentLookups.{node_named};
ghost use Rattle.kdl.specs.EditLaw.{EntriesExchanged, EntryExchanged, FormedPiece, NodesExchanged, NodeExchanged, PrintsInstead};
ghost use Rattle.kdl.specs.Fields.{node_format_of};
ghost use Rattle.kdl.specs.Lookups.{entries_of, entry_there};
ghost use Rattle.kdl.specs.ReadsBack.{DocumentReadsBack};
ghost use Rattle.kdl.specs.Tree.{document_says, node_tree};
ghost use Rattle.kdl.specs.declared.document.KdlDocument.{KdlDocument as document};
ghost use Rattle.kdl.specs.declared.node.KdlNode.{KdlNode as node};
ghost use Rattle.kdl_entry.specs.Tree.{entry_tree};
ghost use Rattle.kdl_entry.specs.declared.entry.KdlEntry.{KdlEntry as entry};
ghost use Rattle.kdl_laws.specs.Pieces.{IsPieceOf, said_entry_in};
ghost use Rattle.kdl_parts.specs.Edits.{replaced_place};
ghost use Rattle.kdl_parts.specs.EntryLists.{key_name};
ghost use Rattle.kdl_parts.specs.declared.key.NodeKey.{NodeKey};
ghost use Rattle.std.specs.Prelude.{◌≡◌, IsSome, List, Option, Some, ℕ, chars, map};
ghost use Rattle.std.specs.Str.{IsUtf8};

use kdl::{KdlEntry, KdlNode};

/// Whatever entries a node with a format has, it prints the same head and tail, and the pieces of the entries between
/// them.
#[tactic(auto, using(kdl::proofs::EditLaws::entries_exchanged))]
pub fn entries_exchanged()
    ensures { EntriesExchanged }
{}

/// If one entry of a node with a format is replaced, its piece of the printed text is replaced, and no other byte.
pub fn entry_exchanged()
    ensures { EntryExchanged }
{}

/// In a node, the piece of an entry that has a format is what the entry prints.
#[tactic(auto, using(kdl::proofs::EditLaws::formed_piece))]
pub fn formed_piece()
    ensures { FormedPiece }
{}

/// Whatever nodes a document has, it prints the same leading and trailing text, and the nodes between them.
#[tactic(auto, using(kdl::proofs::EditLaws::nodes_exchanged))]
pub fn nodes_exchanged()
    ensures { NodesExchanged }
{}

/// If one node of a document is replaced, its piece of the printed text is replaced, and no other byte.
pub fn node_exchanged()
    ensures { NodeExchanged }
{}

/// Replaces the entries of a node, through a mutable reference: a node with a format prints the same head and tail, and
/// the pieces of the new entries between them.
#[tactic(auto, using(kdl::proofs::EditLaws::entries_exchanged))]
pub fn exchange_entries(node: &mut KdlNode, entries: Vec<KdlEntry>)
    ensures { IsSome (node_format_of node.old)
        → PrintsInstead (node_tree node.old) (map entry_tree entries.items) (node_tree node.new) }
{
    *node.entries_mut() = entries;
}

/// The entry that an insertion under a name replaces, in the first node of a name, in a document that reads back: its
/// piece of the text is that of the property in the document's data, and empty if there is none.
#[tactic(auto, using(crate::proofs::OldPieces::replaced_piece))]
pub fn replaced_piece_is_said()
    ensures { (s r : List ℕ) (key : NodeKey) (d : document) (n : node) (o : Option entry)
        → IsUtf8 s → IsUtf8 r → DocumentReadsBack d → Some n ≡ node_named s d
        → key_name key ≡ Some r → o ≡ entry_there (replaced_place key (entries_of n)) n
        → IsPieceOf (said_entry_in (chars s) (chars r) (document_says d)) (piece_of o) }
{}
