//! What reads back: documents and nodes from the text that they print, entries in any node.

ghost use Rattle.kdl.specs.Change.{with_nodes};
ghost use Rattle.kdl.specs.DocumentLookups.{node_named, nodes_of};
ghost use Rattle.kdl.specs.Fields.{block_of, node_format_of};
ghost use Rattle.kdl.specs.Nodes.{said_with};
ghost use Rattle.kdl.specs.ReadsBack.{BlockReadsBack, DocumentReadsBack, EntryReadsBack, IsUnformed, NodeEnds, NodeReadsBack, respelled};
ghost use Rattle.kdl.specs.Tree.{document_prints, document_says, node_prints, node_says};
ghost use Rattle.kdl.specs.declared.document.KdlDocument.{KdlDocument};
ghost use Rattle.kdl.specs.declared.node.KdlNode.{KdlNode};
ghost use Rattle.kdl_entry.specs.Tree.{Entry, Identifier, entry_tree, plain_entry, plain_identifier};
ghost use Rattle.kdl_entry.specs.declared.entry.KdlEntry.{KdlEntry};
ghost use Rattle.kdl_grammar.specs.Data.{Nodes, first, none};
ghost use Rattle.kdl_grammar.specs.Grammar.{IsDocument};
ghost use Rattle.kdl_laws.specs.Pushed.{EndsLine, IsLineEnded, LastEnds};
ghost use Rattle.kdl_parts.specs.Edits.{under};
ghost use Rattle.kdl_parts.specs.EntryLists.{Sought, property};
ghost use Rattle.kdl_text.specs.Chars.{Text};
ghost use Rattle.kdl_value.specs.Data.{Value};
ghost use Rattle.kdl_value.specs.Tree.{text_of};
ghost use Rattle.kdl_value.specs.WellFormed.{IsWellFormed};
ghost use Rattle.std.specs.List.{All};
ghost use Rattle.std.specs.Prelude.{◌≡◌, ◌++◌, [], ◌∷◌, IsSome, IsSomeAnd, IsTrue, List, None, Some, String, Vec, chars, length, slice_get, string_bytes, ◌-◌, ◌↔◌, ℕ};
ghost use Rattle.std.specs.Str.{encode_utf8_all};
ghost use Rattle.std.specs.declared.alloc.Global.{Global};

/// A document that reads back prints a text that is a document with its data.
#[tactic(auto, using(kdl::proofs::ReadingBack::document_derived))]
pub fn document_reads_back()
    ensures { (d : KdlDocument) → DocumentReadsBack d
        → IsDocument (document_prints d) (document_says d) }
{}

/// The text in memory that a document prints is a document with its data, if the document reads back.
pub fn printed_reads_back()
    ensures { (d : KdlDocument) (s : String Global)
        → string_bytes s ≡ encode_utf8_all (document_prints d) → DocumentReadsBack d
        → IsDocument (text_of s) (document_says d) }
{}

/// The text in memory that a document prints has those characters, and is not a document with other data.
#[tactic(auto, using(crate::proofs::PrintedOnce::printed, crate::proofs::PrintedOnce::printed_once))]
pub fn printed_reads_once()
    ensures text { (d : KdlDocument) (s : String Global)
        → string_bytes s ≡ encode_utf8_all (document_prints d) → text_of s ≡ document_prints d }
    ensures once { (d : KdlDocument) (s : String Global) (y : Nodes)
        → string_bytes s ≡ encode_utf8_all (document_prints d) → DocumentReadsBack d
        → IsDocument (text_of s) y → y ≡ document_says d }
{}

/// A text in memory that is what was printed, by the contract of a call, has those characters.
#[tactic(auto, using(crate::proofs::PrintedOnce::text_printed))]
pub fn printed_is_text()
    ensures { (s : String Global) (t : Text) → string_bytes s ≡ encode_utf8_all t
        → text_of s ≡ t }
{}

/// A node that reads back prints a text that is a document with only that node.
#[tactic(auto, using(kdl::proofs::ReadingBack::node_derived_alone))]
pub fn node_reads_back()
    ensures { (n : KdlNode) → NodeReadsBack n
        → IsDocument (node_prints n) (first (node_says n) none) }
{}

/// Each node of a document that reads back reads back.
#[tactic(auto, using(kdl::proofs::ReadingBack::nodes_read_back))]
pub fn nodes_read_back()
    ensures { (d : KdlDocument) → DocumentReadsBack d → All NodeReadsBack (nodes_of d) }
{}

/// A node that is found in a document that reads back has a format.
#[tactic(auto, using(crate::proofs::NodesHaveFormats::named_formed))]
pub fn found_node_has_format()
    ensures { (s : List ℕ) (d : KdlDocument) (n : KdlNode) → DocumentReadsBack d
        → Some n ≡ node_named s d → IsSome (node_format_of n) }
{}

/// A node that ends by itself reads back.
#[tactic(auto, using(kdl::proofs::ReadingBack::ended_reads))]
pub fn ended_reads_back()
    ensures { (n : KdlNode) → NodeEnds n → NodeReadsBack n }
{}

/// Whether the text is one `;` or one newline.
fn is_line_end(text: &str) -> bool
    ensures { IsTrue result ↔ EndsLine (chars text.now) }
{
    text == ";" || text == "\n"
}

/// Whether the terminator is one `;` or one newline, with no text after that.
fn is_line_ended(format: &kdl::KdlNodeFormat) -> bool
    ensures { IsTrue result ↔ IsLineEnded (Some format.now) }
{
    format.trailing.as_str().is_empty() && is_line_end(&format.terminator)
}

/// Returns whether the terminator of a node is one `;` or one newline, with no text after that. If so, and if the node
/// reads back, it ends by itself.
#[tactic(auto, using(crate::proofs::EndedNodes::line_ended))]
pub fn ends_line(node: &kdl::KdlNode) -> bool
    ensures exact { IsTrue result ↔ IsLineEnded (node_format_of node.now) }
    ensures ends { IsTrue result → NodeReadsBack node.now → NodeEnds node.now }
{
    match node.format() {
        Some(format) => is_line_ended(format),
        None => false,
    }
}

/// Returns whether a document has nodes, and the last one ends in `;` or a newline. If so, and if the document reads
/// back, the last node ends by itself.
pub fn last_ends(document: &kdl::KdlDocument) -> bool
    ensures exact { IsTrue result ↔ IsSomeAnd (slice_get (nodes_of document.now) (length (nodes_of document.now) - 1)) (λ n. IsLineEnded (node_format_of n)) }
    ensures ends { IsTrue result → DocumentReadsBack document.now → LastEnds document.now }
{
    match document.nodes().last() {
        Some(node) => ends_line(node),
        None => false,
    }
}

/// If a node is pushed to the list of nodes of a document, and the last node and the new one end by themselves, the
/// document reads back, and its data have the new node after the others. Without nodes, the text before the nodes has
/// to end by itself.
#[tactic(auto, using(crate::proofs::PushedNodes::pushed_reads, crate::proofs::PushedNodes::pushed_says))]
pub fn pushed_reads_back(document: &kdl::KdlDocument, node: &kdl::KdlNode)
    ensures reads { DocumentReadsBack document.now → LastEnds document.now → NodeEnds node.now
        → (v : Vec KdlNode Global) → v.items ≡ nodes_of document.now ++ (node.now ∷ [])
        → DocumentReadsBack (with_nodes document.now v) }
    ensures says { (v : Vec KdlNode Global) → v.items ≡ nodes_of document.now ++ (node.now ∷ [])
        → document_says (with_nodes document.now v) ≡
        said_with (length (nodes_of document.now)) (node_says node.now)
        (document_says document.now) }
{}

/// The block of a node that reads back reads back as a block.
#[tactic(auto, using(kdl::proofs::ReadingBack::block_reads_back))]
pub fn block_reads_back()
    ensures { (n : KdlNode) (d : KdlDocument) → NodeReadsBack n
        → block_of n ≡ Some d → BlockReadsBack d }
{}

/// An entry with neither a format nor a spelling reads back in any node.
pub fn unformed_reads_back()
    ensures { (e : KdlEntry) → IsUnformed (entry_tree e) → EntryReadsBack e }
{}

/// A new entry has neither a format nor a spelling, nor has a new property if its name has no spelling.
#[tactic(auto, using(crate::proofs::NewEntries::plain_unformed, crate::proofs::NewEntries::plain_under))]
pub fn new_entries_are_unformed()
    ensures alone { (e : Entry) (v : Value) → e ≡ plain_entry None v → IsWellFormed v
        → IsUnformed e }
    ensures named { (q : Sought) (e : Entry) (s : Text) (v : Value)
        → q ≡ property (plain_identifier s) → e ≡ plain_entry None v → IsWellFormed v
        → IsUnformed (under q e) }
{}

/// An entry with neither a format nor a spelling still has none with another key or another type that has no spelling,
/// and without a key.
#[tactic(auto, using(crate::proofs::NewEntries::named_unformed, crate::proofs::NewEntries::typed_unformed, crate::proofs::NewEntries::unnamed_unformed))]
pub fn named_entries_are_unformed()
    ensures named { (e f : Entry) (i : Identifier) (s : Text) → f ≡ record e { name = Some i }
        → i ≡ plain_identifier s → IsUnformed e → IsUnformed f }
    ensures typed { (e f : Entry) (i : Identifier) (s : Text) → f ≡ record e { ty = Some i }
        → i ≡ plain_identifier s → IsUnformed e → IsUnformed f }
    ensures unnamed { (e f : Entry) → f ≡ record e { name = None } → IsUnformed e → IsUnformed f }
{}

/// An entry that reads back does so with another value, if its format, if it has one, has the spelling that the value
/// prints.
#[tactic(auto, using(kdl::proofs::ReadingBack::other_value_reads))]
pub fn other_value_reads_back()
    ensures { (e f : KdlEntry) (v : Value) → EntryReadsBack e → IsWellFormed v
        → entry_tree f ≡ respelled v (entry_tree e) → EntryReadsBack f }
{}
