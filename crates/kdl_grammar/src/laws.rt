//! What is proved of the written grammar of documents and nodes.
#![tactic(auto, using(crate::proofs::Rules::laws))]

ghost use Rattle.kdl_grammar.specs.Laws.{OneDocument, OneNode, OneLaidDocument, OneLaidNode, LaidIsDerived, LaidNodeIsDerived, NodesAreLaid, FormerIsKept, ReadsBack, EditedIsLaid};

pub mod going_on;
pub mod machine;

/// No text can be read as two documents.
pub fn unambiguous()
    ensures { OneDocument }
{}

/// No text can be read as two nodes.
pub fn unambiguous_node()
    ensures { OneNode }
{}

/// At most one document is located in a text with the spans of its pieces.
pub fn one_laid_document()
    ensures { OneLaidDocument }
{}

/// At most one node is located as a whole text with the spans of its pieces.
pub fn one_laid_node()
    ensures { OneLaidNode }
{}

/// If a document is located in a text, the text is a document with its data, and it is what the document prints.
pub fn laid_is_derived()
    ensures { LaidIsDerived }
{}

/// If a node is located as a whole text, the text is a node with its data, and it is what the node prints.
pub fn laid_node_is_derived()
    ensures { LaidNodeIsDerived }
{}

/// Each text that is a node has a node with its data located in it.
pub fn nodes_are_laid()
    ensures { NodesAreLaid }
{}

/// Each text of the former language, in which spaces came before each slashdash, is a text of the present one with the
/// same data.
pub fn former_is_kept()
    ensures { FormerIsKept }
{}

/// A document that is located in its own printed text, with the spellings and the forms that it prints, reads back: the
/// text is a document with its data.
pub fn reads_back()
    ensures { ReadsBack }
{}

/// If a document is located in a text, each document that differs from it, spans aside, only in its nodes' entries
/// reads back from the text that it prints, and is located there with the spellings and the forms that it prints. Each
/// node may have some of its own entries, flagged or not, and entries without format and spelling, in any order.
pub fn edited_is_laid()
    ensures { EditedIsLaid }
{}
