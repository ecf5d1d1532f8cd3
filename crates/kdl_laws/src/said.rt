//! The data of a document: look-ups find an edit in them, names are compared by their characters, and arguments are
//! counted.

ghost use Rattle.kdl.specs.Change.{with_entries};
ghost use Rattle.kdl.specs.DocumentLookups.{node_named, nodes_of, with_node_named};
ghost use Rattle.kdl.specs.Fields.{held_entries};
ghost use Rattle.kdl.specs.Found.{IsSet};
ghost use Rattle.kdl.specs.Lookups.{entries_of};
ghost use Rattle.kdl.specs.Nodes.{said_with};
ghost use Rattle.kdl.specs.Said.{IsSetInData, said_arguments, said_nodes};
ghost use Rattle.kdl.specs.Tree.{document_says, node_says};
ghost use Rattle.kdl.specs.declared.document.KdlDocument.{KdlDocument};
ghost use Rattle.kdl.specs.declared.node.KdlNode.{KdlNode};
ghost use Rattle.kdl_grammar.specs.Data.{Node as NodeData, Nodes};
ghost use Rattle.kdl_parts.specs.EntryLists.{is_argument, same_text};
ghost use Rattle.kdl_value.specs.Data.{Value};
ghost use Rattle.std.specs.List.{count_by};
ghost use Rattle.std.specs.Prelude.{◌≡◌, ◌++◌, [], ◌∷◌, List, Some, ℕ, chars, length};
ghost use Rattle.std.specs.Str.{IsUtf8};

/// A property that is set in the first node of a name is set in the data of the document: x before, and y after it.
pub fn property_set_is_said()
    ensures { (s r : List ℕ) (v : Value) (d : KdlDocument) (n m : KdlNode) (x y : Nodes)
        → IsUtf8 s → IsUtf8 r → Some n ≡ node_named s d
        → m ≡ with_entries n (held_entries m) → IsSet r v n m → x ≡ document_says d
        → y ≡ document_says (with_node_named s d m) → IsSetInData (chars s) (chars r) v x y }
{}

/// A node that is inserted after the others is the last one in the data of the document: of e, which was d before.
#[tactic(auto, using(crate::proofs::PushedNodes::put_last))]
pub fn pushed_is_said_last()
    ensures { (d e : KdlDocument) (x : NodeData)
        → document_says e ≡ said_with (length (nodes_of d)) x (document_says d)
        → said_nodes (document_says e) ≡ said_nodes (document_says d) ++ (x ∷ []) }
{}

/// Texts have the same bytes exactly if they have the same characters.
#[tactic(auto, using(crate::proofs::SaidInMemory::texts_compared))]
pub fn texts_are_compared()
    ensures { (b s : List ℕ) → IsUtf8 b → IsUtf8 s
        → same_text b s ≡ same_text (chars b) (chars s) }
{}

/// A node has as many arguments as its data.
#[tactic(auto, using(crate::proofs::SaidInMemory::arguments_counted))]
pub fn arguments_are_counted()
    ensures { (n : KdlNode) → count_by is_argument (entries_of n) ≡
        length (said_arguments (node_says n)) }
{}
