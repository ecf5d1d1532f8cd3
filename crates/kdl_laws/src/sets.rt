//! The data and the printed text of a document with another value for an argument.

ghost use Rattle.kdl.specs.DocumentLookups.{node_named, with_node_named};
ghost use Rattle.kdl.specs.Lookups.{found_entry, with_found_entry};
ghost use Rattle.kdl.specs.ReadsBack.{DocumentReadsBack, respelled};
ghost use Rattle.kdl.specs.Tree.{document_prints, document_says};
ghost use Rattle.kdl.specs.declared.document.KdlDocument.{KdlDocument};
ghost use Rattle.kdl.specs.declared.node.KdlNode.{KdlNode};
ghost use Rattle.kdl_entry.specs.Tree.{entry_tree};
ghost use Rattle.kdl_entry.specs.declared.entry.KdlEntry.{KdlEntry};
ghost use Rattle.kdl_laws.specs.ArgumentSet.{HasInstead, with_said_arg};
ghost use Rattle.kdl_parts.specs.declared.key.NodeKey.TheVariants.{Index};
ghost use Rattle.kdl_value.specs.Data.{Value};
ghost use Rattle.kdl_value.specs.Print.{print_value};
ghost use Rattle.kdl_value.specs.WellFormed.{IsWellFormed};
ghost use Rattle.std.specs.Prelude.{◌≡◌, List, Some, ℕ, chars};
ghost use Rattle.std.specs.Str.{IsUtf8};

/// The first argument of the first node of a name gets another value, and its spelling if the entry has a format. The
/// document still reads back, its data are the old ones with that value, and its printed text changes only in that
/// value.
#[tactic(auto, using(crate::proofs::ArgumentSet::argument_set_reads, crate::proofs::ArgumentSet::argument_set_says, crate::proofs::ArgumentSet::argument_set_prints))]
pub fn argument_is_set()
    ensures reads { (s : List ℕ) (v : Value) (d : KdlDocument) (n : KdlNode) (e f : KdlEntry)
        → IsWellFormed v → DocumentReadsBack d → Some n ≡ node_named s d
        → Some e ≡ found_entry (Index 0) n → entry_tree f ≡ respelled v (entry_tree e)
        → DocumentReadsBack (with_node_named s d (with_found_entry (Index 0) n f)) }
    ensures says { (s : List ℕ) (v : Value) (d : KdlDocument) (n : KdlNode) (e f : KdlEntry)
        → IsUtf8 s → Some n ≡ node_named s d → Some e ≡ found_entry (Index 0) n
        → entry_tree f ≡ respelled v (entry_tree e)
        → document_says (with_node_named s d (with_found_entry (Index 0) n f)) ≡
        with_said_arg (chars s) v (document_says d) }
    ensures prints { (s : List ℕ) (v : Value) (d : KdlDocument) (n : KdlNode) (e f : KdlEntry)
        → DocumentReadsBack d → Some n ≡ node_named s d → Some e ≡ found_entry (Index 0) n
        → entry_tree f ≡ respelled v (entry_tree e)
        → HasInstead (print_value v) (document_prints d)
        (document_prints (with_node_named s d (with_found_entry (Index 0) n f))) }
{}
