//! A program that sets a port in a text.

ghost use Rattle.kdl.specs.Words.{DocumentReadsBack, IsDocument, IsExchanged, IsSetInData, IsSyntax, Nodes, Text, document_prints, document_says, integer, plain_entry, plain_identifier, print_piece, said_node, text_of, value_tree};
ghost use Rattle.kdl_laws.specs.ClientWords.{IsPieceOf, said_entry_in};
ghost use Rattle.std.specs.Prelude.{◌≡◌, IfOk, IsSome, None, Some, chars, codes, pos};

use kdl::{KdlDocument, KdlEntry, KdlValue, NodeKey, ParseFailure};
use kdl_laws::bytes::replaced_piece_is_said;
use kdl_laws::reading_back::{
    found_node_has_format, new_entries_are_unformed, printed_reads_back, printed_reads_once,
};
use kdl_laws::said::property_set_is_said;
use kdl_laws::values::values_are_well_formed;
use std::alloc::{AllocError, Global};

/// Sets a property of the first node of a name to a new entry with that value. Does nothing if there is no such node.
pub fn set_in(
    alloc: Global,
    document: &mut KdlDocument,
    node: &str,
    name: &str,
    value: KdlValue,
) -> Result<(), AllocError>
    requires { DocumentReadsBack document.old }
    ensures reads { IfOk result (λ _. DocumentReadsBack document.new) }
    ensures sets { IfOk result (λ _.
        IsSome (said_node (chars node.now) (document_says document.old))
        → IsSetInData (chars node.now) (chars name.now) (value_tree value)
        (document_says document.old) (document_says document.new)) }
    ensures bytes { IfOk result (λ _.
        IsSome (said_node (chars node.now) (document_says document.old))
        → (p : Text) × IsPieceOf (said_entry_in (chars node.now) (chars name.now)
        (document_says document.old)) p × IsExchanged p (print_piece
        (plain_entry (Some (plain_identifier (chars name.now))) (value_tree value)))
        (document_prints document.old) (document_prints document.new)) }
    ensures stays { IfOk result (λ _.
        said_node (chars node.now) (document_says document.old) ≡ None
        → document_prints document.new ≡ document_prints document.old) }
{
    values_are_well_formed(&value);
    new_entries_are_unformed();
    property_set_is_said();
    found_node_has_format();
    replaced_piece_is_said();
    let key = NodeKey::from_text(alloc, name)?;
    let Some(found) = document.get_mut(node) else {
        return Ok(());
    };
    let Ok(_) = found.insert(key, KdlEntry::new(value)) else {
        return Err(AllocError);
    };
    Ok(())
}

/// Sets the port of the server in a text to a new entry with the value 8080, and returns the new text. Nothing else
/// changes.
pub fn set_port(alloc: Global, text: &str) -> Result<String, ParseFailure>
    // The output is a document.
    ensures document { IfOk result (λ out. (y : Nodes) × IsDocument (text_of out) y) }
    // In the data of the output, the port of the server is 8080. All else is as in the data of the text.
    ensures sets { IfOk result (λ out. (x y : Nodes)
        → IsDocument (chars text.now) x → IsDocument (text_of out) y
        → IsSome (said_node (chars (codes "server")) x)
        → IsSetInData (chars (codes "server")) (chars (codes "port"))
        (integer (pos 8080)) x y) }
    // The output is the text with one piece replaced, by the piece of the new entry. The replaced piece is that of the
    // old port, or empty if there was no port.
    ensures bytes { IfOk result (λ out. (x : Nodes) → IsDocument (chars text.now) x
        → IsSome (said_node (chars (codes "server")) x)
        → (p : Text) × IsPieceOf (said_entry_in (chars (codes "server")) (chars (codes "port")) x) p
        × IsExchanged p (print_piece
        (plain_entry (Some (plain_identifier (chars (codes "port")))) (integer (pos 8080))))
        (chars text.now) (text_of out)) }
    // Without a server, the output is the text.
    ensures stays { IfOk result (λ out. (x : Nodes) → IsDocument (chars text.now) x
        → said_node (chars (codes "server")) x ≡ None → text_of out ≡ chars text.now) }
    // A text that is refused is not a document.
    ensures refused { IsSyntax result → (x : Nodes) → IsDocument (chars text.now) x → ⊥ }
{
    printed_reads_back();
    printed_reads_once();
    let mut document = KdlDocument::parse(alloc, text)?;
    set_in(alloc, &mut document, "server", "port", KdlValue::from(8080))?;
    Ok(document.to_string(alloc)?)
}
