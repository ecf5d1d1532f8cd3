//! Sets one number in a document.

ghost use Rattle.kdl.specs.Words.{DocumentReadsBack, IsDocument, IsSyntax, Nodes, TellsOnSyntax, argument_named, document_prints, document_says, entry_tree, integer, print_value, respelled, said_arg, text_of, value_tree};
ghost use Rattle.kdl_laws.specs.ClientWords.{HasInstead, with_said_arg};
ghost use Rattle.std.specs.Prelude.{◌≡◌, IfNone, IfOk, IfSome, IsSome, None, chars};

use crate::faults::report;
use kdl::{KdlDocument, KdlEntry, KdlValue, NodeKey, ParseFailure};
use kdl_laws::reading_back::{printed_is_text, printed_reads_back, printed_reads_once};
use kdl_laws::sets::argument_is_set;
use kdl_laws::values::values_are_well_formed;
use std::alloc::Global;
use std::io;

/// Returns the text with the number as the first argument of the first node of that name, or `None` if there is no such
/// argument.
pub fn edit(
    alloc: Global,
    text: &str,
    name: &str,
    number: i128,
) -> Result<Option<String>, ParseFailure>
    // The output is a document with the data of the text, with the number in its place.
    ensures says { IfOk result (λ o. IfSome o (λ out. (x : Nodes) → IsDocument (chars text.now) x
        → IsDocument (text_of out) (with_said_arg (chars name.now) (integer number) x))) }
    // It is the text, with the number in place of the former value: all other bytes are unchanged.
    ensures bytes { IfOk result (λ o. IfSome o (λ out.
        HasInstead (print_value (integer number)) (chars text.now) (text_of out))) }
    // Without an output, the text has no such argument.
    ensures missing { IfOk result (λ o. IfNone o ((x : Nodes) → IsDocument (chars text.now) x
        → said_arg (chars name.now) x ≡ None)) }
    // A refused text is not a document, and the error has its faults.
    ensures refused { IsSyntax result → (x : Nodes) → IsDocument (chars text.now) x → ⊥ }
    ensures told { TellsOnSyntax text.now result }
{
    printed_reads_back();
    printed_reads_once();
    printed_is_text();
    let mut document = KdlDocument::parse(alloc, text)?;
    if document.get_arg(name).is_none() {
        return Ok(None);
    }
    let value = KdlValue::from(number);
    let spelling = value.to_string(alloc)?;
    set(&mut document, name, value, spelling);
    Ok(Some(document.to_string(alloc)?))
}

/// Sets the first argument of the first node of that name, if there is one, with its spelling.
fn set(document: &mut KdlDocument, name: &str, value: KdlValue, spelling: String)
    requires reads { DocumentReadsBack document.old }
    requires spells { text_of spelling ≡ print_value (value_tree value) }
    ensures reads { DocumentReadsBack document.new }
    ensures says { IsSome (argument_named name.now document.old) → document_says document.new ≡
        with_said_arg (chars name.now) (value_tree value) (document_says document.old) }
    ensures bytes { IsSome (argument_named name.now document.old) → HasInstead
        (print_value (value_tree value)) (document_prints document.old) (document_prints document.new) }
{
    values_are_well_formed(&value);
    argument_is_set();
    let Some(node) = document.get_mut(name) else {
        return;
    };
    let Some(entry) = node.entry_mut(NodeKey::Index(0)) else {
        return;
    };
    respell(entry, value, spelling);
}

/// Sets the value, and its spelling if the entry has a format. The type and the texts around the value are unchanged.
fn respell(entry: &mut KdlEntry, value: KdlValue, spelling: String)
    requires { text_of spelling ≡ print_value (value_tree value) }
    ensures { entry_tree entry.new ≡ respelled (value_tree value) (entry_tree entry.old) }
{
    entry.set_value(value);
    if let Some(format) = entry.format_mut() {
        format.value_repr = spelling;
    }
}

/// Reports why nothing is written, and returns false.
fn refuse(rt: &HostRuntime, file: &str, why: &str) -> io::Result<bool> {
    eprintln!(rt; "{file}: {why}")?;
    Ok(false)
}

/// Writes the text of the file with the number in its place, or reports why it does not, and returns whether it does.
pub fn show(
    rt: &HostRuntime,
    file: &str,
    text: &str,
    name: &str,
    number: &str,
) -> io::Result<bool> {
    let Ok(number) = number.parse() else {
        return refuse(rt, file, "NUMBER is not a whole number");
    };
    match edit(rt.alloc(), text, name, number) {
        Ok(Some(text)) => {
            print!(rt; "{text}")?;
            Ok(true)
        }
        Ok(None) => refuse(rt, file, "no node of that name has an argument"),
        Err(failure) => report(rt, file, &failure),
    }
}
