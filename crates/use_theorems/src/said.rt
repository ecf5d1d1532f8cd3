//! What look-ups find in a document that was parsed.

ghost use Rattle.kdl.specs.Words.{IsDocument, Nodes, integer_value, said_arg, said_dash_args, said_name, said_node, said_nodes, said_property_in, text_of};
ghost use Rattle.std.specs.Prelude.{◌≡◌, IfOk, chars, is_some, option_and_then, option_map, slice_get};

use kdl::{KdlDocument, ParseFailure};
use std::alloc::Global;

/// Returns the value of a property of the first node of a name, if it is an integer. The text's data have the same
/// value.
pub fn property_said(
    alloc: Global,
    text: &str,
    node: &str,
    name: &str,
) -> Result<Option<i128>, ParseFailure>
    ensures { IfOk result (λ o. (x : Nodes) → IsDocument (chars text.now) x
        → o ≡ option_and_then integer_value
        (said_property_in (chars node.now) (chars name.now) x)) }
{
    let document = KdlDocument::parse(alloc, text)?;
    let Some(found) = document.get(node) else {
        return Ok(None);
    };
    if !found.has_property(name) {
        return Ok(None);
    }
    Ok(found[name].as_integer())
}

/// Returns the integer that is the first argument of the first node of a name. The text has data that say so.
pub fn number_at(alloc: Global, text: &str, name: &str) -> Result<Option<i128>, ParseFailure>
    ensures { IfOk result (λ o. (x : Nodes) × IsDocument (chars text.now) x
        × (o ≡ option_and_then integer_value (said_arg (chars name.now) x))) }
{
    let document = KdlDocument::parse(alloc, text)?;
    match document.get_arg(name) {
        Some(value) => Ok(value.as_integer()),
        None => Ok(None),
    }
}

/// Returns the same as `number_at`. All data that the grammar derives for the text say so.
pub fn number_said(alloc: Global, text: &str, name: &str) -> Result<Option<i128>, ParseFailure>
    ensures { IfOk result (λ o. (x : Nodes) → IsDocument (chars text.now) x
        → o ≡ option_and_then integer_value (said_arg (chars name.now) x)) }
{
    let document = KdlDocument::parse(alloc, text)?;
    match document.get_arg(name) {
        Some(value) => Ok(value.as_integer()),
        None => Ok(None),
    }
}

/// Returns whether a text has a node of that name.
pub fn has_node(alloc: Global, text: &str, name: &str) -> Result<bool, ParseFailure>
    ensures { IfOk result (λ b. (x : Nodes) → IsDocument (chars text.now) x
        → b ≡ is_some (said_node (chars name.now) x)) }
{
    let document = KdlDocument::parse(alloc, text)?;
    Ok(document.get(name).is_some())
}

/// Returns the first item of a list, if it is an integer. The list is the arguments of the nodes named `-` in the block
/// of the first node of a name.
pub fn first_item(alloc: Global, text: &str, name: &str) -> Result<Option<i128>, ParseFailure>
    ensures { IfOk result (λ o. (x : Nodes) → IsDocument (chars text.now) x
        → o ≡ option_and_then integer_value
        (slice_get (said_dash_args (chars name.now) x) 0)) }
{
    let document = KdlDocument::parse(alloc, text)?;
    match document.iter_dash_args(name).next() {
        Some(value) => Ok(value.as_integer()),
        None => Ok(None),
    }
}

/// Returns the name of the first node of a text, if it has a node.
pub fn first_name(alloc: Global, text: &str) -> Result<Option<String>, ParseFailure>
    ensures { IfOk result (λ o. (x : Nodes) → IsDocument (chars text.now) x
        → option_map text_of o ≡ option_map said_name (slice_get (said_nodes x) 0)) }
{
    let document = KdlDocument::parse(alloc, text)?;
    match document.nodes().first() {
        Some(node) => Ok(Some(String::from_str(alloc, node.name().value())?)),
        None => Ok(None),
    }
}
