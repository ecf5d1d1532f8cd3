//! Writing a document as JSON.

ghost use Rattle.json.specs.Token.{begin_array, end_array, key as token_key, string};
ghost use Rattle.kdl.specs.Words.{document_says, entry_data, entry_tree, identifier_tree, node_says, value_tree};
ghost use Rattle.kdl_layout.specs.WellFormed.{AreWellFormed, AreWellFormedEntries, IsWellFormedEntry};
ghost use Rattle.kdl_json.specs.Form.{entries_tokens, entry_tokens, float_tokens, is_json_number, json_text, member_tokens, node_json_text, node_tokens, nodes_tokens, value_tokens};
ghost use Rattle.kdl_json.specs.Heads.{head_of};
ghost use Rattle.kdl_json.specs.Writing.{Appends, IsFitHead};
ghost use Rattle.std.specs.Prelude.{◌≡◌, ◌∷◌, IfOk, Some, OnOk, codes, map, option_map, string_bytes};

use json::{Writer, is_number};
use kdl::{KdlDocument, KdlEntry, KdlIdentifier, KdlNode, KdlValue};
use kdl_layout::layout::well_formed;
use std::alloc::{AllocError, Global};

/// Writes a float: a number if its text is one, else its text in an object.
fn write_float(out: &mut Writer<Global>, text: &str) -> Result<(), AllocError>
    ensures { Appends result out.old out.new (float_tokens text.now (is_json_number text.now)) }
{
    if is_number(text) {
        return out.number(text);
    }
    out.begin_object()?;
    out.key("float")?;
    out.string(text)?;
    out.end_object()
}

/// Writes a value.
fn write_value(out: &mut Writer<Global>, value: &KdlValue) -> Result<(), AllocError>
    ensures { Appends result out.old out.new (value_tokens (value_tree value.now)) }
{
    match value {
        KdlValue::String(text) => out.string(text.as_str()),
        KdlValue::Integer(n) => {
            let mut buffer = itoa::Buffer::new();
            out.number(buffer.format(*n))
        }
        KdlValue::Float(float) => write_float(out, float.as_str()),
        KdlValue::Bool(b) => out.boolean(*b),
        KdlValue::Null => out.null(),
    }
}

/// Writes a key and a string.
fn write_member(out: &mut Writer<Global>, key: &str, text: &str) -> Result<(), AllocError>
    ensures { Appends result out.old out.new (λ ts. token_key key.now ∷ string text.now ∷ ts) }
{
    out.key(key)?;
    out.string(text)
}

/// Writes a key and an identifier.
fn write_name(out: &mut Writer<Global>, key: &str, name: &KdlIdentifier) -> Result<(), AllocError>
    ensures { Appends result out.old out.new
        (member_tokens key.now (Some (identifier_tree name.now).value)) }
{
    write_member(out, key, name.value())
}

/// Writes a key and an identifier, if there is one.
fn write_optional(
    out: &mut Writer<Global>,
    key: &str,
    name: Option<&KdlIdentifier>,
) -> Result<(), AllocError>
    ensures { Appends result out.old out.new (member_tokens key.now
        (option_map (λ i. i.value) (option_map (λ i. identifier_tree i.now) name.entry))) }
{
    match name {
        Some(name) => write_name(out, key, name),
        None => Ok(()),
    }
}

/// Writes an entry.
fn write_entry(out: &mut Writer<Global>, entry: &KdlEntry) -> Result<(), AllocError>
    ensures written { Appends result out.old out.new
        (entry_tokens (entry_data (entry_tree entry.now))) }
    ensures fit { OnOk result (IsWellFormedEntry (entry_data (entry_tree entry.now))) }
{
    well_formed(entry.value());
    out.begin_object()?;
    write_optional(out, "name", entry.name())?;
    write_optional(out, "type", entry.ty())?;
    out.key("value")?;
    write_value(out, entry.value())?;
    out.end_object()
}

/// Writes the entries.
fn write_entries(out: &mut Writer<Global>, entries: &[KdlEntry]) -> Result<(), AllocError>
    ensures written { Appends result out.old out.new
        (entries_tokens (map (λ e. entry_data (entry_tree e)) entries.now)) }
    ensures fit { OnOk result
        (AreWellFormedEntries (map (λ e. entry_data (entry_tree e)) entries.now)) }
{
    for entry in entries {
        write_entry(out, entry)?;
    }
    Ok(())
}

/// Writes a node up to its entries.
fn write_head(out: &mut Writer<Global>, node: &KdlNode) -> Result<(), AllocError>
    ensures written { Appends result out.old out.new (head_of (node_says node.now)) }
    ensures fit { OnOk result (IsFitHead (node_says node.now)) }
{
    out.begin_object()?;
    write_name(out, "name", node.name())?;
    write_optional(out, "type", node.ty())?;
    out.key("entries")?;
    out.begin_array()?;
    write_entries(out, node.entries())?;
    out.end_array()
}

/// Writes what comes before the nodes of a block.
fn write_block(out: &mut Writer<Global>) -> Result<(), AllocError>
    ensures { Appends result out.old out.new (λ ts. token_key (codes "children") ∷ begin_array ∷ ts) }
{
    out.key("children")?;
    out.begin_array()
}

/// Writes the nodes and the `]` after them.
fn write_nodes(
    alloc: Global,
    out: &mut Writer<Global>,
    document: &KdlDocument,
) -> Result<(), AllocError>
    ensures written { Appends result out.old out.new
        (λ ts. nodes_tokens (document_says document.now) (end_array ∷ ts)) }
    ensures fit { OnOk result (AreWellFormed (document_says document.now)) }
{
    let mut above: Vec<&[KdlNode]> = Vec::new(alloc);
    let mut rest = document.nodes();
    'left: loop {
        if let Some((node, after)) = rest.split_first() {
            write_head(out, node)?;
            rest = match node.children() {
                Some(block) => {
                    write_block(out)?;
                    above.push(after)?;
                    block.nodes()
                }
                None => {
                    out.end_object()?;
                    after
                }
            };
        } else {
            out.end_array()?;
            let Some(after) = above.pop() else {
                return Ok(());
            };
            out.end_object()?;
            rest = after;
        }
    }
}

/// Returns the data of the document as JSON, without spaces. Returns an error if an allocation fails.
///
/// Two documents with the same data have the same JSON, whatever their layouts.
pub fn to_json(alloc: Global, document: &KdlDocument) -> Result<String, AllocError>
    ensures text { IfOk result (λ t. string_bytes t ≡ json_text (document_says document.now)) }
    ensures well_formed { OnOk result (AreWellFormed (document_says document.now)) }
{
    let mut out = Writer::new(Vec::new(alloc));
    out.begin_array()?;
    write_nodes(alloc, &mut out, document)?;
    Ok(String::from_utf8(out.into_inner()).unwrap())
}

/// Writes a node.
fn write_node(alloc: Global, out: &mut Writer<Global>, node: &KdlNode) -> Result<(), AllocError>
    ensures { Appends result out.old out.new (node_tokens (node_says node.now)) }
{
    write_head(out, node)?;
    match node.children() {
        Some(block) => {
            write_block(out)?;
            write_nodes(alloc, out, block)?;
            out.end_object()
        }
        None => out.end_object(),
    }
}

/// Returns the data of the node as JSON, without spaces, as `to_json` writes it among others. Returns an error if an
/// allocation fails.
///
/// ```
/// let node = KdlNode::parse(alloc, "port 8080")?;
/// let text = node_to_json(alloc, &node)?; // {"name":"port","entries":[{"value":8080}]}
/// ```
pub fn node_to_json(alloc: Global, node: &KdlNode) -> Result<String, AllocError>
    ensures { IfOk result (λ t. string_bytes t ≡ node_json_text (node_says node.now)) }
{
    let mut out = Writer::new(Vec::new(alloc));
    write_node(alloc, &mut out, node)?;
    Ok(String::from_utf8(out.into_inner()).unwrap())
}
