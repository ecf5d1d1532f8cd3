//! The calls that allocate.

use crate::parts;
use kdl::{
    FloatFailure, FormatConfig, KdlDocument, KdlEntry, KdlFloat, KdlIdentifier, KdlNode, KdlValue,
    Layout, NodeKey, ParseFailure, Steps,
};
use std::alloc::{AllocError, Global};
use std::fmt::Display;

/// A call, with what it is made on.
pub enum Call {
    ParseDocument,
    ParseCounted,
    ParseNode,
    ParseEntry,
    ParseIdentifier,
    ParseRefused,
    Check,
    CloneDocument,
    CloneParts,
    CloneError,
    Length,
    IsEmpty,
    PartLengths,
    PushNode,
    InsertNode,
    PushChild,
    Push,
    InsertNamed,
    InsertFirst,
    GetOrNull,
    Sort,
    Autoformat,
    AutoformatNoComments,
    AutoformatConfig,
    AutoformatNodeConfig,
    AutoformatLayout,
    AutoformatNodeLayout,
    Texts,
    Float,
}

/// All of them.
pub static CALLS: [Call; 29] = [
    Call::ParseDocument,
    Call::ParseCounted,
    Call::ParseNode,
    Call::ParseEntry,
    Call::ParseIdentifier,
    Call::ParseRefused,
    Call::Check,
    Call::CloneDocument,
    Call::CloneParts,
    Call::CloneError,
    Call::Length,
    Call::IsEmpty,
    Call::PartLengths,
    Call::PushNode,
    Call::InsertNode,
    Call::PushChild,
    Call::Push,
    Call::InsertNamed,
    Call::InsertFirst,
    Call::GetOrNull,
    Call::Sort,
    Call::Autoformat,
    Call::AutoformatNoComments,
    Call::AutoformatConfig,
    Call::AutoformatNodeConfig,
    Call::AutoformatLayout,
    Call::AutoformatNodeLayout,
    Call::Texts,
    Call::Float,
];

/// Returns what the call on the text, or on an item of it, returns.
pub fn answer(alloc: Global, text: &str, call: &Call) -> Result<String, AllocError> {
    match call {
        Call::ParseDocument => printed(alloc, KdlDocument::parse(alloc, text)),
        Call::ParseCounted => counted(alloc, text),
        Call::ParseNode => printed(alloc, KdlNode::parse(alloc, "(t)n 1 k=\"x\" { c; }; ")),
        Call::ParseEntry => printed(alloc, KdlEntry::parse(alloc, " /-0 k = (t)\"\\u{e9}\" ")),
        Call::ParseIdentifier => printed(alloc, KdlIdentifier::parse(alloc, "#\"a b\"#")),
        Call::ParseRefused => refused(alloc),
        Call::Check => checked(alloc, text),
        Call::CloneError => parts::error_copied(alloc),
        Call::Texts => made(alloc, text),
        Call::Float => float(alloc),
        _ => on_document(alloc, &mut read(alloc, text)?, call),
    }
}

/// What the call on a document, or on its first node, returns.
fn on_document(
    alloc: Global,
    document: &mut KdlDocument,
    call: &Call,
) -> Result<String, AllocError> {
    match call {
        Call::CloneDocument => cloned(alloc, document),
        Call::CloneParts => parts::copied(alloc, document),
        Call::Length => length(alloc, document),
        Call::IsEmpty => emptiness(alloc, document),
        Call::PartLengths => parts::lengths(alloc, document),
        Call::PushNode => node_put(alloc, document, false),
        Call::InsertNode => node_put(alloc, document, true),
        Call::Autoformat => laid_out(alloc, document, call),
        Call::AutoformatNoComments => stripped(alloc, document, call),
        Call::AutoformatConfig => laid_out(alloc, document, call),
        Call::AutoformatNodeConfig => laid_out(alloc, document, call),
        Call::AutoformatLayout => laid_out(alloc, document, call),
        Call::AutoformatNodeLayout => laid_out(alloc, document, call),
        _ => on_first(alloc, document, call),
    }
}

/// What the call on the first node of a document returns.
fn on_first(alloc: Global, document: &mut KdlDocument, call: &Call) -> Result<String, AllocError> {
    let before = document.clone()?;
    match (document.nodes_mut().first_mut(), before.nodes().first()) {
        (Some(node), Some(before)) => on_node(alloc, node, before, call),
        _ => String::from_str(alloc, "no node"),
    }
}

/// What the call on a node returns. If an allocation fails, the node is unchanged.
fn on_node(
    alloc: Global,
    node: &mut KdlNode,
    before: &KdlNode,
    call: &Call,
) -> Result<String, AllocError> {
    if changes(alloc, node, before, call)? {
        node.to_string(alloc)
    } else {
        String::from_str(alloc, "the node changed")
    }
}

/// Makes the call on the node, and again if an allocation failed. Returns false if the failed call changed the node.
fn changes(
    alloc: Global,
    node: &mut KdlNode,
    before: &KdlNode,
    call: &Call,
) -> Result<bool, AllocError> {
    match call {
        Call::PushChild => child_pushed(alloc, node, before),
        Call::Push => Ok(pushed(node, before)),
        Call::InsertNamed => inserted(alloc, node, before),
        Call::InsertFirst => Ok(inserted_first(node, before)),
        Call::GetOrNull => null_pushed(node, before),
        _ => sorted(node),
    }
}

/// Whether a call succeeded. Its result is dropped.
fn is_done<T: Drop, E: Drop>(given: Result<T, E>) -> bool {
    given.is_ok()
}

/// The document of the text, or an empty one if the text is not a document.
pub fn read(alloc: Global, text: &str) -> Result<KdlDocument, AllocError> {
    match KdlDocument::parse(alloc, text) {
        Ok(document) => Ok(document),
        Err(ParseFailure::Memory) => Err(AllocError),
        Err(ParseFailure::Syntax(_)) => Ok(KdlDocument::new(alloc)),
    }
}

/// How many steps are counted.
fn counted(alloc: Global, text: &str) -> Result<String, AllocError> {
    let mut steps = Steps::new();
    match KdlDocument::parse_counted(alloc, text, &mut steps) {
        Ok(_) => numbered(alloc, steps.count(), "steps"),
        Err(ParseFailure::Memory) => Err(AllocError),
        Err(ParseFailure::Syntax(_)) => String::from_str(alloc, "no document"),
    }
}

/// The text of an item that was read.
fn printed<T: Display + Drop>(
    alloc: Global,
    read: Result<T, ParseFailure>,
) -> Result<String, AllocError> {
    match read {
        Ok(item) => item.to_string(alloc),
        Err(ParseFailure::Memory) => Err(AllocError),
        Err(ParseFailure::Syntax(_)) => String::from_str(alloc, "no item"),
    }
}

/// A number of these.
fn numbered(alloc: Global, count: u64, what: &str) -> Result<String, AllocError> {
    format!(in alloc; "{count} {what}")
}

/// How many faults are found in a text with three.
fn refused(alloc: Global) -> Result<String, AllocError> {
    match KdlDocument::parse(alloc, parts::FAULTS) {
        Ok(_) => String::from_str(alloc, "a document"),
        Err(ParseFailure::Memory) => Err(AllocError),
        Err(ParseFailure::Syntax(error)) => numbered(
            alloc,
            error.diagnostics.len() as u64,
            "faults",
        ),
    }
}

/// How many faults are found in the text, and in a text with three.
fn checked(alloc: Global, text: &str) -> Result<String, AllocError> {
    let own = faults_found(alloc, text)?;
    let wrong = faults_found(alloc, parts::FAULTS)?;
    format!(in alloc; "{own} and {wrong} faults")
}

/// How many faults are found in a text.
fn faults_found(alloc: Global, text: &str) -> Result<usize, AllocError> {
    match KdlDocument::check(alloc, text) {
        Ok(()) => Ok(0),
        Err(ParseFailure::Memory) => Err(AllocError),
        Err(ParseFailure::Syntax(error)) => Ok(error.diagnostics.len()),
    }
}

/// A copy of the document, which equals it.
fn cloned(alloc: Global, document: &KdlDocument) -> Result<String, AllocError> {
    let copy = document.clone()?;
    if copy == *document {
        copy.to_string(alloc)
    } else {
        String::from_str(alloc, "another document")
    }
}

/// The length of the printed document.
fn length(alloc: Global, document: &KdlDocument) -> Result<String, AllocError> {
    numbered(alloc, document.len(alloc)? as u64, "bytes")
}

/// Whether the document prints nothing.
fn emptiness(alloc: Global, document: &KdlDocument) -> Result<String, AllocError> {
    let is_empty = document.is_empty(alloc)?;
    format!(in alloc; "empty: {is_empty}")
}

/// A new node, which ends in a comment.
fn new_node(alloc: Global) -> Result<KdlNode, AllocError> {
    match KdlNode::parse(alloc, "new // last") {
        Ok(node) => Ok(node),
        Err(_) => Err(AllocError),
    }
}

/// Inserts a node first or last. If an allocation fails, the node is returned, and the document is unchanged.
fn node_put(alloc: Global, document: &mut KdlDocument, first: bool) -> Result<String, AllocError> {
    let before = document.clone()?;
    let is_kept = match put_node(document, new_node(alloc)?, first) {
        Ok(()) => true,
        Err((node, _)) => node_put_again(document, &before, node, first),
    };
    if is_kept {
        document.to_string(alloc)
    } else {
        String::from_str(alloc, "the document changed")
    }
}

/// Inserts the node before the others, or after them.
fn put_node(
    document: &mut KdlDocument,
    node: KdlNode,
    first: bool,
) -> Result<(), (KdlNode, AllocError)> {
    if first {
        document.insert_node(0, node)
    } else {
        document.push_node(node)
    }
}

/// Inserts the node that was returned, and returns whether the document was unchanged.
fn node_put_again(
    document: &mut KdlDocument,
    before: &KdlDocument,
    node: KdlNode,
    first: bool,
) -> bool {
    let is_kept = *document == *before;
    is_done(put_node(document, node, first));
    is_kept
}

/// Pushes a child. If an allocation fails, the child is returned.
fn child_pushed(alloc: Global, node: &mut KdlNode, before: &KdlNode) -> Result<bool, AllocError> {
    match node.push_child(new_node(alloc)?) {
        Ok(()) => Ok(true),
        Err((child, _)) => Ok(child_pushed_again(node, before, child)),
    }
}

/// Pushes the child that was returned, and returns whether the node was unchanged.
fn child_pushed_again(node: &mut KdlNode, before: &KdlNode, child: KdlNode) -> bool {
    let is_kept = *node == *before;
    is_done(node.push_child(child));
    is_kept
}

/// Pushes an entry. If an allocation fails, the entry is returned.
fn pushed(node: &mut KdlNode, before: &KdlNode) -> bool {
    match node.push(KdlEntry::new(KdlValue::from(7))) {
        Ok(()) => true,
        Err((entry, _)) => pushed_again(node, before, entry),
    }
}

/// Pushes the entry that was returned, and returns whether the node was unchanged.
fn pushed_again(node: &mut KdlNode, before: &KdlNode, entry: KdlEntry) -> bool {
    let is_kept = *node == *before;
    is_done(node.push(entry));
    is_kept
}

/// Inserts a property.
fn inserted(alloc: Global, node: &mut KdlNode, before: &KdlNode) -> Result<bool, AllocError> {
    if insert_named(alloc, node)? {
        return Ok(true);
    }
    let is_kept = *node == *before;
    insert_named(alloc, node)?;
    Ok(is_kept)
}

/// Inserts a property, and returns whether the allocations succeeded.
fn insert_named(alloc: Global, node: &mut KdlNode) -> Result<bool, AllocError> {
    let key = NodeKey::from_text(alloc, "new key")?;
    Ok(is_done(node.insert(key, KdlEntry::new(KdlValue::Null))))
}

/// Inserts an argument before all others.
fn inserted_first(node: &mut KdlNode, before: &KdlNode) -> bool {
    if insert_first(node) {
        return true;
    }
    let is_kept = *node == *before;
    insert_first(node);
    is_kept
}

/// Inserts an argument before all others, and returns whether the allocations succeeded.
fn insert_first(node: &mut KdlNode) -> bool {
    let entry = KdlEntry::new(KdlValue::from(true));
    is_done(node.insert(NodeKey::Index(0), entry))
}

/// Pushes a null property if there is none.
fn null_pushed(node: &mut KdlNode, before: &KdlNode) -> Result<bool, AllocError> {
    if node.get_or_null_mut("nothing").is_ok() {
        return Ok(true);
    }
    let is_kept = *node == *before;
    node.get_or_null_mut("nothing")?;
    Ok(is_kept)
}

/// Sorts the entries by their values. If an allocation fails, they are in an unspecified order, and are sorted then.
fn sorted(node: &mut KdlNode) -> Result<bool, AllocError> {
    if sort(node).is_err() {
        sort(node)?;
    }
    Ok(true)
}

/// Sorts the entries by their values, the greatest first.
fn sort(node: &mut KdlNode) -> Result<(), AllocError> {
    node.sort_by(|a, b| b.value().cmp(a.value()))
}

/// The canonical text of the document's data.
fn canonical(alloc: Global, document: &mut KdlDocument) -> Result<String, AllocError> {
    document.autoformat_no_comments()?;
    document.to_string(alloc)
}

/// Whether the text that the document prints is a document with its data.
fn reads_back(alloc: Global, document: &KdlDocument) -> Result<bool, AllocError> {
    let text = document.to_string(alloc)?;
    let printed = canonical(alloc, &mut read(alloc, &text)?)?;
    Ok(printed == canonical(alloc, &mut document.clone()?)?)
}

/// The text of a document that is laid out. If an allocation failed in that, lays it out again: until then it prints a
/// text with the same data.
fn laid_out(alloc: Global, document: &mut KdlDocument, call: &Call) -> Result<String, AllocError> {
    if lay_out(document, call).is_err() {
        if !reads_back(alloc, document)? {
            return String::from_str(alloc, "the printed data changed");
        }
        lay_out(document, call)?;
    }
    document.to_string(alloc)
}

/// The canonical text of the document, also after a layout in which an allocation failed.
fn stripped(alloc: Global, document: &mut KdlDocument, call: &Call) -> Result<String, AllocError> {
    let _ = document.autoformat();
    laid_out(alloc, document, call)
}

/// Formats the document with its comments, without them, with tabs, or with its blank lines; or only its first node.
fn lay_out(document: &mut KdlDocument, call: &Call) -> Result<(), AllocError> {
    match call {
        Call::Autoformat => document.autoformat(),
        Call::AutoformatNoComments => document.autoformat_no_comments(),
        Call::AutoformatConfig => document.autoformat_config(&tabs()),
        Call::AutoformatLayout => document.autoformat_layout(&layout()),
        _ => lay_out_first(document, call),
    }
}

/// Formats the first node of the document with its comments, and with tabs or with its blank lines.
fn lay_out_first(document: &mut KdlDocument, call: &Call) -> Result<(), AllocError> {
    match document.nodes_mut().first_mut() {
        Some(node) => lay_out_node(node, call),
        None => Ok(()),
    }
}

/// Formats the node with its comments, and with tabs or with its blank lines.
fn lay_out_node(node: &mut KdlNode, call: &Call) -> Result<(), AllocError> {
    match call {
        Call::AutoformatNodeConfig => node.autoformat_config(&tabs()),
        _ => node.autoformat_layout(&layout()),
    }
}

/// A configuration with a tab for each level, from level 1 on.
fn tabs() -> FormatConfig<'static> {
    FormatConfig::builder().indent("\t").indent_level(1).build()
}

/// A layout that keeps one blank line.
fn layout() -> Layout<'static> {
    Layout {
        blank_lines: 1,
        ..Layout::new()
    }
}

/// Creates a key, and then a name and a value of the text.
fn made(alloc: Global, text: &str) -> Result<String, AllocError> {
    drop(NodeKey::from_text(alloc, text)?);
    let mut made = name_made(alloc, text)?;
    made.push_str(&value_made(alloc, text)?)?;
    Ok(made)
}

/// A name of the text.
fn name_made(alloc: Global, text: &str) -> Result<String, AllocError> {
    KdlIdentifier::from_text(alloc, text)?.to_string(alloc)
}

/// A value of the text.
fn value_made(alloc: Global, text: &str) -> Result<String, AllocError> {
    KdlValue::from_text(alloc, text)?.to_string(alloc)
}

/// A float of a text.
fn float(alloc: Global) -> Result<String, AllocError> {
    match KdlFloat::new(alloc, "-1.25e+3") {
        Ok(float) => float.to_string(alloc),
        Err(FloatFailure::Memory) => Err(AllocError),
        Err(FloatFailure::NotAFloat) => String::from_str(alloc, "no float"),
    }
}
