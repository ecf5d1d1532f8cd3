//! The calls that do not allocate. What they are made on is created before.

use crate::calls::read;
use kdl::{
    FormatConfig, KdlDocument, KdlDocumentFormat, KdlEntry, KdlEntryFormat, KdlIdentifier, KdlNode,
    KdlNodeFormat, KdlValue, NodeKey, SourceSpan, Steps, is_kdl_space,
};
use std::alloc::{AllocError, Global};
use std::hash::{DefaultHasher, Hash, Hasher};
use std::mem;

/// A document with every call's subject in it.
const TEXT: &str =
    "(t)server 1 2.5 #null #true \"five\" name=a name=b { - 1; - \"two\" 3; port 80; }\n";

/// The number of names that the calls take.
const NAMES: usize = 8;

/// What the calls are made on: two documents of the text, and names, each of them `name`, which the calls take one by one.
#[derive(Drop)]
pub struct Subjects {
    document: KdlDocument,
    other: KdlDocument,
    names: Vec<String>,
}

/// The names.
fn names(alloc: Global) -> Result<Vec<String>, AllocError> {
    let mut names = Vec::new(alloc);
    for _ in 0..NAMES {
        names.push(String::from_str(alloc, "name")?)?;
    }
    Ok(names)
}

/// Creates the subjects. This allocates.
pub fn prepare(alloc: Global) -> Result<Subjects, AllocError> {
    let document = read(alloc, TEXT)?;
    let other = read(alloc, TEXT)?;
    let names = names(alloc)?;
    Ok(Subjects {
        document,
        other,
        names,
    })
}

/// The next name, or an empty one if none is left.
fn next(alloc: Global, names: &mut Vec<String>) -> String {
    match names.pop() {
        Some(name) => name,
        None => String::new(alloc),
    }
}

/// Whether something was taken. It is dropped.
fn is_there<T: Drop>(taken: Option<T>) -> bool {
    taken.is_some()
}

/// The hash of an item.
fn hash_of<T: Hash>(item: &T) -> u64 {
    let mut state = DefaultHasher::new();
    item.hash(&mut state);
    state.finish()
}

/// Whether the parts of two equal nodes have equal hashes.
fn have_one_hash(node: &KdlNode, other: &KdlNode) -> bool {
    let mut all = (hash_of(node) == hash_of(other)) & (node == other);
    all &= hash_of(node.name()) == hash_of(other.name());
    for (one, two) in node.iter().zip(other.iter()) {
        all &= (hash_of(one) == hash_of(two)) & (hash_of(one.value()) == hash_of(two.value()));
    }
    all
}

/// Whether the values by an index and a name are those that look-ups find.
fn is_indexed(node: &KdlNode) -> bool {
    let mut all = node.argument_count() == 5;
    match node.get(NodeKey::Index(4)) {
        Some(value) => all &= node[4] == *value,
        None => all = false,
    }
    all & node.has_property("name") && node["name"].is_string()
}

/// Whether each test of a value's kind agrees with its look-up, and one of them is true.
fn has_kind(value: &KdlValue) -> bool {
    let mut all = value.as_bool().is_some() == value.is_bool();
    all &= value.as_integer().is_some() == value.is_integer();
    all &= value.as_float().is_some() == value.is_float();
    all &= value.as_string().is_some() == value.is_string();
    let scalar = value.is_null() | value.is_bool() | value.is_string();
    all & (scalar | value.is_integer() | value.is_float())
}

/// The calls that look at a node.
fn node_is_read(node: &KdlNode) -> bool {
    let mut all = node.name().value() == "server";
    all &= node.ty().is_some() & node.format().is_some();
    all &= (node.len() == 7) & !node.is_empty() & (node.span().len > 0);
    all &= node.has_property("name") & !node.has_property("five");
    all &= node.entry(NodeKey::Index(1)).is_some() & node.iter_children().next().is_some();
    all &= is_indexed(node) & (node.entries().len() == 7);
    for entry in node.iter() {
        all &= entry_is_read(entry);
    }
    all
}

/// The calls that look at an entry.
fn entry_is_read(entry: &KdlEntry) -> bool {
    let all = has_kind(entry.value()) & entry.format().is_some() & entry.ty().is_none();
    all & (entry.name().is_none() | (entry.span().len > 0))
}

/// The calls that look at a document.
fn document_is_read(document: &KdlDocument, other: &KdlDocument) -> bool {
    let mut all = (document == other) & (hash_of(document) == hash_of(other));
    for (node, same) in document.nodes().iter().zip(other.nodes().iter()) {
        all &= have_one_hash(node, same);
    }
    all &= document.format().is_some() & (document.span().len > 0);
    all &= document.get("server").is_some() & document.get("port").is_none();
    all &= document.get_arg("server").is_some();
    all &= document.iter_args("server").next().is_some();
    all & document.iter_dash_args("server").next().is_some()
}

/// The calls that create and change an entry.
fn entry_is_made(alloc: Global, names: &mut Vec<String>) -> bool {
    let value = KdlValue::from(Some(KdlValue::from(true)));
    let mut entry = KdlEntry::from((KdlIdentifier::from(next(alloc, names)), value));
    entry.set_value(KdlValue::from(next(alloc, names)));
    entry.set_ty(KdlIdentifier::from(next(alloc, names)));
    entry_is_changed(alloc, &mut entry)
}

/// The calls that change an identifier.
fn name_is_changed(name: &mut KdlIdentifier) -> bool {
    name.clear_format();
    name.autoformat();
    name.repr().is_none()
}

/// The calls that change an entry, which has a name and a type, and its value.
fn entry_is_changed(alloc: Global, entry: &mut KdlEntry) -> bool {
    entry.set_format(KdlEntryFormat::new(alloc));
    entry.keep_format();
    entry.set_span(SourceSpan { offset: 1, len: 2 });
    let mut all = entry.value().is_string() & entry.format_mut().is_some();
    all &= entry.name_mut().is_some_and(name_is_changed);
    entry.autoformat();
    entry.clear_format();
    all &= entry.format().is_none();
    entry.set_name(None);
    *entry.value_mut() = KdlValue::from(7);
    all &= *entry.value() < KdlValue::Null;
    all & entry.name().is_none() & entry.ty_mut().is_some()
}

/// The calls that lend the parts of a document, whose first node has an argument.
fn document_is_lent(document: &mut KdlDocument) -> bool {
    let mut all = false;
    if let Some(value) = document.get_arg_mut("server") {
        *value = KdlValue::from(7);
        all = true;
    }
    if let Some(node) = document.nodes_mut().first_mut() {
        all &= node_is_lent(node);
    }
    all
}

/// The calls that lend the entries of a node.
fn node_is_lent(node: &mut KdlNode) -> bool {
    if node.get(NodeKey::Index(0)).is_none() {
        return false;
    }
    node[0] = KdlValue::from(8);
    let all = node
        .get(NodeKey::Index(0))
        .is_some_and(|value| *value == KdlValue::from(8));
    node.entries_mut().truncate(7);
    all & (node.len() == 7)
}

/// The number of nodes that the document gives away.
fn count_nodes(document: KdlDocument) -> usize {
    let mut count: usize = 0;
    for node in document {
        count = count.saturating_add(1);
        drop(node);
    }
    count
}

/// The calls that remove a node's properties of the name, which is taken from the list, and then all else that is in
/// the node.
fn node_is_emptied(alloc: Global, node: &mut KdlNode, names: &mut Vec<String>) -> bool {
    let mut all = node.get_mut(NodeKey::Index(0)).is_some();
    all &= node.get(NodeKey::from(next(alloc, names))).is_some();
    all &= is_there(node.remove(NodeKey::from(next(alloc, names))));
    node.retain(|entry| entry.name().is_none());
    all &= node.entry(NodeKey::from(next(alloc, names))).is_none();
    all &= node.len() == 5;
    for entry in node.iter_mut() {
        entry.clear_format();
    }
    for child in node.iter_children_mut() {
        child.clear_format();
    }
    node.clear_format_recursive();
    node.clear();
    node.clear_children();
    all & node.is_empty() & node.children_mut().is_none()
}

/// The calls that set the parts of a node.
fn node_is_changed(alloc: Global, node: &mut KdlNode, names: &mut Vec<String>) -> bool {
    node.set_name(KdlIdentifier::from(next(alloc, names)));
    node.set_ty(KdlIdentifier::from(next(alloc, names)));
    node.set_format(KdlNodeFormat::new(alloc));
    let all = node.format_mut().is_some() & node.ty_mut().is_some();
    node.clear_format();
    node.ensure_children()
        .set_span(SourceSpan { offset: 0, len: 0 });
    node.set_children(KdlDocument::new(alloc));
    all & node.children_mut().is_some()
}

/// Makes each call, and returns whether each returned what it should.
pub fn calls(alloc: Global, subjects: &mut Subjects) -> bool {
    let Subjects {
        document,
        other,
        names,
    } = subjects;
    let mut all = document_is_read(document, other) & document_is_lent(other);
    all &= count_nodes(mem::replace(other, KdlDocument::new(alloc))) == 1;
    if let Some(server) = document.get_mut("server") {
        all &= node_is_read(server);
        all &= node_is_emptied(alloc, server, names);
        all &= node_is_changed(alloc, server, names);
    }
    all &= entry_is_made(alloc, names) & names.is_empty();
    document.retain_nodes(|node| node.children().is_none());
    all &= document.nodes().is_empty();
    document.set_format(KdlDocumentFormat::new(alloc));
    document.clear_format();
    document.clear_format_recursive();
    let config = FormatConfig::builder()
        .indent_level(2)
        .indent("\t")
        .no_comments(true)
        .build();
    all & is_kdl_space(" ") & (Steps::new().count() == 0) & (config.indent_level == 2)
}
