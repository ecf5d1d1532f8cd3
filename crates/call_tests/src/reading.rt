//! What the tests share: items of a text or a name, and assertions on what is printed.

use kdl::{KdlDocument, KdlFloat, KdlIdentifier, KdlNode, KdlValue, NodeKey};
use std::alloc::Global;
use std::fmt::{Debug, Display};
use std::hash::{DefaultHasher, Hash, Hasher};
use std::process::Abort;

/// Asserts that the two values are equal.
pub fn equal<T: PartialEq + Debug>(rt: &impl Abort, found: &T, wanted: &T) {
    assert!(rt; *found == *wanted, "{found:?} in place of {wanted:?}");
}

/// Asserts that the two values differ.
pub fn differ<T: PartialEq + Debug>(rt: &impl Abort, found: &T, other: &T) {
    assert!(rt; *found != *other, "{found:?} twice");
}

/// Asserts that the two texts are equal.
pub fn says(rt: &impl Abort, found: &str, wanted: &str) {
    assert!(rt; found == wanted, "{found:?} in place of {wanted:?}");
}

/// Asserts that the condition holds. The message shows the text.
pub fn holds(rt: &impl Abort, condition: bool, text: &str) {
    assert!(rt; condition, "{text:?}");
}

/// Asserts that the copy succeeded, and equals its source.
pub fn is_copy<T: PartialEq + Debug + Drop>(rt: &impl Abort, copy: Option<T>, source: &T) {
    let copy = copy.expect(rt, "memory");
    equal(rt, &copy, source);
}

/// Asserts that the call did not fail. What it returned is dropped.
pub fn succeeds<T: Drop, E: Drop>(rt: &impl Abort, outcome: Result<T, E>) {
    assert!(rt; outcome.is_ok(), "failed");
}

/// The text, owned.
pub fn text(rt: &impl Abort, alloc: Global, text: &str) -> String {
    String::from_str(alloc, text).expect(rt, "memory")
}

/// The document of a text.
pub fn read(rt: &impl Abort, alloc: Global, text: &str) -> KdlDocument {
    match KdlDocument::parse(alloc, text) {
        Ok(document) => document,
        Err(failure) => panic!(rt; "{text:?}: {failure}"),
    }
}

/// The only node of the list.
pub fn one_of<'a>(rt: &impl Abort, nodes: &'a [KdlNode]) -> &'a KdlNode {
    equal(rt, &nodes.len(), &1);
    nodes.first().expect(rt, "no node")
}

/// A copy of the only node of the document of a text.
pub fn node(rt: &impl Abort, alloc: Global, text: &str) -> KdlNode {
    let document = read(rt, alloc, text);
    one_of(rt, document.nodes()).clone().expect(rt, "memory")
}

/// The node that the text is.
pub fn node_text(rt: &impl Abort, alloc: Global, text: &str) -> KdlNode {
    match KdlNode::parse(alloc, text) {
        Ok(node) => node,
        Err(failure) => panic!(rt; "{text:?}: {failure}"),
    }
}

/// An identifier of that value.
pub fn identifier(rt: &impl Abort, alloc: Global, value: &str) -> KdlIdentifier {
    KdlIdentifier::from_text(alloc, value).expect(rt, "memory")
}

/// The key of that name.
pub fn key(rt: &impl Abort, alloc: Global, name: &str) -> NodeKey {
    NodeKey::from_text(alloc, name).expect(rt, "memory")
}

/// The string value of a text.
pub fn string(rt: &impl Abort, alloc: Global, text: &str) -> KdlValue {
    KdlValue::from_text(alloc, text).expect(rt, "memory")
}

/// The float of a text.
pub fn float(rt: &impl Abort, alloc: Global, text: &str) -> KdlFloat {
    KdlFloat::new(alloc, text).expect(rt, "no float")
}

/// Asserts that there is an item and it prints the text, or that there is none and the text is empty.
pub fn finds<T: Display>(rt: &impl Abort, alloc: Global, item: Option<&T>, text: &str) {
    match item {
        Some(item) => prints(rt, alloc, item, text),
        None => says(rt, "", text),
    }
}

/// Asserts that the item prints the text.
pub fn prints(rt: &impl Abort, alloc: Global, item: &impl Display, text: &str) {
    let printed = item.to_string(alloc).expect(rt, "memory");
    says(rt, printed.as_str(), text);
}

/// The hash of a value.
pub fn hash_of<T: Hash>(value: &T) -> u64 {
    let mut state = DefaultHasher::new();
    value.hash(&mut state);
    state.finish()
}
