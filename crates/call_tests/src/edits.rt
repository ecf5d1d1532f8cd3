//! Entries of a node are inserted, removed, retained and sorted, and the node is printed. One setting of a file that
//! people maintain is changed.

use crate::fields::built;
use crate::reading::{equal, finds, holds, identifier, node, prints, read, string, succeeds};
use call_contracts::callers::{insert_argument, insert_first, remove_argument, set_typed};
use kdl::{KdlEntry, KdlNode, KdlValue, NodeKey};
use std::alloc::Global;
use std::process::Abort;

/// Appends an argument.
pub fn add(rt: &impl Abort, node: &mut KdlNode, value: KdlValue) {
    succeeds(rt, node.push(KdlEntry::new(value)));
}

/// Appends a property.
pub fn add_property(
    rt: &impl Abort,
    alloc: Global,
    node: &mut KdlNode,
    name: &str,
    value: KdlValue,
) {
    let key = identifier(rt, alloc, name);
    succeeds(rt, node.push(KdlEntry::new_prop(key, value)));
}

/// The entry of a text.
pub fn entry(rt: &impl Abort, alloc: Global, text: &str) -> KdlEntry {
    KdlEntry::parse(alloc, text).expect(rt, "no entry")
}

/// Replaces the entry there by that of the text.
pub fn exchange(rt: &impl Abort, alloc: Global, node: &mut KdlNode, at: usize, text: &str) {
    let place = node.entries_mut().get_mut(at).expect(rt, "no entry");
    *place = entry(rt, alloc, text);
}

/// The value of a text.
pub fn value(rt: &impl Abort, alloc: Global, text: &str) -> KdlValue {
    let entry = entry(rt, alloc, text);
    entry.value().clone().expect(rt, "memory")
}

/// An edit of the entries of a node. Values are given by their texts.
enum Edit<'a> {
    /// Appends an argument.
    Add(&'a str),
    /// Appends a property.
    AddProperty(&'a str, &'a str),
    /// Inserts an argument before all others.
    AddFirst(&'a str),
    /// Inserts an argument at the index, which has to exist.
    AddAt(usize, &'a str),
    /// Inserts a property under its name.
    Set(&'a str, &'a str),
    /// Inserts a property without a name, with the type, under a name.
    SetTyped(&'a str, &'a str, &'a str),
    /// Removes the first property of that name.
    Take(&'a str),
    /// Removes the argument at the index, if it exists.
    TakeAt(usize),
    /// Replaces the entry there by that of the text.
    Exchange(usize, &'a str),
}

impl Edit<'_> {
    /// Applies the edit to the node. Returns the entry that is replaced or removed.
    fn apply(&self, rt: &impl Abort, alloc: Global, node: &mut KdlNode) -> Option<KdlEntry> {
        match self {
            Edit::Set(name, text) => {
                let key = NodeKey::Key(identifier(rt, alloc, name));
                let new = KdlEntry::new(value(rt, alloc, text));
                node.insert(key, new).expect(rt, "memory")
            }
            Edit::Take(name) => node.remove(NodeKey::Key(identifier(rt, alloc, name))),
            Edit::TakeAt(index) => remove_argument(node, *index),
            _ => {
                self.add(rt, alloc, node);
                None
            }
        }
    }

    /// Applies an edit that removes no entry, or replaces one by that of a text.
    fn add(&self, rt: &impl Abort, alloc: Global, node: &mut KdlNode) {
        match self {
            Edit::Add(text) => add(rt, node, value(rt, alloc, text)),
            Edit::AddProperty(name, text) => {
                add_property(rt, alloc, node, name, value(rt, alloc, text));
            }
            Edit::AddFirst(text) => succeeds(rt, insert_first(node, value(rt, alloc, text))),
            Edit::AddAt(index, text) => {
                let inserted = insert_argument(node, *index, value(rt, alloc, text));
                holds(rt, inserted.expect(rt, "memory"), "no such place");
            }
            Edit::SetTyped(name, ty, text) => {
                let key = identifier(rt, alloc, name);
                let ty = identifier(rt, alloc, ty);
                succeeds(rt, set_typed(node, key, ty, value(rt, alloc, text)));
            }
            Edit::Exchange(index, text) => exchange(rt, alloc, node, *index, text),
            _ => {}
        }
    }
}

/// An edit, what the entry prints that is replaced or removed, or an empty text if there is none, and then what the node
/// prints, and its number of entries.
struct Step<'a>(Edit<'a>, &'a str, &'a str, usize);

/// The last of two properties is replaced, and the first one removed.
const OF_TWO: &[Step] = &[
    Step(Edit::Set("x", "3"), " x=2", "foo x=1 x=3\n", 2),
    Step(Edit::Take("x"), " x=1", "foo x=3\n", 1),
    Step(Edit::Take("y"), "", "foo x=3\n", 1),
];

/// Two properties are pushed under one name.
const PUSHED: &[Step] = &[
    Step(Edit::AddProperty("x", "1"), "", "foo x=1\n", 1),
    Step(Edit::AddProperty("x", "2"), "", "foo x=1 x=2\n", 2),
    Step(Edit::Set("x", "3"), "x=2", "foo x=1 x=3\n", 2),
    Step(Edit::Take("x"), "x=1", "foo x=3\n", 1),
];

/// Names are compared by value.
const BY_VALUE: &[Step] = &[
    Step(Edit::Set("x", "3"), " #\"x\"#=2", "n \"x\"=1 x=3", 2),
    Step(Edit::Take("x"), " \"x\"=1", "n x=3", 1),
    Step(Edit::Take("x"), "x=3", "n", 0),
];

/// The only property is removed.
const ONLY: &[Step] = &[Step(Edit::Take("x"), " x=1", "n", 0)];

/// A property without a name takes the key.
const KEYED: &[Step] = &[
    Step(Edit::Set("x", "2"), " x=1", "n x=2", 1),
    Step(
        Edit::SetTyped("a b", "u8", "7"),
        "",
        "n x=2 \"a b\"=(u8)7",
        2,
    ),
];

/// Arguments are put in by their index.
const BY_INDEX: &[Step] = &[
    Step(Edit::Add("pos0"), "", "foo pos0\n", 1),
    Step(Edit::Set("keyword", "6"), "", "foo pos0 keyword=6\n", 2),
    Step(Edit::Add("pos1"), "", "foo pos0 keyword=6 pos1\n", 3),
    Step(
        Edit::AddFirst("in0"),
        "",
        "foo in0 pos0 keyword=6 pos1\n",
        4,
    ),
    Step(
        Edit::AddAt(2, "in1"),
        "",
        "foo in0 pos0 keyword=6 in1 pos1\n",
        5,
    ),
];

/// An argument is put in after a property.
const AFTER: &[Step] = &[Step(Edit::AddAt(1, "b"), "", "n a k=1 b", 3)];

/// Arguments are removed by their index.
const REMOVED: &[Step] = &[
    Step(Edit::TakeAt(1), " 3", "n 1 k=2", 2),
    Step(Edit::TakeAt(1), "", "n 1 k=2", 2),
];

/// Entries are removed by index and by name.
const EACH_REMOVED: &[Step] = &[
    Step(Edit::Add("pos0"), "", "foo pos0\n", 1),
    Step(Edit::Set("keyword", "6"), "", "foo pos0 keyword=6\n", 2),
    Step(Edit::Add("pos1"), "", "foo pos0 keyword=6 pos1\n", 3),
    Step(Edit::TakeAt(1), "pos1", "foo pos0 keyword=6\n", 2),
    Step(
        Edit::Take("not an existing keyword"),
        "",
        "foo pos0 keyword=6\n",
        2,
    ),
    Step(Edit::Take("keyword"), "keyword=6", "foo pos0\n", 1),
    Step(Edit::TakeAt(0), "pos0", "foo\n", 0),
];

/// One entry is exchanged, and no other byte.
const EXCHANGED: &[Step] = &[
    Step(Edit::Set("b", "\"x y\""), " b=2", "a 1 b=\"x y\" // c\n", 2),
    Step(Edit::Exchange(1, " b=0x3"), "", "a 1 b=0x3 // c\n", 2),
];

/// Texts of nodes, of which the empty one is for the built node `foo`, and edits of each.
const EDITS: &[(&str, &[Step])] = &[
    ("foo x=1 x=2\n", OF_TWO),
    ("", PUSHED),
    ("n \"x\"=1 #\"x\"#=2", BY_VALUE),
    ("n x=1", ONLY),
    ("n x=1", KEYED),
    ("", BY_INDEX),
    ("n a k=1", AFTER),
    ("n 1 k=2 3", REMOVED),
    ("", EACH_REMOVED),
    ("a 1 b=2 // c\n", EXCHANGED),
];

/// Checks the step, and that what the node then prints is read as a node with that number of entries.
fn check_step(rt: &impl Abort, alloc: Global, edited: &mut KdlNode, step: &Step<'_>) {
    let Step(edit, old, printed, count) = step;
    let replaced = edit.apply(rt, alloc, edited);
    finds(rt, alloc, replaced.as_ref(), old);
    drop(replaced);
    prints(rt, alloc, edited, printed);
    equal(rt, &edited.len(), count);
    equal(rt, &edited.is_empty(), &(*count == 0));
    equal(rt, &node(rt, alloc, printed).len(), count);
}

#[test]
fn entries_edited(rt: HostRuntime) {
    let alloc = rt.alloc();
    for (text, steps) in EDITS {
        let mut edited = if text.is_empty() {
            built(&rt, alloc, "foo")
        } else {
            node(&rt, alloc, text)
        };
        for step in *steps {
            check_step(&rt, alloc, &mut edited, step);
        }
    }
}

#[test]
fn entries_kept_and_sorted(rt: HostRuntime) {
    let alloc = rt.alloc();
    let mut n = node(&rt, alloc, "n 1 k=2 3");
    n.retain(|entry| entry.name().is_none());
    prints(&rt, alloc, &n, "n 1 3");
    n.clear();
    holds(&rt, n.is_empty(), "no entries");
    prints(&rt, alloc, &n, "n");
    drop(n);
    let mut n = node(&rt, alloc, "n b=1 a=1 c=0");
    n.sort_by_key(|entry| entry.value().as_integer())
        .expect(&rt, "memory");
    prints(&rt, alloc, &n, "n c=0 b=1 a=1");
    n.sort_by(|a, b| b.value().cmp(a.value()))
        .expect(&rt, "memory");
    prints(&rt, alloc, &n, "n b=1 a=1 c=0");
    drop(n);
}

#[test]
fn a_value_is_set_and_its_spelling_cleared(rt: HostRuntime) {
    let alloc = rt.alloc();
    let mut n = node(&rt, alloc, "n 0x10");
    for entry in n.entries_mut().iter_mut() {
        entry.set_value(KdlValue::from(5));
    }
    prints(&rt, alloc, &n, "n 0x10");
    for entry in n.entries_mut().iter_mut() {
        entry.clear_format();
    }
    prints(&rt, alloc, &n, "n 5");
    drop(n);
}

#[test]
fn one_setting_of_a_commented_file_is_changed(rt: HostRuntime) {
    let alloc = rt.alloc();
    let text =
        "// Who may connect.\nserver \"main\"  port=0x1F90 /* the old one */ tls=#true {\n    allow \"10.0.0.0/8\" // the office\n}\n\n/-debug level=3\nlog  file=#\"C:\\log\"#\n";
    let changed =
        "// Who may connect.\nserver \"main\" port=8443 /* the old one */ tls=#true {\n    allow \"10.0.0.0/8\" // the office\n}\n\n/-debug level=3\nlog  file=#\"C:\\log\"#\n";
    let mut document = read(&rt, alloc, text);
    for node in document.nodes_mut().iter_mut() {
        if node.name().value() == "server" {
            let key = NodeKey::Key(identifier(&rt, alloc, "port"));
            succeeds(&rt, node.insert(key, KdlEntry::new(KdlValue::from(8443))));
        }
    }
    prints(&rt, alloc, &document, changed);
    drop(document);
}
