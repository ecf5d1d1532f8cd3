//! Look-ups in nodes and documents: what they find, what is written through the references that they return, and the
//! iterators.

ghost use Rattle.kdl.specs.Lookups.{entries_of, key_place, property_place, with_value_there, HasSameEntries, HasWritten};
ghost use Rattle.kdl.specs.declared.document.KdlDocument.{out-KdlDocument};
ghost use Rattle.kdl.specs.declared.node.KdlNode.{out-KdlNode};
ghost use Rattle.kdl_parts.specs.declared.key.NodeKey.TheVariants.{Index as at_index};
ghost use Rattle.std.specs.Prelude.{◌≡◌, IsSome, OnErr, OnOk, option_map, slice_get};

use crate::edits::{entry, value};
use crate::fields::push;
use crate::reading::{
    equal, finds, holds, key, node, node_text, prints, read, says, succeeds, text,
};
use call_contracts::callers::property;
use kdl::{KdlDocument, KdlEntry, KdlNode, KdlValue, NodeKey};
use std::alloc::{AllocError, Global};
use std::fmt::Debug;
use std::process::Abort;

/// Writes the value of the last property of that name, or pushes such a property.
pub fn set_property(node: &mut KdlNode, name: &str, value: KdlValue) -> Result<(), AllocError>
    ensures written { OnOk result
        (HasWritten (property_place name.now node.old) name.now node.old value node.new) }
    ensures refused { OnErr result (HasSameEntries node.old node.new) }
{
    let place = node.get_or_null_mut(name)?;
    *place = value;
    Ok(())
}

/// Writes the value of the first argument.
pub fn set_first(node: &mut KdlNode, value: KdlValue)
    requires { IsSome (key_place (at_index 0) node.old) }
    ensures { node.new ≡ with_value_there (key_place (at_index 0) node.old) node.old value }
{
    node[0] = value;
}

/// Drops the entries of each child.
fn clear_each_child(node: &mut KdlNode)
    ensures { out-KdlNode node.new ≡ record (out-KdlNode node.old)
        { children = (out-KdlNode node.new).children } }
{
    for child in node.iter_children_mut() {
        child.clear();
    }
}

/// Sets the entry that the key finds to null.
fn forget(node: &mut KdlNode, key: NodeKey)
    ensures name { (out-KdlNode node.new).name ≡ (out-KdlNode node.old).name }
    ensures children { (out-KdlNode node.new).children ≡ (out-KdlNode node.old).children }
{
    if let Some(value) = node.get_mut(key) {
        *value = KdlValue::Null;
    }
}

/// Drops the format of the entry that the key finds.
fn clear_format(node: &mut KdlNode, key: NodeKey)
    ensures name { (out-KdlNode node.new).name ≡ (out-KdlNode node.old).name }
    ensures format { (out-KdlNode node.new).format ≡ (out-KdlNode node.old).format }
{
    if let Some(entry) = node.entry_mut(key) {
        entry.clear_format();
    }
}

/// Sets the first argument of the first node of that name to null, if there is one.
fn forget_argument(document: &mut KdlDocument, name: &str)
    ensures { (out-KdlDocument document.new).format ≡ (out-KdlDocument document.old).format }
{
    if let Some(value) = document.get_arg_mut(name) {
        *value = KdlValue::Null;
    }
}

/// The first entry.
fn first(node: &KdlNode) -> Option<&KdlEntry>
    ensures { option_map (λ e. e.now) result ≡ slice_get (entries_of node.now) 0 }
{
    let mut entries = node.iter();
    entries.next()
}

/// Names, what the last property of the name prints, and its value.
const PROPERTIES: &[(&str, &str, &str)] = &[
    ("x", " \"x\"=2", "2"),
    ("y", " y=3", "3"),
    ("z", "", ""),
];

/// Indices, what the argument at the index prints, and its value.
const ARGUMENTS: &[(usize, &str, &str)] = &[(0, " 7", "7"), (1, " 8", "8"), (2, "", "")];

#[test]
fn names_find_the_last_and_places_count_arguments(rt: HostRuntime) {
    let alloc = rt.alloc();
    let node = node(&rt, alloc, "n x=1 7 \"x\"=2 y=3 8");
    for (name, printed, value) in PROPERTIES {
        let entry = node.entry(NodeKey::from(text(&rt, alloc, name)));
        finds(&rt, alloc, entry, printed);
        finds(&rt, alloc, node.get(key(&rt, alloc, name)), value);
    }
    for (index, printed, value) in ARGUMENTS {
        finds(&rt, alloc, node.entry(NodeKey::from(*index)), printed);
        finds(&rt, alloc, node.get(NodeKey::Index(*index)), value);
    }
    equal(&rt, &node.argument_count(), &2);
    drop(node);
}

/// Writes the value of the last property of the name, which is then found, or of the first argument if the name is empty.
fn write(rt: &impl Abort, alloc: Global, node: &mut KdlNode, name: &str, text: &str) {
    let new = value(rt, alloc, text);
    if !name.is_empty() {
        set_property(node, name, new).expect(rt, "memory");
        finds(rt, alloc, property(node, name), text);
    } else if node.get(NodeKey::Index(0)).is_some() {
        set_first(node, new);
        finds(rt, alloc, node.get(NodeKey::Index(0)), text);
    }
}

/// Names, values that are written, and what a node without formats then prints.
const WRITTEN: &[(&str, &str, &str)] = &[
    ("", "bar", "foo x=1 bar x=2"),
    ("foo", "1", "foo x=1 bar x=2 foo=1"),
    ("", "#false", "foo x=1 #false x=2 foo=1"),
    ("foo", "#null", "foo x=1 #false x=2 foo=#null"),
    ("x", "9", "foo x=1 #false x=9 foo=#null"),
    ("y", "#null", "foo x=1 #false x=9 foo=#null y=#null"),
    ("y", "4", "foo x=1 #false x=9 foo=#null y=4"),
    ("", "6", "foo x=1 6 x=9 foo=#null y=4"),
];

#[test]
fn values_by_index_and_by_name(rt: HostRuntime) {
    let alloc = rt.alloc();
    let mut node = node(&rt, alloc, "foo x=1 5 x=2");
    let mut bare = node.clone().expect(&rt, "memory");
    bare.clear_format_recursive();
    for (name, text, printed) in WRITTEN {
        write(&rt, alloc, &mut bare, name, text);
        prints(&rt, alloc, &bare, printed);
        write(&rt, alloc, &mut node, name, text);
    }
    // The spellings of the values that were there are unchanged.
    prints(&rt, alloc, &node, "foo x=1 5 x=2 foo=#null y=4");
    let value = node.get_or_null_mut("z").expect(&rt, "memory");
    holds(&rt, value.is_null(), "null");
    equal(&rt, &node.len(), &6);
    drop(node);
    drop(bare);
}

#[test]
fn the_spelling_stays_until_it_is_cleared(rt: HostRuntime) {
    let alloc = rt.alloc();
    let mut node = node(&rt, alloc, "n 0x10");
    let value = node.get_mut(NodeKey::Index(0)).expect(&rt, "no value");
    *value = KdlValue::from(5);
    prints(&rt, alloc, &node, "n 0x10");
    clear_format(&mut node, NodeKey::Index(0));
    prints(&rt, alloc, &node, "n 5");
    forget(&mut node, NodeKey::Index(0));
    prints(&rt, alloc, &node, "n #null");
    drop(node);
}

#[test]
fn entries_are_lent(rt: HostRuntime) {
    let alloc = rt.alloc();
    let mut a = node(&rt, alloc, "a 1 b=2 // c\n");
    let lent = a.entry_mut(key(&rt, alloc, "b")).expect(&rt, "no entry");
    *lent = entry(&rt, alloc, " b=0x3");
    prints(&rt, alloc, &a, "a 1 b=0x3 // c\n");
    drop(a);
    let mut n = node(&rt, alloc, "n 1 k=2 { a; b; }");
    equal(&rt, &n.iter().size_hint(), &(2, Some(2)));
    finds(&rt, alloc, first(&n), " 1");
    for entry in n.iter_mut() {
        entry.set_value(KdlValue::from(true));
        entry.clear_format();
    }
    prints(&rt, alloc, &n, "n #true k=#true { a; b; }");
    drop(n);
}

#[test]
fn an_iterator_over_children(rt: HostRuntime) {
    let alloc = rt.alloc();
    let mut node = node(&rt, alloc, "n 1 k=2 { a; b; }");
    equal(&rt, &node.iter_children().size_hint(), &(2, Some(2)));
    let mut children = node.iter_children_mut();
    equal(&rt, &children.size_hint(), &(2, Some(2)));
    let child = children.next().expect(&rt, "no child");
    child.get_or_null_mut("c").expect(&rt, "memory");
    equal(&rt, &children.size_hint(), &(1, Some(1)));
    drop(children);
    prints(&rt, alloc, &node, "n 1 k=2 { a c=#null; b; }");
    equal(&rt, &node.iter_children().count(), &2);
    drop(node);
}

#[test]
fn no_children_without_a_block(rt: HostRuntime) {
    let mut bare = node(&rt, rt.alloc(), "n");
    finds(&rt, rt.alloc(), bare.iter_children().next(), "");
    let is_over = bare.iter_children_mut().next().is_none();
    holds(&rt, is_over, "no children");
    equal(&rt, &bare.iter_children_mut().size_hint(), &(0, Some(0)));
    drop(bare);
}

#[test]
fn children_cleared_in_place(rt: HostRuntime) {
    let alloc = rt.alloc();
    let mut node = node(&rt, alloc, "(t)n 1 k=2 { a 3; b c=4 { d 5; }; } // e\n");
    clear_each_child(&mut node);
    prints(&rt, alloc, &node, "(t)n 1 k=2 { a; b { d 5; }; } // e\n");
    drop(node);
}

/// Asserts that the iterator shows what is left as the list, between these texts.
fn shows(
    rt: &impl Abort,
    alloc: Global,
    iterator: &impl Debug,
    (before, after): (&str, &str),
    left: &impl Debug,
) {
    let shown = format!(in alloc; "{iterator:?}").expect(rt, "memory");
    let wanted = format!(in alloc; "{before}{left:?}{after}").expect(rt, "memory");
    says(rt, shown.as_str(), wanted.as_str());
    drop(shown);
    drop(wanted);
}

/// Asserts that the iterators over the entries of a node, and of its copy, show what is left after an entry is taken.
fn check_entries(rt: &impl Abort, alloc: Global, node: &KdlNode, copy: &mut KdlNode) {
    let (_, left) = node.entries().split_first().expect(rt, "no entry");
    let mut entries = node.iter();
    holds(rt, entries.next().is_some(), "an entry");
    shows(rt, alloc, &entries, ("EntryIter(Iter(", "))"), &left);
    let mut entries = copy.iter_mut();
    holds(rt, entries.next().is_some(), "an entry");
    shows(rt, alloc, &entries, ("EntryIterMut(IterMut(", "))"), &left);
}

/// Asserts that the iterators over the children show all of them, and then what is left after a child is taken.
fn check_children(rt: &impl Abort, alloc: Global, node: &KdlNode, copy: &mut KdlNode) {
    let all = node.children().expect(rt, "no block").nodes();
    let (_, left) = all.split_first().expect(rt, "no child");
    let around = ("ChildrenIter(Some(Iter(", ")))");
    let mut children = node.iter_children();
    shows(rt, alloc, &children, around, &all);
    holds(rt, children.next().is_some(), "a child");
    shows(rt, alloc, &children, around, &left);
    let around = ("ChildrenIterMut(", ")");
    let mut children = copy.iter_children_mut();
    shows(rt, alloc, &children, around, &all);
    holds(rt, children.next().is_some(), "a child");
    shows(rt, alloc, &children, around, &left);
}

#[test]
fn iterators_show_what_is_left(rt: HostRuntime) {
    let alloc = rt.alloc();
    let node = node(&rt, alloc, "n 1 k=2 { a; b; }");
    let mut copy = node.clone().expect(&rt, "memory");
    check_entries(&rt, alloc, &node, &mut copy);
    check_children(&rt, alloc, &node, &mut copy);
    drop(node);
    drop(copy);
}

#[test]
fn iterators_show_that_nothing_is_left(rt: HostRuntime) {
    let alloc = rt.alloc();
    let mut bare = node(&rt, alloc, "n");
    let none: [u8; 0] = [];
    shows(&rt, alloc, &bare.iter(), ("EntryIter(Iter(", "))"), &none);
    shows(
        &rt,
        alloc,
        &bare.iter_mut(),
        ("EntryIterMut(IterMut(", "))"),
        &none,
    );
    shows(
        &rt,
        alloc,
        &bare.iter_children(),
        ("ChildrenIter(", ")"),
        &None::<u8>,
    );
    shows(
        &rt,
        alloc,
        &bare.iter_children_mut(),
        ("ChildrenIterMut(", ")"),
        &none,
    );
    drop(bare);
}

#[test]
fn a_node_and_an_argument_written(rt: HostRuntime) {
    let alloc = rt.alloc();
    let text = "n k=1 0x10; n 2; m k=3";
    let mut document = read(&rt, alloc, text);
    for name in ["n", "m", "o"] {
        forget_argument(&mut document, name);
        prints(&rt, alloc, &document, text);
    }
    finds(&rt, alloc, document.get_arg("n"), "#null");
    let node = document.get_mut("n").expect(&rt, "no node");
    clear_format(node, NodeKey::Index(0));
    prints(&rt, alloc, &document, "n k=1 #null; n 2; m k=3");
    holds(&rt, document.get_arg_mut("m").is_none(), "absent");
    holds(&rt, document.get_mut("o").is_none(), "absent");
    drop(document);
}

/// Texts of documents, the name of a node, the greatest number of its arguments, and its arguments.
const NODE_ARGUMENTS: &[(&str, &str, usize, &[&str])] = &[
    (HELLO, "hello", 3, &["1", "2", "3"]),
    (HELLO, "world", 1, &[]),
    (HELLO, "none", 0, &[]),
    ("foo 1 2 3\nbar #false", "foo", 3, &["1", "2", "3"]),
];

#[test]
fn the_arguments_of_a_node(rt: HostRuntime) {
    let alloc = rt.alloc();
    for (text, name, most, values) in NODE_ARGUMENTS {
        let document = read(&rt, alloc, text);
        let mut args = document.iter_args(name);
        equal(&rt, &args.size_hint(), &(0, Some(*most)));
        for value in *values {
            finds(&rt, alloc, args.next(), value);
        }
        finds(&rt, alloc, args.next(), "");
        finds(&rt, alloc, args.next(), "");
    }
}

/// The same for the arguments after dashes in the block of the node.
const DASH_ARGUMENTS: &[(&str, &str, usize, &[&str])] = &[
    (
        "foo {\n - 1\n - k=2\n - 3 4\n x 5\n}",
        "foo",
        4,
        &["1", "3"],
    ),
    ("foo {\n - 1\n - k=2\n - 3 4\n x 5\n}", "x", 0, &[]),
    ("- 1\nfoo 2", "foo", 0, &[]),
    (
        "foo {\n - 1\n - 2\n - #false\n}",
        "foo",
        3,
        &["1", "2", "#false"],
    ),
    (DOCUMENT, "foo", 4, &["1", "2", "three"]),
];

#[test]
fn the_arguments_after_dashes(rt: HostRuntime) {
    let alloc = rt.alloc();
    for (text, name, most, values) in DASH_ARGUMENTS {
        let document = read(&rt, alloc, text);
        let mut args = document.iter_dash_args(name);
        equal(&rt, &args.size_hint(), &(0, Some(*most)));
        for value in *values {
            finds(&rt, alloc, args.next(), value);
        }
        finds(&rt, alloc, args.next(), "");
    }
}

/// Two nodes, a comment and a block, and a second node of one name.
const HELLO: &str =
    "\nhello 1 2 3\n\n// Comment\nworld prop=string-value {\n    child 1\n    child 2\n    child #inf\n}\nhello 4\n";

/// A document with most features of the language.
const DOCUMENT: &str =
    "\n// This is the first node\nfoo 1 2 three #null #true bar=\"baz\" {\n    - 1\n    - 2\n    - three\n    (mytype)something (\"name\")else\r\n}\n\nnull_id null_prop=#null\ntrue_id true_prop=#null\n+false #true\n\n         bar \"indented\" // trailing whitespace after this\t\n/*\nSome random comment\n */\n\na; b; c;\n/-commented \"node\"\n\nanother /*foo*/ \"node\" /-1 /*bar*/ #null;\nfinal;";

/// The first node of `DOCUMENT`.
const FOO: &str =
    "\n// This is the first node\nfoo 1 2 three #null #true bar=\"baz\" {\n    - 1\n    - 2\n    - three\n    (mytype)something (\"name\")else\r\n}\n";

/// The second node of `HELLO`.
const WORLD: &str =
    "\n// Comment\nworld prop=string-value {\n    child 1\n    child 2\n    child #inf\n}\n";

/// Nodes with properties before their arguments.
const NAMES: &str = "a k=1 2 3\n\"b\" 4\nb 5\nc k=6\n";

/// Texts of documents, the name of a node, what the first such node prints, or an empty text if there is none, its first
/// argument, and the name of a property and its value.
const FOUND: &[(&str, &str, &str, &str, &str, &str)] = &[
    (NAMES, "a", "a k=1 2 3\n", "2", "k", "1"),
    (NAMES, "b", "\"b\" 4\n", "4", "k", ""),
    (NAMES, "c", "c k=6\n", "", "k", "6"),
    (NAMES, "d", "", "", "k", ""),
    (HELLO, "hello", "\nhello 1 2 3\n", "1", "prop", ""),
    (HELLO, "world", WORLD, "", "prop", "string-value"),
    (DOCUMENT, "foo", FOO, "1", "bar", "baz"),
    (
        DOCUMENT,
        "another",
        "\n/-commented \"node\"\n\nanother /*foo*/ \"node\" /-1 /*bar*/ #null;",
        "node",
        "k",
        "",
    ),
    (
        DOCUMENT,
        "null_id",
        "\nnull_id null_prop=#null\n",
        "",
        "null_prop",
        "#null",
    ),
    (
        DOCUMENT,
        "true_id",
        "true_id true_prop=#null\n",
        "",
        "true_prop",
        "#null",
    ),
    (DOCUMENT, "+false", "+false #true\n", "#true", "k", ""),
    (
        DOCUMENT,
        "bar",
        "\n         bar \"indented\" // trailing whitespace after this\t\n",
        "indented",
        "k",
        "",
    ),
    (
        DOCUMENT,
        "a",
        "/*\nSome random comment\n */\n\na;",
        "",
        "k",
        "",
    ),
    (DOCUMENT, "b", " b;", "", "k", ""),
];

/// The value of the last property of that name of the node.
fn property_of<'a>(node: Option<&'a KdlNode>, name: &str) -> Option<&'a KdlValue> {
    match node {
        Some(node) => property(node, name),
        None => None,
    }
}

#[test]
fn documents_are_looked_up(rt: HostRuntime) {
    let alloc = rt.alloc();
    for (text, name, printed, argument, key, value) in FOUND {
        let document = read(&rt, alloc, text);
        prints(&rt, alloc, &document, text);
        let node = document.get(name);
        finds(&rt, alloc, node, printed);
        finds(&rt, alloc, document.get_arg(name), argument);
        finds(&rt, alloc, property_of(node, key), value);
    }
}

/// An entry that was parsed by itself, in a node that was parsed by itself, is added to a document.
#[test]
fn a_parsed_entry_in_a_parsed_node(rt: HostRuntime) {
    let alloc = rt.alloc();
    let mut document = read(&rt, alloc, DOCUMENT);
    let mut new = node_text(&rt, alloc, "new\n");
    succeeds(&rt, new.push(entry(&rt, alloc, " \"blah\"=0xDEADbeef")));
    push(&rt, &mut document, new);
    let printed = format!(in alloc; "{DOCUMENT}new \"blah\"=0xDEADbeef\n");
    let printed = printed.expect(&rt, "memory");
    prints(&rt, alloc, &document, &printed);
    drop(printed);
    drop(document);
}
