//! Nodes are added and removed, and what is printed reads back.

use crate::fields::built;
use crate::reading::{equal, holds, node_text, prints, read, succeeds};
use kdl::{KdlDocument, KdlNode};
use std::alloc::Global;
use std::process::Abort;

/// An index, the text of a document or node, the text of a node that is inserted at the index or last, and the text that
/// is then printed.
struct Insertion<'a>(usize, &'a str, &'a str, &'a str);

/// Asserts that the nodes have the same names.
fn have_the_names(rt: &impl Abort, found: &[KdlNode], wanted: &[KdlNode]) {
    equal(rt, &found.len(), &wanted.len());
    for (node, other) in found.iter().zip(wanted) {
        equal(rt, &node.name().value(), &other.name().value());
    }
}

/// Asserts that the document prints the text, which is a document of nodes of the same names.
fn reads_back(rt: &impl Abort, alloc: Global, document: &KdlDocument, printed: &str) {
    prints(rt, alloc, document, printed);
    let again = read(rt, alloc, printed);
    have_the_names(rt, again.nodes(), document.nodes());
}

/// Asserts that the node prints the text, which is a node with children of the same names.
fn node_reads_back(rt: &impl Abort, alloc: Global, node: &KdlNode, printed: &str) {
    prints(rt, alloc, node, printed);
    let again = node_text(rt, alloc, printed);
    let found = again.children().expect(rt, "no block");
    let wanted = node.children().expect(rt, "no block");
    have_the_names(rt, found.nodes(), wanted.nodes());
}

/// Inserts the node at the index, or last.
fn put(rt: &impl Abort, document: &mut KdlDocument, index: usize, node: KdlNode) {
    let count = document.nodes().len();
    if index < count {
        succeeds(rt, document.insert_node(index, node));
    } else {
        succeeds(rt, document.push_node(node));
    }
    equal(rt, &document.nodes().len(), &count.saturating_add(1));
}

/// Nodes in documents.
const NODES: &[Insertion] = &[
    // After others.
    Insertion(9, "a", "b", "a\nb"),
    Insertion(9, "a;", "b", "a;b"),
    Insertion(9, "a\n", "b", "a\nb"),
    Insertion(9, "a // c", "b", "a // c\nb"),
    Insertion(9, "a // c\n", "b", "a // c\nb"),
    Insertion(9, "a \\", "b", "a \\\n\nb"),
    Insertion(9, "a \\\n", "b", "a \\\n\nb"),
    Insertion(9, "a \\ // c", "b", "a \\ // c\n\nb"),
    Insertion(9, "a \\ // c\n", "b", "a \\ // c\n\nb"),
    Insertion(9, "a /-3", "b", "a /-3\nb"),
    Insertion(9, "a /-k=3", "b", "a /-k=3\nb"),
    Insertion(9, "a /* c */", "b", "a /* c */\nb"),
    Insertion(9, "a {}", "b", "a {}\nb"),
    Insertion(9, "a {} \\", "b", "a {} \\\n\nb"),
    Insertion(9, "a {} /-{}", "b", "a {} /-{}\nb"),
    Insertion(9, "c { d }", "b", "c { d }\nb"),
    Insertion(9, "c { d \\\n}", "b", "c { d \\\n}\nb"),
    Insertion(9, "c { d }; e", "b", "c { d }; e\nb"),
    // After texts.
    Insertion(9, "", "b", "b"),
    Insertion(9, " ", "b", " b"),
    Insertion(9, "\n\n", "b", "\n\nb"),
    Insertion(9, "// c", "b", "// c\nb"),
    Insertion(9, "// c\n", "b", "// c\nb"),
    Insertion(9, "/* c */", "b", "/* c */b"),
    Insertion(9, "\\", "b", "\\\nb"),
    Insertion(9, "\\ // c", "b", "\\ // c\nb"),
    Insertion(9, "/-x", "b", "/-x\nb"),
    Insertion(9, "/-x;", "b", "/-x;b"),
    Insertion(9, "/-x \\", "b", "/-x \\\n\nb"),
    Insertion(9, "/-x // c", "b", "/-x // c\nb"),
    Insertion(9, "/-x {}", "b", "/-x {}\nb"),
    Insertion(9, "\u{feff}", "b", "\u{feff}b"),
    Insertion(9, "\u{feff}// c", "b", "\u{feff}// c\nb"),
    Insertion(9, "\u{feff}a", "b", "\u{feff}a\nb"),
    // After newlines of other forms.
    Insertion(9, "a\r\n", "b", "a\r\nb"),
    Insertion(9, "a\r", "b", "a\rb"),
    Insertion(9, "a\u{85}", "b", "a\u{85}b"),
    Insertion(9, "a // c\r\n", "b", "a // c\r\nb"),
    Insertion(9, "a \\\r\n", "b", "a \\\r\n\nb"),
    Insertion(9, "// c\r\n", "b", "// c\r\nb"),
    Insertion(9, "a\r\n// c\r\n", "b", "a\r\nb\n// c\r\n"),
    // Before a trailing text.
    Insertion(9, "a; /-x {}", "b", "a;b\n /-x {}"),
    Insertion(9, "a\n/-x", "b", "a\nb\n/-x"),
    Insertion(9, "a\n// end\n", "b", "a\nb\n// end\n"),
    Insertion(9, "a;// end", "b", "a;b\n// end"),
    Insertion(9, "a\n\n", "b", "a\nb\n\n"),
    // Before others.
    Insertion(0, "a", "b", "b\na"),
    Insertion(0, " a;", "b", "b\n a;"),
    Insertion(0, "// c\na", "b", "b\n// c\na"),
    Insertion(0, "/-x\na", "b", "b\n/-x\na"),
    Insertion(0, "c { d }", "b", "b\nc { d }"),
    Insertion(0, "\u{feff}a", "b", "\u{feff}b\na"),
    Insertion(0, "\u{feff}// c\na", "b", "\u{feff}b\n// c\na"),
    // Between others.
    Insertion(1, "a\nc", "b", "a\nb\nc"),
    Insertion(1, "a;c", "b", "a;b\nc"),
    Insertion(1, "a // x\n// y\nc", "b", "a // x\nb\n// y\nc"),
    Insertion(1, "a \\ // x\n\nc", "b", "a \\ // x\n\nb\nc"),
    Insertion(1, "a {}\nc", "b", "a {}\nb\nc"),
    Insertion(1, "a { d }; c", "b", "a { d };b\n c"),
    // New nodes of each form, after another.
    Insertion(1, "a", "b", "a\nb"),
    Insertion(1, "a", "b;", "a\nb;"),
    Insertion(1, "a", "b\n", "a\nb\n"),
    Insertion(1, "a", "// y\nb 1", "a\n// y\nb 1"),
    Insertion(1, "a", "b // x", "a\nb // x"),
    Insertion(1, "a", "b // x\n", "a\nb // x\n"),
    Insertion(1, "a", "b; // x", "a\nb; // x"),
    Insertion(1, "a", "b; \\", "a\nb; \\"),
    Insertion(1, "a", "b\n\n", "a\nb\n\n"),
    Insertion(1, "a", "b \\", "a\nb \\"),
    Insertion(1, "a", "b \\ // x", "a\nb \\ // x"),
    Insertion(1, "a", "b /-3", "a\nb /-3"),
    Insertion(1, "a", "b { d }", "a\nb { d }"),
    Insertion(1, "a", "b { d } \\", "a\nb { d } \\"),
    Insertion(1, "a", "b { d; } // x", "a\nb { d; } // x"),
    // New nodes of each form, before another.
    Insertion(0, "a", "b", "b\na"),
    Insertion(0, "a", "b;", "b;a"),
    Insertion(0, "a", "b\n", "b\na"),
    Insertion(0, "a", "// y\nb 1", "// y\nb 1\na"),
    Insertion(0, "a", "b // x", "b // x\na"),
    Insertion(0, "a", "b // x\n", "b // x\na"),
    Insertion(0, "a", "b; // x", "b; // x\na"),
    Insertion(0, "a", "b; \\", "b; \\\na"),
    Insertion(0, "a", "b\n\n", "b\n\na"),
    Insertion(0, "a", "b \\", "b \\\n\na"),
    Insertion(0, "a", "b \\ // x", "b \\ // x\n\na"),
    Insertion(0, "a", "b /-3", "b /-3\na"),
    Insertion(0, "a", "b { d }", "b { d }\na"),
    Insertion(0, "a", "b { d } \\", "b { d } \\\n\na"),
    Insertion(0, "a", "b { d; } // x", "b { d; } // x\na"),
];

#[test]
fn nodes_put_in(rt: HostRuntime) {
    let alloc = rt.alloc();
    for Insertion(index, before, new, printed) in NODES {
        let mut document = read(&rt, alloc, before);
        put(&rt, &mut document, *index, node_text(&rt, alloc, new));
        reads_back(&rt, alloc, &document, printed);
    }
}

/// The node of a text, without its format.
fn formless(rt: &impl Abort, alloc: Global, text: &str) -> KdlNode {
    let mut node = node_text(rt, alloc, text);
    node.clear_format();
    node
}

#[test]
fn nodes_that_are_built(rt: HostRuntime) {
    let alloc = rt.alloc();
    let mut document = KdlDocument::new(alloc);
    put(&rt, &mut document, 0, built(&rt, alloc, "a"));
    put(&rt, &mut document, 1, node_text(&rt, alloc, "c // x"));
    put(&rt, &mut document, 2, built(&rt, alloc, "d"));
    put(&rt, &mut document, 1, built(&rt, alloc, "b"));
    reads_back(&rt, alloc, &document, "a\nb\nc // x\nd\n");
    drop(document);
}

#[test]
fn nodes_without_a_format(rt: HostRuntime) {
    let alloc = rt.alloc();
    let mut document = read(&rt, alloc, "a");
    put(&rt, &mut document, 1, formless(&rt, alloc, "b { d }"));
    reads_back(&rt, alloc, &document, "a\nb { d }");
    put(&rt, &mut document, 0, formless(&rt, alloc, "e 1"));
    reads_back(&rt, alloc, &document, "e 1\na\nb { d }");
    put(&rt, &mut document, 9, formless(&rt, alloc, "c"));
    reads_back(&rt, alloc, &document, "e 1\na\nb { d }\nc");
    drop(document);
}

/// Inserts the node as a child at the index, or last.
fn put_child(rt: &impl Abort, node: &mut KdlNode, index: usize, child: KdlNode) {
    let count = match node.children() {
        Some(children) => children.nodes().len(),
        None => 0,
    };
    if index < count {
        succeeds(rt, node.insert_child(index, child));
    } else {
        succeeds(rt, node.push_child(child));
    }
}

/// Children in nodes.
const CHILDREN: &[Insertion] = &[
    // After others.
    Insertion(9, "c {}", "e", "c {e}"),
    Insertion(9, "c { d }", "e", "c { d \ne}"),
    Insertion(9, "c { d; }", "e", "c { d;e\n }"),
    Insertion(9, "c { d // x\n}", "e", "c { d // x\ne}"),
    Insertion(9, "c { d \\\n}", "e", "c { d \\\n\ne}"),
    Insertion(9, "c { // x\n}", "e", "c { // x\ne}"),
    Insertion(9, "c { /-x }", "e", "c { /-x \ne}"),
    Insertion(9, "c { d\n // x\n}", "e", "c { d\ne\n // x\n}"),
    Insertion(9, "c { d }; // x", "e", "c { d \ne}; // x"),
    // In new blocks.
    Insertion(9, "c", "e", "c{\ne\n}"),
    Insertion(9, "c;", "e", "c{\ne\n};"),
    Insertion(9, "c\n", "e", "c{\ne\n}\n"),
    Insertion(9, "c 1 // x", "e", "c 1 {\ne\n}// x"),
    Insertion(9, "c \\", "e", "c \\\n{\ne\n}"),
    Insertion(9, "c \\ // x", "e", "c \\ // x\n{\ne\n}"),
    Insertion(9, "c /-3", "e", "c /-3{\ne\n}"),
    Insertion(9, "c /-{} \\\n;", "e", "c /-{} \\\n{\ne\n};"),
    // New children of each form.
    Insertion(0, "c {}", "e", "c {e}"),
    Insertion(0, "c {}", "e;", "c {e;}"),
    Insertion(0, "c {}", "e // x", "c {e // x\n}"),
    Insertion(0, "c {}", "e \\", "c {e \\\n}"),
    Insertion(0, "c {}", "e \\ // x", "c {e \\ // x\n}"),
    Insertion(0, "c {}", "e /-3", "c {e /-3}"),
    Insertion(0, "c {}", "e { f } \\", "c {e { f } \\\n}"),
    Insertion(0, "c {}", "e; // x", "c {e; // x\n}"),
    // Before others.
    Insertion(0, "c { d }", "e", "c {e\n d }"),
    Insertion(1, "c { d;f }", "e", "c { d;e\nf }"),
    Insertion(0, "c { // x\n d }", "e", "c {e\n // x\n d }"),
];

#[test]
fn children_put_in(rt: HostRuntime) {
    let alloc = rt.alloc();
    for Insertion(index, before, new, printed) in CHILDREN {
        let mut node = node_text(&rt, alloc, before);
        put_child(&rt, &mut node, *index, node_text(&rt, alloc, new));
        node_reads_back(&rt, alloc, &node, printed);
    }
}

#[test]
fn children_without_a_format(rt: HostRuntime) {
    let alloc = rt.alloc();
    let mut node = node_text(&rt, alloc, "c {}");
    put_child(&rt, &mut node, 0, formless(&rt, alloc, "d 1"));
    node_reads_back(&rt, alloc, &node, "c {    d 1}");
    put_child(&rt, &mut node, 1, formless(&rt, alloc, "e"));
    node_reads_back(&rt, alloc, &node, "c {d 1\n    e}");
    drop(node);
    let mut node = formless(&rt, alloc, "c");
    put_child(&rt, &mut node, 0, formless(&rt, alloc, "d"));
    node_reads_back(&rt, alloc, &node, "c {\nd\n}");
    drop(node);
}

/// Indices, what the node that is taken out there prints, and what the document then prints.
const TAKEN: &[(usize, &str, &str)] = &[
    (1, "// y\nb // z\n", "a // x\n// w\nc"),
    (1, "// w\nc", "a // x\n"),
    (0, "a // x\n", ""),
];

#[test]
fn nodes_taken_out(rt: HostRuntime) {
    let alloc = rt.alloc();
    let mut document = read(&rt, alloc, "a // x\n// y\nb // z\n// w\nc");
    for (index, taken, printed) in TAKEN {
        let is_there = *index < document.nodes().len();
        holds(&rt, is_there, taken);
        if is_there {
            prints(&rt, alloc, &document.remove_node(*index), taken);
        }
        reads_back(&rt, alloc, &document, printed);
    }
    drop(document);
}

/// A text, and what is printed once its nodes of the name `b` are removed.
const RETAINED: &[(&str, &str)] = &[
    ("", ""),
    ("b", ""),
    ("// one\nb // two\n// three\n", "// three\n"),
    ("a;b;c", "a;c"),
    (
        "a // one\n// two\nb // three\nc // four",
        "a // one\nc // four",
    ),
    ("b 1\na { b 2; }\n/-b 3\nb 4", "a { b 2; }\n"),
];

#[test]
fn nodes_retained(rt: HostRuntime) {
    let alloc = rt.alloc();
    for (text, printed) in RETAINED {
        let mut document = read(&rt, alloc, text);
        let mut seen: usize = 0;
        let count = document.nodes().len();
        document.retain_nodes(|node| {
            seen = seen.saturating_add(1);
            node.name().value() != "b"
        });
        equal(&rt, &seen, &count);
        reads_back(&rt, alloc, &document, printed);
    }
}
