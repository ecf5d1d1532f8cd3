//! The parts of nodes and documents, set and changed in place, and what built ones print.

use crate::reading::{
    differ, equal, finds, holds, identifier, node_text, prints, read, says, text,
};
use kdl::{KdlDocument, KdlDocumentFormat, KdlNode, KdlNodeFormat, SourceSpan};
use std::alloc::Global;
use std::mem;
use std::process::Abort;

/// A new node of that name.
pub fn built(rt: &impl Abort, alloc: Global, name: &str) -> KdlNode {
    let name = identifier(rt, alloc, name);
    KdlNode::new(name).expect(rt, "memory")
}

/// A new node of that name, without a format.
fn formless(rt: &impl Abort, alloc: Global, name: &str) -> KdlNode {
    let mut node = built(rt, alloc, name);
    node.clear_format();
    node
}

/// The first node of a text.
pub fn parsed(rt: &impl Abort, alloc: Global, text: &str) -> KdlNode {
    let mut nodes = read(rt, alloc, text).into_iter();
    nodes.next().expect(rt, "no node")
}

/// A new document of such nodes.
pub fn document_of(alloc: Global, nodes: Vec<KdlNode>) -> KdlDocument {
    let mut document = KdlDocument::new(alloc);
    *document.nodes_mut() = nodes;
    document
}

/// A new document of the one node.
pub fn document_with(rt: &impl Abort, alloc: Global, node: KdlNode) -> KdlDocument {
    document_of(alloc, vec![in alloc; node].expect(rt, "memory"))
}

/// Appends the node to the document.
pub fn push(rt: &impl Abort, document: &mut KdlDocument, node: KdlNode) {
    document.nodes_mut().push(node).expect(rt, "memory");
}

/// Asserts that the document prints the text, and has its length.
fn document_prints(rt: &impl Abort, alloc: Global, document: &KdlDocument, text: &str) {
    prints(rt, alloc, document, text);
    equal(rt, &document.len(alloc).expect(rt, "memory"), &text.len());
    let is_empty = document.is_empty(alloc).expect(rt, "memory");
    equal(rt, &is_empty, &text.is_empty());
}

#[test]
fn a_new_node(rt: HostRuntime) {
    let alloc = rt.alloc();
    let mut node = built(&rt, alloc, "foo");
    equal(&rt, node.name(), &identifier(&rt, alloc, "foo"));
    holds(&rt, node.ty().is_none(), "no type");
    holds(&rt, node.entries().is_empty(), "no entries");
    equal(&rt, &node.span(), &SourceSpan { offset: 0, len: 0 });
    let format = node.format().expect(&rt, "no format");
    says(&rt, format.trailing.as_str(), "\n");
    says(&rt, format.terminator.as_str(), "");
    node.clear_format();
    holds(&rt, node.format_mut().is_none(), "no format");
    holds(&rt, node.children().is_none(), "no block");
    let children = node.ensure_children();
    equal(&rt, children, &KdlDocument::new(alloc));
    equal(&rt, &children.span(), &SourceSpan { offset: 0, len: 0 });
    drop(node);
}

/// A format with a digit in each place.
fn digits(rt: &impl Abort, alloc: Global) -> KdlNodeFormat {
    KdlNodeFormat {
        leading: text(rt, alloc, "0"),
        before_ty_name: text(rt, alloc, "1"),
        after_ty_name: text(rt, alloc, "2"),
        after_ty: text(rt, alloc, "3"),
        before_children: text(rt, alloc, "4"),
        before_terminator: text(rt, alloc, "5"),
        terminator: text(rt, alloc, "6"),
        trailing: text(rt, alloc, "7"),
    }
}

/// A change of a node.
enum Change<'a> {
    /// It becomes a new node of that name.
    Built(&'a str),
    /// It becomes the first node of that text.
    Parsed(&'a str),
    /// It becomes the only child of a new node of that name, without a format.
    Wrapped(&'a str),
    /// It gets the name.
    Named(&'a str),
    /// Its name gets the value.
    Renamed(&'a str),
    /// Its name loses its spelling.
    NameCleared,
    /// It gets the type.
    Typed(&'a str),
    /// Its type becomes this one in place.
    Retyped(&'a str),
    /// Its type is removed in place.
    Untyped,
    /// It gets a format of digits.
    Digits,
    /// Its format has no text before its block.
    BlockMoved,
    /// It loses its own format.
    Cleared,
    /// It loses all formats.
    AllCleared,
    /// It has a block.
    Block,
    /// It has a block with an empty format.
    BlockFormat,
    /// Its block becomes the document of that text.
    BlockOf(&'a str),
    /// Its block becomes a new one in place.
    BlockReset,
    /// A new node of that name is pushed to its block.
    Pushed(&'a str),
    /// A new node of that name without a format is pushed to its block.
    PushedBare(&'a str),
    /// Its block is removed.
    NoBlock,
    /// Its block is removed in place.
    BlockTaken,
}

impl Change<'_> {
    /// Changes the node.
    fn apply(&self, rt: &impl Abort, alloc: Global, node: &mut KdlNode) {
        match self {
            Change::Built(name) => *node = built(rt, alloc, name),
            Change::Parsed(text) => *node = parsed(rt, alloc, text),
            Change::Wrapped(name) => {
                let mut inner = formless(rt, alloc, name);
                mem::swap(node, &mut inner);
                node.set_children(document_with(rt, alloc, inner));
            }
            Change::Named(name) => node.set_name(identifier(rt, alloc, name)),
            Change::Renamed(value) => node.name_mut().set_value(text(rt, alloc, value)),
            Change::NameCleared => node.name_mut().clear_format(),
            Change::Typed(name) => node.set_ty(identifier(rt, alloc, name)),
            Change::Retyped(name) => *node.ty_mut() = Some(identifier(rt, alloc, name)),
            Change::Untyped => *node.ty_mut() = None,
            Change::Cleared => node.clear_format(),
            Change::AllCleared => node.clear_format_recursive(),
            _ => self.apply_to_block(rt, alloc, node),
        }
    }

    /// Changes the block of the node, or its format.
    fn apply_to_block(&self, rt: &impl Abort, alloc: Global, node: &mut KdlNode) {
        match self {
            Change::Digits => node.set_format(digits(rt, alloc)),
            Change::BlockMoved => {
                let format = node.format_mut().expect(rt, "no format");
                format.before_children.clear();
            }
            Change::BlockFormat => {
                let format = KdlDocumentFormat::new(alloc);
                node.ensure_children().set_format(format);
            }
            Change::BlockOf(text) => node.set_children(read(rt, alloc, text)),
            Change::BlockReset => *node.children_mut() = Some(KdlDocument::new(alloc)),
            Change::Pushed(name) => push(rt, node.ensure_children(), built(rt, alloc, name)),
            Change::PushedBare(name) => {
                push(rt, node.ensure_children(), formless(rt, alloc, name));
            }
            Change::NoBlock => node.clear_children(),
            Change::BlockTaken => *node.children_mut() = None,
            _ => {
                node.ensure_children();
            }
        }
    }
}

/// Changes of one node, each with what it then prints.
const CHANGES: &[(Change, &str)] = &[
    (Change::Built("n"), "n\n"),
    // The places of a built node.
    (Change::Typed("t"), "(t)n\n"),
    (Change::Digits, "0(1t2)3n567"),
    (Change::Untyped, "03n567"),
    (Change::Block, "03n4{\n}567"),
    (Change::BlockFormat, "03n4{}567"),
    (Change::BlockMoved, "03n{}567"),
    (Change::Cleared, "n {}"),
    (Change::NoBlock, "n"),
    (Change::Named("a b"), "\"a b\""),
    // A block is made once.
    (Change::Named("n"), "n"),
    (Change::Block, "n {\n}"),
    (Change::PushedBare("m"), "n {\n    m}"),
    (Change::Block, "n {\n    m}"),
    (Change::BlockTaken, "n"),
    (Change::BlockReset, "n {\n}"),
    // Blocks without formats are indented.
    (Change::Named("b"), "b {\n}"),
    (Change::Pushed("c"), "b {\nc\n}"),
    (Change::Pushed("d"), "b {\nc\nd\n}"),
    (Change::BlockTaken, "b"),
    (Change::PushedBare("c"), "b {\n    c}"),
    (Change::Wrapped("a"), "a {\n    b {\n        c    }}"),
    (
        Change::Wrapped("a"),
        "a {\n    a {\n        b {\n            c        }    }}",
    ),
    (Change::NoBlock, "a"),
    // A name is changed in place.
    (Change::Parsed(" \"a\"  1 ;"), " \"a\"  1 ;"),
    (Change::Renamed("b"), " \"a\"  1 ;"),
    (Change::NameCleared, " b  1 ;"),
    (Change::Retyped("t"), " (t)b  1 ;"),
    (Change::Named(""), " (t)\"\"  1 ;"),
    // The own format alone is dropped.
    (
        Change::Parsed("\n\"a\" 0x1 { \"b\" ; } ;"),
        "\n\"a\" 0x1 { \"b\" ; } ;",
    ),
    (Change::Cleared, "\"a\" 0x1{ \"b\" ; }"),
    // Entries are between a name and a block.
    (
        Change::Parsed("\"n\" ( t ) 0x10  k = \"v\"{}"),
        "\"n\" ( t ) 0x10  k = \"v\"{}",
    ),
    (Change::Cleared, "\"n\" ( t ) 0x10  k = \"v\"{}"),
    (Change::AllCleared, "n (t)16 k=v {\n}"),
    (Change::BlockOf(" m;"), "n (t)16 k=v { m;}"),
];

#[test]
fn the_parts_of_a_node(rt: HostRuntime) {
    let alloc = rt.alloc();
    let mut node = built(&rt, alloc, "n");
    for (change, printed) in CHANGES {
        change.apply(&rt, alloc, &mut node);
        prints(&rt, alloc, &node, printed);
    }
    drop(node);
}

#[test]
fn built_documents(rt: HostRuntime) {
    let alloc = rt.alloc();
    let mut document = KdlDocument::new(alloc);
    document_prints(&rt, alloc, &document, "");
    push(&rt, &mut document, built(&rt, alloc, "foo"));
    push(&rt, &mut document, built(&rt, alloc, "bar"));
    push(&rt, &mut document, formless(&rt, alloc, "é"));
    document_prints(&rt, alloc, &document, "foo\nbar\né");
    let mut format = KdlDocumentFormat::new(alloc);
    format.leading = text(&rt, alloc, "// a\n");
    document.set_format(format);
    document_prints(&rt, alloc, &document, "// a\nfoo\nbar\né");
    let format = document.format_mut().expect(&rt, "no format");
    format.trailing.push_str("\n// z").expect(&rt, "memory");
    document_prints(&rt, alloc, &document, "// a\nfoo\nbar\né\n// z");
    document.clear_format();
    holds(&rt, document.format_mut().is_none(), "no format");
    document_prints(&rt, alloc, &document, "foo\nbar\né");
    document.nodes_mut().clear();
    document_prints(&rt, alloc, &document, "");
    drop(document);
}

/// Texts of documents, and what they print without formats at each depth.
const CLEARED: &[(&str, &str)] = &[
    ("a { b; }", "a {\n    b}"),
    (
        "node /-\"commented\" param_name=103.0 {\n            // This is a nested node\n            nested 1 2 3\n        }",
        "node param_name=103.0 {\n    nested 1 2 3}",
    ),
    (
        "// x\n(\"t\")\"a\" {\n(\"u\")\"b\" 0b11 k=1_0 {} // y\n}\n",
        "(\"t\")a {\n    (\"u\")b 3 k=10 {\n    }}",
    ),
    (
        "a 0x1 { b 0x2 { c 0x3; d {} ; }; e { f 0x4 {}; g ; } }\nh 0x5 {i /*x*/;} ; j 0x6",
        "a 1 {\n    b 2 {\n        c 3        d {\n        }    }    e {\n        f 4 {\n        }        g    }}h 5 {\n    i}j 6",
    ),
];

#[test]
fn formats_are_dropped_at_each_depth(rt: HostRuntime) {
    let alloc = rt.alloc();
    for (text, cleared) in CLEARED {
        let mut document = read(&rt, alloc, text);
        document.clear_format();
        document_prints(&rt, alloc, &document, text);
        let first = document.nodes().first().expect(&rt, "no node");
        let span = first.span();
        document.clear_format_recursive();
        document_prints(&rt, alloc, &document, cleared);
        let first = document.nodes().first().expect(&rt, "no node");
        equal(&rt, &first.span(), &span);
    }
}

/// Pairs of documents with the same data, in different forms.
const SAME_DATA: &[(&str, &str)] = &[
    (
        "node /-\"commented\" param_name=103.0 {\n            // This is a nested node\n            nested 1 2 3\n        }",
        "node param_name=103.0 { nested 1 2 3; }",
    ),
    (
        "\n// There is a node here\nfirst_node /*with cool comments, too */ param=103.0 /-\"commented\" \"argument\" {\n    // With nested nodes too\n    nested 1 2 3\n    nested_2 \"hi\" \"world\" // this one is cool\n}\nsecond_node param=153 { nested one=1 two=2; }",
        "\nfirst_node param=103.0       \"argument\" {\n        // Different indentation, because\n        // Why not\n        nested 1 2 3\n        nested_2 \"hi\" /* actually, \"hello\" */ \"world\"\n}\n// There is a node here\nsecond_node /* This time, the comment is here */ param=153 {\n        nested one=1 two=2\n}",
    ),
];

#[test]
fn documents_are_equal_without_their_formats(rt: HostRuntime) {
    let alloc = rt.alloc();
    for (first, second) in SAME_DATA {
        let mut first = read(&rt, alloc, first);
        let mut second = read(&rt, alloc, second);
        differ(&rt, &first, &second);
        first.clear_format_recursive();
        second.clear_format_recursive();
        equal(&rt, &first, &second);
    }
}

#[test]
fn the_own_format_of_a_document(rt: HostRuntime) {
    let alloc = rt.alloc();
    let mut document = read(&rt, alloc, "\u{feff}a\n// z\n");
    document.clear_format();
    document_prints(&rt, alloc, &document, "a\n");
    drop(document);
}

/// Texts of documents, the number of their nodes, and the last node.
const NODES: &[(&str, usize, &str)] = &[
    ("a 1\nb 2; /-c\nd {\ne\n}\n", 3, " /-c\nd {\ne\n}\n"),
    ("", 0, ""),
];

#[test]
fn the_nodes_of_a_document(rt: HostRuntime) {
    let alloc = rt.alloc();
    for (text, count, last) in NODES {
        equal(&rt, &read(&rt, alloc, text).into_iter().count(), count);
        let node = read(&rt, alloc, text).into_iter().last();
        finds(&rt, alloc, node.as_ref(), last);
    }
}

#[test]
fn a_parsed_node_in_a_new_document(rt: HostRuntime) {
    let alloc = rt.alloc();
    let source = "\n  // indented comment\n  \"formatted\" 1 /* comment */ \\\n    2;\n";
    let document = document_with(&rt, alloc, node_text(&rt, alloc, source));
    document_prints(&rt, alloc, &document, source);
    drop(document);
}
