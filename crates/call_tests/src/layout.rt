//! Layout that no row of text can describe: built documents, values and names that are set, entries without a format,
//! levels without bound, the configuration, spans, and allocation failures.

use crate::edits::{add, add_property, exchange, value};
use crate::fields::{built, document_of, document_with, push};
use crate::reading::{equal, holds, node_text, one_of, prints, read, says, string, succeeds, text};
use kdl::{
    FormatConfig, FormatConfigBuilder, KdlDocument, KdlEntry, KdlNode, KdlNodeFormat, KdlValue,
    Layout, ParseFailure, is_kdl_space,
};
use std::alloc::Global;
use std::process::Abort;
use std::test::Fail;

/// Asserts that the document prints the text after layout, with comments if they are to be kept.
fn lays_out(
    rt: &impl Abort,
    alloc: Global,
    document: &mut KdlDocument,
    no_comments: bool,
    text: &str,
) {
    if no_comments {
        document.autoformat_no_comments().expect(rt, "memory");
    } else {
        document.autoformat().expect(rt, "memory");
    }
    prints(rt, alloc, document, text);
}

/// The configuration with these fields.
fn config(indent_level: usize, indent: &str, no_comments: bool) -> FormatConfig<'_> {
    FormatConfig {
        indent_level,
        indent,
        no_comments,
        entry_autoformate_keep: false,
    }
}

#[test]
fn configurations(rt: HostRuntime) {
    let defaults = config(0, "    ", false);
    equal(&rt, &FormatConfig::default(), &defaults);
    equal(&rt, &FormatConfig::builder().build(), &defaults);
    equal(&rt, &FormatConfigBuilder::new().build(), &defaults);
    equal(&rt, &FormatConfigBuilder::default().build(), &defaults);
    let layout = Layout {
        config: defaults,
        blank_lines: 0,
        keep_spelling: false,
        keep_inner_comments: false,
        keep_one_line: false,
        compact_empty: false,
    };
    equal(&rt, &Layout::new(), &layout);
    equal(&rt, &Layout::default(), &layout);
}

#[test]
fn fields_of_a_configuration_set_or_left(rt: HostRuntime) {
    let other = FormatConfig::builder()
        .indent_level(12)
        .indent(" \t")
        .no_comments(true);
    let same = config(12, " \t", true);
    let unset = other.no_comments(true).no_comments(false);
    for (builder, wanted) in [
        (other, same),
        (other.maybe_indent_level(None), same),
        (other.maybe_indent(None), same),
        (other.maybe_no_comments(None), same),
        (other.maybe_indent_level(Some(3)), config(3, " \t", true)),
        (other.maybe_indent(Some("")), config(12, "", true)),
        (
            other.maybe_no_comments(Some(false)),
            config(12, " \t", false),
        ),
        (
            other.indent_level(4).indent_level(5),
            config(5, " \t", true),
        ),
        (other.indent("a").indent("b"), config(12, "b", true)),
        (unset, config(12, " \t", false)),
    ] {
        equal(&rt, &builder.build(), &wanted);
    }
}

/// Texts of the 18 spaces.
const SPACES: [&str; 20] = [
    "",
    "\t",
    " ",
    "\u{a0}",
    "\u{1680}",
    "\u{2000}",
    "\u{2001}",
    "\u{2002}",
    "\u{2003}",
    "\u{2004}",
    "\u{2005}",
    "\u{2006}",
    "\u{2007}",
    "\u{2008}",
    "\u{2009}",
    "\u{200a}",
    "\u{202f}",
    "\u{205f}",
    "\u{3000}",
    "\u{3000} \t",
];

#[test]
fn spaces(rt: HostRuntime) {
    for space in &SPACES {
        holds(&rt, is_kdl_space(space), space);
    }
    for other in &[
        "\n", "\u{feff}", "a", " a", "a ", "\r", "\u{b}", "\u{85}", "\u{200b}",
    ] {
        holds(&rt, !is_kdl_space(other), other);
    }
}

/// The nodes `foo`, `bar` with entries and a child, and `baz`, as they are built.
fn built_document(rt: &impl Abort, alloc: Global) -> KdlDocument {
    let mut bar = built(rt, alloc, "bar");
    add_property(rt, alloc, &mut bar, "prop", string(rt, alloc, "value"));
    for text in ["1", "2", "#false", "#null"] {
        add(rt, &mut bar, value(rt, alloc, text));
    }
    push(rt, bar.ensure_children(), built(rt, alloc, "barchild"));
    let nodes = vec![in alloc; built(rt, alloc, "foo"), bar, built(rt, alloc, "baz")];
    document_of(alloc, nodes.expect(rt, "memory"))
}

/// What it prints after layout.
const BUILT: &str = "foo\nbar prop=value 1 2 #false #null {\n    barchild\n}\nbaz\n";

/// A place in the format of a node.
enum Place {
    Leading,
    BeforeTerminator,
    Terminator,
    Trailing,
}

impl Place {
    /// Puts the text into the place.
    fn put(&self, format: &mut KdlNodeFormat, broken: String) {
        match self {
            Place::Leading => format.leading = broken,
            Place::BeforeTerminator => format.before_terminator = broken,
            Place::Terminator => format.terminator = broken,
            Place::Trailing => format.trailing = broken,
        }
    }
}

/// Puts the text into the place in the format of the node.
fn break_in_node(rt: &impl Abort, alloc: Global, node: &mut KdlNode, place: &Place, broken: &str) {
    let format = node.format_mut().expect(rt, "no format");
    place.put(format, text(rt, alloc, broken));
}

/// A node by its index, a place of it, and a text for that place.
const BROKEN_NODES: [(usize, Place, &str); 4] = [
    (0, Place::Leading, "x "),
    (0, Place::Terminator, "\nb"),
    (1, Place::BeforeTerminator, "/-3"),
    (2, Place::Trailing, ")"),
];

/// The same document with broken formats.
fn broken_document(rt: &impl Abort, alloc: Global) -> KdlDocument {
    let mut document = built_document(rt, alloc);
    for (index, place, broken) in &BROKEN_NODES {
        let node = document.nodes_mut().get_mut(*index).expect(rt, "no node");
        break_in_node(rt, alloc, node, place, broken);
    }
    document
}

/// The document as it is built, with broken formats, and without formats; and a new document, which prints nothing
/// before layout.
#[test]
fn a_built_document(rt: HostRuntime) {
    let alloc = rt.alloc();
    for no_comments in [true, false] {
        let mut document = built_document(&rt, alloc);
        lays_out(&rt, alloc, &mut document, no_comments, BUILT);
        let mut document = broken_document(&rt, alloc);
        lays_out(&rt, alloc, &mut document, no_comments, BUILT);
        let mut document = built_document(&rt, alloc);
        document.clear_format_recursive();
        lays_out(&rt, alloc, &mut document, no_comments, BUILT);
        let mut document = KdlDocument::new(alloc);
        prints(&rt, alloc, &document, "");
        lays_out(&rt, alloc, &mut document, no_comments, "\n");
    }
}

/// The built node `foo` with texts in places, whether it has an empty block, and what it prints after layout with
/// comments.
const BROKEN: &[(&[(Place, &str)], bool, &str)] = &[
    (&[(Place::Leading, "// c")], false, "// c\nfoo\n"),
    (&[(Place::Leading, "/-a /*x*/")], false, "/-a\n/*x*/\nfoo\n"),
    (
        &[(Place::Leading, "/-a \\\r\u{85}")],
        false,
        "/-a \\\n\nfoo\n",
    ),
    (&[(Place::Leading, "/* open")], false, "foo\n"),
    (&[(Place::Leading, "}")], false, "foo\n"),
    (&[(Place::Leading, "/-a {} b")], false, "foo\n"),
    (&[(Place::BeforeTerminator, "/-3")], false, "foo /-3\n"),
    (&[(Place::BeforeTerminator, " /-3")], false, "foo /-3\n"),
    (
        &[(Place::BeforeTerminator, " \\ // y")],
        false,
        "foo \\ // y\n\n",
    ),
    (&[(Place::Terminator, "\nb")], false, "foo\n"),
    (&[(Place::Terminator, ";;")], false, "foo\n"),
    (&[(Place::Terminator, "// c")], false, "foo // c\n"),
    (&[(Place::Trailing, "// t")], false, "foo\n// t\n"),
    (
        &[
            (Place::BeforeTerminator, " /*x*/"),
            (Place::Terminator, "// c"),
        ],
        false,
        "foo /*x*/ // c\n",
    ),
    (
        &[(Place::BeforeTerminator, "/-{}")],
        true,
        "foo {\n\n} /-{}\n",
    ),
    (&[(Place::BeforeTerminator, " /-3")], true, "foo {\n\n}\n"),
];

/// Creates a document of the built node `foo` with texts in places, and with an empty block if requested.
fn broken(
    rt: &impl Abort,
    alloc: Global,
    places: &[(Place, &str)],
    has_block: bool,
) -> KdlDocument {
    let mut foo = built(rt, alloc, "foo");
    if has_block {
        foo.ensure_children();
    }
    for (place, text) in places {
        break_in_node(rt, alloc, &mut foo, place, text);
    }
    document_with(rt, alloc, foo)
}

#[test]
fn built_nodes_with_broken_formats(rt: HostRuntime) {
    let alloc = rt.alloc();
    for (places, has_block, laid_out) in BROKEN {
        let canonical = if *has_block { "foo {\n\n}\n" } else { "foo\n" };
        let mut document = broken(&rt, alloc, places, *has_block);
        lays_out(&rt, alloc, &mut document, false, laid_out);
        let mut document = broken(&rt, alloc, places, *has_block);
        lays_out(&rt, alloc, &mut document, true, canonical);
    }
}

/// Checks a node whose entries are all flagged by the configuration: it prints the text after each layout, and the
/// canonical text after layout without flags. The first entry was parsed by itself, and the last one has no format.
fn keeps_all(rt: &impl Abort, alloc: Global, no_comments: bool, kept: &str, canonical: &str) {
    let mut node = node_text(rt, alloc, "n 1 ( u )0x2 /*x*/ 3.0 {\n  m\t#\"a\"# // c\n}");
    let entry = " \\\n \"k\" /*a*/ = /*b*/( /*c*/\"u\" )/*d*/ 0x10 /*e*/";
    exchange(rt, alloc, &mut node, 0, entry);
    add(rt, &mut node, KdlValue::from(5));
    let mut document = document_with(rt, alloc, node);
    let mut config = config(0, "    ", no_comments);
    config.entry_autoformate_keep = true;
    for _ in 0..2 {
        document.autoformat_config(&config).expect(rt, "memory");
        prints(rt, alloc, &document, kept);
    }
    let last = one_of(rt, document.nodes()).entries().last();
    let format = last.expect(rt, "no entry").format();
    holds(rt, format.is_none(), "a format");
    lays_out(rt, alloc, &mut document, no_comments, canonical);
}

#[test]
fn all_entries_keep_their_form(rt: HostRuntime) {
    let kept = "n \\\n k=(u)0x10 (u)0x2 /*x*/ 3.0 5 {\n    m\t#\"a\"#\n}\n";
    let canonical = "n k=(u)16 (u)2 3.0 5 {\n    m a\n}\n";
    keeps_all(&rt, rt.alloc(), true, kept, canonical);
    let kept = "n \\\n k=(u)0x10 (u)0x2 /*x*/ 3.0 5 {\n    m\t#\"a\"# // c\n}\n";
    let laid_out = "n k=(u)16 (u)2 /*x*/ 3.0 5 {\n    m a // c\n}\n";
    keeps_all(&rt, rt.alloc(), false, kept, laid_out);
}

/// Texts, indents, and whether comments are removed, for which layout at the greatest level fails; and the canonical
/// texts.
const UNBOUND: &[(&str, &str, bool, &str)] = &[
    ("b 0x1; a {}", "", true, "b 1\na {\n\n}\n"),
    ("b 0x1; a {}", "    ", true, "b 1\na {\n\n}\n"),
    ("a {}", "", false, "a {\n\n}\n"),
    ("/*x*/ a /-1 {}", "", false, "a {\n\n}\n"),
    ("/*x*/ a /-1", "    ", false, "a\n"),
    ("// c", "    ", false, "\n"),
];

/// A layout that fails leaves the data unchanged.
#[test]
fn levels_without_bound(rt: HostRuntime) {
    let alloc = rt.alloc();
    for (source, indent, no_comments, canonical) in UNBOUND {
        let mut document = read(&rt, alloc, source);
        let config = config(usize::MAX, indent, *no_comments);
        holds(&rt, document.autoformat_config(&config).is_err(), source);
        lays_out(&rt, alloc, &mut document, true, canonical);
    }
}

#[test]
fn an_indent_that_is_no_space(rt: HostRuntime) {
    let alloc = rt.alloc();
    for no_comments in [true, false] {
        let mut document = read(&rt, alloc, "// x\n(t)a k=0x1 { b { /-x; c; }; }");
        let config = config(1, "x", no_comments);
        document.autoformat_config(&config).expect(&rt, "memory");
        let canonical = "(t)a k=1 {\n    b {\n        c\n    }\n}\n";
        lays_out(&rt, alloc, &mut document, true, canonical);
    }
}

/// Asserts that the document prints the text after a layout that keeps spellings, and again after a second one.
fn becomes(rt: &impl Abort, alloc: Global, document: &mut KdlDocument, text: &str) {
    let layout = Layout {
        keep_spelling: true,
        ..Layout::new()
    };
    for _ in 0..2 {
        document.autoformat_layout(&layout).expect(rt, "memory");
        prints(rt, alloc, document, text);
    }
}

/// The first node of the document.
fn first<'a>(rt: &impl Abort, document: &'a mut KdlDocument) -> &'a mut KdlNode {
    document.nodes_mut().first_mut().expect(rt, "no node")
}

/// The first entry of the first node of the document.
fn first_entry<'a>(rt: &impl Abort, document: &'a mut KdlDocument) -> &'a mut KdlEntry {
    let entries = first(rt, document).entries_mut();
    entries.first_mut().expect(rt, "no entry")
}

/// Texts, a new value of the first entry, and what is printed after layout.
const FORMER_VALUES: &[(&str, &str, &str)] = &[
    ("a 0x10 0x11\n", "17", "a 17 0x11\n"),
    ("a 0x11 0x11\n", "17", "a 0x11 0x11\n"),
    ("a 16.0\n", "16", "a 16\n"),
    ("a 16\n", "\"16\"", "a \"16\"\n"),
    ("a \"16\"\n", "16", "a 16\n"),
    ("a #true\n", "#false", "a #false\n"),
    ("a \"b\"\n", "c", "a c\n"),
    ("a \"k\"=0x10\n", "#null", "a \"k\"=#null\n"),
    ("a /* b */ 0x10\n", "#null", "a /* b */ #null\n"),
];

#[test]
fn spellings_of_former_values(rt: HostRuntime) {
    let alloc = rt.alloc();
    for (source, new, laid_out) in FORMER_VALUES {
        let mut document = read(&rt, alloc, source);
        let new = value(&rt, alloc, new);
        first_entry(&rt, &mut document).set_value(new);
        prints(&rt, alloc, &document, source);
        becomes(&rt, alloc, &mut document, laid_out);
    }
}

/// Spellings of the name `a`, and what the node prints after layout.
const SPELLED_NAMES: &[(&str, &str)] = &[
    ("#\"a\"#", "#\"a\"# \"k\"=0x10\n"),
    ("", "a \"k\"=0x10\n"),
    (" a", "a \"k\"=0x10\n"),
    ("a ", "a \"k\"=0x10\n"),
    ("b", "a \"k\"=0x10\n"),
    ("\"b\"", "a \"k\"=0x10\n"),
    ("a 1", "a \"k\"=0x10\n"),
    ("(t)a", "a \"k\"=0x10\n"),
    ("#true", "a \"k\"=0x10\n"),
    ("1", "a \"k\"=0x10\n"),
    ("/-a", "a \"k\"=0x10\n"),
];

#[test]
fn spellings_of_names_that_are_set(rt: HostRuntime) {
    let alloc = rt.alloc();
    for (spelling, laid_out) in SPELLED_NAMES {
        let mut document = read(&rt, alloc, "a \"k\"=0x10\n");
        let name = first(&rt, &mut document).name_mut();
        name.set_repr(text(&rt, alloc, spelling));
        becomes(&rt, alloc, &mut document, laid_out);
    }
}

/// Sets the name of the node, and the keys and types of its entries.
fn rename(rt: &impl Abort, alloc: Global, node: &mut KdlNode) {
    node.name_mut().set_value(text(rt, alloc, "b"));
    for entry in node.entries_mut().iter_mut() {
        if let Some(name) = entry.name_mut() {
            name.set_value(text(rt, alloc, "l"));
        }
        if let Some(ty) = entry.ty_mut() {
            ty.set_value(text(rt, alloc, "u"));
        }
    }
}

#[test]
fn names_that_are_set(rt: HostRuntime) {
    let alloc = rt.alloc();
    let mut document = read(&rt, alloc, "\"a\" \"k\"=0x10 (\"t\")0x11\n");
    rename(&rt, alloc, first(&rt, &mut document));
    becomes(&rt, alloc, &mut document, "b l=0x10 (u)0x11\n");
    drop(document);
}

/// A flagged entry keeps the spelling of its value, but not that of its key, whether spellings are kept or not.
#[test]
fn flagged_entries(rt: HostRuntime) {
    let alloc = rt.alloc();
    let mut document = read(&rt, alloc, "a   \"k\" = 0x10  \"l\" = 0x11\n");
    first_entry(&rt, &mut document).keep_format();
    let mut other = document.clone().expect(&rt, "memory");
    let mut layout = Layout::new();
    other.autoformat_layout(&layout).expect(&rt, "memory");
    prints(&rt, alloc, &other, "a   k=0x10 l=17\n");
    drop(other);
    layout.keep_spelling = true;
    document.autoformat_layout(&layout).expect(&rt, "memory");
    prints(&rt, alloc, &document, "a   k=0x10 \"l\"=0x11\n");
    drop(document);
}

/// Comments inside entries and types stay if the layout keeps them, also those around a value that was set.
#[test]
fn comments_inside_entries(rt: HostRuntime) {
    let alloc = rt.alloc();
    let mut document = read(&rt, alloc, "(/* a */\"t\")n k = /* b */0x10\n");
    let mut other = document.clone().expect(&rt, "memory");
    let mut layout = Layout::new();
    other.autoformat_layout(&layout).expect(&rt, "memory");
    prints(&rt, alloc, &other, "(t)n k=16\n");
    drop(other);
    layout.keep_inner_comments = true;
    document.autoformat_layout(&layout).expect(&rt, "memory");
    prints(&rt, alloc, &document, "(/* a */t)n k= /* b */16\n");
    first_entry(&rt, &mut document).set_value(KdlValue::from(17));
    layout.keep_spelling = true;
    document.autoformat_layout(&layout).expect(&rt, "memory");
    prints(&rt, alloc, &document, "(/* a */t)n k= /* b */17\n");
    layout.config.no_comments = true;
    document.autoformat_layout(&layout).expect(&rt, "memory");
    prints(&rt, alloc, &document, "(t)n k=17\n");
    drop(document);
}

#[test]
fn entries_without_a_format(rt: HostRuntime) {
    let alloc = rt.alloc();
    let mut document = read(&rt, alloc, "\"a\"\n");
    let node = first(&rt, &mut document);
    add(&rt, node, KdlValue::from(16));
    add(&rt, node, string(&rt, alloc, "-inf"));
    becomes(&rt, alloc, &mut document, "\"a\" 16 \"-inf\"\n");
    let format = first_entry(&rt, &mut document).format();
    holds(&rt, format.is_none(), "no format");
    drop(document);
}

/// A node that is pushed to the list itself becomes a part of the last one, and `push_child` puts it on a line of its
/// own.
#[test]
fn nodes_pushed_to_a_block_on_one_line(rt: HostRuntime) {
    let alloc = rt.alloc();
    let mut node = node_text(&rt, alloc, "n { a; b }");
    let mut layout = Layout::new();
    layout.keep_one_line = true;
    node.autoformat_layout(&layout).expect(&rt, "memory");
    let mut pushed = node.clone().expect(&rt, "memory");
    push(&rt, pushed.ensure_children(), node_text(&rt, alloc, "c"));
    prints(&rt, alloc, &pushed, "n { a; b c}\n");
    drop(pushed);
    let child = node_text(&rt, alloc, "c");
    succeeds(&rt, node.push_child(child));
    prints(&rt, alloc, &node, "n { a; b \nc}\n");
    drop(node);
}

/// Asserts that the nodes, their names and their entries have the same spans.
fn node_has_the_spans(rt: &impl Abort, node: &KdlNode, other: &KdlNode) {
    equal(rt, &node.span(), &other.span());
    equal(rt, &node.name().span(), &other.name().span());
    for (entry, other) in node.entries().iter().zip(other.entries()) {
        equal(rt, &entry.span(), &other.span());
    }
}

/// Asserts that the document and its nodes, and the names and entries of these, have the spans of those of the text.
fn has_the_spans(rt: &impl Abort, alloc: Global, document: &KdlDocument, text: &str) {
    let other = read(rt, alloc, text);
    equal(rt, &document.span(), &other.span());
    for (node, other) in document.nodes().iter().zip(other.nodes()) {
        node_has_the_spans(rt, node, other);
    }
}

#[test]
fn spans_stay(rt: HostRuntime) {
    let alloc = rt.alloc();
    let text = " a  0x10 k = 1 /*c*/;\n\n\"b\" /- 1 (t)2";
    let mut document = read(&rt, alloc, text);
    let with_comments = "a 16 k=1 /*c*/\nb /- 1 (t)2\n";
    lays_out(&rt, alloc, &mut document, false, with_comments);
    has_the_spans(&rt, alloc, &document, text);
    lays_out(&rt, alloc, &mut document, true, "a 16 k=1\nb (t)2\n");
    has_the_spans(&rt, alloc, &document, text);
}

/// Returns what the document of the text prints, what it prints after layout, and what it prints after layout without
/// comments, or `None` if an allocation fails. After a failed layout the data of the document are unchanged, so it can be
/// formatted again.
fn laid_out(rt: &HostRuntime, text: &str) -> Result<Option<((String, String), String)>, Fail> {
    let alloc = rt.alloc();
    match KdlDocument::parse(alloc, text) {
        Ok(mut document) => {
            let printed = document.to_string(alloc).ok();
            if document.autoformat().is_err() {
                document.autoformat_no_comments()?;
            }
            let first = document.to_string(alloc).ok();
            if document.autoformat_no_comments().is_err() {
                document.autoformat_no_comments()?;
            }
            Ok(printed.zip(first).zip(document.to_string(alloc).ok()))
        }
        Err(ParseFailure::Memory) => Ok(None),
        Err(ParseFailure::Syntax(_)) => Err(Fail::from("refused")),
    }
}

/// Only here an allocation failure is not a test failure: if one allocation fails, the result is that error or the
/// texts.
#[test]
fn want_of_memory_or_the_texts(rt: HostRuntime) -> Result<(), Fail> {
    let text =
        "\nhello 1 2 3\n\n// Comment\nworld prop=string-value {\n    child 1\n    child 2\n    child #inf\n}\n";
    let laid =
        "hello 1 2 3\n// Comment\nworld prop=string-value {\n    child 1\n    child 2\n    child #inf\n}\n";
    let canonical =
        "hello 1 2 3\nworld prop=string-value {\n    child 1\n    child 2\n    child #inf\n}\n";
    if let Some(((printed, first), second)) = laid_out(&rt, text)? {
        says(&rt, printed.as_str(), text);
        let is_either = first.as_str() == laid || first.as_str() == canonical;
        holds(&rt, is_either, first.as_str());
        says(&rt, second.as_str(), canonical);
    }
    Ok(())
}
