//! Blocks at any depth are parsed, printed, copied, formatted, cleared of their formats and dropped on an ordinary
//! stack.

use crate::reading::{holds, node_text, one_of, prints, read, says};
use kdl::{FormatConfig, KdlDocument};
use std::alloc::Global;
use std::process::Abort;

const DEPTH: usize = 50_000;

const CLEARED_DEPTH: usize = 200_000;

/// A node in `depth` blocks, each begun and ended by these texts.
fn nested(rt: &impl Abort, alloc: Global, depth: usize, [begin, node, end]: [&str; 3]) -> String {
    let mut text = begin.repeat(alloc, depth).expect(rt, "memory");
    text.push_str(node).expect(rt, "memory");
    let ends = end.repeat(alloc, depth).expect(rt, "memory");
    text.push_str(&ends).expect(rt, "memory");
    text
}

/// The pieces of a text on one line.
const SHORT: [&str; 3] = ["a{", "b;", "}"];

/// The pieces of a text that is laid out without an indent.
const LINES: [&str; 3] = ["a {\n", "b\n", "}\n"];

#[test]
fn deep_blocks(rt: HostRuntime) {
    let alloc = rt.alloc();
    let text = nested(&rt, alloc, DEPTH, SHORT);
    let document = read(&rt, alloc, &text);
    prints(&rt, alloc, &document, &text);
    let copy = document.clone().expect(&rt, "memory");
    drop(document);
    prints(&rt, alloc, &copy, &text);
    let node = one_of(&rt, copy.nodes()).clone().expect(&rt, "memory");
    drop(copy);
    prints(&rt, alloc, &node, &text);
}

/// Descends `depth` blocks, of one node each and without formats. Asserts that the only node below them is `b`, and has
/// no format.
fn ends_cleared(rt: &impl Abort, document: &KdlDocument, depth: usize) {
    let mut nodes = document.nodes();
    for _ in 0..depth {
        let node = one_of(rt, nodes);
        let children = node.children().expect(rt, "no block");
        holds(rt, node.format().is_none(), "no format");
        holds(rt, children.format().is_none(), "no format");
        nodes = children.nodes();
    }
    let b = one_of(rt, nodes);
    says(rt, b.name().value(), "b");
    holds(rt, b.format().is_none(), "no format");
}

#[test]
fn deep_blocks_cleared(rt: HostRuntime) {
    let alloc = rt.alloc();
    let text = nested(&rt, alloc, CLEARED_DEPTH, SHORT);
    let mut document = read(&rt, alloc, &text);
    document.clear_format_recursive();
    ends_cleared(&rt, &document, CLEARED_DEPTH);
    drop(document);
    let mut node = node_text(&rt, alloc, &text);
    node.clear_format_recursive();
    let children = node.children().expect(&rt, "no block");
    ends_cleared(&rt, children, CLEARED_DEPTH - 1);
    drop(node);
}

#[test]
fn deep_blocks_laid_out(rt: HostRuntime) {
    let alloc = rt.alloc();
    let mut document = read(&rt, alloc, &nested(&rt, alloc, DEPTH, SHORT));
    let lines = nested(&rt, alloc, DEPTH, LINES);
    for no_comments in [false, true] {
        let config = FormatConfig::builder().indent("").no_comments(no_comments);
        document
            .autoformat_config(&config.build())
            .expect(&rt, "memory");
        prints(&rt, alloc, &document, &lines);
    }
    drop(document);
}
