//! Copies of documents and their parts, equality at each depth, and errors: their copies, and what they print.

use crate::fields::parsed;
use crate::reading::{differ, equal, is_copy, node_text, prints, read, text};
use crate::values::are_one;
use kdl::{
    FloatFailure, KdlDiagnostic, KdlDocument, KdlEntry, KdlError, KdlNode, ParseFailure, Severity,
    SourceSpan,
};
use std::alloc::Global;
use std::process::Abort;
use std::rc::RcStr;

const ELSEWHERE: SourceSpan = SourceSpan { offset: 40, len: 2 };

/// Asserts that a copy of the node equals it, and so do copies of its format, its entries and their formats.
fn node_is_copied(rt: &impl Abort, node: &KdlNode) {
    is_copy(rt, node.clone().ok(), node);
    let format = node.format().expect(rt, "no format");
    is_copy(rt, format.clone().ok(), format);
    for entry in node.entries() {
        is_copy(rt, entry.clone().ok(), entry);
        let format = entry.format().expect(rt, "no format");
        is_copy(rt, format.clone().ok(), format);
    }
}

#[test]
fn documents_and_their_parts(rt: HostRuntime) {
    let alloc = rt.alloc();
    let text = " (t)a 1  \\\n \"k\"=( u )0xDEADbeef { b 1; } ;\"c\"\n";
    let document = read(&rt, alloc, text);
    let format = document.format().expect(&rt, "no format");
    is_copy(&rt, format.clone().ok(), format);
    for node in document.nodes() {
        node_is_copied(&rt, node);
    }
    let copy = document.clone().expect(&rt, "memory");
    equal(&rt, &copy, &document);
    prints(&rt, alloc, &copy, text);
    equal(&rt, &copy.span(), &document.span());
    drop(copy);
    drop(document);
}

/// Gives the document, its nodes and their names and types another span.
fn move_elsewhere(document: &mut KdlDocument) {
    document.set_span(ELSEWHERE);
    for node in document.nodes_mut().iter_mut() {
        node.set_span(ELSEWHERE);
        node.name_mut().set_span(ELSEWHERE);
        if let Some(ty) = node.ty_mut() {
            ty.set_span(ELSEWHERE);
        }
    }
}

/// Spans count nowhere for equality and hashes. A copy has those of its source.
#[test]
fn equality_at_each_depth(rt: HostRuntime) {
    let alloc = rt.alloc();
    let source = "a {\n  (t)b k=0x1 { c; }\n}\n";
    let first = read(&rt, alloc, source);
    let mut other = read(&rt, alloc, source);
    move_elsewhere(&mut other);
    for node in other.nodes_mut().iter_mut() {
        move_elsewhere(node.ensure_children());
    }
    are_one(&rt, &other, &first);
    let copy = other.clone().expect(&rt, "memory");
    equal(&rt, &copy, &other);
    equal(&rt, &copy.span(), &ELSEWHERE);
    for node in copy.nodes() {
        equal(&rt, &node.name().span(), &ELSEWHERE);
    }
    drop(copy);
    other.clear_format_recursive();
    differ(&rt, &other, &first);
    drop(first);
    drop(other);
}

/// Texts of nodes, and whether each is read as the same node as the first one.
const NODES: &[(&str, bool)] = &[
    ("n 1 { a; }\n", true),
    ("\nn 1 { a; }\n", false),
    ("n 1 { a; }\n\n", false),
];

#[test]
fn nodes_by_their_texts(rt: HostRuntime) {
    let alloc = rt.alloc();
    let mut alone = node_text(&rt, alloc, "n 1 { a; }\n");
    alone.set_span(ELSEWHERE);
    are_one(&rt, &parsed(&rt, alloc, "n 1 { a; }\n"), &alone);
    for (text, is_same) in NODES {
        let other = node_text(&rt, alloc, text);
        equal(&rt, &(other == alone), is_same);
    }
    drop(alone);
}

/// A diagnostic of a text, with all its parts.
fn diagnostic(rt: &impl Abort, alloc: Global) -> KdlDiagnostic {
    KdlDiagnostic {
        input: RcStr::from_str(alloc, "n }").expect(rt, "memory"),
        span: SourceSpan { offset: 3, len: 2 },
        message: Some(text(rt, alloc, "message")),
        label: Some(text(rt, alloc, "label")),
        help: Some(text(rt, alloc, "help")),
        severity: Severity::Warning,
    }
}

#[test]
fn diagnostics(rt: HostRuntime) {
    let alloc = rt.alloc();
    let mut diagnostic = diagnostic(&rt, alloc);
    let copy = diagnostic.clone().expect(&rt, "memory");
    equal(&rt, &copy, &diagnostic);
    prints(&rt, alloc, &copy, "message");
    diagnostic.span = SourceSpan { offset: 3, len: 1 };
    differ(&rt, &copy, &diagnostic);
    diagnostic.message = None;
    prints(&rt, alloc, &diagnostic, "Unexpected error");
    equal(&rt, &Severity::default(), &Severity::Error);
    drop(diagnostic);
    drop(copy);
}

/// An error with only that diagnostic.
fn error(rt: &impl Abort, alloc: Global) -> KdlError {
    let diagnostic = diagnostic(rt, alloc);
    let input = diagnostic.input.clone().expect(rt, "memory");
    let diagnostics = vec![in alloc; diagnostic].expect(rt, "memory");
    KdlError { input, diagnostics }
}

/// Asserts that the failure, and the error in it, print that no document is read, and each diagnostic prints the text.
fn failure_prints(rt: &impl Abort, alloc: Global, failure: &ParseFailure, text: &str) {
    prints(rt, alloc, failure, "Failed to parse KDL document");
    if let ParseFailure::Syntax(error) = failure {
        prints(rt, alloc, error, "Failed to parse KDL document");
        equal(rt, &error.diagnostics.is_empty(), &false);
        for diagnostic in &error.diagnostics {
            prints(rt, alloc, diagnostic, text);
        }
    }
}

#[test]
fn failures(rt: HostRuntime) {
    let alloc = rt.alloc();
    let failure = ParseFailure::Syntax(error(&rt, alloc));
    is_copy(&rt, failure.clone().ok(), &failure);
    differ(&rt, &failure, &ParseFailure::Memory);
    failure_prints(&rt, alloc, &failure, "message");
    drop(failure);
    let failure = KdlEntry::parse(alloc, ";").err().expect(&rt, "not refused");
    failure_prints(&rt, alloc, &failure, "Expected end of document");
    drop(failure);
    prints(&rt, alloc, &ParseFailure::Memory, "out of memory");
    prints(&rt, alloc, &FloatFailure::NotAFloat, "not a KDL float");
    prints(&rt, alloc, &FloatFailure::Memory, "out of memory");
}
