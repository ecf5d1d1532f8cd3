//! What PATHs, failures and documents without layout print.

use kdl::KdlDocument;
use kdl_json::{Expected, JsonFailure, from_json, to_json};
use kdl_path::{EditFailure, Path, PathFailure, PathFault};
use std::alloc::Global;
use std::fmt::Display;
use std::process::Abort;

/// Asserts that the item prints the text.
fn prints(rt: &impl Abort, alloc: Global, item: &impl Display, text: &str) {
    let printed = item.to_string(alloc).expect(rt, "memory");
    assert_eq!(rt; printed.as_str(), text);
}

#[test]
fn paths_print(rt: HostRuntime) {
    let alloc = rt.alloc();
    for (text, want) in [
        ("/", "/"),
        ("server[2]/port#1", "server[2]/port#1"),
        ("\"server\"/@\"two words\"", "server/@\"two words\""),
        ("#\"a\"#/@##\"b\"#\"##", "a/@\"b\\\"#\""),
        ("\"\"\"\n[x]\n\"\"\"/\"@c\"", "\"[x]\"/\"@c\""),
        ("\"\"#0", "\"\"#0"),
    ] {
        let path = Path::parse(alloc, text).expect(&rt, "no PATH");
        prints(&rt, alloc, &path, want);
    }
}

#[test]
fn failures_print(rt: HostRuntime) {
    let alloc = rt.alloc();
    prints(
        &rt,
        alloc,
        &PathFailure::Syntax(PathFault::NoName, 2),
        "at byte 2 of the path: expected a name",
    );
    prints(
        &rt,
        alloc,
        &EditFailure::Value,
        "expected one value without a type",
    );
    prints(
        &rt,
        alloc,
        &EditFailure::NotNode,
        "the path names no node: it has `#` or `@`",
    );
    prints(
        &rt,
        alloc,
        &JsonFailure::Unexpected {
            at: 2,
            expected: Expected::NodeName,
        },
        "byte 2: expected the key `name` of a node",
    );
}

/// Asserts that the document prints a text with the same data, as JSON.
fn reads_back(rt: &impl Abort, alloc: Global, document: &KdlDocument, json: &str) {
    let text = document.to_string(alloc).expect(rt, "memory");
    let again = KdlDocument::parse(alloc, &text).expect(rt, "no document");
    let found = to_json(alloc, &again).expect(rt, "memory");
    assert_eq!(rt; found.as_str(), json);
}

#[test]
fn a_document_without_layout_prints(rt: HostRuntime) {
    let alloc = rt.alloc();
    let json =
        r#"[{"name":"a","type":"t","entries":[{"name":"k","value":"x y"}],"children":[{"name":"b","entries":[],"children":[]},{"name":"c","entries":[{"value":1}]}]},{"name":"d","entries":[]}]"#;
    let document = from_json(alloc, json).expect(&rt, "no document");
    reads_back(&rt, alloc, &document, json);
}
