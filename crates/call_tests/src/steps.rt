//! Counted steps: where the count continues, and where it saturates.

use crate::reading::{equal, holds};
use kdl::{KdlDocument, ParseFailure, Steps};
use std::alloc::Global;
use std::process::Abort;

/// The count after a text is parsed from where the count begins. Asserts that the text is a document, or is not.
fn counted(rt: &impl Abort, alloc: Global, text: &str, is_document: bool, begun: u64) -> u64 {
    let mut steps = Steps::from(begun);
    match KdlDocument::parse_counted(alloc, text, &mut steps) {
        Ok(_) => holds(rt, is_document, text),
        Err(ParseFailure::Memory) => panic!(rt; "memory"),
        Err(ParseFailure::Syntax(_)) => holds(rt, !is_document, text),
    }
    steps.count()
}

#[test]
fn counts_go_on_and_saturate(rt: HostRuntime) {
    let alloc = rt.alloc();
    let text = "a 1 { b \"x\"; }\n";
    let once = counted(&rt, alloc, text, true, Steps::new().count());
    let refused = counted(&rt, alloc, "a {", false, 0);
    holds(&rt, 0 < refused, "steps of a refused text");
    for begun in [
        once,
        u64::MAX.saturating_sub(once).saturating_sub(1),
        u64::MAX.saturating_sub(once),
        u64::MAX.saturating_sub(3),
        u64::MAX,
    ] {
        let count = counted(&rt, alloc, text, true, begun);
        equal(&rt, &count, &begun.saturating_add(once));
        let count = counted(&rt, alloc, "a {", false, begun);
        equal(&rt, &count, &begun.saturating_add(refused));
    }
}
