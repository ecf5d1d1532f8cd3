//! Checks documents against the rules of a garden.

use crate::faults::report;
use crate::schema::{Kind, Rule, breaches};
use kdl::KdlDocument;
use std::io;

/// What is allowed at the top, in a bed and in a tree.
static RULES: [Rule<'static>; 3] = [
    Rule {
        name: "",
        arguments: (0, 0),
        properties: &[],
        children: &["bed", "tree"],
    },
    Rule {
        name: "bed",
        arguments: (1, 1),
        properties: &[("shade", Kind::Boolean)],
        children: &["bed", "tree"],
    },
    Rule {
        name: "tree",
        arguments: (0, 2),
        properties: &[("kind", Kind::Text), ("height", Kind::Whole)],
        children: &[],
    },
];

/// Prints each breach in the document of the file, and returns whether there is none.
pub fn show(rt: &HostRuntime, file: &str, text: &str) -> io::Result<bool> {
    let document = match KdlDocument::parse(rt.alloc(), text) {
        Ok(document) => document,
        Err(failure) => return report(rt, file, &failure),
    };
    let found = breaches(rt.alloc(), &RULES, &document)?;
    for breach in &found {
        let end = breach.span.offset.saturating_add(breach.span.len);
        println!(rt; "{}..{end} {}", breach.span.offset, breach.what)?;
    }
    Ok(found.is_empty())
}
