//! The calls of `kdl_query` that allocate, each made again if an allocation failed.
//!
//! So a run in which any one allocation fails prints the same as a run in which none does.

use kdl::{KdlDocument, ParseFailure, Steps};
use kdl_query::{Query, QueryFailure, query, query_all, query_paths, query_paths_counted};
use std::alloc::{AllocError, Global};
use std::io;

/// The document that the queries are tried on.
const DOCUMENT: &str =
    "a 1 k=\"x\" {\n    (t)b 2.5\n    c \"two words\" {\n        b\n    }\n}\na #true { b; d; b; }\n";

/// Each operator, each accessor, each comparison, and each form of a literal.
static QUERIES: [&str; 8] = [
    "a > b >> c + d ++ e || top() > a || (t)b || ()",
    "\"a b\"[val()][val(12)] || #\"raw\"# || \"\"\"\n  two\n  lines\n  \"\"\"",
    "[prop(k) = \"x\"][k != y] || a[k ^= x][k $= x][k *= x]",
    "[name() = b][tag() = t] || [values() > 0x1][props() >= 1.50]",
    "[val() < -1_000] || [val() <= #inf] || a[val() = #true] || [val() = (t)]",
    "a > [] > b || \">\" + \"a+b\" || [\">=\" = 1]",
    "a || a > b",
    "a b",
];

/// A call.
#[derive(Clone, Copy)]
enum Call {
    Parse,
    Print,
    Copy,
    First,
    All,
    Paths,
    Counted,
}

static CALLS: [Call; 7] = [
    Call::Parse,
    Call::Print,
    Call::Copy,
    Call::First,
    Call::All,
    Call::Paths,
    Call::Counted,
];

/// The document.
fn document(alloc: Global) -> Result<KdlDocument, AllocError> {
    match KdlDocument::parse(alloc, DOCUMENT) {
        Ok(document) => Ok(document),
        Err(ParseFailure::Memory) => Err(AllocError),
        Err(ParseFailure::Syntax(_)) => Ok(KdlDocument::new(alloc)),
    }
}

/// The query of the text, if it is one.
fn parsed(alloc: Global, text: &str) -> Result<Option<Query>, AllocError> {
    match Query::parse(alloc, text) {
        Ok(query) => Ok(Some(query)),
        Err(QueryFailure::Syntax(_)) => Ok(None),
        Err(QueryFailure::Memory) => Err(AllocError),
    }
}

/// The line for the call with the query of the text.
fn line(alloc: Global, text: &str, call: Call) -> Result<String, AllocError> {
    let Some(asked) = parsed(alloc, text)? else {
        return String::from_str(alloc, "no query");
    };
    match call {
        Call::Parse => String::from_str(alloc, "a query"),
        Call::Print => asked.to_string(alloc),
        Call::Copy => copied(alloc, &asked),
        _ => found(alloc, &document(alloc)?, &asked, call),
    }
}

/// Whether a copy is equal.
fn copied(alloc: Global, asked: &Query) -> Result<String, AllocError> {
    let is_equal = asked.clone()? == *asked;
    format!(in alloc; "a copy: {is_equal}")
}

/// How many nodes the call finds.
fn found(
    alloc: Global,
    document: &KdlDocument,
    asked: &Query,
    call: Call,
) -> Result<String, AllocError> {
    let count = match call {
        Call::First => usize::from(query(alloc, document, asked)?.is_some()),
        Call::All => query_all(alloc, document, asked)?.len(),
        Call::Paths => query_paths(alloc, document, asked)?.len(),
        _ => {
            let mut steps = Steps::new();
            query_paths_counted(alloc, document, asked, &mut steps)?.len()
        }
    };
    format!(in alloc; "{count} found")
}

/// Makes the call, again if an allocation failed, and prints its line.
fn print_line(rt: &HostRuntime, text: &str, call: Call) -> io::Result<()> {
    match line(rt.alloc(), text, call) {
        Ok(text) => rt.println(text),
        Err(_) => rt.println(line(rt.alloc(), text, call)?),
    }
}

/// Makes each call with each query.
pub fn take_all(rt: &HostRuntime) -> io::Result<()> {
    for text in &QUERIES {
        for call in &CALLS {
            print_line(rt, text, *call)?;
        }
    }
    Ok(())
}
