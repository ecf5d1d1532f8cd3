//! How long each call takes on a text.

use kdl::{KdlDocument, KdlNode, NodeKey, ParseFailure};
use kdl_query::{Query, QueryFailure, query_paths};
use std::io;
use std::time::{Duration, Instant};

/// The greatest number of nodes that are looked up in a turn.
const SOUGHT: usize = 64;

/// The query that is measured: three selectors with steps, tests of names, types, properties and arguments.
const QUERY: &str =
    "[enabled = #true] >> limits > [val() >= 500] || listen[port < 100] + [] || (u16)leaf";

/// What is measured.
#[derive(Clone, Copy)]
pub enum Call {
    Parse,
    ParseAndDrop,
    /// Whether the text is a document, without creating it.
    Check,
    Print,
    Strip,
    Fmt,
    Clone,
    /// The paths of the nodes that a query selects. The query is parsed before.
    Query,
    /// Outermost nodes looked up by name, spread over the document; each look-up starts at the first node.
    Node,
    /// Properties of such nodes, each key created from its text.
    Property,
}

/// The calls whose time is proportional to the text, with the heads of their columns.
pub const CALLS: [(&str, Call); 8] = [
    ("parse", Call::Parse),
    ("and drop", Call::ParseAndDrop),
    ("print", Call::Print),
    ("strip", Call::Strip),
    ("fmt", Call::Fmt),
    ("clone", Call::Clone),
    ("query", Call::Query),
    ("check", Call::Check),
];

/// Returns the document of a text, or `None` if the text is not a document.
pub fn parsed(rt: &HostRuntime, text: &str) -> io::Result<Option<KdlDocument>> {
    match KdlDocument::parse(rt.alloc(), text) {
        Ok(document) => Ok(Some(document)),
        Err(ParseFailure::Syntax(_)) => Ok(None),
        Err(ParseFailure::Memory) => Err(io::Error::from(io::ErrorKind::OutOfMemory)),
    }
}

/// Returns the least time of the call in `turns` turns, for look-ups that of one look-up, or 0 if none finds anything.
/// Returns the greatest time if the text is not a document.
pub fn least_time(rt: &HostRuntime, call: Call, text: &str, turns: usize) -> io::Result<Duration> {
    let mut least = Duration::MAX;
    for _ in 0..turns {
        if let Some(mut document) = parsed(rt, text)? {
            least = least.min(time(rt, call, text, &mut document)?);
        }
    }
    Ok(least)
}

/// The time of one call, for look-ups that of one look-up, or 0 if none finds anything.
fn time(
    rt: &HostRuntime,
    call: Call,
    text: &str,
    document: &mut KdlDocument,
) -> io::Result<Duration> {
    match call {
        Call::Node | Call::Property => time_to_find(rt, call, document),
        Call::Strip | Call::Fmt => time_to_lay_out(rt, call, document),
        Call::Query => time_to_query(rt, document),
        _ => time_to_make(rt, call, text, document),
    }
}

/// The time of a look-up, or 0 if none finds anything.
fn time_to_find(rt: &HostRuntime, call: Call, document: &KdlDocument) -> io::Result<Duration> {
    let start = Instant::now(rt)?;
    let found = match call {
        Call::Node => nodes_found(document),
        _ => properties_found(rt, document)?,
    };
    match found {
        0 => Ok(Duration::ZERO),
        _ => Ok(start.elapsed(rt)? / found),
    }
}

/// The time of a call that creates a document or a text. The result is dropped after the time is taken.
fn time_to_make(
    rt: &HostRuntime,
    call: Call,
    text: &str,
    document: &KdlDocument,
) -> io::Result<Duration> {
    let start = Instant::now(rt)?;
    match call {
        Call::Parse => {
            let _made = parsed(rt, text)?;
            start.elapsed(rt)
        }
        Call::ParseAndDrop => {
            drop(parsed(rt, text)?);
            start.elapsed(rt)
        }
        Call::Check => {
            let _checked = KdlDocument::check(rt.alloc(), text).is_ok();
            start.elapsed(rt)
        }
        Call::Print => {
            let _made = document.to_string(rt.alloc())?;
            start.elapsed(rt)
        }
        _ => {
            let _made = document.clone()?;
            start.elapsed(rt)
        }
    }
}

/// The time of formatting the document.
fn time_to_lay_out(
    rt: &HostRuntime,
    call: Call,
    document: &mut KdlDocument,
) -> io::Result<Duration> {
    let start = Instant::now(rt)?;
    match call {
        Call::Strip => document.autoformat_no_comments()?,
        _ => document.autoformat()?,
    }
    start.elapsed(rt)
}

/// The time of the query on the document.
fn time_to_query(rt: &HostRuntime, document: &KdlDocument) -> io::Result<Duration> {
    let query = match Query::parse(rt.alloc(), QUERY) {
        Ok(query) => query,
        Err(QueryFailure::Syntax(_)) => return Err(io::Error::from(io::ErrorKind::InvalidInput)),
        Err(QueryFailure::Memory) => return Err(io::Error::from(io::ErrorKind::OutOfMemory)),
    };
    let start = Instant::now(rt)?;
    let _found = query_paths(rt.alloc(), document, &query)?;
    start.elapsed(rt)
}

/// How many of the nodes that are looked up are found.
fn nodes_found(document: &KdlDocument) -> u32 {
    let nodes = document.nodes();
    let mut found = 0u32;
    for node in nodes.iter().step_by((nodes.len() / SOUGHT).max(1)) {
        let other = document.get(node.name().value());
        found = found.saturating_add(u32::from(other.is_some()));
    }
    found
}

/// How many properties are found: the first one of each of these nodes is looked up.
fn properties_found(rt: &HostRuntime, document: &KdlDocument) -> io::Result<u32> {
    let nodes = document.nodes();
    let mut found = 0u32;
    for node in nodes.iter().step_by((nodes.len() / SOUGHT).max(1)) {
        found = found.saturating_add(u32::from(is_property_found(rt, node)?));
    }
    Ok(found)
}

/// Whether the node has a property, and the first one is found by its name.
fn is_property_found(rt: &HostRuntime, node: &KdlNode) -> io::Result<bool> {
    let Some(name) = node.entries().iter().find_map(|entry| entry.name()) else {
        return Ok(false);
    };
    let key = NodeKey::from_text(rt.alloc(), name.value())?;
    Ok(node.get(key).is_some())
}
