//! The test of a query: what it prints and the paths of the nodes that it selects, or where it is refused.

use crate::checks::{Case, compare};
use crate::dump::Dump;
use crate::fault::Fault;
use kdl::{KdlDocument, ParseFailure};
use kdl_query::{Query, QueryError, QueryFailure, query_paths};
use std::alloc::AllocError;

/// Tests the text as a query.
pub fn check_query(case: &Case<'_>) -> Result<(), Fault> {
    let mut dump = Dump::new(case.alloc(), false);
    match Query::parse(case.alloc(), case.text) {
        Ok(query) => is_accepted(case, &query, &mut dump)?,
        Err(QueryFailure::Syntax(error)) => is_refused(case, &error, &mut dump)?,
        Err(QueryFailure::Memory) => return Err(Fault::from(AllocError)),
    }
    compare(case, &dump)
}

/// Adds what the query prints, and the paths that it selects in the document of the row, if it has one.
fn is_accepted(case: &Case<'_>, query: &Query, dump: &mut Dump) -> Result<(), Fault> {
    dump.text("accepted", case.text);
    let printed = query.to_string(case.alloc())?;
    dump.form("", "prints", ": ", &printed);
    is_reread(case, query, &printed)?;
    let Some(document) = case.row.setting("on") else {
        return Ok(());
    };
    let document = document_of(case, document)?;
    dump.form("", "selects", ": ", &selected(case, &document, query)?);
    Ok(())
}

/// Checks that the printed text is one of an equal query.
fn is_reread(case: &Case<'_>, query: &Query, printed: &str) -> Result<(), Fault> {
    match Query::parse(case.alloc(), printed) {
        Ok(other) if other == *query => Ok(()),
        Err(QueryFailure::Memory) => Err(Fault::from(AllocError)),
        _ => Err(case.differs("a text of the same query", printed)),
    }
}

/// The document that is written so.
fn document_of(case: &Case<'_>, notation: &str) -> Result<KdlDocument, Fault> {
    let text = case.fills.decoded(notation)?;
    match KdlDocument::parse(case.alloc(), &text) {
        Ok(document) => Ok(document),
        Err(ParseFailure::Memory) => Err(Fault::from(AllocError)),
        Err(ParseFailure::Syntax(_)) => Err(case.differs("a document", &text)),
    }
}

/// The paths that the query selects, with a space between two, and `/` between the numbers of one.
fn selected(case: &Case<'_>, document: &KdlDocument, query: &Query) -> Result<String, Fault> {
    let mut words = String::new(case.alloc());
    for path in &query_paths(case.alloc(), document, query)? {
        if !words.is_empty() {
            words.push(' ')?;
        }
        for (depth, index) in path.iter().enumerate() {
            if depth > 0 {
                words.push('/')?;
            }
            write!(&mut words, "{index}")?;
        }
    }
    Ok(words)
}

/// Checks that the span of the error is in the text. Adds the lines of the error.
fn is_refused(case: &Case<'_>, error: &QueryError, dump: &mut Dump) -> Result<(), Fault> {
    let end = error.span.offset.saturating_add(error.span.len);
    if case.text.get(error.span.offset..end).is_none() {
        return Err(case.differs("a span in the text", "another"));
    }
    dump.text("refused", case.text);
    dump.query_error(error);
    Ok(())
}
