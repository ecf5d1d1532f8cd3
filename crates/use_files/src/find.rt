//! Finds the nodes that a query selects.

ghost use Rattle.kdl.specs.Words.{document_says, node_says};
ghost use Rattle.kdl_query.specs.Data.{Query as QuerySays};
ghost use Rattle.kdl_query.specs.QueryText.{IsQuery};
ghost use Rattle.kdl_query.specs.Refusals.{IsSyntax};
ghost use Rattle.kdl_query.specs.Selects.{AreSelected};
ghost use Rattle.std.specs.Prelude.{IfOk, chars, map};

use crate::faults::report;
use crate::show::place;
use kdl::{KdlDocument, KdlNode};
use kdl_query::{Query, QueryFailure, query_all};
use std::alloc::Global;
use std::io;

/// Returns the nodes that the query of a text selects.
fn find<'a>(
    alloc: Global,
    document: &'a KdlDocument,
    query: &str,
) -> Result<Vec<&'a KdlNode>, QueryFailure>
    // Whatever query the text is, these are the nodes that it selects, in order.
    ensures found { IfOk result (λ ns. (q : QuerySays) → IsQuery (chars query.now) q
        → AreSelected (document_says document.entry.now) q (map (λ n. node_says n.now) ns.items)) }
    // A refused text is no query.
    ensures refused { IsSyntax result → (q : QuerySays) → IsQuery (chars query.now) q → ⊥ }
{
    let query = Query::parse(alloc, query)?;
    Ok(query_all(alloc, document, &query)?)
}

/// Prints the place and the name of each node of the file that the query selects, or reports what is wrong with the file or
/// the query, and returns whether nothing is.
pub fn show(rt: &HostRuntime, file: &str, text: &str, query: &str) -> io::Result<bool> {
    let document = match KdlDocument::parse(rt.alloc(), text) {
        Ok(document) => document,
        Err(failure) => return report(rt, file, &failure),
    };
    match find(rt.alloc(), &document, query) {
        Ok(nodes) => {
            for node in &nodes {
                let (line, column) = place(text, node.span().offset);
                println!(rt; "{file}:{line}:{column}: {}", node.name().value())?;
            }
            Ok(true)
        }
        Err(QueryFailure::Syntax(error)) => {
            eprintln!(rt; "QUERY: byte {}: {error}", error.span.offset)?;
            Ok(false)
        }
        Err(QueryFailure::Memory) => Err(io::Error::from(io::ErrorKind::OutOfMemory)),
    }
}
