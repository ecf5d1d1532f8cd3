//! Files in which a query selects nodes, which are shown.

ghost use Rattle.cli.specs.Searches.{IsPicture, IsReadQuery, Searches, SearchesFile, SearchesFiles, Shows};
ghost use Rattle.cli_world.specs.Acts.{Does};
ghost use Rattle.cli_world.specs.Statuses.{code_of};
ghost use Rattle.kdl.specs.Words.{IsDocument, IsSyntax, Nodes, TellsOnSyntax};
ghost use Rattle.std.specs.Prelude.{◌≡◌, if◌then◌else◌, IfOk, chars, map, option_map, string_bytes};

use crate::disposal::Disposal;
use crate::report::{Style, report_faults, report_not_utf8};
pub use cli_shown::View;
use cli_shown::shown;
use cli_world::effects;
use cli_world::status::Status;
use cli_world::tally::Tally;
use cli_world::world::{Unread, World};
use kdl::{KdlDiagnostic, KdlDocument, ParseFailure, Severity};
pub use kdl_query::Query;
use kdl_query::{QueryError, QueryFailure};
use kdl_report::{Lines, render_without_hint};
use std::alloc::{AllocError, Global};
use std::rc::RcStr;

/// A query, and what is shown of the nodes that it selects.
#[derive(Clone, Copy)]
pub struct Search<'a> {
    pub query: &'a Query,
    pub view: View,
    pub style: Style,
}

/// Returns the query that a text is, or a picture of its fault.
pub fn read_query(
    alloc: Global,
    text: &str,
    color: bool,
) -> Result<Result<Query, String>, AllocError>
    ensures { IfOk result (IsReadQuery color text.now) }
{
    match Query::parse(alloc, text) {
        Ok(query) => Ok(Ok(query)),
        Err(QueryFailure::Syntax(error)) => Ok(Err(fault(alloc, text, &error, color)?)),
        Err(QueryFailure::Memory) => Err(AllocError),
    }
}

/// Draws the fault of a query.
fn fault(alloc: Global, text: &str, error: &QueryError, color: bool) -> Result<String, AllocError>
    ensures { IfOk result (λ out. IsPicture color text.now error.now (string_bytes out)) }
{
    let fault = KdlDiagnostic {
        input: RcStr::from_str(alloc, text)?,
        span: error.span,
        message: Some(String::from_str(alloc, error.message)?),
        label: None,
        help: owned(alloc, error.help)?,
        severity: Severity::Error,
    };
    render_without_hint(alloc, "<query>", &Lines::new(alloc, text)?, &fault, color)
}

/// Returns a copy of the text, if there is one.
fn owned(alloc: Global, text: Option<&str>) -> Result<Option<String>, AllocError>
    ensures { IfOk result (λ copy. option_map string_bytes copy ≡ option_map (λ t. t.now) text.entry) }
{
    match text {
        Some(text) => Ok(Some(String::from_str(alloc, text)?)),
        None => Ok(None),
    }
}

/// Prints the nodes of each of the files that the query selects. Returns the worst of the statuses of the files, and not
/// `Done` if no node of any of them is selected.
pub fn search_files<W: World>(
    alloc: Global,
    world: &mut W,
    search: &Search<'_>,
    names: &[&str],
) -> Status
    ensures { SearchesFiles search.now (map (λ n. n.now) names.now) (W.seen world.old) (W.seen world.new) result }
{
    let disposal = Disposal::of_files(names.len());
    let mut status = Status::Done;
    let mut is_hit = false;
    for name in names {
        let tally = search_file(alloc, world, search, name, disposal);
        status = status.worst(tally.status);
        is_hit = is_hit | (tally.count > 0);
    }
    status.worst(status_of(is_hit))
}

/// Returns the status of a run in which nodes are selected, or none.
fn status_of(is_hit: bool) -> Status
    ensures { code_of result ≡ (if is_hit then 0 else 1) }
{
    if is_hit { Status::Done } else { Status::Found }
}

/// Prints the nodes of a file that the query selects, and disposes of its document.
pub fn search_file<W: World>(
    alloc: Global,
    world: &mut W,
    search: &Search<'_>,
    name: &str,
    disposal: Disposal,
) -> Tally
    ensures { SearchesFile search.now name.now (W.seen world.old) (W.seen world.new) result }
{
    match world.text(alloc, name) {
        Ok(text) => search_text(alloc, world, search, name, &text, disposal),
        Err(Unread::NotUtf8(bytes)) => report_not_utf8(alloc, world, name, &bytes, search.style),
        Err(Unread::Lost) => Tally::plain(Status::Failed),
    }
}

/// Prints the nodes of the text of a file that the query selects, or reports the faults of the text.
fn search_text<W: World>(
    alloc: Global,
    world: &mut W,
    search: &Search<'_>,
    name: &str,
    text: &str,
    disposal: Disposal,
) -> Tally
    ensures { Does (Searches search.now name.now text.now) name.now (W.seen world.old) (W.seen world.new) result }
{
    match selected(alloc, text, search, disposal) {
        Ok((out, count)) => {
            let tally = Tally {
                status: Status::Done,
                count,
            };
            effects::print(alloc, world, name, &out, tally)
        }
        Err(ParseFailure::Syntax(error)) => {
            report_faults(alloc, world, name, text, &error, search.style)
        }
        Err(ParseFailure::Memory) => effects::report_memory(world, name),
    }
}

/// Returns what is shown of the nodes of a text that the query selects, and how many there are.
///
/// Returns `Syntax` with the faults of the text if it is not a document, and `Memory` if an allocation fails.
fn selected(
    alloc: Global,
    text: &str,
    search: &Search<'_>,
    disposal: Disposal,
) -> Result<(String, usize), ParseFailure>
    ensures shows { IfOk result (λ r. Shows search.now text.now (string_bytes r.0) r.1) }
    ensures refused { IsSyntax result → (x : Nodes) → IsDocument (chars text.now) x → ⊥ }
    ensures told { TellsOnSyntax text.now result }
{
    let document = KdlDocument::parse(alloc, text)?;
    let (out, count) = shown(alloc, &document, search.query, search.view)?;
    disposal.dispose(document);
    Ok((out, count))
}
