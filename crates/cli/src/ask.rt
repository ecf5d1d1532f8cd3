//! What is done with one text: one of its values, another form of it, or the text with a part of it changed.

ghost use Rattle.cli.specs.Asks.{Asks, AsksFile, delivery};
ghost use Rattle.cli.specs.Internal.Applied.{Applies, IsUnedited, ShowsAt};
ghost use Rattle.cli.specs.Named.{IsReadEntry, IsReadPath, fault_message};
ghost use Rattle.cli.specs.declared.ask.Action.TheVariants.{FromJson, Get, Insert, Json, Remove, RemoveEach, Set, SetEach};
ghost use Rattle.cli_world.specs.Acts.{Does, Happens};
ghost use Rattle.kdl.specs.Words.{document_says};
ghost use Rattle.std.specs.Prelude.{◌≡◌, IfOk, Ok, string_bytes};

use crate::report::{Style, report_faults, report_not_utf8};
use cli_shown::{lines_of, push_value};
use cli_world::effects;
use cli_world::status::Status;
use cli_world::tally::Tally;
use cli_world::world::{Unread, World};
use kdl::{KdlDocument, ParseFailure};
use kdl_json::{JsonFailure, from_json, to_json};
pub use kdl_path::Path;
use kdl_path::{
    EditFailure, GetFailure, PathFailure, Target, get, get_all, insert, remove, remove_each, set,
    set_each,
};
use kdl_query::Query;
use kdl_report::Lines;
use std::alloc::{AllocError, Global};
use std::mem::ManuallyDrop;

/// What is done with a text.
#[derive(Clone, Copy)]
pub enum Action<'a> {
    /// Shows the value at a path: of a string without quotes and escapes if `raw`, and of every node of each name if
    /// `all`.
    Get {
        path: &'a Path,
        raw: bool,
        all: bool,
    },
    /// Sets the value at a path, which is made if `create`.
    Set {
        path: &'a Path,
        value: &'a str,
        create: bool,
    },
    /// Removes what is at a path.
    Remove {
        path: &'a Path,
    },
    /// Sets the value that the target names in each node that a query selects.
    SetEach {
        query: &'a Query,
        target: &'a Target,
        value: &'a str,
    },
    /// Removes what the target names of each node that a query selects.
    RemoveEach {
        query: &'a Query,
        target: &'a Target,
    },
    /// Adds the node as the last one in the block at a path.
    Insert {
        path: &'a Path,
        node: &'a str,
    },
    /// Shows the data of the text as JSON.
    Json,
    /// Shows the document whose data are this JSON.
    FromJson,
}

/// An action, the file that it is applied to, and whether the file is replaced.
#[derive(Clone, Copy)]
pub struct Ask<'a> {
    pub action: Action<'a>,
    pub name: &'a str,
    pub replace: bool,
    pub style: Style,
}

/// The result of an action on a text.
#[derive(Drop)]
pub enum Applied {
    /// The output, or the new text.
    Text(String),
    /// What is asked for is not in the text, or the text is not the JSON of a document.
    NotFound(String),
    /// The VALUE or the NODE is none, or the path names no node where it has to.
    Usage(String),
}

/// Returns the path that a text is, or what is wrong with it.
pub fn read_path(alloc: Global, text: &str) -> Result<Result<Path, String>, AllocError>
    ensures { IfOk result (IsReadPath text.now) }
{
    match Path::parse(alloc, text) {
        Ok(path) => Ok(Ok(path)),
        Err(PathFailure::Syntax(fault, at)) => {
            let fault = fault.to_string(alloc)?;
            Ok(Err(fault_message(alloc, "PATH `", text, at, &fault)?))
        }
        Err(PathFailure::Memory) => Err(AllocError),
    }
}

/// Returns the path of what an entry names of each node, `#N` or `@KEY`, or what is wrong with it.
pub fn read_entry(alloc: Global, text: &str) -> Result<Result<Path, String>, AllocError>
    ensures { IfOk result (IsReadEntry text.now) }
{
    match Target::parse(alloc, text) {
        Ok(target) => Ok(Ok(Path {
            steps: Vec::new(alloc),
            target,
        })),
        Err(PathFailure::Syntax(fault, at)) => {
            let fault = fault.to_string(alloc)?;
            Ok(Err(fault_message(alloc, "`--entry ", text, at, &fault)?))
        }
        Err(PathFailure::Memory) => Err(AllocError),
    }
}

/// Returns the message on a fault at a byte of a text, after what the text is for.
fn fault_message(
    alloc: Global,
    before: &str,
    text: &str,
    byte: usize,
    fault: &str,
) -> Result<String, AllocError>
    ensures { IfOk result (λ s. string_bytes s
        ≡ fault_message before.now text.now byte fault.now) }
{
    let place = byte.to_string(alloc)?;
    let mut message = String::from_str(alloc, before)?;
    message.push_str(text)?;
    message.push_str("`, byte ")?;
    message.push_str(&place)?;
    message.push_str(": ")?;
    message.push_str(fault)?;
    Ok(message)
}

/// Applies the action to a text.
///
/// Returns `Syntax` with the faults of the text if it is not a document, and `Memory` if an allocation fails.
fn apply(alloc: Global, text: &str, action: Action<'_>) -> Result<Applied, ParseFailure>
    ensures { Applies action.entry text.now result }
{
    match action {
        Action::Get { path, raw, all } => values_at(alloc, text, path, raw, all),
        Action::Set {
            path,
            value,
            create,
        } => text_with(alloc, text, path, value, create),
        Action::Remove { path } => text_without(alloc, text, path),
        Action::SetEach {
            query,
            target,
            value,
        } => text_with_each(alloc, text, query, target, value),
        Action::RemoveEach { query, target } => text_without_each(alloc, text, query, target),
        Action::Insert { path, node } => text_with_node(alloc, text, path, node),
        Action::Json => json_of(alloc, text),
        Action::FromJson => document_of(alloc, text),
    }
}

/// Returns the text with a value at a path.
fn text_with(
    alloc: Global,
    text: &str,
    path: &Path,
    value: &str,
    create: bool,
) -> Result<Applied, ParseFailure>
    ensures { Applies (Set path.entry value.entry create) text.now result }
{
    match set(alloc, text, path, value, create) {
        Ok(new) => Ok(Applied::Text(new)),
        Err(failure) => unedited(alloc, failure),
    }
}

/// Returns the text without what is at a path.
fn text_without(alloc: Global, text: &str, path: &Path) -> Result<Applied, ParseFailure>
    ensures { Applies (Remove path.entry) text.now result }
{
    match remove(alloc, text, path) {
        Ok(new) => Ok(Applied::Text(new)),
        Err(failure) => unedited(alloc, failure),
    }
}

/// Returns the text with a value in each node that a query selects.
fn text_with_each(
    alloc: Global,
    text: &str,
    query: &Query,
    target: &Target,
    value: &str,
) -> Result<Applied, ParseFailure>
    ensures { Applies (SetEach query.entry target.entry value.entry) text.now result }
{
    match set_each(alloc, text, query, target, value) {
        Ok(new) => Ok(Applied::Text(new)),
        Err(failure) => unedited(alloc, failure),
    }
}

/// Returns the text without what the target names of each node that a query selects.
fn text_without_each(
    alloc: Global,
    text: &str,
    query: &Query,
    target: &Target,
) -> Result<Applied, ParseFailure>
    ensures { Applies (RemoveEach query.entry target.entry) text.now result }
{
    match remove_each(alloc, text, query, target) {
        Ok(new) => Ok(Applied::Text(new)),
        Err(failure) => unedited(alloc, failure),
    }
}

/// Returns the text with a node in the block at a path.
fn text_with_node(
    alloc: Global,
    text: &str,
    path: &Path,
    node: &str,
) -> Result<Applied, ParseFailure>
    ensures { Applies (Insert path.entry node.entry) text.now result }
{
    match insert(alloc, text, path, node) {
        Ok(new) => Ok(Applied::Text(new)),
        Err(failure) => unedited(alloc, failure),
    }
}

/// Returns the data of a text as JSON, with a line break at the end.
fn json_of(alloc: Global, text: &str) -> Result<Applied, ParseFailure>
    ensures { Applies Json text.now result }
{
    // The end of the process frees the document, which is faster.
    let document = ManuallyDrop::new(KdlDocument::parse(alloc, text)?);
    let mut json = to_json(alloc, &document)?;
    json.push('\n')?;
    Ok(Applied::Text(json))
}

/// Returns the value at the path, or each of them, on a line of its own.
fn values_at(
    alloc: Global,
    text: &str,
    path: &Path,
    raw: bool,
    all: bool,
) -> Result<Applied, ParseFailure>
    ensures { Applies (Get path.entry raw all) text.now result }
{
    // The end of the process frees the document, which is faster.
    let document = ManuallyDrop::new(KdlDocument::parse(alloc, text)?);
    if !all {
        return one_value(alloc, &document, path, raw);
    }
    let values = get_all(alloc, &document, path)?;
    if values.is_empty() {
        return one_value(alloc, &document, path, raw);
    }
    Ok(Applied::Text(lines_of(alloc, &values, raw)?))
}

/// Returns a line with the value at the path.
fn one_value(
    alloc: Global,
    document: &KdlDocument,
    path: &Path,
    raw: bool,
) -> Result<Applied, ParseFailure>
    ensures { ShowsAt path.now raw (document_says document.now) result }
{
    match get(alloc, document, path) {
        Ok(value) => {
            let mut line = String::new(alloc);
            push_value(alloc, &mut line, value, raw)?;
            Ok(Applied::Text(line))
        }
        Err(GetFailure::Missing(missing)) => Ok(Applied::NotFound(format!(in alloc; "{missing}")?)),
        Err(GetFailure::Memory) => Err(ParseFailure::Memory),
    }
}

/// Returns the result for an edit that was not made.
fn unedited(alloc: Global, failure: EditFailure) -> Result<Applied, ParseFailure>
    ensures { IsUnedited failure result }
{
    let why = match failure {
        EditFailure::Text(error) => return Err(ParseFailure::Syntax(error)),
        EditFailure::Missing(missing) => {
            return Ok(Applied::NotFound(format!(in alloc; "{missing}")?));
        }
        EditFailure::Memory => return Err(ParseFailure::Memory),
        EditFailure::Value => NO_VALUE,
        EditFailure::Node(_) => NO_NODE,
        EditFailure::NotNode => NO_BLOCK,
    };
    Ok(Applied::Usage(String::from_str(alloc, why)?))
}

const NO_VALUE: &str =
    "VALUE is not one KDL value without a type; a string with spaces is in quotes of the shell and of KDL: '\"a b\"'";

const NO_NODE: &str = "NODE is not one KDL node";

const NO_BLOCK: &str = "PATH names no node: it has `#` or `@`";

/// Returns the document of a JSON, laid out.
fn document_of(alloc: Global, text: &str) -> Result<Applied, ParseFailure>
    ensures { Applies FromJson text.now result }
{
    match from_json(alloc, text) {
        Ok(document) => {
            // The end of the process frees the document, which is faster.
            let mut document = ManuallyDrop::new(document);
            document.autoformat_no_comments()?;
            Ok(Applied::Text(document.to_string(alloc)?))
        }
        Err(JsonFailure::Unexpected { at, expected }) => {
            let place = Lines::new(alloc, text)?.place(at);
            let message = format!(in alloc;
                "line {}, column {}: {expected}",
                place.line, place.column
            )?;
            Ok(Applied::NotFound(message))
        }
        Err(JsonFailure::Memory) => Err(ParseFailure::Memory),
    }
}

/// Applies an action to a file: prints the result, or replaces the file by it.
///
/// If the text of the file is refused, or if it does not have what is asked for, reports that, and returns `Found`. If
/// VALUE, NODE or the path does not fit, reports that, and returns `Usage`.
pub fn ask_file<W: World>(alloc: Global, world: &mut W, ask: &Ask<'_>) -> Tally
    ensures { AsksFile ask.now (W.seen world.old) (W.seen world.new) result }
{
    match world.text(alloc, ask.name) {
        Ok(text) => ask_text(alloc, world, ask, &text),
        Err(Unread::NotUtf8(bytes)) => report_not_utf8(alloc, world, ask.name, &bytes, ask.style),
        Err(Unread::Lost) => Tally::plain(Status::Failed),
    }
}

/// Applies an action to the text of a file.
fn ask_text<W: World>(alloc: Global, world: &mut W, ask: &Ask<'_>, text: &str) -> Tally
    ensures { Does (Asks ask.now text.now) ask.now.name.now
        (W.seen world.old) (W.seen world.new) result }
{
    match apply(alloc, text, ask.action) {
        Ok(applied) => put(alloc, world, ask, text, &applied),
        Err(ParseFailure::Syntax(error)) => {
            report_faults(alloc, world, ask.name, text, &error, ask.style)
        }
        Err(ParseFailure::Memory) => effects::report_memory(world, ask.name),
    }
}

/// Delivers what an action gives, or reports what is missing or wrong.
fn put<W: World>(
    alloc: Global,
    world: &mut W,
    ask: &Ask<'_>,
    text: &str,
    applied: &Applied,
) -> Tally
    ensures { Applies ask.now.action text.now (Ok applied.now)
        → Does (Asks ask.now text.now) ask.now.name.now
        (W.seen world.old) (W.seen world.new) result }
{
    match applied {
        Applied::Text(new) => deliver(alloc, world, ask, text, new),
        Applied::NotFound(why) => effects::report_problem(world, ask.name, why, Status::Found),
        Applied::Usage(why) => effects::report_complaint(world, ask.name, why, Status::Usage),
    }
}

/// Prints what an action gives, or replaces the file by it, if it differs from the text of the file.
fn deliver<W: World>(alloc: Global, world: &mut W, ask: &Ask<'_>, text: &str, new: &str) -> Tally
    ensures { Happens ask.now.name.now (W.seen world.old) (W.seen world.new)
        (delivery ask.now.replace text.now new.now) result }
{
    if !ask.replace {
        return effects::print(alloc, world, ask.name, new, Tally::plain(Status::Done));
    }
    if text == new {
        return Tally::plain(Status::Done);
    }
    effects::replace(alloc, world, ask.name, new)
}
