//! Files that are checked.

ghost use Rattle.cli.specs.Checks.{Checks, ChecksFile, ChecksFiles, PrintsError, PrintsNotUtf8, PrintsTotals, noun, totals_line};
ghost use Rattle.cli_world.specs.Acts.{Does};
ghost use Rattle.std.specs.Prelude.{◌≡◌, ◌+◌, ◌<◌, IfOk, map, min, nat_lt, if◌then◌else◌, string_bytes};

use crate::report::{Form, Style, faults, front, not_utf8};
use cli_world::effects;
use cli_world::status::Status;
use cli_world::tally::Tally;
use cli_world::world::{OUTPUT, Unread, World};
use itoa::Buffer;
use kdl::{KdlDocument, KdlError, ParseFailure};
use std::alloc::{AllocError, Global};

/// The faults that were found so far.
#[derive(Clone, Copy)]
struct Totals {
    /// Their number, or `usize::MAX` if there are more.
    faults: usize,
    /// The number of files that have some.
    files: usize,
}

impl Totals {
    /// Counts the faults of one more file.
    fn count(&mut self, faults: usize)
        requires { self.old.files < usize.MAX }
        ensures faults { self.new.faults ≡ min (self.old.faults + faults) usize.MAX }
        ensures files { self.new.files
            ≡ (if nat_lt 0 faults then self.old.files + 1 else self.old.files) }
    {
        if faults > 0 {
            self.faults = self.faults.saturating_add(faults);
            self.files += 1;
        }
    }
}

/// Writes the faults of each of the files, and how many there are, and returns the worst of the statuses.
pub fn check_files<W: World>(alloc: Global, world: &mut W, style: Style, names: &[&str]) -> Status
    ensures { ChecksFiles style (map (λ n. n.now) names.now)
        (W.seen world.old) (W.seen world.new) result }
{
    let mut status = Status::Done;
    let mut totals = Totals {
        faults: 0,
        files: 0,
    };
    for name in names {
        let tally = check_file(alloc, world, style, name);
        totals.count(tally.count);
        status = status.worst(tally.status);
    }
    let end = print_totals(alloc, world, OUTPUT, style.form, totals);
    status.worst(end.status)
}

/// Writes the faults of a file.
pub fn check_file<W: World>(alloc: Global, world: &mut W, style: Style, name: &str) -> Tally
    ensures { ChecksFile style name.now (W.seen world.old) (W.seen world.new) result }
{
    match world.text(alloc, name) {
        Ok(text) => check_text(alloc, world, style, name, &text),
        Err(Unread::NotUtf8(bytes)) => print_not_utf8(alloc, world, style, name, &bytes),
        Err(Unread::Lost) => Tally::plain(Status::Failed),
    }
}

/// Writes the faults of the text of a file.
fn check_text<W: World>(alloc: Global, world: &mut W, style: Style, name: &str, text: &str) -> Tally
    ensures { Does (Checks style name.now text.now) name.now (W.seen world.old) (W.seen world.new) result }
{
    match KdlDocument::check(alloc, text) {
        Ok(()) => Tally::plain(Status::Done),
        Err(ParseFailure::Syntax(error)) => print_faults(alloc, world, style, name, text, &error),
        Err(ParseFailure::Memory) => effects::report_memory(world, name),
    }
}

/// Writes that the bytes of a file are not UTF-8.
fn print_not_utf8<W: World>(
    alloc: Global,
    world: &mut W,
    style: Style,
    name: &str,
    bytes: &[u8],
) -> Tally
    ensures { Does (PrintsNotUtf8 style name.now bytes.now) name.now (W.seen world.old) (W.seen world.new) result }
{
    let text = front(bytes);
    match not_utf8(alloc, text) {
        Ok(error) => print_faults(alloc, world, style, name, text, &error),
        Err(AllocError) => effects::report_memory(world, name),
    }
}

/// Writes the faults of an error in the text of a file.
fn print_faults<W: World>(
    alloc: Global,
    world: &mut W,
    style: Style,
    name: &str,
    text: &str,
    error: &KdlError,
) -> Tally
    ensures { Does (PrintsError style name.now text.now error.now) name.now (W.seen world.old) (W.seen world.new) result }
{
    match faults(alloc, name, text, error, style) {
        Ok(report) => {
            let tally = Tally {
                status: Status::Found,
                count: error.diagnostics.as_slice().len(),
            };
            effects::print(alloc, world, name, &report, tally)
        }
        Err(AllocError) => effects::report_memory(world, name),
    }
}

/// Writes how many faults there are, in how many files, unless there are none or each is an object.
fn print_totals<W: World>(
    alloc: Global,
    world: &mut W,
    name: &str,
    form: Form,
    totals: Totals,
) -> Tally
    ensures { Does (PrintsTotals form totals.faults totals.files) name.now
        (W.seen world.old) (W.seen world.new) result }
{
    if totals.files == 0 || matches!(form, Form::Json) {
        return Tally::plain(Status::Done);
    }
    match totals_line(alloc, totals) {
        Ok(line) => effects::print(alloc, world, name, &line, Tally::plain(Status::Done)),
        Err(AllocError) => effects::report_memory(world, name),
    }
}

/// Returns the line on how many faults there are, in how many files.
fn totals_line(alloc: Global, totals: Totals) -> Result<String, AllocError>
    ensures { IfOk result (λ line. string_bytes line ≡ totals_line totals.faults totals.files) }
{
    let Totals { faults, files } = totals;
    let mut line = String::new(alloc);
    let mut buffer = Buffer::new();
    line.push_str(buffer.format(faults))?;
    line.push_str(noun(faults, " fault in ", " faults in "))?;
    line.push_str(buffer.format(files))?;
    line.push_str(noun(files, " file\n", " files\n"))?;
    Ok(line)
}

/// Returns the words for so many.
fn noun(count: usize, one: &'static str, more: &'static str) -> &'static str
    ensures { result.now ≡ noun count one.now more.now }
{
    if count == 1 { one } else { more }
}
