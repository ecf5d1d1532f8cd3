//! What a command line asks for.

ghost use Rattle.cli.specs.Config.{Configures};
ghost use Rattle.cli.specs.Formats.{FormatsFiles};
ghost use Rattle.cli.specs.Requests.{AsksInput, GivesSettings, IsUnsettled, IsUnusable, Runs, RunsAsk, RunsCheck, RunsFormat, RunsSearch, Settles, Shows, has_input_twice, job_of, misfit_line, names_of, or_input, replaces_input, times_input, settings_status, unfit_report};
ghost use Rattle.cli_words.specs.Template.{IsManual, IsScript};
ghost use Rattle.cli_world.specs.Acts.{Happens, output};
ghost use Rattle.cli_world.specs.Acts.Effect.{prints};
ghost use Rattle.cli_world.specs.Files.{Has};
ghost use Rattle.cli_world.specs.Seen.{shown_name};
ghost use Rattle.cli_world.specs.Tallies.{plain};
ghost use Rattle.kdl_report.specs.Shown.{shown_bytes};
ghost use Rattle.std.specs.Prelude.{◌≡◌, ◌↔◌, ◌++◌, Err, IfErr, IfOk, IsTrue, Ok, OnOk, chars, flat_map, string_bytes};

use crate::ask::{Ask, ask_file};
use crate::check::check_files;
use crate::config::{Misfit, Unfit, given};
use crate::files::{Job, Mode, format_files};
use crate::query::{Search, search_files};
use crate::report::{Style, faults, report_not_utf8};
use crate::settings::{Given, Settings};
use cli_words::completions::{Shell, completions};
use cli_words::manual::manual;
use cli_world::effects;
use cli_world::status::Status;
use cli_world::tally::Tally;
use cli_world::world::{OUTPUT, Unread, World, shown_name};
use itoa::Buffer;
use kdl_report::{Lines, shown_text};
use std::alloc::{AllocError, Global};

/// The name of the standard input.
static STDIN: [&str; 1] = ["-"];

/// Which files are formatted, and how: by the settings of the file `config`, but for those that are given.
#[derive(Clone, Copy)]
pub struct Format<'a> {
    pub names: &'a [&'a str],
    pub mode: Mode,
    pub given: Given,
    pub config: Option<&'a str>,
    pub style: Style,
}

/// What a command line asks for. Without names, the file is the standard input, `-`.
#[derive(Clone, Copy)]
pub enum Request<'a> {
    /// Files are formatted.
    Format(Format<'a>),
    /// The faults of files are shown.
    Check {
        names: &'a [&'a str],
        style: Style,
    },
    /// An action on a file.
    Ask(Ask<'a>),
    /// The nodes of files that a query selects are shown.
    Search {
        names: &'a [&'a str],
        search: Search<'a>,
    },
    /// The completions of a shell are shown.
    Completions(Shell),
    /// The manual page is shown.
    Manual,
}

/// Does what is asked for: writes results to the output, replaces files, and reports what goes wrong. Returns the status.
pub fn run<W: World>(alloc: Global, request: &Request<'_>, world: &mut W) -> Status
    ensures { Runs request.now (W.seen world.old) (W.seen world.new) result }
{
    match *request {
        Request::Format(format) => format_named(alloc, world, &format),
        Request::Check { names, style } => check_named(alloc, world, style, names),
        Request::Ask(ask) => ask_named(alloc, world, &ask),
        Request::Search { names, search } => search_named(alloc, world, &search, names),
        Request::Completions(shell) => show_completions(alloc, world, shell),
        Request::Manual => show_manual(alloc, world),
    }
}

/// Checks files.
fn check_named<W: World>(alloc: Global, world: &mut W, style: Style, names: &[&str]) -> Status
    ensures { RunsCheck style (names_of names.now) (W.seen world.old) (W.seen world.new) result }
{
    if has_input_twice(names) {
        return report_unusable(world, READ_ONCE);
    }
    check_files(alloc, world, style, or_input(names))
}

/// Shows the nodes of files that a query selects.
fn search_named<W: World>(
    alloc: Global,
    world: &mut W,
    search: &Search<'_>,
    names: &[&str],
) -> Status
    ensures { RunsSearch search.now (names_of names.now) (W.seen world.old) (W.seen world.new) result }
{
    if has_input_twice(names) {
        return report_unusable(world, READ_ONCE);
    }
    search_files(alloc, world, search, or_input(names))
}

/// Applies an action to a file.
fn ask_named<W: World>(alloc: Global, world: &mut W, ask: &Ask<'_>) -> Status
    ensures { RunsAsk ask.now (W.seen world.old) (W.seen world.new) result }
{
    if asks_input(ask) {
        return report_unusable(world, NOT_WRITABLE);
    }
    ask_file(alloc, world, ask).status
}

/// Returns whether the standard input is to be replaced by what an action gives.
fn asks_input(ask: &Ask<'_>) -> bool
    ensures { IsTrue result ↔ AsksInput ask.now }
{
    ask.replace && ask.name == "-"
}

/// Formats files.
fn format_named<W: World>(alloc: Global, world: &mut W, format: &Format<'_>) -> Status
    ensures { RunsFormat format.now (W.seen world.old) (W.seen world.new) result }
{
    if replaces_input(format.mode, format.names) {
        return report_unusable(world, NOT_WRITABLE);
    }
    if has_input_twice(format.names) {
        return report_unusable(world, READ_ONCE);
    }
    match settings_of(alloc, world, format) {
        Ok(settings) => format_with(alloc, world, format, settings),
        Err(status) => status,
    }
}

/// Formats files with these settings.
fn format_with<W: World>(
    alloc: Global,
    world: &mut W,
    format: &Format<'_>,
    settings: Settings,
) -> Status
    ensures { FormatsFiles (job_of format.now settings) (or_input (names_of format.now.names.now)) (W.seen world.old) (W.seen world.new) result }
{
    let job = Job {
        settings,
        mode: format.mode,
        style: format.style,
    };
    format_files(alloc, world, &job, or_input(format.names))
}

/// Returns the names, or that of the standard input if there are none.
fn or_input<'a>(names: &'a [&'a str]) -> &'a [&'a str]
    ensures { names_of result.now ≡ or_input (names_of names.now) }
{
    if names.is_empty() { &STDIN } else { names }
}

/// Returns whether the standard input is to be replaced.
fn replaces_input(mode: Mode, names: &[&str]) -> bool
    ensures { result ≡ replaces_input mode (names_of names.now) }
{
    match mode {
        Mode::Replace => count_input(or_input(names)) > 0,
        _ => false,
    }
}

/// Returns whether the standard input is among the files more than once.
fn has_input_twice(names: &[&str]) -> bool
    ensures { result ≡ has_input_twice (names_of names.now) }
{
    count_input(names) > 1
}

/// Returns how often the standard input is among the files.
fn count_input(names: &[&str]) -> usize
    ensures { result ≡ times_input (names_of names.now) }
{
    names.iter().filter(|name| **name == "-").count()
}

const NOT_WRITABLE: &str = "standard input can't be written: give the files to write";

const READ_ONCE: &str = "standard input is read once: give `-` at most once";

/// Reports that the command line can't be followed.
fn report_unusable<W: World>(world: &mut W, why: &str) -> Status
    ensures { IsUnusable (W.seen world.old) (W.seen world.new) result }
{
    world.report_complaint(why);
    Status::Usage
}

/// Writes the completions of a shell to the output.
fn show_completions<W: World>(alloc: Global, world: &mut W, shell: Shell) -> Status
    ensures { Shows (IsScript shell) (W.seen world.old) (W.seen world.new) result }
{
    match completions(alloc, shell) {
        Ok(script) => show(alloc, world, &script),
        Err(AllocError) => effects::report_memory(world, OUTPUT).status,
    }
}

/// Writes the manual page to the output.
fn show_manual<W: World>(alloc: Global, world: &mut W) -> Status
    ensures { Shows IsManual (W.seen world.old) (W.seen world.new) result }
{
    match manual(alloc) {
        Ok(page) => show(alloc, world, &page),
        Err(AllocError) => effects::report_memory(world, OUTPUT).status,
    }
}

/// Writes a text of the program itself to the output.
fn show<W: World>(alloc: Global, world: &mut W, text: &str) -> Status
    ensures { (t : Tally) × Happens output (W.seen world.old) (W.seen world.new)
        (prints text.now (plain Status.Done)) t × (result ≡ t.status) }
{
    effects::print(alloc, world, OUTPUT, text, Tally::plain(Status::Done)).status
}

/// Returns the settings that are given on the command line, by the file, or else by default. If the file gives none,
/// reports why, and returns the status.
fn settings_of<W: World>(
    alloc: Global,
    world: &mut W,
    format: &Format<'_>,
) -> Result<Settings, Status>
    ensures { Settles format.now (W.seen world.old) (W.seen world.new) result }
{
    match format.config {
        Some(name) => match given_by(alloc, world, name, format.style) {
            Ok(given) => Ok(Settings::new().with(given).with(format.given)),
            Err(status) => Err(status),
        },
        None => Ok(Settings::new().with(format.given)),
    }
}

/// Returns the settings that a file gives. If it gives none, reports why, and returns the status.
fn given_by<W: World>(
    alloc: Global,
    world: &mut W,
    name: &str,
    style: Style,
) -> Result<Given, Status>
    ensures given { IfOk result (GivesSettings name.now (W.seen world.old).files) }
    ensures seen { OnOk result (W.seen world.new ≡ W.seen world.old) }
    ensures unsettled { IfErr result (IsUnsettled style name.now (W.seen world.old) (W.seen world.new)) }
{
    match world.text(alloc, name) {
        Ok(text) => given_in(alloc, world, name, &text, style),
        Err(Unread::NotUtf8(bytes)) => {
            let tally = report_not_utf8(alloc, world, name, &bytes, style);
            Err(settings_status(tally.status))
        }
        Err(Unread::Lost) => Err(Status::Failed),
    }
}

/// Returns the status if a text of settings has a fault.
fn settings_status(status: Status) -> Status
    ensures { result ≡ settings_status status }
{
    match status {
        Status::Found => Status::Usage,
        other => other,
    }
}

/// Returns the settings that the text of a file gives. If it gives none, reports why, and returns the status.
fn given_in<W: World>(
    alloc: Global,
    world: &mut W,
    name: &str,
    text: &str,
    style: Style,
) -> Result<Given, Status>
    ensures given { IfOk result (λ given. Configures text.now (Ok given)) }
    ensures seen { OnOk result (W.seen world.new ≡ W.seen world.old) }
    ensures unsettled { IfErr result (λ s. Has (W.seen world.old).files name.now text.now
        → IsUnsettled style name.now (W.seen world.old) (W.seen world.new) s) }
{
    match given(alloc, text) {
        Ok(given) => Ok(given),
        Err(unfit) => Err(report_unfit(alloc, world, name, text, &unfit, style)),
    }
}

/// Reports why a text has no settings, and returns the status.
fn report_unfit<W: World>(
    alloc: Global,
    world: &mut W,
    name: &str,
    text: &str,
    unfit: &Unfit,
    style: Style,
) -> Status
    ensures { Has (W.seen world.old).files name.now text.now → Configures text.now (Err unfit.now)
        → IsUnsettled style name.now (W.seen world.old) (W.seen world.new) result }
{
    match unfit_report(alloc, name, text, unfit, style) {
        Ok(report) => {
            world.report(&report);
            Status::Usage
        }
        Err(AllocError) => effects::report_memory(world, name).status,
    }
}

/// Returns the report of why a text has no settings.
fn unfit_report(
    alloc: Global,
    name: &str,
    text: &str,
    unfit: &Unfit,
    style: Style,
) -> Result<String, AllocError>
    ensures report { IfOk result (λ out. string_bytes out ≡ unfit_report style name.now text.now unfit.now) }
    ensures memory { OnOk result (unfit.now ≡ Unfit.Memory → ⊥) }
{
    match unfit {
        Unfit::Syntax(error) => faults(alloc, name, text, error, style),
        Unfit::Misfits(misfits) => misfit_lines(alloc, name, text, misfits),
        Unfit::Memory => Err(AllocError),
    }
}

/// Returns a line for each node that is no setting.
fn misfit_lines(
    alloc: Global,
    name: &str,
    text: &str,
    misfits: &[Misfit],
) -> Result<String, AllocError>
    ensures { IfOk result (λ out. string_bytes out
        ≡ flat_map (misfit_line (shown_bytes (shown_name name.now)) (chars text.now)) misfits.now) }
{
    let mut out = String::new(alloc);
    let lines = Lines::new(alloc, text)?;
    push_misfits(
        &mut out,
        &shown_text(alloc, shown_name(name))?,
        &lines,
        misfits,
    )?;
    Ok(out)
}

/// Appends a line for each node that is no setting.
fn push_misfits(
    out: &mut String,
    name: &str,
    lines: &Lines<'_>,
    misfits: &[Misfit],
) -> Result<(), AllocError>
    ensures { OnOk result (string_bytes out.new
        ≡ string_bytes out.old ++ flat_map (misfit_line name.now lines.now) misfits.now) }
{
    for misfit in misfits {
        push_misfit(out, name, lines, misfit)?;
    }
    Ok(())
}

/// Appends the line on a node that is no setting.
fn push_misfit(
    out: &mut String,
    name: &str,
    lines: &Lines<'_>,
    misfit: &Misfit,
) -> Result<(), AllocError>
    ensures { OnOk result (string_bytes out.new ≡ string_bytes out.old ++ misfit_line name.now lines.now misfit.now) }
{
    let place = lines.place(misfit.span.offset);
    let mut line = Buffer::new();
    let mut column = Buffer::new();
    out.push_str(name)?;
    out.push_str(":")?;
    out.push_str(line.format(place.line))?;
    out.push_str(":")?;
    out.push_str(column.format(place.column))?;
    out.push_str(": error: ")?;
    out.push_str(misfit.why.text())?;
    out.push_str("\n")
}
