//! Files that are formatted.

ghost use Rattle.cli.specs.Formats.{Formats, FormatsFile, FormatsFiles, IsChange, IsDelivery, IsNoChange, ShowsLines, name_line};
ghost use Rattle.cli_world.specs.Acts.{Does};
ghost use Rattle.cli_world.specs.Acts.Effect.{prints};
ghost use Rattle.cli_world.specs.Tallies.{plain};
ghost use Rattle.std.specs.Prelude.{◌≡◌, IfOk, map, string_bytes};

use crate::disposal::Disposal;
use crate::fmt::formatted;
use crate::report::{Style, report_faults, report_not_utf8};
use crate::settings::Settings;
use cli_world::effects;
use cli_world::status::Status;
use cli_world::tally::Tally;
use cli_world::world::{Unread, World, shown_name};
use kdl::ParseFailure;
use kdl_report::{shown_text, unified};
use std::alloc::{AllocError, Global};

/// What becomes of the formatted text of a file.
#[derive(Clone, Copy)]
pub enum Mode {
    /// It is written to the output.
    Print,
    /// The name of the file is written to the output if the text differs.
    Check,
    /// The lines that differ are written to the output.
    Diff,
    /// The file is replaced if the text differs.
    Replace,
}

/// How files are formatted.
#[derive(Clone, Copy)]
pub struct Job {
    pub settings: Settings,
    pub mode: Mode,
    pub style: Style,
}

/// Formats each of the files, in this order, and returns the worst of their statuses.
pub fn format_files<W: World>(alloc: Global, world: &mut W, job: &Job, names: &[&str]) -> Status
    ensures { FormatsFiles job.now (map (λ n. n.now) names.now) (W.seen world.old) (W.seen world.new) result }
{
    let disposal = Disposal::of_files(names.len());
    let mut status = Status::Done;
    for name in names {
        let tally = format_file(alloc, world, job, name, disposal);
        status = status.worst(tally.status);
    }
    status
}

/// Formats a file, and disposes of its document.
pub fn format_file<W: World>(
    alloc: Global,
    world: &mut W,
    job: &Job,
    name: &str,
    disposal: Disposal,
) -> Tally
    ensures { FormatsFile job.now name.now (W.seen world.old) (W.seen world.new) result }
{
    match world.text(alloc, name) {
        Ok(text) => format_text(alloc, world, job, name, &text, disposal),
        Err(Unread::NotUtf8(bytes)) => report_not_utf8(alloc, world, name, &bytes, job.style),
        Err(Unread::Lost) => Tally::plain(Status::Failed),
    }
}

/// Formats the text of a file, and disposes of its document.
fn format_text<W: World>(
    alloc: Global,
    world: &mut W,
    job: &Job,
    name: &str,
    text: &str,
    disposal: Disposal,
) -> Tally
    ensures { Does (Formats job.now name.now text.now) name.now (W.seen world.old) (W.seen world.new) result }
{
    match formatted(alloc, text, &job.settings, disposal) {
        Ok(new) => deliver(alloc, world, job.mode, name, text, &new),
        Err(ParseFailure::Syntax(error)) => {
            report_faults(alloc, world, name, text, &error, job.style)
        }
        Err(ParseFailure::Memory) => effects::report_memory(world, name),
    }
}

/// Does with the formatted text of a file what the mode says.
fn deliver<W: World>(
    alloc: Global,
    world: &mut W,
    mode: Mode,
    name: &str,
    old: &str,
    new: &str,
) -> Tally
    ensures { Does (IsDelivery mode name.now old.now new.now) name.now (W.seen world.old) (W.seen world.new) result }
{
    if old == new {
        keep(alloc, world, mode, name, new)
    } else {
        change(alloc, world, mode, name, old, new)
    }
}

/// Does with a text that formatting leaves as it is what the mode says.
fn keep<W: World>(alloc: Global, world: &mut W, mode: Mode, name: &str, text: &str) -> Tally
    ensures { Does (IsNoChange mode text.now) name.now (W.seen world.old) (W.seen world.new) result }
{
    match mode {
        Mode::Print => effects::print(alloc, world, name, text, Tally::plain(Status::Done)),
        Mode::Check | Mode::Diff | Mode::Replace => Tally::plain(Status::Done),
    }
}

/// Does with a text that formatting changes what the mode says.
fn change<W: World>(
    alloc: Global,
    world: &mut W,
    mode: Mode,
    name: &str,
    old: &str,
    new: &str,
) -> Tally
    ensures { Does (IsChange mode name.now old.now new.now) name.now (W.seen world.old) (W.seen world.new) result }
{
    match mode {
        Mode::Print => effects::print(alloc, world, name, new, Tally::plain(Status::Done)),
        Mode::Check => show_name(alloc, world, name),
        Mode::Diff => show_lines(alloc, world, name, old, new),
        Mode::Replace => effects::replace(alloc, world, name, new),
    }
}

/// Prints the name of a file, on a line. Returns `Found`.
fn show_name<W: World>(alloc: Global, world: &mut W, name: &str) -> Tally
    ensures { Does (λ e. e ≡ prints (name_line name.now) (plain Status.Found)) name.now
        (W.seen world.old) (W.seen world.new) result }
{
    match name_line(alloc, name) {
        Ok(line) => effects::print(alloc, world, name, &line, Tally::plain(Status::Found)),
        Err(AllocError) => effects::report_memory(world, name),
    }
}

/// Returns the name of a file, on a line.
fn name_line(alloc: Global, name: &str) -> Result<String, AllocError>
    ensures { IfOk result (λ line. string_bytes line ≡ name_line name.now) }
{
    let mut line = shown_text(alloc, shown_name(name))?;
    line.push('\n')?;
    Ok(line)
}

/// Prints the lines that differ between the texts. Returns `Found`.
fn show_lines<W: World>(alloc: Global, world: &mut W, name: &str, old: &str, new: &str) -> Tally
    ensures { Does (ShowsLines name.now old.now new.now) name.now (W.seen world.old) (W.seen world.new) result }
{
    match unified(alloc, shown_name(name), old, new) {
        Ok(lines) => effects::print(alloc, world, name, &lines, Tally::plain(Status::Found)),
        Err(AllocError) => effects::report_memory(world, name),
    }
}
