//! The files, the output and standard error of a process.

ghost use Rattle.cli_world.specs.Seen.{problem};
ghost use Rattle.kdl_report.specs.Shown.{shown_bytes};
ghost use Rattle.std.specs.Prelude.{◌++◌, List, codes, flat_map, ℕ};
ghost use Rattle.watched.specs.Streams.{Gets, stream};
ghost use Rattle.watched.specs.Writing.{Writes};

use crate::status::Status;
use crate::store::Store;
use crate::world::{OUTPUT, Unread, World, shown_name};
use kdl_report::{is_shown_as_is, shown_char};
use std::alloc::Global;
use std::io;
use std::io::{ErrorKind, Write};
use watched::Watched;

/// Files, and the writers of the output and of standard error.
#[derive(Drop)]
pub struct Process<S, O, E> {
    pub files: S,
    pub out: Watched<O>,
    pub err: Watched<E>,
}

impl<S: Store, O: Write, E: Write> World for Process<S, O, E> {
    ghost seen = { λ p. record {
      files = S.known p.files;
      may_fail = S.may_fail p.files;
      out = stream O.contents p.out;
      err = stream E.contents p.err;
    } };

    fn text(&mut self, alloc: Global, name: &str) -> Result<String, Unread> {
        match self.files.read(alloc, name) {
            Ok(bytes) => match String::from_utf8(bytes) {
                Ok(text) => Ok(text),
                Err(error) => Err(Unread::NotUtf8(error.into_bytes())),
            },
            Err(error) => {
                report_error(alloc, &mut self.err, name, &error);
                Err(Unread::Lost)
            }
        }
    }

    fn print(&mut self, alloc: Global, text: &str) -> Result<(), Status> {
        match self.out.write_whole(text.as_bytes()) {
            Ok(()) => Ok(()),
            Err(error) if error.kind() == ErrorKind::BrokenPipe => Ok(()),
            Err(error) => {
                report_error(alloc, &mut self.err, OUTPUT, &error);
                Err(Status::Failed)
            }
        }
    }

    fn replace(&mut self, alloc: Global, name: &str, text: &str) -> Result<(), Status> {
        match self.files.replace(name, text) {
            Ok(()) => Ok(()),
            Err(error) => {
                report_error(alloc, &mut self.err, name, &error);
                Err(Status::Failed)
            }
        }
    }

    fn report(&mut self, text: &str) {
        let _ = self.err.write_whole(text.as_bytes());
    }

    fn report_problem(&mut self, name: &str, what: &str) {
        write_problem(&mut self.err, name, what);
    }

    fn report_complaint(&mut self, why: &str) {
        let pieces = [b"kdl: ", why.as_bytes(), b"\n"];
        write_line(&mut self.err, &pieces);
    }
}

/// Writes a line of these pieces, as far as that succeeds.
fn write_line<E: Write>(err: &mut Watched<E>, pieces: &[&[u8]])
    ensures { Gets (flat_map (λ p. p.now) pieces.now) (stream E.contents err.old) (stream E.contents err.new) }
{
    let _ = err.write_line(pieces);
}

/// Writes what is wrong with a file, on a line.
fn write_problem<E: Write>(err: &mut Watched<E>, name: &str, what: &str)
    ensures { Gets (problem name.now what.now) (stream E.contents err.old) (stream E.contents err.new) }
{
    let name = shown_name(name);
    if is_shown_as_is(name) {
        let pieces = [b"kdl: ", name.as_bytes(), b": ", what.as_bytes(), b"\n"];
        return write_line(err, &pieces);
    }
    let _ = write_strange(err, name, what);
}

/// Writes what is wrong with a file whose name has characters that are not shown as they are.
fn write_strange<E: Write>(err: &mut Watched<E>, name: &str, what: &str) -> io::Result<()>
    ensures { Writes E.contents err.old err.new
        (codes "kdl: " ++ shown_bytes name.now ++ codes ": " ++ what.now ++ codes "\n") result }
{
    err.write_whole(b"kdl: ")?;
    write_shown(err, name)?;
    err.write_line(&[b": ", what.as_bytes(), b"\n"])
}

/// Writes what is shown for a name.
fn write_shown<E: Write>(err: &mut Watched<E>, name: &str) -> io::Result<()>
    ensures { Writes E.contents err.old err.new (shown_bytes name.now) result }
{
    for c in name.chars() {
        err.write_whole(shown_char(c, &mut [0; 4]).as_bytes())?;
    }
    Ok(())
}

/// Writes why a call on a file failed.
fn report_error<E: Write>(alloc: Global, err: &mut Watched<E>, name: &str, error: &io::Error)
    ensures { (why : List ℕ) × Gets (problem name.now why) (stream E.contents err.old) (stream E.contents err.new) }
{
    match format!(in alloc; "{error}") {
        Ok(why) => write_problem(err, name, &why),
        Err(_) => write_problem(err, name, "out of memory"),
    }
}
