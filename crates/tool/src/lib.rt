//! The tool itself, over any reader and any writer.
#![tactic(auto)]

ghost use Rattle.std.specs.Prelude.{◌≡◌, ◌↔◌, ◌||◌, ◌++◌, true, IfOk, MatchOption, OnOk, ◌≤◌, chars, length, map, take, decimal, encode_utf8_all, option_map, string_bytes, IsOk};
ghost use Rattle.kdl_text.specs.Failures.{IsSyntax, TellsOnSyntax};
ghost use Rattle.kdl.specs.Said.{said_arg};
ghost use Rattle.kdl.specs.Tree.{document_prints, document_says};
ghost use Rattle.tool.specs.Commands.{AreOther, asked_by, value_line, words_of};
ghost use Rattle.tool.specs.Runs.{IsUsage, IsInput, Output, Ran, WritesNothing, Flagged, Answered, AreNoDocument, IsDone, is_read_failed, is_write_failed, is_unread_failed};
ghost use Rattle.tool.specs.Reports.{status_of, report_of, line, diagnostic_line, lines_of};
ghost use Rattle.watched.specs.Flags.{StopsAtFailure};
ghost use Rattle.watched.specs.Writing.{Writes};

use kdl::{KdlDiagnostic, KdlDocument, KdlError, ParseFailure};
use std::alloc::{AllocError, Global};
use std::fmt::Write as _;
use std::io::{Read, Write};
use std::{io, mem};
pub use watched::Watched;

/// The number of bytes requested at a time.
const READ_SIZE: usize = 65_536;

/// The number of bytes that the input has room for at first. The C library gives a list of this size pages of its own,
/// and grows it without a copy.
const INPUT_SIZE: usize = 262_144;

/// The greatest number of decimal digits of a `usize`.
const MOST_DIGITS: usize = 20;

/// The outcome of a run.
#[derive(Debug, Drop)]
pub enum Outcome {
    /// The whole output is written.
    Done,
    /// The input is not a KDL document.
    Refused(KdlError),
    /// The input is not UTF-8.
    NotUtf8,
    /// The document has no such value.
    NoValue,
    /// The arguments are not a command of the tool.
    Usage,
    /// A `read` failed.
    ReadFailed,
    /// A `write` failed, or wrote no byte.
    WriteFailed,
    /// A request for memory was refused.
    Memory,
}

/// A command of the tool.
#[derive(Clone, Copy)]
enum Command<'a> {
    /// The document as it is.
    Cat,
    /// The document laid out, with its comments.
    Fmt,
    /// The document laid out, without comments.
    Strip,
    /// The value of the first argument of the first node of this name.
    Get(&'a str),
}

/// Why the input was not read to its end.
#[derive(Drop)]
enum Unread {
    Failed,
    Memory,
}

/// Runs the tool with these arguments:
///
/// - `cat` writes the document that it reads as it is;
/// - `fmt` formats it, in one layout for all documents: comments and slashdashed pieces are kept where
///   `KdlDocument::autoformat` keeps them; the spellings of names and values are removed;
/// - `strip` formats it without comments and slashdashed pieces;
/// - `get NAME` writes the value of the first argument of the first node of that name, as values
///   print, and a newline. `NoValue` if there is no such node, or if it has no argument, whatever later nodes have.
///
/// For any other arguments returns `Usage`, and nothing is read.
///
/// The whole input is read and parsed before the first byte is written. The first error of a `read` or a `write` ends
/// the run, even an interrupted one, and so does a `write` that writes no byte: no call comes after it. Nothing is
/// flushed: the owner of a buffered writer has to do that.
pub fn run<R: Read, W: Write>(
    alloc: Global,
    words: &[String],
    reader: &mut Watched<R>,
    writer: &mut Watched<W>,
) -> Outcome
    ensures usage { IsUsage result ↔ AreOther (map string_bytes words.now) }
    ensures unread { IsUsage result → reader.new ≡ reader.old }
    ensures unwritten { WritesNothing result → writer.new ≡ writer.old }
    ensures ran { Ran result (map string_bytes words.now) (R.remaining reader.old.inner) (R.remaining reader.new.inner)
        (W.contents writer.old.inner) (W.contents writer.new.inner) }
    ensures flags { Flagged result reader.new.failed reader.new.ended writer.new.failed }
    ensures read_failed { reader.new.failed ≡ (is_read_failed result || reader.old.failed) }
    ensures write_failed { writer.new.failed ≡ (is_write_failed result || writer.old.failed) }
    ensures stops_reading { StopsAtFailure reader.old reader.new }
    ensures stops_writing { StopsAtFailure writer.old writer.new }
{
    let Some(command) = command_of(words) else {
        return Outcome::Usage;
    };
    match read_whole(alloc, reader) {
        Ok(input) => answer(alloc, command, &input, writer),
        Err(Unread::Failed) => Outcome::ReadFailed,
        Err(Unread::Memory) => Outcome::Memory,
    }
}

/// The command, if the arguments are one.
fn command_of(words: &[String]) -> Option<Command<'_>>
    ensures { MatchOption result (AreOther (map string_bytes words.now))
        (λ c. map string_bytes words.now ≡ words_of (asked_by c)) }
{
    match words {
        [word] => {
            if word.as_str() == "cat" {
                Some(Command::Cat)
            } else if word.as_str() == "fmt" {
                Some(Command::Fmt)
            } else if word.as_str() == "strip" {
                Some(Command::Strip)
            } else {
                None
            }
        }
        [word, name] => {
            if word.as_str() == "get" {
                Some(Command::Get(name.as_str()))
            } else {
                None
            }
        }
        _ => None,
    }
}

/// Reads everything that the reader has left, up to the first read that returns no byte.
fn read_whole<R: Read>(alloc: Global, reader: &mut Watched<R>) -> Result<Vec<u8>, Unread>
    ensures whole { IfOk result
        (λ input. IsInput (R.remaining reader.old.inner)
        (R.remaining reader.new.inner) input.items) }
    ensures ended { OnOk result (reader.new.ended ≡ true) }
    ensures failed { reader.new.failed ≡ (is_unread_failed result || reader.old.failed) }
    ensures stops { StopsAtFailure reader.old reader.new }
{
    let Ok(mut input) = Vec::with_capacity(alloc, INPUT_SIZE) else {
        return Err(Unread::Memory);
    };
    let mut buffer = [0u8; READ_SIZE];
    loop {
        match reader.read(&mut buffer) {
            Ok(0) => return Ok(input),
            Ok(n) => {
                if input.extend_from_slice(&buffer[..n]).is_err() {
                    return Err(Unread::Memory);
                }
            }
            Err(_) => return Err(Unread::Failed),
        }
    }
}

/// Parses the input, and writes the output of the command.
fn answer<W: Write>(
    alloc: Global,
    command: Command<'_>,
    input: &[u8],
    writer: &mut Watched<W>,
) -> Outcome
    ensures unwritten { WritesNothing result → writer.new ≡ writer.old }
    ensures answered { Answered result (words_of (asked_by command.entry)) input.now
        (W.contents writer.old.inner) (W.contents writer.new.inner) }
    ensures flags { Flagged result true true writer.new.failed }
    ensures write_failed { writer.new.failed ≡ (is_write_failed result || writer.old.failed) }
    ensures stops { StopsAtFailure writer.old writer.new }
{
    let Ok(text) = str::from_utf8(input) else {
        return Outcome::NotUtf8;
    };
    match output(alloc, command, text) {
        Ok(Some(output)) => match writer.write_whole(output.as_bytes()) {
            Ok(()) => Outcome::Done,
            Err(_) => Outcome::WriteFailed,
        },
        Ok(None) => Outcome::NoValue,
        Err(ParseFailure::Syntax(error)) => Outcome::Refused(error),
        Err(ParseFailure::Memory) => Outcome::Memory,
    }
}

/// The output of the command for a text, or `None` if it lacks the requested value.
fn output(alloc: Global, command: Command<'_>, text: &str) -> Result<Option<String>, ParseFailure>
    ensures output { IfOk result
        (λ o. Output (words_of (asked_by command.entry)) text.now (option_map string_bytes o)) }
    ensures refused { IsSyntax result → AreNoDocument text.now }
    ensures told { TellsOnSyntax text.now result }
{
    let mut document = KdlDocument::parse(alloc, text)?;
    match command {
        Command::Cat => {
            let out = String::with_capacity(alloc, text.len())?;
            Ok(Some(printed(out, document)?))
        }
        // The output has its room before the layout frees texts: a large request goes through all that is free.
        Command::Fmt => {
            let out = String::with_capacity(alloc, text.len())?;
            document.autoformat()?;
            Ok(Some(printed(out, document)?))
        }
        Command::Strip => {
            let out = String::with_capacity(alloc, text.len())?;
            document.autoformat_no_comments()?;
            Ok(Some(printed(out, document)?))
        }
        Command::Get(name) => Ok(value_line(alloc, &document, name)?),
    }
}

/// Returns the text `out` with the text of the document appended. The end of the process frees the document, which is
/// faster.
fn printed(mut out: String, document: KdlDocument) -> Result<String, AllocError>
    ensures { IfOk result (λ s. string_bytes s
        ≡ string_bytes out ++ encode_utf8_all (document_prints document)) }
{
    if write!(out, "{document}").is_err() {
        return Err(AllocError);
    }
    mem::forget(document);
    Ok(out)
}

/// The value of the first argument of the first node of that name, on a line.
fn value_line(
    alloc: Global,
    document: &KdlDocument,
    name: &str,
) -> Result<Option<String>, AllocError>
    ensures { IfOk result (λ o. option_map string_bytes o
        ≡ value_line (said_arg (chars name.now) (document_says document.now))) }
{
    let Some(value) = document.get_arg(name) else {
        return Ok(None);
    };
    let mut line = value.to_string(alloc)?;
    line.push('\n')?;
    Ok(Some(line))
}

/// Writes the decimal digits of the number to the front of the buffer, and returns how many there are.
fn put_decimal(number: usize, buffer: &mut [u8]) -> usize
    requires { length (decimal number) ≤ length buffer.old }
    ensures count { result ≡ length (decimal number) }
    ensures digits { take result buffer.new ≡ decimal number }
{
    if number < 10 {
        buffer[0] = b'0' + number as u8;
        return 1;
    }
    let count = put_decimal(number / 10, buffer);
    buffer[count] = b'0' + (number % 10) as u8;
    count + 1
}

impl Outcome {
    /// Returns the exit status: 0 on success, 1 if the input is refused, 2 for arguments that are not a command, and 3
    /// if a read, a write or an allocation failed.
    pub fn status(&self) -> u8
        ensures { result ≡ status_of self.now }
    {
        match self {
            Outcome::Done => 0,
            Outcome::Refused(_) | Outcome::NotUtf8 | Outcome::NoValue => 1,
            Outcome::Usage => 2,
            Outcome::ReadFailed | Outcome::WriteFailed | Outcome::Memory => 3,
        }
    }

    /// Writes a line for each fault. Stops at the first write that fails, even an interrupted one, and at the first that
    /// writes no byte, and returns an error then.
    ///
    /// A line of a refused input is `offset..end message`, in bytes of the input. Each line of up to 512 bytes is given to
    /// one `write`.
    pub fn report<W: Write>(&self, writer: &mut Watched<W>) -> io::Result<()>
        ensures written { Writes W.contents writer.old writer.new (report_of self.now) result }
        ensures done { IsDone self.now → (IsOk result × writer.new ≡ writer.old) }
    {
        match self {
            Outcome::Done => Ok(()),
            Outcome::Refused(error) => report_error(error, writer),
            Outcome::NotUtf8 => report_line("0..0 Input is not UTF-8", writer),
            Outcome::NoValue => report_line("0..0 No such value", writer),
            Outcome::Usage => report_line("usage: kdl-tool cat, fmt, strip or get NAME", writer),
            Outcome::ReadFailed => report_line("reading failed", writer),
            Outcome::WriteFailed => report_line("writing failed", writer),
            Outcome::Memory => report_line("out of memory", writer),
        }
    }
}

/// Writes a line.
fn report_line<W: Write>(text: &str, writer: &mut Watched<W>) -> io::Result<()>
    ensures { Writes W.contents writer.old writer.new (line text.now) result }
{
    writer.write_line(&[text.as_bytes(), b"\n"])
}

/// Writes a line for each diagnostic.
fn report_error<W: Write>(error: &KdlError, writer: &mut Watched<W>) -> io::Result<()>
    ensures { Writes W.contents writer.old writer.new (lines_of error.now) result }
{
    for diagnostic in &error.diagnostics {
        report_diagnostic(diagnostic, writer)?;
    }
    Ok(())
}

/// Writes the line of a diagnostic.
fn report_diagnostic<W: Write>(
    diagnostic: &KdlDiagnostic,
    writer: &mut Watched<W>,
) -> io::Result<()>
    ensures { Writes W.contents writer.old writer.new (diagnostic_line diagnostic.now) result }
{
    let start = diagnostic.span.offset;
    let end = start.saturating_add(diagnostic.span.len);
    let message = match &diagnostic.message {
        Some(message) => message.as_str(),
        None => "Unexpected error",
    };
    let mut starts = [0u8; MOST_DIGITS];
    let starts_len = put_decimal(start, &mut starts);
    let mut ends = [0u8; MOST_DIGITS];
    let ends_len = put_decimal(end, &mut ends);
    let pieces: [&[u8]; 6] = [
        &starts[..starts_len],
        b"..",
        &ends[..ends_len],
        b" ",
        message.as_bytes(),
        b"\n",
    ];
    writer.write_line(&pieces)
}
