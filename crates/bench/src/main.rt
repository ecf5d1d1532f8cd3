//! Measures how fast documents are parsed, dropped, printed, formatted, copied, searched and queried, and how much
//! memory they take.
//!
//! Without arguments it generates texts of six kinds and writes two tables to standard output: the speeds on 1 MB of
//! each, and on longer and longer ones. With file names as arguments it writes the first table for these files. `write
//! KIND BYTES` writes such a text; `cat FILE` parses, prints and drops a document; `check BYTES` makes each call on a
//! text of each kind, and writes the results without times, and then does what `refused` does.
//!
//! `refused` makes each call that allocates on two short texts, and writes the results. `items` creates what the calls
//! that do not allocate are made on. `calls` also makes these calls. `checks/refused` runs the three.
#![tactic(auto)]

mod calls;
mod free;
mod measure;
mod memory;
mod parts;
mod refused;
mod table;
mod texts;

use kdl::KdlDocument;
use measure::{CALLS, least_time, parsed};
use memory::bytes_to_parse;
use std::io::ErrorKind;
use std::{env, fs, io};
use texts::KINDS;

/// Writes a text of the kind of this name.
fn write(rt: &HostRuntime, name: &str, bytes: usize) -> io::Result<()> {
    for kind in &KINDS {
        if kind.name == name {
            return rt.print(kind.text(rt.alloc(), bytes)?);
        }
    }
    Err(io::Error::from(ErrorKind::InvalidInput))
}

/// Parses the text of a file, prints the document, and drops it.
fn cat(rt: &HostRuntime, name: &str) -> io::Result<()> {
    let text = fs::read_to_string(rt, name)?;
    match parsed(rt, &text)? {
        Some(document) => rt.print(document.to_string(rt.alloc())?),
        None => Err(io::Error::from(ErrorKind::InvalidInput)),
    }
}

/// Makes each call on a text of each kind, and then each call that allocates on two short texts.
fn check(rt: &HostRuntime, bytes: usize) -> io::Result<()> {
    for kind in &KINDS {
        check_text(rt, kind.name, &kind.text(rt.alloc(), bytes)?)?;
    }
    refused::take_some(rt)
}

/// Makes each call on the text, and writes the results.
fn check_text(rt: &HostRuntime, name: &str, text: &str) -> io::Result<()> {
    for (_, call) in &CALLS {
        least_time(rt, *call, text, 1)?;
    }
    match parsed(rt, text)? {
        Some(document) => tell(rt, name, text, &document),
        None => Ok(()),
    }
}

/// Writes whether the document of the text prints it, and whether its copy equals it.
fn tell(rt: &HostRuntime, name: &str, text: &str, document: &KdlDocument) -> io::Result<()> {
    let is_printed = document.to_string(rt.alloc())?.as_str() == text;
    let is_copied = document.clone()? == *document;
    println!(rt; "{name}: printed back {is_printed}, copied {is_copied}")
}

/// Writes both tables, for generated texts.
fn tables(rt: &HostRuntime) -> io::Result<()> {
    let mut memory = Vec::new(rt.alloc());
    for kind in &KINDS {
        memory.push(bytes_to_parse(rt, &kind.text(rt.alloc(), 1_000_000)?)?)?;
    }
    table::head(rt)?;
    for (kind, memory) in KINDS.iter().zip(&memory) {
        table::row(rt, kind.name, &kind.text(rt.alloc(), 1_000_000)?, *memory)?;
    }
    table::growth(rt)
}

/// Writes the first table, for these files.
fn table_of(rt: &HostRuntime, names: &[&str]) -> io::Result<()> {
    let mut memory = Vec::new(rt.alloc());
    for name in names {
        memory.push(bytes_to_parse(rt, &fs::read_to_string(rt, *name)?)?)?;
    }
    table::head(rt)?;
    for (name, memory) in names.iter().zip(&memory) {
        table::row(rt, name, &fs::read_to_string(rt, *name)?, *memory)?;
    }
    Ok(())
}

/// Runs the command. An argument that is not a number counts as 0 bytes.
fn perform(rt: &HostRuntime, words: &[&str]) -> io::Result<()> {
    match words {
        ["write", name, bytes] => write(rt, name, bytes.parse().unwrap_or(0)),
        ["cat", name] => cat(rt, name),
        ["check", bytes] => check(rt, bytes.parse().unwrap_or(0)),
        ["refused"] => refused::take_some(rt),
        ["calls"] => refused::take_none(rt, true),
        ["items"] => refused::take_none(rt, false),
        [] => tables(rt),
        names => table_of(rt, names),
    }
}

fn main(rt: HostRuntime) -> io::Result<()> {
    let words: Vec<String> = env::args(&rt)?.skip(1).collect(rt.alloc())?;
    let words: Vec<&str> = words.iter().map(|word| word.as_str()).collect(rt.alloc())?;
    perform(&rt, &words)
}
