//! Small programs over the library, as words of one program, on files.
//!
//! `use_files WORD FILE.. [-- WORD FILE..]..` performs each command in turn. The words are:
//!
//! - `set NAME NUMBER FILE` writes the document of the file to standard output with the number as the first argument of
//!   the first node of that name, and otherwise byte for byte.
//! - `fmt FILE..` formats KDL files, with their comments and groups, and writes them one after another.
//! - `settings FILE..` loads settings from each file, and prints them or what is wrong with them.
//! - `find QUERY FILE..` prints the line, the column and the name of each node that the query selects.
//! - `schema FILE..` checks each document against the rules of a garden, and prints each breach with its bytes.
//!
//! Another word is reported on standard error, with what to give. The exit code is `SUCCESS` if every command succeeds,
//! and else `FAILURE`.
#![tactic(auto)]

mod faults;
mod find;
mod garden;
mod layout;
mod schema;
mod set;
mod settings;
mod show;

use std::process::ExitCode;
use std::{env, fs, io};

/// Reads each file, calls `show` with its name and its text, and returns whether all calls returned true.
fn each<F: FnMut(&str, &str) -> io::Result<bool>>(
    rt: &HostRuntime,
    files: &[&str],
    mut show: F,
) -> io::Result<bool>
    requires { F.IsAlwaysCallable show }
{
    let mut is_done = true;
    for file in files {
        let text = fs::read_to_string(rt, *file)?;
        if !show(file, &text)? {
            is_done = false;
        }
    }
    Ok(is_done)
}

/// Performs the command, and returns whether it succeeded.
fn perform(rt: &HostRuntime, words: &[&str]) -> io::Result<bool> {
    match words {
        ["set", name, number, file] => each(rt, &[*file], |file, text| {
            set::show(rt, file, text, name, number)
        }),
        ["fmt", files @ ..] => each(rt, files, |file, text| layout::show(rt, file, text)),
        ["settings", files @ ..] => each(rt, files, |file, text| show::show(rt, file, text)),
        ["find", query, files @ ..] => each(rt, files, |file, text| {
            find::show(rt, file, text, query)
        }),
        ["schema", files @ ..] => each(rt, files, |file, text| garden::show(rt, file, text)),
        _ => {
            let words =
                "set NAME NUMBER FILE, fmt FILE.., settings FILE.., find QUERY FILE.. or schema FILE..";
            eprintln!(rt; "use_files: give {words}")?;
            Ok(false)
        }
    }
}

fn main(rt: HostRuntime) -> io::Result<ExitCode> {
    let words: Vec<String> = env::args(&rt)?.skip(1).collect(rt.alloc())?;
    let words: Vec<&str> = words.iter().map(|word| word.as_str()).collect(rt.alloc())?;
    let mut code = ExitCode::SUCCESS;
    for command in words.split(|word| *word == "--") {
        if !perform(&rt, command)? {
            code = ExitCode::FAILURE;
        }
    }
    Ok(code)
}
