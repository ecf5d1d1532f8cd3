//! `kdl-tool`: reads a KDL document from standard input, and writes it to standard output, as it is or formatted, with
//! or without its comments, or writes one of its values.
#![tactic(auto)]

use std::alloc::Global;
use std::io::ErrorKind;
use std::process::ExitCode;
use std::{env, io};
use tool::{Outcome, Watched, run};

/// Runs the tool with the arguments, standard input and standard output, and writes to standard error why it stopped.
fn main(rt: HostRuntime) -> ExitCode {
    let outcome = match arguments(&rt) {
        Ok(words) => {
            let mut reader = Watched::new(rt.stdin());
            let mut writer = Watched::new(rt.stdout());
            run(rt.alloc(), &words, &mut reader, &mut writer)
        }
        // An argument that is not UTF-8 is not part of a command.
        Err(error) if error.kind() == ErrorKind::InvalidData => Outcome::Usage,
        Err(_) => Outcome::Memory,
    };
    let _ = outcome.report(&mut Watched::new(rt.stderr()));
    ExitCode::from(outcome.status())
}

/// The arguments without the program's name.
fn arguments(rt: &HostRuntime) -> io::Result<Vec<String>> {
    let words = env::args(rt)?.skip(1).collect(rt.alloc())?;
    Ok(words)
}
