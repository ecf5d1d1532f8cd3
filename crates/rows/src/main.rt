//! Runs files of rows: what texts are read as, what they print, and which are refused.
//!
//! Its arguments name the files. In the files after the argument `wrong` each row has to fail. Each row that fails is
//! written to standard output, with what was expected and what was found, and at the end the number of rows and of
//! failures. `README.md` of this crate describes the format of the files.
#![tactic(auto)]

mod answer;
mod checks;
mod dump;
mod fault;
mod file;
mod fronts;
mod item;
mod layout;
mod line;
mod members;
mod notation;
mod places;
mod query;
mod row;

use file::{Counts, run_file};
use std::process::ExitCode;
use std::{env, io};

fn main(rt: HostRuntime) -> io::Result<ExitCode> {
    let mut counts = Counts { rows: 0, failed: 0 };
    let mut wrong = Counts { rows: 0, failed: 0 };
    let mut is_wrong = false;
    for word in env::args(&rt)?.skip(1) {
        if word.as_str() == "wrong" {
            is_wrong = true;
        } else if is_wrong {
            run_file(&rt, &word, true, &mut wrong)?;
        } else {
            run_file(&rt, &word, false, &mut counts)?;
        }
    }
    println!(rt; "{} wrong rows, {} failed", wrong.rows, wrong.failed)?;
    println!(rt; "{} rows, {} failed", counts.rows, counts.failed)?;
    let is_passed = counts.failed == 0 && wrong.failed == wrong.rows;
    Ok(if is_passed {
        ExitCode::SUCCESS
    } else {
        ExitCode::FAILURE
    })
}
