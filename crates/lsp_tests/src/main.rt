//! A session with the language server.
//!
//! `lsp_tests` sends the messages of the session one by one, and then messages that come at once, and writes how many
//! exchanges failed, what the server sends for those that come at once, the text of a document after messages about it, and
//! how many requests about lines of one character have a result.
//!
//! `lsp_tests refused` sends a message again if the exchange failed, and so prints the same if any one allocation fails
//! (`checks/refused`).
#![tactic(auto)]

mod exchange;
pub mod laws;
mod lines;
mod session;
mod told;

use exchange::EXCHANGES;
use lsp::State;
use std::alloc::Global;
use std::process::ExitCode;
use std::{env, io};

/// Makes the exchanges of a session, and returns how many failed and were made again.
fn exchange_all(rt: &HostRuntime, alloc: Global) -> io::Result<u64> {
    let mut state = State::new(alloc);
    let mut failed = 0u64;
    for exchange in &EXCHANGES {
        if !exchange.is_made(alloc, &mut state) {
            failed = failed.saturating_add(1);
            let is_made = exchange.is_made_again(alloc, &mut state);
            println!(rt;
                "{}: {}",
                exchange.name,
                if is_made { "done" } else { "failed" }
            )?;
        } else {
            println!(rt; "{}: done", exchange.name)?;
        }
    }
    Ok(failed)
}

fn main(rt: HostRuntime) -> io::Result<ExitCode> {
    let word = env::args(&rt)?.nth(1);
    let failed = exchange_all(&rt, rt.alloc())?;
    if matches!(&word, Some(word) if word.as_str() == "refused") {
        return Ok(ExitCode::SUCCESS);
    }
    println!(rt; "{failed} exchanges failed")?;
    session::take_at_once(&rt, rt.alloc())?;
    told::write_text(&rt, rt.alloc())?;
    lines::write_count(&rt, rt.alloc())?;
    Ok(ExitCode::SUCCESS)
}
