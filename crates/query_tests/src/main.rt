//! Compares queries with a plain reading of what they mean, on random documents.
//!
//! `query_tests COUNT SEED` makes COUNT pairs of a document and a query, as trees of its own. It writes both as texts,
//! reads these by the library, and compares what the query finds with the relation of queries, tried on each path of
//! the tree. It writes the first pairs that differ, and how many pairs do. The exit code is `FAILURE` if one differs, or
//! if fewer than a third of the queries select a node, as they would then show little. What each query prints must be
//! read as an equal query.
//!
//! `query_tests refused` makes each call that allocates, and writes the results (`checks/refused`).
#![tactic(auto)]

mod ask;
mod data;
mod dice;
mod numbers;
mod pair;
mod refused;
mod relation;
mod spell;

use pair::{Outcome, Pair};
use std::process::ExitCode;
use std::{env, io};

/// How many pairs were tried, how many queries select a node, and how many pairs differ.
#[derive(Clone, Copy)]
struct Counts {
    pairs: u64,
    found: u64,
    differ: u64,
}

impl Counts {
    /// Tries the pair of that seed, and reports it if it is one of the first that differ.
    fn add(&mut self, rt: &HostRuntime, seed: u64) -> io::Result<()> {
        let pair = Pair::new(rt.alloc(), seed)?;
        self.pairs = self.pairs.saturating_add(1);
        match pair.outcome(rt.alloc())? {
            Outcome::Agrees(0) => {}
            Outcome::Agrees(_) => self.found = self.found.saturating_add(1),
            Outcome::Differs(what) => {
                self.differ = self.differ.saturating_add(1);
                if self.differ <= 5 {
                    println!(rt; "{what}:\n{}\n{}\n", pair.document_text, pair.query_text)?;
                }
            }
        }
        Ok(())
    }

    /// Whether the queries agree and show something.
    fn is_passed(self) -> bool {
        self.differ == 0 && self.found >= self.pairs / 3
    }
}

/// The number that is this word, or 0.
fn number(word: Option<String>) -> u64 {
    match word {
        Some(word) => word.parse().unwrap_or(0),
        None => 0,
    }
}

/// Tries that many pairs, from that seed on, and writes how many differ.
fn compare(rt: &HostRuntime, count: u64, seed: u64) -> io::Result<ExitCode> {
    let mut counts = Counts {
        pairs: 0,
        found: 0,
        differ: 0,
    };
    for at in 0..count {
        counts.add(rt, seed.wrapping_add(at))?;
    }
    println!(rt;
        "{} pairs of a document and a query, {} differ",
        counts.pairs, counts.differ
    )?;
    Ok(if counts.is_passed() {
        ExitCode::SUCCESS
    } else {
        ExitCode::FAILURE
    })
}

fn main(rt: HostRuntime) -> io::Result<ExitCode> {
    let mut words = env::args(&rt)?.skip(1);
    let first = words.next();
    if matches!(&first, Some(word) if word.as_str() == "refused") {
        refused::take_all(&rt)?;
        return Ok(ExitCode::SUCCESS);
    }
    let count = number(first);
    let seed = number(words.next());
    compare(&rt, count, seed)
}
