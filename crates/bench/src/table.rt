//! The two tables: how fast each call is, and whether it is as fast on longer texts.

use crate::measure::{CALLS, Call, least_time};
use crate::texts::{KINDS, Kind};
use std::alloc::{AllocError, Global};
use std::io;

/// How long the texts of the second table are.
const LENGTHS: [usize; 4] = [10_000, 100_000, 1_000_000, 10_000_000];

/// How often a text is measured: more often if it is small.
fn turns(text: &str) -> usize {
    (20_000_000 / text.len().max(1)).clamp(3, 100)
}

/// Writes the heads of the first table.
pub fn head(rt: &HostRuntime) -> io::Result<()> {
    println!(rt; "MB/s of the text; nanoseconds a look-up; bytes of memory to parse a byte")?;
    print!(rt; "text          bytes")?;
    for (head, _) in &CALLS {
        print!(rt; "{head:>9}")?;
    }
    println!(rt; "  node ns  property ns  memory")
}

/// Writes a row of the first table. Without the memory to parse the text, it is not a document.
pub fn row(rt: &HostRuntime, name: &str, text: &str, memory: Option<u64>) -> io::Result<()> {
    let Some(memory) = memory else {
        return println!(rt; "{name}: no document");
    };
    print!(rt; "{name:<9} {:>9}", text.len())?;
    for (_, call) in &CALLS {
        print_rate(rt, rate(rt, *call, text)?)?;
    }
    end_row(rt, text, memory)
}

/// Writes the columns after those of the speeds: look-ups, and the memory.
fn end_row(rt: &HostRuntime, text: &str, memory: u64) -> io::Result<()> {
    let node = least_time(rt, Call::Node, text, turns(text))?.as_nanos();
    let property = least_time(rt, Call::Property, text, turns(text))?.as_nanos();
    let memory = u128::from(memory).saturating_mul(10) / (text.len() as u128).max(1);
    let memory = tenths(rt.alloc(), memory)?;
    if property == 0 {
        return println!(rt; "{node:>9}{:>13}{memory:>8}", "-");
    }
    println!(rt; "{node:>9}{property:>13}{memory:>8}")
}

/// Writes a speed.
fn print_rate(rt: &HostRuntime, rate: u128) -> io::Result<()> {
    let speed = tenths(rt.alloc(), rate)?;
    print!(rt; "{speed:>9}")
}

/// The speed of the call on the text, in tenths of megabytes per second.
fn rate(rt: &HostRuntime, call: Call, text: &str) -> io::Result<u128> {
    let time = least_time(rt, call, text, turns(text))?;
    Ok((text.len() as u128).saturating_mul(10_000) / time.as_nanos().max(1))
}

/// A number of tenths as a decimal.
fn tenths(alloc: Global, tenths: u128) -> Result<String, AllocError> {
    let (whole, part) = (tenths / 10, tenths % 10);
    format!(in alloc; "{whole}.{part}")
}

/// Writes the second table: the speeds on longer and longer texts, and the greatest of them divided by the least.
pub fn growth(rt: &HostRuntime) -> io::Result<()> {
    println!(rt; "\nMB/s on 10 KB, 100 KB, 1 MB and 10 MB, and the greatest by the least")?;
    for kind in &KINDS {
        for (head, call) in &CALLS {
            print!(rt; "{:<9}{head:<9}", kind.name)?;
            end_growth(rt, *kind, *call)?;
        }
    }
    Ok(())
}

/// Writes the figures in a row of the second table.
fn end_growth(rt: &HostRuntime, kind: Kind, call: Call) -> io::Result<()> {
    let (mut least, mut most) = (u128::MAX, 0);
    for bytes in &LENGTHS {
        let rate = rate(rt, call, &kind.text(rt.alloc(), *bytes)?)?;
        (least, most) = (least.min(rate), most.max(rate));
        print_rate(rt, rate)?;
    }
    let quotient = tenths(rt.alloc(), most.saturating_mul(10) / least.max(1))?;
    println!(rt; "{quotient:>6}")
}
