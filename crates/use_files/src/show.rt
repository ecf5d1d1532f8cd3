//! Prints the settings of files, or what is wrong with them.

use crate::settings::{Refused, load};
use std::io;

/// Returns the line and the column of a byte of the text, counted from 1.
pub fn place(text: &str, byte: usize) -> (usize, usize) {
    let before = text.get(..byte).unwrap_or(text);
    let line = before.split('\n').count();
    let column = before.chars().rev().take_while(|c| *c != '\n').count();
    (line, column.saturating_add(1))
}

/// Prints what is wrong with the text.
fn show_refused(rt: &HostRuntime, name: &str, text: &str, refused: &Refused) -> io::Result<()> {
    match refused {
        Refused::Syntax(error) => {
            for diagnostic in &error.diagnostics {
                let (line, column) = place(text, diagnostic.span.offset);
                println!(rt; "{name}:{line}:{column}: {diagnostic}")?;
            }
        }
        Refused::Unfit(faults) => {
            for fault in faults {
                let (line, column) = place(text, fault.span.offset);
                println!(rt; "{name}:{line}:{column}: {}", fault.wants)?;
            }
        }
        Refused::Memory => return Err(io::Error::from(io::ErrorKind::OutOfMemory)),
    }
    Ok(())
}

/// Prints the settings of the file, or what is wrong with it, and returns whether the file has settings.
pub fn show(rt: &HostRuntime, name: &str, text: &str) -> io::Result<bool> {
    match load(rt.alloc(), text) {
        Ok(settings) => {
            println!(rt; "{name}: {}:{}", settings.host, settings.port)?;
            println!(rt; "{name}: verbose {}", settings.verbose)?;
            Ok(true)
        }
        Err(refused) => {
            show_refused(rt, name, text, &refused)?;
            Ok(false)
        }
    }
}
