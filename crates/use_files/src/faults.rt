//! Reports the faults of texts that are not documents.

use kdl::ParseFailure;
use std::io;

/// Writes each fault of the text to standard error, and returns false. If memory ran out, returns that error.
pub fn report(rt: &HostRuntime, name: &str, failure: &ParseFailure) -> io::Result<bool> {
    match failure {
        ParseFailure::Syntax(error) => {
            for diagnostic in &error.diagnostics {
                eprintln!(rt; "{name}: byte {}: {diagnostic}", diagnostic.span.offset)?;
            }
            Ok(false)
        }
        ParseFailure::Memory => Err(io::Error::from(io::ErrorKind::OutOfMemory)),
    }
}
