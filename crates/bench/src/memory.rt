//! How much memory the process takes, as Linux reports it.

use crate::measure::parsed;
use std::{fs, io, mem};

/// Returns the bytes that the process takes at its peak while the text is parsed, beyond those that it had before, or 0
/// if the system does not report them. Returns `None` if the text is not a document.
///
/// Memory that was freed before and not returned to the system is reused without being counted. So the document is not
/// freed, and this is best called before all else.
pub fn bytes_to_parse(rt: &HostRuntime, text: &str) -> io::Result<Option<u64>> {
    // Resets the peak.
    let is_reset = fs::write(rt, "/proc/self/clear_refs", "5").is_ok();
    let before = told(rt, "VmRSS:");
    let Some(document) = parsed(rt, text)? else {
        return Ok(None);
    };
    let peak = told(rt, "VmHWM:");
    mem::forget(document);
    Ok(Some(if is_reset {
        peak.saturating_sub(before)
    } else {
        0
    }))
}

/// The bytes in the line of the process's status with this label, or 0 if there is none.
fn told(rt: &HostRuntime, label: &str) -> u64 {
    let Ok(status) = fs::read_to_string(rt, "/proc/self/status") else {
        return 0;
    };
    for line in status.lines() {
        if let Some(amount) = line.strip_prefix(label) {
            let kilobytes = amount.trim().trim_end_matches(" kB").parse::<u64>();
            return kilobytes.unwrap_or(0).saturating_mul(1024);
        }
    }
    0
}
