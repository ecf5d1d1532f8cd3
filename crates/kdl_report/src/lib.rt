//! Faults of KDL texts, as people and programs read them, and the lines that differ between two texts.
//!
//! `render` draws a fault under the lines of the text that it is in, `short` writes it on one line, and `json` as a JSON
//! object. Each takes a `KdlDiagnostic` and the `Lines` of the text that was read:
//!
//! ```
//! let lines = Lines::new(alloc, text)?;
//! for fault in &error.diagnostics {
//!     let report = render(alloc, "config.kdl", &lines, fault, false)?;
//! }
//! ```
//!
//! ```text
//! error: Expected keyword
//!  --> config.kdl:2:6
//!   |
//! 2 | port #treu
//!   |      ^^^^^ not keyword
//!   |
//!   = help: Available keywords in KDL are '#true', '#false', '#null', '#nan', '#inf', and '#-inf'; they are case-sensitive.
//! ```
//!
//! `unified` shows the lines that differ as `diff -u` does:
//!
//! ```
//! let lines = unified(alloc, "f.kdl", "a\n", "b\n")?;
//! // "--- f.kdl\n+++ f.kdl\n@@ -1 +1 @@\n-a\n+b\n"
//! ```
#![tactic(auto)]

mod change;
mod diff;
mod hints;
pub mod laws;
mod line;
mod object;
mod picture;
mod places;
mod script;
mod shown;
mod window;
mod words;

pub use diff::unified;
pub use hints::hint;
pub use line::short;
pub use object::json;
pub use picture::{render, render_without_hint};
pub use places::{Lines, Place};
pub use shown::{is_shown_as_is, shown_char, shown_text};
