//! Texts of a language server, as the Language Server Protocol 3.17 edits them.
//!
//! A client names places by line and character, where `character` counts units of the encoding that client and server
//! agreed on. Lines end at LF, CR LF and CR. `offset_of` returns the byte offset of a position, `position_of` the position
//! of a byte offset, `replaced_all` the text after the changes of a `textDocument/didChange`, and `edits` the edits of whole
//! lines that make one text another:
//!
//! ```
//! let start = Position { line: 0, character: 5 };
//! let end = Position { line: 0, character: 7 };
//! let changes = vec![in alloc; Change { range: Some(Range { start, end }), text: String::from_str(alloc, "8080")? }]?;
//! let text = replaced_all(alloc, String::from_str(alloc, "port 80\n")?, &changes, Encoding::Utf16)?; // "port 8080\n"
//! ```
#![tactic(auto)]

mod change;
mod cursor;
mod edit;
pub mod laws;
mod lines;
mod offset;
mod part;
mod place;
mod position;
mod read;

pub use change::{Change, replaced, replaced_all};
pub use cursor::Cursor;
pub use edit::{Edit, edits};
pub use offset::offset_of;
pub use part::{Lines, Part, edits_within};
pub use place::position_of;
pub use position::{Encoding, Position, Range};
