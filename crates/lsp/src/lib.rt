//! A language server for KDL, as the Language Server Protocol 3.17 has it.
//!
//! `step` takes one message of a client and returns the messages that the server sends for it. `serve` does so for the
//! messages of an input, to its end or to `exit`.
//!
//! ```
//! let mut state = State::new(alloc);
//! let replies = step(alloc, &mut state, "{\"jsonrpc\": \"2.0\", \"id\": 1, \"method\": \"initialize\", \"params\": {}}")?;
//! ```
//!
//! The server publishes the faults of each open document, and returns fixes of them. It formats documents, and returns
//! their symbols, folding ranges, selection ranges and tokens. At a place it returns what is there, and the names and keys
//! that may come.
#![tactic(auto)]

mod complete;
mod faults;
mod fix;
mod fold;
mod format;
mod hover;
pub mod laws;
mod layout;
mod locate;
mod message;
mod path;
mod place;
mod publish;
mod request;
mod scan;
mod selection;
mod session;
mod symbols;
mod tokens;
mod write;

pub use lsp_documents::{Client, Document, Phase, State};
pub use message::step;
pub use session::{End, serve};
