//! The documents of a language server, and the notifications of a client that change them, as the Language Server Protocol
//! 3.17 has them.
//!
//! `State::notify` takes a notification. A text that the server knows is always the client's:
//!
//! ```
//! let mut state = State::new(alloc);
//! state.phase = Phase::Running;
//! state.notify(alloc, "textDocument/didOpen", &params); // `Outcome::Nothing`, unless memory is short
//! ```
#![tactic(auto)]

pub mod laws;
mod notify;
pub mod params;
mod state;

pub use notify::Outcome;
pub use state::{Client, Document, Phase, State};
