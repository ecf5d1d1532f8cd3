//! Frames of messages, as the base protocol of the Language Server Protocol 3.17 has them: a head, which gives the length of
//! a message, and the message.
//!
//! A head has a line for each field, and ends with an empty line. The fields come in any order, and `Content-Length` is one
//! of them. `Frames` takes the bytes of an input in any parts, and gives the messages:
//!
//! ```
//! let mut frames = Frames::new(alloc);
//! frames.push(b"Content-Length: 2\r\n\r\n{}Content-")?;
//! frames.next_message(); // Some(b"{}")
//! frames.next_message(); // None
//! frames.push(b"Length: 2\r\n\r\n[]")?;
//! frames.next_message(); // Some(b"[]")
//! ```
#![tactic(auto)]

mod frames;
mod front;
mod head;
pub mod laws;
mod messages;
#[cfg(test)]
mod tests;
mod write;

pub use frames::Frames;
pub use front::{Front, first_frame};
pub use messages::messages_of;
pub use write::write_frame;
