//! The faults of a refused text, each with its span and its message.
//!
//! The lexer and the control read a text again up to its first fault (`front`). There the reader of faults notes that
//! fault, and from there on it takes one lexeme at a time, faulty or not, and continues after a fault (`reader`). An
//! accepted text pays nothing for it.
#![tactic(auto)]

mod ends;
mod esclines;
mod front;
mod kind;
mod lexemes;
mod notes;
mod reader;
mod state;
mod strings;
mod text_control;
mod told;
mod whole;

pub use kind::Kind;
pub use notes::Fault;
pub use told::{failure, faults};
pub use whole::Whole;
