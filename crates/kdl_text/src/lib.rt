//! The text layer of KDL 2: characters, comments and spaces, strings, numbers, and the spans of
//! faults.
#![tactic(auto)]

pub mod chars;
pub mod cursor;
pub mod error;
mod marks;
pub mod numbers;
pub mod span;
pub mod strings;
mod tables;
pub mod trivia;
