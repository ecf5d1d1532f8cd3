//! The program `kdl` over texts and over any files: what a command line asks for, and what becomes of it.
#![tactic(auto)]

pub mod ask;
pub mod ask_laws;
pub mod check;
pub mod config;
pub mod disposal;
pub mod files;
pub mod fmt;
pub mod laws;
pub mod query;
pub mod report;
pub mod request;
pub mod settings;

pub use cli_words::{completions, words};
pub use cli_world::{process, status, store, world};
