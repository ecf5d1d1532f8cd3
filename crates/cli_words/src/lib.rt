//! The words of the program `kdl`, and the completions and the manual page that are made from them.
#![tactic(auto)]

pub mod completions;
mod laws;
pub mod manual;
mod template;
pub mod words;
