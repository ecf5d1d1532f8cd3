//! A reader or a writer that records its failed calls and its end, and what writes whole texts to one.
#![tactic(auto)]

mod flags;
pub mod laws;
mod retrying;
#[cfg(test)]
mod tests;
mod writing;

pub use flags::Watched;
pub use retrying::Retrying;
