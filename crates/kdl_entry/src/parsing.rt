//! The entries and identifiers that the tokens of a text make up.

mod entries;
mod identifiers;
pub mod parts;
pub mod texts;
