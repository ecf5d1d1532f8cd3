//! Identifiers and entries of KDL 2, with the texts around their parts.
#![tactic(auto)]

mod entry;
mod identifier;
pub mod parsing;
mod print;

pub use entry::{KdlEntry, KdlEntryFormat};
pub use identifier::{KdlIdentifier, bare_identifier, identifier_allocator, sliced_identifier};
pub use kdl_value::{KdlFloat, KdlValue, write_char, write_text};
pub use print::write_type;
