//! What the calls for C do: documents in structs that C keeps, look-ups and edits along a path, lines and columns, and
//! rows and texts in the caller's buffers. `kdl_c` exports the calls.
#![tactic(auto)]

pub mod at_path;
pub mod entries;
pub mod entry_change;
pub mod faults;
pub mod first;
pub mod given;
pub mod given_faults;
pub mod held;
pub mod laid_out;
pub mod names;
pub mod node_change;
pub mod opened;
pub mod path;
pub mod place;
pub mod reports;
pub mod row;
pub mod status;
pub mod text;
pub mod tree;
pub mod value;
