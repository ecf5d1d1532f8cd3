//! How the program `kdl` shows values, and the nodes that a query selects.
#![tactic(auto)]

mod names;
mod nodes;
mod trail;
mod values;

pub use nodes::{View, shown};
pub use values::{lines_of, push_value};
