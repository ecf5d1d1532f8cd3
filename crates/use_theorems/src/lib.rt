//! What a caller proves of small programs over `kdl`, with the clauses that their users write.
#![tactic(auto)]

pub mod blocks;
pub mod built;
pub mod equal;
pub mod finds;
pub mod layout;
pub mod loans;
pub mod nodes;
pub mod port;
pub mod queries;
pub mod reads_back;
pub mod said;
pub mod spans;
