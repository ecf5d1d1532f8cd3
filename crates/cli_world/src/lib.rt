//! What a run reads and writes: files by their names, the output, standard error, and the exit status.
#![tactic(auto)]

pub mod effects;
pub mod laws;
pub mod process;
pub mod status;
pub mod store;
pub mod tally;
pub mod world;
