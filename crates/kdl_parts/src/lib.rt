//! The parts of nodes and documents: the texts around them, and the lists of their entries.
#![tactic(auto)]

pub mod edit;
pub mod format;
pub mod iter;
pub mod key;
pub mod lookup;
pub mod places;
pub mod print;

pub use format::{KdlDocumentFormat, KdlNodeFormat};
pub use key::NodeKey;
