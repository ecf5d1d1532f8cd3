//! The parser of KDL 2 documents. It takes tokens one by one, without recursion, and is generic in the nodes that it
//! makes.
#![tactic(auto)]

mod builder;
mod document_text;
mod line_spaces;
mod node_parts;
mod node_text;
mod token_loop;

pub use document_text::read_document;
pub use node_parts::{DocumentParts, NodeParts, ParsedNode};
pub use node_text::read_node_text;
