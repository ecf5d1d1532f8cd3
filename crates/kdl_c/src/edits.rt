//! Edits of the nodes of a document, and of their entries.

mod of_entries;
mod of_nodes;
