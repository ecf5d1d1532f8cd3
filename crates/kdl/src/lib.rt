//! KDL 2 documents: nodes and documents that keep every byte of their form.
//!
//! `KdlDocument::parse` reads a text and returns a document that prints the same bytes. Look-ups find nodes by name,
//! and a node's entries by the name of a property or by the position among the arguments. Each parsed node has a
//! format. An edit of the entries of a node with a format changes its own piece of the printed text, and no other byte:
//!
//! ```
//! let text = "server {\n    // where it listens\n    port 8080\n}\n";
//! let mut document = KdlDocument::parse(alloc, text)?;
//! if let Some(server) = document.get_mut("server") {
//!     if let Some(port) = server.ensure_children().get_mut("port") {
//!         if let Some(entry) = port.entry_mut(NodeKey::from(0)) {
//!             *entry = KdlEntry::new(KdlValue::from(9090));
//!         }
//!     }
//! }
//! let changed = document.to_string(alloc)?; // the text with 9090 in place of 8080
//! ```
//!
//! A new entry prints one space and its value. A type, comments and slashdashed entries of the old entry are removed
//! with it. To keep them, set the value of the entry and `value_repr` of its format.
//!
//! A program that only reads a configuration looks up values by name:
//!
//! ```
//! let text = "server host=\"::1\" {\n    port 8080\n    tags eu west\n}\n";
//! let document = KdlDocument::parse(alloc, text)?;
//! if let Some(server) = document.get("server") {
//!     let host = server.get(NodeKey::from_text(alloc, "host")?); // the string "::1"
//!     if let Some(children) = server.children() {
//!         let port = children.get_arg("port"); // the whole number 8080
//!         for tag in children.iter_args("tags") {
//!             let tag = tag.as_string(); // "eu", then "west"
//!         }
//!     }
//! }
//! ```
//!
//! A text that is not a document is refused. The error has a diagnostic for each fault, with its span and a message:
//!
//! ```
//! if let Err(ParseFailure::Syntax(error)) = KdlDocument::parse(alloc, "a }\nb #treu\n") {
//!     let first = error.diagnostics[0].span; // offset 2 and length 1: the place of the `}`
//!     for diagnostic in &error.diagnostics {
//!         let message = diagnostic.to_string(alloc)?; // "Expected end of document", then "Expected keyword"
//!     }
//! }
//! ```
//!
//! A call that allocates takes an allocator, or uses that of its arguments. If an allocation fails, it returns an
//! `AllocError`, or `ParseFailure::Memory`.
//!
//! Spans are in bytes of the parsed text. The span of an entry is from its type, key or value to the end of its value,
//! that of a node from its type or name up to its terminator, and that of a document from its first node to the end of
//! its last one. What `KdlNode::parse` or `KdlEntry::parse` returns spans the whole text.
#![tactic(auto)]

mod acceptance;
mod clear;
mod clone;
mod document;
mod drop;
mod ends;
mod layout;
mod node;
mod parser;
mod print;

pub use document::KdlDocument;
pub use document::args::DashArgsIter;
pub use kdl_entry::{KdlEntry, KdlEntryFormat, KdlFloat, KdlIdentifier, KdlValue};
pub use kdl_layout::{FormatConfig, FormatConfigBuilder, Layout, is_kdl_space};
pub use kdl_parts::iter::{ArgsIter, EntryIter, EntryIterMut};
pub use kdl_parts::{KdlDocumentFormat, KdlNodeFormat, NodeKey};
pub use kdl_text::cursor::Steps;
pub use kdl_text::error::{KdlDiagnostic, KdlError, ParseFailure};
pub use kdl_text::span::{Severity, SourceSpan};
pub use kdl_value::FloatFailure;
pub use node::KdlNode;
pub use node::iter::{ChildrenIter, ChildrenIterMut};
