//! Documents as JSON, without loss: names, types, entries in order, values with all digits, and child blocks.
//!
//! `to_json` writes the data of a document, and `from_json` reads exactly that form back.
//!
//! KDL | JSON
//! ---|---
//! a document | an array of nodes
//! a node | `{"name": .., "type": .., "entries": [..], "children": [..]}`
//! an entry | `{"name": .., "type": .., "value": ..}`
//! a string | a string
//! a whole number | a number with all its digits, without a fraction and an exponent
//! a decimal | a number with the same text, such as `1.50` or `1e400`
//! `#true`, `#false`, `#null` | `true`, `false`, `null`
//! `#inf`, `#-inf`, `#nan`, and a decimal whose text is not a number of JSON, such as `+1.5` or `01.5` | `{"float": ..}`, with the text as a string
//!
//! The keys have this order. `"type"` is there only if the node or entry has a type, `"children"` only if the node has
//! a block, and the `"name"` of an entry only if it is a property. Entries of the same name are all kept. A decimal
//! always has a fraction or an exponent, so it differs from a whole number.
//!
//! ```
//! let document = KdlDocument::parse(alloc, "server port=8080 (u8)1 { log #null; }")?;
//! let text = to_json(alloc, &document)?;
//! // [{"name":"server","entries":[{"name":"port","value":8080},{"type":"u8","value":1}],
//! //   "children":[{"name":"log","entries":[{"value":null}]}]}], without the line break
//! let same = from_json(alloc, &text)?; // a document with the same data
//! ```
//!
//! By contract, `from_json` returns a document only for a JSON of its data. For each JSON of data it returns a document
//! with those data, unless an allocation fails. So the JSON of a document reads back as a document with the same data
//! (`laws::json_reads_back`), and two documents have the same JSON exactly if they have the same data
//! (`laws::same_json_is_same_data`).
//!
//! A document that `from_json` returns has no layout of its own: `KdlDocument::autoformat` gives it one.
#![tactic(auto)]

mod build;
mod failure;
mod head;
pub mod laws;
mod number;
mod read;
mod source;
mod write;

pub use failure::{Expected, JsonFailure};
pub use read::from_json;
pub use write::{node_to_json, to_json};
