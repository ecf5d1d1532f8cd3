//! Queries: the nodes of a document that a selector describes.
//!
//! A query is a list of selectors, with `||` between them. A selector begins at the document, `top()`, or at nodes that
//! meet a test. Each further part selects children (`>`), descendants (`>>`), the next sibling (`+`) or later siblings
//! (`++`) of the nodes before it. An operator after a bare name needs a space before it.
//!
//! | part of a query | nodes |
//! |---|---|
//! | `name`, `(t)`, `()`, `(t)name` | with this name, with this type, with a type, with both |
//! | `[]` | all |
//! | `[val()]`, `[val(1)]`, `[values()]` | with a first argument, with a second one, with some argument |
//! | `[k]`, `[prop(k)]`, `[props()]` | with a property `k`, with some property |
//! | `[tag()]` | with a type |
//! | `[val() >= 1.5]`, `[k = #true]`, `[name() ^= "a"]` | whose value, property or name compares so |
//! | `[val() = (u8)]` | whose value has this type |
//!
//! Values compare by `=` and `!=`, numbers also by `<`, `<=`, `>` and `>=`, by their exact values, and strings by `^=`
//! (begins with), `$=` (ends with) and `*=` (contains). Of several properties of a name the last one counts.
//!
//! [`Query::parse`] reads a query from its text, and a query prints such a text. Newlines and block comments are spaces in
//! it; `//` is none. [`query_paths`] returns exactly the paths that a query selects, in the order of the document, each once,
//! and [`query_turns`] returns them in memory that grows with the document alone. [`edit_at`] edits the node at a path.
#![tactic(auto)]

mod clone;
mod compare;
mod decimal;
mod edit;
mod error;
mod find;
pub mod laws;
mod parse;
mod part;
mod path;
mod print;
mod test;
mod tree;
mod walk;

pub use edit::edit_at;
pub use error::{QueryError, QueryFailure};
pub use find::{Turn, query, query_all, query_paths, query_paths_counted, query_turns};
pub use path::node_at;
pub use tree::{
    Accessor, Combinator, Comparison, First, Literal, NodeTest, Query, Selector, Step, Test,
    TypeTest,
};
