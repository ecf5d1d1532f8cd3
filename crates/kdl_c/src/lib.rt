//! The library `kdl` for C. A call takes texts as bytes, and writes texts into the caller's buffers. C keeps a document
//! in a struct.
//!
//! The contract of each exported function states what it does. `bindings/c/kdl.h` is the header.
#![tactic(auto)]

mod diagnostics;
mod documents;
mod edits;
mod layouts;
mod look_ups;
mod places;
mod position;
mod queries;
mod rows;
mod selection;
mod version;
