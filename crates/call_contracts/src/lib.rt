//! The contracts of the calls of `kdl`, and of a cursor. Each function here makes one call, or two, and has the call's
//! contract, or a part of it, which the check proves from the call's own contract. A must-fail edit replaces the call by
//! a wrong body: if the contract here refuses it, the call's own contract does too. In a small crate such an edit is
//! cheap to check.
//!
//! `callers` has what a caller proves for the edits with a `requires`; `lines` has a call of `kdl_layout` that layout
//! makes.
#![tactic(auto)]

pub mod callers;
pub mod edits;
pub mod fields;
pub mod layout;
pub mod lines;
pub mod lookups;
pub mod nodes;
pub mod parsing;
pub mod printing;
pub mod reading;
pub mod refused;
pub mod values;
