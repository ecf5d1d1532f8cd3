//! The contracts of calls that the program `kdl` makes on texts. Each function here makes one call and has the call's
//! contract, or a part of it, as in `call_contracts`.
#![tactic(auto)]

pub mod entries;
pub mod formatting;
pub mod paths;
pub mod queries;
pub mod runs;
pub mod settings;
