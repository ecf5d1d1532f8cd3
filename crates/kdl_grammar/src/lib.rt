//! The written grammar of KDL 2 documents and nodes, what they print, and the laws of both.
#![tactic(auto)]

pub mod laws;
