//! Laws about the written grammar of documents and nodes; what an edit changes in the printed text; equality, order,
//! hashes and copies; layout and the items that it keeps; and printed texts that read back.
#![tactic(auto)]

pub mod bytes;
pub mod entries;
pub mod equal;
pub mod errors;
pub mod formats;
pub mod going_on;
pub mod items;
pub mod keys;
pub mod layout;
pub mod machine;
pub mod nodes;
pub mod reading_back;
pub mod said;
pub mod sets;
pub mod spans;
pub mod values;

pub use kdl_grammar::laws::{
    edited_is_laid, former_is_kept, laid_is_derived, laid_node_is_derived, nodes_are_laid,
    one_laid_document, one_laid_node, reads_back, unambiguous, unambiguous_node,
};
