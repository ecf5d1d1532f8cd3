//! Which texts begin a document, and which do not.

pub use kdl_grammar::laws::going_on::{
    alive, alive_in_token, dead_at_front, dead_at_token, derived_at_end, node_alive,
    node_dead_at_token, refused_at_piece,
};
