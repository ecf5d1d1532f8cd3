//! The tokens of a KDL 2 text, one at a time (`lexer`), and the control grammar: which token may come where, and which
//! blocks are open (`control`).
#![tactic(auto)]

mod control;
mod entry_control;
mod events;
pub mod lexer;
mod node_control;
mod token_span;

pub use control::{Control, Ended, Frame, Owner, Phase, Spot, Word};
pub use entry_control::EntryControl;
pub use events::Event;
pub use lexer::{LexFailure, NextToken, Token, TokenKind};
pub use node_control::NodeControl;
pub use token_span::TokenSpan;
