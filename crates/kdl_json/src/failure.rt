//! Why a text is not read.

ghost use Rattle.kdl_json.specs.declared.failure.JsonFailure.TheVariants.{Memory};
ghost use Rattle.std.specs.Prelude.{◌≡◌};

use std::alloc::{AllocError, AllocFailed};
use thiserror::Error;

/// What a document's JSON has at a place where the text has something else.
#[derive(Clone, Copy, Debug, PartialEq, Eq, Error)]
pub enum Expected {
    /// The array of the nodes.
    #[error("expected `[` before nodes")]
    Nodes,
    /// A node, or the end of the nodes.
    #[error("expected a node, or `]` after the last one")]
    Node,
    /// The key of a node's name.
    #[error("expected the key `name` of a node")]
    NodeName,
    /// The text of a name or a type.
    #[error("expected a string")]
    Text,
    /// The key of a node's entries, or of its type before it.
    #[error("expected the key `entries` of a node, or `type` before it")]
    Entries,
    /// The array of the entries.
    #[error("expected `[` before entries")]
    EntryList,
    /// An entry, or the end of the entries.
    #[error("expected an entry, or `]` after the last one")]
    Entry,
    /// The key of an entry's value, or of its name and its type before it.
    #[error("expected the key `value` of an entry, or `name` and `type` before it")]
    ValueKey,
    /// A value.
    #[error("expected a value: a string, a number, `true`, `false`, `null` or `{{\"float\": ..}}`")]
    Value,
    /// A number that KDL has: a whole one of 128 bits with a sign, without `-0`, or a decimal.
    #[error("expected a whole number of 128 bits with a sign, or a decimal")]
    Number,
    /// A float that JSON has no number for.
    #[error("expected the text of a float that is not a number of JSON")]
    Float,
    /// The end of an object.
    #[error("expected `}}`")]
    End,
    /// The key of a node's children, or the end of the node.
    #[error("expected `}}`, or the key `children` before it")]
    Children,
    /// The end of the text.
    #[error("expected the end of the text")]
    EndOfText,
}

/// Why `from_json` returns no document.
#[derive(Clone, Copy, Debug, PartialEq, Eq, Error)]
pub enum JsonFailure {
    /// The text is not the JSON of a document.
    #[error("byte {at}: {expected}")]
    Unexpected {
        /// The offset in the text, in bytes, of what is there instead.
        at: usize,
        /// What is expected there.
        expected: Expected,
    },
    /// An allocation failed.
    #[error("out of memory")]
    Memory,
}

impl<T: Drop> From<AllocFailed<T>> for JsonFailure {
    ghost from_gives = { λ _ e. e ≡ Memory };

    fn from(_: AllocFailed<T>) -> JsonFailure {
        JsonFailure::Memory
    }
}

impl From<AllocError> for JsonFailure {
    ghost from_gives = { λ _ e. e ≡ Memory };

    fn from(_: AllocError) -> JsonFailure {
        JsonFailure::Memory
    }
}
