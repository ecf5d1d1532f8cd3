//! The statuses that the calls return.

ghost use Rattle.c_calls.specs.Answers.{IsAmong, failure_status};
ghost use Rattle.c_calls.specs.declared.status.Refused.TheVariants.{NotFound};
ghost use Rattle.c_calls.specs.declared.status.Unread.TheVariants.{Faults, NotUtf8};
ghost use Rattle.std.specs.Prelude.{◌≡◌, ◌≤◌, ◌∷◌, []};

use kdl::ParseFailure;

/// The call succeeded.
pub const OK: u32 = 0;

/// The text has faults.
pub const FAULTS: u32 = 1;

/// The text is not UTF-8.
pub const NOT_UTF8: u32 = 2;

/// An allocation failed.
pub const OUT_OF_MEMORY: u32 = 3;

/// A buffer has less room than the call needs.
pub const TOO_SMALL: u32 = 4;

/// The handle has no document.
pub const NO_DOCUMENT: u32 = 5;

/// What the call names does not exist: a node, a block, an entry, an index, an offset or a kind.
pub const NOT_FOUND: u32 = 6;

/// Returns the status for a parse failure: `FAULTS` or `OUT_OF_MEMORY`.
pub fn of_failure(failure: &ParseFailure) -> u32
    ensures { result ≡ failure_status failure.now }
{
    match failure {
        ParseFailure::Syntax(_) => FAULTS,
        ParseFailure::Memory => OUT_OF_MEMORY,
    }
}

/// Returns `OK` if the rows and the strings fit, else `TOO_SMALL`. The buffers have room for `rows` rows and `strings`
/// bytes. The call needs `row_count` rows and `string_len` bytes.
pub fn room(rows: usize, row_count: usize, strings: usize, string_len: usize) -> u32
    ensures rows { result ≡ 0 → row_count ≤ rows }
    ensures strings { result ≡ 0 → string_len ≤ strings }
    ensures small { (result ≡ 0 → ⊥) → result ≡ 4 }
    ensures needed { result ≡ 4 → row_count ≤ rows → string_len ≤ strings → ⊥ }
{
    if row_count <= rows && string_len <= strings {
        OK
    } else {
        TOO_SMALL
    }
}

/// Why a text was not read.
#[derive(Clone, Copy)]
pub enum Unread {
    /// The text has faults.
    Faults,
    /// The text is not UTF-8.
    NotUtf8,
    /// An allocation failed.
    Memory,
}

impl Unread {
    /// Returns the status for a text that was not read.
    pub fn status(self) -> u32
        ensures statuses { IsAmong (1 ∷ 2 ∷ 3 ∷ []) result }
        ensures faults { result ≡ 1 → self ≡ Faults }
        ensures utf8 { result ≡ 2 → self ≡ NotUtf8 }
    {
        match self {
            Unread::Faults => FAULTS,
            Unread::NotUtf8 => NOT_UTF8,
            Unread::Memory => OUT_OF_MEMORY,
        }
    }
}

/// Why an edit was not made.
#[derive(Clone, Copy)]
pub enum Refused {
    /// There is no node at the path, or the index is too large.
    NotFound,
    /// An allocation failed.
    Memory,
}

impl Refused {
    /// Returns the status of an edit that was not made.
    pub fn status(self) -> u32
        ensures statuses { IsAmong (3 ∷ 6 ∷ []) result }
        ensures absent { result ≡ 6 → self ≡ NotFound }
    {
        match self {
            Refused::NotFound => NOT_FOUND,
            Refused::Memory => OUT_OF_MEMORY,
        }
    }
}
