//! What becomes of a document that is no longer needed.

use kdl::KdlDocument;
use std::mem;

/// What becomes of a document that is no longer needed.
#[derive(Clone, Copy)]
pub enum Disposal {
    /// It is freed.
    Free,
    /// It is left to the end of the process, which frees it faster.
    Leave,
}

impl Disposal {
    /// Returns what becomes of the documents of so many files: that of one file is left, and of several each is freed,
    /// so that the next one takes its memory.
    pub fn of_files(count: usize) -> Disposal {
        if count > 1 {
            Disposal::Free
        } else {
            Disposal::Leave
        }
    }

    /// Frees the document, or leaves it.
    pub fn dispose(self, document: KdlDocument) {
        match self {
            Disposal::Free => drop(document),
            Disposal::Leave => mem::forget(document),
        }
    }
}
