//! Why a row fails, and how that is reported.

use std::alloc::{AllocError, AllocFailed, Global};
use std::io::ErrorKind;

/// Why a row fails, or was not run to its end.
#[derive(Clone, Copy)]
pub enum Fault {
    /// Something is wrong, and was reported where it was found.
    Wrong,
    /// The run cannot continue: an allocation or a write failed.
    Stopped(ErrorKind),
}

impl<T: Drop> From<AllocFailed<T>> for Fault {
    fn from(_: AllocFailed<T>) -> Fault {
        Fault::Stopped(ErrorKind::OutOfMemory)
    }
}

impl From<AllocError> for Fault {
    fn from(_: AllocError) -> Fault {
        Fault::Stopped(ErrorKind::OutOfMemory)
    }
}

/// The place of a row, and whether it has to fail.
#[derive(Clone, Copy)]
pub struct Teller<'a> {
    pub rt: &'a HostRuntime,
    pub file: &'a str,
    pub number: usize,
    pub is_wrong: bool,
}

impl Teller<'_> {
    /// The allocator.
    pub fn alloc(&self) -> Global {
        self.rt.alloc()
    }

    /// Returns the fault that something is wrong, and reports it, except for a row that has to
    /// fail.
    pub fn wrong(&self, what: &str, words: &str) -> Fault {
        if self.is_wrong {
            return Fault::Wrong;
        }
        match println!(self.rt; "{}:{}: {what}{words}", self.file, self.number) {
            Ok(()) => Fault::Wrong,
            Err(error) => Fault::Stopped(error.kind()),
        }
    }
}
