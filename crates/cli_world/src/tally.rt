//! What comes of a file: its status, and what is counted in it.

ghost use Rattle.cli_world.specs.Tallies.{plain};
ghost use Rattle.std.specs.Prelude.{◌≡◌};

use crate::status::Status;

/// The status of a file, and the number of what is counted in it: faults, or selected nodes.
#[derive(Clone, Copy)]
pub struct Tally {
    pub status: Status,
    pub count: usize,
}

impl Tally {
    /// Returns the status, with a count of 0.
    pub fn plain(status: Status) -> Tally
        ensures { result ≡ plain status }
    {
        Tally { status, count: 0 }
    }
}
