//! The exit status of a run.

ghost use Rattle.cli_world.specs.Statuses.{code_of};
ghost use Rattle.std.specs.Prelude.{◌≡◌, max};

/// The exit status of a run.
#[derive(Clone, Copy, Debug, PartialEq, Eq)]
pub enum Status {
    /// All is well.
    Done,
    /// A text has a fault, files differ, or what was asked for was not found.
    Found,
    /// The command line or the settings are wrong.
    Usage,
    /// Reading, writing or an allocation failed.
    Failed,
}

impl Status {
    /// Returns the number of the status: 0 to 3, in the order above.
    pub fn code(self) -> u8
        ensures { result ≡ code_of self }
    {
        match self {
            Status::Done => 0,
            Status::Found => 1,
            Status::Usage => 2,
            Status::Failed => 3,
        }
    }

    /// Returns the status with the greater number.
    pub fn worst(self, other: Status) -> Status
        ensures { code_of result ≡ max (code_of self) (code_of other) }
    {
        if self.code() < other.code() {
            other
        } else {
            self
        }
    }
}
