//! What a run reads and writes.

ghost use Rattle.cli_world.specs.Acts.{IsUnprinted, Prints, Replaces};
ghost use Rattle.cli_world.specs.Files.{Has};
ghost use Rattle.cli_world.specs.Seen.{IsLost, IsUnread, Reports, Seen, complaint, problem, shown_name};
ghost use Rattle.std.specs.Prelude.{◌≡◌, IfErr, IfOk, OnOk, string_bytes};

use crate::status::Status;
use std::alloc::Global;

/// The name of the output in reports.
pub const OUTPUT: &str = "standard output";

/// Why a file has no text.
#[derive(Drop)]
pub enum Unread {
    /// Its bytes are not UTF-8.
    NotUtf8(Vec<u8>),
    /// It was not read, which is reported.
    Lost,
}

/// Files, an output and standard error, as a run reads and writes them.
pub trait World {
    ghost seen: { Self → Seen };

    /// Returns the text of a file. If reading it fails, reports why, and returns `Lost`.
    fn text(&mut self, alloc: Global, name: &str) -> Result<String, Unread>
        ensures text { IfOk result (λ s. Has (seen self.old).files name.now (string_bytes s)) }
        ensures seen { OnOk result (seen self.new ≡ seen self.old) }
        ensures unread { IfErr result (IsUnread name.now (seen self.old) (seen self.new)) };

    /// Writes the text to the output. That no one reads the output is no error.
    ///
    /// If a write fails otherwise, reports why, and returns `Failed`.
    fn print(&mut self, alloc: Global, text: &str) -> Result<(), Status>
        ensures printed { OnOk result (Prints text.now (seen self.old) (seen self.new)) }
        ensures unprinted { IfErr result (λ s. (s ≡ Status.Failed) × IsUnprinted text.now (seen self.old) (seen self.new)) };

    /// Replaces the bytes of a file by the text, as a whole.
    ///
    /// If that fails, reports why, and returns `Failed`.
    fn replace(&mut self, alloc: Global, name: &str, text: &str) -> Result<(), Status>
        ensures replaced { OnOk result (Replaces name.now text.now (seen self.old) (seen self.new)) }
        ensures unreplaced { IfErr result (λ s. (s ≡ Status.Failed) × IsLost name.now (seen self.old) (seen self.new)) };

    /// Writes the text to standard error. If that fails, the run goes on.
    fn report(&mut self, text: &str)
        ensures { Reports text.now (seen self.old) (seen self.new) };

    /// Reports what is wrong with a file, on a line.
    fn report_problem(&mut self, name: &str, what: &str)
        ensures { Reports (problem name.now what.now) (seen self.old) (seen self.new) };

    /// Reports what is wrong with the command line, on a line.
    fn report_complaint(&mut self, why: &str)
        ensures { Reports (complaint why.now) (seen self.old) (seen self.new) };
}

/// Returns the name that a file has in reports.
pub fn shown_name(name: &str) -> &str
    ensures { result.now ≡ shown_name name.now }
{
    if name == "-" { "<stdin>" } else { name }
}
