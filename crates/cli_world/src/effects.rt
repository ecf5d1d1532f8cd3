//! What is done with the text of a file.
#![tactic(auto, using(crate::proofs::Acting::prints_happens, crate::proofs::Acting::unprinted_happens, crate::proofs::Acting::replaces_happens, crate::proofs::Acting::unreplaced_happens, crate::proofs::Acting::reports_happens))]

ghost use Rattle.cli_world.specs.Acts.{Happens};
ghost use Rattle.cli_world.specs.Acts.Effect.{prints, replaces, reports};
ghost use Rattle.cli_world.specs.Seen.{Reports, complaint, problem};
ghost use Rattle.cli_world.specs.Tallies.{plain};
ghost use Rattle.std.specs.Prelude.{◌≡◌, codes};

use crate::status::Status;
use crate::tally::Tally;
use crate::world::World;
use std::alloc::Global;

/// Prints the text of a file. Returns the tally, or `Failed` if that fails.
pub fn print<W: World>(alloc: Global, world: &mut W, name: &str, text: &str, tally: Tally) -> Tally
    ensures { Happens name.now (W.seen world.old) (W.seen world.new) (prints text.now tally) result }
{
    match world.print(alloc, text) {
        Ok(()) => tally,
        Err(status) => Tally::plain(status),
    }
}

/// Replaces a file by the text. Returns `Done`, or `Failed` if that fails.
pub fn replace<W: World>(alloc: Global, world: &mut W, name: &str, text: &str) -> Tally
    ensures { Happens name.now (W.seen world.old) (W.seen world.new) (replaces text.now) result }
{
    match world.replace(alloc, name, text) {
        Ok(()) => Tally::plain(Status::Done),
        Err(status) => Tally::plain(status),
    }
}

/// Reports the text. Returns the status.
pub fn report<W: World>(world: &mut W, name: &str, text: &str, status: Status) -> Tally
    ensures { Happens name.now (W.seen world.old) (W.seen world.new) (reports text.now status) result }
{
    world.report(text);
    Tally::plain(status)
}

/// Reports what is wrong with a file, on a line. Returns the status.
pub fn report_problem<W: World>(world: &mut W, name: &str, what: &str, status: Status) -> Tally
    ensures { Happens name.now (W.seen world.old) (W.seen world.new) (reports (problem name.now what.now) status) result }
{
    world.report_problem(name, what);
    Tally::plain(status)
}

/// Reports what is wrong with the command line, on a line. Returns the status.
pub fn report_complaint<W: World>(world: &mut W, name: &str, why: &str, status: Status) -> Tally
    ensures { Happens name.now (W.seen world.old) (W.seen world.new) (reports (complaint why.now) status) result }
{
    world.report_complaint(why);
    Tally::plain(status)
}

/// Reports that memory ran out. Returns `Failed`.
pub fn report_memory<W: World>(world: &mut W, name: &str) -> Tally
    ensures reports { Reports (problem name.now (codes "out of memory")) (W.seen world.old) (W.seen world.new) }
    ensures failed { result ≡ plain Status.Failed }
{
    world.report_problem(name, "out of memory");
    Tally::plain(Status::Failed)
}
