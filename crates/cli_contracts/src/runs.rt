//! Runs of the program.

ghost use Rattle.cli.specs.Asks.{AsksFile};
ghost use Rattle.cli.specs.Requests.{Runs};

use cli::ask::Ask;
use cli::request::{Format, Request};
use cli::settings::Given;
use cli_world::status::Status;
use cli_world::tally::Tally;
use cli_world::world::World;
use std::alloc::Global;

/// Does what is asked for.
pub fn run<W: World>(alloc: Global, request: &Request<'_>, world: &mut W) -> Status
    ensures { Runs request.now (W.seen world.old) (W.seen world.new) result }
{
    cli::request::run(alloc, request, world)
}

/// Applies an action to a file.
pub fn ask_file<W: World>(alloc: Global, world: &mut W, ask: &Ask<'_>) -> Tally
    ensures { AsksFile ask.now (W.seen world.old) (W.seen world.new) result }
{
    cli::ask::ask_file(alloc, world, ask)
}
