//! Settings from a text.

ghost use Rattle.cli.specs.Config.{Configures};

use cli::config::Unfit;
use cli::settings::Given;
use std::alloc::Global;

/// Returns the settings that a text gives.
pub fn given(alloc: Global, text: &str) -> Result<Given, Unfit>
    ensures { Configures text.now result }
{
    cli::config::given(alloc, text)
}
