//! Texts that are laid out.

ghost use Rattle.cli.specs.Formatted.{IsFormatted};
ghost use Rattle.kdl.specs.Words.{text_of};
ghost use Rattle.std.specs.Prelude.{IfOk, chars};

use cli::disposal::Disposal;
use cli::fmt;
use cli::settings::Settings;
use kdl::ParseFailure;
use std::alloc::Global;

/// Returns the document of the text, laid out.
pub fn formatted(alloc: Global, text: &str, settings: &Settings) -> Result<String, ParseFailure>
    ensures laid_out { IfOk result (λ out. IsFormatted settings.now (chars text.now) (text_of out)) }
{
    fmt::formatted(alloc, text, settings, Disposal::Free)
}
