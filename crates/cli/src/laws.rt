//! What the contracts of `fmt`, `check`, `query`, `completions` and `man` say of files and an output whose bytes are known.

ghost use Rattle.cli.specs.Checks.{ChecksFile, IsSound};
ghost use Rattle.cli.specs.Formats.{ChangesNamed, FormatsFile, FormatsFiles};
ghost use Rattle.cli.specs.Formatted.{IsFormatted};
ghost use Rattle.cli.specs.Requests.{Runs};
ghost use Rattle.cli.specs.Searches.{SearchesFile, SearchesFiles};
ghost use Rattle.cli.specs.declared.query.Search.{Search};
ghost use Rattle.cli.specs.declared.request.Request.TheVariants as request;
ghost use Rattle.cli_shown.specs.declared.nodes.View.TheVariants.{Raw};
ghost use Rattle.cli_world.specs.Files.{Has};
ghost use Rattle.cli_world.specs.Seen.{Seen};
ghost use Rattle.kdl.specs.Words.{IsDocument, Nodes};
ghost use Rattle.kdl_query.specs.Selects.{IsSelected, Path};
ghost use Rattle.kdl_query.specs.Tree.{query_says};
ghost use Rattle.std.specs.Prelude.{◌≡◌, [], ◌∷◌, IsSome, IsUtf8, List, Some, chars, false, ℕ};

use crate::files::{Job, Mode};
use crate::report::Style;
use cli_words::completions::Shell;
use cli_world::status::Status;
use cli_world::tally::Tally;
use kdl_laws::{laid_is_derived, unambiguous};

/// Files that are formatted are as before, but for those that are named and replaced.
pub fn formats_change_named()
    ensures { (job : Job) (names : List (List ℕ)) (old new : Seen) (status : Status) → FormatsFiles job names old new status
        → ChangesNamed job.mode names old.files new.files }
{}

/// What formatting a file is not: `Done`, with nothing printed where its text is to be printed, or else with the file as
/// before where formatting changes its text.
pub fn formats_are_not_so()
    ensures print { (job : Job) (name text out : List ℕ) (old new : Seen) (t : Tally) → job.mode ≡ Mode.Print
        → old.files name ≡ Some text → (IsFormatted job.settings (chars text) [] → ⊥)
        → old.out.bytes ≡ Some out → new.out.bytes ≡ Some out → new.out.failed ≡ false
        → FormatsFile job name old new t → t.status ≡ Status.Done → ⊥ }
    ensures others { (job : Job) (name text : List ℕ) (old new : Seen) (t : Tally) → (job.mode ≡ Mode.Print → ⊥)
        → old.files name ≡ Some text → new.files name ≡ Some text → (IsFormatted job.settings (chars text) (chars text) → ⊥)
        → FormatsFile job name old new t → t.status ≡ Status.Done → ⊥ }
{}

/// If all is well with a file, its text is a document.
#[tactic(auto, using(crate::proofs::Verdicts::done_is_sound))]
pub fn done_is_sound()
    ensures { (style : Style) (name : List ℕ) (old new : Seen) (t : Tally)
        → ChecksFile style name old new t → t.status ≡ Status.Done
        → (text : List ℕ) × Has old.files name text × IsSound text }
{}

/// If something is found in a file that is UTF-8, its text is no document.
#[tactic(auto, using(crate::proofs::Verdicts::found_is_faulty))]
pub fn found_is_faulty()
    ensures { (style : Style) (name text : List ℕ) (old new : Seen) (t : Tally)
        → ChecksFile style name old new t → t.status ≡ Status.Found
        → old.files name ≡ Some text → IsUtf8 text → IsSound text → ⊥ }
{}

/// The status of a search of a known document is not `Done` if no node is selected, nor if one is and nothing is printed.
/// Only the view `Raw` may show nothing: a node may have no argument.
pub fn searches_are_not_so()
    ensures shown { (s : Search) (name bytes : List ℕ) (x : Nodes) (p : Path) (old new : Seen) (t : Tally)
        → old.files name ≡ Some bytes → IsDocument (chars bytes) x → IsSelected x (query_says s.query.now) p
        → (s.view ≡ Raw → ⊥) → IsSome old.out.bytes → new.out.bytes ≡ old.out.bytes → new.out.failed ≡ false
        → SearchesFile s name old new t → t.status ≡ Status.Done → ⊥ }
    ensures found { (s : Search) (name bytes : List ℕ) (x : Nodes) (old new : Seen)
        → old.files name ≡ Some bytes → IsDocument (chars bytes) x
        → ((p : Path) → IsSelected x (query_says s.query.now) p → ⊥)
        → SearchesFiles s (name ∷ []) old new Status.Done → ⊥ }
{
    laid_is_derived();
    unambiguous();
}

/// Nothing is done for the completions of a shell, or for the manual page, with `Done` only if a write failed.
pub fn texts_are_shown()
    ensures completions { (shell : Shell) (s : Seen) (before : List ℕ) → Runs (request.Completions shell) s s Status.Done
        → s.out.bytes ≡ Some before → s.out.failed ≡ false → ⊥ }
    ensures manual { (s : Seen) (before : List ℕ) → Runs request.Manual s s Status.Done
        → s.out.bytes ≡ Some before → s.out.failed ≡ false → ⊥ }
{}
