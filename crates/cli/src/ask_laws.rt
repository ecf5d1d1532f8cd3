//! What the contracts of `ask_file` and `run` say of a file and an output whose bytes are known.

ghost use Rattle.cli.specs.Asks.{AsksFile, Gives};
ghost use Rattle.cli.specs.Edits.{SetsFile};
ghost use Rattle.cli.specs.Requests.{Runs};
ghost use Rattle.cli.specs.declared.ask.Action.TheVariants.{Get, Json, Set};
ghost use Rattle.cli.specs.declared.ask.Ask.{Ask};
ghost use Rattle.cli.specs.declared.request.Request.TheVariants as request;
ghost use Rattle.cli_world.specs.Seen.{FilesStay, Seen};
ghost use Rattle.cli_world.specs.declared.status.Status.{Status};
ghost use Rattle.cli_world.specs.declared.status.Status.TheVariants.{Done};
ghost use Rattle.cli_world.specs.declared.tally.Tally.{Tally};
ghost use Rattle.kdl.specs.Words.{IsDocument, Nodes};
ghost use Rattle.kdl_path.specs.Paths.{at_path};
ghost use Rattle.kdl_path.specs.declared.path.Path.{Path};
ghost use Rattle.std.specs.Borrow.{Bor};
ghost use Rattle.std.specs.Prelude.{◌≡◌, ◌++◌, [], Bool, IsSome, List, None, Some, chars, false, true, ℕ};

/// An action that replaces its file leaves what it gives in the file, if it ends with `Done`.
pub fn result_is_in_the_file()
    ensures { (ask : Ask) (old new : Seen) (t : Tally) (text : List ℕ) → AsksFile ask old new t
        → t.status ≡ Done → ask.replace ≡ true → old.files ask.name.now ≡ Some text
        → (out : List ℕ) × Gives ask.action text out × (new.files ask.name.now ≡ Some out) }
{}

/// An action that replaces no file prints what it gives, if it ends with `Done` and no write failed.
pub fn result_is_on_the_output()
    ensures { (ask : Ask) (old new : Seen) (t : Tally) (text before : List ℕ) → AsksFile ask old new t
        → t.status ≡ Done → ask.replace ≡ false → old.files ask.name.now ≡ Some text
        → old.out.bytes ≡ Some before → new.out.failed ≡ false
        → (out : List ℕ) × Gives ask.action text out × (new.out.bytes ≡ Some (before ++ out)) }
{}

/// `kdl set -w` in its own words, of a whole run: what is in the file after `Done`.
pub fn set_sets_the_file()
    ensures { (path : Bor Path) (value : Bor (List ℕ)) (create : Bool) (ask : Ask) (old new : Seen)
        → Runs (request.Ask ask) old new Done → ask.replace ≡ true → ask.action ≡ Set path value create
        → SetsFile path.now value.now create ask.name.now old new }
{}

/// Nothing is done for an action that ends with `Done` only if it gives the text of its file, or nothing.
pub fn nothing_is_done_only_for_no_change()
    ensures replaces { (ask : Ask) (s : Seen) (t : Tally) (text : List ℕ) → AsksFile ask s s t
        → t.status ≡ Done → ask.replace ≡ true → s.files ask.name.now ≡ Some text
        → Gives ask.action text text }
    ensures prints { (ask : Ask) (s : Seen) (t : Tally) (text before : List ℕ) → AsksFile ask s s t
        → t.status ≡ Done → ask.replace ≡ false → s.files ask.name.now ≡ Some text
        → s.out.bytes ≡ Some before → s.out.failed ≡ false
        → Gives ask.action text [] }
{}

/// `get` and `json` give something.
pub fn something_is_shown()
    ensures get { (path : Bor Path) (raw all : Bool) (text : List ℕ) → Gives (Get path raw all) text [] → ⊥ }
    ensures json { (text : List ℕ) → Gives Json text [] → ⊥ }
{}

/// The value that `set` makes, if it was missing, is found in what it gives.
pub fn missing_value_is_made()
    ensures { (path : Bor Path) (value : Bor (List ℕ)) (create : Bool) (text out : List ℕ) (x y : Nodes)
        → Gives (Set path value create) text out → IsDocument (chars text) x → at_path path.now x ≡ None
        → IsDocument (chars out) y → IsSome (at_path path.now y) }
{}

/// A run of an action changes no other file, and none at all unless it ends with `Done`.
pub fn other_files_stay()
    ensures others { (ask : Ask) (other : List ℕ) (old new : Seen) (s : Status) → Runs (request.Ask ask) old new s
        → (other ≡ ask.name.now → ⊥) → new.files other ≡ old.files other }
    ensures failed { (ask : Ask) (old new : Seen) (s : Status) → Runs (request.Ask ask) old new s
        → (s ≡ Done → ⊥) → FilesStay old new }
{}
