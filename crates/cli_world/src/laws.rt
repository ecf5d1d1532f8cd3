//! Laws of what is done with a file, for proofs of callers.

ghost use Rattle.cli_world.specs.Acts.{Effect, Happens, prints, replaces, reports, tally_of};
ghost use Rattle.cli_world.specs.Seen.{Seen};
ghost use Rattle.cli_world.specs.declared.status.Status.{Status};
ghost use Rattle.cli_world.specs.declared.tally.Tally.{Tally};
ghost use Rattle.std.specs.Prelude.{◌≡◌, ℕ, ◌<◌, List, Some, false, length};

/// Nothing is not done: where the streams are known and have not failed, no effect takes place and leaves all as it was,
/// but for one that prints no byte, or gives a file the bytes that it has.
pub fn nothing_is_not_done()
    ensures prints { (name bytes held : List ℕ) (s : Seen) (t u : Tally) → 0 < length bytes → s.out.bytes ≡ Some held → s.out.failed ≡ false
        → Happens name s s (prints bytes t) u → ⊥ }
    ensures reports { (name text held : List ℕ) (s : Seen) (c : Status) (u : Tally) → 0 < length text → s.err.bytes ≡ Some held → s.err.failed ≡ false
        → Happens name s s (reports text c) u → ⊥ }
    ensures replaces { (name bytes was held : List ℕ) (s : Seen) (u : Tally) → s.files name ≡ Some was → (was ≡ bytes → ⊥)
        → s.err.bytes ≡ Some held → s.err.failed ≡ false → Happens name s s (replaces bytes) u → ⊥ }
{}

#[tactic(auto, using(crate::proofs::Refuted::own_tally))]
/// What can't fail does not fail: an effect on such a file has its own status and count, unless a write to the output failed.
pub fn failures_are_seen()
    ensures { (name : List ℕ) (e : Effect) (old new : Seen) (t : Tally) → new.out.failed ≡ false → old.may_fail name ≡ false
        → Happens name old new e t → t ≡ tally_of e }
{}
