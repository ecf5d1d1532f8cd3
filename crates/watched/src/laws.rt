//! Laws of streams, for proofs of callers.

ghost use Rattle.std.specs.Prelude.{◌≡◌, ℕ, ◌<◌, List, Some, false, length};
ghost use Rattle.watched.specs.Streams.{Gets, Grows, IsCut, Stream};

/// A writer that holds what it held was not given some bytes, and was not cut short if no write failed.
pub fn nothing_is_not_given()
    ensures grows { (bytes held : List ℕ) (old new : Stream) → 0 < length bytes → old.bytes ≡ Some held → new.bytes ≡ Some held
        → Grows bytes old new → ⊥ }
    ensures cut { (bytes : List ℕ) (old new : Stream) → new.failed ≡ false → IsCut bytes old new → ⊥ }
    ensures gets { (bytes held : List ℕ) (old new : Stream) → 0 < length bytes → old.bytes ≡ Some held → new.bytes ≡ Some held
        → new.failed ≡ false → Gets bytes old new → ⊥ }
{}
