//! Files, by their names.

ghost use Rattle.cli_world.specs.Files.{Kept, Replaced};
ghost use Rattle.std.specs.Prelude.{◌≡◌, Bool, IfOk, IfSome, List, None, OnErr, OnOk, Option, true, ℕ};

use std::alloc::Global;
use std::io;

/// Files, by their names. `known` says which bytes a file has: it is `None` where nothing is claimed, as of the files of
/// a system. `may_fail` says which files may fail to be read or replaced.
pub trait Store {
    ghost known: { Self → List ℕ → Option (List ℕ) } = { λ _ _. None };

    ghost may_fail: { Self → List ℕ → Bool } = { λ _ _. true };

    /// Returns the bytes of the file.
    fn read(&self, alloc: Global, name: &str) -> io::Result<Vec<u8>>
        ensures bytes { IfOk result (λ bytes. IfSome (known self.now name.now) (λ b. bytes.items ≡ b)) }
        ensures failed { OnErr result (may_fail self.now name.now ≡ true) };

    /// Replaces the bytes of the file by the text, as a whole. If it fails, no file changes.
    fn replace(&mut self, name: &str, text: &str) -> io::Result<()>
        ensures done { OnOk result (Replaced name.now text.now (known self.old) (known self.new)) }
        ensures failed { OnErr result (Kept (known self.old) (known self.new)) }
        ensures may_fail { OnErr result (may_fail self.old name.now ≡ true) }
        ensures same { may_fail self.new ≡ may_fail self.old };
}
