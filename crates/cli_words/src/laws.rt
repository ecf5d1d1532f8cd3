//! What the script for a shell and the manual page have.

ghost use Rattle.cli_words.specs.Template.{HasOfEach, IsOnWords};
ghost use Rattle.std.specs.Prelude.{◌∷◌, [], List, map, ℕ};

/// The script for a shell and the manual page have the name of each word of the program, in order, and the long name of
/// each flag of each word, in order. A text that lacks one is refused.
pub fn names_are_written()
    ensures words { (title text : List ℕ) → IsOnWords title text → HasOfEach (λ w. w.name.now ∷ []) text }
    ensures flags { (title text : List ℕ) → IsOnWords title text
        → HasOfEach (λ w. map (λ f. f.long.now) w.flags.now) text }
{}
