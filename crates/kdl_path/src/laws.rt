//! Laws of edits, for proofs of callers.

ghost use Rattle.kdl.specs.Words.{IsDocument, Nodes, Text, Value};
ghost use Rattle.c_calls.specs.Entries.{IsValueText};
ghost use Rattle.kdl_path.specs.Edits.{IsMadeAt, IsSetAt};
ghost use Rattle.kdl_path.specs.PathText.{argument, path_says};
ghost use Rattle.kdl_path.specs.Paths.{at_path};
ghost use Rattle.kdl_path.specs.declared.path.Path.{Path};
ghost use Rattle.std.specs.Prelude.{◌≡◌, ◌∷◌, [], None, Some, codes};

/// What setting a value is not: of the two equal values in `a 1 1`, the second is exchanged for `0x1`, and the PATH is
/// `a#0`.
#[tactic(auto, using(crate::proofs::Elsewhere::equal_bytes_elsewhere_are_not_set))]
pub fn equal_bytes_elsewhere_are_not_set()
    ensures { (p : Path) → path_says p ≡ record { steps = record { name = codes "a"; index = None } ∷ []; target = argument 0 }
        → IsSetAt p (codes "0x1") (codes "a 1 1\n") (codes "a 1 0x1\n") → ⊥ }
{}

/// Nor is it an exchange of the same bytes in a comment: in `a 1 // 1`, those after `//`.
#[tactic(auto, using(crate::proofs::Elsewhere::bytes_in_a_comment_are_not_set))]
pub fn bytes_in_a_comment_are_not_set()
    ensures { (p : Path) → path_says p ≡ record { steps = record { name = codes "a"; index = None } ∷ []; target = argument 0 }
        → IsSetAt p (codes "0x1") (codes "a 1 // 1\n") (codes "a 1 // 0x1\n") → ⊥ }
{}

/// A value that was missing and is made is found in the new text, so that the text itself is not one in which it is made.
pub fn made_value_is_found()
    ensures found { (p : Path) (given text out : Text) (x y : Nodes) → IsMadeAt p given text out
        → IsDocument text x → IsDocument out y → (v : Value) × IsValueText given v × (at_path p y ≡ Some v) }
    ensures unchanged { (p : Path) (given text : Text) (x : Nodes) → IsMadeAt p given text text
        → IsDocument text x → at_path p x ≡ None → ⊥ }
{}
