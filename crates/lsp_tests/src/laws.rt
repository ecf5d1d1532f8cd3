//! Laws of messages and notes, one after another.

ghost use Rattle.lsp_documents.specs.Notes.{Note};
ghost use Rattle.lsp_tests.specs.Told.{TellAll};
ghost use Rattle.std.specs.Prelude.{ℕ, List, [], ◌∷◌};

/// What lists of messages are not: fewer or more than the notes, or the empty text at the place of a note.
pub fn tellings_are_not_so()
    ensures fewer { (note : Note) (notes : List Note) → TellAll [] (note ∷ notes) → ⊥ }
    ensures more { (message : List ℕ) (messages : List (List ℕ)) → TellAll (message ∷ messages) [] → ⊥ }
    ensures empty { (messages : List (List ℕ)) (note : Note) (notes : List Note) → TellAll ([] ∷ messages) (note ∷ notes) → ⊥ }
{}
