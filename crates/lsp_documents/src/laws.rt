//! Laws of notes and documents, for proofs of callers.

ghost use Rattle.json.specs.Json.{Json, null, number, string, array, object, Items, no_items, item, no_members, member};
ghost use Rattle.lsp_documents.specs.Notes.{Agrees, AreChanges, Changed, Closed, IsNatural, IsRangeIf, Note, Opened, Tells, Texts};
ghost use Rattle.lsp_documents.specs.Outcomes.{IsDue, IsSo, IsTaken, MarksDue, SaysUnknown, StaysOpen, UnnamedStay};
ghost use Rattle.lsp_documents.specs.States.{IsKnown, document_at};
ghost use Rattle.lsp_documents.specs.declared.notify.Outcome.{Outcome};
ghost use Rattle.lsp_documents.specs.declared.notify.Outcome.TheVariants as outcome;
ghost use Rattle.lsp_documents.specs.declared.state.Document.{Document};
ghost use Rattle.lsp_documents.specs.declared.state.State.{State};
ghost use Rattle.lsp_text.specs.Positions.{Text};
ghost use Rattle.lsp_text.specs.declared.position.Range.{Range};
ghost use Rattle.std.specs.Borrow.{Bor};
ghost use Rattle.std.specs.Global.{Global};
ghost use Rattle.std.specs.Prelude.{◌≡◌, ◌≢◌, ℕ, List, [], ◌∷◌, Option, None, Some, IsNone, IsSome, String, chars, codes, string_bytes};

/// What notifications do not tell: `null` names no document, `didOpen` closes none, and other methods tell nothing.
pub fn notes_are_not_so()
    ensures null { (method : List ℕ) (note : Note) → Tells method null note → ⊥ }
    ensures opened { (params : Json) (uri : List ℕ) → Tells (codes "textDocument/didOpen") params (Closed uri) → ⊥ }
    ensures exit { (params : Json) (note : Note) → Tells (codes "exit") params note → ⊥ }
{}

/// What values are not changes: fewer or more than the changes, and those in another order. `null` is no range, and a number
/// or an array is neither a range nor the lack of one.
pub fn changes_are_not_so()
    ensures fewer { (change : Option Range × Text) (changes : List (Option Range × Text)) → AreChanges no_items (change ∷ changes) → ⊥ }
    ensures more { (value : Json) (values : Items) → AreChanges (item value values) [] → ⊥ }
    ensures order { AreChanges (item (object (member (codes "text") (string (codes "a")) no_members))
        (item (object (member (codes "text") (string (codes "b")) no_members)) no_items))
        ((None, codes "b") ∷ (None, codes "a") ∷ []) → ⊥ }
    ensures null { (range : Range) → IsRangeIf (Some null) (Some range) → ⊥ }
    ensures number { (digits : List ℕ) (range : Option Range) → IsRangeIf (Some (number digits)) range → ⊥ }
    ensures array { (values : Items) (range : Option Range) → IsRangeIf (Some (array values)) range → ⊥ }
{}

/// Numbers with a point or an exponent are whole numbers, or none.
pub fn numbers_are_so()
    ensures whole { IsNatural (codes "1") 1 × IsNatural (codes "1.0") 1 × IsNatural (codes "1e0") 1 × IsNatural (codes "10e-1") 1 × IsNatural (codes "1.5E+1") 15 }
    ensures half { (n : ℕ) → IsNatural (codes "1.5") n → ⊥ }
    ensures negative { (n : ℕ) → IsNatural (codes "-1") n → ⊥ }
{}

/// What states are not: one with another text than the client's does not agree with it; a document that is not open, or
/// without a text, is not known.
pub fn states_are_not_so()
    ensures agrees { (s : State) (texts : Texts) (uri : List ℕ) (document : Document) (text : String Global)
        → document_at s uri ≡ Some document → document.text ≡ Some text → chars (string_bytes text) ≢ texts uri → Agrees s texts → ⊥ }
    ensures none { (s : State) (uri : List ℕ) → IsNone (document_at s uri) → IsKnown s uri → ⊥ }
    ensures unknown { (s : State) (uri : List ℕ) (document : Document) → document_at s uri ≡ Some document → IsNone document.text
        → IsKnown s uri → ⊥ }
{}

/// What becomes of no document: one that is opened or changed is not closed, one that is closed is not open, and one that the
/// parameters do not name is not closed. That another text is
/// not known does not count. A server does not say that a known text is not known, that an open document is
/// closed, or anything of a document that the parameters do not name.
pub fn outcomes_are_not_so()
    ensures opened { (old new : State) (uri : List ℕ) (text : Text) → IsNone (document_at new uri)
        → IsTaken old new (SaysUnknown outcome.Nothing) (Opened uri text) → ⊥ }
    ensures changed { (old new : State) (uri : List ℕ) (changes : List (Option Range × Text)) → IsSome (document_at old uri)
        → IsNone (document_at new uri) → IsTaken old new (SaysUnknown outcome.Nothing) (Changed uri changes) → ⊥ }
    ensures other { (old new : State) (uri : List ℕ) (named : Bor (List ℕ)) (text : Text) → named.now ≢ uri → IsNone (document_at new uri)
        → IsTaken old new (SaysUnknown (outcome.Unknown named)) (Opened uri text) → ⊥ }
    ensures stays { (old new : State) (uri : List ℕ) → IsSome (document_at old uri) → IsNone (document_at new uri)
        → StaysOpen old new uri → ⊥ }
    ensures opens { (old new : State) (uri : List ℕ) → IsNone (document_at old uri) → IsSome (document_at new uri)
        → StaysOpen old new uri → ⊥ }
    ensures closed { (old new : State) (said : Outcome) (uri : List ℕ) → IsSome (document_at new uri)
        → IsTaken old new (SaysUnknown said) (Closed uri) → ⊥ }
    ensures unnamed { (old new : State) (uri : List ℕ) → IsSome (document_at old uri) → IsNone (document_at new uri)
        → UnnamedStay old new null → ⊥ }
    ensures unknown { (s : State) (uri : Bor (List ℕ)) (params : Json) → IsKnown s uri.now → IsSo (outcome.Unknown uri) params s → ⊥ }
    ensures none { (s : State) (uri : Bor (List ℕ)) (params : Json) → IsSome (document_at s uri.now) → IsSo (outcome.Closed uri) params s → ⊥ }
    ensures null { (s : State) (uri : Bor (List ℕ)) → IsSo (outcome.Unknown uri) null s → ⊥ }
{}

/// Where no document is due, none is marked as due.
pub fn due_documents_are_not_so()
    ensures none { (s : State) (uri : List ℕ) → s.due.items ≡ [] → IsDue s uri → ⊥ }
    ensures opened { (old new : State) (uri : List ℕ) (text : Text) → new.due.items ≡ [] → MarksDue old new (SaysUnknown outcome.Nothing) (Opened uri text) → ⊥ }
{}
