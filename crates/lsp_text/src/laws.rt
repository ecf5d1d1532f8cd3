//! Laws of positions and edits, for proofs of callers.

ghost use Rattle.lsp_text.specs.Lines.{AreEditsWithin, AreLineEdits, edits_in, is_within, line_range, lines};
ghost use Rattle.lsp_text.specs.declared.part.Lines.{Lines};
ghost use Rattle.std.specs.List.{Contains};
ghost use Rattle.lsp_text.specs.Positions.{AreWhole, IsBetween, IsExact, IsInLineEnd, Text, all_changed, edited, from_line, in_units, index, index_of_byte, line, lines_before, offset, position, size, utf16};
ghost use Rattle.lsp_text.specs.declared.position.Encoding.{Encoding};
ghost use Rattle.lsp_text.specs.declared.position.Encoding.TheVariants.{Utf8, Utf16, Utf32};
ghost use Rattle.lsp_text.specs.declared.position.Position.{Position};
ghost use Rattle.lsp_text.specs.declared.position.Range.{Range};
ghost use Rattle.std.specs.Prelude.{◌≡◌, ℕ, ◌≤◌, List, [], ◌∷◌, ◌++◌, Option, length, map, take, true};

/// The byte offset of the position of a byte offset is that byte offset, at the start of each character that is not the LF
/// of a CR LF, and at the end of the text.
pub fn offsets_come_back()
    ensures { (e : Encoding) (k : ℕ) (t : Text) → k ≤ length t → (IsInLineEnd k t → ⊥)
        → offset e (position e (index_of_byte (size Utf8 (take k t)) t) t) t ≡ size Utf8 (take k t) }
{}

/// The position of the byte offset of a position is that position, if the text has its line and the position is between
/// two characters of the line.
pub fn positions_come_back()
    ensures { (e : Encoding) (p : Position) (t : Text) → IsExact e p t → position e (index_of_byte (offset e p t) t) t ≡ p }
{}

/// The position of a character is exact, and so is that of the end of the text.
pub fn positions_are_exact()
    ensures { (e : Encoding) (k : ℕ) (t : Text) → k ≤ length t → IsExact e (position e k t) t }
{}

/// The text after some changes, in units of 16 bits, is what an editor has after it applies them to its units, if each range
/// begins and ends inside no character.
pub fn changes_are_changes_of_units()
    ensures { (cs : List (Option Range × Text)) (t : Text) → AreWhole Utf16 cs t
        → utf16 (all_changed Utf16 cs t) ≡ all_changed Utf32 (map in_units cs) (utf16 t) }
{}

/// The text after more changes is the text after them of the text after the changes before.
pub fn changes_follow_changes()
    ensures { (e : Encoding) (cs ds : List (Option Range × Text)) (t : Text)
        → all_changed e (cs ++ ds) t ≡ all_changed e ds (all_changed e cs t) }
{}

/// Small texts: CR, CR LF, U+1F600, a combining accent, positions after the end of a line and of a text, a range that ends
/// before its start, and two changes of which the second is in the text of the first.
pub fn small_texts_are_so()
    ensures cr { from_line 1 (97 ∷ 13 ∷ 98 ∷ []) ≡ 98 ∷ [] }
    ensures cr_lf { line 0 (97 ∷ 13 ∷ 10 ∷ 98 ∷ []) ≡ 97 ∷ [] }
    ensures pair { index Utf16 (record { line = 0; character = 2 }) (0x1_F600 ∷ 97 ∷ []) ≡ 1 }
    ensures bytes { index Utf8 (record { line = 0; character = 4 }) (0x1_F600 ∷ 97 ∷ []) ≡ 1 }
    ensures characters { index Utf32 (record { line = 0; character = 1 }) (0x1_F600 ∷ 97 ∷ []) ≡ 1 }
    ensures accent { index Utf16 (record { line = 0; character = 1 }) (101 ∷ 0x301 ∷ []) ≡ 1 }
    ensures line_end { index Utf16 (record { line = 0; character = 9 }) (97 ∷ 10 ∷ 98 ∷ []) ≡ 1 }
    ensures text_end { index Utf16 (record { line = 9; character = 0 }) (97 ∷ 10 ∷ 98 ∷ []) ≡ 3 }
    ensures backward { edited Utf16 (record { start = record { line = 0; character = 1 }; end = record { line = 0; character = 0 } })
        (99 ∷ []) (97 ∷ 98 ∷ []) ≡ 97 ∷ 99 ∷ 98 ∷ [] }
    ensures order { let start : Position = record { line = 0; character = 0 } in let r : Range = record { start = start; end = start } in
        all_changed Utf16 ((Some r, 98 ∷ []) ∷ (Some r, 99 ∷ []) ∷ []) (97 ∷ []) ≡ 99 ∷ 98 ∷ 97 ∷ [] }
{}

/// What lines and positions are not: CR LF ends one line, NEL ends none, no position is inside a character or a CR LF,
/// UTF-16 counts no bytes, and the byte offset inside a CR LF does not come back.
pub fn small_texts_are_not_so()
    ensures cr_lf { lines_before 2 (13 ∷ 10 ∷ []) ≡ 2 → ⊥ }
    ensures nel { lines_before 1 (0x85 ∷ []) ≡ 1 → ⊥ }
    ensures inside { index Utf16 (record { line = 0; character = 1 }) (0x1_F600 ∷ 97 ∷ []) ≡ 1 → ⊥ }
    ensures half { index Utf16 (record { line = 0; character = 1 }) (13 ∷ 10 ∷ []) ≡ 1 → ⊥ }
    ensures bytes { index Utf16 (record { line = 0; character = 2 }) (233 ∷ 97 ∷ 98 ∷ []) ≡ 1 → ⊥ }
    ensures exact { IsExact Utf16 (record { line = 0; character = 1 }) (0x1_F600 ∷ []) → ⊥ }
    ensures between { IsBetween Utf16 (record { line = 0; character = 1 }) (0x1_F600 ∷ []) → ⊥ }
    ensures back { offset Utf8 (position Utf8 1 (13 ∷ 10 ∷ [])) (13 ∷ 10 ∷ []) ≡ 1 → ⊥ }
{}

/// What edits of whole lines are not: none where a line differs, one that begins with a line that stays, one that begins
/// inside a line.
pub fn line_edits_are_not_so()
    ensures none { (e : Encoding) → AreLineEdits e (97 ∷ []) 0 ((97 ∷ []) ∷ []) ((98 ∷ []) ∷ []) [] → ⊥ }
    ensures same { (e : Encoding) → AreLineEdits e (97 ∷ 10 ∷ 98 ∷ 10 ∷ []) 0 ((97 ∷ 10 ∷ []) ∷ (98 ∷ 10 ∷ []) ∷ []) ((97 ∷ 10 ∷ []) ∷ (99 ∷ 10 ∷ []) ∷ [])
        ((record { start = record { line = 0; character = 0 }; end = record { line = 2; character = 0 } }, 97 ∷ 10 ∷ 99 ∷ 10 ∷ []) ∷ []) → ⊥ }
    ensures inside { AreLineEdits Utf16 (97 ∷ 98 ∷ []) 0 ((97 ∷ 98 ∷ []) ∷ []) ((97 ∷ 99 ∷ []) ∷ [])
        ((record { start = record { line = 0; character = 1 }; end = record { line = 0; character = 2 } }, 99 ∷ []) ∷ []) → ⊥ }
{}

/// What edits within some lines are: some of the edits of whole lines. Where the first line that differs is within them, it is
/// an edit of its own, if the next line stays, the new text lacks the old line, and the old text lacks the new one.
pub fn edits_within_are_so()
    ensures some { (e : Encoding) (ls : Lines) (old new : Text) (ds : List (Range × Text)) → AreEditsWithin e ls old new ds
        → (all : List (Range × Text)) × AreLineEdits e old 0 (lines old) (lines new) all × (ds ≡ edits_in ls all) }
    ensures line { (e : Encoding) (ls : Lines) (old new : Text) (front u v : List Text) (a b s : Text) (ds : List (Range × Text))
        → lines old ≡ front ++ (a ∷ s ∷ u) → lines new ≡ front ++ (b ∷ s ∷ v)
        → (Contains (lines new) a → ⊥) → (Contains (lines old) b → ⊥) → is_within ls (line_range e (length front) 1 old) ≡ true
        → AreEditsWithin e ls old new ds → Contains ds (line_range e (length front) 1 old, b) }
{}

/// What edits within some lines are not: none if a line within them differs, even if one after a line that stays differs
/// too, and one of a line outside.
pub fn edits_within_are_not_so()
    ensures none { AreEditsWithin Utf16 (record { first = 0; end = 1 }) (97 ∷ []) (98 ∷ []) [] → ⊥ }
    ensures lost { AreEditsWithin Utf16 (record { first = 0; end = 1 }) (97 ∷ 10 ∷ 98 ∷ 10 ∷ 99 ∷ []) (65 ∷ 10 ∷ 98 ∷ 10 ∷ 67 ∷ []) [] → ⊥ }
    ensures outside { AreEditsWithin Utf16 (record { first = 1; end = 1 }) (97 ∷ []) (98 ∷ [])
        ((record { start = record { line = 0; character = 0 }; end = record { line = 0; character = 1 } }, 98 ∷ []) ∷ []) → ⊥ }
{}
