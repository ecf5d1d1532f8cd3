//! Laws of places, for proofs of callers.

ghost use Rattle.json.specs.Token.{string};
ghost use Rattle.kdl_report.specs.Hints.{hint_at, keyword_hint, raw_string_hint, sign_hint};
ghost use Rattle.kdl_report.specs.Object.{number_member, or_null, text_member};
ghost use Rattle.kdl_report.specs.Places.{IsLine, column, line_at, line_number, newlines};
ghost use Rattle.kdl_report.specs.Rows.{first_row, last_row};
ghost use Rattle.kdl_report.specs.Shown.{carets, shown};
ghost use Rattle.kdl_report.specs.Windows.{cut_row, left_part, right_part, room, rooms};
ghost use Rattle.kdl_text.specs.Chars.{Text};
ghost use Rattle.kdl_text.specs.declared.span.SourceSpan.{SourceSpan};
ghost use Rattle.std.specs.Prelude.{◌≡◌, ◌≤◌, ◌/◌, ℕ, List, [], ◌∷◌, ◌++◌, None, Some, codes};

/// The line of a byte is a line of the text, and its number is that of the line.
pub fn line_of_a_byte_is_a_line()
    ensures { (n : ℕ) (t : Text) → IsLine t (line_at n t) (line_number n t) }
{}

/// The lines that are shown for a span are lines of the text, with their numbers.
pub fn shown_lines_are_lines()
    ensures first { (span : SourceSpan) (t : Text) → IsLine t (first_row span t).line (first_row span t).number }
    ensures last { (span : SourceSpan) (t : Text) → IsLine t (last_row span t).line (last_row span t).number }
{}

/// A line that is shown begins with what is left of its mark, and then with what is marked.
pub fn marks_are_parts_of_lines()
    ensures first { (span : SourceSpan) (t : Text) → (right : Text)
        × ((first_row span t).line ≡ (first_row span t).left ++ (first_row span t).marked ++ right) }
    ensures last { (span : SourceSpan) (t : Text) → (right : Text)
        × ((last_row span t).line ≡ (last_row span t).left ++ (last_row span t).marked ++ right) }
{}

/// A line with room in n columns is shown as it is. Of another one a part is shown that has room there: the end of what
/// is left of the mark, and the front of the line from the mark on, with its first character.
pub fn lines_are_cut_around_marks()
    ensures short { (n number : ℕ) (left marked right : Text) → rooms (left ++ (marked ++ right)) ≤ n
        → cut_row n (record { number = number; line = left ++ (marked ++ right); left = left; marked = marked })
        ≡ record { number = number; line = left ++ (marked ++ right); left = left; marked = marked } }
    ensures fits { (n : ℕ) (left right : Text) → rooms (left_part n left right ++ right_part n left right) ≤ n }
    ensures left { (n : ℕ) (left right : Text) → (before : Text) × (left ≡ before ++ left_part n left right) }
    ensures right { (n : ℕ) (left right : Text) → (after : Text) × (right ≡ right_part n left right ++ after) }
    ensures first { (n c : ℕ) (left right : Text) → room c ≤ n / 2
        → (after : Text) × (right_part n left (c ∷ right) ≡ c ∷ after) }
{}

/// How small lines are cut to 4 columns: `…efgh…` for `abcdefghijkl` around `g`, and `xyz…` around `x` for `xyz` before a
/// tab, which takes four columns.
pub fn small_lines_are_cut_so()
    ensures both { cut_row 4 (record { number = 1; line = codes "abcdefghijkl"; left = codes "abcdef"; marked = codes "ghi" })
        ≡ record { number = 1; line = 0x2026 ∷ codes "efgh" ++ 0x2026 ∷ []; left = 0x2026 ∷ codes "ef"; marked = codes "gh" } }
    ensures wide { cut_row 4 (record { number = 1; line = codes "xyz" ++ 9 ∷ []; left = []; marked = codes "x" })
        ≡ record { number = 1; line = codes "xyz" ++ 0x2026 ∷ []; left = []; marked = codes "x" } }
{}

/// What places are not, on small texts: a CR LF is not two newlines, a column does not count bytes, a line has no newline,
/// no escape is shown, and an empty mark is not without a caret.
pub fn small_texts_are_not_so()
    ensures newlines { newlines (13 ∷ 10 ∷ []) ≡ 2 → ⊥ }
    ensures column { column 2 (233 ∷ 97 ∷ []) ≡ 3 → ⊥ }
    ensures line { line_at 0 (97 ∷ 10 ∷ []) ≡ 97 ∷ 10 ∷ [] → ⊥ }
    ensures shown { shown (27 ∷ []) ≡ 27 ∷ [] → ⊥ }
    ensures carets { carets [] ≡ [] → ⊥ }
{}

/// What hints are not, on small texts: a keyword of KDL 1 is not without one, another word has none, and nor has a raw
/// string without a quote; `[` has not that of `=`.
pub fn small_hints_are_not_so()
    ensures keyword { keyword_hint (codes "true") ≡ None → ⊥ }
    ensures word { (h : List ℕ) → keyword_hint (codes "treu") ≡ Some h → ⊥ }
    ensures raw { (h : List ℕ) → raw_string_hint (codes "r#1") ≡ Some h → ⊥ }
    ensures sign { sign_hint (codes "[") ≡ sign_hint (codes "=") → ⊥ }
    ensures some { hint_at (codes "=") ≡ None → ⊥ }
{}

/// What the members of an object are not: null is not a text, a text is not left out, and a number is not a text.
pub fn small_objects_are_not_so()
    ensures null { or_null None ≡ string (codes "null") → ⊥ }
    ensures text { text_member (codes "help") (Some []) ≡ text_member (codes "help") None → ⊥ }
    ensures number { (name text : List ℕ) (n : ℕ) → number_member name n ≡ text_member name (Some text) → ⊥ }
{}
