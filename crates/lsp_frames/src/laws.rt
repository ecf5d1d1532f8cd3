//! Laws of frames, for proofs of callers.

ghost use Rattle.lsp_frames.specs.Calls.{Call, given_by, left_by, pushed_by};
ghost use Rattle.lsp_frames.specs.Frames.{AreFrames, AreMessages, frame_in, frame_of, is_bad};
ghost use Rattle.lsp_frames.specs.Heads.{head_end, length_of_line, line_end, lines, number, place_of};
ghost use Rattle.std.specs.Prelude.{◌≡◌, ℕ, ◌+◌, ◌^◌, ◌<◌, List, [], ◌∷◌, ◌++◌, true, false, nat_eq, length, drop, codes};
ghost use Rattle.std.specs.List.{starts_with};

/// A whole frame stays whole where more bytes follow, with its message, and it is not bad.
#[tactic(auto, using(crate::proofs::Growing::frame_append, crate::proofs::Taken::whole_is_not_bad))]
pub fn whole_frames_stay_whole()
    ensures stays { (bytes more message rest : List ℕ) → frame_in bytes ≡ Some (message, rest)
        → frame_in (bytes ++ more) ≡ Some (message, rest ++ more) }
    ensures good { (bytes message rest : List ℕ) → frame_in bytes ≡ Some (message, rest) → is_bad bytes ≡ false }
{}

/// Bad bytes stay bad where more bytes follow, and begin with no whole frame.
pub fn bad_bytes_stay_bad()
    ensures stays { (bytes more : List ℕ) → is_bad bytes ≡ true → is_bad (bytes ++ more) ≡ true }
    ensures none { (bytes more : List ℕ) → is_bad bytes ≡ true → frame_in (bytes ++ more) ≡ None }
{}

/// Bytes have one list of messages.
#[tactic(auto, using(crate::proofs::Growing::one_cut, crate::proofs::Growing::some_cut))]
pub fn messages_are_one_list()
    ensures some { (bytes : List ℕ) → (ms : List (List ℕ)) × AreMessages bytes ms }
    ensures one { (bytes : List ℕ) (ms ns : List (List ℕ)) → AreMessages bytes ms → AreMessages bytes ns → ms ≡ ns }
{}

/// After any calls of `push` and `next_message`, the bytes pushed are the frames of the messages given, and what is left. So
/// the messages given, and those of what is left, are the messages of all bytes pushed. Calls that push the same bytes, in
/// whichever parts, and take all whole frames, give the same messages.
pub fn parts_make_no_difference()
    ensures frames { (calls : List Call) → AreFrames (pushed_by calls) (given_by calls []) (left_by calls []) }
    ensures messages { (calls : List Call) (ms : List (List ℕ)) → AreMessages (left_by calls []) ms
        → AreMessages (pushed_by calls) (given_by calls [] ++ ms) }
    ensures same { (calls others : List Call) → pushed_by calls ≡ pushed_by others → frame_in (left_by calls []) ≡ None
        → frame_in (left_by others []) ≡ None → given_by calls [] ≡ given_by others [] }
{}

/// What `write_frame` writes is read as the message.
pub fn written_frames_are_read()
    ensures { (message rest : List ℕ) → length message < 2 ^ 64 → frame_in (frame_of message ++ rest) ≡ Some (message, rest) }
{}

/// The first place of a part has it, and no earlier place does.
pub fn places_are_first()
    ensures here { (part bytes : List ℕ) (n : ℕ) → place_of part bytes ≡ Some n → starts_with nat_eq (drop n bytes) part ≡ true }
    ensures before { (part bytes : List ℕ) (n k : ℕ) → place_of part bytes ≡ Some n → k < n
        → starts_with nat_eq (drop k bytes) part ≡ false }
    ensures nowhere { (part bytes : List ℕ) (k : ℕ) → place_of part bytes ≡ None → k < length bytes
        → starts_with nat_eq (drop k bytes) part ≡ false }
{}

/// Small inputs: fields in any order and names in any case, the first length that is a number, a part of a frame, a head
/// without a length, and lines, which end at no CR or LF alone.
#[tactic(auto, unfolding(crate::specs::Frames::frame_in, crate::specs::Frames::head_size, crate::specs::Frames::is_bad, crate::specs::Heads::length_in, crate::specs::Heads::length_of_line, crate::specs::Heads::lines, crate::specs::Heads::number, crate::specs::Heads::place_of))]
pub fn small_inputs_are_so()
    ensures whole { frame_in (codes "Content-Length: 1" ++ head_end ++ codes "ab") ≡ Some (codes "a", codes "b") }
    ensures fields { frame_in (codes "X: y" ++ line_end ++ codes "CONTENT-length:01 " ++ head_end ++ codes "a") ≡ Some (codes "a", []) }
    ensures first { frame_in (codes "Content-Length: x" ++ line_end ++ codes "Content-Length: 1" ++ line_end ++ codes "Content-Length: 2" ++ head_end ++ codes "ab")
        ≡ Some (codes "a", codes "b") }
    ensures part { frame_in (codes "Content-Length: 2" ++ head_end ++ codes "a") ≡ None }
    ensures goes_on { is_bad (codes "Content-Length: 2" ++ head_end ++ codes "a") ≡ false }
    ensures bad { is_bad (codes "Content-Type: 1" ++ head_end ++ codes "a") ≡ true }
    ensures empty { is_bad head_end ≡ true }
    ensures lines { lines (codes "a" ++ line_end ++ line_end ++ codes "b") ≡ codes "a" ∷ [] ∷ codes "b" ∷ [] }
    ensures bare { lines (13 ∷ 97 ∷ 10 ∷ []) ≡ (13 ∷ 97 ∷ 10 ∷ []) ∷ [] }
{}

/// What frames are not: a message is no longer than its head says and not cut short, what follows it is not the message again,
/// a head without a length may not go on, and lengths have no sign and names no spaces.
#[tactic(auto, unfolding(crate::specs::Frames::frame_in, crate::specs::Frames::head_size, crate::specs::Frames::is_bad, crate::specs::Heads::length_in, crate::specs::Heads::length_of_line, crate::specs::Heads::lines, crate::specs::Heads::number, crate::specs::Heads::place_of))]
pub fn small_inputs_are_not_so()
    ensures longer { frame_in (codes "Content-Length: 1" ++ head_end ++ codes "ab") ≡ Some (codes "ab", []) → ⊥ }
    ensures again { frame_in (codes "Content-Length: 1" ++ head_end ++ codes "ab") ≡ Some (codes "a", codes "ab") → ⊥ }
    ensures shorter { frame_in (codes "Content-Length: 2" ++ head_end ++ codes "a") ≡ Some (codes "a", []) → ⊥ }
    ensures goes_on { is_bad (codes "Content-Type: 1" ++ head_end ++ codes "a") ≡ false → ⊥ }
    ensures sign { number (codes "+1") ≡ Some 1 → ⊥ }
    ensures name { length_of_line (codes "Content-Length : 1") ≡ Some 1 → ⊥ }
    ensures none { AreMessages (codes "Content-Length: 1" ++ head_end ++ codes "ab") [] → ⊥ }
{}
