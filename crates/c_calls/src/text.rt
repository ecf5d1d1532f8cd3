//! Texts that are written into the caller's buffers.

ghost use Rattle.c_calls.specs.Strings.{HasPut, words_of};
ghost use Rattle.c_calls.specs.Says.{Grown, IsBytes};
ghost use Rattle.std.specs.Prelude.{◌≡◌, ◌++◌, ◌≤◌, ◌+◌, ◌<◌, ◌∷◌, [], ℕ, List, length, drop, option_copied, take};
ghost use Rattle.kdl_text.specs.Spans.{raise};

use crate::status::{OK, TOO_SMALL};

/// Writes a text at the start of `out`, and sets `needed` to its length.
///
/// If the text does not fit, returns `TOO_SMALL`, and leaves `out` unchanged.
pub fn put_text(text: &str, out: &mut [u8], needed: &mut usize) -> u32
    ensures whole { needed.new ≡ length text.now }
    ensures fits { result ≡ 0 → out.new ≡ text.now ++ drop (length text.now) out.old }
    ensures room { length text.now ≤ length out.old → result ≡ 0 }
    ensures small { length out.old < length text.now → result ≡ 4 }
    ensures kept { length out.old < length text.now → out.new ≡ out.old }
    ensures either { (result ≡ 0 → ⊥) → result ≡ 4 }
{
    let bytes = text.as_bytes();
    *needed = bytes.len();
    if out.len() < bytes.len() {
        return TOO_SMALL;
    }
    let (head, _) = out.split_at_mut(bytes.len());
    head.copy_from_slice(bytes);
    OK
}

/// The place of a string among the strings.
#[derive(Clone, Copy)]
pub struct Place {
    /// The index of the first byte.
    pub start: usize,
    /// The number of bytes.
    pub len: usize,
}

/// Appends a string to the first `used` bytes of `strings`, and returns its place.
///
/// Adds the length of the string to `used`, up to `usize::MAX`. If the string does not fit, its length is added all the
/// same, and `strings` is unchanged.
pub fn put_string(text: &str, strings: &mut [u8], used: &mut usize) -> Place
    ensures start { result.start ≡ used.old }
    ensures len { result.len ≡ length text.now }
    ensures more { used.old ≤ used.new }
    ensures fits { used.new ≤ length strings.old → used.new ≡ used.old + length text.now }
    ensures written { used.new ≤ length strings.old → strings.new ≡
        take used.old strings.old ++ text.now ++ drop used.new strings.old }
    ensures grown { Grown strings.old used.old strings.new used.new }
    ensures bytes { used.new ≤ length strings.old
        → IsBytes (take used.new strings.new) result.start result.len text.now }
    ensures counted { used.new ≡ raise used.old (length text.now) }
    ensures kept { length strings.old < used.new → strings.new ≡ strings.old }
    ensures put { (before : List ℕ) (ts : List (List ℕ)) → HasPut before ts strings.old used.old
        → HasPut before (ts ++ text.now ∷ []) strings.new used.new }
{
    let bytes = text.as_bytes();
    let place = Place {
        start: *used,
        len: bytes.len(),
    };
    *used = used.saturating_add(bytes.len());
    if *used <= strings.len() {
        let (head, _) = strings.split_at_mut(*used);
        let (_, room) = head.split_at_mut(place.start);
        room.copy_from_slice(bytes);
    }
    place
}

/// Appends a string as `put_string` does, or an empty string if there is none.
pub fn put_words(words: Option<&String>, strings: &mut [u8], used: &mut usize) -> Place
    ensures start { result.start ≡ used.old }
    ensures len { result.len ≡ length (words_of (option_copied words.entry)) }
    ensures counted { used.new ≡ raise used.old (length (words_of (option_copied words.entry))) }
    ensures more { used.old ≤ used.new }
    ensures within { used.new ≤ length strings.old → result.start + result.len ≤ used.new }
    ensures put { (before : List ℕ) (ts : List (List ℕ)) → HasPut before ts strings.old used.old
        → HasPut before (ts ++ words_of (option_copied words.entry) ∷ []) strings.new used.new }
{
    match words {
        Some(words) => put_string(words.as_str(), strings, used),
        None => put_string("", strings, used),
    }
}
