//! Reading a text character by character.

ghost use Rattle.lsp_text.specs.Positions as spec;
ghost use Rattle.std.specs.Prelude.{◌≡◌, ◌∷◌, [], IfSome, MatchOption, chars};
ghost use Rattle.std.specs.Str.{IsUtf8};

/// Returns the first character, and the text after it.
pub(crate) fn split_first(text: &str) -> Option<(char, &str)>
    ensures parts { MatchOption result (chars text.now ≡ []) (λ (c, rest). chars text.now ≡ c ∷ chars rest.now) }
    ensures utf8 { IfSome result (λ (c, rest). IsUtf8 rest.now) }
{
    let mut chars = text.chars();
    match chars.next() {
        Some(c) => Some((c, chars.as_str())),
        None => None,
    }
}

/// Returns whether the text begins with a line feed.
fn begins_feed(text: &str) -> bool
    ensures { result ≡ spec.begins_feed (chars text.now) }
{
    match split_first(text) {
        Some((c, _)) => c == '\n',
        None => false,
    }
}

/// Returns whether the character ends a line, given the text after it.
pub(crate) fn ends_line(c: char, rest: &str) -> bool
    ensures { result ≡ spec.ends_line c (chars rest.now) }
{
    c == '\n' || (c == '\r' && !begins_feed(rest))
}
