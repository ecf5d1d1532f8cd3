//! Hints where a text looks like KDL 1 or another format.

ghost use Rattle.kdl_report.specs.Hints as hints;
ghost use Rattle.kdl_report.specs.Hints.{hint_at, hint_of, word};
ghost use Rattle.kdl_text.specs.Chars.{begins};
ghost use Rattle.std.specs.Prelude.{◌≡◌, ◌++◌, chars, option_map};

use crate::places::{cut, rest_at, split_first};
use kdl_text::chars::is_identifier_char;
use kdl_text::error::KdlDiagnostic;

/// Returns a hint on the fault of a text, if what it marks looks like KDL 1 or like another format:
///
/// - a bare `true`, `false`, `null`, `nan` or `inf`, which is a keyword only after `#`;
/// - a raw string of KDL 1, `r"..."` or `r#"..."#`, whose `r` has to go;
/// - `=` after a node's name, as in `port = 8080`;
/// - `[`, as in `[1 2]` or `[section]`;
/// - a comment that begins with `#`.
pub fn hint(text: &str, fault: &KdlDiagnostic) -> Option<&'static str>
    ensures { option_map (λ s. s.now) result ≡ hint_of (chars text.now) fault.now }
{
    hint_on(rest_at(text, fault.span.offset))
}

/// The hint on a text that begins with what is marked.
pub(crate) fn hint_on(marked: &str) -> Option<&'static str>
    ensures { option_map (λ s. s.now) result ≡ hint_at (chars marked.now) }
{
    keyword_hint(first_word(marked))
        .or(raw_string_hint(marked))
        .or(sign_hint(marked))
}

/// The bare string at the front of the text.
fn first_word(text: &str) -> &str
    ensures { chars result.now ≡ word (chars text.now) }
{
    cut(text, after_word(text))
}

/// The text after the bare string at its front.
fn after_word(text: &str) -> &str
    ensures { chars text.now ≡ word (chars text.now) ++ chars result.now }
{
    let mut rest = text;
    while let Some((c, after)) = split_first(rest) {
        if !is_identifier_char(c) {
            break;
        }
        rest = after;
    }
    rest
}

/// The text after the `#` at its front.
fn after_hashes(text: &str) -> &str
    ensures { chars result.now ≡ hints.after_hashes (chars text.now) }
{
    let mut rest = text;
    while let Some((c, after)) = split_first(rest) {
        if c != '#' {
            break;
        }
        rest = after;
    }
    rest
}

/// Whether the text begins with the character.
fn begins_with(text: &str, c: char) -> bool
    ensures { result ≡ begins c (chars text.now) }
{
    match split_first(text) {
        Some((first, _)) => first == c,
        None => false,
    }
}

/// The hint for a keyword of KDL 1.
fn keyword_hint(word: &str) -> Option<&'static str>
    ensures { option_map (λ s. s.now) result ≡ hints.keyword_hint (chars word.now) }
{
    match word {
        "true" => Some("write '#true' for the boolean, or '\"true\"' for the string"),
        "false" => Some("write '#false' for the boolean, or '\"false\"' for the string"),
        "null" => Some("write '#null' for no value, or '\"null\"' for the string"),
        "nan" => Some("write '#nan' for the number, or '\"nan\"' for the string"),
        "inf" => Some("write '#inf' for the number, or '\"inf\"' for the string"),
        "-inf" => Some("write '#-inf' for the number, or '\"-inf\"' for the string"),
        _ => None,
    }
}

/// The hint for a raw string of KDL 1.
fn raw_string_hint(text: &str) -> Option<&'static str>
    ensures { option_map (λ s. s.now) result ≡ hints.raw_string_hint (chars text.now) }
{
    let (first, rest) = split_first(text)?;
    if first == 'r' && begins_with(after_hashes(rest), '"') {
        Some("write '#\"...\"#' for a raw string, without 'r'")
    } else {
        None
    }
}

/// The hint for a sign that begins no value.
fn sign_hint(text: &str) -> Option<&'static str>
    ensures { option_map (λ s. s.now) result ≡ hints.sign_hint (chars text.now) }
{
    let (first, rest) = split_first(text)?;
    if first == '=' {
        return Some(
            "write 'name value' for a node, without '=', and 'name key=value' for a property",
        );
    }
    if first == '[' {
        return Some("write 'name 1 2' for several values, and 'name { ... }' for a section");
    }
    if first == '#' && begins_with(rest, ' ') {
        return Some("write '// ...' for a comment");
    }
    None
}
