//! Members of the parameters of a message.

ghost use Rattle.json.specs.Find.{get};
ghost use Rattle.json.specs.Value.{items_view, value_view};
ghost use Rattle.lsp_documents.specs.Notes as spec;
ghost use Rattle.lsp_documents.specs.Notes.{AreChanges, HasChanges, IsChange, IsNatural, IsNumber, IsPosition, IsRange, text_of, uri_of};
ghost use Rattle.lsp_text.specs.Positions.{Text, change_of};
ghost use Rattle.std.specs.Prelude.{◌≡◌, ◌↔◌, ℕ, List, Option, Some, IfOk, IfSome, IsSome, IsSomeAnd, chars, codes, map, option_map};

use fast_float::Numeral;
use json::Value;
use lsp_text::{Change, Encoding, Position, Range};
use std::alloc::{AllocError, Global};

/// Returns a member of a member.
pub fn at<'v, 'a>(value: &'v Value<'a>, outer: &str, inner: &str) -> Option<&'v Value<'a>>
    ensures { option_map (λ v. value_view v.now) result ≡ spec.at outer.now inner.now (value_view value.now) }
{
    value.get(outer)?.get(inner)
}

/// Returns the URI of the document.
pub fn uri<'a>(params: &Value<'a>) -> Option<&'a str>
    ensures { option_map (λ s. s.now) result ≡ uri_of (value_view params.now) }
{
    at(params, "textDocument", "uri")?.as_str()
}

/// Returns the text of the document.
pub fn text<'a>(params: &Value<'a>) -> Option<&'a str>
    ensures { option_map (λ s. s.now) result ≡ text_of (value_view params.now) }
{
    at(params, "textDocument", "text")?.as_str()
}

/// Returns the version of the document, if there is one.
pub fn version(params: &Value<'_>) -> Option<i64> {
    let text = at(params, "textDocument", "version")?.as_number()?;
    match text.strip_prefix("-") {
        Some(digits) => Numeral::scan(digits.as_bytes()).whole_i64(true),
        None => Numeral::scan(text.as_bytes()).whole_i64(false),
    }
}

/// Returns the first encoding of the client that there is, or UTF-16.
pub fn encoding(params: &Value<'_>) -> Encoding {
    match first_encoding(params) {
        Some(encoding) => encoding,
        None => Encoding::Utf16,
    }
}

/// Returns the first encoding of the client that there is.
fn first_encoding(params: &Value<'_>) -> Option<Encoding> {
    let names = at(params, "capabilities", "general")?.get("positionEncodings")?;
    match names {
        Value::Array(names) => names.iter().find_map(encoding_named),
        _ => None,
    }
}

/// Returns the encoding of that name.
fn encoding_named(name: &Value<'_>) -> Option<Encoding> {
    match name.as_str()? {
        "utf-8" => Some(Encoding::Utf8),
        "utf-16" => Some(Encoding::Utf16),
        "utf-32" => Some(Encoding::Utf32),
        _ => None,
    }
}

/// Returns the whole number that a member is, also one with a point or an exponent, as `1.0` or `10e-1`.
pub fn number(value: &Value<'_>, name: &str) -> Option<usize>
    ensures number { IfSome result (λ n. IsNumber name.now (value_view value.now) n) }
    ensures each { (n : ℕ) → IsNumber name.now (value_view value.now) n → result ≡ Some n }
{
    usize::try_from(natural(value.get(name)?.as_number()?)?).ok()
}

/// Returns the whole number that the text of a number of JSON is.
fn natural(text: &str) -> Option<u64>
    ensures { (n : ℕ) → IsNatural text.now n ↔ (result ≡ Some n) }
{
    let numeral = Numeral::scan(text.as_bytes());
    if numeral.has_digits() {
        numeral.whole_u64()
    } else {
        None
    }
}

/// Returns the position that a value is.
pub fn position(value: &Value<'_>) -> Option<Position>
    ensures position { IfSome result (λ position. IsPosition (value_view value.now) position) }
    ensures each { (position : Position) → IsPosition (value_view value.now) position → result ≡ Some position }
{
    Some(Position {
        line: number(value, "line")?,
        character: number(value, "character")?,
    })
}

/// Returns the range of a request.
pub fn range(params: &Value<'_>) -> Option<Range>
    ensures range { IfSome result (λ range. IsSomeAnd (get (codes "range") (value_view params.now)) (λ j. IsRange j range)) }
    ensures each { (range : Range) → IsSomeAnd (get (codes "range") (value_view params.now)) (λ j. IsRange j range)
        → result ≡ Some range }
{
    range_of(params.get("range")?)
}

/// Returns the range that a value is.
fn range_of(value: &Value<'_>) -> Option<Range>
    ensures range { IfSome result (λ range. IsRange (value_view value.now) range) }
    ensures each { (range : Range) → IsRange (value_view value.now) range → result ≡ Some range }
{
    Some(Range {
        start: position(value.get("start")?)?,
        end: position(value.get("end")?)?,
    })
}

/// A change whose text is borrowed.
#[derive(Clone, Copy)]
struct Replacement<'a> {
    range: Option<Range>,
    text: &'a str,
}

/// Returns the change that a value is.
fn edit<'a>(value: &Value<'a>) -> Option<Replacement<'a>>
    ensures change { IfSome result (λ edit. IsChange (value_view value.now) (edit.range, chars edit.text.now)) }
    ensures each { (change : Option Range × Text) → IsChange (value_view value.now) change → IsSome result }
{
    let text = value.get("text")?.as_str()?;
    match value.get("range") {
        None | Some(Value::Null) => Some(Replacement { range: None, text }),
        Some(value) => Some(Replacement {
            range: Some(range_of(value)?),
            text,
        }),
    }
}

/// Returns the changes of a `didChange`, or `None` if there are values that are none.
pub fn changes(alloc: Global, params: &Value<'_>) -> Result<Option<Vec<Change>>, AllocError>
    ensures changes { IfOk result (λ found. IfSome found (λ changes.
        HasChanges (value_view params.now) (map change_of changes.items))) }
    ensures each { IfOk result (λ found. (changes : List (Option Range × Text))
        → HasChanges (value_view params.now) changes → IsSome found) }
{
    let Some(Value::Array(values)) = params.get("contentChanges") else {
        return Ok(None);
    };
    changes_of(alloc, values)
}

/// Returns the changes that values are, or `None` if one is none.
fn changes_of(alloc: Global, values: &[Value<'_>]) -> Result<Option<Vec<Change>>, AllocError>
    ensures changes { IfOk result (λ found. IfSome found (λ changes.
        AreChanges (items_view values.now) (map change_of changes.items))) }
    ensures each { IfOk result (λ found. (changes : List (Option Range × Text))
        → AreChanges (items_view values.now) changes → IsSome found) }
{
    let mut changes = Vec::with_capacity(alloc, values.len())?;
    for value in values {
        let Some(Replacement { range, text }) = edit(value) else {
            return Ok(None);
        };
        let text = String::from_str(alloc, text)?;
        changes.push(Change { range, text })?;
    }
    Ok(Some(changes))
}
