//! Formatting.

ghost use Rattle.json.specs.Print.{print};
ghost use Rattle.json.specs.Value.{value_view};
ghost use Rattle.lsp.specs.Contents.{IsFormatted, IsRangeFormatted};
ghost use Rattle.lsp.specs.Formatting.{HasSize, IsFormatting, IsIndent, IsLaidOut, IsLaidOutOtherwise, IsLinesFormatting, IsPartTo, edits_tokens};
ghost use Rattle.lsp.specs.Replies.{IsSomeJson};
ghost use Rattle.std.specs.Prelude.{◌≡◌, ◌⊎◌, ◌++◌, [], ℕ, Err, IfOk, IfSome, MatchBool, OnOk, Some, string_bytes};

use crate::layout::laid_out;
use crate::write::{Out, Wrong, begin, end, null_json, put_edit};
use json::Value;
use lsp_documents::params::{at, number, range};
use lsp_text::{Edit, Encoding, Lines, edits, edits_within};
use std::alloc::{AllocError, Global};

/// Returns how many spaces a level is indented by, or `None` for a tab: as the options of the client say, or 4.
fn indent(params: &Value<'_>) -> Option<usize>
    ensures { IsIndent (value_view params.now) result }
{
    let spaces = at(params, "options", "insertSpaces").and_then(Value::as_bool);
    if spaces == Some(false) {
        return None;
    }
    match tab_size(params) {
        Some(size) => Some(size.min(64)),
        None => Some(4),
    }
}

/// Returns the size of a tab that the options of the client have.
fn tab_size(params: &Value<'_>) -> Option<usize>
    ensures size { IfSome result (HasSize (value_view params.now)) }
    ensures each { (size : ℕ) → HasSize (value_view params.now) size → result ≡ Some size }
{
    number(params.get("options")?, "tabSize")
}

/// Returns the edits that lay a text out, as the options of the client say.
pub(crate) fn formatting(
    alloc: Global,
    params: &Value<'_>,
    text: &str,
    encoding: Encoding,
) -> Result<String, Wrong>
    ensures edits { (result ≡ Err Wrong.Memory) ⊎ IsFormatted encoding (value_view params.now) text.now result }
    ensures json { IfOk result IsSomeJson }
{
    Ok(layout_edits(alloc, text, indent(params), encoding)?)
}

/// Returns the edits that lay a text out: none if the text stays, and null if it is no document.
fn layout_edits(
    alloc: Global,
    text: &str,
    indent: Option<usize>,
    encoding: Encoding,
) -> Result<String, AllocError>
    ensures edits { IfOk result (λ out. IsFormatting encoding indent text.now (string_bytes out)) }
    ensures json { IfOk result IsSomeJson }
{
    match laid_out(alloc, text, indent)? {
        Some(new) => edits_json(alloc, &edits(alloc, text, &new, encoding)?),
        None => null_json(alloc),
    }
}

/// Returns those of the edits of `formatting` that are within the lines that a range touches. Where the
/// text after them would be laid out otherwise than the text, there are none.
pub(crate) fn range_formatting(
    alloc: Global,
    params: &Value<'_>,
    text: &str,
    encoding: Encoding,
) -> Result<String, Wrong>
    ensures edits { (result ≡ Err Wrong.Memory) ⊎ IsRangeFormatted encoding (value_view params.now) text.now result }
    ensures json { IfOk result IsSomeJson }
{
    match range(params) {
        Some(range) => {
            let within = Lines::of(range);
            Ok(lines_edits(alloc, text, indent(params), within, encoding)?)
        }
        None => Err(Wrong::Params),
    }
}

/// Returns those of the edits that lay a text out that are within some lines: none if the text after them would be laid out
/// otherwise, and null if the text is no document.
fn lines_edits(
    alloc: Global,
    text: &str,
    indent: Option<usize>,
    within: Lines,
    encoding: Encoding,
) -> Result<String, AllocError>
    ensures edits { IfOk result (λ out. IsLinesFormatting encoding indent within text.now (string_bytes out)) }
    ensures json { IfOk result IsSomeJson }
{
    match laid_out(alloc, text, indent)? {
        Some(new) => part_edits(alloc, text, &new, indent, within, encoding),
        None => null_json(alloc),
    }
}

/// Returns those of the edits that make a text the new one that are within some lines, or none if the text after them would
/// be laid out otherwise.
fn part_edits(
    alloc: Global,
    text: &str,
    new: &str,
    indent: Option<usize>,
    within: Lines,
    encoding: Encoding,
) -> Result<String, AllocError>
    ensures edits { IfOk result (λ out. IsPartTo encoding indent within text.now new.now (string_bytes out)) }
    ensures json { IfOk result IsSomeJson }
{
    let part = edits_within(alloc, text, new, within, encoding)?;
    if is_layout(alloc, &part.text, new, indent)? {
        edits_json(alloc, &part.edits)
    } else {
        edits_json(alloc, &[])
    }
}

/// Returns whether the new text is the layout of a text.
fn is_layout(
    alloc: Global,
    text: &str,
    new: &str,
    indent: Option<usize>,
) -> Result<bool, AllocError>
    ensures { IfOk result (λ same. MatchBool same (IsLaidOut indent text.now new.now) (IsLaidOutOtherwise indent text.now new.now)) }
{
    match laid_out(alloc, text, indent)? {
        Some(other) => Ok(other.as_str() == new),
        None => Ok(false),
    }
}

/// Returns edits as JSON.
fn edits_json(alloc: Global, edits: &[Edit<'_>]) -> Result<String, AllocError>
    ensures edits { IfOk result (λ out. string_bytes out ≡ print (edits_tokens edits.now)) }
    ensures json { IfOk result IsSomeJson }
{
    let mut out = begin(alloc);
    put_edits(&mut out, edits)?;
    Ok(end(alloc, out))
}

/// Writes edits.
fn put_edits(out: &mut Out, edits: &[Edit<'_>]) -> Result<(), AllocError>
    ensures before { OnOk result (out.new.before ≡ out.old.before) }
    ensures written { OnOk result (out.new.tokens ≡ out.old.tokens ++ edits_tokens edits.now) }
{
    out.begin_array()?;
    for edit in edits {
        put_edit(out, edit.range, edit.text)?;
    }
    out.end_array()
}
