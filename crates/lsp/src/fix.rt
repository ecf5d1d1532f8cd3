//! Quick fixes of faults that have one answer.

ghost use Rattle.lsp.specs.Internal.Nesting.{WritesItems};
ghost use Rattle.lsp.specs.Replies.{IsSomeJson};
ghost use Rattle.std.specs.Prelude.{IfOk, OnOk};

use crate::faults::{Report, faults_of};
use crate::locate::end_of;
use crate::place::{range_of, span};
use crate::write::{Out, Wrong, begin, end, put_edit, put_text, put_true};
use json::Value;
use kdl_text::chars::{is_identifier_char, is_newline_char, is_space};
use kdl_text::error::KdlDiagnostic;
use kdl_text::span::SourceSpan;
use lsp_documents::Client;
use lsp_documents::params::uri;
use lsp_text::replaced;
use std::alloc::{AllocError, Global};

/// How many fixes are tried for a request, at most: each takes a parse of the text with it.
const MOST: usize = 8;

/// A fix: the part of the text that is replaced, and the new text.
#[derive(Drop)]
struct Fix {
    title: String,
    span: SourceSpan,
    new: String,
}

/// A text with its faults.
#[derive(Drop)]
struct Faulty<'a> {
    uri: &'a str,
    text: &'a str,
    client: Client,
    faults: Vec<KdlDiagnostic>,
}

/// Returns the fixes of the faults in the range of a request.
pub(crate) fn actions(
    alloc: Global,
    params: &Value<'_>,
    text: &str,
    client: Client,
) -> Result<String, Wrong>
    ensures { IfOk result IsSomeJson }
{
    let uri = uri(params);
    let span = span(params, text, client.encoding);
    let (Some(uri), Some(span)) = (uri, span) else {
        return Err(Wrong::Params);
    };
    let faulty = Faulty {
        uri,
        text,
        client,
        faults: if wants_fixes(params) {
            faults_of(alloc, text)?
        } else {
            Vec::new(alloc)
        },
    };
    let mut out = begin(alloc);
    out.begin_array()?;
    faulty.put_fixes(alloc, &mut out, span)?;
    out.end_array()?;
    Ok(end(alloc, out))
}

/// Returns whether a request takes quick fixes: it asks for these, or for no kind of action.
fn wants_fixes(params: &Value<'_>) -> bool {
    let only = params
        .get("context")
        .and_then(|context| context.get("only"));
    match only {
        Some(Value::Array(kinds)) => kinds
            .iter()
            .any(|kind| matches!(kind.as_str(), Some("quickfix" | ""))),
        _ => true,
    }
}

impl<'a> Faulty<'a> {
    /// Writes the fixes of the faults in a part of the text.
    fn put_fixes(&self, alloc: Global, out: &mut Out, span: SourceSpan) -> Result<(), AllocError>
        ensures { OnOk result (WritesItems out.old out.new) }
    {
        let mut tried = 0usize;
        for fault in &self.faults {
            if fault.span.offset > end_of(span) || span.offset > end_of(fault.span) {
                continue;
            }
            let Some(fix) = fix_of(alloc, self.text, fault.span.offset)? else {
                continue;
            };
            if tried == MOST {
                break;
            }
            tried = tried.saturating_add(1);
            self.put_mended(alloc, out, fault, &fix)?;
        }
        Ok(())
    }

    /// Writes a fix of a fault, if it mends that.
    fn put_mended(
        &self,
        alloc: Global,
        out: &mut Out,
        fault: &KdlDiagnostic,
        fix: &Fix,
    ) -> Result<(), AllocError>
        ensures { OnOk result (WritesItems out.old out.new) }
    {
        if self.is_mended(alloc, fault, fix)? {
            self.put_action(alloc, out, fault, fix)
        } else {
            Ok(())
        }
    }

    /// Returns whether the text has fewer faults after a fix, and not this one.
    fn is_mended(
        &self,
        alloc: Global,
        fault: &KdlDiagnostic,
        fix: &Fix,
    ) -> Result<bool, AllocError> {
        let encoding = self.client.encoding;
        let range = range_of(self.text, fix.span, encoding);
        let text = replaced(alloc, self.text, range, &fix.new, encoding)?;
        let left = faults_of(alloc, &text)?;
        let is_left = left.iter().any(|left| left.span.offset == fault.span.offset
            && left.message == fault.message);
        Ok(left.len() < self.faults.len() && !is_left)
    }

    /// Writes a fix of a fault.
    fn put_action(
        &self,
        alloc: Global,
        out: &mut Out,
        fault: &KdlDiagnostic,
        fix: &Fix,
    ) -> Result<(), AllocError>
        ensures { OnOk result (WritesItems out.old out.new) }
    {
        let mut report = Report::new(self.uri, self.text, self.client);
        out.begin_object()?;
        put_text(out, "title", &fix.title)?;
        put_text(out, "kind", "quickfix")?;
        put_true(out, "isPreferred")?;
        out.key("diagnostics")?;
        out.begin_array()?;
        report.put_fault(alloc, out, fault)?;
        out.end_array()?;
        out.key("edit")?;
        out.begin_object()?;
        out.key("changes")?;
        out.begin_object()?;
        out.key(self.uri)?;
        out.begin_array()?;
        let range = range_of(self.text, fix.span, self.client.encoding);
        put_edit(out, range, &fix.new)?;
        out.end_array()?;
        out.end_object()?;
        out.end_object()?;
        out.end_object()
    }
}

/// Returns the fix of a fault that begins at an offset, if the text there looks like one that has a fix.
fn fix_of(alloc: Global, text: &str, offset: usize) -> Result<Option<Fix>, AllocError> {
    let Some((before, marked)) = text.split_at_checked(offset) else {
        return Ok(None);
    };
    if marked.starts_with('{') {
        return Ok(Some(closing(alloc, text, before)?));
    }
    let (word, rest) = split_word(marked);
    match word {
        "true" | "false" | "null" | "nan" | "inf" => Ok(Some(Fix {
            title: format!(in alloc; "Write `#{word}`")?,
            span: SourceSpan { offset, len: 0 },
            new: String::from_str(alloc, "#")?,
        })),
        "r" => raw_string(alloc, offset, rest),
        _ => Ok(None),
    }
}

/// Returns the bare string that a text begins with, and the rest.
fn split_word(text: &str) -> (&str, &str) {
    let end = text
        .find(|c: char| !is_identifier_char(c))
        .unwrap_or(text.len());
    text.split_at_checked(end).unwrap_or((text, ""))
}

/// Returns the fix of a raw string of KDL 1 whose `r` is at an offset, given the text after the `r`.
fn raw_string(alloc: Global, offset: usize, rest: &str) -> Result<Option<Fix>, AllocError> {
    let title = String::from_str(alloc, "Write a raw string without `r`")?;
    if rest.starts_with('#') {
        return Ok(Some(Fix {
            title,
            span: SourceSpan { offset, len: 1 },
            new: String::new(alloc),
        }));
    }
    let quoted = rest.strip_prefix('"').and_then(|rest| rest.split_once('"'));
    let Some((content, _)) = quoted else {
        return Ok(None);
    };
    Ok(Some(Fix {
        title,
        span: SourceSpan {
            offset,
            len: content.len().saturating_add(3),
        },
        new: format!(in alloc; "#\"{content}\"#")?,
    }))
}

/// Returns the fix of an unclosed block, given the text before its `{`: a `}` on a line at the end of the text.
fn closing(alloc: Global, text: &str, before: &str) -> Result<Fix, AllocError> {
    let newline = if text.contains("\r\n") { "\r\n" } else { "\n" };
    let end = if text.ends_with(is_newline_char) {
        ""
    } else {
        newline
    };
    let line = match before.rfind(is_newline_char) {
        Some(at) => before.get(at..).unwrap_or(""),
        None => before,
    };
    let line = line.trim_start_matches(is_newline_char);
    let indent = line
        .find(|c: char| !is_space(c))
        .and_then(|len| line.get(..len))
        .unwrap_or(line);
    Ok(Fix {
        title: String::from_str(alloc, "Close the block at the end")?,
        span: SourceSpan {
            offset: text.len(),
            len: 0,
        },
        new: format!(in alloc; "{end}{indent}}}{newline}")?,
    })
}
