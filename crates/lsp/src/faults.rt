//! The faults of a document.

ghost use Rattle.json.specs.Print.{print};
ghost use Rattle.json.specs.Token.{Token, key, string};
ghost use Rattle.lsp.specs.Faults.{AreDiagnostics, AreFaultsOf, IsDiagnostic, IsFaultsNotice, found_in, message_in, notice_end, notice_front, notice_tokens, version_tokens};
ghost use Rattle.lsp.specs.Messages.{severity_number};
ghost use Rattle.lsp.specs.Internal.Nesting.{Grows, WritesItems, WritesMembers};
ghost use Rattle.lsp.specs.Replies.{IsWritten};
ghost use Rattle.std.specs.Prelude.{◌≡◌, ◌++◌, ◌∷◌, [], ℕ, List, None, Some, IfOk, OnOk, codes, string_bytes};

use crate::write::{Out, begin_notice, finish, put_number, put_range, put_text};
use kdl::{KdlDocument, ParseFailure};
use kdl_text::error::KdlDiagnostic;
use kdl_text::span::Severity;
use lsp_documents::Client;
use lsp_text::{Cursor, Range};
use std::alloc::{AllocError, Global};

/// A document whose faults are being written.
#[derive(Clone, Copy)]
pub(crate) struct Report<'a> {
    uri: &'a str,
    cursor: Cursor<'a>,
    has_related: bool,
}

/// Returns the faults of a text: none if it is a document.
pub(crate) fn faults_of(alloc: Global, text: &str) -> Result<Vec<KdlDiagnostic>, AllocError>
    ensures { IfOk result (λ faults. AreFaultsOf text.now faults.items) }
{
    faults_in(alloc, KdlDocument::check(alloc, text))
}

/// Returns the faults that a check of a text finds.
fn faults_in(
    alloc: Global,
    checked: Result<(), ParseFailure>,
) -> Result<Vec<KdlDiagnostic>, AllocError>
    ensures { IfOk result (λ faults. found_in checked ≡ Some faults.items) }
{
    match checked {
        Ok(()) => Ok(Vec::new(alloc)),
        Err(ParseFailure::Syntax(error)) => Ok(error.diagnostics),
        Err(ParseFailure::Memory) => Err(AllocError),
    }
}

/// Returns the notification of the faults of a document.
pub(crate) fn faults_notice(
    alloc: Global,
    uri: &str,
    version: Option<i64>,
    text: &str,
    client: Client,
) -> Result<String, AllocError>
    ensures { IfOk result (IsFaultsNotice client.encoding uri.now version text.now) }
{
    let faults = faults_of(alloc, text)?;
    let mut out = begin_faults(alloc, uri, version)?;
    put_faults(alloc, &mut out, uri, text, client, &faults)?;
    finish_faults(alloc, out)
}

/// Returns the notification that a document has no faults.
pub(crate) fn no_faults_notice(alloc: Global, uri: &str) -> Result<String, AllocError>
    ensures { IfOk result (λ m. string_bytes m ≡ print (notice_tokens uri.now None [])) }
{
    let out = begin_faults(alloc, uri, None)?;
    finish_faults(alloc, out)
}

/// Writes the faults of a text, in order.
fn put_faults(
    alloc: Global,
    out: &mut Out,
    uri: &str,
    text: &str,
    client: Client,
    faults: &[KdlDiagnostic],
) -> Result<(), AllocError>
    ensures { OnOk result ((out.new.before ≡ out.old.before)
        × ((ts : List Token) × AreDiagnostics client.encoding text.now faults.now ts × (out.new.tokens ≡ out.old.tokens ++ ts))) }
{
    let mut report = Report::new(uri, text, client);
    for fault in faults {
        report.put_fault(alloc, out, fault)?;
    }
    Ok(())
}

/// Begins the notification, up to the first fault.
fn begin_faults(alloc: Global, uri: &str, version: Option<i64>) -> Result<Out, AllocError>
    ensures { IfOk result (λ out. IsWritten out (notice_front uri.now version)) }
{
    let mut out = begin_notice(alloc, "textDocument/publishDiagnostics")?;
    out.begin_object()?;
    put_text(&mut out, "uri", uri)?;
    put_version(&mut out, version)?;
    out.key("diagnostics")?;
    out.begin_array()?;
    Ok(out)
}

/// Writes the version of a document, if it has one.
fn put_version(out: &mut Out, version: Option<i64>) -> Result<(), AllocError>
    ensures before { OnOk result (out.new.before ≡ out.old.before) }
    ensures written { OnOk result (out.new.tokens ≡ out.old.tokens ++ version_tokens version) }
{
    match version {
        Some(version) => {
            out.key("version")?;
            out.i64(version)
        }
        None => Ok(()),
    }
}

/// Ends the notification after the last fault.
fn finish_faults(alloc: Global, out: Out) -> Result<String, AllocError>
    ensures { IfOk result (λ m. out.before ≡ [] → string_bytes m ≡ print (out.tokens ++ notice_end)) }
{
    let mut out = out;
    out.end_array()?;
    out.end_object()?;
    finish(alloc, out)
}

impl<'a> Report<'a> {
    /// Before the faults of a document.
    pub(crate) fn new(uri: &'a str, text: &'a str, client: Client) -> Report<'a>
        ensures text { result.cursor.text.now ≡ text.now }
        ensures encoding { result.cursor.encoding ≡ client.encoding }
    {
        Report {
            uri,
            cursor: Cursor::new(text, client.encoding),
            has_related: client.has_related,
        }
    }

    /// Writes a fault. What may help is related to it, or the end of the message if the client shows nothing related.
    pub(crate) fn put_fault(
        &mut self,
        alloc: Global,
        out: &mut Out,
        fault: &KdlDiagnostic,
    ) -> Result<(), AllocError>
        ensures text { self.new.cursor.text.now ≡ self.old.cursor.text.now }
        ensures encoding { self.new.cursor.encoding ≡ self.old.cursor.encoding }
        ensures written { OnOk result ((out.new.before ≡ out.old.before)
            × ((ts : List Token) × IsDiagnostic self.old.cursor.encoding self.old.cursor.text.now fault.now ts × (out.new.tokens ≡ out.old.tokens ++ ts))) }
        ensures items { OnOk result (WritesItems out.old out.new) }
    {
        let range = self.cursor.range(fault.span.offset, fault.span.len);
        out.begin_object()?;
        put_range(out, "range", range)?;
        put_number(out, "severity", severity(fault.severity))?;
        put_text(out, "source", "kdl")?;
        self.put_message(alloc, out, range, fault)?;
        out.end_object()
    }

    /// Writes the message of a fault, and what may help.
    fn put_message(
        &self,
        alloc: Global,
        out: &mut Out,
        range: Range,
        fault: &KdlDiagnostic,
    ) -> Result<(), AllocError>
        ensures written { OnOk result ((out.new.before ≡ out.old.before)
            × ((help : List ℕ) × (more : List Token) × (out.new.tokens ≡ out.old.tokens ++ key (codes "message") ∷ string (message_in fault.now ++ help) ∷ more))) }
        ensures members { OnOk result (WritesMembers out.old out.new) }
    {
        let message = message_of(fault);
        match &fault.help {
            Some(help) if self.has_related => {
                put_text(out, "message", message)?;
                self.put_related(out, range, help)
            }
            Some(help) => {
                let text = format!(in alloc; "{message}\nhelp: {}", help.as_str())?;
                put_text(out, "message", &text)
            }
            None => put_text(out, "message", message),
        }
    }

    /// Writes what may help at a fault.
    fn put_related(&self, out: &mut Out, range: Range, help: &str) -> Result<(), AllocError>
        ensures grows { OnOk result (Grows out.old out.new) }
        ensures members { OnOk result (WritesMembers out.old out.new) }
    {
        out.key("relatedInformation")?;
        out.begin_array()?;
        out.begin_object()?;
        self.put_location(out, range)?;
        put_text(out, "message", help)?;
        out.end_object()?;
        out.end_array()
    }

    /// Writes the place of a fault.
    fn put_location(&self, out: &mut Out, range: Range) -> Result<(), AllocError>
        ensures grows { OnOk result (Grows out.old out.new) }
        ensures members { OnOk result (WritesMembers out.old out.new) }
    {
        out.key("location")?;
        out.begin_object()?;
        put_text(out, "uri", self.uri)?;
        put_range(out, "range", range)?;
        out.end_object()
    }
}

/// Returns the message of a fault.
fn message_of(fault: &KdlDiagnostic) -> &str
    ensures { result.now ≡ message_in fault.now }
{
    match &fault.message {
        Some(message) => message.as_str(),
        None => "Unexpected error",
    }
}

/// Returns the number of a severity.
fn severity(severity: Severity) -> usize
    ensures { result ≡ severity_number severity }
{
    match severity {
        Severity::Error => 1,
        Severity::Warning => 2,
        Severity::Advice => 3,
    }
}
