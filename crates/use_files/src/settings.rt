//! Settings, read from a text with their types.

ghost use Rattle.kdl.specs.Words.{IsDocument, Nodes, argument_named, document_says, text_of};
ghost use Rattle.std.specs.Prelude.{◌≡◌, ◌++◌, IfNone, IfOk, IfSome, OnOk, Some, chars, map, option_map};
ghost use Rattle.use_files.specs.Settings as said;
ghost use Rattle.use_files.specs.Settings.{Fits, IsSyntax, IsUnfit, fault_at, fault_view, faults_of, host_fault, place_of, port_fault, verbose_fault};

use kdl::{KdlDocument, KdlEntry, KdlError, NodeKey, ParseFailure, SourceSpan};
use std::alloc::{AllocError, Global};

/// The settings.
#[derive(Drop)]
pub struct Settings {
    pub host: String,
    pub port: i128,
    pub verbose: bool,
}

/// A setting that is missing or of another type, and its span.
#[derive(Clone, Copy)]
pub struct Fault {
    pub wants: &'static str,
    pub span: SourceSpan,
}

/// Why a text has no settings.
#[derive(Drop)]
pub enum Refused {
    /// The text is not a document.
    Syntax(KdlError),
    /// Settings are missing, or of another type.
    Unfit(Vec<Fault>),
    /// An allocation failed.
    Memory,
}

/// Returns the settings of a text. The host is required; by default the port is 8080, and `verbose` is off.
pub fn load(alloc: Global, text: &str) -> Result<Settings, Refused>
    // Each setting is that of the text, or the default if the text has none.
    ensures host { IfOk result (λ s. (x : Nodes) → IsDocument (chars text.now) x
        → said.host x ≡ Some (text_of s.host)) }
    ensures port { IfOk result (λ s. (x : Nodes) → IsDocument (chars text.now) x
        → said.port x ≡ Some s.port) }
    ensures verbose { IfOk result (λ s. (x : Nodes) → IsDocument (chars text.now) x
        → said.verbose x ≡ Some s.verbose) }
    // Settings are refused if one is missing, or of another type.
    ensures unfit { IsUnfit result → (x : Nodes) → IsDocument (chars text.now) x
        → Fits x → ⊥ }
    // A refused text is not a document.
    ensures refused { IsSyntax result → (x : Nodes) → IsDocument (chars text.now) x → ⊥ }
{
    let document = match KdlDocument::parse(alloc, text) {
        Ok(document) => document,
        Err(ParseFailure::Syntax(error)) => return Err(Refused::Syntax(error)),
        Err(ParseFailure::Memory) => return Err(Refused::Memory),
    };
    let mut faults = Vec::new(alloc);
    match read(alloc, &document, &mut faults) {
        Ok(Some(settings)) => Ok(settings),
        Ok(None) => Err(Refused::Unfit(faults)),
        Err(AllocError) => Err(Refused::Memory),
    }
}

/// Returns the settings of a document, or a fault for each setting that does not fit.
fn read(
    alloc: Global,
    document: &KdlDocument,
    faults: &mut Vec<Fault>,
) -> Result<Option<Settings>, AllocError>
    ensures host { IfOk result (λ o. IfSome o (λ s.
        said.host (document_says document.now) ≡ Some (text_of s.host))) }
    ensures port { IfOk result (λ o. IfSome o (λ s.
        said.port (document_says document.now) ≡ Some s.port)) }
    ensures verbose { IfOk result (λ o. IfSome o (λ s.
        said.verbose (document_says document.now) ≡ Some s.verbose)) }
    ensures unfit { IfOk result (λ o. IfNone o (Fits (document_says document.now) → ⊥)) }
    ensures faults { OnOk result (map fault_view faults.new.items ≡
        map fault_view faults.old.items ++ faults_of document.now) }
{
    let host = host(document, faults)?;
    let port = port(document, faults)?;
    let verbose = verbose(document, faults)?;
    match (host, port, verbose) {
        (Some(host), Some(port), Some(verbose)) => Ok(Some(Settings {
            host: String::from_str(alloc, host)?,
            port,
            verbose,
        })),
        _ => Ok(None),
    }
}

/// The host, which is required.
fn host<'a>(
    document: &'a KdlDocument,
    faults: &mut Vec<Fault>,
) -> Result<Option<&'a str>, AllocError>
    ensures value { IfOk result (λ o.
        option_map (λ s. chars s.now) o ≡ said.host (document_says document.now)) }
    ensures faults { OnOk result (map fault_view faults.new.items ≡
        map fault_view faults.old.items ++ host_fault document.now) }
{
    if let Some(value) = document.get_arg("host") {
        if let Some(host) = value.as_string() {
            return Ok(Some(host));
        }
    }
    note(document, "host", "host wants a text", faults)?;
    Ok(None)
}

/// The port, 8080 if there is none.
fn port(document: &KdlDocument, faults: &mut Vec<Fault>) -> Result<Option<i128>, AllocError>
    ensures value { IfOk result (λ o. o ≡ said.port (document_says document.now)) }
    ensures faults { OnOk result (map fault_view faults.new.items ≡
        map fault_view faults.old.items ++ port_fault document.now) }
{
    let Some(value) = document.get_arg("port") else {
        return Ok(Some(8080));
    };
    match value.as_integer() {
        Some(port) if 1 <= port && port <= 65535 => Ok(Some(port)),
        _ => {
            let wants = "port wants a number from 1 to 65535";
            note(document, "port", wants, faults)?;
            Ok(None)
        }
    }
}

/// Whether to be verbose, which is off by default.
fn verbose(document: &KdlDocument, faults: &mut Vec<Fault>) -> Result<Option<bool>, AllocError>
    ensures value { IfOk result (λ o. o ≡ said.verbose (document_says document.now)) }
    ensures faults { OnOk result (map fault_view faults.new.items ≡
        map fault_view faults.old.items ++ verbose_fault document.now) }
{
    let Some(value) = document.get_arg("verbose") else {
        return Ok(Some(false));
    };
    let verbose = value.as_bool();
    if verbose.is_none() {
        note(document, "verbose", "verbose wants #true or #false", faults)?;
    }
    Ok(verbose)
}

/// Notes that the first argument of the first node of that name is missing, or of another type.
fn note(
    document: &KdlDocument,
    name: &str,
    wants: &'static str,
    faults: &mut Vec<Fault>,
) -> Result<(), AllocError>
    ensures { OnOk result (map fault_view faults.new.items ≡
        map fault_view faults.old.items ++ fault_at wants.now name.now document.now) }
{
    let span = place(document, name);
    faults.push(Fault { wants, span })?;
    Ok(())
}

/// The span of the first argument of the first node of that name, or of the document if there is none.
fn place(document: &KdlDocument, name: &str) -> SourceSpan
    ensures { result ≡ place_of name.now document.now }
{
    match argument(document, name) {
        Some(entry) => entry.span(),
        None => document.span(),
    }
}

/// The first argument of the first node of that name.
fn argument<'a>(document: &'a KdlDocument, name: &str) -> Option<&'a KdlEntry>
    ensures { option_map (λ e. e.now) result ≡ argument_named name.now document.now }
{
    match document.get(name) {
        Some(node) => node.entry(NodeKey::Index(0)),
        None => None,
    }
}
