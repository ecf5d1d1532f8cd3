//! What a server knows.

ghost use Rattle.lsp_documents.specs.Notes.{Agrees, Texts};
ghost use Rattle.lsp_documents.specs.States as spec;
ghost use Rattle.lsp_documents.specs.States.{ChangesOnly, IsChanged, IsKnown, SessionStays, document_at, known_text};
ghost use Rattle.lsp_text.specs.Positions.{all_changed, change_of};
ghost use Rattle.std.specs.Prelude.{◌≡◌, ◌↔◌, [], false, IfSome, IsNone, IsSome, IsSomeAnd, IsTrue, MatchOption, OnErr, OnOk, chars, map, string_bytes};
ghost use Rattle.std.specs.BTreeMap.{IsEmpty};
ghost use Rattle.lsp_text.specs.declared.position.Encoding.TheVariants.{Utf16};

use lsp_text::{Change, Encoding, replaced_all};
use std::alloc::{AllocError, Global};
use std::collections::BTreeMap;

/// How far a session is.
#[derive(Clone, Copy, Debug, PartialEq, Eq)]
pub enum Phase {
    /// Before `initialize`.
    New,
    /// After `initialize`.
    Running,
    /// After `shutdown`.
    Down,
    /// After `exit`: whether `shutdown` came before.
    Over { was_down: bool },
}

/// An open document.
#[derive(Drop)]
pub struct Document {
    /// The version that the client gave it, if it gave one.
    pub version: Option<i64>,
    /// The text. `None` after a change that was not applied, up to the next whole text.
    pub text: Option<String>,
}

/// What a client can read.
#[derive(Clone, Copy, Debug, PartialEq, Eq)]
pub struct Client {
    /// What positions count.
    pub encoding: Encoding,
    /// Whether it shows what is related to a fault.
    pub has_related: bool,
}

/// What a server knows: the phase, the client, the open documents by their URIs, and the URIs of those whose faults are to
/// be published.
#[derive(Drop)]
pub struct State {
    pub phase: Phase,
    pub client: Client,
    pub open: BTreeMap<String, Document>,
    pub due: Vec<String>,
}

impl Document {
    /// Changes the text. It is not known if memory is short, or if it was not known and no change is a whole text.
    fn change(
        &mut self,
        alloc: Global,
        version: Option<i64>,
        changes: &[Change],
        encoding: Encoding,
    )
        ensures { IsChanged encoding changes.now version self.old self.new }
    {
        let old = self.text.take();
        self.version = version;
        self.text = changed(alloc, old, changes, encoding);
    }
}

impl State {
    /// Before `initialize`, without documents.
    pub fn new(alloc: Global) -> State
        ensures phase { result.phase ≡ Phase.New }
        ensures client { result.client ≡ record { encoding = Utf16; has_related = false } }
        ensures open { IsEmpty result.open }
        ensures due { result.due.items ≡ [] }
    {
        State {
            phase: Phase::New,
            client: Client {
                encoding: Encoding::Utf16,
                has_related: false,
            },
            open: BTreeMap::new(alloc),
            due: Vec::new(alloc),
        }
    }

    /// Returns whether the session is over.
    pub fn is_over(&self) -> bool
        ensures { result ≡ spec.is_over self.now.phase }
    {
        matches!(self.phase, Phase::Over { .. })
    }

    /// Returns whether the text of a document is known.
    pub(crate) fn is_known(&self, uri: &str) -> bool
        ensures { IsTrue result ↔ IsKnown self.now uri.now }
    {
        match self.open.get(uri) {
            Some(document) => document.text.is_some(),
            None => false,
        }
    }

    /// Opens a document. If memory is short, it stays as it was.
    pub(crate) fn keep(
        &mut self,
        alloc: Global,
        uri: &str,
        version: Option<i64>,
        text: &str,
    ) -> Result<(), AllocError>
        ensures kept { OnOk result (IsSomeAnd (document_at self.new uri.now)
            (λ document. (document.version ≡ version) × IsSomeAnd document.text (λ kept. string_bytes kept ≡ text.now))) }
        ensures err { OnErr result (document_at self.new uri.now ≡ document_at self.old uri.now) }
        ensures only { ChangesOnly self.old self.new uri.now }
    {
        let document = Document {
            version,
            text: Some(String::from_str(alloc, text)?),
        };
        let uri = String::from_str(alloc, uri)?;
        self.open.insert(uri, document)?;
        Ok(())
    }

    /// Changes an open document: others are left out.
    pub(crate) fn change(
        &mut self,
        alloc: Global,
        uri: &str,
        version: Option<i64>,
        changes: &[Change],
    )
        ensures changed { MatchOption (document_at self.old uri.now) (IsNone (document_at self.new uri.now))
            (λ old. IsSomeAnd (document_at self.new uri.now) (IsChanged self.old.client.encoding changes.now version old)) }
        ensures only { ChangesOnly self.old self.new uri.now }
    {
        let encoding = self.client.encoding;
        if let Some(document) = self.open.get_mut(uri) {
            document.change(alloc, version, changes, encoding);
        }
    }

    /// Forgets the text of an open document, after changes that cannot be made.
    pub(crate) fn forget(&mut self, uri: &str, version: Option<i64>)
        ensures forgotten { MatchOption (document_at self.old uri.now) (IsNone (document_at self.new uri.now))
            (λ _. IsSomeAnd (document_at self.new uri.now) (λ document. (document.version ≡ version) × IsNone document.text)) }
        ensures only { ChangesOnly self.old self.new uri.now }
    {
        if let Some(document) = self.open.get_mut(uri) {
            document.version = version;
            document.text = None;
        }
    }

    /// Closes all documents, after a message that cannot be read: it may have changed one of them.
    pub fn close_all(&mut self)
        ensures session { SessionStays self.old self.new }
        ensures due { self.new.due ≡ self.old.due }
        ensures closed { IsEmpty self.new.open }
        ensures agrees { (texts : Texts) → Agrees self.new texts }
    {
        self.open.clear();
    }

    /// Closes a document.
    pub(crate) fn close(&mut self, uri: &str)
        ensures closed { IsNone (document_at self.new uri.now) }
        ensures only { ChangesOnly self.old self.new uri.now }
    {
        self.open.remove(uri);
    }
}

/// Returns the text after changes. Where the old text is not known, one of them is the whole text.
fn changed(
    alloc: Global,
    old: Option<String>,
    changes: &[Change],
    encoding: Encoding,
) -> Option<String>
    ensures changed { IfSome result (λ new. chars (string_bytes new)
        ≡ all_changed encoding (map change_of changes.now) (known_text old)) }
    ensures unknown { IsNone old → IsSome result → IsTrue (spec.has_whole_text changes.now) }
{
    let text = text_before(alloc, old, changes)?;
    replaced_all(alloc, text, changes, encoding).ok()
}

/// Returns the text before changes, if it is known. Where a change is a whole text, the empty text takes the place of
/// one that is not known.
fn text_before(alloc: Global, old: Option<String>, changes: &[Change]) -> Option<String>
    ensures known { IfSome result (λ text. chars (string_bytes text) ≡ known_text old) }
    ensures unknown { IsNone old → IsSome result → IsTrue (spec.has_whole_text changes.now) }
{
    match old {
        Some(text) => Some(text),
        None if has_whole_text(changes) => Some(String::new(alloc)),
        None => None,
    }
}

/// Returns whether a change is a whole text.
fn has_whole_text(changes: &[Change]) -> bool
    ensures { result ≡ spec.has_whole_text changes.now }
{
    changes.iter().any(|change| change.range.is_none())
}
