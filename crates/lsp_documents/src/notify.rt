//! Notifications of a client about its documents.

ghost use Rattle.json.specs.Value.{value_view};
ghost use Rattle.lsp_documents.specs.Notes.{Agrees, Changed, HasChanges, Note, Tells, Texts, after, text_of, uri_of, with_text};
ghost use Rattle.lsp_documents.specs.Outcomes.{IsDue, IsSo, IsTaken, MarksDue, SaysUnknown, StaysOpen, UnnamedStay};
ghost use Rattle.lsp_documents.specs.States.{IsKnown, OthersStay, SessionStays, document_at, is_down};
ghost use Rattle.lsp_text.specs.Positions.{Text, all_changed, change_of};
ghost use Rattle.lsp_text.specs.declared.position.Range.{Range};
ghost use Rattle.std.specs.Prelude.{◌≡◌, ℕ, ◌⊎◌, List, Option, None, Some, IfSome, IsNone, IsSome, IsSomeAnd, IsTrue, OnOk, OnSome, chars, codes, map, string_bytes};

use crate::params::{changes, text, uri, version};
use crate::state::{Phase, State};
use json::Value;
use lsp_text::Change;
use std::alloc::{AllocError, Global};

/// What a server has to say after a notification, beside the faults of the documents that are due.
#[derive(Clone, Copy)]
pub enum Outcome<'a> {
    /// Nothing.
    Nothing,
    /// That the text of the document of a URI is not known.
    Unknown(&'a str),
    /// That the document of a URI has no faults.
    Closed(&'a str),
}

impl State {
    /// Takes a notification. Those that may not come now, and unknown ones, are ignored.
    pub fn notify<'a>(&mut self, alloc: Global, method: &str, params: &Value<'a>) -> Outcome<'a>
        ensures early { (self.old.phase ≡ Phase.Running → ⊥) → (method.now ≡ codes "exit" → ⊥) → self.new ≡ self.old }
        ensures exit { method.now ≡ codes "exit"
            → self.new ≡ record self.old { phase = Phase.Over (is_down self.old.phase) } }

        // A text that the server knows is the client's, after each notification.
        ensures told { self.old.phase ≡ Phase.Running → (note : Note) (texts : Texts) → Tells method.now (value_view params.now) note
            → Agrees self.old texts → Agrees self.new (after self.old.client.encoding note texts) }
        ensures untold { ((note : Note) → Tells method.now (value_view params.now) note → ⊥)
            → (texts : Texts) → Agrees self.old texts → Agrees self.new texts }
        ensures session { (method.now ≡ codes "exit" → ⊥) → SessionStays self.old self.new }

        // A notification changes the document that it names, and no other one.
        ensures taken { self.old.phase ≡ Phase.Running → (note : Note) → Tells method.now (value_view params.now) note
            → IsTaken self.old self.new (SaysUnknown result) note }
        ensures due { self.old.phase ≡ Phase.Running → (note : Note) → Tells method.now (value_view params.now) note
            → MarksDue self.old self.new (SaysUnknown result) note }
        ensures stays { (uri : List ℕ) (changes : List (Option Range × Text)) → Tells method.now (value_view params.now) (Changed uri changes)
            → StaysOpen self.old self.new uri }
        ensures others { UnnamedStay self.old self.new (value_view params.now) }
        ensures outcome { IsSo result (value_view params.now) self.new }
        ensures unknown { (method.now ≡ codes "exit" → ⊥) → (method.now ≡ codes "textDocument/didOpen" → ⊥)
            → (method.now ≡ codes "textDocument/didChange" → ⊥) → (method.now ≡ codes "textDocument/didClose" → ⊥)
            → self.new ≡ self.old }
    {
        if method == "exit" {
            let was_down = self.phase == Phase::Down;
            self.phase = Phase::Over { was_down };
            return Outcome::Nothing;
        }
        if self.phase != Phase::Running {
            return Outcome::Nothing;
        }
        match method {
            "textDocument/didOpen" => self.did_open(alloc, params),
            "textDocument/didChange" => self.did_change(alloc, params),
            "textDocument/didClose" => self.did_close(params),
            _ => Outcome::Nothing,
        }
    }

    /// Opens a document, whose faults are to be published. Parameters without a URI or a text are ignored.
    fn did_open<'a>(&mut self, alloc: Global, params: &Value<'a>) -> Outcome<'a>
        ensures told { (uri text : List ℕ) (texts : Texts) → uri_of (value_view params.now) ≡ Some uri → text_of (value_view params.now) ≡ Some text
            → Agrees self.old texts → Agrees self.new (with_text texts uri (chars text)) }
        ensures untold { (uri_of (value_view params.now) ≡ None) ⊎ (text_of (value_view params.now) ≡ None) → self.new ≡ self.old }
        ensures session { SessionStays self.old self.new }
        ensures known { (uri : List ℕ) → uri_of (value_view params.now) ≡ Some uri → IsSome (text_of (value_view params.now))
            → (SaysUnknown result uri → ⊥) → IsKnown self.new uri }
        ensures due { (uri : List ℕ) → uri_of (value_view params.now) ≡ Some uri → IsSome (text_of (value_view params.now))
            → (SaysUnknown result uri → ⊥) → IsDue self.new uri }
        ensures others { UnnamedStay self.old self.new (value_view params.now) }
        ensures outcome { IsSo result (value_view params.now) self.new }
    {
        let (Some(uri), Some(text)) = (uri(params), text(params)) else {
            return Outcome::Nothing;
        };
        if self.keep_due(alloc, uri, version(params), text).is_ok() {
            return Outcome::Nothing;
        }
        self.close(uri);
        Outcome::Unknown(uri)
    }

    /// Keeps the text of a document whose faults are to be published.
    fn keep_due(
        &mut self,
        alloc: Global,
        uri: &str,
        version: Option<i64>,
        text: &str,
    ) -> Result<(), AllocError>
        ensures kept { OnOk result (IsSomeAnd (document_at self.new uri.now)
            (λ document. IsSomeAnd document.text (λ kept. string_bytes kept ≡ text.now))) }
        ensures due { OnOk result (IsDue self.new uri.now) }
        ensures others { OthersStay self.old self.new uri.now }
        ensures session { SessionStays self.old self.new }
    {
        self.mark_due(alloc, uri)?;
        self.keep(alloc, uri, version, text)
    }

    /// Changes a document, whose faults are to be published. A document that is not open is left out.
    fn did_change<'a>(&mut self, alloc: Global, params: &Value<'a>) -> Outcome<'a>
        ensures told { (uri : List ℕ) (changes : List (Option Range × Text)) (texts : Texts)
            → uri_of (value_view params.now) ≡ Some uri → HasChanges (value_view params.now) changes → Agrees self.old texts
            → Agrees self.new (with_text texts uri (all_changed self.old.client.encoding changes (texts uri))) }
        ensures untold { ((uri : List ℕ) (changes : List (Option Range × Text)) → uri_of (value_view params.now) ≡ Some uri → HasChanges (value_view params.now) changes → ⊥)
            → (texts : Texts) → Agrees self.old texts → Agrees self.new texts }
        ensures session { SessionStays self.old self.new }
        ensures stays { (uri : List ℕ) → uri_of (value_view params.now) ≡ Some uri → StaysOpen self.old self.new uri }
        ensures known { (uri : List ℕ) → uri_of (value_view params.now) ≡ Some uri → (SaysUnknown result uri → ⊥)
            → IsSome (document_at self.old uri) → IsKnown self.new uri }
        ensures due { (uri : List ℕ) → uri_of (value_view params.now) ≡ Some uri → (SaysUnknown result uri → ⊥)
            → IsSome (document_at self.old uri) → IsDue self.new uri }
        ensures others { UnnamedStay self.old self.new (value_view params.now) }
        ensures outcome { IsSo result (value_view params.now) self.new }
    {
        let Some(uri) = uri(params) else {
            return Outcome::Nothing;
        };
        if !self.open.contains_key(uri) {
            return Outcome::Nothing;
        }
        self.change_due(alloc, uri, params);
        if self.is_known(uri) {
            Outcome::Nothing
        } else {
            Outcome::Unknown(uri)
        }
    }

    /// Changes an open document, whose faults are to be published. Where memory is short, or a value is no change, the text
    /// is not known afterwards.
    fn change_due(&mut self, alloc: Global, uri: &str, params: &Value<'_>)
        ensures told { (changes : List (Option Range × Text)) (texts : Texts) → HasChanges (value_view params.now) changes → Agrees self.old texts
            → Agrees self.new (with_text texts uri.now (all_changed self.old.client.encoding changes (texts uri.now))) }
        ensures untold { ((changes : List (Option Range × Text)) → HasChanges (value_view params.now) changes → ⊥)
            → (texts : Texts) → Agrees self.old texts → Agrees self.new texts }
        ensures due { IsKnown self.new uri.now → IsDue self.new uri.now }
        ensures stays { StaysOpen self.old self.new uri.now }
        ensures others { OthersStay self.old self.new uri.now }
        ensures session { SessionStays self.old self.new }
    {
        match self.due_changes(alloc, uri, params) {
            Some(changes) => self.change(alloc, uri, version(params), &changes),
            None => self.forget(uri, version(params)),
        }
    }

    /// Returns the changes of a document, whose faults are to be published, or `None` if memory is short or a value is no
    /// change.
    fn due_changes(&mut self, alloc: Global, uri: &str, params: &Value<'_>) -> Option<Vec<Change>>
        ensures found { IfSome result (λ changes. HasChanges (value_view params.now) (map change_of changes.items)) }
        ensures due { OnSome result (IsDue self.new uri.now) }
        ensures open { self.new.open ≡ self.old.open }
        ensures session { SessionStays self.old self.new }
    {
        self.mark_due(alloc, uri).ok()?;
        changes(alloc, params).ok()?
    }

    /// Closes a document.
    fn did_close<'a>(&mut self, params: &Value<'a>) -> Outcome<'a>
        ensures untold { (texts : Texts) → Agrees self.old texts → Agrees self.new texts }
        ensures session { SessionStays self.old self.new }
        ensures closed { (uri : List ℕ) → uri_of (value_view params.now) ≡ Some uri → IsNone (document_at self.new uri) }
        ensures others { UnnamedStay self.old self.new (value_view params.now) }
        ensures outcome { IsSo result (value_view params.now) self.new }
    {
        let Some(uri) = uri(params) else {
            return Outcome::Nothing;
        };
        self.close(uri);
        Outcome::Closed(uri)
    }

    /// Marks that the faults of a document are to be published.
    fn mark_due(&mut self, alloc: Global, uri: &str) -> Result<(), AllocError>
        ensures due { OnOk result (IsDue self.new uri.now) }
        ensures open { self.new.open ≡ self.old.open }
        ensures session { SessionStays self.old self.new }
    {
        if self.is_due(uri) {
            return Ok(());
        }
        Ok(self.due.push(String::from_str(alloc, uri)?)?)
    }

    /// Returns whether the faults of a document are to be published.
    fn is_due(&self, uri: &str) -> bool
        ensures { IsTrue result → IsDue self.now uri.now }
    {
        for other in &self.due {
            if other.as_str() == uri {
                return true;
            }
        }
        false
    }
}
