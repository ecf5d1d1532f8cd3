//! One message of a client.
#![tactic(auto, using(crate::proofs::Rules::sending))]

ghost use Rattle.json.specs.Json.{Json, null};
ghost use Rattle.json.specs.Value.{value_view};
ghost use Rattle.lsp.specs.Contents.{IsAnswer};
ghost use Rattle.lsp.specs.Messages.{AsksForIn, AsksIn, IsIgnored, StartsIn, TellsIn, method_of, params_of};
ghost use Rattle.lsp.specs.Replies.{IsFailure, IsGreeting, IsNotice, IsReplyTo, Logs, LogsOf, OneReply};
ghost use Rattle.lsp.specs.Turns.{Marks, Takes, sent_of};
ghost use Rattle.lsp_documents.specs.Notes.{Agrees, Changed, Note, Tells, Texts, after};
ghost use Rattle.lsp_documents.specs.Outcomes.{IsTaken, MarksDue, StaysOpen, UnnamedStay};
ghost use Rattle.lsp_documents.specs.States.{SessionStays, is_down, is_over};
ghost use Rattle.lsp_text.specs.Positions.{Text};
ghost use Rattle.lsp_text.specs.declared.position.Range.{Range};
ghost use Rattle.std.specs.BTreeMap.{IsEmpty};
ghost use Rattle.std.specs.Prelude.{◌≡◌, ◌⊎◌, ◌∷◌, [], ℕ, List, All, Option, IfOk, IfSome, IsSome, codes};

use crate::faults::no_faults_notice;
use crate::publish::{Notices, faults, unknown_notice};
use crate::request::reply;
use crate::write::{Wrong, failure, log_notice, reply_to};
use json::{Error, Scratch, Value};
use lsp_documents::{Outcome, Phase, State};
use std::alloc::{AllocError, Global};

/// What the log tells after a message that is not JSON.
const UNREAD: &str = "kdl: a message is not JSON: open the documents again";

/// Takes a message of the client, and returns the messages that the server sends for it, in order, and then those with the
/// faults of the documents that are due.
///
/// A message that is not JSON may have changed a document: no document is open then, up to the next `didOpen`.
///
/// Returns an error if there is no memory for the message. No document is open then either. Returns an error also if there
/// is no memory for the messages that the server sends.
pub fn step(alloc: Global, state: &mut State, message: &str) -> Result<Vec<String>, AllocError>
    ensures { Takes state.old message.now (sent_of result) state.new }
{
    let mut scratch = Scratch::new(alloc);
    let mut out = replies(alloc, state, message, &mut scratch)?;
    out.append(&mut faults(alloc, state)?)?;
    Ok(out)
}

/// Takes a message of the client, and returns the messages that the server sends for it but for faults.
pub(crate) fn replies(
    alloc: Global,
    state: &mut State,
    message: &str,
    scratch: &mut Scratch,
) -> Result<Notices, AllocError>
    ensures takes { Takes state.old message.now (sent_of result) state.new }
    ensures marks { Marks state.old message.now (sent_of result) state.new }
{
    match Value::parse(alloc, message, scratch) {
        Ok(value) => take(alloc, state, &value),
        Err(Error::OutOfMemory) => {
            state.close_all();
            Err(AllocError)
        }
        Err(_) => refuse(alloc, state),
    }
}

/// Closes all documents after a message that is not JSON, and tells the client.
fn refuse(alloc: Global, state: &mut State) -> Result<Notices, AllocError>
    ensures closed { IsEmpty state.new.open }
    ensures agrees { (texts : Texts) → Agrees state.new texts }
    ensures session { SessionStays state.old state.new }
    ensures replied { IfOk result (λ out. OneReply (IsReplyTo null) out.items) }
    ensures logged { IfOk result (λ out. Logs out.items) }
{
    state.close_all();
    let mut out = one(
        alloc,
        failure(alloc, Vec::new(alloc), &Value::Null, Wrong::Parse)?,
    )?;
    out.push(log_notice(alloc, UNREAD)?)?;
    Ok(out)
}

/// Returns a list of one message.
fn one(alloc: Global, message: String) -> Result<Notices, AllocError>
    ensures { IfOk result (λ out. out.items ≡ message ∷ []) }
{
    let mut out = Vec::new(alloc);
    out.push(message)?;
    Ok(out)
}

/// Takes a message: a request, a notification, or a reply to the server, which is ignored.
fn take(alloc: Global, state: &mut State, message: &Value<'_>) -> Result<Notices, AllocError>
    ensures told { state.old.phase ≡ Phase.Running → (note : Note) (texts : Texts) → TellsIn (value_view message.now) note
        → Agrees state.old texts → Agrees state.new (after state.old.client.encoding note texts) }
    ensures untold { ((note : Note) → TellsIn (value_view message.now) note → ⊥)
        → (texts : Texts) → Agrees state.old texts → Agrees state.new texts }
    ensures session { (note : Note) → TellsIn (value_view message.now) note → SessionStays state.old state.new }
    ensures stays { (uri : List ℕ) (changes : List (Option Range × Text)) → TellsIn (value_view message.now) (Changed uri changes)
        → StaysOpen state.old state.new uri }
    ensures others { UnnamedStay state.old state.new (params_of (value_view message.now)) }
    ensures all { IfSome (method_of (value_view message.now)) IsIgnored → state.new.open ≡ state.old.open }
    ensures taken { state.old.phase ≡ Phase.Running → (note : Note) → TellsIn (value_view message.now) note
        → IfOk result (λ out. IsTaken state.old state.new (LogsOf out.items) note) }
    ensures due { state.old.phase ≡ Phase.Running → (note : Note) → TellsIn (value_view message.now) note
        → IfOk result (λ out. MarksDue state.old state.new (LogsOf out.items) note) }
    ensures replied { (id : Json) → AsksIn (value_view message.now) id → IfOk result (λ out. OneReply (IsReplyTo id) out.items) }
    ensures unasked { IsSome (method_of (value_view message.now)) → IfOk result (λ out. All IsNotice out.items) }
    ensures answered { state.old.phase ≡ Phase.Running → (id : Json) (method : List ℕ) (params : Json) → AsksForIn (value_view message.now) id method params
        → IfOk result (λ out. OneReply (IsAnswer state.old id method params) out.items) }
    ensures started { state.old.phase ≡ Phase.New → (id : Json) → StartsIn (value_view message.now) id
        → IfOk result (λ out. OneReply (λ m. IsFailure id m ⊎ ((state.new.phase ≡ Phase.Running) × IsGreeting id state.new.client.encoding m)) out.items) }
    ensures client { (state.new.client ≡ state.old.client) ⊎ ((state.old.phase ≡ Phase.New) × (state.new.phase ≡ Phase.Running)) }
    ensures exited { method_of (value_view message.now) ≡ Some (codes "exit") → state.new.phase ≡ Phase.Over (is_down state.old.phase) }
    ensures goes_on { (method_of (value_view message.now) ≡ Some (codes "exit") → ⊥) → is_over state.new.phase ≡ is_over state.old.phase }
{
    let params = message.get("params").unwrap_or(&Value::Null);
    let method = message.get("method").and_then(Value::as_str);
    match (method, message.get("id")) {
        (Some(method), Some(id)) => request(alloc, state, method, id, params),
        (Some(method), None) => notification(alloc, state, method, params),
        (None, Some(_)) if is_reply(message) => Ok(Vec::new(alloc)),
        (None, _) => {
            let reply = failure(alloc, Vec::new(alloc), &Value::Null, Wrong::Invalid)?;
            one(alloc, reply)
        }
    }
}

/// Returns whether a message without a method is a reply.
fn is_reply(message: &Value<'_>) -> bool {
    message.get("result").is_some() || message.get("error").is_some()
}

/// Takes a request. What is due is published before the session ends. Room for the reply is made before the state changes.
fn request(
    alloc: Global,
    state: &mut State,
    method: &str,
    id: &Value<'_>,
    params: &Value<'_>,
) -> Result<Notices, AllocError>
    ensures open { state.new.open ≡ state.old.open }
    ensures replied { IfOk result (λ out. OneReply (IsReplyTo (value_view id.now)) out.items) }
    ensures answered { state.old.phase ≡ Phase.Running → IfOk result (λ out. OneReply (IsAnswer state.old (value_view id.now) method.now (value_view params.now)) out.items) }
    ensures started { state.old.phase ≡ Phase.New → method.now ≡ codes "initialize"
        → IfOk result (λ out. OneReply (λ m. IsFailure (value_view id.now) m ⊎ ((state.new.phase ≡ Phase.Running) × IsGreeting (value_view id.now) state.new.client.encoding m)) out.items) }
    ensures client { (state.new.client ≡ state.old.client) ⊎ ((state.old.phase ≡ Phase.New) × (state.new.phase ≡ Phase.Running)) }
    ensures over { is_over state.new.phase ≡ is_over state.old.phase }
{
    let mut out = before_reply(alloc, state, method);
    out.reserve(1)?;
    out.push(any_reply(alloc, state, method, id, params)?)?;
    Ok(out)
}

/// Returns what is sent before the reply to a request: before that to `shutdown` the faults that are due, if there is
/// memory for them.
fn before_reply(alloc: Global, state: &mut State, method: &str) -> Notices
    ensures session { SessionStays state.old state.new }
    ensures open { state.new.open ≡ state.old.open }
    ensures same { (method.now ≡ codes "shutdown") ⊎ (state.new ≡ state.old) }
    ensures notices { All IsNotice result.items }
{
    if method == "shutdown" {
        match faults(alloc, state) {
            Ok(notices) => return notices,
            Err(AllocError) => {}
        }
    }
    Vec::new(alloc)
}

/// Returns the reply to a request, or one that memory is short.
fn any_reply(
    alloc: Global,
    state: &mut State,
    method: &str,
    id: &Value<'_>,
    params: &Value<'_>,
) -> Result<String, AllocError>
    ensures open { state.new.open ≡ state.old.open }
    ensures replied { IfOk result (IsReplyTo (value_view id.now)) }
    ensures answered { state.old.phase ≡ Phase.Running → IfOk result (IsAnswer state.old (value_view id.now) method.now (value_view params.now)) }
    ensures started { state.old.phase ≡ Phase.New → method.now ≡ codes "initialize"
        → IfOk result (λ m. IsFailure (value_view id.now) m ⊎ ((state.new.phase ≡ Phase.Running) × IsGreeting (value_view id.now) state.new.client.encoding m)) }
    ensures client { (state.new.client ≡ state.old.client) ⊎ ((state.old.phase ≡ Phase.New) × (state.new.phase ≡ Phase.Running)) }
    ensures over { is_over state.new.phase ≡ is_over state.old.phase }
{
    match reply(alloc, state, method, id, params) {
        Ok(reply) => Ok(reply),
        Err(AllocError) => reply_to(alloc, id, Err(Wrong::Memory)),
    }
}

/// Takes a notification. Those that may not come now, and unknown ones, are ignored.
fn notification(
    alloc: Global,
    state: &mut State,
    method: &str,
    params: &Value<'_>,
) -> Result<Notices, AllocError>
    ensures early { (state.old.phase ≡ Phase.Running → ⊥) → (method.now ≡ codes "exit" → ⊥) → state.new ≡ state.old }
    ensures ignored { IsIgnored method.now → state.new ≡ state.old }
    ensures exit { method.now ≡ codes "exit"
        → state.new ≡ record state.old { phase = Phase.Over (is_down state.old.phase) } }
    ensures told { state.old.phase ≡ Phase.Running → (note : Note) (texts : Texts) → Tells method.now (value_view params.now) note
        → Agrees state.old texts → Agrees state.new (after state.old.client.encoding note texts) }
    ensures untold { ((note : Note) → Tells method.now (value_view params.now) note → ⊥)
        → (texts : Texts) → Agrees state.old texts → Agrees state.new texts }
    ensures session { (method.now ≡ codes "exit" → ⊥) → SessionStays state.old state.new }
    ensures stays { (uri : List ℕ) (changes : List (Option Range × Text)) → Tells method.now (value_view params.now) (Changed uri changes)
        → StaysOpen state.old state.new uri }
    ensures others { UnnamedStay state.old state.new (value_view params.now) }
    ensures taken { state.old.phase ≡ Phase.Running → (note : Note) → Tells method.now (value_view params.now) note
        → IfOk result (λ out. IsTaken state.old state.new (LogsOf out.items) note) }
    ensures due { state.old.phase ≡ Phase.Running → (note : Note) → Tells method.now (value_view params.now) note
        → IfOk result (λ out. MarksDue state.old state.new (LogsOf out.items) note) }
    ensures unasked { IfOk result (λ out. All IsNotice out.items) }
{
    match state.notify(alloc, method, params) {
        Outcome::Nothing => Ok(Vec::new(alloc)),
        Outcome::Unknown(uri) => one(alloc, unknown_notice(alloc, uri)?),
        Outcome::Closed(uri) => one(alloc, no_faults_notice(alloc, uri)?),
    }
}
