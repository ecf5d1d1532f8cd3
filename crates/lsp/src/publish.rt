//! Notifications of the server.

ghost use Rattle.lsp.specs.Faults.{PublishEach, PublishOne};
ghost use Rattle.lsp.specs.Replies.{IsLogOf};
ghost use Rattle.lsp.specs.Turns.{Publishes, sent_of};
ghost use Rattle.std.specs.Global.{Global};
ghost use Rattle.std.specs.Prelude.{◌≡◌, ◌++◌, List, String, IfOk, OnOk};

use crate::faults::faults_notice;
use crate::write::log_notice;
use lsp_documents::State;
use std::alloc::{AllocError, Global};

/// Messages to be sent, in order.
pub(crate) type Notices = Vec<String>;

/// Returns the messages with the faults of the documents that are due. They are no longer due, unless memory is short.
pub(crate) fn faults(alloc: Global, state: &mut State) -> Result<Notices, AllocError>
    ensures { Publishes state.old (sent_of result) state.new }
{
    let mut out = Vec::new(alloc);
    put_due(alloc, state, &mut out)?;
    state.due.clear();
    Ok(out)
}

/// Sends the faults of the documents that are due, and whose text is known.
fn put_due(alloc: Global, state: &State, out: &mut Notices) -> Result<(), AllocError>
    ensures { OnOk result ((ms : List (String Global)) × (out.new.items ≡ out.old.items ++ ms) × PublishEach state.now state.now.due.items ms) }
{
    for uri in &state.due {
        put_one(alloc, state, uri, out)?;
    }
    Ok(())
}

/// Sends the faults of a document, if its text is known.
fn put_one(alloc: Global, state: &State, uri: &str, out: &mut Notices) -> Result<(), AllocError>
    ensures { OnOk result ((ms : List (String Global)) × (out.new.items ≡ out.old.items ++ ms) × PublishOne state.now uri.now ms) }
{
    let Some(document) = state.open.get(uri) else {
        return Ok(());
    };
    let Some(text) = &document.text else {
        return Ok(());
    };
    let notice = faults_notice(alloc, uri, document.version, text, state.client)?;
    Ok(out.push(notice)?)
}

/// Returns the message that the text of a document is not known.
pub(crate) fn unknown_notice(alloc: Global, uri: &str) -> Result<String, AllocError>
    ensures { IfOk result (IsLogOf uri.now) }
{
    let text = format!(in alloc;
        "kdl: {uri}: a change is not applied: the text is not known up to the next whole text"
    )?;
    log_notice(alloc, &text)
}
