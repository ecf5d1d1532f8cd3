//! The text of a document after messages about it.

ghost use Rattle.lsp.specs.Turns.{Takes, sent_of};
ghost use Rattle.lsp_documents.specs.Notes.{Agrees, Note, Texts};
ghost use Rattle.lsp_tests.specs.Told.{TellAll, all_after};
ghost use Rattle.std.specs.Prelude.{◌≡◌, List, map};

use lsp::{Phase, State};
use std::alloc::{AllocError, Global};
use std::io;

/// A client opens a document and changes it twice.
static MESSAGES: [&str; 3] = [
    r#"{"jsonrpc":"2.0","method":"textDocument/didOpen","params":{"textDocument":{"uri":"file:///c.kdl","languageId":"kdl","version":1,"text":"a 😀\n"}}}"#,
    r#"{"jsonrpc":"2.0","method":"textDocument/didChange","params":{"textDocument":{"uri":"file:///c.kdl","version":2},"contentChanges":[{"range":{"start":{"line":0,"character":4},"end":{"line":0,"character":4}},"text":"b"}]}}"#,
    r#"{"jsonrpc":"2.0","method":"textDocument/didChange","params":{"textDocument":{"uri":"file:///c.kdl","version":3},"contentChanges":[{"range":{"start":{"line":0,"character":0},"end":{"line":0,"character":1}},"text":"c"}]}}"#,
];

/// `lsp::step`.
fn step(alloc: Global, state: &mut State, message: &str) -> Result<Vec<String>, AllocError>
    ensures { Takes state.old message.now (sent_of result) state.new }
{
    lsp::step(alloc, state, message)
}

/// Takes messages, one after another.
///
/// After any number of notifications about documents, each text that the server knows is the client's.
fn tell_all(alloc: Global, state: &mut State, messages: &[&str])
    ensures { state.old.phase ≡ Phase.Running → (notes : List Note) (texts : Texts) → TellAll (map (λ m. m.now) messages.now) notes
        → Agrees state.old texts → Agrees state.new (all_after state.old.client.encoding notes texts) }
{
    for i in 0..messages.len() {
        let message = messages[i];
        // If memory is short, the server knows no text.
        let _replies = step(alloc, state, message);
    }
}

/// Writes the text that the server has after the messages.
pub(crate) fn write_text(rt: &HostRuntime, alloc: Global) -> io::Result<()> {
    let mut state = State::new(alloc);
    state.phase = Phase::Running;
    tell_all(alloc, &mut state, &MESSAGES);
    let document = state.open.get("file:///c.kdl");
    let text = document.and_then(|document| document.text.as_deref());
    println!(rt; "{}", text.unwrap_or("no text\n").trim_end())
}
