//! Messages that come at once.

use lsp::serve;
use lsp_frames::{messages_of, write_frame};
use std::alloc::Global;
use std::io;
use std::str::from_utf8;

/// A document is opened and changed, and the session ends.
static MESSAGES: [&str; 8] = [
    r#"{"jsonrpc":"2.0","id":0,"method":"initialize","params":{"capabilities":{"general":{"positionEncodings":["utf-8"]},"textDocument":{"publishDiagnostics":{"relatedInformation":true}}}}}"#,
    r#"{"jsonrpc":"2.0","method":"textDocument/didOpen","params":{"textDocument":{"uri":"file:///b.kdl","languageId":"kdl","version":1,"text":"\n"}}}"#,
    r#"{"jsonrpc":"2.0","method":"textDocument/didChange","params":{"textDocument":{"uri":"file:///b.kdl","version":2},"contentChanges":[{"range":{"start":{"line":0,"character":0},"end":{"line":0,"character":0}},"text":"a"}]}}"#,
    r#"{"jsonrpc":"2.0","method":"textDocument/didChange","params":{"textDocument":{"uri":"file:///b.kdl","version":3},"contentChanges":[{"range":{"start":{"line":0,"character":1},"end":{"line":0,"character":1}},"text":" "}]}}"#,
    r#"{"jsonrpc":"2.0","method":"textDocument/didChange","params":{"textDocument":{"uri":"file:///b.kdl","version":4},"contentChanges":[{"range":{"start":{"line":0,"character":2},"end":{"line":0,"character":2}},"text":"0x"}]}}"#,
    r#"{"jsonrpc":"2.0","method":"textDocument/didChange","params":{"textDocument":{"uri":"file:///b.kdl","version":5},"contentChanges":[{"range":{"start":{"line":0,"character":4},"end":{"line":0,"character":4}},"text":"1"}]}}"#,
    r#"{"jsonrpc":"2.0","id":1,"method":"shutdown"}"#,
    r#"{"jsonrpc":"2.0","method":"exit"}"#,
];

/// Serves a session whose messages come at once, and writes what the server sends.
pub(crate) fn take_at_once(rt: &HostRuntime, alloc: Global) -> io::Result<()> {
    let mut input = Vec::new(alloc);
    for message in &MESSAGES {
        write_frame(&mut input, message)?;
    }
    let mut output = Vec::new(alloc);
    let end = serve(alloc, &mut input.as_slice(), &mut output)?;
    for message in &messages_of(alloc, &[output])? {
        println!(rt; "{}", from_utf8(message).unwrap_or("no text"))?;
    }
    println!(rt; "{}", end.why().unwrap_or("exit came after shutdown"))
}
