//! The exchanges of a session.

use lsp::{State, step};
use std::alloc::Global;

/// A message of a client, and what the server sends for it.
#[derive(Clone, Copy)]
pub(crate) struct Exchange {
    pub(crate) name: &'static str,
    pub(crate) message: &'static str,
    /// The message that opens the document as it is before, if it is open.
    reopen: Option<&'static str>,
    /// The message that is sent if the exchange failed.
    again: &'static str,
    /// A part of a message that the server sends.
    part: &'static str,
}

impl Exchange {
    /// Sends the message, and returns whether the server sends the part.
    pub(crate) fn is_made(&self, alloc: Global, state: &mut State) -> bool {
        self.is_answered(alloc, state, self.message)
    }

    /// Opens the document, in case the message was lost, sends the other message, and returns whether the server sends the
    /// part.
    pub(crate) fn is_made_again(&self, alloc: Global, state: &mut State) -> bool {
        if let Some(message) = self.reopen {
            if step(alloc, state, message).is_err() {
                return false;
            }
        }
        self.is_answered(alloc, state, self.again)
    }

    fn is_answered(&self, alloc: Global, state: &mut State, message: &str) -> bool {
        match step(alloc, state, message) {
            Ok(replies) => replies.iter().any(|reply| reply.contains(self.part)),
            Err(_error) => false,
        }
    }
}

/// Opens the document with its text at first.
const OPEN_1: &str =
    r##"{"jsonrpc":"2.0","method":"textDocument/didOpen","params":{"textDocument":{"uri":"file:///a.kdl","languageId":"kdl","version":1,"text":"a {\n  b 1\n}\n"}}}"##;

/// Opens the document with its text after the first changes.
const OPEN_2: &str =
    r##"{"jsonrpc":"2.0","method":"textDocument/didOpen","params":{"textDocument":{"uri":"file:///a.kdl","languageId":"kdl","version":1,"text":"a {\n  b 12 true\n}\n"}}}"##;

/// Opens the document with its text after all changes.
const OPEN_3: &str =
    r##"{"jsonrpc":"2.0","method":"textDocument/didOpen","params":{"textDocument":{"uri":"file:///a.kdl","languageId":"kdl","version":1,"text":"a {\n  b 12 #true\n}\n"}}}"##;

/// The exchanges.
pub(crate) static EXCHANGES: [Exchange; 15] = [
    Exchange {
        name: "initialize",
        reopen: None,
        message: r#"{"jsonrpc":"2.0","id":0,"method":"initialize","params":{"capabilities":{"general":{"positionEncodings":["utf-8"]},"textDocument":{"publishDiagnostics":{"relatedInformation":true}}}}}"#,
        again: r#"{"jsonrpc":"2.0","id":0,"method":"initialize","params":{"capabilities":{"general":{"positionEncodings":["utf-8"]},"textDocument":{"publishDiagnostics":{"relatedInformation":true}}}}}"#,
        part: r#""positionEncoding":"utf-8""#,
    },
    Exchange {
        name: "didOpen",
        reopen: None,
        message: r#"{"jsonrpc":"2.0","method":"textDocument/didOpen","params":{"textDocument":{"uri":"file:///a.kdl","languageId":"kdl","version":1,"text":"a {\n  b 1\n}\n"}}}"#,
        again: r#"{"jsonrpc":"2.0","method":"textDocument/didOpen","params":{"textDocument":{"uri":"file:///a.kdl","languageId":"kdl","version":1,"text":"a {\n  b 1\n}\n"}}}"#,
        part: r#""version":1,"diagnostics":[]"#,
    },
    Exchange {
        name: "didChange",
        reopen: Some(OPEN_1),
        message: r#"{"jsonrpc":"2.0","method":"textDocument/didChange","params":{"textDocument":{"uri":"file:///a.kdl","version":2},"contentChanges":[{"range":{"start":{"line":1,"character":5},"end":{"line":1,"character":5}},"text":"2"},{"range":{"start":{"line":1,"character":6},"end":{"line":1,"character":6}},"text":" true"}]}}"#,
        again: r#"{"jsonrpc":"2.0","method":"textDocument/didChange","params":{"textDocument":{"uri":"file:///a.kdl","version":2},"contentChanges":[{"text":"a {\n  b 12 true\n}\n"}]}}"#,
        part: r#""version":2,"diagnostics":[{"#,
    },
    Exchange {
        name: "codeAction",
        reopen: Some(OPEN_2),
        message: r#"{"jsonrpc":"2.0","id":1,"method":"textDocument/codeAction","params":{"textDocument":{"uri":"file:///a.kdl"},"range":{"start":{"line":1,"character":7},"end":{"line":1,"character":7}},"context":{"diagnostics":[]}}}"#,
        again: r#"{"jsonrpc":"2.0","id":1,"method":"textDocument/codeAction","params":{"textDocument":{"uri":"file:///a.kdl"},"range":{"start":{"line":1,"character":7},"end":{"line":1,"character":7}},"context":{"diagnostics":[]}}}"#,
        part: r##""newText":"#""##,
    },
    Exchange {
        name: "second didChange",
        reopen: Some(OPEN_2),
        message: r##"{"jsonrpc":"2.0","method":"textDocument/didChange","params":{"textDocument":{"uri":"file:///a.kdl","version":3},"contentChanges":[{"range":{"start":{"line":1,"character":7},"end":{"line":1,"character":7}},"text":"#"}]}}"##,
        again: r#"{"jsonrpc":"2.0","method":"textDocument/didChange","params":{"textDocument":{"uri":"file:///a.kdl","version":3},"contentChanges":[{"text":"a {\n  b 12 #true\n}\n"}]}}"#,
        part: r#""version":3,"diagnostics":[]"#,
    },
    Exchange {
        name: "hover",
        reopen: Some(OPEN_3),
        message: r#"{"jsonrpc":"2.0","id":2,"method":"textDocument/hover","params":{"textDocument":{"uri":"file:///a.kdl"},"position":{"line":1,"character":5}}}"#,
        again: r#"{"jsonrpc":"2.0","id":2,"method":"textDocument/hover","params":{"textDocument":{"uri":"file:///a.kdl"},"position":{"line":1,"character":5}}}"#,
        part: r#"0xc"#,
    },
    Exchange {
        name: "completion",
        reopen: Some(OPEN_3),
        message: r#"{"jsonrpc":"2.0","id":3,"method":"textDocument/completion","params":{"textDocument":{"uri":"file:///a.kdl"},"position":{"line":1,"character":3}}}"#,
        again: r#"{"jsonrpc":"2.0","id":3,"method":"textDocument/completion","params":{"textDocument":{"uri":"file:///a.kdl"},"position":{"line":1,"character":3}}}"#,
        part: r#""result":["#,
    },
    Exchange {
        name: "documentSymbol",
        reopen: Some(OPEN_3),
        message: r#"{"jsonrpc":"2.0","id":4,"method":"textDocument/documentSymbol","params":{"textDocument":{"uri":"file:///a.kdl"}}}"#,
        again: r#"{"jsonrpc":"2.0","id":4,"method":"textDocument/documentSymbol","params":{"textDocument":{"uri":"file:///a.kdl"}}}"#,
        part: r#""name":"b""#,
    },
    Exchange {
        name: "foldingRange",
        reopen: Some(OPEN_3),
        message: r#"{"jsonrpc":"2.0","id":5,"method":"textDocument/foldingRange","params":{"textDocument":{"uri":"file:///a.kdl"}}}"#,
        again: r#"{"jsonrpc":"2.0","id":5,"method":"textDocument/foldingRange","params":{"textDocument":{"uri":"file:///a.kdl"}}}"#,
        part: r#""startLine":0"#,
    },
    Exchange {
        name: "selectionRange",
        reopen: Some(OPEN_3),
        message: r#"{"jsonrpc":"2.0","id":6,"method":"textDocument/selectionRange","params":{"textDocument":{"uri":"file:///a.kdl"},"positions":[{"line":1,"character":5}]}}"#,
        again: r#"{"jsonrpc":"2.0","id":6,"method":"textDocument/selectionRange","params":{"textDocument":{"uri":"file:///a.kdl"},"positions":[{"line":1,"character":5}]}}"#,
        part: r#""parent""#,
    },
    Exchange {
        name: "semanticTokens",
        reopen: Some(OPEN_3),
        message: r#"{"jsonrpc":"2.0","id":7,"method":"textDocument/semanticTokens/full","params":{"textDocument":{"uri":"file:///a.kdl"}}}"#,
        again: r#"{"jsonrpc":"2.0","id":7,"method":"textDocument/semanticTokens/full","params":{"textDocument":{"uri":"file:///a.kdl"}}}"#,
        part: r#""data":["#,
    },
    Exchange {
        name: "formatting",
        reopen: Some(OPEN_3),
        message: r#"{"jsonrpc":"2.0","id":8,"method":"textDocument/formatting","params":{"textDocument":{"uri":"file:///a.kdl"},"options":{"tabSize":4,"insertSpaces":true}}}"#,
        again: r#"{"jsonrpc":"2.0","id":8,"method":"textDocument/formatting","params":{"textDocument":{"uri":"file:///a.kdl"},"options":{"tabSize":4,"insertSpaces":true}}}"#,
        part: r#""newText":"    b 12 #true\n""#,
    },
    Exchange {
        name: "rangeFormatting",
        reopen: Some(OPEN_3),
        message: r#"{"jsonrpc":"2.0","id":9,"method":"textDocument/rangeFormatting","params":{"textDocument":{"uri":"file:///a.kdl"},"range":{"start":{"line":1,"character":0},"end":{"line":1,"character":3}},"options":{"tabSize":4,"insertSpaces":true}}}"#,
        again: r#"{"jsonrpc":"2.0","id":9,"method":"textDocument/rangeFormatting","params":{"textDocument":{"uri":"file:///a.kdl"},"range":{"start":{"line":1,"character":0},"end":{"line":1,"character":3}},"options":{"tabSize":4,"insertSpaces":true}}}"#,
        part: r#""newText":"    b 12 #true\n""#,
    },
    Exchange {
        name: "didClose",
        reopen: Some(OPEN_3),
        message: r#"{"jsonrpc":"2.0","method":"textDocument/didClose","params":{"textDocument":{"uri":"file:///a.kdl"}}}"#,
        again: r#"{"jsonrpc":"2.0","method":"textDocument/didClose","params":{"textDocument":{"uri":"file:///a.kdl"}}}"#,
        part: r#""diagnostics":[]"#,
    },
    Exchange {
        name: "shutdown",
        reopen: None,
        message: r#"{"jsonrpc":"2.0","id":99,"method":"shutdown"}"#,
        again: r#"{"jsonrpc":"2.0","id":99,"method":"shutdown"}"#,
        part: r#""id":99,"result":null"#,
    },
];
