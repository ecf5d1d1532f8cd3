//! Lines of one character, about which each request has a result.

use lsp::{Phase, State, step};
use std::alloc::{AllocError, Global};
use std::io;

/// The newlines of KDL.
static NEWLINES: [&str; 8] = [
    "\r\n", "\r", "\n", "\u{85}", "\u{b}", "\u{c}", "\u{2028}", "\u{2029}",
];

/// The characters that no document has, except those of ASCII. U+FEFF may only begin a text.
static REFUSED: [char; 12] = [
    '\u{200e}', '\u{200f}', '\u{202a}', '\u{202b}', '\u{202c}', '\u{202d}', '\u{202e}', '\u{2066}',
    '\u{2067}', '\u{2068}', '\u{2069}', '\u{feff}',
];

/// The requests about a document.
static REQUESTS: [&str; 9] = [
    r#"{"jsonrpc":"2.0","id":7,"method":"textDocument/formatting","params":{"textDocument":{"uri":"d"},"options":{"tabSize":4,"insertSpaces":true}}}"#,
    r#"{"jsonrpc":"2.0","id":7,"method":"textDocument/rangeFormatting","params":{"textDocument":{"uri":"d"},"range":{"start":{"line":0,"character":0},"end":{"line":1,"character":1}},"options":{"tabSize":4,"insertSpaces":true}}}"#,
    r#"{"jsonrpc":"2.0","id":7,"method":"textDocument/documentSymbol","params":{"textDocument":{"uri":"d"}}}"#,
    r#"{"jsonrpc":"2.0","id":7,"method":"textDocument/foldingRange","params":{"textDocument":{"uri":"d"}}}"#,
    r#"{"jsonrpc":"2.0","id":7,"method":"textDocument/semanticTokens/full","params":{"textDocument":{"uri":"d"}}}"#,
    r#"{"jsonrpc":"2.0","id":7,"method":"textDocument/hover","params":{"textDocument":{"uri":"d"},"position":{"line":1,"character":0}}}"#,
    r#"{"jsonrpc":"2.0","id":7,"method":"textDocument/completion","params":{"textDocument":{"uri":"d"},"position":{"line":1,"character":1}}}"#,
    r#"{"jsonrpc":"2.0","id":7,"method":"textDocument/selectionRange","params":{"textDocument":{"uri":"d"},"positions":[{"line":1,"character":0}]}}"#,
    r#"{"jsonrpc":"2.0","id":7,"method":"textDocument/codeAction","params":{"textDocument":{"uri":"d"},"range":{"start":{"line":0,"character":0},"end":{"line":9,"character":0}},"context":{"diagnostics":[]}}}"#,
];

/// How many requests had a result, and how many had none.
#[derive(Clone, Copy)]
struct Count {
    done: u64,
    failed: u64,
}

/// Writes how many requests about lines of one character have a result: each character of ASCII and each refused one, after
/// each newline, with and without a space before it.
pub(crate) fn write_count(rt: &HostRuntime, alloc: Global) -> io::Result<()> {
    let mut state = State::new(alloc);
    state.phase = Phase::Running;
    let mut count = Count { done: 0, failed: 0 };
    for byte in 0..128u8 {
        ask_after_each(alloc, &mut state, char::from(byte), &mut count)?;
    }
    for c in REFUSED {
        ask_after_each(alloc, &mut state, c, &mut count)?;
    }
    let Count { done, failed } = count;
    println!(rt; "requests about lines of one character: {done} have a result, {failed} have none")
}

/// Asks about a character alone on its line.
fn ask_after_each(
    alloc: Global,
    state: &mut State,
    c: char,
    count: &mut Count,
) -> Result<(), AllocError> {
    for newline in NEWLINES {
        for space in ["", " "] {
            let text = format!(in alloc; "a{newline}{space}{c}")?;
            ask_all(alloc, state, &text, count)?;
        }
    }
    Ok(())
}

/// Opens a text, and sends each request about it.
fn ask_all(
    alloc: Global,
    state: &mut State,
    text: &str,
    count: &mut Count,
) -> Result<(), AllocError> {
    let text = escaped(alloc, text)?;
    let open = format!(in alloc;
        r#"{{"jsonrpc":"2.0","method":"textDocument/didOpen","params":{{"textDocument":{{"uri":"d","languageId":"kdl","version":1,"text":"{text}"}}}}}}"#
    )?;
    step(alloc, state, &open)?;
    for request in REQUESTS {
        let replies = step(alloc, state, request)?;
        if replies
            .iter()
            .any(|reply| reply.contains(r#""id":7,"result":"#))
        {
            count.done = count.done.saturating_add(1);
        } else {
            count.failed = count.failed.saturating_add(1);
        }
    }
    Ok(())
}

/// Returns a text, without characters beyond U+FFFF, as it is between the quotes of a string of JSON.
fn escaped(alloc: Global, text: &str) -> Result<String, AllocError> {
    let mut out = String::new(alloc);
    for c in text.chars() {
        let code = u32::from(c);
        out.push_str(&format!(in alloc; "\\u{code:04x}")?)?;
    }
    Ok(out)
}
