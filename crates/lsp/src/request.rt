//! Requests.

ghost use Rattle.json.specs.Find.{as_str};
ghost use Rattle.json.specs.Reads.{token_of};
ghost use Rattle.json.specs.Json.{Json, Members as JsonMembers};
ghost use Rattle.json.specs.Value.{value_view};
ghost use Rattle.lsp.specs.Contents.{IsAnswer, IsContent, IsFormatted, IsRangeFormatted, text_in};
ghost use Rattle.lsp.specs.Messages.{Asks, encoding_name, is_known};
ghost use Rattle.lsp.specs.Internal.Nesting.{Grows, WritesMembers, begins_object, greeting_head};
ghost use Rattle.lsp.specs.Replies.{IsGreeting, IsJson, IsReplyTo, IsSomeJson, IsWritten, greeting_json};
ghost use Rattle.lsp_documents.specs.States.{is_over};
ghost use Rattle.std.specs.Prelude.{◌≡◌, ◌⊎◌, Err, IfErr, IfOk, MatchOption, Ok, OnErr, OnOk, codes, is_some, option_and_then, option_map, string_bytes};

use crate::complete::completion;
use crate::fix::actions;
use crate::fold::folds;
use crate::format::{formatting, range_formatting};
use crate::hover::hover;
use crate::selection::selections;
use crate::symbols::symbols;
use crate::tokens::{LEGEND, tokens};
use crate::write::{Out, Wrong, begin, end, null_json, put_number, put_text, put_true, reply_to};
use json::{Error, MAX_DEPTH, Reader, Scratch, Token, Value};
use lsp_documents::params::{encoding, uri};
use lsp_documents::{Client, Phase, State};
use lsp_text::Encoding;
use std::alloc::{AllocError, Global};

/// Returns the reply to a request.
pub(crate) fn reply(
    alloc: Global,
    state: &mut State,
    method: &str,
    id: &Value<'_>,
    params: &Value<'_>,
) -> Result<String, AllocError>
    // A request leaves the state as it was, but for `initialize` before the session and `shutdown` in it.
    ensures new { state.old.phase ≡ Phase.New → (method.now ≡ codes "initialize" → ⊥) → state.new ≡ state.old }
    ensures running { state.old.phase ≡ Phase.Running → (method.now ≡ codes "shutdown" → ⊥) → state.new ≡ state.old }
    ensures down { state.old.phase ≡ Phase.Down → state.new ≡ state.old }
    ensures err { OnErr result (state.new ≡ state.old) }
    ensures open { state.new.open ≡ state.old.open }
    ensures replied { IfOk result (IsReplyTo (value_view id.now)) }
    ensures answered { state.old.phase ≡ Phase.Running → IfOk result (IsAnswer state.old (value_view id.now) method.now (value_view params.now)) }
    ensures client { (state.new.client ≡ state.old.client) ⊎ ((state.old.phase ≡ Phase.New) × (state.new.phase ≡ Phase.Running)) }
    ensures over { is_over state.new.phase ≡ is_over state.old.phase }
    ensures greeting { state.old.phase ≡ Phase.New → method.now ≡ codes "initialize"
        → IfOk result (IsGreeting (value_view id.now) state.new.client.encoding) }
    ensures initialize { state.old.phase ≡ Phase.New → method.now ≡ codes "initialize"
        → OnOk result (state.new ≡ record state.old { phase = Phase.Running; client = state.new.client }) }
    ensures shutdown { state.old.phase ≡ Phase.Running → method.now ≡ codes "shutdown"
        → OnOk result (state.new ≡ record state.old { phase = Phase.Down }) }
{
    match state.phase {
        Phase::New if method == "initialize" => initialize(alloc, state, id, params),
        Phase::Running if method == "shutdown" => {
            let null = null_json(alloc)?;
            let reply = reply_to(alloc, id, Ok(null))?;
            state.phase = Phase::Down;
            Ok(reply)
        }
        _ => reply_to(alloc, id, content(alloc, state, method, params)),
    }
}

/// Returns the identifier of a text that is a request. Only an identifier or a method that is a list or an object takes
/// memory, and a text for which `scratch` has no room.
pub(crate) fn request_id<'a>(
    alloc: Global,
    text: &'a str,
    scratch: &'a mut Scratch,
) -> Result<Option<Value<'a>>, Error>
    ensures found { IfOk result (λ found. MatchOption found ((id : Json) → Asks text.now id → ⊥) (λ id. Asks text.now (value_view id))) }
    ensures invalid { result ≡ Err Error.Invalid → (id : Json) → Asks text.now id → ⊥ }
{
    let mut reader = Reader::new(text, scratch)?;
    if !begins_object(reader.next()) {
        return Ok(None);
    }
    let mut id = None;
    let mut method = None;
    while let Some(key) = reader.next_key()? {
        match key {
            "id" => id = Some(Value::read(alloc, &mut reader, MAX_DEPTH - 1)?),
            "method" => method = Some(Value::read(alloc, &mut reader, MAX_DEPTH - 1)?),
            _ => reader.skip_value(MAX_DEPTH - 1)?,
        }
    }
    if reader.next().is_some() {
        return Ok(None);
    }
    if !is_text(&method) {
        return Ok(None);
    }
    Ok(id)
}

/// Returns whether a token begins an object.
fn begins_object(token: Option<Token<'_>>) -> bool
    ensures { result ≡ begins_object (option_map token_of token.entry) }
{
    matches!(token, Some(Token::BeginObject))
}

/// Returns whether a value is there, and is a string.
fn is_text(value: &Option<Value<'_>>) -> bool
    ensures { result ≡ is_some (option_and_then as_str (option_map value_view value.now)) }
{
    match value {
        Some(value) => value.as_str().is_some(),
        None => false,
    }
}

/// Begins the session.
fn initialize(
    alloc: Global,
    state: &mut State,
    id: &Value<'_>,
    params: &Value<'_>,
) -> Result<String, AllocError>
    ensures ok { OnOk result (state.new ≡ record state.old { phase = Phase.Running; client = state.new.client }) }
    ensures err { OnErr result (state.new ≡ state.old) }
    ensures replied { IfOk result (IsReplyTo (value_view id.now)) }
    ensures greeting { IfOk result (IsGreeting (value_view id.now) state.new.client.encoding) }
{
    let client = Client {
        encoding: encoding(params),
        has_related: has_related(params),
    };
    let content = greeting(alloc, client.encoding)?;
    let reply = reply_to(alloc, id, Ok(content))?;
    state.client = client;
    state.phase = Phase::Running;
    Ok(reply)
}

/// Returns the result of `initialize`: what the server can do, and its name.
fn greeting(alloc: Global, encoding: Encoding) -> Result<String, AllocError>
    ensures { IfOk result (λ text. (more rest : JsonMembers) × IsJson (greeting_json encoding more rest) (string_bytes text)) }
{
    let mut out = begin_greeting(alloc, encoding)?;
    put_capabilities(&mut out)?;
    out.end_object()?;
    put_server(&mut out)?;
    out.end_object()?;
    Ok(end(alloc, out))
}

/// Begins the result of `initialize`, with what positions count.
fn begin_greeting(alloc: Global, encoding: Encoding) -> Result<Out, AllocError>
    ensures { IfOk result (λ out. IsWritten out (greeting_head encoding)) }
{
    let mut out = begin(alloc);
    out.begin_object()?;
    out.key("capabilities")?;
    out.begin_object()?;
    put_text(&mut out, "positionEncoding", encoding_name(encoding))?;
    Ok(out)
}

/// Writes what the server can do.
fn put_capabilities(out: &mut Out) -> Result<(), AllocError>
    ensures grows { OnOk result (Grows out.old out.new) }
    ensures members { OnOk result (WritesMembers out.old out.new) }
{
    put_sync(out)?;
    put_providers(out)?;
    out.key("completionProvider")?;
    out.begin_object()?;
    out.end_object()?;
    put_fixes(out)?;
    put_token_provider(out)
}

/// Writes which notifications about documents the server takes.
fn put_sync(out: &mut Out) -> Result<(), AllocError>
    ensures grows { OnOk result (Grows out.old out.new) }
    ensures members { OnOk result (WritesMembers out.old out.new) }
{
    out.key("textDocumentSync")?;
    out.begin_object()?;
    put_true(out, "openClose")?;
    put_number(out, "change", 2)?;
    out.end_object()
}

/// Writes which requests the server takes, but for those with options.
fn put_providers(out: &mut Out) -> Result<(), AllocError>
    ensures grows { OnOk result (Grows out.old out.new) }
    ensures members { OnOk result (WritesMembers out.old out.new) }
{
    put_true(out, "documentFormattingProvider")?;
    put_true(out, "documentRangeFormattingProvider")?;
    put_true(out, "documentSymbolProvider")?;
    put_true(out, "foldingRangeProvider")?;
    put_true(out, "hoverProvider")?;
    put_true(out, "selectionRangeProvider")
}

/// Writes that there are fixes.
fn put_fixes(out: &mut Out) -> Result<(), AllocError>
    ensures grows { OnOk result (Grows out.old out.new) }
    ensures members { OnOk result (WritesMembers out.old out.new) }
{
    out.key("codeActionProvider")?;
    out.begin_object()?;
    put_names(out, "codeActionKinds", &["quickfix"])?;
    out.end_object()
}

/// Writes that there are tokens for highlighting, and their classes.
fn put_token_provider(out: &mut Out) -> Result<(), AllocError>
    ensures grows { OnOk result (Grows out.old out.new) }
    ensures members { OnOk result (WritesMembers out.old out.new) }
{
    out.key("semanticTokensProvider")?;
    out.begin_object()?;
    put_legend(out)?;
    put_true(out, "full")?;
    out.end_object()
}

/// Writes the classes of tokens.
fn put_legend(out: &mut Out) -> Result<(), AllocError>
    ensures grows { OnOk result (Grows out.old out.new) }
    ensures members { OnOk result (WritesMembers out.old out.new) }
{
    out.key("legend")?;
    out.begin_object()?;
    put_names(out, "tokenTypes", &LEGEND)?;
    put_names(out, "tokenModifiers", &[])?;
    out.end_object()
}

/// Writes a member that is a list of names.
fn put_names(out: &mut Out, key: &str, names: &[&str]) -> Result<(), AllocError>
    ensures grows { OnOk result (Grows out.old out.new) }
    ensures members { OnOk result (WritesMembers out.old out.new) }
{
    out.key(key)?;
    out.begin_array()?;
    for name in names {
        out.string(name)?;
    }
    out.end_array()
}

/// Writes the name of the server.
fn put_server(out: &mut Out) -> Result<(), AllocError>
    ensures grows { OnOk result (Grows out.old out.new) }
    ensures members { OnOk result (WritesMembers out.old out.new) }
{
    out.key("serverInfo")?;
    out.begin_object()?;
    put_text(out, "name", "kdl")?;
    out.end_object()
}

/// Returns whether the client of `initialize` shows what is related to a fault.
fn has_related(params: &Value<'_>) -> bool {
    let faults = params
        .get("capabilities")
        .and_then(|value| value.get("textDocument"))
        .and_then(|value| value.get("publishDiagnostics"));
    faults
        .and_then(|value| value.get("relatedInformation"))
        .and_then(Value::as_bool)
        == Some(true)
}

/// Returns the name of an encoding.
fn encoding_name(encoding: Encoding) -> &'static str
    ensures { result.now ≡ encoding_name encoding }
{
    match encoding {
        Encoding::Utf8 => "utf-8",
        Encoding::Utf16 => "utf-16",
        Encoding::Utf32 => "utf-32",
    }
}

/// Returns the result of a request that leaves the state as it is.
fn content(alloc: Global, state: &State, method: &str, params: &Value<'_>) -> Result<String, Wrong>
    ensures content { state.now.phase ≡ Phase.Running → IsContent state.now method.now (value_view params.now) result }
    ensures json { IfOk result IsSomeJson }
{
    match state.phase {
        Phase::New => Err(Wrong::Early),
        Phase::Running if method == "initialize" => Err(Wrong::Invalid),
        Phase::Running if is_known(method) => document_content(alloc, state, method, params),
        Phase::Running => Err(Wrong::Method),
        Phase::Down | Phase::Over { .. } => Err(Wrong::Invalid),
    }
}

/// Returns the result of a request about a document.
fn document_content(
    alloc: Global,
    state: &State,
    method: &str,
    params: &Value<'_>,
) -> Result<String, Wrong>
    ensures content { IsContent state.now method.now (value_view params.now) result }
    ensures json { IfOk result IsSomeJson }
{
    let text = text_in(state, params)?;
    text_content(alloc, state.client, method, params, text)
}

/// Returns the text of the document that parameters name.
fn text_in<'s>(state: &'s State, params: &Value<'_>) -> Result<&'s str, Wrong>
    ensures ok { IfOk result (λ text. text_in state.now (value_view params.now) ≡ Ok text.now) }
    ensures err { IfErr result (λ wrong. text_in state.now (value_view params.now) ≡ Err wrong) }
{
    let Some(uri) = uri(params) else {
        return Err(Wrong::Params);
    };
    let Some(document) = state.open.get(uri) else {
        return Err(Wrong::Params);
    };
    match &document.text {
        Some(text) => Ok(text),
        None => Err(Wrong::Unknown),
    }
}

/// Returns the result of a request about a text.
fn text_content(
    alloc: Global,
    client: Client,
    method: &str,
    params: &Value<'_>,
    text: &str,
) -> Result<String, Wrong>
    ensures formatting { method.now ≡ codes "textDocument/formatting"
        → (result ≡ Err Wrong.Memory) ⊎ IsFormatted client.encoding (value_view params.now) text.now result }
    ensures range_formatting { method.now ≡ codes "textDocument/rangeFormatting"
        → (result ≡ Err Wrong.Memory) ⊎ IsRangeFormatted client.encoding (value_view params.now) text.now result }
    ensures json { IfOk result IsSomeJson }
{
    let encoding = client.encoding;
    match method {
        "textDocument/formatting" => formatting(alloc, params, text, encoding),
        "textDocument/rangeFormatting" => range_formatting(alloc, params, text, encoding),
        "textDocument/documentSymbol" => symbols(alloc, text, encoding),
        "textDocument/hover" => hover(alloc, params, text, encoding),
        "textDocument/selectionRange" => selections(alloc, params, text, encoding),
        "textDocument/completion" => completion(alloc, params, text, encoding),
        "textDocument/codeAction" => actions(alloc, params, text, client),
        "textDocument/semanticTokens/full" => tokens(alloc, text, encoding),
        _ => folds(alloc, text),
    }
}

/// Returns whether there is such a request about a document.
fn is_known(method: &str) -> bool
    ensures { result ≡ is_known method.now }
{
    matches!(
        method,
        "textDocument/formatting"
            | "textDocument/rangeFormatting"
            | "textDocument/documentSymbol"
            | "textDocument/foldingRange"
            | "textDocument/hover"
            | "textDocument/selectionRange"
            | "textDocument/completion"
            | "textDocument/codeAction"
            | "textDocument/semanticTokens/full"
    )
}
